// The operator of the self-dual embedding, from vectors like x (n, m, m, 1) to vectors like y (n, m, 1):
// op of SelfDualEmbed in solver.rs.
#![tactic(auto, unfolding(rules::specs::Helpers::one))]

ghost use Rattle.std.specs.Prelude.{◌≡◌, length};
ghost use Rattle.rules.specs.Outcome.{Outcome};
ghost use Rattle.rules.specs.Step.{op_k, on_n, on_m, on1};
ghost use Rattle.shape.specs.Fitting.{LikeX, LikeY};
ghost use Rattle.shape.specs.Lent.{lent_embed_fits, lent_embed};
ghost use Rattle.embedding.specs.Embedding.{embed_of};

use embedding::Embedding;
use shape::{Operators, embed_fits};

// y becomes alpha * K * x + beta * y. Where a length or a size doesn't fit, it answers no and changes nothing.
pub fn op(
    edition: u32,
    operators: &Operators<'_>,
    alpha: f64,
    x: &[f64],
    beta: f64,
    y: &mut [f64],
) -> bool
    ensures { Outcome
        (lent_embed_fits operators.now x.now y.old)
        (op_k (lent_embed edition operators.now) alpha x.now beta y.old)
        y.old result y.new }
{
    if !embed_fits(operators, x, y) {
        return false;
    }
    let k = Embedding {
        edition,
        operators: *operators,
    };
    op_all(&k, alpha, x, beta, y);
    true
}

fn op_all(k: &Embedding<'_>, alpha: f64, x: &[f64], beta: f64, y: &mut [f64])
    requires like_x { LikeX k.now.operators.shape x.now }
    requires like_y { LikeY k.now.operators.shape y.old }
    ensures { y.new ≡ op_k (embed_of k.now) alpha x.now beta y.old }
{
    let (y_n, rest) = y.split_at_mut(k.operators.shape.cols.0);
    let (y_m, y_1) = rest.split_at_mut(k.operators.shape.rows.0);
    op_n(k, alpha, x, beta, y_n);
    op_m(k, alpha, x, beta, y_m);
    op_1(k, alpha, x, beta, y_1);
}

fn op_n(k: &Embedding<'_>, alpha: f64, x: &[f64], beta: f64, y_n: &mut [f64])
    requires like_x { LikeX k.now.operators.shape x.now }
    requires y_n_len { length y_n.old ≡ k.now.operators.shape.cols.0 }
    ensures { y_n.new ≡ on_n (embed_of k.now) alpha x.now beta y_n.old }
{
    let x = k.split_x(x);
    k.a_trans(alpha, x.y, beta, y_n);
    k.c_op(alpha, x.tau, 1.0, y_n);
}

fn op_m(k: &Embedding<'_>, alpha: f64, x: &[f64], beta: f64, y_m: &mut [f64])
    requires like_x { LikeX k.now.operators.shape x.now }
    requires y_m_len { length y_m.old ≡ k.now.operators.shape.rows.0 }
    ensures { y_m.new ≡ on_m (embed_of k.now) alpha x.now beta y_m.old }
{
    let x = k.split_x(x);
    k.a_op(-alpha, x.x, beta, y_m);
    linalg::add(-alpha, x.s, y_m);
    k.b_op(alpha, x.tau, 1.0, y_m);
}

fn op_1(k: &Embedding<'_>, alpha: f64, x: &[f64], beta: f64, y_1: &mut [f64])
    requires like_x { LikeX k.now.operators.shape x.now }
    requires y_1_len { length y_1.old ≡ 1 }
    ensures { y_1.new ≡ on1 (embed_of k.now) alpha x.now beta y_1.old }
{
    let x = k.split_x(x);
    k.c_trans(-alpha, x.x, beta, y_1);
    k.b_trans(-alpha, x.y, 1.0, y_1);
}
