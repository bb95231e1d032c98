// The operator of the self-dual embedding, transposed, from vectors like y (n, m, 1) to vectors like x
// (n, m, m, 1): trans_op of SelfDualEmbed in solver.rs.
#![tactic(auto, unfolding(rules::specs::Helpers::one))]

ghost use Rattle.std.specs.Prelude.{◌≡◌, length};
ghost use Rattle.rules.specs.Outcome.{Outcome};
ghost use Rattle.rules.specs.Step.{trans_op_k, back_x, back_y, back_s, back_tau};
ghost use Rattle.shape.specs.Fitting.{LikeX, LikeY};
ghost use Rattle.shape.specs.Lent.{lent_embed_fits, lent_embed};
ghost use Rattle.embedding.specs.Embedding.{embed_of};

use embedding::Embedding;
use shape::{Operators, embed_fits};

// x becomes alpha * K transposed * y + beta * x. Where a length or a size doesn't fit, it answers no and changes nothing.
pub fn trans_op(
    edition: u32,
    operators: &Operators<'_>,
    alpha: f64,
    y: &[f64],
    beta: f64,
    x: &mut [f64],
) -> bool
    ensures { Outcome
        (lent_embed_fits operators.now x.old y.now)
        (trans_op_k (lent_embed edition operators.now) alpha y.now beta x.old)
        x.old result x.new }
{
    if !embed_fits(operators, x, y) {
        return false;
    }
    let k = Embedding {
        edition,
        operators: *operators,
    };
    trans_all(&k, alpha, y, beta, x);
    true
}

fn trans_all(k: &Embedding<'_>, alpha: f64, y: &[f64], beta: f64, x: &mut [f64])
    requires like_y { LikeY k.now.operators.shape y.now }
    requires like_x { LikeX k.now.operators.shape x.old }
    ensures { x.new ≡ trans_op_k (embed_of k.now) alpha y.now beta x.old }
{
    let m = k.operators.shape.rows.0;
    let (x_x, rest) = x.split_at_mut(k.operators.shape.cols.0);
    let (x_y, rest) = rest.split_at_mut(m);
    let (x_s, x_tau) = rest.split_at_mut(m);
    trans_x(k, alpha, y, beta, x_x);
    trans_y(k, alpha, y, beta, x_y);
    trans_s(k, alpha, y, beta, x_s);
    trans_tau(k, alpha, y, beta, x_tau);
}

fn trans_x(k: &Embedding<'_>, alpha: f64, y: &[f64], beta: f64, x_x: &mut [f64])
    requires like_y { LikeY k.now.operators.shape y.now }
    requires x_x_len { length x_x.old ≡ k.now.operators.shape.cols.0 }
    ensures { x_x.new ≡ back_x (embed_of k.now) alpha y.now beta x_x.old }
{
    let y = k.split_y(y);
    k.a_trans(-alpha, y.m, beta, x_x);
    k.c_op(-alpha, y.one, 1.0, x_x);
}

fn trans_y(k: &Embedding<'_>, alpha: f64, y: &[f64], beta: f64, x_y: &mut [f64])
    requires like_y { LikeY k.now.operators.shape y.now }
    requires x_y_len { length x_y.old ≡ k.now.operators.shape.rows.0 }
    ensures { x_y.new ≡ back_y (embed_of k.now) alpha y.now beta x_y.old }
{
    let y = k.split_y(y);
    k.a_op(alpha, y.n, beta, x_y);
    k.b_op(-alpha, y.one, 1.0, x_y);
}

fn trans_s(k: &Embedding<'_>, alpha: f64, y: &[f64], beta: f64, x_s: &mut [f64])
    requires like_y { LikeY k.now.operators.shape y.now }
    requires x_s_len { length x_s.old ≡ k.now.operators.shape.rows.0 }
    ensures { x_s.new ≡ back_s (embed_of k.now) alpha y.now beta x_s.old }
{
    let y = k.split_y(y);
    linalg::scale(beta, x_s);
    linalg::add(-alpha, y.m, x_s);
}

fn trans_tau(k: &Embedding<'_>, alpha: f64, y: &[f64], beta: f64, x_tau: &mut [f64])
    requires like_y { LikeY k.now.operators.shape y.now }
    requires x_tau_len { length x_tau.old ≡ 1 }
    ensures { x_tau.new ≡ back_tau (embed_of k.now) alpha y.now beta x_tau.old }
{
    let y = k.split_y(y);
    k.c_trans(alpha, y.n, beta, x_tau);
    k.b_trans(alpha, y.m, 1.0, x_tau);
}
