// The norms of b and c, and the first x and y: calc_norms, init_vecs of solver.rs.
ghost use Rattle.std.specs.Prelude.{◌+◌, ◌≤◌, ◌≡◌, ◌++◌, length, take, drop, set};
ghost use Rattle.rules.specs.Limits.{limit};
ghost use Rattle.rules.specs.Helpers.{one};
ghost use Rattle.rules.specs.Arithmetic.{+0};
ghost use Rattle.rules.specs.Vectors.{scaled};
ghost use Rattle.rules.specs.Problem.{slices, embed_in};
ghost use Rattle.rules.specs.Prepare.{column_in, with_b, with_c, fr_norm_by, norms};
ghost use Rattle.shape.specs.Fitting.{Fits, LikeX};
ghost use Rattle.prepare.specs.Prepare.{Started};

use rules::{Norms, Shape};
use shape::column;

// The norms of b, then c, for which the front of x is used; then x and y as they start.
#[tactic(auto, unfolding(rules::specs::Prepare::start_x))]
pub(crate) fn start(
    edition: u32,
    shape: Shape,
    c: &[f64],
    a1: &[f64],
    a2: &[f64],
    b: &[f64],
    x: &mut [f64],
    y: &mut [f64],
) -> Norms
    requires fits { Fits shape c.now (slices a1.now a2.now) b.now }
    requires like_x { LikeX shape x.old }
    ensures { Started (embed_in edition shape c.now (slices a1.now a2.now)
        b.now) x.old
        y.old result x.new y.new }
{
    let norms = calc_norms(edition, shape, c, a1, a2, b, x);
    init_vecs(shape, x, y);
    norms
}

// The norms of b, then c, worked out at the front of x.
#[tactic(auto, unfolding(rules::specs::Prepare::with_b, rules::specs::Prepare::with_c, rules::specs::Prepare::norms))]
fn calc_norms(
    edition: u32,
    shape: Shape,
    c: &[f64],
    a1: &[f64],
    a2: &[f64],
    b: &[f64],
    x: &mut [f64],
) -> Norms
    requires fits { Fits shape c.now (slices a1.now a2.now) b.now }
    requires like_x { LikeX shape x.old }
    ensures x_left { let k = embed_in edition shape c.now (slices a1.now a2.now) b.now in
        x.new
        ≡ with_c k (with_b k x.old) }
    ensures norms_are { result ≡ norms (embed_in edition shape c.now (slices a1.now a2.now)
        b.now) x.old }
{
    Norms {
        b: norm_in(edition, shape.rows.0, b, x),
        c: norm_in(edition, shape.cols.0, c, x),
    }
}

// The norm of the matrix of one column v, worked out at the front of x.
fn norm_in(edition: u32, rows: usize, v: &[f64], x: &mut [f64]) -> f64
    requires v_len { length v.now ≡ rows }
    requires rows_le_limit { rows ≤ limit }
    requires rows_in_bounds { rows ≤ length x.old }
    ensures x_left { x.new ≡ column_in edition rows v.now (take rows x.old) ++ drop rows x.old }
    ensures norm { result ≡ fr_norm_by edition (take rows x.new) }
{
    column_in(edition, v, &mut x[..rows]);
    fr_norm(edition, &x[..rows])
}

// t becomes the matrix of one column v times 1.
#[tactic(auto, unfolding(rules::specs::Prepare::column_in, rules::specs::Helpers::one))]
fn column_in(edition: u32, v: &[f64], t: &mut [f64])
    requires v_len { length v.now ≡ length t.old }
    requires t_len_bound { length t.old ≤ limit }
    ensures { t.new ≡ column_in edition (length t.old) v.now t.old }
{
    let one = [1.0; 1];
    let k = column(t.len());
    matop_by::op_by(edition, k, 1.0, v, &one, 0.0, t);
}

#[tactic(auto, unfolding(rules::specs::Prepare::fr_norm_by))]
fn fr_norm(edition: u32, t: &[f64]) -> f64
    ensures { result ≡ fr_norm_by edition t.now }
{
    let norm = norms::norm_by(edition, t);
    root::root(0.0 + norm * norm)
}

// x and y are multiplied by 0, and tau is set to 1.
#[tactic(auto, unfolding(rules::specs::Helpers::one))]
fn init_vecs(shape: Shape, x: &mut [f64], y: &mut [f64])
    requires { LikeX shape x.old }
    ensures x_left { x.new ≡ set (scaled +0 x.old) (shape.cols.0 + shape.rows.0 + shape.rows.0) one }
    ensures y_left { y.new ≡ scaled +0 y.old }
{
    let m = shape.rows.0;
    let n = shape.cols.0;
    let tau = n + m + m;
    times_zero(x);
    times_zero(y);
    x[tau] = 1.0;
}

// A number below 0 leaves -0.
fn times_zero(v: &mut [f64])
    ensures { v.new ≡ scaled +0 v.old }
{
    for u in v.iter_mut() {
        *u = 0.0 * *u;
    }
}
