// The absolute sums of the operator's columns and rows: abssum of solver.rs.
ghost use Rattle.std.specs.Prelude.{◌≡◌, length};
ghost use Rattle.rules.specs.Helpers.{one};
ghost use Rattle.rules.specs.Arithmetic.{+0};
ghost use Rattle.rules.specs.Vectors.{added, scaled};
ghost use Rattle.shape.specs.Fitting.{LikeX, LikeY};
ghost use Rattle.embedding.specs.Embedding.{embed_of};
ghost use Rattle.precond.specs.Precond.{with_sums_x, with_sums_y, with_sums_tau, column_sums, row_sums, rows_of};

use embedding::Embedding;
use shape::{Operators, column};

// The absolute sums of the operator's columns, and of its rows.
pub(crate) fn abssum(k: &Embedding<'_>, tau: &mut [f64], sigma: &mut [f64])
    requires like_x { LikeX k.now.operators.shape tau.old }
    requires like_y { LikeY k.now.operators.shape sigma.old }
    ensures tau_left { tau.new ≡ column_sums (embed_of k.now) (scaled +0 tau.old) }
    ensures sigma_left { sigma.new ≡ row_sums (embed_of k.now) (scaled +0 tau.old) }
{
    linalg::scale(0.0, tau);
    column_sums(k, tau);
    row_sums(k, tau, sigma);
}

// The columns' sums are added to tau.
fn column_sums(k: &Embedding<'_>, tau: &mut [f64])
    requires like_x { LikeX k.now.operators.shape tau.old }
    ensures { tau.new ≡ column_sums (embed_of k.now) tau.old }
{
    let m = k.operators.shape.rows.0;
    let (tau_x, rest) = tau.split_at_mut(k.operators.shape.cols.0);
    let (tau_y, rest) = rest.split_at_mut(m);
    let (tau_s, tau_tau) = rest.split_at_mut(m);
    sums_x(k, tau_x);
    sums_y(k, tau_y);
    linalg::adds(1.0, tau_s);
    sums_tau(k, tau_tau);
}

fn sums_x(k: &Embedding<'_>, tau_x: &mut [f64])
    requires { length tau_x.old ≡ k.now.operators.shape.cols.0 }
    ensures { tau_x.new ≡ with_sums_x (embed_of k.now) tau_x.old }
{
    let Operators {
        shape,
        c,
        a1,
        a2,
        ..
    } = k.operators;
    columns::absadd_cols(shape, a1, a2, tau_x);
    absadd::absadd_rows(column(shape.cols.0), c, tau_x);
}

fn sums_y(k: &Embedding<'_>, tau_y: &mut [f64])
    requires { length tau_y.old ≡ k.now.operators.shape.rows.0 }
    ensures { tau_y.new ≡ with_sums_y (embed_of k.now) tau_y.old }
{
    let Operators {
        shape,
        a1,
        a2,
        b,
        ..
    } = k.operators;
    columns::absadd_rows(shape, a1, a2, tau_y);
    absadd::absadd_rows(column(shape.rows.0), b, tau_y);
}

fn sums_tau(k: &Embedding<'_>, tau_tau: &mut [f64])
    requires { length tau_tau.old ≡ 1 }
    ensures { tau_tau.new ≡ with_sums_tau (embed_of k.now) tau_tau.old }
{
    let Operators { shape, c, b, .. } = k.operators;
    absadd::absadd_cols(column(shape.cols.0), c, tau_tau);
    absadd::absadd_cols(column(shape.rows.0), b, tau_tau);
}

// The rows' sums: those of the columns, with the primal part's added to y's.
fn row_sums(k: &Embedding<'_>, tau: &[f64], sigma: &mut [f64])
    requires like_x { LikeX k.now.operators.shape tau.now }
    requires like_y { LikeY k.now.operators.shape sigma.old }
    ensures { sigma.new ≡ rows_of k.now.operators.shape tau.now }
{
    let tau = k.split_x(tau);
    let (sigma_n, rest) = sigma.split_at_mut(k.operators.shape.cols.0);
    let (sigma_m, sigma_1) = rest.split_at_mut(k.operators.shape.rows.0);
    sigma_n.copy_from_slice(tau.x);
    rows_m(tau.y, tau.s, sigma_m);
    sigma_1.copy_from_slice(tau.tau);
}

#[tactic(auto, unfolding(rules::specs::Helpers::one))]
fn rows_m(y: &[f64], s: &[f64], sigma_m: &mut [f64])
    requires y_length { length y.now ≡ length sigma_m.old }
    requires s_length { length s.now ≡ length sigma_m.old }
    ensures { sigma_m.new ≡ added one s.now y.now }
{
    sigma_m.copy_from_slice(y);
    linalg::add(1.0, s, sigma_m);
}
