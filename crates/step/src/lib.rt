// One step: update_vecs of solver.rs.
#![tactic(auto)]

ghost use Rattle.std.specs.Prelude.{◌≤◌, ◌≡◌, true, length};
ghost use Rattle.rules.specs.Limits.{limit};
ghost use Rattle.rules.specs.Problem.{slices, problem_in, embed_in};
ghost use Rattle.shape.specs.Fitting.{LikeX};
ghost use Rattle.step.specs.Moves.{CanMoveX, XMoved, taken_in, CanMoveY, YMoved};
ghost use Rattle.step.specs.Update.{state_of, vectors_fit, step_fits, StepReady, StepOutcome};

use rules::{Product, Shape, SolverParam};
use shape::{Operators, fits_x, fits_y, operators_fit};
use words::product_fits;

// What the cone makes of a step: the rotations, or the block that failed with the rotations up to there. Where a
// length, a size, the cone list or the sweep limit doesn't fit, it answers no and changes nothing.
pub fn update_vecs(
    par: SolverParam,
    shape: Shape,
    c: &[f64],
    a1: &[f64],
    a2: &[f64],
    b: &[f64],
    words: &[u16],
    x: &mut [f64],
    y: &mut [f64],
    dp_tau: &[f64],
    dp_sigma: &[f64],
    rx: &mut [f64],
    tx: &mut [f64],
    cone_work: &mut [f64],
) -> Option<Product>
    ensures { let s = state_of x.old y.old dp_tau.now dp_sigma.now
        rx.old tx.old cone_work.old in
        StepOutcome
        (step_fits par shape c.now (slices a1.now a2.now) b.now
        words.now s)
        (problem_in shape c.now (slices a1.now a2.now) b.now
        words.now par) s result
        (state_of x.new y.new dp_tau.now dp_sigma.now
        rx.new tx.new cone_work.new) }
{
    if vectors_fit(shape, x, y, dp_tau, dp_sigma, rx, tx)
        && operators_fit(&Operators {
            shape,
            c,
            a1,
            a2,
            b,
        })
        && product_fits(par, words, shape.rows.0, cone_work.len())
    {
        update_fitting(
            par, shape, c, a1, a2, b, words, x, y, dp_tau, dp_sigma, rx, tx, cone_work,
        )
    } else {
        None
    }
}

// Whether the six vectors have the lengths that the shape says.
fn vectors_fit(
    shape: Shape,
    x: &[f64],
    y: &[f64],
    dp_tau: &[f64],
    dp_sigma: &[f64],
    rx: &[f64],
    tx: &[f64],
) -> bool
    ensures { result
        ≡ vectors_fit shape x.now y.now dp_tau.now dp_sigma.now
        rx.now tx.now }
{
    fits_x(shape, x)
        && fits_y(shape, y)
        && fits_x(shape, dp_tau)
        && fits_y(shape, dp_sigma)
        && fits_x(shape, rx)
        && fits_x(shape, tx)
}

// A step whose sizes fit.
fn update_fitting(
    par: SolverParam,
    shape: Shape,
    c: &[f64],
    a1: &[f64],
    a2: &[f64],
    b: &[f64],
    words: &[u16],
    x: &mut [f64],
    y: &mut [f64],
    dp_tau: &[f64],
    dp_sigma: &[f64],
    rx: &mut [f64],
    tx: &mut [f64],
    cone_work: &mut [f64],
) -> Option<Product>
    requires { StepReady par shape c.now (slices a1.now a2.now) b.now words.now
        (state_of x.old y.old dp_tau.now dp_sigma.now rx.old tx.old cone_work.old) }
    ensures { StepOutcome true
        (problem_in shape c.now (slices a1.now a2.now) b.now
        words.now par)
        (state_of x.old y.old dp_tau.now dp_sigma.now
        rx.old tx.old cone_work.old)
        result
        (state_of x.new y.new dp_tau.now dp_sigma.now
        rx.new tx.new cone_work.new) }
{
    move_x(par.edition, shape, c, a1, a2, b, x, y, dp_tau, rx, tx);
    let made = project::project(par, shape, words, x, cone_work)?;
    let Product::Done(_) = made else {
        return Some(made);
    };
    take_tau(shape, x);
    move_y(par.edition, shape, c, a1, a2, b, x, y, dp_sigma, rx, tx);
    Some(made)
}

// Copies x aside, and moves x by the transposed operator on y.
#[tactic(auto, unfolding(rules::specs::Helpers::one))]
fn move_x(
    edition: u32,
    shape: Shape,
    c: &[f64],
    a1: &[f64],
    a2: &[f64],
    b: &[f64],
    x: &mut [f64],
    y: &[f64],
    dp_tau: &[f64],
    rx: &mut [f64],
    tx: &mut [f64],
)
    requires { CanMoveX shape c.now (slices a1.now a2.now) b.now x.old y.now dp_tau.now rx.old
        tx.old }
    ensures { XMoved (embed_in edition shape c.now (slices a1.now a2.now) b.now)
        x.old
        y.now dp_tau.now tx.old x.new rx.new
        tx.new }
{
    linalg::copy(x, rx);
    let operators = Operators {
        shape,
        c,
        a1,
        a2,
        b,
    };
    embed_trans::trans_op(edition, &operators, -1.0, y, 0.0, tx);
    linalg::transform_di(1.0, dp_tau, tx, 1.0, x);
}

// Takes the larger of tau and 0.
fn take_tau(shape: Shape, x: &mut [f64])
    requires rows_le_limit { shape.rows.0 ≤ limit }
    requires cols_le_limit { shape.cols.0 ≤ limit }
    requires like_x { LikeX shape x.old }
    ensures { x.new ≡ taken_in shape x.old }
{
    let m = shape.rows.0;
    let n = shape.cols.0;
    let tau = n + m + m;
    x[tau] = float::larger(x[tau], 0.0);
}

// Forms x_old - 2 * x_new, moves y, and takes the smaller of y's last and 0.
#[tactic(auto, unfolding(rules::specs::Helpers::one))]
fn move_y(
    edition: u32,
    shape: Shape,
    c: &[f64],
    a1: &[f64],
    a2: &[f64],
    b: &[f64],
    x: &[f64],
    y: &mut [f64],
    dp_sigma: &[f64],
    rx: &mut [f64],
    tx: &mut [f64],
)
    requires { CanMoveY shape c.now (slices a1.now a2.now) b.now x.now y.old dp_sigma.now rx.old
        tx.old }
    ensures { YMoved (embed_in edition shape c.now (slices a1.now a2.now) b.now)
        x.now
        y.old dp_sigma.now rx.old tx.old y.new
        rx.new tx.new }
{
    let m = shape.rows.0;
    let n = shape.cols.0;
    let nm = n + m;
    let nm1 = nm + 1;
    linalg::add(-1.0 - 1.0, x, rx);
    let operators = Operators {
        shape,
        c,
        a1,
        a2,
        b,
    };
    embed::op(edition, &operators, -1.0, rx, 0.0, &mut tx[..nm1]);
    linalg::transform_di(1.0, dp_sigma, &tx[..nm1], 1.0, y);
    y[nm] = float::smaller(y[nm], 0.0);
}
