// A piece of a run: its steps, up to the one that ends it or as many as are given.
#![tactic(auto)]

ghost use Rattle.std.specs.Prelude.{◌+◌, ◌-◌, ◌<◌, ◌≡◌, length};
ghost use Rattle.rules.specs.Problem.{slices, problem_in};
ghost use Rattle.rules.specs.Product.{none};
ghost use Rattle.rules.specs.Run as rules;
ghost use Rattle.shape.specs.Fitting.{LikeX};
ghost use Rattle.rules.specs.Arithmetic.{at};
ghost use Rattle.rules.specs.Progress.{row_of, log_row};
ghost use Rattle.step.specs.Update.{state_of, step_fits};
ghost use Rattle.iterate.specs.Said.{said_by, made_by};
ghost use Rattle.iterate.specs.Record.{log_with, log_answered};
ghost use Rattle.iterate.specs.Iterate.{IterateOutcome};

use rules::{Criteria, Ending, Norms, Shape, SolverParam};
use whole_step::{StepAnswer, whole_step};

// The rows of a progress record that were written, and those that were dropped.
#[derive(Clone, Copy)]
pub struct RowCounts {
    pub written: u64,
    pub dropped: u64,
}

// What a piece comes to: the ending, or none where it may go on, the steps by then, the rotations made and its rows of the progress record.
#[derive(Clone, Copy)]
pub struct Iterated {
    pub said: Option<Ending>,
    pub steps: u64,
    pub rotations: u64,
    pub rows: RowCounts,
}

// Steps, when so many are behind: at most as many as are given, and one where none is, as with max_iter. Where a length, a
// size, the cone list or the sweep limit doesn't fit, it answers no and changes nothing.
pub fn iterate(
    par: SolverParam,
    shape: Shape,
    c: &[f64],
    a1: &[f64],
    a2: &[f64],
    b: &[f64],
    words: &[u16],
    norms: Norms,
    behind: u32,
    given: u32,
    x: &mut [f64],
    y: &mut [f64],
    dp_tau: &[f64],
    dp_sigma: &[f64],
    rx: &mut [f64],
    tx: &mut [f64],
    cone_work: &mut [f64],
    log: &mut [f64],
) -> Option<Iterated>
    ensures { let s = state_of x.old y.old dp_tau.now dp_sigma.now
        rx.old tx.old cone_work.old in
        IterateOutcome
        (step_fits par shape c.now (slices a1.now a2.now) b.now
        words.now s)
        (problem_in shape c.now (slices a1.now a2.now) b.now
        words.now par) norms
        behind given s log.old
        result
        (state_of x.new y.new dp_tau.now dp_sigma.now
        rx.new tx.new cone_work.new) log.new }
{
    let mut left = given;
    let mut k = u64::from(behind);
    let mut rotations = 0;
    let mut rows = RowCounts {
        written: 0,
        dropped: 0,
    };
    // a range of steps would be one short: a step is made also where none is given
    loop {
        k += 1;
        // none only at the first step
        let step = whole_step(
            par, shape, c, a1, a2, b, words, norms, x, y, dp_tau, dp_sigma, rx, tx, cone_work,
        )?;
        rows = log_step(par, shape, k, step, rows, x, log);
        let (said, made) = said(par, k, step);
        rotations += made;
        if said.is_some() || left <= 1 {
            return Some(Iterated {
                said,
                steps: k,
                rotations,
                rows,
            });
        }
        left -= 1;
    }
}

// Step k in the progress record, where it is due: a step at which a cone fails has no row, and drops none.
fn log_step(
    par: SolverParam,
    shape: Shape,
    k: u64,
    step: StepAnswer,
    rows: RowCounts,
    x: &[f64],
    log: &mut [f64],
) -> RowCounts
    requires like_x { LikeX shape x.now }
    requires dropped_bound { rows.written + rows.dropped < k }
    ensures { log_with result log.new
        ≡ log_answered par.log_period k (at x.now (shape.cols.0 + shape.rows.0 + shape.rows.0))
        step (log_with rows log.old) }
{
    match step {
        StepAnswer::Judged(found, _) => {
            if progress::is_due(par.log_period, k) {
                log_row(tau_of(x), found, rows, log)
            } else {
                rows
            }
        }
        StepAnswer::Failed(..) => rows,
    }
}

// One more row: it is put after those written, or dropped where it doesn't fit whole.
#[tactic(auto, unfolding(rules::specs::Progress::log_row, rules::specs::Progress::row_put))]
fn log_row(tau: f64, found: Criteria, rows: RowCounts, log: &mut [f64]) -> RowCounts
    requires { rows.written + rows.dropped < 18446744073709551615 }
    ensures { log_with result log.new ≡ log_row (row_of tau found) (log_with rows log.old) }
{
    if progress::put_row(rows.written, tau, found, log) {
        RowCounts {
            written: rows.written + 1,
            ..rows
        }
    } else {
        RowCounts {
            dropped: rows.dropped + 1,
            ..rows
        }
    }
}

// tau, the last place of x.
fn tau_of(x: &[f64]) -> f64
    requires { 0 < length x.now }
    ensures { result ≡ at x.now (length x.now - 1) }
{
    x[x.len() - 1]
}

// What step k says of the run, and the rotations that it made.
fn said(par: SolverParam, k: u64, step: StepAnswer) -> (Option<Ending>, u64)
    ensures says { result.0 ≡ said_by par k step }
    ensures counts { result.1 ≡ made_by step }
{
    match step {
        StepAnswer::Judged(found, made) => (says(par, k, found), made),
        StepAnswer::Failed(block, made) => (Some(Ending::ConeFailure(block)), made),
    }
}

// What a step's criteria say at step k.
fn says(par: SolverParam, k: u64, found: Criteria) -> Option<Ending>
    ensures { result ≡ rules.verdict par k none found }
{
    match found {
        Criteria::Conv(pri, dual, gap) => verdict::of_conv(par, k, pri, dual, gap),
        Criteria::Inf(unbdd, infeas) => verdict::of_inf(par, k, unbdd, infeas),
    }
}
