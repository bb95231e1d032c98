// A run's vectors come back from work, as settle laid them out.
#![tactic(auto)]

ghost use Rattle.std.specs.Prelude.{◌+◌, ◌≤◌, ◌≡◌, length};
ghost use Rattle.rules.specs.Step.{part};
ghost use Rattle.settle.specs.Settle.{Fitting};
ghost use Rattle.take_up.specs.TakeUp.{TakenUp, TakeUpOutcome};

use rules::{Cols, Rows};

// The six vectors of a run become what stands for them at the front of work. Where a length or a size doesn't fit, it answers no and changes
// nothing.
#[tactic(auto, unfolding(settle::specs::Settle::settle_fits))]
pub fn take_up(
    rows: Rows,
    cols: Cols,
    work: &[f64],
    x: &mut [f64],
    y: &mut [f64],
    dp_tau: &mut [f64],
    dp_sigma: &mut [f64],
    rx: &mut [f64],
    tx: &mut [f64],
) -> bool
    ensures { TakeUpOutcome rows.0 cols.0 x.old y.old dp_tau.old
        dp_sigma.old rx.old tx.old work.now result x.new
        y.new dp_tau.new dp_sigma.new rx.new tx.new }
{
    if !settle::sizes_fit(
        rows,
        cols,
        x.len(),
        y.len(),
        dp_tau.len(),
        dp_sigma.len(),
        rx.len(),
        tx.len(),
        work.len(),
    ) {
        return false;
    }
    take_parts(rows.0, cols.0, work, x, y, dp_tau, dp_sigma, rx, tx);
    true
}

fn take_parts(
    m: usize,
    n: usize,
    work: &[f64],
    x: &mut [f64],
    y: &mut [f64],
    dp_tau: &mut [f64],
    dp_sigma: &mut [f64],
    rx: &mut [f64],
    tx: &mut [f64],
)
    requires { Fitting m n x.old y.old dp_tau.old dp_sigma.old rx.old tx.old work.now }
    ensures { TakenUp m n work.now x.new y.new dp_tau.new
        dp_sigma.new rx.new tx.new }
{
    let from_y = x.len();
    let from_tau = from_y + y.len();
    let from_sigma = from_tau + dp_tau.len();
    let from_rx = from_sigma + dp_sigma.len();
    let from_tx = from_rx + rx.len();
    copy_from(0, work, x);
    copy_from(from_y, work, y);
    copy_from(from_tau, work, dp_tau);
    copy_from(from_sigma, work, dp_sigma);
    copy_from(from_rx, work, rx);
    copy_from(from_tx, work, tx);
}

// v becomes the part of work that starts there and is as long as v.
#[tactic(auto, using(rules::proofs::Parts::places))]
fn copy_from(start: usize, work: &[f64], v: &mut [f64])
    requires { start + length v.old ≤ length work.now }
    ensures { v.new ≡ part start (length v.old) work.now }
{
    let end = start + v.len();
    v.copy_from_slice(&work[start..end]);
}
