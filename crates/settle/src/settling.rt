// How an ending leaves work and cone work.
ghost use Rattle.std.specs.Prelude.{◌≤◌, ◌≡◌, ◌++◌, length, drop};
ghost use Rattle.rules.specs.Limits.{limit};
ghost use Rattle.rules.specs.Problem.{work_length};
ghost use Rattle.rules.specs.Prepare.{zeros};
ghost use Rattle.settle.specs.Settle.{settle_lengths_fit, Fitting, Settled, SettleOutcome};

use crate::parts;
use rules::{Cols, Ending, LIMIT, Rows};

// A run's vectors come into work. Where the ending asks for it, the solution's x and y, the first n + m places of x, are
// first multiplied by 1/tau, in x itself. After a cone's failure x is kept, and the required part of work, and all of cone
// work, become +0. An ending that is a refusal, which no run ends by, is laid out unscaled. Where a length or a size
// doesn't fit, it answers no and changes nothing.
#[tactic(auto, unfolding(crate::specs::Settle::settle_fits))]
pub fn settle(
    rows: Rows,
    cols: Cols,
    ending: Ending,
    x: &mut [f64],
    y: &[f64],
    dp_tau: &[f64],
    dp_sigma: &[f64],
    rx: &[f64],
    tx: &[f64],
    work: &mut [f64],
    cone_work: &mut [f64],
) -> bool
    ensures { SettleOutcome rows.0 cols.0 x.old y.now dp_tau.now
        dp_sigma.now rx.now tx.now work.old ending
        cone_work.old result x.new work.new cone_work.new }
{
    if !sizes_fit(
        rows,
        cols,
        x.len(),
        y.len(),
        dp_tau.len(),
        dp_sigma.len(),
        rx.len(),
        tx.len(),
        work.len(),
    ) {
        return false;
    }
    settle_in(
        rows.0, cols.0, ending, x, y, dp_tau, dp_sigma, rx, tx, work, cone_work,
    );
    true
}

// Whether the sizes are within the limits, each vector has its length and work is long enough for all six.
pub fn sizes_fit(
    rows: Rows,
    cols: Cols,
    x: usize,
    y: usize,
    dp_tau: usize,
    dp_sigma: usize,
    rx: usize,
    tx: usize,
    work: usize,
) -> bool
    ensures { result ≡ settle_lengths_fit rows.0 cols.0 x y dp_tau dp_sigma rx tx work }
{
    let m = rows.0;
    let n = cols.0;
    m <= LIMIT
        && n <= LIMIT
        && x == n + m + m + 1
        && y == n + m + 1
        && dp_tau == n + m + m + 1
        && dp_sigma == n + m + 1
        && rx == n + m + m + 1
        && tx == n + m + m + 1
        && 6 * n + 10 * m + 6 <= work
}

fn settle_in(
    m: usize,
    n: usize,
    ending: Ending,
    x: &mut [f64],
    y: &[f64],
    dp_tau: &[f64],
    dp_sigma: &[f64],
    rx: &[f64],
    tx: &[f64],
    work: &mut [f64],
    cone_work: &mut [f64],
)
    requires { Fitting m n x.old y.now dp_tau.now dp_sigma.now rx.now tx.now work.old }
    ensures { Settled m n x.old y.now dp_tau.now dp_sigma.now
        rx.now tx.now work.old ending cone_work.old
        x.new work.new cone_work.new }
{
    if verdict::is_cone_failure(ending) {
        clear_front(m, n, work);
        cone_work.fill(0.0);
    } else {
        parts::finish(m, n, verdict::is_scaled(ending), x);
        parts::lay_out(x, y, dp_tau, dp_sigma, rx, tx, work);
    }
}

// The required part of work becomes +0.
fn clear_front(m: usize, n: usize, work: &mut [f64])
    requires m_le_limit { (m ≤ limit) × (n ≤ limit) }
    requires n_in_bounds { work_length m n ≤ length work.old }
    ensures { work.new ≡ zeros (work_length m n) ++ drop (work_length m n) work.old }
{
    let required = 6 * n + 10 * m + 6;
    work[..required].fill(0.0);
}
