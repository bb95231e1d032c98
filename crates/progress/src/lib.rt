// A progress record: which steps have a row, what stands in it, and where it is put.
#![tactic(auto)]

ghost use Rattle.std.specs.Prelude.{◌≡◌};
ghost use Rattle.rules.specs.Outcome.{Outcome};
ghost use Rattle.rules.specs.Progress.{is_due, row_of, row_fits, row_put};

use rules::Criteria;

// Whether step k has a row: 1, 1 + period, 1 + 2 * period and so on have one; with a period of 0 none has.
#[tactic(auto, unfolding(rules::specs::Progress::is_due))]
pub fn is_due(period: u32, k: u64) -> bool
    ensures { result ≡ is_due period k }
{
    period != 0 && k != 0 && (k - 1) % u64::from(period) == 0
}

// The row of a step: tau, then the three criteria of convergence, or the two others and 0.
pub fn row_of(tau: f64, found: Criteria) -> [f64; 4]
    ensures { result ≡ row_of tau found }
{
    match found {
        Criteria::Conv(pri, dual, gap) => [tau, pri, dual, gap],
        Criteria::Inf(unbdd, infeas) => [tau, unbdd, infeas, 0.0],
    }
}

// Puts the row of a step after so many rows. Where it doesn't fit whole, it answers no and changes nothing.
#[tactic(auto, unfolding(rules::specs::Progress::row_put))]
pub fn put_row(written: u64, tau: f64, found: Criteria, log: &mut [f64]) -> bool
    ensures { Outcome (row_fits written log.old)
        (row_put written (row_of tau found) log.old)
        log.old result log.new }
{
    let room = log.len() / 4;
    if written >= room as u64 {
        return false;
    }
    let at = 4 * written as usize;
    log[at..at + 4].copy_from_slice(&row_of(tau, found));
    true
}
