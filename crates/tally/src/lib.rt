// Counts by number, for the programs that replay a list.
#![tactic(auto)]

ghost use Rattle.std.specs.Prelude.{◌≡◌, length, nat_lt};
ghost use Rattle.tally.specs.Tallies.{counted, total_of};

mod counts;

pub use counts::{Counts, Tally};

// One more at a place: whether there is one.
pub fn count(tally: &mut [u64], at: usize) -> bool
    ensures answer { result ≡ nat_lt at (length tally.old) }
    ensures left { tally.new ≡ counted tally.old at }
{
    if at < tally.len() {
        tally[at] = tally[at].wrapping_add(1);
        return true;
    }
    false
}

pub fn total(tally: &[u64]) -> u64
    ensures { result ≡ total_of tally.now }
{
    tally.iter().fold(0, |sum, &one| sum.wrapping_add(one))
}
