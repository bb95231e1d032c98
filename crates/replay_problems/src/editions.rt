// The word before those of a run: its edition of sums.
ghost use Rattle.std.specs.Prelude.{◌≡◌};
ghost use Rattle.replay_problems.specs.Editions.{edition_of};

use replay::record;

// The edition; what is too large for one counts as 0, which is none.
#[tactic(auto, unfolding(crate::specs::Editions::edition_of))]
pub fn edition(record: &[u8]) -> u32
    ensures { result ≡ edition_of «record».now }
{
    u32::try_from(record::word(record, 0)).unwrap_or(0)
}
