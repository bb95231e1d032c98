// The ways in which a dense matrix is cut in two. They are numbers, since what is had in each is counted by its number.
ghost use Rattle.std.specs.Prelude.{◌≡◌, ◌%◌};
ghost use Rattle.replay_problems.specs.Cuts.{ways, columns_first};

// How many there are.
pub const WAYS: usize = 5;

// The way whose turn it is after so many records.
pub fn next(records: u64) -> usize
    ensures { result ≡ records % ways }
{
    records as usize % WAYS
}

// How many of n columns stand in the first slice.
#[tactic(auto, unfolding(crate::specs::Cuts::columns_first))]
pub fn first(way: usize, n: usize) -> usize
    ensures { result ≡ columns_first way n }
{
    match way {
        0 => 0,
        1 => n.min(1),
        2 => n / 2,
        3 => n.saturating_sub(1),
        _ => n,
    }
}

// The name of a way.
pub fn name(way: usize) -> Option<&'static str> {
    match way {
        0 => Some("cut before the first column"),
        1 => Some("cut after the first column"),
        2 => Some("cut in the middle"),
        3 => Some("cut before the last column"),
        4 => Some("cut after the last column"),
        _ => None,
    }
}
