// One block: its places, its cone work, and whether it fits.
#![tactic(auto)]

ghost use Rattle.std.specs.Prelude.{◌≤◌, ◌≡◌, leb};
ghost use Rattle.std.specs.Bool.{then_some};
ghost use Rattle.rules.specs.Limits.{limit};
ghost use Rattle.rules.specs.Blocks.{places};
ghost use Rattle.rules.specs.Jacobi.{sweeps_fit};
ghost use Rattle.rules.specs.Projections.{sizes_fit};
ghost use Rattle.block.specs.Sayable.{sayable_places, sayable_work};

use matrix::triangle;
use rules::{Cone, LIMIT, MOST_SWEEPS, SolverParam};

// The largest size that a word can say, in 13 bits.
const SIZE: usize = 8191;

// How many places a block has, if at most so many.
#[tactic(auto, using(crate::proofs::Sayable::counted_if_few))]
fn places_within(cone: Cone, most: usize) -> Option<usize>
    requires { most ≤ 8191 }
    ensures { result ≡ then_some (leb (places cone) most) (places cone) }
{
    let places = match cone {
        Cone::Zero(size) | Cone::RPos(size) | Cone::SOC(size) | Cone::RotSOC(size) => size,
        Cone::PSD(order) => triangle(order),
    };
    (places <= most).then_some(places)
}

// Whether a block has at most as many places as m may be.
pub fn is_within(cone: Cone) -> bool
    ensures { result ≡ leb (places cone) limit }
{
    places_within(cone, LIMIT).is_some()
}

// How many places a block has: none, if no word can say it.
#[tactic(auto, unfolding(crate::specs::Sayable::sayable_places))]
pub fn places_of(cone: Cone) -> usize
    ensures { result ≡ sayable_places cone }
{
    places_within(cone, SIZE).unwrap_or(0)
}

// How much cone work a block needs: none, if no word can say it.
#[tactic(auto, unfolding(crate::specs::Sayable::sayable_work))]
pub fn block_work(cone: Cone) -> usize
    ensures { result ≡ sayable_work cone }
{
    match cone {
        Cone::PSD(order) if places_within(cone, SIZE).is_some() => order + order * order,
        _ => 0,
    }
}

// Whether the sweep limit is within its range.
pub fn sweeps_fit(par: SolverParam) -> bool
    ensures { result ≡ sweeps_fit par }
{
    1 <= par.sweep_limit && par.sweep_limit <= MOST_SWEEPS
}

// Whether a block, of any kind, has that many places and finds enough cone work, and the sweep limit fits.
#[tactic(auto, unfolding(crate::specs::Sayable::sayable_places, crate::specs::Sayable::sayable_work))]
pub fn block_fits(par: SolverParam, cone: Cone, size: usize, work: usize) -> bool
    ensures { result ≡ sizes_fit par cone size work }
{
    is_within(cone) && size == places_of(cone) && work >= block_work(cone) && sweeps_fit(par)
}
