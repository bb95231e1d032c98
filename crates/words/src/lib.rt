// A plain cone list: whether it is good, the cone work that it needs, and whether it fits. A group's word is a bad one, as
// those of the reserved kinds are.
#![tactic(auto)]

ghost use Rattle.std.specs.Prelude.{◌≡◌, true, not, eqb, leb, MatchOption};
ghost use Rattle.std.specs.List.{filter_map, list_all};
ghost use Rattle.rules.specs.Limits.{limit};
ghost use Rattle.rules.specs.Blocks.{blocks_of, is_bad_cone, places, read_word};
ghost use Rattle.rules.specs.Product.{cone_work, sums_fit, lengths_fit};

use block::{block_work, is_within, places_of, sweeps_fit};
use rules::{MOST_PLACES, SolverParam};
use word::read_word;

// How many of so many places the blocks of a list leave. No, if a word is bad or they have more.
fn places_left(words: &[u16], places: usize) -> Option<usize>
    ensures { MatchOption result (is_bad_cone words.now places ≡ true)
        (λ left. is_bad_cone words.now places ≡ not (eqb left 0)) }
{
    let mut left = places;
    for &word in words {
        let block = read_word(word)?;
        left = left.checked_sub(places_of(block))?;
    }
    Some(left)
}

// Whether a list has a word that is bad, or blocks that don't add up to that many places.
pub fn is_bad_cone(words: &[u16], places: usize) -> bool
    ensures { result ≡ is_bad_cone words.now places }
{
    places_left(words, places) != Some(0)
}

// How much cone work the blocks of a list need: as much as the one that needs most.
pub fn cone_work_len(words: &[u16]) -> usize
    ensures { result ≡ cone_work (blocks_of words.now) }
{
    let mut most = 0;
    for &word in words {
        if let Some(block) = read_word(word) {
            most = most.max(block_work(block));
        }
    }
    most
}

// Whether no block is above the limit.
fn blocks_within(words: &[u16]) -> bool
    ensures { result ≡ list_all (λ b. leb (places b) limit) (filter_map read_word words.now) }
{
    words
        .iter()
        .filter_map(|&word| read_word(word))
        .all(is_within)
}

// Whether a list is good for that many places, with no block above the limit.
#[tactic(auto, using(crate::proofs::Chains::blocks_within_is))]
pub fn list_fits(words: &[u16], len: usize) -> bool
    ensures { result ≡ sums_fit words.now len }
{
    !is_bad_cone(words, len) && blocks_within(words)
}

// Whether the list, its places, cone work and the sweep limit fit.
pub fn product_fits(par: SolverParam, words: &[u16], len: usize, work: usize) -> bool
    ensures { result ≡ lengths_fit par words.now len work }
{
    list_fits(words, len) && work >= cone_work_len(words) && len <= MOST_PLACES && sweeps_fit(par)
}
