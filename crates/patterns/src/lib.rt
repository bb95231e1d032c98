// Numbers as 64-bit patterns, for programs that read or write them. A pattern keeps a NaN's digits;
// a number does not, so a NaN is written as 7ff8000000000000.
#![tactic(auto)]

ghost use Rattle.std.specs.Prelude.{◌≡◌, ◌+◌, ◌<◌, get_or};
ghost use Rattle.std.specs.Float.Ieee as Ieee;
ghost use Rattle.std.specs.Float.{binary64};
ghost use Rattle.patterns.specs.Words.{spelled, word_at};
ghost use Rattle.patterns.specs.Same.{same_places, same_bits};

use std::array;

// The number that a pattern stands for.
pub fn number_of(pattern: u64) -> f64
    ensures { result ≡ Ieee.of_bits binary64 pattern }
{
    if pattern % 9223372036854775808 <= 9218868437227405312 {
        f64::from_bits(pattern)
    } else {
        0.0 / 0.0
    }
}

// The pattern of a number, 7ff8000000000000 for a NaN.
pub fn pattern_of(x: f64) -> u64
    ensures { result ≡ Ieee.to_bits binary64 x }
{
    if x == x {
        x.to_bits()
    } else {
        9221120237041090560
    }
}

// The word whose eight bytes start at a place, the most significant first; what lies past the end
// counts as 0.
pub fn word_at(bytes: &[u8], at: usize) -> u64
    ensures { result ≡ word_at bytes.now at }
{
    u64::from_be_bytes(array::from_fn(|k| byte_at(bytes, at, k)))
}

// The byte k places after a place, 0 past the end.
fn byte_at(bytes: &[u8], at: usize, k: usize) -> u8
    ensures { result ≡ get_or bytes.now (at + k) 0 }
{
    at.checked_add(k)
        .and_then(|place| bytes.get(place))
        .map_or(0, |byte| *byte)
}

// Whether two lists hold the same numbers, bit for bit.
pub fn same_bits(one: &[f64], other: &[f64]) -> bool
    ensures { result ≡ same_bits one.now other.now }
{
    one.len() == other.len() && same_places(one, other)
}

// Whether the places that both lists have hold the same numbers.
fn same_places(one: &[f64], other: &[f64]) -> bool
    ensures { result ≡ same_places one.now other.now }
{
    one.iter()
        .zip(other.iter())
        .all(|(x, y)| pattern_of(*x) == pattern_of(*y))
}
