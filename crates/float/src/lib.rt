// The float helpers of document 01: each answers for every f64.
#![tactic(auto)]

ghost use Rattle.std.specs.Prelude.{◌≡◌, cond, ◌&&◌};
ghost use Rattle.std.specs.Float.Ieee.{eq};
ghost use Rattle.rules.specs.Arithmetic.{+0};
ghost use Rattle.rules.specs.Helpers as rules;

// Whether both are zeros, of either sign.
fn both_zero(a: f64, b: f64) -> bool
    ensures { result ≡ (eq a +0 && eq b +0) }
{
    a == 0.0 && b == 0.0
}

// The larger of two, the standard's maximumNumber: a NaN yields to the other, and −0 lies below +0.
pub fn larger(a: f64, b: f64) -> f64
    ensures { result ≡ rules.larger a b }
{
    // the sum of two zeros is −0 where both are −0
    let of_zeros = a + b;
    let of_others = a.max(b);
    if both_zero(a, b) { of_zeros } else { of_others }
}

// The smaller of two, minimumNumber, likewise.
pub fn smaller(a: f64, b: f64) -> f64
    ensures { result ≡ rules.smaller a b }
{
    // of two zeros the opposites' sum is −0 where both are +0; its opposite is the smaller
    let of_zeros = -(-a - b);
    let of_others = a.min(b);
    if both_zero(a, b) { of_zeros } else { of_others }
}

// The absolute value: the sign is cleared, a zero's too.
#[tactic(auto, using(crate::proofs::Library::abs_is_magnitude))]
pub fn magnitude(x: f64) -> f64
    ensures { result ≡ rules.magnitude x }
{
    x.abs()
}

// 1 divided by the number.
#[tactic(auto, unfolding(rules::specs::Helpers::reciprocal, rules::specs::Helpers::one))]
pub fn reciprocal(x: f64) -> f64
    ensures { result ≡ rules.reciprocal x }
{
    x.recip()
}
