// What is finite: neither infinite nor a NaN.
#![tactic(auto)]

ghost use Rattle.std.specs.Prelude.{◌≡◌};
ghost use Rattle.rules.specs.Helpers.{is_finite, all_finite};

// Whether a number is finite.
#[tactic(auto, using(crate::proofs::Finite::is_finite_is))]
pub fn is_finite(x: f64) -> bool
    ensures { result ≡ is_finite x }
{
    x.is_finite()
}

// Whether each number is finite.
pub fn all_finite(v: &[f64]) -> bool
    ensures { result ≡ all_finite v.now }
{
    v.iter().all(|x| is_finite(*x))
}
