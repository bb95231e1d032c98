// The root of every f64, and the root of 2.
#![tactic(auto)]

mod roots;

ghost use Rattle.std.specs.Prelude.{◌≡◌};
ghost use Rattle.rules.specs.Projections.{√2};

pub use roots::root;

// The root of 2.
pub fn root_two() -> f64
    ensures { result ≡ √2 }
{
    1.4142135623730951
}
