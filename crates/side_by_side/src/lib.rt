// What the products share that add up several sums side by side.
#![tactic(auto)]

ghost use Rattle.rules.specs.Arithmetic.{◌+ᶠ◌, ◌*ᶠ◌, at, each};
ghost use Rattle.rules.specs.Outcome.{Outcome};
ghost use Rattle.rules.specs.Vectors.{same_length};

// y becomes alpha * sums + beta * y.
pub fn put_sums(alpha: f64, sums: &[f64], beta: f64, y: &mut [f64]) -> bool
    ensures { Outcome (same_length sums.now y.old)
        (each (λ k v. alpha *ᶠ at sums.now k +ᶠ beta *ᶠ v) y.old) y.old result
        y.new }
{
    if sums.len() != y.len() {
        return false;
    }
    for (k, v) in y.iter_mut().enumerate() {
        *v = alpha * sums[k] + beta * *v;
    }
    true
}
