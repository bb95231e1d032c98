// The vector routines of floatgeneric.rs, and one that clears. A routine that takes two lengths answers a plain no, and
// changes nothing, where they don't fit; no length is too large.
#![tactic(auto)]

ghost use Rattle.std.specs.Prelude.{◌≡◌, ◌&&◌, length};
ghost use Rattle.rules.specs.Outcome.{Outcome};
ghost use Rattle.rules.specs.Prepare.{zeros};
ghost use Rattle.rules.specs.Vectors.{same_length, scaled, added, shifted, transformed_di};

// Every place becomes +0.
pub fn clear(v: &mut [f64])
    ensures { v.new ≡ zeros (length v.old) }
{
    v.fill(0.0);
}

// y becomes x.
pub fn copy(x: &[f64], y: &mut [f64]) -> bool
    ensures { Outcome (same_length x.now y.old) x.now y.old result y.new }
{
    if x.len() != y.len() {
        return false;
    }
    y.copy_from_slice(x);
    true
}

// x becomes alpha * x.
pub fn scale(alpha: f64, x: &mut [f64])
    ensures { x.new ≡ scaled alpha x.old }
{
    for v in x.iter_mut() {
        *v = alpha * *v;
    }
}

// y becomes y + alpha * x.
pub fn add(alpha: f64, x: &[f64], y: &mut [f64]) -> bool
    ensures { Outcome (same_length x.now y.old) (added alpha x.now y.old)
        y.old result y.new }
{
    if y.len() != x.len() {
        return false;
    }
    for (i, v) in y.iter_mut().enumerate() {
        *v = *v + alpha * x[i];
    }
    true
}

// y becomes y + s.
pub fn adds(s: f64, y: &mut [f64])
    ensures { y.new ≡ shifted s y.old }
{
    for v in y.iter_mut() {
        *v = *v + s;
    }
}

// y becomes alpha * mat * x + beta * y, where mat is the diagonal of a matrix.
pub fn transform_di(alpha: f64, mat: &[f64], x: &[f64], beta: f64, y: &mut [f64]) -> bool
    ensures { Outcome (same_length mat.now y.old && same_length x.now y.old)
        (transformed_di alpha mat.now x.now beta y.old) y.old result
        y.new }
{
    if mat.len() != y.len() {
        return false;
    }
    if mat.len() != x.len() {
        return false;
    }
    for (i, v) in y.iter_mut().enumerate() {
        *v = alpha * mat[i] * x[i] + beta * *v;
    }
    true
}
