// The angle of a rotation of Jacobi's method, of the entries a = (i, i), b = (j, j) and d = (i, j).
#![tactic(auto)]

ghost use Rattle.std.specs.Prelude.{◌≡◌, ◌&&◌};
ghost use Rattle.std.specs.Float.Ieee.{lt};
ghost use Rattle.rules.specs.Arithmetic.{◌*ᶠ◌};
ghost use Rattle.rules.specs.Jacobi as rules;

// Whether d is so large that it is to vanish.
pub fn is_large(tol: f64, a: f64, b: f64, d: f64) -> bool
    ensures { result ≡ (lt (tol *ᶠ a *ᶠ b) (d *ᶠ d) && lt tol (d *ᶠ d)) }
{
    d * d > tol * a * b && d * d > tol
}

// The tangent of the angle that makes d vanish.
pub fn tangent(a: f64, b: f64, d: f64) -> f64
    ensures { result ≡ rules.tangent a b d }
{
    let zeta = (b - a) / (2.0 * d);
    let root = root::root(1.0 + zeta * zeta);
    if zeta > 0.0 {
        1.0 / (zeta + root)
    } else {
        -1.0 / (-zeta + root)
    }
}

// The cosine of the angle whose tangent is t.
pub fn cosine(t: f64) -> f64
    ensures { result ≡ rules.cosine t }
{
    float::reciprocal(root::root(1.0 + t * t))
}
