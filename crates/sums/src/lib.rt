// Sums over a vector: norm, abssum.
#![tactic(auto)]

ghost use Rattle.std.specs.Prelude.{◌≡◌};
ghost use Rattle.rules.specs.Vectors as rules;

// The root of the sum of squares. Where that sum is infinite though each number is finite, it is taken of smaller numbers and made larger again.
pub fn norm(x: &[f64]) -> f64
    ensures { result ≡ rules.norm x.now }
{
    let mut sum = 0.0;
    for &v in x {
        sum += v * v;
    }
    if sum == f64::INFINITY && finite::all_finite(x) {
        return scaled_norm(x);
    }
    root::root(sum)
}

// The norm of 2^-600 times each number, times 2^600. The bit pattern of 2^k is (1023 + k) * 2^52.
fn scaled_norm(x: &[f64]) -> f64
    ensures { result ≡ rules.scaled_norm x.now }
{
    let down = f64::from_bits(423 * 4503599627370496);
    let up = f64::from_bits(1623 * 4503599627370496);
    let mut total = 0.0;
    for &v in x {
        let w = down * v;
        total += w * w;
    }
    root::root(total) * up
}

// The sum of the absolute values of x[0], x[incx], x[2 * incx], ..
pub fn abssum(x: &[f64], incx: usize) -> f64
    ensures { result ≡ rules.abssum x.now incx }
{
    if incx == 0 {
        return 0.0;
    }
    let mut sum = 0.0;
    // (d) the k-th term stands at k * incx: an index in any form
    for k in 0..x.len().div_ceil(incx) {
        sum += float::magnitude(x[k * incx]);
    }
    sum
}
