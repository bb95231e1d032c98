// The norm, by edition: sums::norm, or the same with its squares added up by halves.
#![tactic(auto)]

ghost use Rattle.std.specs.Prelude.{◌≤◌, ◌≡◌, length};
ghost use Rattle.rules.specs.Arithmetic.{at};
ghost use Rattle.rules.specs.Editions.{sum_by_halves};
ghost use Rattle.rules.specs.Vectors.{norm_by};
ghost use Rattle.norms.specs.Squares.{square_of, norm_or_scaled};

// The root of the sum of squares, added up by the edition. Where that sum is infinite though each number is finite, it is taken of smaller numbers and made larger again.
#[tactic(auto, using(crate::proofs::ByEdition::norm_from_the_left))]
pub fn norm_by(edition: u32, x: &[f64]) -> f64
    ensures { result ≡ norm_by edition x.now }
{
    if edition != 2 {
        return sums::norm(x);
    }
    norm_by_halves(false, x)
}

// Edition two's norm, or that of 2^-600 times each number, times 2^600.
fn norm_by_halves(smaller: bool, x: &[f64]) -> f64
    ensures { result ≡ norm_or_scaled smaller x.now }
{
    let sum = squares_by_halves(smaller, x);
    if smaller {
        let up = f64::from_bits(1623 * 4503599627370496);
        return root::root(sum) * up;
    }
    if sum == f64::INFINITY && finite::all_finite(x) {
        return norm_by_halves(true, x);
    }
    root::root(sum)
}

// The sum of the squares, or of those of 2^-600 times each number: of more than thirty-two that of the first half and that of the rest.
fn squares_by_halves(smaller: bool, x: &[f64]) -> f64
    ensures { result ≡ sum_by_halves (length x.now) (λ k. square_of smaller (at x.now k)) }
{
    if x.len() <= 32 {
        return few_squares(smaller, x);
    }
    let (first, rest) = x.split_at(x.len() / 2);
    squares_by_halves(smaller, first) + squares_by_halves(smaller, rest)
}

// The same of up to thirty-two numbers.
fn few_squares(smaller: bool, x: &[f64]) -> f64
    requires { length x.now ≤ 32 }
    ensures { result ≡ sum_by_halves (length x.now) (λ k. square_of smaller (at x.now k)) }
{
    let mut terms = [0.0; 32];
    sum_of_squares(smaller, x, &mut terms[..x.len()])
}

// The same, with the squares put down as terms.
fn sum_of_squares(smaller: bool, x: &[f64], terms: &mut [f64]) -> f64
    requires { length terms.old ≡ length x.now }
    ensures { result ≡ sum_by_halves (length x.now) (λ k. square_of smaller (at x.now k)) }
{
    for (k, term) in terms.iter_mut().enumerate() {
        *term = square(smaller, x[k]);
    }
    halves::sum_by_halves(terms)
}

// The square of a number, or of 2^-600 times it. The bit pattern of 2^k is (1023 + k) * 2^52.
fn square(smaller: bool, v: f64) -> f64
    ensures { result ≡ square_of smaller v }
{
    let down = f64::from_bits(423 * 4503599627370496);
    let w = down * v;
    if smaller {
        return w * w;
    }
    v * v
}
