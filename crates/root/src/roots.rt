// The root, correctly rounded to nearest. Float arithmetic only guesses it, and nothing is proved of the guess: whole numbers say
// whether it is right, and where it is not, as for some 2 in 10,000 normal numbers, a search by halving finds the root.
// A number above zero is m * 2^52 * 4^k squares of the format's least value, with an m of 53 or 54 digits. Its root is q * 2^k least
// values, for the q of 53 digits with (q - 1) * q < m * 2^52 <= q * (q + 1), and has the bit pattern k * 2^52 + q.
ghost use Rattle.std.specs.Prelude.{◌≡◌, true, ◌+◌, ◌*◌, ◌^◌, ◌≤◌, ◌<◌, leb};
ghost use Rattle.std.specs.Float.{binary64};
ghost use Rattle.std.specs.Float.Ieee.{of_bits};
ghost use Rattle.rules.specs.Root as rules;
ghost use Rattle.root.specs.Root.{Digits, Halved};

// Where the exponent stands in a pattern; and the pattern of infinity.
const EXPONENT: u64 = 1 << 52;

const INFINITE: u64 = 2047 * EXPONENT;

// The root: a zero keeps its sign, and below zero the answer is NaN.
pub fn root(x: f64) -> f64
    ensures { result ≡ rules.root binary64 x }
{
    if x > 0.0 {
        let b = x.to_bits();
        if b < EXPONENT {
            root_of_low(b)
        } else if b < INFINITE {
            root_of_normal(x, b)
        } else {
            x
        }
    } else if x < 0.0 {
        f64::NAN
    } else {
        // a zero, or no number
        x
    }
}

// The root of a normal number, by its pattern b. What is returned does not rest on x, by which the guess is made.
fn root_of_normal(x: f64, b: u64) -> f64
    requires { (2 ^ 52 ≤ b) × (b < 2047 * 2 ^ 52) }
    ensures { result ≡ rules.root binary64 (of_bits binary64 b) }
{
    let places = b / EXPONENT + 1073;
    let k = places / 2 - 26;
    let m = (EXPONENT + b % EXPONENT) * (1 + places % 2);
    let g = guess(x, b, k);
    if is_root(g, m, k) {
        g
    } else {
        root_by_halving(m, k)
    }
}

// The root of a number below the least normal one: its digits are first moved up to where a normal number has them.
fn root_of_low(b: u64) -> f64
    requires { (0 < b) × (b < 2 ^ 52) }
    ensures { result ≡ rules.root binary64 (of_bits binary64 b) }
{
    let mut t = b;
    let mut places: u64 = 1074;
    // no index is counted: it goes on while digits are missing
    while t < EXPONENT {
        t *= 2;
        places -= 1;
    }
    root_by_halving(t * (1 + places % 2), places / 2 - 26)
}

// A guess at the root of x, whose pattern is b; k is as above. The pattern gives y, which is 1/√x to 3.5 %, and a polynomial makes of it
// f, so that s = x * y * (1 + r * f) is the root to 44 digits and h is 1/(2 * √x). One step by the error of s then gives the last digits:
// with s = c + u, s + (x - s * s) / (2 * s) comes to c + (x - c * c + u * u) / (2 * s). The first half of f is enough for c, which needs
// to be near s, and so short that c * c is exact: adding `cut` rounds it to 26 digits.
#[tactic(auto, using(rules::proofs::RootPatterns::no_nan_pattern))]
fn guess(x: f64, b: u64, k: u64) -> f64
    requires b_bound { b < 2047 * 2 ^ 52 }
    requires k_bound { k < 2000 }
{
    let y = f64::from_bits(6910469410427058089 - b / 2);
    let cut = f64::from_bits((k + 28) * EXPONENT);
    let t = x * y;
    let r = 1.0 - t * y;
    let rr = r * r;
    let low = (0.4999999999993127 + r * 0.37500000000670625)
        + rr * (0.3125000047184989 + r * 0.2734374887158461);
    let high = (0.24608868884920057 + r * 0.22558923784722862)
        + rr * (0.21120885106417195 + r * 0.1968714914306137);
    let f = low + (rr * rr) * high;
    let c = ((t + (t * r) * low) + cut) - cut;
    let s = t + (t * r) * f;
    let h = 0.5 * y + (0.5 * y * r) * f;
    let u = s - c;
    c + ((x - c * c) + u * u) * h
}

// Whether g is the root of m * 2^52 * 4^k squares of the least value.
fn is_root(g: f64, m: u64, k: u64) -> bool
    requires { Digits m k }
    ensures { result ≡ true → g ≡ rules.root_of_units binary64 (m * 2 ^ 52 * (2 ^ k * 2 ^ k)) }
{
    if g.is_nan() {
        return false;
    }
    let b = g.to_bits();
    if b / EXPONENT != k + 1 {
        return false;
    }
    let q = b % EXPONENT + EXPONENT;
    enough(q, m) && !enough(q - 1, m)
}

// The root of m * 2^52 * 4^k squares of the least value.
fn root_by_halving(m: u64, k: u64) -> f64
    requires { Digits m k }
    ensures { result ≡ rules.root_of_units binary64 (m * 2 ^ 52 * (2 ^ k * 2 ^ k)) }
{
    f64::from_bits(k * EXPONENT + halved(m))
}

// The digits of the root: the least q of 53 digits that is enough.
fn halved(m: u64) -> u64
    requires { (2 ^ 52 ≤ m) × (m + 1 < 2 ^ 54) }
    ensures { Halved m result }
{
    let mut lo: u64 = EXPONENT;
    let mut hi: u64 = 2 * EXPONENT - 1;
    // no index is counted: the search ends where both meet, and there is no list that `partition_point` could search
    while lo < hi {
        let q = lo + (hi - lo) / 2;
        if enough(q, m) {
            hi = q;
        } else {
            lo = q + 1;
        }
    }
    lo
}

// Whether q * (q + 1) is at least m * 2^52. The product is too wide, but without its lowest 52 digits it is not: with q = h * 2^27 + l it is
// h * h * 2^54 + h * (2 * l + 1) * 2^27 + l * (l + 1).
fn enough(q: u64, m: u64) -> bool
    requires { q < 2 ^ 53 }
    ensures { result ≡ leb (m * 2 ^ 52) (q * (q + 1)) }
{
    let h = q / 134217728;
    let l = q % 134217728;
    m <= 4 * (h * h) + (h * (2 * l + 1) + l * (l + 1) / 134217728) / 33554432
}
