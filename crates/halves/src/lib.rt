// Sums by halves: how edition two adds a range up.
#![tactic(auto)]

ghost use Rattle.std.specs.Prelude.{◌≡◌, length};
ghost use Rattle.rules.specs.Arithmetic.{at};
ghost use Rattle.rules.specs.Editions.{sum_by_halves};

// The sum of a range: of none +0, of one itself, of more that of the first half and that of the rest. Up to eight terms are written out.
pub fn sum_by_halves(terms: &[f64]) -> f64
    ensures { result ≡ sum_by_halves (length terms.now) (at terms.now) }
{
    match *terms {
        [] => 0.0,
        [a] => a,
        [a, b] => a + b,
        [a, b, c] => a + (b + c),
        [a, b, c, d] => (a + b) + (c + d),
        [a, b, c, d, e] => (a + b) + (c + (d + e)),
        [a, b, c, d, e, f] => (a + (b + c)) + (d + (e + f)),
        [a, b, c, d, e, f, g] => (a + (b + c)) + ((d + e) + (f + g)),
        [a, b, c, d, e, f, g, h] => ((a + b) + (c + d)) + ((e + f) + (g + h)),
        _ => {
            let (first, rest) = terms.split_at(terms.len() / 2);
            sum_by_halves(first) + sum_by_halves(rest)
        }
    }
}
