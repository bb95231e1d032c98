// The problem that a card says: its numbers, its parameters and how A is stored.
#![tactic(auto)]

ghost use Rattle.std.specs.Prelude.{◌≡◌, length};
ghost use Rattle.card_problem.specs.Problem.{number_at, numbers_at, parameters_of};

pub use card::storage_of;
use rules::{Cols, Rows, SolverParam};

// The most numbers that A has.
pub const LONG: usize = 1024;

// What is told of a card without a fault: m and n, and what its run answers.
#[derive(Clone, Copy)]
pub struct Told<A> {
    pub rows: Rows,
    pub cols: Cols,
    pub answer: A,
}

// The number at a place of a card's numbers, 0 past the end.
fn number_at(numbers: &[u64], k: usize) -> f64
    ensures { result ≡ number_at numbers.now k }
{
    match numbers.get(k) {
        Some(&pattern) => patterns::number_of(pattern),
        None => 0.0,
    }
}

// Fills a vector with numbers of a card, from the first on.
fn fill(numbers: &[u64], out: &mut [f64])
    ensures { out.new ≡ numbers_at numbers.now 0 (length out.old) }
{
    for (k, place) in out.iter_mut().enumerate() {
        *place = number_at(numbers, k);
    }
}

// So many numbers of a card from a place on, 0 past the end.
pub fn numbers_from<const N: usize>(numbers: &[u64], at: usize) -> [f64; N]
    ensures { result ≡ numbers_at numbers.now at N }
{
    let mut space = [0.0; N];
    fill(numbers.get(at..).unwrap_or(&[]), &mut space);
    space
}

pub fn parameters(numbers: &[u64], max_iter: u64, sweep_limit: u64) -> SolverParam
    ensures { result ≡ parameters_of max_iter sweep_limit numbers.now }
{
    let acc = number_at(numbers, 0);
    let inf = number_at(numbers, 1);
    let zero = number_at(numbers, 2);
    SolverParam::of(max_iter, acc, inf, zero, sweep_limit)
}
