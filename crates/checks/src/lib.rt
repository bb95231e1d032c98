// When the hub is turned away: the six tests, in order. Sizes are bounded before any arithmetic on them.
#![tactic(auto)]

ghost use Rattle.std.specs.Prelude.{◌≤◌, ◌≡◌};
ghost use Rattle.rules.specs.Limits.{limit};
ghost use Rattle.rules.specs.Refusals.{large_sizes, some_not_finite, short_buffers, refusal};
ghost use Rattle.rules.specs.Problem.{problem_of, slices, joined};
ghost use Rattle.rules.specs.Split.{split_of, split_refusal};
ghost use Rattle.checks.specs.Parts.{plain_refusal, parts_refusal};

use finite::all_finite;
use rules::{Cols, Ending, LIMIT, MOST_WORDS, Rows, Shape, SolverParam, Storage};
use shape::{Operators, operators_fit};

// The first test that applies.
pub fn check(
    par: SolverParam,
    rows: Rows,
    cols: Cols,
    storage: Storage,
    c: &[f64],
    a: &[f64],
    b: &[f64],
    words: &[u16],
    work: usize,
    cone_work: usize,
) -> Result<(), Ending>
    ensures { result
        ≡ refusal
        (problem_of rows.0 cols.0 storage c.now a.now b.now
        words.now par)
        work cone_work }
{
    let shape = Shape {
        rows,
        cols,
        storage,
        first: cols,
    };
    check_parts(par, shape, c, a, &[], b, words, work, cone_work)
}

// The first test that applies to a problem whose dense A stands in two slices.
pub fn check_split(
    par: SolverParam,
    rows: Rows,
    cols: Cols,
    first: Cols,
    c: &[f64],
    factory: &[f64],
    lesson: &[f64],
    b: &[f64],
    words: &[u16],
    work: usize,
    cone_work: usize,
) -> Result<(), Ending>
    ensures { result
        ≡ split_refusal
        (split_of rows.0 cols.0 first.0 c.now factory.now lesson.now
        b.now words.now par)
        work cone_work }
{
    let shape = Shape {
        rows,
        cols,
        storage: Storage::Dense,
        first,
    };
    check_parts(par, shape, c, factory, lesson, b, words, work, cone_work)
}

// What both share: A stands in two slices, as the shape says.
fn check_parts(
    par: SolverParam,
    shape: Shape,
    c: &[f64],
    a1: &[f64],
    a2: &[f64],
    b: &[f64],
    words: &[u16],
    work: usize,
    cone_work: usize,
) -> Result<(), Ending>
    ensures { result
        ≡ parts_refusal par shape c.now (slices a1.now a2.now) b.now
        words.now work cone_work }
{
    let m = shape.rows.0;
    let n = shape.cols.0;
    let param_is_bad = parameters::bad_param(par);
    let size_is_too_large = too_large(m, n, words);
    if param_is_bad {
        return Err(Ending::BadParam);
    }
    if size_is_too_large {
        return Err(Ending::TooLarge);
    }
    let operators = Operators {
        shape,
        c,
        a1,
        a2,
        b,
    };
    if !operators_fit(&operators) {
        return Err(Ending::InvalidOp);
    }
    let mut plain = [0u16; MOST_WORDS];
    let count = groups::count_of(groups::flatten(words, &mut plain));
    check_plain(m, n, c, a1, a2, b, &plain[..count], work, cone_work)
}

// The last three tests, over the plain words of the list.
fn check_plain(
    m: usize,
    n: usize,
    c: &[f64],
    a1: &[f64],
    a2: &[f64],
    b: &[f64],
    words: &[u16],
    work: usize,
    cone_work: usize,
) -> Result<(), Ending>
    requires { (m ≤ limit) × (n ≤ limit) }
    ensures { result
        ≡ plain_refusal m n c.now (joined (slices a1.now a2.now)) b.now
        words.now work cone_work }
{
    let cone_is_bad = words::is_bad_cone(words, m);
    let number_is_not_finite = not_finite(c, a1, a2, b);
    if cone_is_bad {
        return Err(Ending::BadCone);
    }
    if number_is_not_finite {
        return Err(Ending::NotFinite);
    }
    if work_shortage(m, n, words, work, cone_work) {
        return Err(Ending::WorkShortage);
    }
    Ok(())
}

fn too_large(m: usize, n: usize, words: &[u16]) -> bool
    ensures { result ≡ large_sizes m n words.now }
{
    n > LIMIT || m > LIMIT || words.len() > MOST_WORDS
}

#[tactic(auto, using(crate::proofs::Finite::finite_joined))]
fn not_finite(c: &[f64], a1: &[f64], a2: &[f64], b: &[f64]) -> bool
    ensures { result
        ≡ some_not_finite c.now (joined (slices a1.now a2.now))
        b.now }
{
    !all_finite(c) || !all_finite(a1) || !all_finite(a2) || !all_finite(b)
}

fn work_shortage(m: usize, n: usize, words: &[u16], work: usize, cone_work: usize) -> bool
    requires { (m ≤ limit) × (n ≤ limit) }
    ensures { result ≡ short_buffers m n words.now work cone_work }
{
    work < 6 * n + 10 * m + 6 || cone_work < words::cone_work_len(words)
}
