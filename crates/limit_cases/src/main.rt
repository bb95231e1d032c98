// Problems at the limits, which run, and beyond them, which are turned away. replay_runs compares such runs with the original.
#![tactic(auto)]

use lines::write_case;
use rules::{Answer, Cols, LIMIT, MOST_WORDS, Rows, SolverParam, Storage};

// How many numbers c and b may have: the places of a block of the order after the largest, 1,035.
const LONG: usize = PLACES + ORDER + 1;

// The largest packed matrix, and half of the largest dense one. All of that would fill the stack.
const PACKED: usize = LIMIT * (LIMIT + 1) / 2;

const HALF: usize = LIMIT * LIMIT / 2;

// The work that no accepted problem passes, 16,390 places, and the cone work: that of the largest semidefinite order, 44, whose block has
// 990 places.
const WORK: usize = 16 * LIMIT + 6;

const ORDER: usize = 44;

const PLACES: usize = ORDER * (ORDER + 1) / 2;

const CONE_WORK: usize = ORDER + ORDER * ORDER;

const STEPS: u64 = 2;

// Cone words of a nonnegative block and of a semidefinite one, of no place yet.
const NONNEGATIVE: u16 = 8192;

const SEMIDEFINITE: u16 = 32768;

// What a problem is answered: the number of its refusal or ending, and the steps taken.
#[derive(Clone, Copy)]
struct Told {
    number: u64,
    steps: u64,
}

fn told_by(answer: Answer) -> Told {
    Told {
        number: replay_answers::number_of(answer.ending),
        steps: answer.steps,
    }
}

impl Told {
    // No answer: there is no room for what is asked.
    const UNASKED: Told = Told {
        number: 0,
        steps: 0,
    };
}

// An accepted problem ends, here at its last step; one that is refused takes none.
fn has_run(answer: Told) -> bool {
    answer.number > 6 && answer.steps == STEPS
}

fn is_refused(answer: Told, number: u64) -> bool {
    answer.number == number && answer.steps == 0
}

// An array that a call answers has a length and nothing else that a proof would go into.
fn zeros() -> [f64; PACKED] {
    [0.0; PACKED]
}

fn ones() -> [f64; LONG] {
    [1.0; LONG]
}

fn sevens() -> [f64; WORK] {
    [7.0; WORK]
}

// The answer to a problem of so many rows and columns and the first so many numbers for A, with so much work and cone work.
fn answer(
    numbers: &[f64],
    storage: Storage,
    m: usize,
    n: usize,
    stored: usize,
    words: &[u16],
    work: usize,
    cone_work: usize,
) -> Told {
    if stored > numbers.len() || work > WORK || cone_work > CONE_WORK {
        return Told::UNASKED;
    }
    let mut lent = sevens();
    let mut lent_cone = [7.0; CONE_WORK];
    answer_in(
        storage,
        m,
        n,
        &numbers[..stored],
        words,
        &mut lent[..work],
        &mut lent_cone[..cone_work],
    )
}

fn answer_in(
    storage: Storage,
    m: usize,
    n: usize,
    a: &[f64],
    words: &[u16],
    work: &mut [f64],
    cone_work: &mut [f64],
) -> Told {
    if m > LONG || n > LONG {
        return Told::UNASKED;
    }
    let c = ones();
    let b = ones();
    let answer = solver::solve(
        SolverParam::new(STEPS, 64),
        Rows(m),
        Cols(n),
        storage,
        &c[..n],
        a,
        &b[..m],
        words,
        work,
        cone_work,
    );
    told_by(answer)
}

// The answer to the largest dense matrix, whose halves are one slice, lent for both, with so much work.
fn answer_of_halves(numbers: &[f64], work: usize) -> Told {
    if HALF > numbers.len() || work > WORK {
        return Told::UNASKED;
    }
    let mut lent = sevens();
    answer_of_half(&numbers[..HALF], &mut lent[..work])
}

fn answer_of_half(half: &[f64], work: &mut [f64]) -> Told {
    let c = ones();
    let b = ones();
    let words = [NONNEGATIVE + LIMIT as u16; 1];
    let mut cone_work = [7.0; 1];
    let answer = solver::solve_split(
        SolverParam::new(STEPS, 64),
        Rows(LIMIT),
        Cols(LIMIT),
        Cols(LIMIT / 2),
        &c[0..LIMIT],
        half,
        half,
        &b[0..LIMIT],
        &words,
        work,
        &mut cone_work,
    );
    told_by(answer)
}

// The answer to a problem of so many rows and columns and one nonnegative block.
fn sized(
    numbers: &[f64],
    storage: Storage,
    m: usize,
    n: usize,
    stored: usize,
    work: usize,
) -> Told {
    if m > LONG {
        return Told::UNASKED;
    }
    let words = [NONNEGATIVE + m as u16; 1];
    answer(numbers, storage, m, n, stored, &words, work, 0)
}

// The answer to a problem of one column and nonnegative blocks of one place.
fn listed(numbers: &[f64], words: &[u16]) -> Told {
    let m = words.len();
    answer(numbers, Storage::Dense, m, 1, m, words, WORK, 0)
}

// The answer to a problem of one column and one semidefinite block of so many places.
fn semidefinite(numbers: &[f64], places: usize, cone_work: usize) -> Told {
    if places > LONG {
        return Told::UNASKED;
    }
    let words = [SEMIDEFINITE + places as u16; 1];
    answer(
        numbers,
        Storage::Dense,
        places,
        1,
        places,
        &words,
        WORK,
        cone_work,
    )
}

fn write_sizes<P: Print>(out: &P, numbers: &[f64]) {
    lines::write(out, b"1,024 rows and 3 columns, accepted");
    write_case(
        out,
        has_run(sized(numbers, Storage::Dense, LIMIT, 3, 3 * LIMIT, WORK)),
    );
    lines::write(out, b"3 rows and 1,024 columns, accepted");
    write_case(
        out,
        has_run(sized(numbers, Storage::Dense, 3, LIMIT, 3 * LIMIT, WORK)),
    );
    lines::write(out, b"packed of order 1,024, accepted");
    write_case(
        out,
        has_run(sized(numbers, Storage::Packed, LIMIT, LIMIT, PACKED, WORK)),
    );
    lines::write(out, b"dense, 1,024 rows and columns, accepted");
    write_case(out, has_run(answer_of_halves(numbers, WORK)));
    lines::write(out, b"1,025 rows, refused by 2");
    write_case(
        out,
        is_refused(
            sized(numbers, Storage::Dense, LIMIT + 1, 3, 3 * (LIMIT + 1), WORK),
            2,
        ),
    );
    lines::write(out, b"1,025 columns, refused by 2");
    write_case(
        out,
        is_refused(
            sized(numbers, Storage::Dense, 3, LIMIT + 1, 3 * (LIMIT + 1), WORK),
            2,
        ),
    );
}

fn write_work<P: Print>(out: &P, numbers: &[f64]) {
    lines::write(out, b"packed, a place of work missing, refused by 6");
    write_case(
        out,
        is_refused(
            sized(numbers, Storage::Packed, LIMIT, LIMIT, PACKED, WORK - 1),
            6,
        ),
    );
    lines::write(out, b"dense, a place of work missing, refused by 6");
    write_case(out, is_refused(answer_of_halves(numbers, WORK - 1), 6));
}

fn write_words<P: Print>(out: &P, numbers: &[f64]) {
    let most = [NONNEGATIVE + 1; MOST_WORDS];
    let longer = [NONNEGATIVE + 1; MOST_WORDS + 1];
    lines::write(out, b"128 words, accepted");
    write_case(out, has_run(listed(numbers, &most)));
    lines::write(out, b"129 words, refused by 2");
    write_case(out, is_refused(listed(numbers, &longer), 2));
}

fn write_orders<P: Print>(out: &P, numbers: &[f64]) {
    lines::write(out, b"a block of order 44, accepted");
    write_case(out, has_run(semidefinite(numbers, PLACES, CONE_WORK)));
    lines::write(out, b"order 44, a place of cone work missing, refused by 6");
    write_case(
        out,
        is_refused(semidefinite(numbers, PLACES, CONE_WORK - 1), 6),
    );
    lines::write(
        out,
        b"a block of order 45, which has 1,035 places, refused by 2",
    );
    write_case(out, is_refused(semidefinite(numbers, LONG, CONE_WORK), 2));
}

fn run<P: Print>(out: &P) {
    let mut numbers = zeros();
    numbers[0] = 1.0;
    numbers[LIMIT] = -0.5;
    write_sizes(out, &numbers);
    write_work(out, &numbers);
    write_words(out, &numbers);
    write_orders(out, &numbers)
}

fn main(rt: HostRuntime) {
    run(&rt);
}
