// A record's problem, run and compared.
ghost use Rattle.std.specs.Prelude.{◌≡◌, ◌==◌, ◌≤◌};
ghost use Rattle.replay.specs.Records.{word_of};

use crate::problem::{Matrix, Problem};
use crate::room::Vectors;
use crate::{logs, room};
use replay::record;
use rules::{Answer, Cols, Rows, SolverParam, Storage};

// The answer's number in the list, and whether it is had here.
#[derive(Clone, Copy)]
pub struct Found {
    pub number: usize,
    pub agrees: bool,
}

// How A is handed over: in one slice; in two, with so many columns in the first; or one slice, which holds half of its columns, for both halves.
#[derive(Clone, Copy)]
pub enum Cut {
    Whole,
    After(usize),
    Twice,
}

// Runs a record's problem and compares; none where there is no room for it. The original ran it over the whole matrix, so a record says what comes of any cut.
pub fn replay(record: &[u8], cut: Cut, a_room: &mut [f64]) -> Option<Found> {
    replay_with(record, &[], parameters(record), cut, a_room)
}

// The same in an edition of sums.
pub fn replay_in(record: &[u8], edition: u32, cut: Cut, a_room: &mut [f64]) -> Option<Found> {
    let par = parameters(record).with_edition(edition);
    replay_with(record, &[], par, cut, a_room)
}

// The same with a progress record, of which the words after those of the run tell. Where there are none it is run without one.
pub fn replay_logged(record: &[u8], log: &[u8], cut: Cut, a_room: &mut [f64]) -> Option<Found> {
    let par = parameters(record).with_log_period(logs::period(log));
    replay_with(record, log, par, cut, a_room)
}

fn replay_with(
    record: &[u8],
    log: &[u8],
    par: SolverParam,
    cut: Cut,
    a_room: &mut [f64],
) -> Option<Found> {
    let blocks = room::blocks(record);
    let vectors = Vectors::of(record);
    let a_length = vectors.a.length;
    if blocks > room::WORD_ROOM || a_length > a_room.len() {
        return None;
    }
    let words = room::cone_words(record);
    let agrees = takes(
        record,
        log,
        par,
        cut,
        vectors,
        &words[..blocks],
        &mut a_room[..a_length],
    );
    Some(Found {
        number: record::size(record, vectors.after().wrapping_add(3)),
        agrees,
    })
}

// How a record's matrix stands there: whole, or half of it, for both halves.
pub fn as_it_stands(record: &[u8]) -> Cut {
    if is_half(record) {
        Cut::Twice
    } else {
        Cut::Whole
    }
}

// Whether half of a dense matrix stands in a record, and the other half is the same once more.
pub fn is_half(record: &[u8]) -> bool
    ensures { result ≡ (word_of «record».now 5 == 2) }
{
    record::word(record, 5) == 2
}

// Whether a record's matrix is dense, all of it there.
pub fn is_dense(record: &[u8]) -> bool
    ensures { result ≡ (word_of «record».now 5 == 0) }
{
    record::word(record, 5) == 0
}

// A record's number of columns.
pub fn columns(record: &[u8]) -> usize
    ensures { result ≡ word_of «record».now 6 }
{
    record::size(record, 6)
}

// How many numbers of A stand in the first slice: all, where it has no more than the cut asks.
fn in_first(record: &[u8], cut: Cut, length: usize) -> usize
    ensures { result ≤ length }
{
    match cut {
        Cut::Whole | Cut::Twice => length,
        Cut::After(first) => {
            let rows = record::size(record, 7);
            rows.checked_mul(first)
                .map_or(length, |asked| asked.min(length))
        }
    }
}

// Takes A out of the record. The second slice is put before the first, so that the two don't stand in the matrix's order.
fn takes(
    record: &[u8],
    log: &[u8],
    par: SolverParam,
    cut: Cut,
    vectors: Vectors,
    words: &[u16],
    a_numbers: &mut [f64],
) -> bool {
    let a = vectors.a;
    let first = in_first(record, cut, a_numbers.len());
    let rest = a_numbers.len() - first;
    room::fill(record, a, a.place(first), &mut a_numbers[..rest]);
    room::fill(record, a, 0, &mut a_numbers[rest..]);
    takes_others(record, log, par, cut, vectors, words, a_numbers, rest)
}

// Takes c and b.
fn takes_others(
    record: &[u8],
    log: &[u8],
    par: SolverParam,
    cut: Cut,
    vectors: Vectors,
    words: &[u16],
    a_numbers: &[f64],
    rest: usize,
) -> bool {
    let Vectors { c, b, .. } = vectors;
    if c.length > room::ROOM || b.length > room::ROOM || rest > a_numbers.len() {
        return false;
    }
    let c_numbers = room::numbers(record, c);
    let b_numbers = room::numbers(record, b);
    let cols = Cols(columns(record));
    let problem = Problem {
        par,
        rows: Rows(record::size(record, 7)),
        cols,
        c: &c_numbers[..c.length],
        a: matrix(record, cut, cols, &a_numbers[rest..], &a_numbers[..rest]),
        b: &b_numbers[..b.length],
        words,
    };
    lends(record, log, problem, vectors.after())
}

fn matrix<'a>(record: &[u8], cut: Cut, cols: Cols, a1: &'a [f64], a2: &'a [f64]) -> Matrix<'a> {
    match cut {
        Cut::Whole => Matrix::Whole(storage(record), a1),
        Cut::After(first) => Matrix::Split(Cols(first), a1, a2),
        Cut::Twice => Matrix::Split(Cols(cols.0 / 2), a1, a1),
    }
}

// Lends buffers, all of whose places hold one number before.
fn lends(record: &[u8], log: &[u8], problem: Problem, lent_at: usize) -> bool {
    let work_length = record::size(record, lent_at);
    let cone_length = record::size(record, lent_at.wrapping_add(1));
    let log_length = logs::places(log);
    if work_length > room::WORK_ROOM
        || cone_length > room::CONE_ROOM
        || log_length > room::LOG_ROOM
    {
        return false;
    }
    let before = record::number(record, lent_at.wrapping_add(2));
    let mut work = [before; room::WORK_ROOM];
    let mut cone_work = [before; room::CONE_ROOM];
    let mut lent_log = [logs::before(log); room::LOG_ROOM];
    agrees(
        record,
        log,
        problem,
        lent_at.wrapping_add(3),
        patterns::pattern_of(before),
        &mut work[..work_length],
        &mut cone_work[..cone_length],
        &mut lent_log[..log_length],
    )
}

// A record's parameters, without a progress record and in edition one.
pub fn parameters(record: &[u8]) -> SolverParam {
    SolverParam::of(
        record::word(record, 0),
        record::number(record, 2),
        record::number(record, 3),
        record::number(record, 4),
        record::word(record, 1),
    )
}

pub fn storage(record: &[u8]) -> Storage {
    if is_dense(record) {
        Storage::Dense
    } else {
        Storage::Packed
    }
}

// Runs the problem, with a log where there is one, and compares what is answered and left with what the record holds from a place on.
fn agrees(
    record: &[u8],
    log: &[u8],
    problem: Problem,
    answer_at: usize,
    before: u64,
    work: &mut [f64],
    cone_work: &mut [f64],
    lent_log: &mut [f64],
) -> bool {
    if log.is_empty() {
        let answer = problem.solve(work, cone_work);
        return is_answered(record, answer_at, before, answer, work, cone_work);
    }
    let logged = problem.solve_logged(work, cone_work, lent_log);
    replay_answers::is_logged(log, logged.written, logged.dropped, lent_log)
        && is_answered(record, answer_at, before, logged.answer, work, cone_work)
}

// Whether this is what the record holds from a place on.
fn is_answered(
    record: &[u8],
    answer_at: usize,
    before: u64,
    answer: Answer,
    work: &[f64],
    cone_work: &[f64],
) -> bool {
    let Answer {
        ending,
        steps,
        rotations,
    } = answer;
    replay_answers::is_told(record, answer_at, ending, steps, rotations)
        && replay_answers::is_left(record, answer_at, before, work, cone_work)
        && replay_answers::has_parts(work, Rows(record::size(record, 7)), Cols(columns(record)))
}
