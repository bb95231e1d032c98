// A problem as it is handed over, and how a record tells it.
ghost use Rattle.std.specs.Prelude.{◌≤◌, length};

use replay::record;
use replay_problems::problem::{Matrix, Problem};
use replay_problems::room::{ROOM, Vector, Vectors};
use replay_problems::{logs, room, runs};
use rules::{Cols, Rows, SolverParam, Storage};

// How A is handed over: in one slice; or, dense, in two, with so many columns in the first.
#[derive(Clone, Copy)]
pub enum Way {
    Whole(Storage),
    Split(Cols),
}

// Parameters and sizes, and where the vectors end among the problem's numbers: c, A with its first slice, b.
#[derive(Clone, Copy)]
pub struct Handed {
    pub par: SolverParam,
    pub rows: Rows,
    pub cols: Cols,
    pub way: Way,
    pub c_end: usize,
    pub first_end: usize,
    pub a_end: usize,
    pub b_end: usize,
}

impl Handed {
    // The same problem in an edition of sums.
    pub fn in_edition(self, edition: u32) -> Handed {
        Handed {
            par: self.par.with_edition(edition),
            ..self
        }
    }

    // The same problem, dense, with so many columns in the first slice.
    pub fn in_two(self, first: usize) -> Handed {
        Handed {
            way: Way::Split(Cols(first)),
            first_end: self.c_end.wrapping_add(places(self.rows.0, first)),
            ..self
        }
    }

    // Whether its matrix is dense.
    pub fn is_dense(self) -> bool {
        matches!(self.way, Way::Whole(Storage::Dense) | Way::Split(_))
    }

    // Whether it stands in two slices.
    pub fn is_split(self) -> bool {
        matches!(self.way, Way::Split(_))
    }

    // The problem, of these numbers and cone words.
    pub fn problem<'a>(self, numbers: &'a [f64], words: &'a [u16]) -> Problem<'a> {
        let b_end = self.b_end.min(numbers.len());
        let a_end = self.a_end.min(b_end);
        let first_end = self.first_end.min(a_end);
        let c_end = self.c_end.min(first_end);
        let a = match self.way {
            Way::Whole(storage) => Matrix::Whole(storage, &numbers[c_end..a_end]),
            Way::Split(first) => {
                Matrix::Split(
                    first,
                    &numbers[c_end..first_end],
                    &numbers[first_end..a_end],
                )
            }
        };
        Problem {
            par: self.par,
            rows: self.rows,
            cols: self.cols,
            c: &numbers[..c_end],
            a,
            b: &numbers[a_end..b_end],
            words,
        }
    }
}

// The lengths of the three buffers, what all of their places hold before, and what the uncut run comes to: the number of its answer, k and q.
#[derive(Clone, Copy)]
pub struct Lent {
    pub work: usize,
    pub cone_work: usize,
    pub log: usize,
    pub before: f64,
    pub log_before: f64,
    pub number: u64,
    pub steps: u64,
    pub rotations: u64,
}

// The problem of a record, of which the words after those of the run tell the period; none where there is no room for its numbers. They are put in their room,
// and its matrix stands there whole, in one slice.
pub fn read(run: &[u8], log: &[u8], numbers: &mut [f64]) -> Option<Handed> {
    let Vectors { c, a, b } = Vectors::of(run);
    let c_end = put(run, c, 0, numbers);
    let first_end = put(run, a, c_end, numbers);
    let a_end = put(run, second_half(run, a), first_end, numbers);
    let b_end = put(run, b, a_end, numbers);
    if b_end == numbers.len() {
        return None;
    }
    Some(Handed {
        par: runs::parameters(run).with_log_period(logs::period(log)),
        rows: Rows(record::size(run, 7)),
        cols: Cols(record::size(run, 6)),
        way: Way::Whole(storage(run)),
        c_end,
        first_end,
        a_end,
        b_end,
    })
}

// What follows of a matrix: itself once more, where half of it stands in the record for both halves.
fn second_half(run: &[u8], a: Vector) -> Vector {
    if runs::is_half(run) { a } else { Vector::EMPTY }
}

fn storage(run: &[u8]) -> Storage {
    if record::word(run, 5) == 1 {
        Storage::Packed
    } else {
        Storage::Dense
    }
}

// Puts a vector's numbers into their room from a place on: the place after them, or the end of the room, where it is too small.
fn put(run: &[u8], v: Vector, from: usize, numbers: &mut [f64]) -> usize
    ensures { result ≤ length numbers.old }
{
    if from > numbers.len() || v.length > numbers.len() - from {
        return numbers.len();
    }
    let end = from + v.length;
    room::fill(run, v, 0, &mut numbers[from..end]);
    end
}

// The buffers that are lent with a record's problem.
pub fn lent_with(run: &[u8], log: &[u8]) -> Lent {
    let at = Vectors::of(run).after();
    let answer = at.wrapping_add(3);
    Lent {
        work: record::size(run, at),
        cone_work: record::size(run, at.wrapping_add(1)),
        log: logs::places(log),
        before: record::number(run, at.wrapping_add(2)),
        log_before: logs::before(log),
        number: record::word(run, answer),
        steps: record::word(run, answer.wrapping_add(1)),
        rotations: record::word(run, answer.wrapping_add(2)),
    }
}

// The places of a dense matrix, none where it is too large.
fn places(rows: usize, columns: usize) -> usize {
    if rows > ROOM || columns > ROOM {
        return 0;
    }
    rows.wrapping_mul(columns)
}
