// Runs and refusals of a small dense problem in two slices, and its columns, worked by hand.
#![tactic(auto)]

use lines::write_case;
use rules::{Cols, LIMIT, Rows, SolverParam};

// How many numbers a slice may have, and c or b.
const ROOM: usize = LIMIT + 1;

// A slice: so many numbers, all the same.
#[derive(Clone, Copy)]
struct Slice {
    length: usize,
    number: f64,
}

impl Slice {
    const NONE: Slice = Slice {
        length: 0,
        number: 0.0,
    };
}

// The answer to a problem of m rows and n columns, n1 of them in the first slice, whose cone is one
// nonnegative block of so many places.
fn answer(
    m: usize,
    n: usize,
    n1: usize,
    factory: Slice,
    lesson: Slice,
    places: u16,
    steps: u64,
) -> u64 {
    let f = factory.length;
    let l = lesson.length;
    if f > ROOM || l > ROOM || m > ROOM || n > ROOM || places > 8191 {
        return 0;
    }
    let of_c = [1.0; ROOM];
    let of_factory = [factory.number; ROOM];
    let of_lesson = [lesson.number; ROOM];
    let of_b = [1.0; ROOM];
    let words = [8192 + places; 1];
    let mut work = [0.0; 64];
    let mut cone_work = [0.0; 1];
    let told = solver::solve_split(
        SolverParam::new(steps, 64),
        Rows(m),
        Cols(n),
        Cols(n1),
        &of_c[..n],
        &of_factory[..f],
        &of_lesson[..l],
        &of_b[..m],
        &words,
        &mut work,
        &mut cone_work,
    );
    replay_answers::number_of(told.ending)
}

// The same of 2 rows and 3 columns of ones.
fn lengths(n1: usize, f: usize, l: usize) -> u64 {
    let factory = Slice {
        length: f,
        number: 1.0,
    };
    let lesson = Slice {
        length: l,
        number: 1.0,
    };
    answer(2, 3, n1, factory, lesson, 2, 10)
}

// .. of these numbers.
fn numbers(factory: f64, lesson: f64) -> u64 {
    let in_factory = Slice {
        length: 2,
        number: factory,
    };
    let in_lesson = Slice {
        length: 4,
        number: lesson,
    };
    answer(2, 3, 1, in_factory, in_lesson, 2, 10)
}

// The first number of the column asked for, and 0 where none is shown; of a factory slice 1, 2 and a lesson slice 3, 4, 5, 6, both
// lent so far.
fn shown(n1: usize, f: usize, l: usize, k: usize) -> f64 {
    let factory = [1.0, 2.0];
    let lesson = [3.0, 4.0, 5.0, 6.0];
    if f > 2 || l > 4 {
        return 0.0;
    }
    first_of(columns::column(Rows(2), Cols(3), Cols(n1), &factory[..f], &lesson[..l], k))
}

fn first_of(column: &[f64]) -> f64 {
    match column {
        [first, _] => *first,
        _ => 0.0,
    }
}

// Each slice's length by itself, and n1 above n.
fn write_lengths<P: Print>(out: &P) {
    lines::write(out, b"a factory of 1 column, accepted");
    write_case(out, lengths(1, 2, 4) > 6);
    lines::write(out, b"an empty factory, accepted");
    write_case(out, lengths(0, 0, 6) > 6);
    lines::write(out, b"an empty lesson, accepted");
    write_case(out, lengths(3, 6, 0) > 6);
    lines::write(out, b"lengths that only sum rightly, refused by 3");
    write_case(out, lengths(1, 4, 2) == 3);
    lines::write(out, b"n1 counted in rows, refused by 3");
    write_case(out, lengths(1, 3, 3) == 3);
    lines::write(out, b"a factory that is too short, refused by 3");
    write_case(out, lengths(1, 1, 4) == 3);
    lines::write(out, b"a lesson that is too long, refused by 3");
    write_case(out, lengths(1, 2, 5) == 3);
    lines::write(out, b"n1 above n, refused by 3");
    write_case(out, lengths(4, 8, 0) == 3);
}

// Sizes of 0.
fn write_empty<P: Print>(out: &P) {
    let none = Slice::NONE;
    lines::write(out, b"no rows, n1 between, accepted");
    write_case(out, answer(0, 3, 2, none, none, 0, 10) > 6);
    lines::write(out, b"no columns, accepted");
    write_case(out, answer(2, 0, 0, none, none, 2, 10) > 6);
    lines::write(out, b"no columns, n1 of 1 and no rows, refused by 3");
    write_case(out, answer(0, 0, 1, none, none, 0, 10) == 3);
}

// The order, and numbers of both slices.
fn write_order<P: Print>(out: &P) {
    let infinity = 1.0 / 0.0;
    let none = Slice::NONE;
    lines::write(out, b"wrong slices and too many steps, refused by 1");
    write_case(out, answer(2, 3, 1, none, none, 2, 1000001) == 1);
    lines::write(out, b"wrong slices and 1,025 columns, refused by 2");
    write_case(out, answer(2, LIMIT + 1, 1, none, none, 2, 10) == 2);
    lines::write(out, b"wrong slices and a list for another m, refused by 3");
    write_case(out, answer(2, 3, 1, none, none, 3, 10) == 3);
    lines::write(out, b"an infinite number in the factory, refused by 5");
    write_case(out, numbers(infinity, 1.0) == 5);
    lines::write(out, b"a NaN in the lesson, refused by 5");
    write_case(out, numbers(1.0, infinity - infinity) == 5);
}

fn write_columns<P: Print>(out: &P) {
    lines::write(out, b"column 0 is the factory's");
    write_case(out, shown(1, 2, 4, 0) == 1.0);
    lines::write(out, b"column 1 is the lesson's first");
    write_case(out, shown(1, 2, 4, 1) == 3.0);
    lines::write(out, b"column 2 is the lesson's second");
    write_case(out, shown(1, 2, 4, 2) == 5.0);
    lines::write(out, b"there is no column 3");
    write_case(out, shown(1, 2, 4, 3) == 0.0);
    lines::write(out, b"no column of slices of another length");
    write_case(out, shown(1, 2, 3, 0) == 0.0);
    lines::write(out, b"no column where n1 is above n");
    write_case(out, shown(4, 2, 4, 0) == 0.0);
}

fn run<P: Print>(out: &P) {
    write_lengths(out);
    write_empty(out);
    write_order(out);
    write_columns(out)
}

fn main(rt: HostRuntime) {
    run(&rt);
}
