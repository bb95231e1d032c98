// What the second edition of sums buys: a long sum, a long norm and a long fit, from the left and by halves, beside what they are exactly.
// A number is written as its pattern and as decimals, which are cut off and not rounded; then how many numbers of f64 it is off, counted from the one
// nearest to the exact answer.
//
// The fit is of a logger's clock. By the mark at time t the hub's clock was d seconds ahead of the counter, and
//
//     d = 1/4 + t/4 + miss, where the misses are +1, -1, -1, +1 and so on.
//
// Asked for is the latest offset, with any drift, at which the norm of d - offset - drift * t is at most 5/4 of the root of the number of
// marks. That is a second-order block: the bound, and then a place to a mark. Over each four marks the misses have neither mean nor slope, and times lie
// as far before 0 as after it; so the square of that norm is
//
//     marks * (offset - 1/4)^2 + (the sum of t^2) * (drift - 1/4)^2 + marks,
//
// and the answer is the offset 1 with the drift 1/4, exactly. All that the solver is handed is exact as well: each number of marks is a square, and
// times are whole multiples of a power of two.
//
// That all terms are as large as each other is the hard case: roundings from the left lean to one side for long stretches. Of terms of many sizes most
// cancel, and the editions differ less.
#![tactic(auto)]

use rules::{Answer, Cols, Ending, MatType, Rows, SolverParam, Storage};

const INTERVALS: usize = 1000;

const MISSES: usize = 900;

// The columns of a fit, the rows of the longest one, and its work.
const N: usize = 2;

const M: usize = 901;

const A: usize = N * M;

const WORK: usize = 6 * N + 10 * M + 6;

// A run has a tolerance of 0 and takes so many steps: what is wrong in the end is rounding.
const STEPS: u64 = 3000;

// The cone word of a second-order block, of no place yet.
const SECOND_ORDER: u16 = 16384;

const DECIMALS: usize = 16;

// A fit: its rows, half of the time between two marks, and what the norm of the misses may be.
#[derive(Clone, Copy)]
struct Fit {
    m: usize,
    half: f64,
    bound: f64,
}

// What a run came to, and whether it took all of its steps.
#[derive(Clone, Copy)]
struct Told {
    offset: f64,
    drift: f64,
    steps: u64,
    last: bool,
}

impl Told {
    // What is told where there is no room for a fit.
    const NONE: Told = Told {
        offset: 0.0,
        drift: 0.0,
        steps: 0,
        last: false,
    };
}

// The time of the mark in a row: of m - 1 marks the first is as far before 0 as the last is after it.
fn time(m: usize, half: f64, row: usize) -> f64 {
    let twice = 2.0 * std::num::nearest_u64_to_f64(row as u64);
    half * (twice - std::num::nearest_u64_to_f64(m as u64))
}

// What stands in A's places, one column after the other. The bound's row has no part in either.
fn entry(m: usize, half: f64, place: usize) -> f64 {
    if place == 0 || place == m {
        0.0
    } else if place < m {
        1.0
    } else {
        time(m, half, place - m)
    }
}

fn fill_matrix(m: usize, half: f64, a: &mut [f64]) {
    for (i, number) in a.iter_mut().enumerate() {
        *number = entry(m, half, i);
    }
}

fn matrix(fit: Fit) -> [f64; A] {
    let mut a = [0.0; A];
    let m = fit.m;
    if m <= M {
        fill_matrix(m, fit.half, &mut a[..2 * m]);
    }
    a
}

// What stands in b: the bound, and what was read at the marks.
fn reading(m: usize, half: f64, bound: f64, row: usize) -> f64 {
    if row == 0 {
        return bound;
    }
    let line = 0.25 + 0.25 * time(m, half, row);
    match row % 4 {
        2 | 3 => line - 1.0,
        _ => line + 1.0,
    }
}

fn fill_readings(m: usize, half: f64, bound: f64, b: &mut [f64]) {
    for (i, number) in b.iter_mut().enumerate() {
        *number = reading(m, half, bound, i);
    }
}

fn readings(fit: Fit) -> [f64; M] {
    let mut b = [0.0; M];
    let m = fit.m;
    if m <= M {
        fill_readings(m, fit.half, fit.bound, &mut b[..m]);
    }
    b
}

fn zeros() -> [f64; WORK] {
    [0.0; WORK]
}

fn told_by(answer: Answer, x: &[f64]) -> Option<Told> {
    let [offset, drift] = x else {
        return None;
    };
    Some(Told {
        offset: *offset,
        drift: *drift,
        steps: answer.steps,
        last: matches!(answer.ending, Ending::ExcessIter(_, _, _)),
    })
}

// The least of -32 * offset, which has the same answer as that of -offset, and is found in fewer steps.
fn solved(fit: Fit, edition: u32) -> Option<Told> {
    let m = fit.m;
    if m > M {
        return None;
    }
    let c = [-32.0, 0.0];
    let a = matrix(fit);
    let b = readings(fit);
    let mut work = zeros();
    let mut cone_work = [0.0; 1];
    let par = SolverParam::of(STEPS, 0.0, SolverParam::EPS_INF, SolverParam::EPS_ZERO, 64);
    let answer = solver::solve(
        par.with_edition(edition),
        Rows(m),
        Cols(N),
        Storage::Dense,
        &c,
        &a[..2 * m],
        &b[..m],
        &[SECOND_ORDER + m as u16],
        &mut work,
        &mut cone_work,
    );
    told_by(answer, solution::solution_x(&work, Cols(N)))
}

// A row of ones times as many intervals of 0.1.
fn interval_sum(edition: u32) -> f64 {
    let ones = [1.0; INTERVALS];
    let intervals = [0.1; INTERVALS];
    let mut y = [0.0; 1];
    product(edition, &ones, &intervals, &mut y)
}

fn product(edition: u32, row: &[f64], x: &[f64], y: &mut [f64]) -> f64 {
    let t = MatType::General(Rows(1), Cols(INTERVALS));
    matop_by::op_by(edition, t, 1.0, row, x, 0.0, y);
    match y {
        [sum] => *sum,
        _ => 0.0,
    }
}

fn miss_norm(edition: u32) -> f64 {
    let misses = [0.1; MISSES];
    norms::norm_by(edition, &misses)
}

// How many numbers of f64 one is away from the other, both above 0.
fn apart(x: f64, y: f64) -> u64 {
    let p = patterns::pattern_of(x);
    let q = patterns::pattern_of(y);
    if p < q { q - p } else { p - q }
}

// The digits of a number from 1/16 up to 128, without rounding: in parts of 2^-56 it is whole.
fn write_decimals<P: Print>(out: &P, x: f64) {
    let parts = whole(x * 72057594037927936.0);
    lines::write_decimal(out, parts / 72057594037927936);
    lines::write(out, b".");
    write_fraction(out, parts % 72057594037927936);
}

// A number without its fraction, 0 where that is none of 64 bits.
fn whole(x: f64) -> u64 {
    if -1.0 < x && x < 18446744073709551616.0 {
        std::num::truncating_f64_to_u64(x)
    } else {
        0
    }
}

fn write_fraction<P: Print>(out: &P, parts: u64) {
    let mut rest: u64 = parts;
    for _ in 0..DECIMALS {
        rest = (rest % 72057594037927936) * 10;
        lines::write_decimal(out, rest / 72057594037927936);
    }
}

fn name_of(edition: u32) -> &'static str {
    if edition == 1 {
        "  from the left "
    } else {
        "  by halves     "
    }
}

fn write_number<P: Print>(out: &P, x: f64, exact: f64) {
    lines::write_pattern(out, patterns::pattern_of(x));
    lines::write(out, b" ");
    write_decimals(out, x);
    lines::write(out, b", off by ");
    lines::write_decimal(out, apart(x, exact));
}

fn write_edition<P: Print>(out: &P, edition: u32) {
    lines::write(out, name_of(edition).as_bytes());
}

// The sum in an edition, after the edition's name.
fn write_sum<P: Print>(out: &P, edition: u32) {
    write_edition(out, edition);
    write_number(out, interval_sum(edition), 100.0);
    lines::write(out, b"\n");
}

fn write_norm<P: Print>(out: &P, edition: u32) {
    write_edition(out, edition);
    write_number(out, miss_norm(edition), 3.0);
    lines::write(out, b"\n");
}

fn write_told<P: Print>(out: &P, fit: Fit, edition: u32) {
    let Told {
        offset,
        drift,
        steps,
        last,
    } = solved(fit, edition).unwrap_or(Told::NONE);
    write_edition(out, edition);
    write_number(out, offset, 1.0);
    lines::write(out, b"; drift ");
    write_number(out, drift, 0.25);
    if !last {
        lines::write(out, b"; another ending, after ");
        lines::write_decimal(out, steps);
        lines::write(out, b" steps");
    }
    lines::write(out, b"\n");
}

fn write_fit<P: Print>(out: &P, marks: usize, half: f64, bound: f64) {
    let fit = Fit {
        m: marks.wrapping_add(1),
        half,
        bound,
    };
    lines::write_decimal(out, marks as u64);
    lines::write(out, b" marks, 3,000 steps\n");
    write_told(out, fit, 1);
    write_told(out, fit, 2);
}

fn run<P: Print>(out: &P) {
    lines::write(
        out,
        b"The sum of 1,000 intervals of 0.1; nearest to the exact sum is 100\n",
    );
    write_sum(out, 1);
    write_sum(out, 2);
    lines::write(
        out,
        b"The norm of 900 misses of 0.1; nearest to the exact norm is 3\n",
    );
    write_norm(out, 1);
    write_norm(out, 2);
    lines::write(
        out,
        b"The latest offset of a fit, and its drift; exactly they are 1 and 0.25\n",
    );
    write_fit(out, 16, 0.0625, 5.0);
    write_fit(out, 100, 0.0078125, 12.5);
    write_fit(out, 400, 0.001953125, 25.0);
    write_fit(out, 900, 0.0009765625, 37.5);
}

fn main(rt: HostRuntime) {
    run(&rt);
}
