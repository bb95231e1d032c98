// A worked example, and how a hub calls the solver: offset and drift of a logger's clock from sync marks.
//
// At mark i the counter said t_i days, and the hub's clock was d_i seconds ahead of it. Wanted are offset
// and drift whose largest miss e is smallest: minimise e, where for each mark
//
//     offset + drift * t_i - e <= d_i   and   -offset - drift * t_i - e <= -d_i.
//
// That is A x + s = b with x = (offset, drift, e), two rows to a mark, and s in a nonnegative block.
#![tactic(auto)]

use rules::{Cols, Ending, Rows, SolverParam, Storage};

const N: usize = 3;

// Four marks.
const M: usize = 8;

// What is counted in thousandths is below this.
const MOST: usize = 10000;

fn name_of(ending: Ending) -> &'static str {
    match ending {
        Ending::Converged(_, _, _) => "Converged",
        Ending::ExcessIter(_, _, _) => "ExcessIter",
        Ending::ExcessIterUnscaled(_, _) => "ExcessIter, unscaled",
        Ending::Unbounded(_) => "Unbounded",
        Ending::Infeasible(_) => "Infeasible",
        Ending::ConeFailure(_) => "ConeFailure",
        Ending::BadParam => "Refused 1",
        Ending::TooLarge => "Refused 2",
        Ending::InvalidOp => "Refused 3",
        Ending::BadCone => "Refused 4",
        Ending::NotFinite => "Refused 5",
        Ending::WorkShortage => "Refused 6",
    }
}

// How many whole thousandths a number has.
fn thousandths(x: f64) -> u64 {
    let scaled = x * 1000.0;
    let mut whole: u64 = 0;
    let mut next = 1.0;
    for _ in 1..MOST {
        if next <= scaled {
            whole = whole.wrapping_add(1);
        }
        next += 1.0;
    }
    whole
}

fn write_solution<P: Print>(out: &P, x: &[f64]) {
    let [offset, drift, miss] = x else {
        return;
    };
    lines::write(out, b"offset ");
    lines::write_decimal(out, thousandths(*offset));
    lines::write(out, b" ms, drift ");
    lines::write_decimal(out, thousandths(*drift));
    lines::write(out, b" ms a day, largest miss ");
    lines::write_decimal(out, thousandths(*miss));
    lines::write(out, b" ms\n");
}

fn run<P: Print>(out: &P) {
    let c = [0.0, 0.0, 1.0];
    // the columns of offset, drift and e; after 0, 14, 31 and 49 days
    let a = [
        1.0, -1.0, 1.0, -1.0, 1.0, -1.0, 1.0, -1.0, 0.0, 0.0, 14.0, -14.0, 31.0, -31.0, 49.0,
        -49.0, -1.0, -1.0, -1.0, -1.0, -1.0, -1.0, -1.0, -1.0,
    ];
    let b = [0.5, -0.5, 1.2, -1.2, 2.0, -2.0, 3.0, -3.0];
    // one block: nonnegative, 8 places
    let words = [0x2008u16];
    // 6n + 10m + 6 places of work; no semidefinite block, so no cone work
    let mut work = [0.0; 104];
    let mut cone_work = [0.0; 1];
    let par = SolverParam::new(100000, 64);
    let answer = solver::solve(
        par,
        Rows(M),
        Cols(N),
        Storage::Dense,
        &c,
        &a,
        &b,
        &words,
        &mut work,
        &mut cone_work,
    );
    lines::write(out, name_of(answer.ending).as_bytes());
    lines::write(out, b" after ");
    lines::write_decimal(out, answer.steps);
    lines::write(out, b" steps\n");
    write_solution(out, solution::solution_x(&work, Cols(N)));
}

fn main(rt: HostRuntime) {
    run(&rt);
}
