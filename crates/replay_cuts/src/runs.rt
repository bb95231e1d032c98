// A piece of a problem's run.
use piece_rules::{PieceAnswer, RunRecord};
use replay_problems::problem::{Matrix, Problem};

// A piece of at most so many steps: the first one, or a later one, taken up by its record.
pub fn piece(
    start: Option<RunRecord>,
    problem: Problem,
    given: u32,
    work: &mut [f64],
    cone_work: &mut [f64],
    log: &mut [f64],
) -> PieceAnswer {
    match start {
        None => first(problem, given, work, cone_work, log),
        Some(record) => later(record, problem, given, work, cone_work, log),
    }
}

fn first(
    problem: Problem,
    given: u32,
    work: &mut [f64],
    cone_work: &mut [f64],
    log: &mut [f64],
) -> PieceAnswer {
    let Problem {
        par,
        rows,
        cols,
        c,
        a,
        b,
        words,
    } = problem;
    match a {
        Matrix::Whole(storage, a) => {
            pieces::first_piece(
                par, rows, cols, storage, c, a, b, words, given, work, cone_work, log,
            )
        }
        Matrix::Split(first, a1, a2) => {
            pieces::first_split_piece(
                par, rows, cols, first, c, a1, a2, b, words, given, work, cone_work, log,
            )
        }
    }
}

fn later(
    record: RunRecord,
    problem: Problem,
    given: u32,
    work: &mut [f64],
    cone_work: &mut [f64],
    log: &mut [f64],
) -> PieceAnswer {
    let Problem {
        par,
        rows,
        cols,
        c,
        a,
        b,
        words,
    } = problem;
    match a {
        Matrix::Whole(storage, a) => {
            pieces::later_piece(
                record, par, rows, cols, storage, c, a, b, words, given, work, cone_work, log,
            )
        }
        Matrix::Split(first, a1, a2) => {
            pieces::later_split_piece(
                record, par, rows, cols, first, c, a1, a2, b, words, given, work, cone_work, log,
            )
        }
    }
}
