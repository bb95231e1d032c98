// A problem as it is handed to the solver.
use rules::{Answer, Cols, Logged, Rows, SolverParam, Storage};

// A, in one slice; or, dense, in two, with so many columns in the first.
#[derive(Clone, Copy)]
pub enum Matrix<'a> {
    Whole(Storage, &'a [f64]),
    Split(Cols, &'a [f64], &'a [f64]),
}

#[derive(Clone, Copy)]
pub struct Problem<'a> {
    pub par: SolverParam,
    pub rows: Rows,
    pub cols: Cols,
    pub c: &'a [f64],
    pub a: Matrix<'a>,
    pub b: &'a [f64],
    pub words: &'a [u16],
}

impl<'a> Problem<'a> {
    pub fn solve(self, work: &mut [f64], cone_work: &mut [f64]) -> Answer {
        let Problem {
            par,
            rows,
            cols,
            c,
            a,
            b,
            words,
        } = self;
        match a {
            Matrix::Whole(storage, a) => {
                solver::solve(par, rows, cols, storage, c, a, b, words, work, cone_work)
            }
            Matrix::Split(first, a1, a2) => {
                solver::solve_split(par, rows, cols, first, c, a1, a2, b, words, work, cone_work)
            }
        }
    }

    // The same with a progress record.
    pub fn solve_logged(self, work: &mut [f64], cone_work: &mut [f64], log: &mut [f64]) -> Logged {
        let Problem {
            par,
            rows,
            cols,
            c,
            a,
            b,
            words,
        } = self;
        match a {
            Matrix::Whole(storage, a) => {
                solver::solve_logged(
                    par, rows, cols, storage, c, a, b, words, work, cone_work, log,
                )
            }
            Matrix::Split(first, a1, a2) => {
                solver::solve_split_logged(
                    par, rows, cols, first, c, a1, a2, b, words, work, cone_work, log,
                )
            }
        }
    }
}
