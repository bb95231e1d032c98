// What stands before the first step: the norms, the first x and y, and the two diagonals.
#![tactic(auto)]

mod start;

ghost use Rattle.rules.specs.Problem.{slices, problem_in};
ghost use Rattle.prepare.specs.Prepare.{prepare_fits, PreparedOutcome};

use precond::calc_precond;
use rules::{Norms, Shape, SolverParam};
use shape::{Operators, Problem, fits_x, fits_y};

// The norms of b and c, the first x and y, and the two diagonals. Where a length, a size or the cone list doesn't fit, it answers
// no and changes nothing.
#[tactic(auto, using(precond::proofs::Fitting::all_fit))]
pub fn prepare<'a>(
    par: SolverParam,
    shape: Shape,
    c: &[f64],
    a1: &'a [f64],
    a2: &'a [f64],
    b: &[f64],
    words: &[u16],
    x: &mut [f64],
    y: &mut [f64],
    dp_tau: &mut [f64],
    dp_sigma: &mut [f64],
) -> Option<Norms>
    ensures { let a = slices a1.now a2.now in
        PreparedOutcome
        (prepare_fits shape c.now a b.now words.now x.old
        y.old dp_tau.old dp_sigma.old)
        (problem_in shape c.now a b.now words.now par) x.old
        y.old dp_tau.old dp_sigma.old result x.new y.new
        dp_tau.new dp_sigma.new }
{
    let operators = Operators {
        shape,
        c,
        a1,
        a2,
        b,
    };
    let problem = Problem {
        operators,
        words,
        par,
    };
    if fits_x(shape, x) && fits_y(shape, y) && calc_precond(&problem, dp_tau, dp_sigma) {
        Some(start::start(par.edition, shape, c, a1, a2, b, x, y))
    } else {
        None
    }
}
