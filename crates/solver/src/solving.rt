// An accepted run, in vectors and buffers that were made for it.
ghost use Rattle.rules.specs.Problem.{slices, problem_in};
ghost use Rattle.solver.specs.Solve.{Lent, AtZero, RanIn};

use rules::{Answer, Ending, Logged, Shape, SolverParam};

// The whole run, with its six vectors at zero.
pub(crate) fn run_in<'a>(
    par: SolverParam,
    shape: Shape,
    c: &[f64],
    a1: &'a [f64],
    a2: &'a [f64],
    b: &[f64],
    words: &[u16],
    x: &mut [f64],
    y: &mut [f64],
    dp_tau: &mut [f64],
    dp_sigma: &mut [f64],
    rx: &mut [f64],
    tx: &mut [f64],
    work: &mut [f64],
    cone_work: &mut [f64],
    log: &mut [f64],
) -> Logged
    requires lent { Lent shape c.now (slices a1.now a2.now) b.now words.now par work.old cone_work.old }
    requires at_zero { AtZero shape x.old y.old dp_tau.old dp_sigma.old rx.old tx.old }
    ensures { RanIn (problem_in shape c.now (slices a1.now a2.now) b.now
        words.now par)
        work.old log.old result work.new cone_work.new log.new }
{
    cone_work.fill(0.0);
    // the sizes fit, so neither of both says no
    let norms = prepare::prepare(par, shape, c, a1, a2, b, words, x, y, dp_tau, dp_sigma).unwrap();
    let given = par.max_iter as u32;
    let ran = iterate::iterate(
        par, shape, c, a1, a2, b, words, norms, 0, given, x, y, dp_tau, dp_sigma, rx, tx,
        cone_work, log,
    )
    .unwrap();
    // with all of the allowance a run always ends
    let ending = ran.said.unwrap_or(Ending::ConeFailure(0));
    settle::settle(
        shape.rows, shape.cols, ending, x, y, dp_tau, dp_sigma, rx, tx, work, cone_work,
    );
    Logged {
        answer: Answer {
            ending,
            steps: ran.steps,
            rotations: ran.rotations,
        },
        written: ran.rows.written,
        dropped: ran.rows.dropped,
    }
}
