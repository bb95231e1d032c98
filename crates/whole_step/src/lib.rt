// One whole step: update_vecs, then the criteria.
#![tactic(auto)]

ghost use Rattle.rules.specs.Problem.{slices, problem_in};
ghost use Rattle.step.specs.Update.{state_of, step_fits};
ghost use Rattle.whole_step.specs.WholeStep.{WholeStepOutcome};

use criteria::judge;
use rules::{Criteria, Norms, Product, Shape, SolverParam};
use step::update_vecs;

// What a whole step comes to: its criteria with the rotations that it made, or the block that failed with those up to there, which count too: no
// Result.
#[derive(Clone, Copy)]
pub enum StepAnswer {
    Judged(Criteria, u64),
    Failed(usize, u64),
}

// A step and its criteria. Where a length, a size, the cone list or the sweep limit doesn't fit, it answers no and changes
// nothing.
pub fn whole_step(
    par: SolverParam,
    shape: Shape,
    c: &[f64],
    a1: &[f64],
    a2: &[f64],
    b: &[f64],
    words: &[u16],
    norms: Norms,
    x: &mut [f64],
    y: &mut [f64],
    dp_tau: &[f64],
    dp_sigma: &[f64],
    rx: &mut [f64],
    tx: &mut [f64],
    cone_work: &mut [f64],
) -> Option<StepAnswer>
    ensures { let s = state_of x.old y.old dp_tau.now dp_sigma.now
        rx.old tx.old cone_work.old in
        WholeStepOutcome
        (step_fits par shape c.now (slices a1.now a2.now) b.now
        words.now s)
        (problem_in shape c.now (slices a1.now a2.now) b.now
        words.now par) norms s
        result
        (state_of x.new y.new dp_tau.now dp_sigma.now
        rx.new tx.new cone_work.new) }
{
    let made = update_vecs(
        par, shape, c, a1, a2, b, words, x, y, dp_tau, dp_sigma, rx, tx, cone_work,
    )?;
    match made {
        Product::Done(q) => {
            // the sizes fit, since the step was made
            let found = judge(par, shape, c, a1, a2, b, norms, x, rx).unwrap();
            Some(StepAnswer::Judged(found, q))
        }
        Product::Failed(block, q) => Some(StepAnswer::Failed(block, q)),
    }
}
