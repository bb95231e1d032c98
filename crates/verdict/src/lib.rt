// How a run ends: what the criteria of a step say, and what each ending does to the buffers.
#![tactic(auto)]

ghost use Rattle.std.specs.Prelude.{◌≡◌, ◌&&◌, leb};
ghost use Rattle.std.specs.Float.Ieee.{le};
ghost use Rattle.rules.specs.Product.{none};
ghost use Rattle.rules.specs.Run as rules;
ghost use Rattle.rules.specs.Run.{allowance, is_scaled, is_cone_failure};
ghost use Rattle.rules.specs.declared.Criteria.TheVariants.{Conv, Inf};

use rules::{Ending, SolverParam};

// Whether the allowance is met: at step max(max_iter, 1).
fn is_spent(par: SolverParam, k: u64) -> bool
    ensures { result ≡ leb (allowance par) k }
{
    par.max_iter <= k && 1 <= k
}

// Whether all three are within eps_acc.
fn is_converged(par: SolverParam, pri: f64, dual: f64, gap: f64) -> bool
    ensures { result ≡ (le pri par.eps_acc && le dual par.eps_acc && le gap par.eps_acc) }
{
    pri <= par.eps_acc && dual <= par.eps_acc && gap <= par.eps_acc
}

// What the criteria of convergence say at step k.
#[tactic(auto, unfolding(rules::specs::Run::verdict))]
pub fn of_conv(par: SolverParam, k: u64, pri: f64, dual: f64, gap: f64) -> Option<Ending>
    ensures { result ≡ rules.verdict par k none (Conv pri dual gap) }
{
    if is_converged(par, pri, dual, gap) {
        return Some(Ending::Converged(pri, dual, gap));
    }
    if is_spent(par, k) {
        return Some(Ending::ExcessIter(pri, dual, gap));
    }
    None
}

// What the two others say at step k.
#[tactic(auto, unfolding(rules::specs::Run::verdict))]
pub fn of_inf(par: SolverParam, k: u64, unbdd: f64, infeas: f64) -> Option<Ending>
    ensures { result ≡ rules.verdict par k none (Inf unbdd infeas) }
{
    if unbdd <= par.eps_inf {
        return Some(Ending::Unbounded(unbdd));
    }
    if infeas <= par.eps_inf {
        return Some(Ending::Infeasible(infeas));
    }
    if is_spent(par, k) {
        return Some(Ending::ExcessIterUnscaled(unbdd, infeas));
    }
    None
}

// Whether a cone failed.
pub fn is_cone_failure(ending: Ending) -> bool
    ensures { result ≡ is_cone_failure ending }
{
    matches!(ending, Ending::ConeFailure(_))
}

// Whether x and y are multiplied by 1/tau.
pub fn is_scaled(ending: Ending) -> bool
    ensures { result ≡ is_scaled ending }
{
    matches!(ending, Ending::Converged(..) | Ending::ExcessIter(..))
}
