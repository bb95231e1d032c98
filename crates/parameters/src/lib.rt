// What a problem's parameters may be, and how they are read.
#![tactic(auto)]

ghost use Rattle.std.specs.Prelude.{◌≡◌};
ghost use Rattle.rules.specs.Refusals.{bad_eps, bad_tolerance, bad_param};
ghost use Rattle.rules.specs.Problem.{as_read};

use finite::is_finite;
use rules::{MOST_STEPS, MOST_SWEEPS, SolverParam};

// Not finite, or below zero; -0 is not below.
fn bad_eps(eps: f64) -> bool
    ensures { result ≡ bad_eps eps }
{
    !is_finite(eps) || eps < 0.0
}

// Whether one of the tolerances is.
fn bad_tolerance(par: SolverParam) -> bool
    ensures { result ≡ bad_tolerance par }
{
    bad_eps(par.eps_acc) || bad_eps(par.eps_inf) || bad_eps(par.eps_zero)
}

// Whether one of them is outside its range.
pub fn bad_param(par: SolverParam) -> bool
    ensures { result ≡ bad_param par }
{
    bad_tolerance(par)
        || par.max_iter > MOST_STEPS
        || par.sweep_limit < 1
        || par.sweep_limit > MOST_SWEEPS
        || !matches!(par.edition, 1..=2)
}

// An eps_zero of -0 is read as +0.
pub fn read_eps(par: SolverParam) -> SolverParam
    ensures { result ≡ as_read par }
{
    if par.eps_zero == 0.0 {
        return par.with_eps_zero(0.0);
    }
    par
}
