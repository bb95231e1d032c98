// The preconditioner: the two diagonals, calc_precond of solver.rs.
#![tactic(auto)]

mod abs_sums;

ghost use Rattle.std.specs.Prelude.{◌≤◌, ◌≡◌, true};
ghost use Rattle.rules.specs.Limits.{limit};
ghost use Rattle.rules.specs.Prepare as rules;
ghost use Rattle.rules.specs.Prepare.{dp_tau_of, dp_sigma_of};
ghost use Rattle.shape.specs.Fitting.{LikeX};
ghost use Rattle.shape.specs.Lent.{lent_problem};
ghost use Rattle.precond.specs.Precond.{Covers, lent_precond_fits, PrecondOutcome, grouped_parts};

use embedding::Embedding;
use rules::Shape;
use shape::{Problem, fits_x, fits_y, operators_fit};

// The two diagonals: 1 over the larger of each absolute sum and eps_zero, grouped for the two cone parts of the first. Where a
// length, a size or the cone list doesn't fit, it answers no and changes nothing.
pub fn calc_precond(problem: &Problem<'_>, dp_tau: &mut [f64], dp_sigma: &mut [f64]) -> bool
    ensures { PrecondOutcome
        (lent_precond_fits problem.now dp_tau.old dp_sigma.old)
        (lent_problem problem.now)
        dp_tau.old dp_sigma.old result dp_tau.new dp_sigma.new }
{
    if !fits(problem, dp_tau, dp_sigma) {
        return false;
    }
    precond_all(problem, dp_tau, dp_sigma);
    true
}

// Whether c, A and b, the cone list and the two vectors are as the shape says.
fn fits(problem: &Problem<'_>, tau: &[f64], sigma: &[f64]) -> bool
    ensures { result ≡ lent_precond_fits problem.now tau.now sigma.now }
{
    let Problem {
        operators,
        words,
        ..
    } = *problem;
    operators_fit(&operators)
        && !words::is_bad_cone(words, operators.shape.rows.0)
        && fits_x(operators.shape, tau)
        && fits_y(operators.shape, sigma)
}

// What calc_precond does where all fits.
fn precond_all(problem: &Problem<'_>, dp_tau: &mut [f64], dp_sigma: &mut [f64])
    requires { lent_precond_fits problem.now dp_tau.old dp_sigma.old ≡ true }
    ensures tau_left { dp_tau.new ≡ dp_tau_of (lent_problem problem.now) dp_tau.old }
    ensures sigma_left { dp_sigma.new ≡ dp_sigma_of (lent_problem problem.now) dp_tau.old }
{
    let Problem {
        operators,
        words,
        par,
    } = *problem;
    let k = Embedding {
        edition: par.edition,
        operators,
    };
    abs_sums::abssum(&k, dp_tau, dp_sigma);
    diagonal(par.eps_zero, dp_tau);
    diagonal(par.eps_zero, dp_sigma);
    group_parts(operators.shape, words, dp_tau);
}

// Each number becomes 1 over the larger of it and eps.
fn diagonal(eps: f64, v: &mut [f64])
    ensures { v.new ≡ rules.diagonal eps v.old }
{
    for u in v.iter_mut() {
        *u = float::reciprocal(float::larger(*u, eps));
    }
}

// The two cone parts of a vector like x are grouped.
fn group_parts(shape: Shape, words: &[u16], d: &mut [f64])
    requires rows_le_limit { shape.rows.0 ≤ limit }
    requires covers { Covers shape words.now }
    requires like_x { LikeX shape d.old }
    ensures { d.new ≡ grouped_parts shape words.now d.old }
{
    let m = shape.rows.0;
    let (_, rest) = d.split_at_mut(shape.cols.0);
    let (d_y, rest) = rest.split_at_mut(m);
    let (d_s, _) = rest.split_at_mut(m);
    grouping::product_group(words, d_y);
    grouping::product_group(words, d_s);
}
