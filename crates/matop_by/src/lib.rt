// The operators of matop.rs, by edition: those of edition one, or the same with their sums by halves.
// Twins here and in split.rt stay two: each is one test and two calls, which a function of both would only take as parameters.
#![tactic(auto, using(crate::proofs::ByEdition::op_one, crate::proofs::ByEdition::trans_op_one, crate::proofs::ByEdition::op_two, crate::proofs::ByEdition::trans_op_two, crate::proofs::ByEdition::none_beside))]

pub mod split;

ghost use Rattle.std.specs.Prelude.{◌≡◌};
ghost use Rattle.rules.specs.Outcome.{Outcome};
ghost use Rattle.rules.specs.Matrices.{op_fits, trans_op_fits, opped_by, trans_opped_by};

use rules::MatType;

// y becomes alpha * matrix * x + beta * y.
pub fn op_by(
    edition: u32,
    t: MatType,
    alpha: f64,
    mat: &[f64],
    x: &[f64],
    beta: f64,
    y: &mut [f64],
) -> bool
    ensures { Outcome (op_fits t mat.now x.now y.old)
        (opped_by edition t alpha mat.now x.now beta y.old) y.old result
        y.new }
{
    match edition {
        2 => halved_transform::op_by_halves(false, t, alpha, mat, &[], x, beta, y),
        _ => matop::op(t, alpha, mat, x, beta, y),
    }
}

// y becomes alpha * matrix transposed * x + beta * y.
pub fn trans_op_by(
    edition: u32,
    t: MatType,
    alpha: f64,
    mat: &[f64],
    x: &[f64],
    beta: f64,
    y: &mut [f64],
) -> bool
    ensures { Outcome (trans_op_fits t mat.now x.now y.old)
        (trans_opped_by edition t alpha mat.now x.now beta y.old) y.old result
        y.new }
{
    match edition {
        2 => halved_transform::op_by_halves(true, t, alpha, mat, &[], x, beta, y),
        _ => matop::trans_op(t, alpha, mat, x, beta, y),
    }
}
