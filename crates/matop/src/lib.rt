// The operators of matop.rs: a matrix of either kind, with its sizes, times a vector.
#![tactic(auto)]

pub mod split;

ghost use Rattle.std.specs.Prelude.{◌≡◌};
ghost use Rattle.rules.specs.Outcome.{Outcome};
ghost use Rattle.rules.specs.Matrices.{is_empty, transform_fits, op_fits, trans_op_fits, opped, trans_opped};
ghost use Rattle.matop.specs.Operated.{operated};

use rules::MatType;

// y becomes alpha * matrix * x + beta * y.
pub fn op(t: MatType, alpha: f64, mat: &[f64], x: &[f64], beta: f64, y: &mut [f64]) -> bool
    ensures { Outcome (op_fits t mat.now x.now y.old)
        (opped t alpha mat.now x.now beta y.old) y.old result
        y.new }
{
    operate(false, t, alpha, mat, x, beta, y)
}

// y becomes alpha * matrix transposed * x + beta * y.
pub fn trans_op(t: MatType, alpha: f64, mat: &[f64], x: &[f64], beta: f64, y: &mut [f64]) -> bool
    ensures { Outcome (trans_op_fits t mat.now x.now y.old)
        (trans_opped t alpha mat.now x.now beta y.old) y.old result
        y.new }
{
    operate(true, t, alpha, mat, x, beta, y)
}

// What op and trans_op share.
pub(crate) fn operate(
    transpose: bool,
    t: MatType,
    alpha: f64,
    mat: &[f64],
    x: &[f64],
    beta: f64,
    y: &mut [f64],
) -> bool
    ensures { Outcome (transform_fits transpose t mat.now x.now y.old)
        (operated transpose t alpha mat.now x.now beta y.old) y.old
        result y.new }
{
    if is_empty(t) {
        if !matrix::transform_fits(transpose, t, mat, x, y) {
            return false;
        }
        linalg::scale(beta, y);
        return true;
    }
    match t {
        MatType::General(rows, cols) => transform::transform_ge(
            transpose, rows, cols, alpha, mat, x, beta, y,
        ),
        MatType::SymPack(rows) => packed_transform::transform_sp(rows, alpha, mat, x, beta, y),
    }
}

// Whether there are no rows or no columns.
pub(crate) fn is_empty(t: MatType) -> bool
    ensures { result ≡ is_empty t }
{
    matrix::height(false, t) == 0 || matrix::width(false, t) == 0
}
