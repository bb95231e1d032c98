// A as an operator, whose dense columns may stand in two slices.
ghost use Rattle.std.specs.Prelude.{◌≡◌, true, false};
ghost use Rattle.rules.specs.Outcome.{Outcome};
ghost use Rattle.rules.specs.Matrices.{opped, trans_opped};
ghost use Rattle.rules.specs.Problem.{slices, joined, matrix_in};
ghost use Rattle.matop.specs.Operated.{operated};
ghost use Rattle.matop.specs.Operands.{operands_fit};

use rules::{Shape, Storage};

// y becomes alpha * A * x + beta * y.
pub fn op(
    shape: Shape,
    alpha: f64,
    a1: &[f64],
    a2: &[f64],
    x: &[f64],
    beta: f64,
    y: &mut [f64],
) -> bool
    ensures { let a = slices a1.now a2.now in
        Outcome (operands_fit false shape a x.now y.old)
        (opped (matrix_in shape) alpha (joined a) x.now beta y.old) y.old result
        y.new }
{
    operate(false, shape, alpha, a1, a2, x, beta, y)
}

// y becomes alpha * A transposed * x + beta * y.
pub fn trans_op(
    shape: Shape,
    alpha: f64,
    a1: &[f64],
    a2: &[f64],
    x: &[f64],
    beta: f64,
    y: &mut [f64],
) -> bool
    ensures { let a = slices a1.now a2.now in
        Outcome (operands_fit true shape a x.now y.old)
        (trans_opped (matrix_in shape) alpha (joined a) x.now beta y.old) y.old result
        y.new }
{
    operate(true, shape, alpha, a1, a2, x, beta, y)
}

// What op and trans_op share.
fn operate(
    transpose: bool,
    shape: Shape,
    alpha: f64,
    a1: &[f64],
    a2: &[f64],
    x: &[f64],
    beta: f64,
    y: &mut [f64],
) -> bool
    ensures { let a = slices a1.now a2.now in
        Outcome (operands_fit transpose shape a x.now y.old)
        (operated transpose (matrix_in shape) alpha (joined a) x.now beta y.old)
        y.old result y.new }
{
    if crate::is_empty(shape::matrix_of(shape)) {
        if !operands_fit(transpose, shape, a1, a2, x, y) {
            return false;
        }
        linalg::scale(beta, y);
        return true;
    }
    let rows = shape.rows;
    let cols = shape.cols;
    let first = shape.first;
    match shape.storage {
        Storage::Dense => split_transform::transform_split(
            transpose, rows, cols, first, alpha, a1, a2, x, beta, y,
        ),
        // it is square, and stands in the first slice
        Storage::Packed => {
            if rows.0 != cols.0 || a2.len() != 0 {
                return false;
            }
            packed_transform::transform_sp(rows, alpha, a1, x, beta, y)
        }
    }
}

// Whether A's slices are as the shape says, and x and y have the lengths that its sizes say.
fn operands_fit(transpose: bool, shape: Shape, a1: &[f64], a2: &[f64], x: &[f64], y: &[f64]) -> bool
    ensures { result
        ≡ operands_fit transpose shape (slices a1.now a2.now) x.now
        y.now }
{
    let t = shape::matrix_of(shape);
    shape::parts_fit(shape, a1, a2)
        && x.len() == matrix::width(transpose, t)
        && y.len() == matrix::height(transpose, t)
}
