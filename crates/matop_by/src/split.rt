// A as an operator, whose dense columns may stand in two slices, by edition.
ghost use Rattle.std.specs.Prelude.{◌≡◌, true, false};
ghost use Rattle.rules.specs.Outcome.{Outcome};
ghost use Rattle.rules.specs.Matrices.{opped_by, trans_opped_by};
ghost use Rattle.rules.specs.Problem.{slices, joined, matrix_in};
ghost use Rattle.matop.specs.Operands.{operands_fit};
ghost use Rattle.halved_transform.specs.Halved.{operated_by_halves};

use rules::Shape;

// y becomes alpha * A * x + beta * y.
pub fn op_by(
    edition: u32,
    shape: Shape,
    alpha: f64,
    a1: &[f64],
    a2: &[f64],
    x: &[f64],
    beta: f64,
    y: &mut [f64],
) -> bool
    ensures { let a = slices a1.now a2.now in
        Outcome (operands_fit false shape a x.now y.old)
        (opped_by edition (matrix_in shape) alpha (joined a) x.now beta y.old)
        y.old result y.new }
{
    match edition {
        2 => by_halves(false, shape, alpha, a1, a2, x, beta, y),
        _ => matop::split::op(shape, alpha, a1, a2, x, beta, y),
    }
}

// y becomes alpha * A transposed * x + beta * y.
pub fn trans_op_by(
    edition: u32,
    shape: Shape,
    alpha: f64,
    a1: &[f64],
    a2: &[f64],
    x: &[f64],
    beta: f64,
    y: &mut [f64],
) -> bool
    ensures { let a = slices a1.now a2.now in
        Outcome (operands_fit true shape a x.now y.old)
        (trans_opped_by edition (matrix_in shape) alpha (joined a) x.now beta y.old)
        y.old result y.new }
{
    match edition {
        2 => by_halves(true, shape, alpha, a1, a2, x, beta, y),
        _ => matop::split::trans_op(shape, alpha, a1, a2, x, beta, y),
    }
}

// What both are in edition two.
fn by_halves(
    transpose: bool,
    shape: Shape,
    alpha: f64,
    a1: &[f64],
    a2: &[f64],
    x: &[f64],
    beta: f64,
    y: &mut [f64],
) -> bool
    ensures { let a = slices a1.now a2.now in
        Outcome (operands_fit transpose shape a x.now y.old)
        (operated_by_halves transpose (matrix_in shape) alpha (joined a) x.now beta y.old)
        y.old result y.new }
{
    let t = shape::matrix_of(shape);
    shape::parts_fit(shape, a1, a2)
        && halved_transform::op_by_halves(transpose, t, alpha, a1, a2, x, beta, y)
}
