// What the rooms of the solver share: what a hub hands over, the matrix by how it is stored, and whether slices have the lengths that a
// shape asks.
#![tactic(auto)]

ghost use Rattle.std.specs.Prelude.{◌≡◌};
ghost use Rattle.rules.specs.Problem as rules;
ghost use Rattle.rules.specs.Problem.{matrix_in, slices};
ghost use Rattle.shape.specs.Fitting.{is_within, fits_x, fits_y, parts_fit};
ghost use Rattle.shape.specs.Lent.{lent_fit, lent_embed_fits};

use rules::{Cols, LIMIT, MatType, Rows, Shape, SolverParam, Storage};

// What a hub hands over as operators: c, A in its two slices, and b, with A's shape. Nothing says yet that they fit.
#[derive(Clone, Copy)]
pub struct Operators<'a> {
    pub shape: Shape,
    pub c: &'a [f64],
    pub a1: &'a [f64],
    pub a2: &'a [f64],
    pub b: &'a [f64],
}

// A problem as a hub hands it over: its operators, its cone list and its parameters.
#[derive(Clone, Copy)]
pub struct Problem<'a> {
    pub operators: Operators<'a>,
    pub words: &'a [u16],
    pub par: SolverParam,
}

// The matrix's kind with its sizes.
pub fn matrix_of(shape: Shape) -> MatType
    ensures { result ≡ matrix_in shape }
{
    match shape.storage {
        Storage::Dense => MatType::General(shape.rows, shape.cols),
        Storage::Packed => MatType::SymPack(shape.rows),
    }
}

// A matrix of one column.
pub fn column(rows: usize) -> MatType
    ensures { result ≡ rules.column rows }
{
    MatType::General(Rows(rows), Cols(1))
}

// Whether both sizes are within the limit.
fn is_within(shape: Shape) -> bool
    ensures { result ≡ is_within shape }
{
    shape.rows.0 <= LIMIT && shape.cols.0 <= LIMIT
}

// Whether a vector is like x (n, m, m, 1), of sizes within the limits.
pub fn fits_x(shape: Shape, v: &[f64]) -> bool
    ensures { result ≡ fits_x shape v.now }
{
    let m = shape.rows.0;
    let n = shape.cols.0;
    is_within(shape) && v.len() == n + m + m + 1
}

// Whether a vector is like y (n, m, 1), of sizes within the limits.
pub fn fits_y(shape: Shape, v: &[f64]) -> bool
    ensures { result ≡ fits_y shape v.now }
{
    let m = shape.rows.0;
    let n = shape.cols.0;
    is_within(shape) && v.len() == n + m + 1
}

// Whether A's two slices are as the shape says, its sizes being within the limits.
pub fn parts_fit(shape: Shape, a1: &[f64], a2: &[f64]) -> bool
    ensures { result ≡ parts_fit shape (slices a1.now a2.now) }
{
    let Shape {
        rows,
        cols,
        storage,
        first,
    } = shape;
    match storage {
        Storage::Dense => matrix::split_fits(rows, cols, first, a1, a2),
        Storage::Packed => {
            rows.0 == cols.0 && a2.len() == 0 && matrix::stored_fits(MatType::SymPack(rows), a1)
        }
    }
}

// Whether A's slices are as the shape says, and c and b have a number for each column and each row.
pub fn operators_fit(operators: &Operators<'_>) -> bool
    ensures { result ≡ lent_fit operators.now }
{
    let Operators {
        shape,
        c,
        a1,
        a2,
        b,
    } = *operators;
    parts_fit(shape, a1, a2) && c.len() == shape.cols.0 && b.len() == shape.rows.0
}

// Whether c, A and b, a vector like x and one like y have the lengths that the shape says.
pub fn embed_fits(operators: &Operators<'_>, x: &[f64], y: &[f64]) -> bool
    ensures { result ≡ lent_embed_fits operators.now x.now y.now }
{
    operators_fit(operators) && fits_x(operators.shape, x) && fits_y(operators.shape, y)
}
