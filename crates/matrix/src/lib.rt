// The sizes of a matrix, dense by columns or packed, and whether what is stored and the vectors beside it fit them.
#![tactic(auto)]

ghost use Rattle.std.specs.Prelude.{◌≤◌, ◌≡◌, ◌++◌};
ghost use Rattle.rules.specs.Limits.{limit};
ghost use Rattle.rules.specs.Matrices.{n_row, n_col, stored_length, stored_fits, transform_fits};
ghost use Rattle.rules.specs.Matrices as rules;
ghost use Rattle.rules.specs.Split.{split_fits, split_transform_fits};
ghost use Rattle.matrix.specs.Counted.{counted_triangle};

use rules::{Cols, LIMIT, MatType, Rows};

// The largest order whose triangle 64 bits can count.
const LARGEST_ORDER: usize = u32::MAX as usize;

// How many numbers a packed triangle of order n has, and how many stand before its column n; of an order above the largest, the largest
// number there is.
pub fn triangle(n: usize) -> usize
    ensures { result ≡ counted_triangle n }
{
    if n > LARGEST_ORDER {
        return usize::MAX;
    }
    n * (n + 1) / 2
}

// How many rows.
fn n_row(t: MatType) -> usize
    ensures { result ≡ n_row t }
{
    match t {
        MatType::General(rows, _) => rows.0,
        MatType::SymPack(rows) => rows.0,
    }
}

// How many columns.
fn n_col(t: MatType) -> usize
    ensures { result ≡ n_col t }
{
    match t {
        MatType::General(_, cols) => cols.0,
        MatType::SymPack(rows) => rows.0,
    }
}

// How many rows, or rows of the matrix transposed.
pub fn height(transpose: bool, t: MatType) -> usize
    ensures { result ≡ rules.height transpose t }
{
    if transpose { n_col(t) } else { n_row(t) }
}

// How many columns, or columns of the matrix transposed.
pub fn width(transpose: bool, t: MatType) -> usize
    ensures { result ≡ rules.width transpose t }
{
    if transpose { n_row(t) } else { n_col(t) }
}

// How many numbers are stored.
fn stored_length(t: MatType) -> usize
    requires t_bound { n_row t ≤ limit }
    requires t_bound_2 { n_col t ≤ limit }
    ensures { result ≡ stored_length t }
{
    match t {
        MatType::General(rows, cols) => rows.0 * cols.0,
        MatType::SymPack(rows) => triangle(rows.0),
    }
}

// Whether rows and columns are within the limits, and as many numbers are stored as they say.
pub fn stored_fits(t: MatType, mat: &[f64]) -> bool
    ensures { result ≡ stored_fits t mat.now }
{
    n_row(t) <= LIMIT && n_col(t) <= LIMIT && mat.len() == stored_length(t)
}

// Whether the matrix is stored, and x and y have the lengths that its sizes say.
pub fn transform_fits(transpose: bool, t: MatType, mat: &[f64], x: &[f64], y: &[f64]) -> bool
    ensures { result ≡ transform_fits transpose t mat.now x.now y.now }
{
    stored_fits(t, mat) && x.len() == width(transpose, t) && y.len() == height(transpose, t)
}

// The same of a matrix whose numbers stand in two slices, one after the other.
pub fn joined_fits(
    transpose: bool,
    t: MatType,
    a1: &[f64],
    a2: &[f64],
    x: &[f64],
    y: &[f64],
) -> bool
    ensures { result ≡ transform_fits transpose t (a1.now ++ a2.now) x.now y.now }
{
    if LIMIT < n_row(t) || LIMIT < n_col(t) {
        return false;
    }
    let all = stored_length(t);
    a1.len() <= all
        && a2.len() == all - a1.len()
        && x.len() == width(transpose, t)
        && y.len() == height(transpose, t)
}

// Whether rows and columns are within the limits, and a dense matrix stands in two slices: the first columns in one, the rest in the other.
pub fn split_fits(rows: Rows, cols: Cols, first: Cols, factory: &[f64], lesson: &[f64]) -> bool
    ensures { result ≡ split_fits rows.0 cols.0 first.0 factory.now lesson.now }
{
    let m = rows.0;
    let n = cols.0;
    let n1 = first.0;
    m <= LIMIT && n <= LIMIT && n1 <= n && factory.len() == m * n1 && lesson.len() == m * (n - n1)
}

// Whether the matrix stands in the two slices, and x and y have the lengths that its sizes say.
pub fn split_transform_fits(
    transpose: bool,
    rows: Rows,
    cols: Cols,
    first: Cols,
    factory: &[f64],
    lesson: &[f64],
    x: &[f64],
    y: &[f64],
) -> bool
    ensures { result
        ≡ split_transform_fits transpose rows.0 cols.0 first.0 factory.now
        lesson.now x.now y.now }
{
    let t = MatType::General(rows, cols);
    let wide = width(transpose, t);
    let high = height(transpose, t);
    split_fits(rows, cols, first, factory, lesson) && x.len() == wide && y.len() == high
}
