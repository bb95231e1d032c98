// The products of floatgeneric.rs with a dense matrix in one slice, stored by columns: one row of it after another, or of it transposed.
#![tactic(auto)]

ghost use Rattle.std.specs.Prelude.{◌≤◌, ◌<◌, ◌≡◌, length};
ghost use Rattle.rules.specs.Limits.{limit};
ghost use Rattle.rules.specs.Outcome.{Outcome};
ghost use Rattle.rules.specs.Matrices.{Stored, transform_fits, entries, product, transformed};
ghost use Rattle.rules.specs.Matrices as rules;
ghost use Rattle.rules.specs.declared.MatType.TheVariants.{General};

use rules::{Cols, MatType, Rows};

// Where the entry of row r and column c is stored.
fn place(rows: Rows, cols: Cols, r: usize, c: usize) -> usize
    requires r_lt_rows { r < rows.0 }
    requires c_lt_cols { c < cols.0 }
    requires rows_le_limit { rows.0 ≤ limit }
    requires cols_le_limit { cols.0 ≤ limit }
    ensures { result ≡ rules.place (General rows cols) r c }
{
    c * rows.0 + r
}

// The entry of row r and column c of the matrix, or of the matrix transposed.
fn entry_at(transpose: bool, rows: Rows, cols: Cols, mat: &[f64], r: usize, c: usize) -> f64
    requires stored { Stored (General rows cols) mat.now }
    requires r_bound { r < rules.height transpose (General rows cols) }
    requires c_bound { c < rules.width transpose (General rows cols) }
    ensures { result ≡ entries transpose (General rows cols) mat.now r c }
{
    if transpose {
        mat[place(rows, cols, c, r)]
    } else {
        mat[place(rows, cols, r, c)]
    }
}

// Row r times x.
fn row_product(transpose: bool, rows: Rows, cols: Cols, mat: &[f64], x: &[f64], r: usize) -> f64
    requires stored { Stored (General rows cols) mat.now }
    requires x_len { length x.now ≡ rules.width transpose (General rows cols) }
    requires r_bound { r < rules.height transpose (General rows cols) }
    ensures { result ≡ product (entries transpose (General rows cols) mat.now) x.now r }
{
    let mut mat_x = 0.0;
    for (c, v) in x.iter().enumerate() {
        mat_x += entry_at(transpose, rows, cols, mat, r, c) * *v;
    }
    mat_x
}

// y becomes alpha * matrix * x + beta * y, or so with the matrix transposed.
pub fn transform_ge(
    transpose: bool,
    rows: Rows,
    cols: Cols,
    alpha: f64,
    mat: &[f64],
    x: &[f64],
    beta: f64,
    y: &mut [f64],
) -> bool
    ensures { Outcome
        (transform_fits transpose (General rows cols) mat.now x.now y.old)
        (transformed alpha (entries transpose (General rows cols) mat.now) x.now beta
        y.old)
        y.old result y.new }
{
    if !matrix::transform_fits(transpose, MatType::General(rows, cols), mat, x, y) {
        return false;
    }
    for (r, v) in y.iter_mut().enumerate() {
        *v = alpha * row_product(transpose, rows, cols, mat, x, r) + beta * *v;
    }
    true
}
