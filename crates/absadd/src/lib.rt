// The absolute sums of matop.rs: those of the columns, or of the rows, of a matrix of either kind, with its sizes.
#![tactic(auto)]

ghost use Rattle.std.specs.Prelude.{◌+◌, ◌≤◌, ◌<◌, ◌≡◌, length};
ghost use Rattle.rules.specs.Limits.{limit};
ghost use Rattle.rules.specs.Outcome.{Outcome};
ghost use Rattle.rules.specs.Arithmetic.{each};
ghost use Rattle.rules.specs.Matrices.{triangle, entries, width, height, col_sum, Stored, line_fits, cols_fit, rows_fit, absadded_cols, absadded_rows};
ghost use Rattle.rules.specs.declared.MatType.TheVariants.{General, SymPack};
ghost use Rattle.absadd.specs.Columns.{absadded, column_added};

use rules::{Cols, MatType, Rows};

// The absolute sum of each column is added to y.
pub fn absadd_cols(t: MatType, mat: &[f64], y: &mut [f64]) -> bool
    ensures { Outcome (cols_fit t mat.now y.old)
        (absadded_cols t mat.now y.old) y.old result y.new }
{
    match t {
        MatType::General(rows, cols) => absadd_dense(false, rows, cols, mat, y),
        MatType::SymPack(rows) => absadd_packed(rows, mat, y),
    }
}

// The absolute sum of each row is added to y.
pub fn absadd_rows(t: MatType, mat: &[f64], y: &mut [f64]) -> bool
    ensures { Outcome (rows_fit t mat.now y.old)
        (absadded_rows t mat.now y.old) y.old result y.new }
{
    match t {
        MatType::General(rows, cols) => absadd_dense(true, rows, cols, mat, y),
        MatType::SymPack(rows) => absadd_packed(rows, mat, y),
    }
}

// The sums of the columns, or of the columns of the matrix transposed.
fn absadd_dense(transpose: bool, rows: Rows, cols: Cols, mat: &[f64], y: &mut [f64]) -> bool
    ensures { Outcome (line_fits transpose (General rows cols) mat.now y.old)
        (absadded transpose (General rows cols) mat.now y.old) y.old result
        y.new }
{
    let t = MatType::General(rows, cols);
    if !matrix::stored_fits(t, mat) {
        return false;
    }
    if y.len() != matrix::width(transpose, t) {
        return false;
    }
    for (k, v) in y.iter_mut().enumerate() {
        *v = line_sum(transpose, rows, cols, mat, k) + *v;
    }
    true
}

// Column k of a dense matrix is a part of the slice, starting where the column starts. Row k is
// every rows-th number from the k-th on; without columns there is none.
fn line_sum(transpose: bool, rows: Rows, cols: Cols, mat: &[f64], k: usize) -> f64
    requires stored { Stored (General rows cols) mat.now }
    requires k_bound { k < width transpose (General rows cols) }
    ensures { result ≡ col_sum (entries transpose (General rows cols) mat.now) (height transpose (General rows cols)) k }
{
    let n_row = rows.0;
    if transpose {
        if mat.len() == 0 {
            return 0.0;
        }
        return sums::abssum(&mat[k..], n_row);
    }
    let start = k * n_row;
    let end = start + n_row;
    sums::abssum(&mat[start..end], 1)
}

// The sums of the columns of a packed matrix, which are those of its rows.
fn absadd_packed(rows: Rows, mat: &[f64], y: &mut [f64]) -> bool
    ensures { Outcome (cols_fit (SymPack rows) mat.now y.old)
        (absadded_cols (SymPack rows) mat.now y.old) y.old result y.new }
{
    if !matrix::stored_fits(MatType::SymPack(rows), mat) {
        return false;
    }
    let n = rows.0;
    if y.len() != n {
        return false;
    }
    // (d) c is the column's number
    for c in 0..n {
        add_column(mat, c, y);
    }
    true
}

// Column c, from the top down to the diagonal, is added to its own place, and each number above
// the diagonal to the place of its row.
fn add_column(mat: &[f64], c: usize, y: &mut [f64])
    requires c_in_bounds { triangle c + (c + 1) ≤ length mat.now }
    requires c_in_bounds_2 { c < length y.old }
    requires c_le_limit { c ≤ limit }
    ensures { y.new ≡ each (column_added mat.now c) y.old }
{
    let start = matrix::triangle(c);
    let end = start + c + 1;
    y[c] = sums::abssum(&mat[start..end], 1) + y[c];
    // (d) row and column make the place: an index in any form
    for i in 0..c {
        y[i] += float::magnitude(mat[start + i]);
    }
}
