// A's columns, each shown where it stands, and its absolute sums: those of matop.rs, of a matrix whose dense columns may stand in two slices.
#![tactic(auto)]

ghost use Rattle.std.specs.Prelude.{◌+◌, ◌*◌, ◌-◌, ◌≤◌, ◌<◌, ◌≡◌, true, false, ◌++◌, length};
ghost use Rattle.rules.specs.Limits.{limit};
ghost use Rattle.rules.specs.Outcome.{Outcome};
ghost use Rattle.rules.specs.Helpers.{magnitude};
ghost use Rattle.rules.specs.Arithmetic.{at, sum_from};
ghost use Rattle.rules.specs.Matrices.{absadded_cols, absadded_rows};
ghost use Rattle.rules.specs.Problem.{slices, joined, matrix_in};
ghost use Rattle.rules.specs.Split.{SplitStored, column_shown};
ghost use Rattle.rules.specs.declared.MatType.TheVariants.{General};
ghost use Rattle.columns.specs.Lines.{lines_fit};

use rules::{Cols, MatType, Rows, Shape, Storage};

// The column asked for, as a part of whichever slice holds it; empty where a slice's length is wrong, a size is above the limit, or there
// is no such column.
#[tactic(auto, unfolding(rules::specs::Split::column_shown))]
pub fn column<'a>(
    rows: Rows,
    cols: Cols,
    first: Cols,
    factory: &'a [f64],
    lesson: &'a [f64],
    k: usize,
) -> &'a [f64]
    ensures { result.now
        ≡ column_shown rows.0 cols.0 first.0 factory.now lesson.now k }
{
    if !matrix::split_fits(rows, cols, first, factory, lesson) || k >= cols.0 {
        return &[];
    }
    let m = rows.0;
    let n1 = first.0;
    if k < n1 {
        let start = k * m;
        &factory[start..start + m]
    } else {
        let start = (k - n1) * m;
        &lesson[start..start + m]
    }
}

// The absolute sum of each column of A is added to y. This and absadd_rows stay two: a test, and then calls that differ in each arm.
pub fn absadd_cols(shape: Shape, a1: &[f64], a2: &[f64], y: &mut [f64]) -> bool
    ensures { let a = slices a1.now a2.now in
        Outcome (lines_fit false shape a y.old)
        (absadded_cols (matrix_in shape) (joined a) y.old) y.old result y.new }
{
    let Shape {
        rows,
        cols,
        storage,
        first,
    } = shape;
    if !shape::parts_fit(shape, a1, a2) || y.len() != cols.0 {
        return false;
    }
    match storage {
        Storage::Dense => {
            dense_cols(rows, cols, first, a1, a2, y);
            true
        }
        Storage::Packed => absadd::absadd_cols(MatType::SymPack(rows), a1, y),
    }
}

// The absolute sum of each row of A is added to y.
pub fn absadd_rows(shape: Shape, a1: &[f64], a2: &[f64], y: &mut [f64]) -> bool
    ensures { let a = slices a1.now a2.now in
        Outcome (lines_fit true shape a y.old)
        (absadded_rows (matrix_in shape) (joined a) y.old) y.old result y.new }
{
    let Shape {
        rows,
        cols,
        storage,
        first,
    } = shape;
    if !shape::parts_fit(shape, a1, a2) || y.len() != rows.0 {
        return false;
    }
    match storage {
        Storage::Dense => {
            dense_rows(rows, cols, first, a1, a2, y);
            true
        }
        Storage::Packed => absadd::absadd_rows(MatType::SymPack(rows), a1, y),
    }
}

// The sums of the columns of a dense matrix: each column is handed on where it stands.
fn dense_cols(rows: Rows, cols: Cols, first: Cols, factory: &[f64], lesson: &[f64], y: &mut [f64])
    requires split_stored { SplitStored rows.0 cols.0 first.0 factory.now lesson.now }
    requires y_len { length y.old ≡ cols.0 }
    ensures { y.new
        ≡ absadded_cols (General rows cols) (factory.now ++ lesson.now) y.old }
{
    for (k, v) in y.iter_mut().enumerate() {
        *v = sums::abssum(column(rows, cols, first, factory, lesson, k), 1) + *v;
    }
}

// The sums of its rows: each runs on from the first slice into the second.
fn dense_rows(rows: Rows, cols: Cols, first: Cols, factory: &[f64], lesson: &[f64], y: &mut [f64])
    requires split_stored { SplitStored rows.0 cols.0 first.0 factory.now lesson.now }
    requires y_len { length y.old ≡ rows.0 }
    ensures { y.new
        ≡ absadded_rows (General rows cols) (factory.now ++ lesson.now) y.old }
{
    let n1 = first.0;
    let n2 = cols.0 - n1;
    for (r, v) in y.iter_mut().enumerate() {
        let so_far = row_sum(0.0, rows, factory, n1, r);
        *v = row_sum(so_far, rows, lesson, n2, r) + *v;
    }
}

// The absolute sum of row r of so many columns, added to the sum so far.
fn row_sum(so_far: f64, rows: Rows, mat: &[f64], cols: usize, r: usize) -> f64
    requires mat_len { length mat.now ≡ rows.0 * cols }
    requires rows_le_limit { rows.0 ≤ limit }
    requires cols_le_limit { cols ≤ limit }
    requires r_lt_rows { r < rows.0 }
    ensures { result ≡ sum_from so_far cols (λ c. magnitude (at mat.now (c * rows.0 + r))) }
{
    let m = rows.0;
    let mut sum = so_far;
    // row and column make the place: an index in any form
    for c in 0..cols {
        sum += float::magnitude(mat[c * m + r]);
    }
    sum
}
