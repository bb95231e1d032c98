// The products of a dense matrix in two slices, the first columns in one and the rest in the other.
#![tactic(auto)]

ghost use Rattle.std.specs.Prelude.{◌+◌, ◌*◌, ◌≤◌, ◌<◌, ◌≡◌, ◌++◌, length};
ghost use Rattle.rules.specs.Limits.{limit};
ghost use Rattle.rules.specs.Arithmetic.{◌+ᶠ◌, ◌*ᶠ◌, each};
ghost use Rattle.rules.specs.Outcome.{Outcome};
ghost use Rattle.rules.specs.Matrices.{entry, entries, transposed, product, transformed};
ghost use Rattle.rules.specs.Split.{split_transform_fits, SplitStored};
ghost use Rattle.rules.specs.declared.MatType.TheVariants.{General};
ghost use Rattle.split_transform.specs.Lines.{row_on, column_on, column_of, columns_of};

use rules::{Cols, Rows};

// The product with the matrix, or with the matrix transposed.
pub fn transform_split(
    transpose: bool,
    rows: Rows,
    cols: Cols,
    first: Cols,
    alpha: f64,
    factory: &[f64],
    lesson: &[f64],
    x: &[f64],
    beta: f64,
    y: &mut [f64],
) -> bool
    ensures { Outcome
        (split_transform_fits transpose rows.0 cols.0 first.0 factory.now
        lesson.now x.now y.old)
        (transformed alpha
        (entries transpose (General rows cols) (factory.now ++ lesson.now))
        x.now beta y.old)
        y.old result y.new }
{
    if !matrix::split_transform_fits(transpose, rows, cols, first, factory, lesson, x, y) {
        return false;
    }
    if transpose {
        split_columns(rows, cols, first, alpha, factory, lesson, x, beta, y);
    } else {
        split_rows(rows, cols, first, alpha, factory, lesson, x, beta, y);
    }
    true
}

// The products of its rows: thirty-two side by side, and what is left eight, four or one.
fn split_rows(
    rows: Rows,
    cols: Cols,
    first: Cols,
    alpha: f64,
    factory: &[f64],
    lesson: &[f64],
    x: &[f64],
    beta: f64,
    y: &mut [f64],
)
    requires split_stored { SplitStored rows.0 cols.0 first.0 factory.now lesson.now }
    requires x_len { length x.now ≡ cols.0 }
    requires y_len { length y.old ≡ rows.0 }
    ensures { y.new
        ≡ transformed alpha (entry (General rows cols) (factory.now ++ lesson.now))
        x.now beta y.old }
{
    let m = rows.0;
    // (c) chunks_mut tells a proof nothing of what is written through it
    let mut r: usize = 0;
    while r < m {
        if r + 32 <= m {
            rows_at::<32>(
                rows,
                cols,
                first,
                alpha,
                factory,
                lesson,
                x,
                beta,
                &mut y[r..r + 32],
                r,
            );
            r += 32;
            continue;
        }
        if r + 8 <= m {
            rows_at::<8>(
                rows,
                cols,
                first,
                alpha,
                factory,
                lesson,
                x,
                beta,
                &mut y[r..r + 8],
                r,
            );
            r += 8;
            continue;
        }
        if r + 4 <= m {
            rows_at::<4>(
                rows,
                cols,
                first,
                alpha,
                factory,
                lesson,
                x,
                beta,
                &mut y[r..r + 4],
                r,
            );
            r += 4;
            continue;
        }
        rows_at::<1>(
            rows,
            cols,
            first,
            alpha,
            factory,
            lesson,
            x,
            beta,
            &mut y[r..r + 1],
            r,
        );
        r += 1;
    }
}

// The products of W rows from r on: their sums run on from the first slice into the second.
fn rows_at<const W: usize>(
    rows: Rows,
    cols: Cols,
    first: Cols,
    alpha: f64,
    factory: &[f64],
    lesson: &[f64],
    x: &[f64],
    beta: f64,
    y: &mut [f64],
    r: usize,
)
    requires split_stored { SplitStored rows.0 cols.0 first.0 factory.now lesson.now }
    requires x_len { length x.now ≡ cols.0 }
    requires y_bound { r + length y.old ≤ rows.0 }
    requires y_len { length y.old ≡ W }
    ensures { y.new
        ≡ each
        (λ k v.
        alpha *ᶠ product (entry (General rows cols) (factory.now ++ lesson.now)) x.now (r + k)
        +ᶠ beta *ᶠ v)
        y.old }
{
    let n1 = first.0;
    let mut array = [0.0; W];
    let sums = &mut array[..];
    rows_on(sums, rows, factory, &x[0..n1], r);
    rows_on(sums, rows, lesson, &x[n1..], r);
    side_by_side::put_sums(alpha, sums, beta, y);
}

// Rows r, r + 1 and so on of the columns of one slice times x, each added to its sum so far.
fn rows_on(sums: &mut [f64], rows: Rows, mat: &[f64], x: &[f64], r: usize)
    requires mat_len { length mat.now ≡ rows.0 * length x.now }
    requires rows_le_limit { rows.0 ≤ limit }
    requires x_len_bound { length x.now ≤ limit }
    requires sums_bound { r + length sums.old ≤ rows.0 }
    ensures { sums.new
        ≡ each (λ k so_far. row_on so_far rows.0 mat.now x.now (r + k)) sums.old }
{
    let m = rows.0;
    for (c, v) in x.iter().enumerate() {
        let start = c * m + r;
        for (k, sum) in sums.iter_mut().enumerate() {
            *sum += mat[start + k] * *v;
        }
    }
}

// The products of its columns: each stands in one of the slices.
fn split_columns(
    rows: Rows,
    cols: Cols,
    first: Cols,
    alpha: f64,
    factory: &[f64],
    lesson: &[f64],
    x: &[f64],
    beta: f64,
    y: &mut [f64],
)
    requires split_stored { SplitStored rows.0 cols.0 first.0 factory.now lesson.now }
    requires x_len { length x.now ≡ rows.0 }
    requires y_len { length y.old ≡ cols.0 }
    ensures { y.new
        ≡ transformed alpha
        (transposed (entry (General rows cols) (factory.now ++ lesson.now)))
        x.now beta y.old }
{
    let n = cols.0;
    let n1 = first.0;
    columns_of(rows, alpha, factory, x, beta, &mut y[0..n1]);
    columns_of(rows, alpha, lesson, x, beta, &mut y[n1..n]);
}

// The products of the columns of one slice: eight side by side, and what is left four or one.
fn columns_of(rows: Rows, alpha: f64, mat: &[f64], x: &[f64], beta: f64, y: &mut [f64])
    requires mat_len { length mat.now ≡ rows.0 * length y.old }
    requires x_len { length x.now ≡ rows.0 }
    requires y_len_bound { length y.old ≤ limit }
    ensures { y.new
        ≡ columns_of alpha rows.0 mat.now x.now beta y.old }
{
    let n = y.len();
    // (c) as in split_rows
    let mut c: usize = 0;
    while c < n {
        if c + 8 <= n {
            columns_at::<8>(rows, alpha, mat, x, beta, &mut y[c..c + 8], c);
            c += 8;
            continue;
        }
        if c + 4 <= n {
            columns_at::<4>(rows, alpha, mat, x, beta, &mut y[c..c + 4], c);
            c += 4;
            continue;
        }
        columns_at::<1>(rows, alpha, mat, x, beta, &mut y[c..c + 1], c);
        c += 1;
    }
}

// The products of W columns from c on of one slice.
fn columns_at<const W: usize>(
    rows: Rows,
    alpha: f64,
    mat: &[f64],
    x: &[f64],
    beta: f64,
    y: &mut [f64],
    c: usize,
)
    requires rows_in_bounds { (c + length y.old) * rows.0 ≤ length mat.now }
    requires x_len { length x.now ≡ rows.0 }
    requires y_bound { c + length y.old ≤ limit }
    requires y_len { length y.old ≡ W }
    ensures { y.new
        ≡ each (λ k v. alpha *ᶠ column_of rows.0 mat.now x.now (c + k) +ᶠ beta *ᶠ v) y.old }
{
    let mut array = [0.0; W];
    let sums = &mut array[..];
    columns_on(sums, rows, mat, x, c);
    side_by_side::put_sums(alpha, sums, beta, y);
}

// Columns c, c + 1 and so on of one slice times x, each added to its sum so far.
fn columns_on(sums: &mut [f64], rows: Rows, mat: &[f64], x: &[f64], c: usize)
    requires rows_in_bounds { (c + length sums.old) * rows.0 ≤ length mat.now }
    requires x_len { length x.now ≡ rows.0 }
    requires sums_bound { c + length sums.old ≤ limit }
    ensures { sums.new
        ≡ each (λ k so_far. column_on so_far rows.0 mat.now x.now (c + k)) sums.old }
{
    let m = rows.0;
    for (r, v) in x.iter().enumerate() {
        for (k, sum) in sums.iter_mut().enumerate() {
            *sum += mat[(c + k) * m + r] * *v;
        }
    }
}
