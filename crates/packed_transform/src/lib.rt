// The product with a symmetric matrix, packed. Its loops over columns count (d): row and column make the place.
#![tactic(auto)]

ghost use Rattle.std.specs.Prelude.{◌+◌, ◌≤◌, ◌<◌, ◌≡◌, false, length};
ghost use Rattle.rules.specs.Limits.{limit};
ghost use Rattle.rules.specs.Arithmetic.{◌+ᶠ◌, ◌*ᶠ◌, each};
ghost use Rattle.rules.specs.Outcome.{Outcome};
ghost use Rattle.rules.specs.Matrices.{triangle, Stored, transform_fits, packed_place, entry, product, transformed};
ghost use Rattle.rules.specs.declared.MatType.TheVariants.{SymPack};
ghost use Rattle.packed_transform.specs.Lines.{row_on};

use matrix::triangle;
use rules::{MatType, Rows};

// y becomes alpha * matrix * x + beta * y.
pub fn transform_sp(n: Rows, alpha: f64, mat: &[f64], x: &[f64], beta: f64, y: &mut [f64]) -> bool
    ensures { Outcome (transform_fits false (SymPack n) mat.now x.now y.old)
        (transformed alpha (entry (SymPack n) mat.now) x.now beta y.old)
        y.old result y.new }
{
    if !matrix::transform_fits(false, MatType::SymPack(n), mat, x, y) {
        return false;
    }
    packed_rows(n, alpha, mat, x, beta, y);
    true
}

// The products of its rows: eight side by side, and what is left one by one.
fn packed_rows(n: Rows, alpha: f64, mat: &[f64], x: &[f64], beta: f64, y: &mut [f64])
    requires stored { Stored (SymPack n) mat.now }
    requires x_len { length x.now ≡ n.0 }
    requires y_len { length y.old ≡ n.0 }
    ensures { y.new
        ≡ transformed alpha (entry (SymPack n) mat.now) x.now beta y.old }
{
    let m = n.0;
    // (c) chunks_mut tells a proof nothing of what is written through it
    let mut r: usize = 0;
    while r < m {
        if r + 8 <= m {
            rows_at::<8>(n, alpha, mat, x, beta, &mut y[r..r + 8], r);
            r += 8;
            continue;
        }
        rows_at::<1>(n, alpha, mat, x, beta, &mut y[r..r + 1], r);
        r += 1;
    }
}

// The products of W rows from r on: left of the square that they have on the diagonal, across it, and right of it.
fn rows_at<const W: usize>(
    n: Rows,
    alpha: f64,
    mat: &[f64],
    x: &[f64],
    beta: f64,
    y: &mut [f64],
    r: usize,
)
    requires stored { Stored (SymPack n) mat.now }
    requires x_len { length x.now ≡ n.0 }
    requires y_len { length y.old ≡ W }
    requires r_bound { r + W ≤ n.0 }
    ensures { y.new
        ≡ each
        (λ k v. alpha *ᶠ product (entry (SymPack n) mat.now) x.now (r + k) +ᶠ beta *ᶠ v)
        y.old }
{
    let mut array = [0.0; W];
    let sums = &mut array[..];
    left_of(sums, mat, x, r);
    across(sums, mat, x, r);
    right_of(sums, mat, x, r);
    side_by_side::put_sums(alpha, sums, beta, y);
}

// Rows r, r + 1 and so on times x, over the columns before r, each added to its sum so far.
fn left_of(sums: &mut [f64], mat: &[f64], x: &[f64], r: usize)
    requires mat_len { length mat.now ≡ triangle (length x.now) }
    requires x_len_bound { length x.now ≤ limit }
    requires sums_in_bounds { r + length sums.old ≤ length x.now }
    ensures { sums.new
        ≡ each (λ k so_far. row_on so_far mat.now x.now (r + k) 0 r) sums.old }
{
    for c in 0..r {
        for (k, sum) in sums.iter_mut().enumerate() {
            *sum += mat[triangle(r + k) + c] * x[c];
        }
    }
}

// The same over the columns across which those rows have their square on the diagonal.
fn across(sums: &mut [f64], mat: &[f64], x: &[f64], r: usize)
    requires mat_len { length mat.now ≡ triangle (length x.now) }
    requires x_len_bound { length x.now ≤ limit }
    requires sums_in_bounds { r + length sums.old ≤ length x.now }
    ensures { sums.new
        ≡ each
        (λ k so_far. row_on so_far mat.now x.now (r + k) r (r + length sums.old))
        sums.old }
{
    let end = r + sums.len();
    for c in r..end {
        for (k, sum) in sums.iter_mut().enumerate() {
            *sum += mat[place(r + k, c)] * x[c];
        }
    }
}

// The same over the columns after those rows' own.
fn right_of(sums: &mut [f64], mat: &[f64], x: &[f64], r: usize)
    requires mat_len { length mat.now ≡ triangle (length x.now) }
    requires x_len_bound { length x.now ≤ limit }
    requires sums_in_bounds { r + length sums.old ≤ length x.now }
    ensures { sums.new
        ≡ each
        (λ k so_far. row_on so_far mat.now x.now (r + k) (r + length sums.old) (length x.now))
        sums.old }
{
    let start = r + sums.len();
    let end = x.len();
    for c in start..end {
        let top = triangle(c) + r;
        for (k, sum) in sums.iter_mut().enumerate() {
            *sum += mat[top + k] * x[c];
        }
    }
}

// Where the entry of row r and column c is stored.
fn place(r: usize, c: usize) -> usize
    requires r_le_limit { r ≤ limit }
    requires c_le_limit { c ≤ limit }
    ensures { result ≡ packed_place r c }
{
    if r < c {
        triangle(c) + r
    } else {
        triangle(r) + c
    }
}
