// The product with a matrix of either kind, which may stand in two slices, its sums by halves: edition two's.
#![tactic(auto)]

ghost use Rattle.std.specs.Prelude.{◌≤◌, ◌<◌, ◌≡◌, ◌++◌, length};
ghost use Rattle.rules.specs.Limits.{limit};
ghost use Rattle.rules.specs.Arithmetic.{at};
ghost use Rattle.rules.specs.Outcome.{Outcome};
ghost use Rattle.rules.specs.Matrices.{n_row, n_col, height, width, is_empty, entries, packed_place, transform_fits, product_by, transformed_by, Stored};
ghost use Rattle.rules.specs.Matrices as rules;
ghost use Rattle.halved_transform.specs.Halved.{operated_by_halves};

use matrix::triangle;
use rules::{LIMIT, MatType, Rows};

// y becomes alpha * matrix * x + beta * y, or so with the matrix transposed; its numbers are those of the first slice and then those of the second. A matrix
// with no rows or no columns only scales y by beta.
pub fn op_by_halves(
    transpose: bool,
    t: MatType,
    alpha: f64,
    a1: &[f64],
    a2: &[f64],
    x: &[f64],
    beta: f64,
    y: &mut [f64],
) -> bool
    ensures { let mat = a1.now ++ a2.now in
        Outcome (transform_fits transpose t mat x.now y.old)
        (operated_by_halves transpose t alpha mat x.now beta y.old)
        y.old result y.new }
{
    if !matrix::joined_fits(transpose, t, a1, a2, x, y) {
        return false;
    }
    if is_empty(t) {
        linalg::scale(beta, y);
        return true;
    }
    let n = x.len();
    if n <= 64 {
        let mut few = [0.0; 64];
        lines(transpose, t, alpha, a1, a2, x, beta, &mut few[0..n], y);
        return true;
    }
    let mut terms = [0.0; LIMIT];
    lines(transpose, t, alpha, a1, a2, x, beta, &mut terms[0..n], y);
    true
}

// Whether there are no rows or no columns.
fn is_empty(t: MatType) -> bool
    ensures { result ≡ is_empty t }
{
    matrix::height(false, t) == 0 || matrix::width(false, t) == 0
}

// One line after another.
fn lines(
    transpose: bool,
    t: MatType,
    alpha: f64,
    a1: &[f64],
    a2: &[f64],
    x: &[f64],
    beta: f64,
    terms: &mut [f64],
    y: &mut [f64],
)
    requires stored { Stored t (a1.now ++ a2.now) }
    requires x_len { length x.now ≡ width transpose t }
    requires y_len { length y.old ≡ height transpose t }
    requires terms_len { length terms.old ≡ length x.now }
    ensures { y.new
        ≡ transformed_by 2 alpha (entries transpose t (a1.now ++ a2.now)) x.now beta
        y.old }
{
    for (r, v) in y.iter_mut().enumerate() {
        *v = alpha * line(transpose, t, a1, a2, x, r, terms) + beta * *v;
    }
}

// Line r times x: its terms are put down, and then added up.
fn line(
    transpose: bool,
    t: MatType,
    a1: &[f64],
    a2: &[f64],
    x: &[f64],
    r: usize,
    terms: &mut [f64],
) -> f64
    requires stored { Stored t (a1.now ++ a2.now) }
    requires x_len { length x.now ≡ width transpose t }
    requires r_bound { r < height transpose t }
    requires terms_len { length terms.old ≡ length x.now }
    ensures { result ≡ product_by 2 (entries transpose t (a1.now ++ a2.now)) x.now r }
{
    for (c, term) in terms.iter_mut().enumerate() {
        *term = entry_at(transpose, t, a1, a2, r, c) * x[c];
    }
    halves::sum_by_halves(terms)
}

// The entry of row r and column c of the matrix, or of the matrix transposed.
fn entry_at(transpose: bool, t: MatType, a1: &[f64], a2: &[f64], r: usize, c: usize) -> f64
    requires stored { Stored t (a1.now ++ a2.now) }
    requires r_bound { r < height transpose t }
    requires c_bound { c < width transpose t }
    ensures { result ≡ entries transpose t (a1.now ++ a2.now) r c }
{
    if transpose {
        stored_at(a1, a2, place(t, c, r))
    } else {
        stored_at(a1, a2, place(t, r, c))
    }
}

// What stands at a place of the two slices, one after the other.
fn stored_at(a1: &[f64], a2: &[f64], p: usize) -> f64
    requires { p < length (a1.now ++ a2.now) }
    ensures { result ≡ at (a1.now ++ a2.now) p }
{
    if p < a1.len() {
        a1[p]
    } else {
        a2[p - a1.len()]
    }
}

// Where the entry of row r and column c is stored.
fn place(t: MatType, r: usize, c: usize) -> usize
    requires r_bound { r < n_row t }
    requires c_bound { c < n_col t }
    requires t_bound { n_row t ≤ limit }
    requires t_bound_2 { n_col t ≤ limit }
    ensures { result ≡ rules.place t r c }
{
    match t {
        MatType::General(rows, _) => c * rows.0 + r,
        MatType::SymPack(order) => packed_place(order, r, c),
    }
}

// The same of a packed triangle of that order.
fn packed_place(order: Rows, r: usize, c: usize) -> usize
    requires r_lt_order { r < order.0 }
    requires c_lt_order { c < order.0 }
    requires order_le_limit { order.0 ≤ limit }
    ensures { result ≡ packed_place r c }
{
    if r < c {
        triangle(c) + r
    } else {
        triangle(r) + c
    }
}
