// Jacobi's method, jacobi_eig of floatgeneric.rs. The matrix is a packed upper triangle, the vectors are n columns of n. Its loops go by
// number: row and column make the place, an index in any form.
#![tactic(auto)]

ghost use Rattle.std.specs.Prelude.{◌+◌, ◌-◌, ◌*◌, ◌≤◌, ◌<◌, ◌≡◌, length};
ghost use Rattle.rules.specs.Limits.{limit};
ghost use Rattle.rules.specs.Matrices.{packed_place};
ghost use Rattle.rules.specs.Jacobi.{packed, square, in_packed, in_square, rotated_entry, rotated_vector, rotated, pair_done, row_done, is_rotated, jacobi, jacobi_fits, JacobiOutcome};
ghost use Rattle.rules.specs.Jacobi as rules;
ghost use Rattle.jacobi.specs.Sizes.{IsPacked, IsSquare, IsPair, most_rotations};
ghost use Rattle.jacobi.specs.Loops.{state, two_rotated, RowsRotated, CornersOf};

use block::sweeps_fit;
use matrix::triangle;
use rules::{LIMIT, Projection, SolverParam};

// Where the entry of row r and column c of a packed triangle is stored, r being at most c.
fn place(r: usize, c: usize) -> usize
    requires r_le_c { r ≤ c }
    requires c_lt_limit { c < limit }
    ensures { result ≡ packed_place r c }
{
    triangle(c) + r
}

// The three entries that rows and columns i and j have in common: (i, i), (j, j) and (i, j).
#[derive(Clone, Copy)]
struct Corners {
    a: f64,
    b: f64,
    d: f64,
}

fn read_corners(n: usize, i: usize, j: usize, x: &[f64]) -> Corners
    requires packed { IsPacked n x.now }
    requires pair { IsPair n i j }
    ensures { CornersOf n i j x.now result.a result.b result.d }
{
    let ii = place(i, i);
    let jj = place(j, j);
    let ij = place(i, j);
    Corners {
        a: x[ii],
        b: x[jj],
        d: x[ij],
    }
}

// The numbers at p and q, rotated as the first and the second of a pair.
fn rotate_two(p: usize, q: usize, c: f64, s: f64, x: &mut [f64])
    requires p_in_bounds { p < length x.old }
    requires q_in_bounds { q < length x.old }
    ensures { x.new ≡ two_rotated p q c s x.old }
{
    let first = x[p];
    let second = x[q];
    x[p] = c * first - s * second;
    x[q] = s * first + c * second;
}

// Rows and columns i and j of the matrix, rotated, but for the three entries that they have in common: the rows before i, between i and j, and
// after j.
fn rotate_rows(n: usize, i: usize, j: usize, c: f64, s: f64, x: &mut [f64])
    requires packed { IsPacked n x.old }
    requires pair { IsPair n i j }
    ensures { RowsRotated n i j c s x.old x.new }
{
    for k in 0..i {
        let p = place(k, i);
        let q = place(k, j);
        rotate_two(p, q, c, s, x);
    }
    for k in i + 1..j {
        let p = place(i, k);
        let q = place(k, j);
        rotate_two(p, q, c, s, x);
    }
    for k in j + 1..n {
        let p = place(i, k);
        let q = place(j, k);
        rotate_two(p, q, c, s, x);
    }
}

// Columns i and j of the vectors, rotated in every row.
fn rotate_vectors(n: usize, i: usize, j: usize, c: f64, s: f64, z: &mut [f64])
    requires square { IsSquare n z.old }
    requires pair { IsPair n i j }
    ensures { z.new ≡ square n (rotated_vector (in_square n z.old) i j c s) }
{
    for k in 0..n {
        let p = i * n + k;
        let q = j * n + k;
        rotate_two(p, q, c, s, z);
    }
}

// The matrix, rotated: what rows and columns i and j have in common is worked out from what it was.
fn rotate_matrix(n: usize, i: usize, j: usize, c: f64, s: f64, x: &mut [f64])
    requires packed { IsPacked n x.old }
    requires pair { IsPair n i j }
    ensures { x.new ≡ packed n (rotated_entry (in_packed n x.old) i j c s) }
{
    let m = read_corners(n, i, j, x);
    rotate_rows(n, i, j, c, s, x);
    let ii = place(i, i);
    let jj = place(j, j);
    let ij = place(i, j);
    x[ii] = c * c * m.a + s * s * m.b - 2.0 * c * s * m.d;
    x[jj] = s * s * m.a + c * c * m.b + 2.0 * c * s * m.d;
    x[ij] = 0.0;
}

// One rotation of matrix and vectors.
fn rotate(n: usize, i: usize, j: usize, x: &mut [f64], z: &mut [f64])
    requires packed { IsPacked n x.old }
    requires square { IsSquare n z.old }
    requires pair { IsPair n i j }
    ensures { state x.new z.new 1 ≡ rotated n i j (state x.old z.old 0) }
{
    let m = read_corners(n, i, j, x);
    let t = angle::tangent(m.a, m.b, m.d);
    let c = angle::cosine(t);
    let s = c * t;
    rotate_matrix(n, i, j, c, s, x);
    rotate_vectors(n, i, j, c, s, z);
}

// Whether rows and columns i and j are to be rotated.
fn is_rotated(n: usize, tol: f64, i: usize, j: usize, x: &[f64]) -> bool
    requires packed { IsPacked n x.now }
    requires pair { IsPair n i j }
    ensures { result ≡ is_rotated n tol i j x.now }
{
    let m = read_corners(n, i, j, x);
    angle::is_large(tol, m.a, m.b, m.d)
}

// One pair. This and the next two take the rotations that were made before, and return those made so far.
fn pair(n: usize, tol: f64, i: usize, j: usize, rotations: u64, x: &mut [f64], z: &mut [f64]) -> u64
    requires packed { IsPacked n x.old }
    requires square { IsSquare n z.old }
    requires pair { IsPair n i j }
    requires rotations_bound { rotations + 1 ≤ most_rotations }
    ensures { state x.new z.new result ≡ pair_done n tol i j (state x.old z.old rotations) }
{
    if is_rotated(n, tol, i, j, x) {
        rotate(n, i, j, x, z);
        return rotations + 1;
    }
    rotations
}

// The pairs of row i.
fn sweep_row(n: usize, tol: f64, i: usize, rotations: u64, x: &mut [f64], z: &mut [f64]) -> u64
    requires packed { IsPacked n x.old }
    requires square { IsSquare n z.old }
    requires i_lt_n { i < n }
    requires n_bound { rotations + n ≤ most_rotations }
    ensures { state x.new z.new result ≡ row_done n tol i (n - (i + 1)) (state x.old z.old rotations) }
{
    let mut made = rotations;
    for j in i + 1..n {
        made = pair(n, tol, i, j, made, x, z);
    }
    made
}

// Every pair.
fn sweep(n: usize, tol: f64, rotations: u64, x: &mut [f64], z: &mut [f64]) -> u64
    requires packed { IsPacked n x.old }
    requires square { IsSquare n z.old }
    requires n_bound { rotations + n * n ≤ most_rotations }
    ensures { state x.new z.new result ≡ rules.sweep n tol (state x.old z.old rotations) }
{
    let mut made = rotations;
    for i in 0..n {
        made = sweep_row(n, tol, i, made, x, z);
    }
    made
}

// Whether matrix and vectors have the lengths that the order says, and the order and the sweep limit are within their ranges.
#[tactic(auto, using(matrix::proofs::Counted::counted_is))]
fn sizes_fit(par: SolverParam, n: usize, x: usize, z: usize) -> bool
    ensures { result ≡ jacobi_fits par n x z }
{
    n <= LIMIT && x == triangle(n) && z == n * n && sweeps_fit(par)
}

// Sweeps until one makes no rotation, or the limit is reached, and answers the rotations. Where the order, a length or the sweep limit
// doesn't fit, it answers no and changes nothing.
pub fn jacobi_eig(
    par: SolverParam,
    order: usize,
    x: &mut [f64],
    z: &mut [f64],
) -> Option<Projection>
    ensures { JacobiOutcome (jacobi_fits par order (length x.old) (length z.old))
        (jacobi par order x.old z.old) x.old z.old result x.new
        z.new }
{
    if !sizes_fit(par, order, x.len(), z.len()) {
        return None;
    }
    let tol = par.eps_zero * par.eps_zero;
    let mut made = 0;
    for _ in 0..par.sweep_limit {
        let before = made;
        made = sweep(order, tol, before, x, z);
        if made == before {
            return Some(Projection::Done(made));
        }
    }
    Some(Projection::Failed(made))
}
