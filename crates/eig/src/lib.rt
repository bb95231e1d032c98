// map_eig of floatgeneric.rs: the semidefinite projection. Its loops go by number where row and column make the place: an index in any form.
#![tactic(auto)]

ghost use Rattle.std.specs.Prelude.{◌+◌, ◌*◌, ◌≤◌, ◌<◌, ◌≡◌, true, length, drop};
ghost use Rattle.rules.specs.Limits.{limit};
ghost use Rattle.rules.specs.Matrices.{triangle};
ghost use Rattle.rules.specs.Arithmetic.{at, tabulate};
ghost use Rattle.rules.specs.Jacobi.{packed, in_packed, in_square, jacobi, sweeps_fit};
ghost use Rattle.rules.specs.Projections.{√2, diagonal_times, unit, rebuilt_entry, proj_psd, block_fits, BlockOutcome};
ghost use Rattle.rules.specs.declared.Cone.TheVariants.{PSD};
ghost use Rattle.jacobi.specs.Sizes.{IsPacked, IsSquare};
ghost use Rattle.eig.specs.Parts.{plus_column, plus_rank1, SweptBlock, RebuiltBlock};

use block::block_fits;
use jacobi::jacobi_eig;
use matrix::triangle;
use root::root_two;
use rules::{Cone, Projection, SolverParam};

// Where entry k of a packed triangle's diagonal is stored.
fn on_diagonal(k: usize) -> usize
    requires { k < limit }
    ensures { result ≡ triangle k + k }
{
    triangle(k) + k
}

// The diagonal times a number.
fn scale_diagonal(n: usize, by: f64, x: &mut [f64])
    requires { IsPacked n x.old }
    ensures { x.new ≡ diagonal_times by n x.old }
{
    for k in 0..n {
        x[on_diagonal(k)] *= by;
    }
}

// The vectors become the unit vectors.
fn start(n: usize, z: &mut [f64])
    requires { IsSquare n z.old }
    ensures { z.new ≡ unit n }
{
    z.fill(0.0);
    for k in 0..n {
        z[k * n + k] = 1.0;
    }
}

// The eigenvalues are what the diagonal holds.
fn eigenvalues(n: usize, x: &[f64], w: &mut [f64])
    requires packed { IsPacked n x.now }
    requires w_len { length w.old ≡ n }
    ensures { w.new ≡ tabulate n (λ i. in_packed n x.now i i) }
{
    for (k, value) in w.iter_mut().enumerate() {
        *value = x[on_diagonal(k)];
    }
}

// Column c of x, plus e times the product of z's entries.
fn rank1op_column(e: f64, z: &[f64], c: usize, x: &mut [f64])
    requires packed { IsPacked (length z.now) x.old }
    requires c_in_bounds { c < length z.now }
    ensures { x.new ≡ plus_column e z.now c x.old }
{
    let top = triangle(c);
    for r in 0..c + 1 {
        let p = top + r;
        x[p] = e * z[r] * z[c] + x[p];
    }
}

// x plus e times z times z transposed.
fn rank1op(e: f64, z: &[f64], x: &mut [f64])
    requires { IsPacked (length z.now) x.old }
    ensures { x.new ≡ plus_rank1 e z.now x.old }
{
    for c in 0..z.len() {
        rank1op_column(e, z, c, x);
    }
}

// The matrix, of the eigenvalues above 0 and their vectors.
fn rebuild(n: usize, work: &[f64], x: &mut [f64])
    requires packed { IsPacked n x.old }
    requires n_in_bounds { n + n * n ≤ length work.now }
    ensures { x.new ≡ packed n (rebuilt_entry (at work.now) (in_square n (drop n work.now)) n) }
{
    x.fill(0.0);
    for k in 0..n {
        let e = work[k];
        if e > 0.0 {
            let from = n + k * n;
            rank1op(e, &work[from..from + n], x);
        }
    }
}

// The first half of the projection: the sweeps.
fn sweep_block(par: SolverParam, n: usize, mat: &mut [f64], work: &mut [f64]) -> Option<Projection>
    requires packed { IsPacked n mat.old }
    requires n_in_bounds { n + n * n ≤ length work.old }
    requires par_value { sweeps_fit par ≡ true }
    ensures { SweptBlock n (jacobi par n (diagonal_times √2 n mat.old) (unit n)) work.old result
        mat.new work.new }
{
    scale_diagonal(n, root_two(), mat);
    start(n, &mut work[n..n + n * n]);
    jacobi_eig(par, n, mat, &mut work[n..n + n * n])
}

// The second half: eigenvalues, and the matrix built anew.
fn rebuild_block(n: usize, mat: &mut [f64], work: &mut [f64])
    requires packed { IsPacked n mat.old }
    requires n_in_bounds { n + n * n ≤ length work.old }
    ensures { RebuiltBlock n mat.old work.old mat.new work.new }
{
    eigenvalues(n, mat, &mut work[0..n]);
    rebuild(n, work, mat);
    scale_diagonal(n, float::reciprocal(root_two()), mat);
}

// The projection of a semidefinite block.
pub fn map_eig(
    par: SolverParam,
    order: usize,
    mat: &mut [f64],
    work: &mut [f64],
) -> Option<Projection>
    ensures { BlockOutcome (block_fits par (PSD order) mat.old work.old)
        (proj_psd par order mat.old work.old) mat.old work.old result
        mat.new work.new }
{
    if !block_fits(par, Cone::PSD(order), mat.len(), work.len()) {
        return None;
    }
    let swept = sweep_block(par, order, mat, work)?;
    if let Projection::Done(_) = swept {
        rebuild_block(order, mat, work);
    }
    Some(swept)
}
