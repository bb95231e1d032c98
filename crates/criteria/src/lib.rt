// The criteria of a step, which are worked out at the front of rx: criteria_conv and criteria_inf of
// solver.rs.
#![tactic(auto)]

ghost use Rattle.std.specs.Prelude.{◌≡◌, length};
ghost use Rattle.rules.specs.Arithmetic.{at, ◌+ᶠ◌, ◌/ᶠ◌};
ghost use Rattle.rules.specs.Criteria as rules;
ghost use Rattle.rules.specs.Criteria.{converging, diverging, judged};
ghost use Rattle.rules.specs.Helpers.{one, magnitude};
ghost use Rattle.rules.specs.Matrices.{Stored};
ghost use Rattle.rules.specs.Problem.{slices, embed_in};
ghost use Rattle.rules.specs.Problem as problem;
ghost use Rattle.rules.specs.Vectors.{norm_by};
ghost use Rattle.shape.specs.Fitting.{Fits, LikeX, Sized};
ghost use Rattle.criteria.specs.Residuals.{primal_at, dual_at, ray_at, dual_ray_at, product_x, product_y};
ghost use Rattle.criteria.specs.Judging.{judge_fits, JudgeOutcome};

use rules::{Criteria, Norms, Shape, SolverParam};
use shape::{Operators, column, fits_x, operators_fit};

// The criteria of a step, by tau: at the front of rx stand the residuals afterwards. Where a length or a size doesn't
// fit, it answers no and changes nothing.
#[tactic(auto, using(shape::proofs::Fitting::fits_of))]
pub fn judge(
    par: SolverParam,
    shape: Shape,
    c: &[f64],
    a1: &[f64],
    a2: &[f64],
    b: &[f64],
    norms: Norms,
    x: &[f64],
    rx: &mut [f64],
) -> Option<Criteria>
    ensures { JudgeOutcome
        (judge_fits shape c.now (slices a1.now a2.now) b.now
        x.now rx.old)
        (judged (embed_in par.«edition» shape c.now (slices a1.now a2.now)
        b.now) par.eps_zero norms
        x.now rx.old)
        rx.old result rx.new }
{
    if !fits(shape, c, a1, a2, b, x, rx) {
        return None;
    }
    Some(judge_by_tau(par, shape, c, a1, a2, b, norms, x, rx))
}

// The criteria of convergence where tau is above eps_zero, else the two others.
#[tactic(auto, unfolding(rules::specs::Criteria::judged))]
fn judge_by_tau(
    par: SolverParam,
    shape: Shape,
    c: &[f64],
    a1: &[f64],
    a2: &[f64],
    b: &[f64],
    norms: Norms,
    x: &[f64],
    rx: &mut [f64],
) -> Criteria
    requires fits { Fits shape c.now (slices a1.now a2.now) b.now }
    requires like_x { LikeX shape x.now }
    requires like_x_2 { LikeX shape rx.old }
    ensures says { result
        ≡ (judged (embed_in par.«edition» shape c.now (slices a1.now a2.now)
        b.now) par.eps_zero norms
        x.now rx.old).criteria }
    ensures rx_left { rx.new
        ≡ (judged (embed_in par.«edition» shape c.now (slices a1.now a2.now)
        b.now) par.eps_zero norms
        x.now rx.old).rx }
{
    let m = shape.rows.0;
    let n = shape.cols.0;
    if x[n + m + m] > par.eps_zero {
        criteria_conv(par.edition, shape, c, a1, a2, b, norms, x, rx)
    } else {
        criteria_inf(par, shape, c, a1, a2, b, norms, x, rx)
    }
}

// Whether c, A and b, x and rx have the lengths that the shape says.
fn fits(shape: Shape, c: &[f64], a1: &[f64], a2: &[f64], b: &[f64], x: &[f64], rx: &[f64]) -> bool
    ensures { result ≡ judge_fits shape c.now (slices a1.now a2.now) b.now
        x.now rx.now }
{
    operators_fit(&Operators {
        shape,
        c,
        a1,
        a2,
        b,
    }) && fits_x(shape, x)
        && fits_x(shape, rx)
}

// The three criteria of convergence, where tau is above eps_zero.
fn criteria_conv(
    edition: u32,
    shape: Shape,
    c: &[f64],
    a1: &[f64],
    a2: &[f64],
    b: &[f64],
    norms: Norms,
    x: &[f64],
    rx: &mut [f64],
) -> Criteria
    requires fits { Fits shape c.now (slices a1.now a2.now) b.now }
    requires like_x { LikeX shape x.now }
    requires like_x_2 { LikeX shape rx.old }
    ensures says { result
        ≡ (converging (embed_in edition shape c.now (slices a1.now a2.now)
        b.now) norms x.now
        rx.old).criteria }
    ensures rx_left { rx.new
        ≡ (converging (embed_in edition shape c.now (slices a1.now a2.now)
        b.now) norms x.now
        rx.old).rx }
{
    let m = shape.rows.0;
    let n = shape.cols.0;
    let mn = m + n;
    let scale = float::reciprocal(x[n + m + m]);
    let pri = primal_residual(edition, shape, a1, a2, b, scale, x, &mut rx[0..m]);
    let dual = dual_residual(edition, shape, c, a1, a2, scale, x, &mut rx[m..mn]);
    let g = objectives(edition, shape, c, b, scale, 1.0, x);
    Criteria::Conv(
        pri / (1.0 + norms.b),
        dual / (1.0 + norms.c),
        gap(g.cx, g.by),
    )
}

// p becomes s / tau - b + A * x / tau; its norm.
fn primal_residual(
    edition: u32,
    shape: Shape,
    a1: &[f64],
    a2: &[f64],
    b: &[f64],
    scale: f64,
    x: &[f64],
    p: &mut [f64],
) -> f64
    requires sized { Sized shape (slices a1.now a2.now) }
    requires stored { Stored (problem.column shape.rows.0) b.now }
    requires like_x { LikeX shape x.now }
    requires p_len { length p.old ≡ shape.rows.0 }
    ensures p_left { p.new ≡ primal_at edition shape (slices a1.now a2.now) b.now scale
        x.now }
    ensures is_norm { result ≡ norm_by edition p.new }
{
    let one = [1.0; 1];
    let m = shape.rows.0;
    let n = shape.cols.0;
    let nm = n + m;
    let nmm = nm + m;
    linalg::copy(&x[nm..nmm], p);
    matop_by::op_by(edition, column(m), -1.0, b, &one, scale, p);
    matop_by::split::op_by(edition, shape, scale, a1, a2, &x[0..n], 1.0, p);
    norms::norm_by(edition, p)
}

// d becomes c + A transposed * y / tau; its norm.
fn dual_residual(
    edition: u32,
    shape: Shape,
    c: &[f64],
    a1: &[f64],
    a2: &[f64],
    scale: f64,
    x: &[f64],
    d: &mut [f64],
) -> f64
    requires sized { Sized shape (slices a1.now a2.now) }
    requires stored { Stored (problem.column shape.cols.0) c.now }
    requires like_x { LikeX shape x.now }
    requires d_len { length d.old ≡ shape.cols.0 }
    ensures d_left { d.new ≡ dual_at edition shape c.now (slices a1.now a2.now) scale
        x.now d.old }
    ensures is_norm { result ≡ norm_by edition d.new }
{
    let one = [1.0; 1];
    let m = shape.rows.0;
    let n = shape.cols.0;
    let nm = n + m;
    matop_by::op_by(edition, column(n), 1.0, c, &one, 0.0, d);
    matop_by::split::trans_op_by(edition, shape, scale, a1, a2, &x[n..nm], 1.0, d);
    norms::norm_by(edition, d)
}

// The gap between c * x / tau and -b * y / tau, which are g_x and -g_y.
#[tactic(auto, unfolding(rules::specs::Helpers::one))]
fn gap(g_x: f64, g_y: f64) -> f64
    ensures { result ≡ magnitude (g_x +ᶠ g_y) /ᶠ (one +ᶠ magnitude g_x +ᶠ magnitude g_y) }
{
    float::magnitude(g_x + g_y) / (1.0 + float::magnitude(g_x) + float::magnitude(g_y))
}

// alpha * c * x and alpha * b * y.
#[derive(Clone, Copy)]
struct Products {
    cx: f64,
    by: f64,
}

// Both products are worked out in one place, which each first multiplies by 0: the first multiplies
// start, the second what the first left.
fn objectives(
    edition: u32,
    shape: Shape,
    c: &[f64],
    b: &[f64],
    alpha: f64,
    start: f64,
    x: &[f64],
) -> Products
    requires stored { Stored (problem.column shape.cols.0) c.now }
    requires stored_2 { Stored (problem.column shape.rows.0) b.now }
    requires like_x { LikeX shape x.now }
    ensures of_x { result.cx ≡ at (product_x edition shape c.now alpha start x.now) 0 }
    ensures of_y { result.by ≡ at (product_y edition shape c.now b.now alpha start x.now) 0 }
{
    let mut one = [start; 1];
    let m = shape.rows.0;
    let n = shape.cols.0;
    let nm = n + m;
    matop_by::trans_op_by(edition, column(n), alpha, c, &x[0..n], 0.0, &mut one);
    let cx = one[0];
    matop_by::trans_op_by(edition, column(m), alpha, b, &x[n..nm], 0.0, &mut one);
    let by = one[0];
    Products { cx, by }
}

// The two other criteria, where tau is not above eps_zero.
fn criteria_inf(
    par: SolverParam,
    shape: Shape,
    c: &[f64],
    a1: &[f64],
    a2: &[f64],
    b: &[f64],
    norms: Norms,
    x: &[f64],
    rx: &mut [f64],
) -> Criteria
    requires fits { Fits shape c.now (slices a1.now a2.now) b.now }
    requires like_x { LikeX shape x.now }
    requires like_x_2 { LikeX shape rx.old }
    ensures says { result
        ≡ (diverging (embed_in par.«edition» shape c.now (slices a1.now a2.now)
        b.now) par.eps_zero norms
        x.now rx.old).criteria }
    ensures rx_left { rx.new
        ≡ (diverging (embed_in par.«edition» shape c.now (slices a1.now a2.now)
        b.now) par.eps_zero norms
        x.now rx.old).rx }
{
    let m = shape.rows.0;
    let n = shape.cols.0;
    let mn = m + n;
    let pri = ray(par.edition, shape, a1, a2, x, &mut rx[0..m]);
    let dual = dual_ray(par.edition, shape, a1, a2, x, &mut rx[m..mn]);
    let r = objectives(par.edition, shape, c, b, -1.0, 0.0, x);
    Criteria::Inf(
        ratio(par.eps_zero, pri, norms.c, r.cx),
        ratio(par.eps_zero, dual, norms.b, r.by),
    )
}

// p becomes s + A * x; its norm.
fn ray(edition: u32, shape: Shape, a1: &[f64], a2: &[f64], x: &[f64], p: &mut [f64]) -> f64
    requires sized { Sized shape (slices a1.now a2.now) }
    requires like_x { LikeX shape x.now }
    requires p_len { length p.old ≡ shape.rows.0 }
    ensures p_left { p.new ≡ ray_at edition shape (slices a1.now a2.now) x.now }
    ensures is_norm { result ≡ norm_by edition p.new }
{
    let m = shape.rows.0;
    let n = shape.cols.0;
    let nm = n + m;
    let nmm = nm + m;
    linalg::copy(&x[nm..nmm], p);
    matop_by::split::op_by(edition, shape, 1.0, a1, a2, &x[0..n], 1.0, p);
    norms::norm_by(edition, p)
}

// d becomes A transposed * y; its norm.
fn dual_ray(edition: u32, shape: Shape, a1: &[f64], a2: &[f64], x: &[f64], d: &mut [f64]) -> f64
    requires sized { Sized shape (slices a1.now a2.now) }
    requires like_x { LikeX shape x.now }
    requires d_len { length d.old ≡ shape.cols.0 }
    ensures d_left { d.new ≡ dual_ray_at edition shape (slices a1.now a2.now) x.now
        d.old }
    ensures is_norm { result ≡ norm_by edition d.new }
{
    let m = shape.rows.0;
    let n = shape.cols.0;
    let nm = n + m;
    matop_by::split::trans_op_by(edition, shape, 1.0, a1, a2, &x[n..nm], 0.0, d);
    norms::norm_by(edition, d)
}

// A norm times another, over a number above eps_zero; infinite if it is not above.
#[tactic(auto, unfolding(rules::specs::Criteria::ratio))]
fn ratio(eps_zero: f64, residual: f64, norm: f64, by: f64) -> f64
    ensures { result ≡ rules.ratio eps_zero residual norm by }
{
    if by > eps_zero {
        residual * norm / by
    } else {
        1.0 / 0.0
    }
}
