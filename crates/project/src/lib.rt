// The cones of a step: all dual blocks of a vector like x, then all primal blocks.
#![tactic(auto)]

ghost use Rattle.std.specs.Prelude.{◌≤◌, true, length};
ghost use Rattle.rules.specs.Limits.{limit};
ghost use Rattle.rules.specs.Product.{ProductOutcome};
ghost use Rattle.shape.specs.Fitting.{LikeX};
ghost use Rattle.project.specs.Project.{ConesReady, projected_in, project_fits};

use rules::{Product, Shape, SolverParam};
use shape::fits_x;
use words::product_fits;

// Projects all dual blocks, then all primal blocks, and stops at the first that fails. Where a length, a size, the cone list or
// the sweep limit doesn't fit, it answers no and changes nothing.
#[tactic(auto, using(crate::proofs::Ready::cones_ready))]
pub fn project(
    par: SolverParam,
    shape: Shape,
    words: &[u16],
    x: &mut [f64],
    cone_work: &mut [f64],
) -> Option<Product>
    ensures { ProductOutcome (project_fits par shape words.now x.old cone_work.old)
        (projected_in par shape words.now x.old cone_work.old)
        x.old cone_work.old result x.new cone_work.new }
{
    if fits_x(shape, x) && product_fits(par, words, shape.rows.0, cone_work.len()) {
        project_fitting(par, shape, words, x, cone_work)
    } else {
        None
    }
}

// Projects both passes where all fits.
fn project_fitting(
    par: SolverParam,
    shape: Shape,
    words: &[u16],
    x: &mut [f64],
    cone_work: &mut [f64],
) -> Option<Product>
    requires cones_ready { ConesReady par shape.rows.0 words.now (length cone_work.old) }
    requires cols_le_limit { shape.cols.0 ≤ limit }
    requires like_x { LikeX shape x.old }
    ensures { ProductOutcome true
        (projected_in par shape words.now x.old cone_work.old)
        x.old cone_work.old result x.new cone_work.new }
{
    let m = shape.rows.0;
    let n = shape.cols.0;
    let nm = n + m;
    let nmm = nm + m;
    let dual = product::product_proj(par, true, words, &mut x[n..nm], cone_work)?;
    let Product::Done(q) = dual else {
        return Some(dual);
    };
    let primal = product::product_proj(par, false, words, &mut x[nm..nmm], cone_work)?;
    match primal {
        Product::Done(r) => Some(Product::Done(q + r)),
        Product::Failed(block, r) => Some(Product::Failed(block, q + r)),
    }
}
