// The projection of one block, onto the cone of its kind.
#![tactic(auto)]

ghost use Rattle.std.specs.Prelude.{◌≡◌};
ghost use Rattle.rules.specs.Projections.{proj_zero, proj_r_pos, proj_block, block_fits, BlockOutcome};

use block::block_fits;
use rules::{Cone, Projection, SolverParam};
use second_order::{proj_rotsoc, proj_soc};

// The dual is untouched, the primal is multiplied by 0.
#[tactic(auto, unfolding(rules::specs::Projections::proj_zero))]
fn proj_zero(dual: bool, x: &mut [f64])
    ensures { x.new ≡ proj_zero dual x.old }
{
    if !dual {
        linalg::scale(0.0, x);
    }
}

// The larger of each place and 0.
fn proj_rpos(x: &mut [f64])
    ensures { x.new ≡ proj_r_pos x.old }
{
    for v in x.iter_mut() {
        *v = float::larger(*v, 0.0);
    }
}

// Projects one block: a semidefinite one takes rotations, and its sweeps may fail to end. Where sizes or the sweep limit don't fit, it
// answers no and changes nothing.
pub fn proj(
    par: SolverParam,
    dual: bool,
    cone: Cone,
    x: &mut [f64],
    work: &mut [f64],
) -> Option<Projection>
    ensures { BlockOutcome (block_fits par cone x.old work.old)
        (proj_block par dual cone x.old work.old) x.old work.old result
        x.new work.new }
{
    if !block_fits(par, cone, x.len(), work.len()) {
        return None;
    }
    match cone {
        Cone::Zero(_) => proj_zero(dual, x),
        Cone::RPos(_) => proj_rpos(x),
        // the next two refuse no block that fits
        Cone::SOC(_) => {
            proj_soc(par.edition, x);
        }
        Cone::RotSOC(_) => {
            proj_rotsoc(par.edition, x);
        }
        Cone::PSD(order) => return eig::map_eig(par, order, x, work),
    }
    Some(Projection::Done(0))
}
