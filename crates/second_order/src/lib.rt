// The projections of a block onto the second-order cone and onto the rotated one. Each answers a plain no, and changes
// nothing, where there are more places than a block may have.
#![tactic(auto)]

ghost use Rattle.std.specs.Prelude.{◌<◌, ◌≡◌, leb, length};
ghost use Rattle.rules.specs.Limits.{limit};
ghost use Rattle.rules.specs.Outcome.{Outcome};
ghost use Rattle.rules.specs.Projections.{proj_soc, reflected, proj_rot_soc};

use root::root_two;
use rules::LIMIT;

// By the head and the norm of the tail. Where one of the two is NaN, it is neither in the polar cone nor inside.
#[tactic(auto, using(rules::proofs::Projections::one_is, rules::proofs::Projections::two_is), unfolding(rules::specs::Projections::proj_soc))]
fn project(edition: u32, x: &mut [f64])
    ensures { x.new ≡ proj_soc edition x.old }
{
    let Some((head, tail)) = x.split_first_mut() else {
        return;
    };
    let s = *head;
    let v = norms::norm_by(edition, tail);
    if v <= -s {
        linalg::scale(0.0, tail);
        *head = 0.0;
    } else if !(v <= s) {
        linalg::scale((1.0 + s / v) / 2.0, tail);
        *head = (v + s) / 2.0;
    }
}

// The second-order cone. Where there are more places than a block may have, it answers no and changes nothing.
pub fn proj_soc(edition: u32, x: &mut [f64]) -> bool
    ensures { Outcome (leb (length x.old) limit) (proj_soc edition x.old) x.old result x.new }
{
    if x.len() > LIMIT {
        return false;
    }
    project(edition, x);
    true
}

// The first two become their sum and their difference, each over the root of 2.
#[tactic(auto, using(rules::proofs::Projections::reflected_more))]
fn reflect(x: &mut [f64])
    requires { 1 < length x.old }
    ensures { x.new ≡ reflected x.old }
{
    let r = x[0];
    let s = x[1];
    let root = root_two();
    x[0] = (r + s) / root;
    x[1] = (r - s) / root;
}

// The second-order cone, reflected. A block of one place is nonnegative, and one of none has nothing to do.
#[tactic(auto, using(rules::proofs::Projections::reflected_more, rules::proofs::Projections::rotated_more), unfolding(rules::specs::Projections::proj_rot_soc))]
fn project_rotated(edition: u32, x: &mut [f64])
    ensures { x.new ≡ proj_rot_soc edition x.old }
{
    match x.len() {
        0 => (),
        1 => x[0] = float::larger(x[0], 0.0),
        _ => {
            reflect(x);
            project(edition, x);
            reflect(x);
        }
    }
}

// The rotated second-order cone. Where there are more places than a block may have, it answers no and changes nothing.
pub fn proj_rotsoc(edition: u32, x: &mut [f64]) -> bool
    ensures { Outcome (leb (length x.old) limit) (proj_rot_soc edition x.old) x.old result x.new }
{
    if LIMIT < x.len() {
        return false;
    }
    project_rotated(edition, x);
    true
}
