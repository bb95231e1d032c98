// Semidefinite blocks: those of the list, and the cases worked by hand.
ghost use Rattle.std.specs.Prelude.{◌≡◌};
ghost use Rattle.rules.specs.Arithmetic.{+0};
ghost use Rattle.rules.specs.Parameters.{param_of};
ghost use Rattle.replay_semidefinite.specs.Answers.{done_by, failed_by, turned_down, success_of, rotations_of};

use replay::record;
use replay_routines::routines;
use rules::{Cone, Projection, SolverParam};

// The parameters that a projection reads; the others say nothing to it.
pub fn parameters(eps_zero: f64, sweep_limit: u64) -> SolverParam
    ensures { result ≡ param_of 1 +0 +0 eps_zero sweep_limit }
{
    SolverParam::of(1, 0.0, 0.0, eps_zero, sweep_limit)
}

// Whether it succeeded, with so many rotations.
pub fn is_done(answer: Option<Projection>, rotations: u64) -> bool
    ensures { result ≡ done_by answer rotations }
{
    match answer {
        Some(Projection::Done(made)) => made == rotations,
        Some(Projection::Failed(_)) => false,
        None => false,
    }
}

// Whether it failed, with so many rotations.
fn is_failed(answer: Option<Projection>, rotations: u64) -> bool
    ensures { result ≡ failed_by answer rotations }
{
    match answer {
        Some(Projection::Done(_)) => false,
        Some(Projection::Failed(made)) => made == rotations,
        None => false,
    }
}

// Whether it turned the block down.
pub fn is_no(answer: Option<Projection>) -> bool
    ensures { result ≡ turned_down answer }
{
    match answer {
        Some(Projection::Done(_)) => false,
        Some(Projection::Failed(_)) => false,
        None => true,
    }
}

// What a record holds of an answer: 1 for success or 0; the rotations.
fn words_of(answer: Projection) -> (u64, u64)
    ensures success { result.0 ≡ success_of answer }
    ensures made { result.1 ≡ rotations_of answer }
{
    match answer {
        Projection::Done(rotations) => (1, rotations),
        Projection::Failed(rotations) => (0, rotations),
    }
}

// Replays a record, by each routine that projects such a block.
pub fn agrees(record: &[u8]) -> bool {
    let order = record::size(record, 0);
    let par = parameters(record::number(record, 3), record::word(record, 2));
    agrees_by(
        |x, work| eig::map_eig(par, order, x, work).map(words_of),
        record,
    ) && agrees_by(
        |x, work| cone::proj(par, false, Cone::PSD(order), x, work).map(words_of),
        record,
    ) && agrees_by(
        |x, work| cone::proj(par, true, Cone::PSD(order), x, work).map(words_of),
        record,
    )
}

fn agrees_by<F: FnMut(&mut [f64], &mut [f64]) -> Option<(u64, u64)>>(
    project: F,
    record: &[u8],
) -> bool
    requires { F.IsAlwaysCallable project }
{
    let places = record::size(record, 1);
    routines::projects(project, record, 5, places, record::number(record, 4))
}

// The default eps_zero.
fn default_eps_zero() -> f64 {
    1.0 / 1000000000000.0
}

// Whether two numbers are at most 10^-6 apart.
fn is_near(a: f64, b: f64) -> bool {
    let near = 1.0 / 1000000.0;
    a - b <= near && b - a <= near
}

// (5, 0, -5) comes within 10^-6 of (5, 0, 0), without a rotation.
fn far_from_definite() -> bool {
    let mut x = [5.0, 0.0, -5.0];
    let mut work = [0.0; 6];
    let par = parameters(default_eps_zero(), 64);
    is_done(eig::map_eig(par, 2, &mut x, &mut work), 0)
        && is_near(x[0], 5.0)
        && is_near(x[1], 0.0)
        && is_near(x[2], 0.0)
}

// What becomes of (0, 1, 0) with this sweep limit.
fn one_off_the_diagonal(sweep_limit: u64) -> Option<Projection> {
    let mut x = [0.0, 1.0, 0.0];
    let mut work = [0.0; 6];
    let par = parameters(default_eps_zero(), sweep_limit);
    eig::map_eig(par, 2, &mut x, &mut work)
}

// Runs and writes the cases worked by hand.
pub fn write_cases<P: Print>(out: &P) {
    lines::write(
        out,
        b"semidefinite (5, 0, -5), within 10^-6 of (5, 0, 0), no rotation",
    );
    lines::write_case(out, far_from_definite());
    lines::write(
        out,
        b"semidefinite (0, 1, 0), sweep limit 1, fails, one rotation",
    );
    lines::write_case(out, is_failed(one_off_the_diagonal(1), 1));
    lines::write(
        out,
        b"semidefinite (0, 1, 0), sweep limit 2, succeeds, one rotation",
    );
    lines::write_case(out, is_done(one_off_the_diagonal(2), 1));
}
