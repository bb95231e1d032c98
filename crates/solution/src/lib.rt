// x is the first n places of work, y the next m.
#![tactic(auto)]

ghost use Rattle.std.specs.Prelude.{◌≡◌};
ghost use Rattle.rules.specs.Run.{solution_x, solution_y};

use rules::{Cols, Rows};

// The first places of work; none where it is too short.
#[tactic(auto, unfolding(rules::specs::Run::solution_x))]
pub fn solution_x(work: &[f64], cols: Cols) -> &[f64]
    ensures { result.now ≡ solution_x cols.0 work.now }
{
    work.get(..cols.0).unwrap_or(&[])
}

// The places of work after x; none where it is too short to hold x and them.
#[tactic(auto, unfolding(rules::specs::Run::solution_y))]
pub fn solution_y(work: &[f64], rows: Rows, cols: Cols) -> &[f64]
    ensures { result.now ≡ solution_y rows.0 cols.0 work.now }
{
    work.get(cols.0..)
        .and_then(|rest| rest.get(..rows.0))
        .unwrap_or(&[])
}
