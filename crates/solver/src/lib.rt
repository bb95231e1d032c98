// The solver: its entry points, which check for themselves.
#![tactic(auto)]

mod entry;
mod solving;

pub use entry::{solve, solve_logged, solve_split, solve_split_logged};
