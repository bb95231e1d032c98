// Problems had again in pieces, and held to the uncut run.
#![tactic(auto)]

pub mod handed;
pub mod held;
pub mod runs;
pub mod same;
