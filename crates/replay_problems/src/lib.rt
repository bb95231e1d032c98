// A record's problem, run again and compared.
#![tactic(auto)]

pub mod cuts;
pub mod editions;
pub mod logs;
pub mod problem;
pub mod room;
pub mod runs;
