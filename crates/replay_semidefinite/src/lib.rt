// The projection of semidefinite blocks, had again as a record of the list asks, and the cases worked by
// hand.
#![tactic(auto)]

pub mod semidefinite;
