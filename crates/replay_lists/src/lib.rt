// The projection and the grouping of lists of blocks, had again as a record of the list asks.
#![tactic(auto)]

pub mod lists;
