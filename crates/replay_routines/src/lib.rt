// The routines that answer whether the lengths fit, had again as a record of the list asks.
#![tactic(auto)]

pub mod routines;
