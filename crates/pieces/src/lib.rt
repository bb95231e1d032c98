// A run in pieces: it halts after a given number of steps without an ending, and is taken up later from its buffers and a small record.
#![tactic(auto)]

mod entry;
mod split_entry;
mod stepping;
mod taking;

pub use entry::{first_piece, later_piece};
pub use split_entry::{first_split_piece, later_split_piece};
