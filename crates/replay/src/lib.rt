// What the programs that replay a list share: a record's words, comparing patterns, and arrays of its
// numbers.
#![tactic(auto)]

pub mod record;
pub mod room;
