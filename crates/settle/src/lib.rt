// A run's vectors come into work, as its ending says.
#![tactic(auto)]

mod parts;
mod settling;

pub use settling::{settle, sizes_fit};
