// Tests alone: what `lines` answers where a read is interrupted or fails, and what `tally` writes, also where a write fails.
#![tactic(auto)]

#[cfg(test)]
mod reads;
#[cfg(test)]
mod writes;
