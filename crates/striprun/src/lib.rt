// Strips over sheets of either shape: the checks, then every block by its single run.
#![tactic(auto)]

pub mod blocks; // one block of a strip, of either shape
pub mod runs; // the checks, then all blocks
