// A rectangle's block through the passes of one checked sheet or of two.
#![tactic(auto)]

mod layout; // the block between reading order and lines side by side
mod passes; // one pass: the factors of a sheet
pub mod block; // a run of one block
