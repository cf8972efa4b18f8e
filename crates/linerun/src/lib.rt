// A line's block through the stages of a checked sheet.
#![tactic(auto)]

pub mod steps; // one element; what a factor does to allowances
mod kinds; // a loop for each kind
mod stages; // one stage: the factor at a place of the sheet
mod runs; // all stages of a sheet
mod fours; // blocks of four
pub mod block; // a run of one block over a checked sheet
