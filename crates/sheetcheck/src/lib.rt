// The checks of a sheet and of a pair: 1 to 9, 12, and where the factors start. The calls on sheets are in `sheet`.
#![tactic(auto)]

pub mod checks; // what is wrong, or a table of starts
mod matches; // two checked sheets, kind for kind: 12
mod quick; // whether a sheet has no fault at all
