// One row of a rectangle under a lower or an upper factor.
#![tactic(auto)]

mod triangle; // what a row asks of the kind of its factors
mod lower; // the same for lower factors
mod upper; // the same for upper factors
pub mod applied; // a row applied
pub mod undone; // a row undone
