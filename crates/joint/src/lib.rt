// The joint rule: the sums that the elements of a rectangle's row are made of, one element of it, and how a row goes in place.
#![tactic(auto)]

pub mod sums; // the sum of an element in two steps: over the columns, then over a row of such sums
pub mod elements; // one element applied and undone
mod allowances; // one element's allowance
pub mod rows; // a row's allowances
