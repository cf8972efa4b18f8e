// A rectangle's block through the stages of two checked sheets.
#![tactic(auto)]

mod triangles; // a pair of lower or of upper factors
mod singles; // a pair of single-row factors
mod allowances; // a pair of factors with weights, on allowances
mod stages; // one stage: the factors at two places of the sheets, by their kind and the task
mod runs; // the stages of two sheets, one after another
mod ends; // the copies in and out, with a permutation that comes first or last
pub mod block; // a run of one block over two checked sheets
