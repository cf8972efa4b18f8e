// Whole numbers, for the proofs of the crates above: rules, laws, floors, sums, bounds. The crate has no code.
#![tactic(auto)]
