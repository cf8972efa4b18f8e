// Numbers and their bytes: one number, and numbers one after another.
#![tactic(auto)]

pub mod number;
pub mod spelled;
pub mod stream;
