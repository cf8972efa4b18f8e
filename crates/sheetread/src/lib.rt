// Reads sheets number by number, by the rules 1 to 9 of document 01, and says where their factors start.
#![tactic(auto)]

pub mod factors; // numbers that count something, and kinds: for callers that hold a checked sheet
pub mod faults; // 2 to 8: the fault of one number
pub mod readers; // from the left to the first fault: 1 to 9
pub mod checked; // a sheet without fault, and where its factors start
