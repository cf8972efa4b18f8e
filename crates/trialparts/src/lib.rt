// What the program `trials` needs beside the calls that it tries.
#![tactic(auto)]

pub mod call; // the calls by their numbers and names
pub mod words; // words of 32 bits from standard input
pub mod parts; // parts of a case: taken, copied, compared
pub mod tally; // how many cases of each call agreed, and the lines that say it
