// The calls of the library in the calling form of C, for `bench/`. Each is its call, its result an answer, and nothing else.
#![tactic(auto)]

mod sheets; // checks of sheets, and the rest of a faulty one
mod recipes; // recipe bytes, and the built-in recipe
mod lines; // runs of a line
mod rectangles; // runs of a rectangle
mod passes; // runs of two passes, and of a pass alone
mod strips; // strips of blocks
mod texts; // what the program prints
