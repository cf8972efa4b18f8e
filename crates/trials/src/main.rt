// Trials: the cases of the second program (second/README.md has their form) come on standard input. Each is run through the
// library's public calls; its answer and the lent memory are compared word for word, or with the room that a law leaves. A line
// for each call says how many agreed.
#![tactic(auto)]

mod calls; // each call, on the parts of a case
mod cases; // one case after another

use trialparts::tally::{NONE, print_all, print_end};

fn main() {
    let mut counts = NONE;
    let end = cases::run_all(&mut counts);
    print_all(&counts);
    print_end(end.cases, end.whole);
}
