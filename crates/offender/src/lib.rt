// Which sample was too large. A fast run says at which stage it is refused. After that, and only then, this plain search finds
// the element that the answer names, word by word as the definitions have it. How fast it is does not matter.
#![tactic(auto)]

mod weights; // the numbers of a stage: signs, weights, turns
mod elements; // one element of it, applied and undone
mod search; // the first element beyond the bound, in reading order and by turns
pub mod input; // stage 0
pub mod stage; // a later stage
