// 10: the lengths of the lent slices.
ghost use Rattle.std.specs.Prelude.{◌≡◌};
ghost use Rattle.rules.specs.Results.{answered};
ghost use Rattle.factor.specs.CallAnswers.{lengths_of, length_of};

use crate::run::{Task, inputs_of};
use rules::{Fault, Refusal, Side};

// The output.
#[tactic(auto, unfolding(crate::specs::CallAnswers::length_of))]
pub fn check_length(size: usize, y: usize) -> Result<(), Refusal>
    ensures { answered result ≡ length_of size y }
{
    if y != size {
        return Err(Refusal::new(Fault::Length, Side::Second, 0));
    }
    Ok(())
}

// The input, then the output.
#[tactic(auto, unfolding(crate::specs::CallAnswers::lengths_of))]
pub fn check_lengths(task: Task, size: usize, x: usize, y: usize) -> Result<(), Refusal>
    ensures { answered result ≡ lengths_of task size x y }
{
    if x != inputs_of(task, size) {
        return Err(Refusal::new(Fault::Length, Side::First, 0));
    }
    check_length(size, y)
}
