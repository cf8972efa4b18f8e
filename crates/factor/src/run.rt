// Which run it is, and where it stopped: the same types for lines, rectangles and passes.
ghost use Rattle.std.specs.Prelude.{true, false, ◌≡◌, ◌<◌};
ghost use Rattle.rules.specs.Numbers.{count};
ghost use Rattle.rules.specs.Answers.{refused_at, start};
ghost use Rattle.rules.specs.Results.{fault_number, refused_for, answered};
ghost use Rattle.factor.specs.Outcomes.{ended_answer};
ghost use Rattle.factor.specs.Rounding.{is_down, to_evens};
ghost use Rattle.factor.specs.Tasks.{is_inverse, inputs_of, number_of, nth_stage};

use rules::{Fault, Refusal, Rule, Side};
use sheetread::checked::Checked;

// Numbers through the stages, first to last; back through them, last to first; or the allowances of the coefficients, first to
// last.
#[derive(Clone, Copy)]
pub enum Task {
    Forward,
    Inverse,
    Allowance,
}

// Which run it is: its task, and the rule by which its sums are rounded.
#[derive(Clone, Copy)]
pub struct Run {
    pub task: Task,
    pub rule: Rule,
}

// The stage after which a number lies beyond the bound, counted from where the run began.
#[derive(Clone, Copy, Debug, PartialEq, Eq)]
pub struct Stopped {
    pub stage: usize,
}

// Where a run is refused: that stage, and the element that the answer names.
#[derive(Clone, Copy, Debug, PartialEq, Eq)]
pub struct Place {
    pub stage: usize,
    pub element: usize,
}

// Whether sums are rounded down.
#[tactic(auto, unfolding(crate::specs::Rounding::is_down))]
pub fn is_down(rule: Rule) -> bool
    ensures { result ≡ is_down rule }
{
    matches!(rule, Rule::Down)
}

// Whether halves go to the even number.
#[tactic(auto, unfolding(crate::specs::Rounding::to_evens))]
pub fn is_even(rule: Rule) -> bool
    ensures { result ≡ to_evens rule }
{
    matches!(rule, Rule::Even)
}

// Whether the rule is another than rule 0.
pub fn is_other(down: bool, even: bool) -> bool
    ensures { result ≡ false → (down ≡ false) × (even ≡ false) }
{
    down || even
}

// Whether n numbers go through the code that is written out for m numbers. Under another rule they go through the loop over n:
// one more test at each number would keep the compiler from writing the code out.
pub fn is_written(other: bool, n: usize, m: usize) -> bool
    ensures { result ≡ true → (other ≡ false) × (n ≡ m) }
{
    !other && n == m
}

// Whether numbers go back.
#[tactic(auto, unfolding(crate::specs::Tasks::is_inverse))]
pub fn is_inverse(task: Task) -> bool
    ensures { result ≡ is_inverse task }
{
    matches!(task, Task::Inverse)
}

// How many numbers are lent for a block of n: none for allowances, which all start at 0.
#[tactic(auto, unfolding(crate::specs::Tasks::inputs_of))]
pub fn inputs_of(task: Task, n: usize) -> usize
    ensures { result ≡ inputs_of task n }
{
    match task {
        Task::Forward | Task::Inverse => n,
        Task::Allowance => 0,
    }
}

// The fault of a refusal on the way.
#[tactic(auto, unfolding(crate::specs::Tasks::number_of))]
fn fault_of(task: Task) -> Fault
    ensures { fault_number result ≡ number_of task }
{
    match task {
        Task::Forward | Task::Inverse => Fault::Sample,
        Task::Allowance => Fault::Allowance,
    }
}

// The refusal of a run that is refused there.
pub fn refusal_of(task: Task, at: Place) -> Refusal
    ensures { refused_for result ≡ refused_at (number_of task) 0 at.stage at.element }
{
    Refusal {
        fault: fault_of(task),
        side: Side::First,
        place: at.stage as u64,
        element: at.element as u64,
    }
}

// What a call gives whose run ended so.
pub fn end_of(task: Task, ended: Result<(), Place>) -> Result<(), Refusal>
    ensures { answered result ≡ ended_answer (number_of task) ended }
{
    ended.map_err(|at| refusal_of(task, at))
}

// Which of the factors comes after t others.
#[tactic(auto, unfolding(crate::specs::Tasks::nth_stage))]
fn nth_stage(task: Task, many: usize, t: usize) -> usize
    requires { t < many }
    ensures { result ≡ nth_stage task many t }
{
    if is_inverse(task) { many - 1 - t } else { t }
}

// Where that factor starts.
pub fn nth_start(task: Task, sheet: &Checked<'_>, t: usize) -> usize
    requires { t < count sheet.now.numbers.now 1 }
    ensures { result ≡ start sheet.now.numbers.now (nth_stage task (count sheet.now.numbers.now 1) t) }
{
    sheet.start(nth_stage(task, sheet.many(), t))
}
