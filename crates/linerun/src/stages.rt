// One stage of a line: the factor at place i of a checked sheet, applied, undone, or on allowances.
ghost use Rattle.std.specs.Prelude.{◌≤◌, is_ok};
ghost use Rattle.rules.specs.Numbers.{most_order};
ghost use Rattle.rules.specs.Factors.{factor_at};
ghost use Rattle.rules.specs.Shapes.{line_stage};
ghost use Rattle.laws.specs.Accepted.{FactorRead};
ghost use Rattle.factor.specs.SumBounds.{Bounded};
ghost use Rattle.factor.specs.Tasks.{limit_of, taken_by};
ghost use Rattle.factor.specs.Steps.{Step};

use crate::kinds::{apply_weights, undo_weights};
use crate::steps::allow_weights;
use factor::bounds::Beyond;
use factor::moves::move_from;
use factor::run::{Run, Task, is_down, is_even};
use factor::{is_move, layout_at};
use rules::Block;

// The block by value, and whether every number is in bound. With a Result of the block, and loops that took it by value, forward
// runs of 5 to 16 numbers took 10 to 16 in a hundred longer than in this form.
#[derive(Clone, Copy)]
pub struct Passed {
    pub block: [i32; Block::LINE],
    pub end: Result<(), Beyond>,
}

// A permutation moves the numbers, whatever the task; a factor with weights is taken by the task.
#[tactic(auto, unfolding(factor::specs::Layouts::layout_at, factor::specs::Layouts::layout_by, factor::specs::Tasks::limit_of, factor::specs::Tasks::stage_by))]
pub fn run_stage(run: Run, sheet: &[i32], n: usize, i: usize, x: [i32; Block::LINE]) -> Passed
    requires { (1 ≤ n) × (n ≤ most_order) × FactorRead sheet.now n i × Bounded (limit_of run.task) x }
    ensures { Step (limit_of run.task) n (taken_by run n (line_stage n (factor_at sheet.now n i)) x)
        (is_ok result.end) result.block }
{
    let f = layout_at(sheet, n, i);
    let mut y = x;
    if is_move(f) {
        move_from(sheet, f, run.task, &x, &mut y, 0, 1);
        return Passed {
            block: y,
            end: Ok(()),
        };
    }
    let down = is_down(run.rule);
    let even = is_even(run.rule);
    let end = match run.task {
        Task::Forward => apply_weights(down, even, sheet, f, &x, &mut y),
        Task::Inverse => undo_weights(down, even, sheet, f, &mut y),
        Task::Allowance => allow_weights(run.rule, sheet, f, &x, &mut y),
    };
    Passed { block: y, end }
}
