// One stage of a pass: the factor at place i of a checked sheet, along every line.
ghost use Rattle.std.specs.Prelude.{◌≤◌, true, ◌≡◌, length, is_ok};
ghost use Rattle.rules.specs.Numbers.{most_order, most_cells};
ghost use Rattle.rules.specs.Factors.{factor_at};
ghost use Rattle.laws.specs.Accepted.{FactorRead};
ghost use Rattle.factor.specs.SumBounds.{Bounded};
ghost use Rattle.factor.specs.LayoutInSheet.{Moves};
ghost use Rattle.factor.specs.Tasks.{limit_of};
ghost use Rattle.passstage.specs.Lanes.{StageDone};
ghost use Rattle.passstage.specs.LaneSteps.{is_allowance, line_moved, LinesMade};

use crate::allowances::allow_lines;
use crate::rows::take_rows;
use factor::bounds::Beyond;
use factor::moves::move_line;
use factor::run::{Run, Task, is_down, is_even, is_inverse};
use factor::{Layout, is_move, layout_at};
use rules::Block;

// A permutation along each of w lines.
fn move_lines(sheet: &[i32], f: Layout, task: Task, w: usize, x: &mut [i32; Block::CELLS])
    requires { Moves sheet.now f × (w ≤ most_order) × Bounded (limit_of task) x.old × (length x.old ≡ most_cells) }
    ensures { LinesMade (limit_of task) f.order (line_moved task sheet.now f) w x.old
        x.new true }
{
    for l in 0..w {
        move_line(sheet, f, task, x, l, Block::LINE);
    }
}

// Whether it is allowances that are taken.
#[tactic(auto, unfolding(crate::specs::LaneSteps::is_allowance))]
fn is_allowance(task: Task) -> bool
    ensures { result ≡ is_allowance task }
{
    matches!(task, Task::Allowance)
}

// Applied, undone, or on allowances, along each of w lines.
#[tactic(auto, unfolding(factor::specs::Tasks::limit_of, factor::specs::Layouts::layout_at, factor::specs::Layouts::layout_by))]
pub fn run_stage(
    run: Run,
    sheet: &[i32],
    n: usize,
    i: usize,
    w: usize,
    x: &mut [i32; Block::CELLS],
) -> Result<(), Beyond>
    requires { (1 ≤ n) × (n ≤ most_order) × FactorRead sheet.now n i × (w ≤ most_order)
        × Bounded (limit_of run.task) x.old × (length x.old ≡ most_cells) }
    ensures { StageDone run n (factor_at sheet.now n i) w x.old x.new (is_ok result) }
{
    let task = run.task;
    let rule = run.rule;
    let f = layout_at(sheet, n, i);
    if is_move(f) {
        move_lines(sheet, f, task, w, x);
        return Ok(());
    }
    if is_allowance(task) {
        return allow_lines(rule, sheet, f, w, x);
    }
    take_rows(
        is_inverse(task),
        is_down(rule),
        is_even(rule),
        sheet,
        f,
        w,
        x,
    )
}
