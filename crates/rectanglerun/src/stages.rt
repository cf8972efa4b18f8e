// One stage of a rectangle: the factors at place i of a checked column sheet and at place j of a checked row sheet.
ghost use Rattle.std.specs.Prelude.{◌≡◌, ◌*◌, length, is_ok};
ghost use Rattle.rules.specs.Numbers.{most_cells};
ghost use Rattle.rules.specs.Factors.{factor_at};
ghost use Rattle.rules.specs.Shapes.{joint_stage};
ghost use Rattle.factor.specs.SumBounds.{Bounded};
ghost use Rattle.factor.specs.Tasks.{limit_of, taken_by};
ghost use Rattle.factor.specs.Steps.{Step};
ghost use Rattle.factor.specs.LayoutInSheet.{Paired};

use crate::allowances::allow_rows;
use crate::singles::{apply_single_rows, undo_single_rows};
use crate::triangles::all_rows;
use factor::bounds::Beyond;
use factor::run::{Run, Task, is_down, is_even};
use factor::{is_move, layout_at};
use pairmoves::move_pair;
use rules::{Block, Kind};
use trianglerows::applied::{apply_lower_row, apply_upper_row};
use trianglerows::undone::{undo_lower_row, undo_upper_row};

// A pair of permutations moves the numbers, and can leave no bound. A pair of factors with weights makes new ones, row by row; it
// stops at the first number beyond the bound, and the block is not looked at again then: later sums could leave 64 bits.
// After the test a permutation is met no more: its two arms below are never taken.
// All tasks and kinds are told apart in this one function. So the compiler keeps it apart from the function that holds the block,
// and its rows share one frame.
#[tactic(auto, unfolding(factor::specs::Layouts::layout_at, factor::specs::Layouts::layout_by))]
pub fn run_stage(
    run: Run,
    col: &[i32],
    row: &[i32],
    n1: usize,
    n2: usize,
    i: usize,
    j: usize,
    x: &mut [i32; Block::CELLS],
) -> Result<(), Beyond>
    requires { Paired col.now row.now n1 n2 i j × Bounded (limit_of run.task) x.old
        × (length x.old ≡ most_cells) }
    ensures { Step (limit_of run.task) (n1 * n2)
        (taken_by run (n1 * n2) (joint_stage n1 n2 (factor_at col.now n1 i) (factor_at row.now n2 j))
        x.old) (is_ok result) x.new × (length x.new ≡ most_cells) }
{
    let task = run.task;
    let rule = run.rule;
    let fa = layout_at(col, n1, i);
    let fb = layout_at(row, n2, j);
    if is_move(fb) {
        move_pair(col, fa, row, fb, task, x);
        return Ok(());
    }
    let down = is_down(rule);
    let even = is_even(rule);
    let kind = fb.kind;
    match task {
        Task::Forward => match kind {
            Kind::Lower => all_rows(apply_lower_row, task, down, even, col, fa, row, fb, x),
            Kind::Upper => all_rows(apply_upper_row, task, down, even, col, fa, row, fb, x),
            Kind::Single => apply_single_rows(down, even, col, fa, row, fb, x),
            Kind::Permutation => Ok(()),
        },
        Task::Inverse => match kind {
            Kind::Lower => all_rows(undo_lower_row, task, down, even, col, fa, row, fb, x),
            Kind::Upper => all_rows(undo_upper_row, task, down, even, col, fa, row, fb, x),
            Kind::Single => undo_single_rows(down, even, col, fa, row, fb, x),
            Kind::Permutation => Ok(()),
        },
        Task::Allowance => allow_rows(rule, col, fa, row, fb, x),
    }
}
