// A later stage: the element that the answer names, from the stage that is refused and the block before it.
ghost use Rattle.std.specs.Prelude.{◌≡◌, ◌*◌, ◌≤◌, length};
ghost use Rattle.rules.specs.Numbers.{most_order};
ghost use Rattle.rules.specs.Factors.{factor_at};
ghost use Rattle.rules.specs.Shapes.{line_stage, joint_stage, pass_stage};
ghost use Rattle.laws.specs.Accepted.{FactorRead};
ghost use Rattle.factor.specs.SumBounds.{Bounded};
ghost use Rattle.factor.specs.LayoutInSheet.{Paired};
ghost use Rattle.factor.specs.PassLines.{lines_by};
ghost use Rattle.factor.specs.Tasks.{limit_of, name_after, taken_by};
ghost use Rattle.offender.specs.RefusedStages.{Placed, cells, stage_of};
ghost use Rattle.offender.specs.NamedElements.{is_naming};

use crate::search::first_found;
use crate::weights::{Refused, Shape};
use factor::run::{Run, Task, is_inverse};
use factor::{is_move, layout_at};

// Whether a run of a task names an element: an allowance has none.
#[tactic(auto, unfolding(crate::specs::NamedElements::is_naming))]
fn is_naming(task: Task) -> bool
    ensures { result ≡ is_naming task }
{
    !matches!(task, Task::Allowance)
}

// Moved numbers stay in bound, so a permutation is never refused; nor is an element of an allowance ever named.
fn element(run: Run, q: Refused, col: &[i32], row: &[i32], x: &mut [i32]) -> usize
    requires { Placed q col.now row.now × Bounded (limit_of run.task) x.old × (cells q ≤ length x.old) }
    ensures { result ≡ name_after run.task (cells q) (stage_of q col.now row.now)
        (taken_by run (cells q) (stage_of q col.now row.now) x.old) }
{
    if is_move(layout_at(col, q.n1, q.i)) || !is_naming(run.task) {
        return 0;
    }
    first_found(is_inverse(run.task), run.rule, q, col, row, x).unwrap_or(0)
}

// A stage of a rectangle that is refused, and the block before it: the element that the answer names. The block is used up.
#[tactic(auto, unfolding(crate::specs::RefusedStages::cells_by, crate::specs::RefusedStages::stage_shaped))]
pub fn joint_element(
    run: Run,
    col: &[i32],
    row: &[i32],
    n1: usize,
    n2: usize,
    i: usize,
    j: usize,
    x: &mut [i32],
) -> usize
    requires { Paired col.now row.now n1 n2 i j × Bounded (limit_of run.task) x.old
        × (n1 * n2 ≤ length x.old) }
    ensures { result ≡ name_after run.task (n1 * n2)
        (joint_stage n1 n2 (factor_at col.now n1 i) (factor_at row.now n2 j))
        (taken_by run (n1 * n2) (joint_stage n1 n2 (factor_at col.now n1 i) (factor_at row.now n2 j))
        x.old) }
{
    let q = Refused {
        shape: Shape::Joint,
        n1,
        n2,
        i,
        j,
    };
    element(run, q, col, row, x)
}

// The same of a pass: a factor of n numbers along every one of `many` columns, or rows.
#[tactic(auto, unfolding(crate::specs::RefusedStages::cells_by, crate::specs::RefusedStages::stage_shaped))]
pub fn pass_element(
    columns: bool,
    run: Run,
    sheet: &[i32],
    n: usize,
    many: usize,
    i: usize,
    x: &mut [i32],
) -> usize
    requires { (1 ≤ n) × (n ≤ most_order) × (1 ≤ many) × (many ≤ most_order) × FactorRead sheet.now n i
        × Bounded (limit_of run.task) x.old × (many * n ≤ length x.old) }
    ensures { result ≡ name_after run.task (many * n)
        (pass_stage (lines_by columns many n) (factor_at sheet.now n i))
        (taken_by run (many * n) (pass_stage (lines_by columns many n) (factor_at sheet.now n i)) x.old) }
{
    let q = Refused {
        shape: Shape::Pass { down: columns },
        n1: n,
        n2: many,
        i,
        j: i,
    };
    element(run, q, sheet, sheet, x)
}

// The same of a line: a pass along one row.
pub fn line_element(run: Run, sheet: &[i32], n: usize, i: usize, x: &mut [i32]) -> usize
    requires { (1 ≤ n) × (n ≤ most_order) × FactorRead sheet.now n i × Bounded (limit_of run.task) x.old
        × (n ≤ length x.old) }
    ensures { result ≡ name_after run.task n (line_stage n (factor_at sheet.now n i))
        (taken_by run n (line_stage n (factor_at sheet.now n i)) x.old) }
{
    pass_element(false, run, sheet, n, 1, i, x)
}
