// Pairs of factors of two checked sheets that match, one after another, in place on one block.
ghost use Rattle.std.specs.Prelude.{◌≡◌, ◌≤◌, length};
ghost use Rattle.rules.specs.Numbers.{most_cells, count};
ghost use Rattle.factor.specs.SumBounds.{Bounded};
ghost use Rattle.factor.specs.Outcomes.{outcome_of};
ghost use Rattle.factor.specs.Tasks.{limit_of};
ghost use Rattle.rectanglerun.specs.Runs.{Matched};
ghost use Rattle.rectanglerun.specs.Turns.{ProgressAt};

use crate::stages::run_stage;
use factor::run::{Run, Stopped, nth_start};
use rules::Block;
use sheetread::checked::Checked;

// The stages from turn from up to turn to, first to last, or, for an inverse run, last to first: the block after them, or the
// stage that is refused.
pub fn run_stages(
    run: Run,
    col: &Checked<'_>,
    row: &Checked<'_>,
    from: usize,
    to: usize,
    x: &mut [i32; Block::CELLS],
) -> Result<(), Stopped>
    requires { Matched col.now.numbers.now row.now.numbers.now × (from ≤ to)
        × (to ≤ count col.now.numbers.now 1) × Bounded (limit_of run.task) x.old
        × (length x.old ≡ most_cells) }
    ensures { ProgressAt run col.now.numbers.now row.now.numbers.now from to x.old (outcome_of result) x.new
        × (length x.new ≡ most_cells) }
{
    let task = run.task;
    let n1 = col.order();
    let n2 = row.order();
    for t in from..to {
        let i = nth_start(task, col, t);
        let j = nth_start(task, row, t);
        if run_stage(run, col.numbers, row.numbers, n1, n2, i, j, x).is_err() {
            return Err(Stopped { stage: t + 1 });
        }
    }
    Ok(())
}
