// One pass: the factors of a checked sheet, one after another, along the lines of a block.
ghost use Rattle.std.specs.Prelude.{◌≡◌, ◌≤◌, length};
ghost use Rattle.rules.specs.Numbers.{most_order, most_cells, count};
ghost use Rattle.factor.specs.Outcomes.{outcome_of};
ghost use Rattle.factor.specs.SumBounds.{Bounded};
ghost use Rattle.factor.specs.Tasks.{limit_of};
ghost use Rattle.passrun.specs.PassRuns.{PassDone};

use factor::run::{Run, Stopped, nth_start};
use passstage::stage::run_stage;
use rules::Block;
use sheetread::checked::Checked;

// The first `to` stages, along w lines that lie side by side: first to last, or, for an inverse run, last to first.
pub fn run_pass(
    run: Run,
    sheet: &Checked<'_>,
    w: usize,
    to: usize,
    x: &mut [i32; Block::CELLS],
) -> Result<(), Stopped>
    requires { (w ≤ most_order) × (to ≤ count sheet.now.numbers.now 1)
        × Bounded (limit_of run.task) x.old × (length x.old ≡ most_cells) }
    ensures { PassDone run sheet.now.numbers.now w to x.old (outcome_of result) x.new }
{
    let n = sheet.order();
    for t in 0..to {
        let i = nth_start(run.task, sheet, t);
        run_stage(run, sheet.numbers, n, i, w, x).map_err(|_| Stopped { stage: t + 1 })?;
    }
    Ok(())
}
