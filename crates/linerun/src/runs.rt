// All factors of a checked sheet, one after another.
ghost use Rattle.factor.specs.SumBounds.{Bounded};
ghost use Rattle.factor.specs.Tasks.{limit_of};
ghost use Rattle.linerun.specs.Runs.{RunEnded};

use crate::stages::run_stage;
use factor::run::{Run, nth_start};
use rules::Block;
use sheetread::checked::Checked;

// The stage that is refused, counted from where the run began, and the block before it.
#[derive(Clone, Copy)]
pub struct Halted {
    pub stage: usize,
    pub before: [i32; Block::LINE],
}

// The block after the last stage: first to last, or, for an inverse run, last to first.
pub fn run_stages(
    run: Run,
    sheet: &Checked<'_>,
    x: [i32; Block::LINE],
) -> Result<[i32; Block::LINE], Halted>
    requires { Bounded (limit_of run.task) x }
    ensures { RunEnded run sheet.now.numbers.now x result }
{
    let n = sheet.order();
    let mut v = x;
    for t in 0..sheet.many() {
        let i = nth_start(run.task, sheet, t);
        let s = run_stage(run, sheet.numbers, n, i, v);
        let Ok(()) = s.end else {
            return Err(Halted {
                stage: t + 1,
                before: v,
            });
        };
        v = s.block;
    }
    Ok(v)
}
