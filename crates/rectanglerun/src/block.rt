// A run of one block over two checked sheets that match: the block lies, row by row, at the front of an array of 256, with 0
// behind it.
ghost use Rattle.std.specs.Prelude.{◌≡◌, ◌≤◌, true, pos, length, replicate};
ghost use Rattle.rules.specs.Numbers.{most_cells, bound, count};
ghost use Rattle.rules.specs.Stages.{beyond, inside};
ghost use Rattle.laws.specs.AnswersInTurn.{ran_reply};
ghost use Rattle.factor.specs.Outcomes.{ended_answer};
ghost use Rattle.factor.specs.Tasks.{inputs_of, number_of};
ghost use Rattle.factor.specs.PaddedBlocks.{padded_block};
ghost use Rattle.factor.specs.RunReplies.{GivesAsked};
ghost use Rattle.rectanglerun.specs.Runs.{Matched, size_of, joint_run_by, joint_ran};
ghost use Rattle.factor.specs.StageLoops.{Refused};

use crate::ends::{load, stop_of, store};
use crate::runs::run_stages;
use factor::block::copy_front;
use factor::bounds::is_inside;
use factor::run::{Place, Run, nth_start};
use offender::input::first_beyond;
use offender::stage::joint_element;
use rules::Block;
use sheetread::checked::Checked;

// The element that a refusal at a stage names. It is looked for only here, where the run is refused, and only if it is asked for.
// The rows of the refused stage lie over the block before it, so the stages before it are taken once more, in b, which is all 0.
fn element(
    named: bool,
    run: Run,
    col: &Checked<'_>,
    row: &Checked<'_>,
    x: &[i32],
    stage: usize,
    b: &mut [i32; Block::CELLS],
) -> usize
    requires { Matched col.now.numbers.now row.now.numbers.now
        × (length x.now ≡ inputs_of run.task (size_of col.now.numbers.now row.now.numbers.now))
        × (inside bound (length x.now) x.now ≡ true) × (b.old ≡ replicate most_cells (pos 0))
        × (1 ≤ stage) × (stage ≤ count col.now.numbers.now 1)
        × Refused (joint_run_by run col.now.numbers.now row.now.numbers.now
        (padded_block most_cells x.now)) stage }
    ensures { named ≡ true → joint_run_by run col.now.numbers.now row.now.numbers.now
        (padded_block most_cells x.now) ≡ beyond stage result }
{
    if !named {
        return 0;
    }
    let task = run.task;
    let t = stage - 1;
    copy_front(x, b, x.len());
    // The stages before the refused one are not refused: the run met them before.
    let _ = run_stages(run, col, row, 0, t, b);
    joint_element(
        run,
        col.numbers,
        row.numbers,
        col.order(),
        row.order(),
        nth_start(task, col, t),
        nth_start(task, row, t),
        b,
    )
}

// The run of a block: y has what it gives, or stays where the run is refused. For allowances no numbers are lent: the block is
// all 0, which is where allowances start.
pub fn run_block(
    named: bool,
    run: Run,
    col: &Checked<'_>,
    row: &Checked<'_>,
    x: &[i32],
    y: &mut [i32],
) -> Result<(), Place>
    requires { Matched col.now.numbers.now row.now.numbers.now
        × (length x.now ≡ inputs_of run.task (size_of col.now.numbers.now row.now.numbers.now))
        × (length y.old ≡ size_of col.now.numbers.now row.now.numbers.now) }
    ensures { GivesAsked named (ended_answer (number_of run.task) result) y.new
        (ran_reply (number_of run.task) (joint_ran run col.now.numbers.now row.now.numbers.now x.now)
        y.old) }
{
    if !is_inside(x) {
        return Err(Place {
            stage: 0,
            element: first_beyond(x),
        });
    }
    let mut b = [0i32; Block::CELLS];
    let from = load(run, col, row, x, &mut b);
    let to = stop_of(run.task, col, from);
    if let Err(at) = run_stages(run, col, row, from, to, &mut b) {
        let stage = at.stage;
        b = [0i32; Block::CELLS];
        let element = element(named, run, col, row, x, stage, &mut b);
        return Err(Place { stage, element });
    }
    store(run, col, row, to, &b, y);
    Ok(())
}
