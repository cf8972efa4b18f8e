// A run of one block over a checked sheet: the block lies at the front of an array of 16, 0 behind it.
ghost use Rattle.std.specs.Prelude.{true, ◌≡◌, ◌-◌, ◌≤◌, length};
ghost use Rattle.rules.specs.Numbers.{most_order};
ghost use Rattle.factor.specs.PaddedBlocks.{padded_block};
ghost use Rattle.linerun.specs.Runs.{LineAsks, LineGives, named_in, Refusable};

use crate::fours::run_four;
use crate::runs::{Halted, run_stages};
use factor::block::copy_front;
use factor::bounds::is_inside;
use factor::run::{Place, Run, nth_start};
use offender::input::first_beyond;
use offender::stage::line_element;
use rules::Block;
use sheetread::checked::Checked;

// The lent numbers as a block. For allowances none are lent, and the block is all 0, which is where allowances start.
fn load(x: &[i32]) -> [i32; Block::LINE]
    requires { length x.now ≤ most_order }
    ensures { result ≡ padded_block most_order x.now }
{
    let mut b = [0i32; Block::LINE];
    copy_front(x, &mut b, x.len());
    b
}

// The element that a refusal names. It is looked for only here, where the run is refused, and only if it is asked for.
fn element(named: bool, run: Run, s: &Checked<'_>, halted: Halted) -> usize
    requires { Refusable run s.now.numbers.now halted }
    ensures { named ≡ true → result ≡ named_in run s.now.numbers.now (halted.stage - 1) halted.before }
{
    if !named {
        return 0;
    }
    let i = nth_start(run.task, s, halted.stage - 1);
    let mut b = halted.before;
    line_element(run, s.numbers, s.order(), i, &mut b)
}

// The run of a block: if it is accepted, y has what it gives; if not, y stays.
fn run_any(named: bool, run: Run, s: &Checked<'_>, x: &[i32], y: &mut [i32]) -> Result<(), Place>
    requires { LineAsks run s.now.numbers.now x.now y.old }
    ensures { LineGives named run s.now.numbers.now x.now y.old result y.new }
{
    if !is_inside(x) {
        return Err(Place {
            stage: 0,
            element: first_beyond(x),
        });
    }
    match run_stages(run, s, load(x)) {
        Ok(block) => {
            let n = y.len();
            copy_front(&block, y, n);
            Ok(())
        }
        Err(halted) => Err(Place {
            stage: halted.stage,
            element: element(named, run, s, halted),
        }),
    }
}

// The same; a block of four is taken by itself, for its speed.
pub fn run_block(
    named: bool,
    run: Run,
    s: &Checked<'_>,
    x: &[i32],
    y: &mut [i32],
) -> Result<(), Place>
    requires { LineAsks run s.now.numbers.now x.now y.old }
    ensures { LineGives named run s.now.numbers.now x.now y.old result y.new }
{
    match run_four(run, s, x) {
        Some(block) => {
            copy_front(&block, y, 4);
            Ok(())
        }
        None => run_any(named, run, s, x, y),
    }
}
