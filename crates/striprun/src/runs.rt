// A strip: its sheets and lengths are checked once, then its blocks are run one after another.
ghost use Rattle.std.specs.Prelude.{◌≡◌, ◌*◌, ◌<◌, length};
ghost use Rattle.rules.specs.Calls.{line, joint, ruled};
ghost use Rattle.rules.specs.Strips.{GivesStrip};
ghost use Rattle.rules.specs.Results.{answered};
ghost use Rattle.striprun.specs.Plans.{plan_of, outputs_by, bytes_by, strip_by, strip_of, TakesBlocks};
ghost use Rattle.striprun.specs.Lengths.{strip_lengths};

use crate::blocks::Sheets;
use factor::lengths::check_length;
use factor::run::{Run, Task};
use rules::{Fault, Refusal, Rule, Sheet, Side};
use sheetcheck::checks::{check_pair_starts, check_starts};
use sheetread::checked::Checked;

// 10: the input is no whole number of blocks of n; then the output, then the bytes.
#[tactic(auto, unfolding(crate::specs::Lengths::strip_lengths))]
fn check_strip(n: usize, x: usize, y: usize, bytes: usize) -> Result<(), Refusal>
    requires { 0 < n }
    ensures { answered result ≡ strip_lengths n x y bytes }
{
    if x % n != 0 {
        return Err(Refusal::new(Fault::Length, Side::First, 0));
    }
    if y != x {
        return Err(Refusal::new(Fault::Length, Side::Second, 0));
    }
    check_length(x / n, bytes)
}

// Every block of n numbers: its part of y is lent on to the single run, and its byte takes the number.
// By places: after a loop over `chunks_exact_mut` a proof knows the length of y, and not its numbers.
fn run_blocks(
    sheets: &Sheets<'_, '_>,
    run: Run,
    n: usize,
    x: &[i32],
    y: &mut [i32],
    bytes: &mut [u8],
)
    requires { TakesBlocks run.task
        × ((plan_of sheets.now).sheets.number ≡ 0)
        × (n ≡ (plan_of sheets.now).size)
        × (length x.now ≡ length bytes.old * n)
        × (length y.old ≡ length bytes.old * n) }
    ensures { (y.new ≡ outputs_by sheets.now run (length bytes.old) x.now y.old)
        × (bytes.new ≡ bytes_by sheets.now run (length bytes.old) x.now y.old) }
{
    for k in 0..bytes.len() {
        let o = k * n;
        let e = o + n;
        bytes[k] = sheets.run_block(run, &x[o..e], &mut y[o..e]);
    }
}

// 10 of sheets that have no fault; else all blocks.
fn run_strip(
    sheets: &Sheets<'_, '_>,
    run: Run,
    x: &[i32],
    y: &mut [i32],
    bytes: &mut [u8],
) -> Result<(), Refusal>
    requires { TakesBlocks run.task × ((plan_of sheets.now).sheets.number ≡ 0) }
    ensures { GivesStrip (answered result) y.new bytes.new
        (strip_by sheets.now run x.now y.old bytes.old) }
{
    let n = sheets.size();
    check_strip(n, x.len(), y.len(), bytes.len())?;
    run_blocks(sheets, run, n, x, y, bytes);
    Ok(())
}

// A strip of lines: 16 for a number that is no rule's, then "1 to 9", then the strip by that rule.
#[tactic(auto, unfolding(crate::specs::Plans::plan_of))]
pub fn line_by(
    task: Task,
    rule: u32,
    s: &[i32],
    x: &[i32],
    y: &mut [i32],
    bytes: &mut [u8],
) -> Result<(), Refusal>
    requires { TakesBlocks task }
    ensures { GivesStrip (answered result) y.new bytes.new
        (ruled rule (strip_of task) (line s.now) x.now y.old bytes.old) }
{
    let rule = Rule::try_from(rule)?;
    let mut starts = [0u16; Sheet::FACTORS];
    check_starts(s, &mut starts)?;
    let sheets = Sheets::Line(Checked {
        numbers: s,
        starts: &starts,
    });
    run_strip(&sheets, Run { task, rule }, x, y, bytes)
}

// The same of rectangles: "12" comes after the faults of both sheets.
#[tactic(auto, unfolding(crate::specs::Plans::plan_of))]
pub fn joint_by(
    task: Task,
    rule: u32,
    col: &[i32],
    row: &[i32],
    x: &[i32],
    y: &mut [i32],
    bytes: &mut [u8],
) -> Result<(), Refusal>
    requires { TakesBlocks task }
    ensures { GivesStrip (answered result) y.new bytes.new
        (ruled rule (strip_of task) (joint col.now row.now) x.now y.old bytes.old) }
{
    let rule = Rule::try_from(rule)?;
    let mut columns = [0u16; Sheet::FACTORS];
    let mut rows = [0u16; Sheet::FACTORS];
    check_pair_starts(col, row, &mut columns, &mut rows)?;
    let sheets = Sheets::Joint(
        Checked {
            numbers: col,
            starts: &columns,
        },
        Checked {
            numbers: row,
            starts: &rows,
        },
    );
    run_strip(&sheets, Run { task, rule }, x, y, bytes)
}
