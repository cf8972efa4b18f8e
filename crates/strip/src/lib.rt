// Whole strips: blocks laid end to end, an output of the same length, one byte for each block. The calls ask nothing of their
// callers: whatever is lent is answered, and a refused strip leaves output and bytes as they were.
#![tactic(auto)]

ghost use Rattle.rules.specs.Calls.{line, joint, ruled};
ghost use Rattle.rules.specs.Results.{answered};
ghost use Rattle.rules.specs.Strips.{GivesStrip, forward_strip, inverse_strip};

use factor::run::Task;
use rules::Refusal;
use striprun::runs::{joint_by, line_by};

// Each block of x through the sheet's factors, into its part of y.
#[tactic(auto, unfolding(striprun::specs::Plans::TakesBlocks, factor::specs::Tasks::call_by))]
pub fn line_forward(
    rule: u32,
    s: &[i32],
    x: &[i32],
    y: &mut [i32],
    bytes: &mut [u8],
) -> Result<(), Refusal>
    ensures { GivesStrip (answered result) y.new bytes.new
        (ruled rule forward_strip (line s.now) x.now y.old bytes.old) }
{
    line_by(Task::Forward, rule, s, x, y, bytes)
}

// Each block of x back through the sheet's factors.
#[tactic(auto, unfolding(striprun::specs::Plans::TakesBlocks, factor::specs::Tasks::call_by))]
pub fn line_inverse(
    rule: u32,
    s: &[i32],
    x: &[i32],
    y: &mut [i32],
    bytes: &mut [u8],
) -> Result<(), Refusal>
    ensures { GivesStrip (answered result) y.new bytes.new
        (ruled rule inverse_strip (line s.now) x.now y.old bytes.old) }
{
    line_by(Task::Inverse, rule, s, x, y, bytes)
}

// Each rectangle of x through the pairs of factors.
#[tactic(auto, unfolding(striprun::specs::Plans::TakesBlocks, factor::specs::Tasks::call_by))]
pub fn joint_forward(
    rule: u32,
    col: &[i32],
    row: &[i32],
    x: &[i32],
    y: &mut [i32],
    bytes: &mut [u8],
) -> Result<(), Refusal>
    ensures { GivesStrip (answered result) y.new bytes.new
        (ruled rule forward_strip (joint col.now row.now)
        x.now y.old bytes.old) }
{
    joint_by(Task::Forward, rule, col, row, x, y, bytes)
}

// Each rectangle of x back through the pairs of factors.
#[tactic(auto, unfolding(striprun::specs::Plans::TakesBlocks, factor::specs::Tasks::call_by))]
pub fn joint_inverse(
    rule: u32,
    col: &[i32],
    row: &[i32],
    x: &[i32],
    y: &mut [i32],
    bytes: &mut [u8],
) -> Result<(), Refusal>
    ensures { GivesStrip (answered result) y.new bytes.new
        (ruled rule inverse_strip (joint col.now row.now)
        x.now y.old bytes.old) }
{
    joint_by(Task::Inverse, rule, col, row, x, y, bytes)
}
