// The rectangle: forward, inverse and allowance runs of a block of n1 rows by n2 numbers over a column sheet and a row sheet. The
// calls ask nothing of their callers: whatever is lent is answered, and a refused call leaves the output as it was.
#![tactic(auto)]

ghost use Rattle.rules.specs.Calls.{Gives, joint, ruled, forward_call, inverse_call, allowance_call};
ghost use Rattle.rules.specs.Results.{answered};
ghost use Rattle.factor.specs.Tasks.{call_by};
ghost use Rattle.factor.specs.CallAnswers.{NoneLent};

use factor::lengths::check_lengths;
use factor::run::{Run, Task, end_of};
use rectanglerun::block::run_block;
use rules::{Refusal, Rule, Sheet};
use sheetcheck::checks::check_pair_starts;
use sheetread::checked::Checked;

// 16, then 1 to 9 and 12, then 10 for the input and for the output; if there is none, the run by that rule.
#[tactic(auto, unfolding(rules::specs::Calls::joint))]
fn call_by(
    task: Task,
    rule: u32,
    col: &[i32],
    row: &[i32],
    x: &[i32],
    y: &mut [i32],
) -> Result<(), Refusal>
    requires { NoneLent task x.now }
    ensures { Gives (answered result) y.new
        (ruled rule (call_by task) (joint col.now row.now) x.now y.old) }
{
    let rule = Rule::try_from(rule)?;
    let mut columns = [0u16; Sheet::FACTORS];
    let mut rows = [0u16; Sheet::FACTORS];
    check_pair_starts(col, row, &mut columns, &mut rows)?;
    let c = Checked {
        numbers: col,
        starts: &columns,
    };
    let r = Checked {
        numbers: row,
        starts: &rows,
    };
    check_lengths(task, c.order() * r.order(), x.len(), y.len())?;
    end_of(task, run_block(true, Run { task, rule }, &c, &r, x, y))
}

// Forward: x through the pairs of factors, first to last, into y.
#[tactic(auto, unfolding(factor::specs::CallAnswers::NoneLent, factor::specs::Tasks::call_by))]
pub fn forward(rule: u32, col: &[i32], row: &[i32], x: &[i32], y: &mut [i32]) -> Result<(), Refusal>
    ensures { Gives (answered result) y.new
        (ruled rule forward_call (joint col.now row.now) x.now y.old) }
{
    call_by(Task::Forward, rule, col, row, x, y)
}

// Inverse: x back through the pairs of factors, last to first, into y.
#[tactic(auto, unfolding(factor::specs::CallAnswers::NoneLent, factor::specs::Tasks::call_by))]
pub fn inverse(rule: u32, col: &[i32], row: &[i32], x: &[i32], y: &mut [i32]) -> Result<(), Refusal>
    ensures { Gives (answered result) y.new
        (ruled rule inverse_call (joint col.now row.now) x.now y.old) }
{
    call_by(Task::Inverse, rule, col, row, x, y)
}

// The allowances of the forward run's coefficients, into y. They start at 0: no numbers are lent.
#[tactic(auto, unfolding(factor::specs::CallAnswers::NoneLent, factor::specs::Tasks::call_by))]
pub fn allowance(rule: u32, col: &[i32], row: &[i32], y: &mut [i32]) -> Result<(), Refusal>
    ensures { Gives (answered result) y.new
        (ruled rule allowance_call (joint col.now row.now) y.old) }
{
    call_by(Task::Allowance, rule, col, row, &col[0..0], y)
}
