// Two passes over a rectangle of n1 rows by n2 numbers: a column sheet down each column, then a row sheet along each row. And one
// pass alone. The calls ask nothing of their callers: whatever is lent is answered, and a refused call leaves the output as it
// was.
#![tactic(auto)]

ghost use Rattle.std.specs.Prelude.{◌≡◌, length, OnOk};
ghost use Rattle.rules.specs.Numbers.{most_count};
ghost use Rattle.rules.specs.Calls.{Gives, two_pass, order_checked, column_pass, row_pass};
ghost use Rattle.rules.specs.Calls.{ruled, forward_call, inverse_call, allowance_call};
ghost use Rattle.rules.specs.Results.{answered};
ghost use Rattle.laws.specs.Accepted.{Accepted};
ghost use Rattle.sheetread.specs.Starts.{Starts};
ghost use Rattle.factor.specs.Tasks.{is_inverse, call_by};
ghost use Rattle.factor.specs.CallAnswers.{NoneLent};
ghost use Rattle.passrun.specs.BlockRuns.{other};
ghost use Rattle.twopass.specs.Plans.{two_by, one_by};

use factor::lengths::check_lengths;
use factor::run::{Run, Task, end_of};
use passrun::block::{run_one, run_two};
use rules::{Block, Fault, Refusal, Rule, Sheet, Side};
use sheetcheck::checks::{check_starts, check_two_starts};
use sheetread::checked::Checked;

// 1 to 9: the column sheet's, then the row sheet's, of which that whose pass comes first is given first. If there is none, the
// tables have where the factors start.
#[tactic(auto, unfolding(crate::specs::Plans::two_by, rules::specs::Calls::two_pass))]
fn check_in_order(
    columns: bool,
    first: &[i32],
    second: &[i32],
    firsts: &mut [u16; Sheet::FACTORS],
    seconds: &mut [u16; Sheet::FACTORS],
) -> Result<(), Refusal>
    requires { (length firsts.old ≡ most_count) × (length seconds.old ≡ most_count) }
    ensures { (answered result ≡ (two_by columns first.now second.now).sheets)
        × OnOk result (Accepted first.now × Starts first.now firsts.new × Accepted second.now
        × Starts second.now seconds.new) }
{
    if columns {
        check_two_starts(first, second, firsts, seconds)
    } else {
        check_two_starts(second, first, seconds, firsts)
    }
}

// 16, then 1 to 9, then 10 for the input and for the output; then the run by that rule. Rows are undone first.
fn call_two(
    columns: bool,
    task: Task,
    rule: u32,
    first: &[i32],
    second: &[i32],
    x: &[i32],
    y: &mut [i32],
) -> Result<(), Refusal>
    requires { (columns ≡ other (is_inverse task)) × NoneLent task x.now }
    ensures { Gives (answered result) y.new
        (ruled rule (call_by task) (two_by columns first.now second.now) x.now
        y.old) }
{
    let rule = Rule::try_from(rule)?;
    let mut firsts = [0u16; Sheet::FACTORS];
    let mut seconds = [0u16; Sheet::FACTORS];
    check_in_order(columns, first, second, &mut firsts, &mut seconds)?;
    let first = Checked {
        numbers: first,
        starts: &firsts,
    };
    let second = Checked {
        numbers: second,
        starts: &seconds,
    };
    check_lengths(task, first.order() * second.order(), x.len(), y.len())?;
    end_of(
        task,
        run_two(columns, Run { task, rule }, &first, &second, x, y),
    )
}

// Forward: x down the columns, then along the rows, into y.
#[tactic(auto, unfolding(passrun::specs::BlockRuns::other, factor::specs::Tasks::is_inverse, factor::specs::CallAnswers::NoneLent, factor::specs::Tasks::call_by, crate::specs::Plans::two_by))]
pub fn forward(rule: u32, col: &[i32], row: &[i32], x: &[i32], y: &mut [i32]) -> Result<(), Refusal>
    ensures { Gives (answered result) y.new
        (ruled rule forward_call (two_pass col.now row.now) x.now y.old) }
{
    call_two(true, Task::Forward, rule, col, row, x, y)
}

// Inverse: x back along the rows, then up the columns, into y.
#[tactic(auto, unfolding(passrun::specs::BlockRuns::other, factor::specs::Tasks::is_inverse, factor::specs::CallAnswers::NoneLent, factor::specs::Tasks::call_by, crate::specs::Plans::two_by))]
pub fn inverse(rule: u32, col: &[i32], row: &[i32], x: &[i32], y: &mut [i32]) -> Result<(), Refusal>
    ensures { Gives (answered result) y.new
        (ruled rule inverse_call (two_pass col.now row.now) x.now y.old) }
{
    call_two(false, Task::Inverse, rule, row, col, x, y)
}

// The allowances of the forward run's coefficients, into y. They start at 0: no numbers are lent.
#[tactic(auto, unfolding(passrun::specs::BlockRuns::other, factor::specs::Tasks::is_inverse, factor::specs::CallAnswers::NoneLent, factor::specs::Tasks::call_by, crate::specs::Plans::two_by))]
pub fn allowance(rule: u32, col: &[i32], row: &[i32], y: &mut [i32]) -> Result<(), Refusal>
    ensures { Gives (answered result) y.new
        (ruled rule allowance_call (two_pass col.now row.now) y.old) }
{
    call_two(true, Task::Allowance, rule, col, row, &col[0..0], y)
}

// 2: the other order is not 1 to 16.
fn check_order(other: u32) -> Result<(), Refusal>
    ensures { answered result ≡ order_checked other }
{
    if other < 1 || other as usize > Block::LINE {
        return Err(Refusal::new(Fault::Order, Side::First, 0));
    }
    Ok(())
}

// 16, then 1 to 9, then 2 for the other order, then 10 for the input and for the output: the same for columns and for rows. Then
// the pass by that rule, down the columns or along the rows.
fn call_one(
    columns: bool,
    task: Task,
    rule: u32,
    sheet: &[i32],
    other: u32,
    x: &[i32],
    y: &mut [i32],
) -> Result<(), Refusal>
    requires { NoneLent task x.now }
    ensures { Gives (answered result) y.new
        (ruled rule (call_by task) (one_by columns sheet.now other) x.now y.old) }
{
    let rule = Rule::try_from(rule)?;
    let mut starts = [0u16; Sheet::FACTORS];
    check_starts(sheet, &mut starts)?;
    check_order(other)?;
    let sheet = Checked {
        numbers: sheet,
        starts: &starts,
    };
    let many = other as usize;
    check_lengths(task, sheet.order() * many, x.len(), y.len())?;
    end_of(
        task,
        run_one(columns, Run { task, rule }, &sheet, many, x, y),
    )
}

// The column pass alone, of `other` columns.
#[tactic(auto, unfolding(factor::specs::CallAnswers::NoneLent, factor::specs::Tasks::call_by, crate::specs::Plans::one_by))]
pub fn column_forward(
    rule: u32,
    sheet: &[i32],
    other: u32,
    x: &[i32],
    y: &mut [i32],
) -> Result<(), Refusal>
    ensures { Gives (answered result) y.new
        (ruled rule forward_call (column_pass sheet.now other) x.now y.old) }
{
    call_one(true, Task::Forward, rule, sheet, other, x, y)
}

// The same back.
#[tactic(auto, unfolding(factor::specs::CallAnswers::NoneLent, factor::specs::Tasks::call_by, crate::specs::Plans::one_by))]
pub fn column_inverse(
    rule: u32,
    sheet: &[i32],
    other: u32,
    x: &[i32],
    y: &mut [i32],
) -> Result<(), Refusal>
    ensures { Gives (answered result) y.new
        (ruled rule inverse_call (column_pass sheet.now other) x.now y.old) }
{
    call_one(true, Task::Inverse, rule, sheet, other, x, y)
}

// The row pass alone, of `other` rows.
#[tactic(auto, unfolding(factor::specs::CallAnswers::NoneLent, factor::specs::Tasks::call_by, crate::specs::Plans::one_by))]
pub fn row_forward(
    rule: u32,
    sheet: &[i32],
    other: u32,
    x: &[i32],
    y: &mut [i32],
) -> Result<(), Refusal>
    ensures { Gives (answered result) y.new
        (ruled rule forward_call (row_pass sheet.now other) x.now y.old) }
{
    call_one(false, Task::Forward, rule, sheet, other, x, y)
}

// The same back.
#[tactic(auto, unfolding(factor::specs::CallAnswers::NoneLent, factor::specs::Tasks::call_by, crate::specs::Plans::one_by))]
pub fn row_inverse(
    rule: u32,
    sheet: &[i32],
    other: u32,
    x: &[i32],
    y: &mut [i32],
) -> Result<(), Refusal>
    ensures { Gives (answered result) y.new
        (ruled rule inverse_call (row_pass sheet.now other) x.now y.old) }
{
    call_one(false, Task::Inverse, rule, sheet, other, x, y)
}
