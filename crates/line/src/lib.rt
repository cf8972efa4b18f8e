// The line: forward, inverse and allowance runs of a block of n numbers over one sheet, by the rule of a number. The calls ask
// nothing of their callers: whatever is lent is answered, and a refused call leaves the output as it was.
#![tactic(auto)]

ghost use Rattle.std.specs.Prelude.{◌≡◌, length, IfOk};
ghost use Rattle.rules.specs.Numbers.{most_count};
ghost use Rattle.rules.specs.Calls.{Gives, line, rule_of, ruled, forward_call, inverse_call, allowance_call};
ghost use Rattle.rules.specs.Results.{answered};
ghost use Rattle.laws.specs.Accepted.{Accepted};
ghost use Rattle.sheetread.specs.Starts.{Starts};
ghost use Rattle.factor.specs.Tasks.{call_by};
ghost use Rattle.factor.specs.CallAnswers.{NoneLent, checks_of};

use factor::lengths::check_lengths;
use factor::run::{Run, Task, end_of};
use linerun::block::run_block;
use rules::{Refusal, Rule, Sheet};
use sheetcheck::checks::check_starts;
use sheetread::checked::Checked;
use sheetread::factors::count_at;

// 16 for a number that is no rule's, then 1 to 9, then 10 for the input and for the output. If there is none, the rule of that
// number; and the table has where the factors start.
#[tactic(auto, unfolding(rules::specs::Calls::line))]
fn check_call(
    task: Task,
    rule: u32,
    s: &[i32],
    x: usize,
    y: usize,
    starts: &mut [u16; Sheet::FACTORS],
) -> Result<Rule, Refusal>
    requires { length starts.old ≡ most_count }
    ensures { (answered result ≡ checks_of rule task (line s.now) x y)
        × IfOk result (λ r. (rule_of rule ≡ r) × Accepted s.now × Starts s.now starts.new) }
{
    let rule = Rule::try_from(rule)?;
    check_starts(s, starts)?;
    check_lengths(task, count_at(s, 0), x, y)?;
    Ok(rule)
}

// The checks, then the run by that rule. All that may be refused before the run stands in one function, so that the compiler puts
// this one into the calls.
#[tactic(auto, unfolding(rules::specs::Calls::line))]
fn call_by(task: Task, rule: u32, s: &[i32], x: &[i32], y: &mut [i32]) -> Result<(), Refusal>
    requires { NoneLent task x.now }
    ensures { Gives (answered result) y.new (ruled rule (call_by task) (line s.now) x.now
        y.old) }
{
    let mut starts = [0u16; Sheet::FACTORS];
    let rule = check_call(task, rule, s, x.len(), y.len(), &mut starts)?;
    let sheet = Checked {
        numbers: s,
        starts: &starts,
    };
    end_of(task, run_block(true, Run { task, rule }, &sheet, x, y))
}

// Forward: x through the sheet's factors, first to last, into y.
#[tactic(auto, unfolding(factor::specs::CallAnswers::NoneLent, factor::specs::Tasks::call_by))]
pub fn forward(rule: u32, s: &[i32], x: &[i32], y: &mut [i32]) -> Result<(), Refusal>
    ensures { Gives (answered result) y.new (ruled rule forward_call (line s.now) x.now
        y.old) }
{
    call_by(Task::Forward, rule, s, x, y)
}

// Inverse: x back through the sheet's factors, last to first, into y.
#[tactic(auto, unfolding(factor::specs::CallAnswers::NoneLent, factor::specs::Tasks::call_by))]
pub fn inverse(rule: u32, s: &[i32], x: &[i32], y: &mut [i32]) -> Result<(), Refusal>
    ensures { Gives (answered result) y.new (ruled rule inverse_call (line s.now) x.now
        y.old) }
{
    call_by(Task::Inverse, rule, s, x, y)
}

// The allowances of the forward run's coefficients, into y.
#[tactic(auto, unfolding(factor::specs::CallAnswers::NoneLent, factor::specs::Tasks::call_by))]
pub fn allowance(rule: u32, s: &[i32], y: &mut [i32]) -> Result<(), Refusal>
    ensures { Gives (answered result) y.new (ruled rule allowance_call (line s.now) y.old) }
{
    call_by(Task::Allowance, rule, s, &s[0..0], y)
}
