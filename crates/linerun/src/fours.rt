// Blocks of four, the most common order. Only an accepted run of numbers ends here: where the answer is no, the run of any order
// says what is refused, and where. Nor does a run whose halves go to the even number: the stages of four are compiled without it.
ghost use Rattle.std.specs.Prelude.{true, false, ◌≢◌, ◌≡◌, length, IfSome};
ghost use Rattle.rules.specs.Numbers.{bound, count};
ghost use Rattle.rules.specs.Stages.{done};
ghost use Rattle.factor.specs.SumBounds.{Bounded};
ghost use Rattle.factor.specs.Rounding.{to_evens};
ghost use Rattle.factor.specs.Tasks.{inputs_of, ran, run_by};
ghost use Rattle.linerun.specs.Runs.{line_stages_of};

use factor::bounds::is_inside;
use factor::run::{Run, Task, is_down, is_even, is_inverse, nth_start};
use sheetread::checked::Checked;

// Whether it is a run of four numbers.
fn is_four(task: Task, n: usize) -> bool
    ensures { result ≡ true → (n ≡ 4) × (task ≢ Task.Allowance) }
{
    match task {
        Task::Forward | Task::Inverse => n == 4,
        Task::Allowance => false,
    }
}

// The lent numbers as a block.
fn load_four(x: &[i32]) -> [i32; 4]
    requires { length x.now ≡ 4 }
    ensures { result ≡ x.now }
{
    [x[0], x[1], x[2], x[3]]
}

// All stages, by a rule whose first test is enough.
fn run_stages_of_four(run: Run, sheet: &Checked<'_>, x: [i32; 4]) -> Option<[i32; 4]>
    requires { (count sheet.now.numbers.now 0 ≡ 4) × (run.task ≢ Task.Allowance)
        × (to_evens run.rule ≡ false) × Bounded bound x }
    ensures { IfSome result (λ v. run_by run (count sheet.now.numbers.now 0)
        (line_stages_of sheet.now.numbers.now) x ≡ done v) }
{
    let down = is_down(run.rule);
    let back = is_inverse(run.task);
    let mut v = x;
    for t in 0..sheet.many() {
        let i = nth_start(run.task, sheet, t);
        v = four::run_stage(back, down, false, sheet.numbers, i, v)?;
    }
    Some(v)
}

// The run of the lent numbers, if it is one of four and accepted, and its halves do not go to the even number.
pub fn run_four(run: Run, sheet: &Checked<'_>, x: &[i32]) -> Option<[i32; 4]>
    requires { length x.now ≡ inputs_of run.task (count sheet.now.numbers.now 0) }
    ensures { IfSome result (λ v. (count sheet.now.numbers.now 0 ≡ 4)
        × (ran run (count sheet.now.numbers.now 0) (line_stages_of sheet.now.numbers.now) x.now
        ≡ done v)) }
{
    if !is_four(run.task, sheet.order()) || is_even(run.rule) {
        return None;
    }
    let v = load_four(x);
    if !is_inside(&v) {
        return None;
    }
    run_stages_of_four(run, sheet, v)
}
