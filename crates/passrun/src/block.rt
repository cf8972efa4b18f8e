// A run of one block through one pass, or through two.
ghost use Rattle.std.specs.Prelude.{◌≡◌, ◌*◌, ◌≤◌, ◌<◌, pos, length, replicate, take};
ghost use Rattle.rules.specs.Numbers.{most_order, most_cells, count};
ghost use Rattle.rules.specs.Factors.{factor_at};
ghost use Rattle.rules.specs.Stages.{beyond};
ghost use Rattle.rules.specs.Shapes.{pass_stage};
ghost use Rattle.laws.specs.Accepted.{FactorRead};
ghost use Rattle.factor.specs.Outcomes.{outcome_of};
ghost use Rattle.factor.specs.SumBounds.{Bounded};
ghost use Rattle.factor.specs.PassLines.{lines_by};
ghost use Rattle.factor.specs.Tasks.{limit_of, taken_by, name_after};
ghost use Rattle.passrun.specs.Laid.{laid};
ghost use Rattle.passrun.specs.BlockRuns.{size_by, Lent, LaidIn, ReadOff, named_in_pass, PassAsks, OneDone, TurnedDone};
ghost use Rattle.passrun.specs.EndLaws.{PairAsks, pair_run, PairRefused, TwoEnded};
ghost use Rattle.passrun.specs.BlockRuns.{OneAsks, OneGives, TwoAsks, TwoGives};

use crate::layout::{close_rows, copy_lines, turn};
use crate::passes::run_pass;
use factor::bounds::is_inside;
use factor::run::{Place, Run, Stopped, nth_start};
use offender::input::first_beyond;
use offender::stage::pass_element;
use rules::Block;
use sheetread::checked::Checked;

// The lent numbers into a block of zeros, the lines side by side: `many` columns of `long` numbers, or rows. Allowances lend
// none.
fn lay(columns: bool, many: usize, long: usize, x: &[i32], b: &mut [i32; Block::CELLS])
    requires { (many ≤ most_order) × (long ≤ most_order) × Lent x.now (size_by columns many long)
        × (b.old ≡ replicate most_cells (pos 0)) }
    ensures { LaidIn columns many long x.now b.new }
{
    if x.len() == 0 {
        return;
    }
    if columns {
        copy_lines(x, many, 1, b, Block::LINE, 1, many, long);
        return;
    }
    copy_lines(x, 1, long, b, Block::LINE, 1, many, long);
}

// The lines of a block into the output, in reading order.
fn store(columns: bool, many: usize, long: usize, b: &[i32; Block::CELLS], y: &mut [i32])
    requires { (many ≤ most_order) × (long ≤ most_order) × (length b.now ≡ most_cells)
        × (length y.old ≡ size_by columns many long) }
    ensures { y.new ≡ laid (size_by columns many long) (lines_by columns many long) b.now }
{
    if columns {
        copy_lines(b, Block::LINE, 1, y, many, 1, many, long);
        return;
    }
    copy_lines(b, Block::LINE, 1, y, 1, long, many, long);
}

// A block in reading order at the front, where its lines lay side by side.
fn read_off(columns: bool, many: usize, long: usize, b: &mut [i32; Block::CELLS])
    requires { (many ≤ most_order) × (long ≤ most_order) × (length b.old ≡ most_cells) }
    ensures { ReadOff columns many long b.old b.new }
{
    if columns {
        close_rows(long, many, b);
        return;
    }
    turn(many, long, b);
    close_rows(many, long, b);
}

// The element that a stage names, of the numbers at the front of a slice.
fn first_named(
    columns: bool,
    run: Run,
    sheet: &[i32],
    n: usize,
    many: usize,
    i: usize,
    x: &mut [i32],
) -> usize
    requires { (1 ≤ n) × (n ≤ most_order) × (1 ≤ many) × (many ≤ most_order) × FactorRead sheet.now n i
        × Bounded (limit_of run.task) x.old × (length x.old ≡ most_cells) }
    ensures { result ≡ name_after run.task (many * n)
        (pass_stage (lines_by columns many n) (factor_at sheet.now n i))
        (taken_by run (many * n) (pass_stage (lines_by columns many n) (factor_at sheet.now n i))
        (take (many * n) x.old)) }
{
    let k = many * n;
    pass_element(columns, run, sheet, n, many, i, &mut x[..k])
}

// The element that a refusal in turn t of a pass names; b is the block before that stage, its lines side by side. It is used up.
fn element_in_pass(
    columns: bool,
    run: Run,
    sheet: &Checked<'_>,
    many: usize,
    t: usize,
    b: &mut [i32; Block::CELLS],
) -> usize
    requires { (1 ≤ many) × (many ≤ most_order) × (t < count sheet.now.numbers.now 1)
        × Bounded (limit_of run.task) b.old × (length b.old ≡ most_cells) }
    ensures { result ≡ named_in_pass columns run sheet.now.numbers.now many t b.old }
{
    let n = sheet.order();
    let i = nth_start(run.task, sheet, t);
    read_off(columns, many, n, b);
    first_named(columns, run, sheet.numbers, n, many, i, b)
}

// The first `to` stages of a pass, over the lent numbers in a block of zeros.
fn run_one_pass(
    columns: bool,
    run: Run,
    sheet: &Checked<'_>,
    many: usize,
    x: &[i32],
    to: usize,
    b: &mut [i32; Block::CELLS],
) -> Result<(), Stopped>
    requires { PassAsks columns run sheet.now.numbers.now many x.now × (to ≤ count sheet.now.numbers.now 1)
        × (b.old ≡ replicate most_cells (pos 0)) }
    ensures { OneDone columns run sheet.now.numbers.now many x.now to (outcome_of result) b.new }
{
    lay(columns, many, sheet.order(), x, b);
    run_pass(run, sheet, many, to, b)
}

// A block's pass. If it is accepted, y has what it gives; if not, y stays. The refused stage lies over the block before it, so the
// stages before it, which pass, are taken once more.
pub fn run_one(
    columns: bool,
    run: Run,
    sheet: &Checked<'_>,
    many: usize,
    x: &[i32],
    y: &mut [i32],
) -> Result<(), Place>
    requires { OneAsks columns run sheet.now.numbers.now many x.now y.old }
    ensures { OneGives columns run sheet.now.numbers.now many x.now y.old result y.new }
{
    if !is_inside(x) {
        return Err(Place {
            stage: 0,
            element: first_beyond(x),
        });
    }
    let mut b = [0i32; Block::CELLS];
    let all = sheet.many();
    if let Err(Stopped { stage }) = run_one_pass(columns, run, sheet, many, x, all, &mut b) {
        b = [0i32; Block::CELLS];
        let _ = run_one_pass(columns, run, sheet, many, x, stage - 1, &mut b);
        return Err(Place {
            stage,
            element: element_in_pass(columns, run, sheet, many, stage - 1, &mut b),
        });
    }
    store(columns, many, sheet.order(), &b, y);
    Ok(())
}

// The first `to` stages of a second pass, along w lines. Rows and columns change places first, so that its lines lie side by
// side.
fn run_turned(
    run: Run,
    sheet: &Checked<'_>,
    w: usize,
    to: usize,
    b: &mut [i32; Block::CELLS],
) -> Result<(), Stopped>
    requires { (w ≤ most_order) × (to ≤ count sheet.now.numbers.now 1)
        × Bounded (limit_of run.task) b.old × (length b.old ≡ most_cells) }
    ensures { TurnedDone run sheet.now.numbers.now w to b.old (outcome_of result) b.new }
{
    turn(sheet.order(), w, b);
    run_pass(run, sheet, w, to, b)
}

// A block of zeros through two passes.
fn run_two_passes(
    columns: bool,
    run: Run,
    first: &Checked<'_>,
    second: &Checked<'_>,
    x: &[i32],
    b: &mut [i32; Block::CELLS],
) -> Result<(), Stopped>
    requires { PairAsks columns run first.now.numbers.now second.now.numbers.now x.now
        × (b.old ≡ replicate most_cells (pos 0)) }
    ensures { TwoEnded columns run first.now.numbers.now second.now.numbers.now x.now
        (outcome_of result) b.new }
{
    let k = first.many();
    run_one_pass(columns, run, first, second.order(), x, k, b)?;
    run_turned(run, second, first.order(), second.many(), b).map_err(|s| Stopped {
        stage: k + s.stage,
    })
}

// The element that a refusal at a stage of them names: the stages before it, which pass, are taken once more.
fn element_of_two(
    columns: bool,
    run: Run,
    first: &Checked<'_>,
    second: &Checked<'_>,
    x: &[i32],
    stage: usize,
    b: &mut [i32; Block::CELLS],
) -> usize
    requires { PairAsks columns run first.now.numbers.now second.now.numbers.now x.now
        × (b.old ≡ replicate most_cells (pos 0))
        × PairRefused columns run first.now.numbers.now second.now.numbers.now x.now stage }
    ensures { pair_run columns run first.now.numbers.now second.now.numbers.now x.now
        ≡ beyond stage result }
{
    let n = first.order();
    let m = second.order();
    let k = first.many();
    let t = stage - 1;
    let _ = run_one_pass(columns, run, first, m, x, t.min(k), b);
    if t < k {
        return element_in_pass(columns, run, first, m, t, b);
    }
    let _ = run_turned(run, second, n, t - k, b);
    element_in_pass(!columns, run, second, n, t - k, b)
}

// The same of two passes: the lines of the first are columns or rows, those of the second the others.
pub fn run_two(
    columns: bool,
    run: Run,
    first: &Checked<'_>,
    second: &Checked<'_>,
    x: &[i32],
    y: &mut [i32],
) -> Result<(), Place>
    requires { TwoAsks columns run first.now.numbers.now second.now.numbers.now x.now y.old }
    ensures { TwoGives columns run first.now.numbers.now second.now.numbers.now x.now
        y.old result y.new }
{
    if !is_inside(x) {
        return Err(Place {
            stage: 0,
            element: first_beyond(x),
        });
    }
    let mut b = [0i32; Block::CELLS];
    if let Err(Stopped { stage }) = run_two_passes(columns, run, first, second, x, &mut b) {
        b = [0i32; Block::CELLS];
        return Err(Place {
            stage,
            element: element_of_two(columns, run, first, second, x, stage, &mut b),
        });
    }
    store(!columns, first.order(), second.order(), &b, y);
    Ok(())
}
