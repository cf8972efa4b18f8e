// A block between the lent slices and its stages. A pair of permutations that comes first is made with the copy in, one that
// comes last with the copy out.
ghost use Rattle.std.specs.Prelude.{true, ◌≡◌, ◌≤◌, ◌<◌, pos, length, replicate};
ghost use Rattle.rules.specs.Numbers.{most_cells, bound, count};
ghost use Rattle.rules.specs.Stages.{inside};
ghost use Rattle.factor.specs.Tasks.{inputs_of};
ghost use Rattle.rectanglerun.specs.Runs.{Matched, size_of};
ghost use Rattle.rectanglerun.specs.Turns.{moves_in_turn, MovedInTurn, Loaded, StopsAt, Stored};

use factor::block::copy_front;
use factor::run::{Run, Task, nth_start};
use factor::{is_move, layout_at};
use pairmoves::move_into;
use rules::Block;
use sheetread::checked::Checked;

// Whether the factor in turn t is a permutation.
#[tactic(auto, unfolding(factor::specs::Layouts::layout_at, factor::specs::Layouts::layout_by))]
fn is_moving(task: Task, sheet: &Checked<'_>, t: usize) -> bool
    requires { t < count sheet.now.numbers.now 1 }
    ensures { result ≡ moves_in_turn sheet.now.numbers.now task t }
{
    is_move(layout_at(sheet.numbers, sheet.order(), nth_start(task, sheet, t)))
}

// The pair of permutations in turn t, from one slice to the front of another. Places follow the kind number.
fn move_in_turn(
    run: Run,
    col: &Checked<'_>,
    row: &Checked<'_>,
    t: usize,
    old: &[i32],
    x: &mut [i32],
)
    requires { Matched col.now.numbers.now row.now.numbers.now × (t < count col.now.numbers.now 1)
        × (moves_in_turn col.now.numbers.now run.task t ≡ true)
        × (size_of col.now.numbers.now row.now.numbers.now ≤ length old.now)
        × (size_of col.now.numbers.now row.now.numbers.now ≤ length x.old) }
    ensures { MovedInTurn run.task col.now.numbers.now row.now.numbers.now t old.now x.old
        x.new }
{
    let task = run.task;
    let i = nth_start(task, col, t);
    let j = nth_start(task, row, t);
    move_into(
        col.numbers,
        i + 1,
        col.order(),
        row.numbers,
        j + 1,
        row.order(),
        task,
        old,
        x,
    );
}

// The lent numbers into a block of zeros, and how many stages that made. Allowances lend no numbers.
pub fn load(
    run: Run,
    col: &Checked<'_>,
    row: &Checked<'_>,
    x: &[i32],
    b: &mut [i32; Block::CELLS],
) -> usize
    requires { Matched col.now.numbers.now row.now.numbers.now
        × (length x.now ≡ inputs_of run.task (size_of col.now.numbers.now row.now.numbers.now))
        × (inside bound (length x.now) x.now ≡ true) × (b.old ≡ replicate most_cells (pos 0)) }
    ensures { Loaded run col.now.numbers.now row.now.numbers.now x.now result b.new }
{
    if !x.is_empty() && is_moving(run.task, col, 0) {
        move_in_turn(run, col, row, 0, x, b);
        return 1;
    }
    copy_front(x, b, x.len());
    0
}

// Where the loop over the stages is to end, which begins at from: before the last one, if that is a pair of permutations.
pub fn stop_of(task: Task, col: &Checked<'_>, from: usize) -> usize
    requires { from ≤ count col.now.numbers.now 1 }
    ensures { StopsAt col.now.numbers.now task from result }
{
    let many = col.many();
    if from < many && is_moving(task, col, many - 1) {
        return many - 1;
    }
    many
}

// The block after t stages into the output, with the stage that is left, if there is one.
pub fn store(
    run: Run,
    col: &Checked<'_>,
    row: &Checked<'_>,
    t: usize,
    b: &[i32; Block::CELLS],
    y: &mut [i32],
)
    requires { Matched col.now.numbers.now row.now.numbers.now × StopsAt col.now.numbers.now run.task 0 t
        × (length b.now ≡ most_cells)
        × (length y.old ≡ size_of col.now.numbers.now row.now.numbers.now) }
    ensures { Stored run col.now.numbers.now row.now.numbers.now t b.now y.old y.new }
{
    if t < col.many() {
        return move_in_turn(run, col, row, t, b, y);
    }
    let n = y.len();
    copy_front(b, y, n);
}
