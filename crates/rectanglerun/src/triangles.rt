// A pair of lower or of upper factors, row by row, in place. The kind is asked once for all rows: by the function of one row, which
// the compiler puts into a loop of its own.
ghost use Rattle.std.specs.Prelude.{◌≢◌, ◌≡◌, ◌-◌, ◌<◌, cond, ℕ, is_ok};
ghost use Rattle.rules.specs.declared.Kind.TheVariants.{Single};
ghost use Rattle.rules.specs.Numbers.{bound};
ghost use Rattle.factor.specs.Rounding.{rule_by};
ghost use Rattle.factor.specs.Tasks.{limit_of};
ghost use Rattle.joint.specs.RowsInPlace.{RowAsks, RowDone, element_of, row_order};
ghost use Rattle.rectanglerun.specs.RowsInTurn.{Weighable, Weighed};
ghost use Rattle.rectanglerun.specs.UndoingOrder.{is_upward};

use factor::Layout;
use factor::bounds::Beyond;
use factor::run::{Task, is_inverse};
use rules::{Block, Kind};

// Whether the last row comes first. A row under a lower factor looks at those above it: applied, they come after it; undone, before
// it. Under an upper factor it looks at those below it.
#[tactic(auto, unfolding(crate::specs::UndoingOrder::is_upward, factor::specs::Tasks::is_inverse))]
fn is_upward(task: Task, kind: Kind) -> bool
    ensures { result ≡ is_upward task kind }
{
    match kind {
        Kind::Lower => !is_inverse(task),
        _ => is_inverse(task),
    }
}

// The row of turn s of m.
fn nth(upward: bool, m: usize, s: usize) -> usize
    requires { s < m }
    ensures { result ≡ cond upward (m - 1 - s) s }
{
    if upward { m - 1 - s } else { s }
}

// All rows under a lower or an upper factor, each by the function of one row. The first that makes a number beyond the bound ends
// them.
pub fn all_rows<F>(
    by: F,
    task: Task,
    down: bool,
    even: bool,
    col: &[i32],
    fa: Layout,
    row: &[i32],
    fb: Layout,
    x: &mut [i32; Block::CELLS],
) -> Result<(), Beyond>
where
    F: Fn(
        bool,
        bool,
        &[i32],
        Layout,
        &[i32],
        Layout,
        usize,
        &mut [i32; Block::CELLS],
    ) -> Result<(), Beyond>,
    requires asked { Weighable task col.now fa row.now fb x.old }
    requires kind { (fb.kind ≢ Single) × (limit_of task ≡ bound) }
    requires may { (i : ℕ) (v : _) → RowAsks col.now fa row.now fb i v.now → F.pre by down even col fa row fb i v }
    requires makes { (i : ℕ) (v : _) (r : _) (w : _) → F.post by down even col fa row fb i v r w →
        RowDone (limit_of task) (element_of task (rule_by down even) col.now fa row.now fb v.now) (row_order task fb i) fb.order
        v.now w.now (is_ok r) }
    ensures { Weighed task (rule_by down even) col.now fa row.now fb x.old (is_ok result) x.new }
{
    let m = fa.order;
    let upward = is_upward(task, fb.kind);
    for s in 0..m {
        let i = nth(upward, m, s);
        by(down, even, col, fa, row, fb, i, x)?;
    }
    Ok(())
}
