// A pair of single-row factors, row by row, in place. The row with entries is taken apart from the rows beside it.
ghost use Rattle.std.specs.Prelude.{◌≡◌, ◌-◌, ◌<◌, is_ok};
ghost use Rattle.rules.specs.declared.Kind.TheVariants.{Single};
ghost use Rattle.factor.specs.UndoingOrder.{nth_undone};
ghost use Rattle.factor.specs.Rounding.{rule_by};
ghost use Rattle.singlerows.specs.LaidRows.{Laid};
ghost use Rattle.rectanglerun.specs.RowsInTurn.{Weighable, Weighed, TurnsDone};

use factor::Layout;
use factor::bounds::Beyond;
use factor::run::Task;
use rules::Block;
use singlerows::{
    apply_beside, apply_crossing, lay_entries, lay_signs, undo_beside, undo_crossing,
};

// The row that a single-row factor undoes in turn t: round from the row after r. The order of any kind would make the loops below
// too large for the compiler to write them out.
#[tactic(auto, unfolding(factor::specs::UndoingOrder::nth_undone))]
fn nth_single(f: Layout, t: usize) -> usize
    requires { (t < f.order) × (f.row < f.order) }
    ensures { result ≡ nth_undone Single f.order f.row t }
{
    let n = f.order;
    let r = f.row;
    if t < n - 1 - r {
        return r + 1 + t;
    }
    t - (n - 1 - r)
}

// The rows beside row r applied, each in its turn, where rows have n numbers.
#[tactic(auto, unfolding(factor::specs::Tasks::limit_of, joint::specs::RowsInPlace::element_of, joint::specs::RowsInPlace::row_order))]
fn apply_rows_beside(
    down: bool,
    even: bool,
    col: &[i32],
    fa: Layout,
    row: &[i32],
    fb: Layout,
    n: usize,
    g: &[i32; Block::LINE],
    w: &[i32; Block::LINE],
    x: &mut [i32; Block::CELLS],
) -> Result<(), Beyond>
    requires { Weighable Task.Forward col.now fa row.now fb x.old × (fb.kind ≡ Single)
        × Laid row.now fb n g.now w.now }
    ensures { TurnsDone Task.Forward (rule_by down even) col.now fa row.now fb 1 fa.order
        x.old (is_ok result) x.new }
{
    let m = fa.order;
    for s in 1..m {
        let i = nth_single(fa, m - 1 - s);
        apply_beside(down, even, col, fa, row, fb, n, g, w, i, x)?;
    }
    Ok(())
}

// The same; where rows have 4, 8 or 16 numbers the compiler is told so, and writes their sums out.
fn apply_all_beside(
    down: bool,
    even: bool,
    col: &[i32],
    fa: Layout,
    row: &[i32],
    fb: Layout,
    g: &[i32; Block::LINE],
    w: &[i32; Block::LINE],
    x: &mut [i32; Block::CELLS],
) -> Result<(), Beyond>
    requires { Weighable Task.Forward col.now fa row.now fb x.old × (fb.kind ≡ Single)
        × Laid row.now fb fb.order g.now w.now }
    ensures { TurnsDone Task.Forward (rule_by down even) col.now fa row.now fb 1 fa.order
        x.old (is_ok result) x.new }
{
    match fb.order {
        4 if !even => apply_rows_beside(down, false, col, fa, row, fb, 4, g, w, x),
        8 if !even => apply_rows_beside(down, false, col, fa, row, fb, 8, g, w, x),
        16 if !even => apply_rows_beside(down, false, col, fa, row, fb, 16, g, w, x),
        n => apply_rows_beside(down, even, col, fa, row, fb, n, g, w, x),
    }
}

// All rows applied. Row r, which looks at the others, comes first.
#[tactic(auto, unfolding(factor::specs::Tasks::limit_of, joint::specs::RowsInPlace::element_of, joint::specs::RowsInPlace::row_order))]
pub fn apply_single_rows(
    down: bool,
    even: bool,
    col: &[i32],
    fa: Layout,
    row: &[i32],
    fb: Layout,
    x: &mut [i32; Block::CELLS],
) -> Result<(), Beyond>
    requires { Weighable Task.Forward col.now fa row.now fb x.old × (fb.kind ≡ Single) }
    ensures { Weighed Task.Forward (rule_by down even) col.now fa row.now fb x.old
        (is_ok result) x.new }
{
    let g = lay_signs(row, fb);
    let w = lay_entries(row, fb);
    let i = fa.row;
    apply_crossing(down, even, col, fa, row, fb, i, x)?;
    apply_all_beside(down, even, col, fa, row, fb, &g, &w, x)
}

// The rows beside row r undone, each in its turn, where rows have n numbers.
#[tactic(auto, unfolding(factor::specs::Tasks::limit_of, joint::specs::RowsInPlace::element_of, joint::specs::RowsInPlace::row_order))]
fn undo_rows_beside(
    down: bool,
    even: bool,
    col: &[i32],
    fa: Layout,
    row: &[i32],
    fb: Layout,
    n: usize,
    g: &[i32; Block::LINE],
    w: &[i32; Block::LINE],
    x: &mut [i32; Block::CELLS],
) -> Result<(), Beyond>
    requires { Weighable Task.Inverse col.now fa row.now fb x.old × (fb.kind ≡ Single)
        × Laid row.now fb n g.now w.now }
    ensures { TurnsDone Task.Inverse (rule_by down even) col.now fa row.now fb 0 (fa.order - 1)
        x.old (is_ok result) x.new }
{
    let m = fa.order;
    for s in 0..m - 1 {
        let i = nth_single(fa, s);
        undo_beside(down, even, col, fa, row, fb, n, g, w, i, x)?;
    }
    Ok(())
}

// The same; where rows have 4, 8 or 16 numbers the compiler is told so, and writes their sums out.
fn undo_all_beside(
    down: bool,
    even: bool,
    col: &[i32],
    fa: Layout,
    row: &[i32],
    fb: Layout,
    g: &[i32; Block::LINE],
    w: &[i32; Block::LINE],
    x: &mut [i32; Block::CELLS],
) -> Result<(), Beyond>
    requires { Weighable Task.Inverse col.now fa row.now fb x.old × (fb.kind ≡ Single)
        × Laid row.now fb fb.order g.now w.now }
    ensures { TurnsDone Task.Inverse (rule_by down even) col.now fa row.now fb 0 (fa.order - 1)
        x.old (is_ok result) x.new }
{
    match fb.order {
        4 if !even => undo_rows_beside(down, false, col, fa, row, fb, 4, g, w, x),
        8 if !even => undo_rows_beside(down, false, col, fa, row, fb, 8, g, w, x),
        16 if !even => undo_rows_beside(down, false, col, fa, row, fb, 16, g, w, x),
        n => undo_rows_beside(down, even, col, fa, row, fb, n, g, w, x),
    }
}

// All rows undone. Row r comes last, since it looks at the others as they were.
#[tactic(auto, unfolding(factor::specs::Tasks::limit_of, joint::specs::RowsInPlace::element_of, joint::specs::RowsInPlace::row_order))]
pub fn undo_single_rows(
    down: bool,
    even: bool,
    col: &[i32],
    fa: Layout,
    row: &[i32],
    fb: Layout,
    x: &mut [i32; Block::CELLS],
) -> Result<(), Beyond>
    requires { Weighable Task.Inverse col.now fa row.now fb x.old × (fb.kind ≡ Single) }
    ensures { Weighed Task.Inverse (rule_by down even) col.now fa row.now fb x.old
        (is_ok result) x.new }
{
    let g = lay_signs(row, fb);
    let w = lay_entries(row, fb);
    undo_all_beside(down, even, col, fa, row, fb, &g, &w, x)?;
    let i = fa.row;
    undo_crossing(down, even, col, fa, row, fb, i, x)
}
