// A row of elements under a lower or an upper factor, undone, in runs. Where the order is 4, 8 or 16 the ends of a run are
// literals, so that the compiler writes it out. A literal for `even` takes its test out of a run. One function over a width as a
// const parameter would be no plainer: 4, 8 and 16 have one, two and four runs, and a loop over them has no literal ends.
ghost use Rattle.std.specs.Prelude.{false, ◌≡◌, is_ok};
ghost use Rattle.rules.specs.Numbers.{bound};
ghost use Rattle.factor.specs.Rounding.{rule_by};
ghost use Rattle.joint.specs.Elements.{undone_of};
ghost use Rattle.joint.specs.RowsInPlace.{RowAsks, RowDone};
ghost use Rattle.trianglerows.specs.TrianglesUndone.{UndoGiven, undone_turn};

use crate::lower::Lower;
use crate::triangle::Triangle;
use crate::upper::Upper;
use factor::Layout;
use factor::bounds::Beyond;
use factor::run::is_written;
use rules::{Block, Kind};

// All elements of row i.
fn undo_elements<T: Triangle>(
    down: bool,
    even: bool,
    col: &[i32],
    fa: Layout,
    row: &[i32],
    fb: Layout,
    i: usize,
    v: &mut [i64; Block::LINE],
    x: &mut [i32; Block::CELLS],
) -> Result<(), Beyond>
    requires { UndoGiven col.now fa row.now fb i 0 x.old v.old × (fb.kind ≡ T.kind) }
    ensures { RowDone bound (undone_of (rule_by down even) col.now fa row.now fb) (undone_turn fb i)
        fb.order x.old x.new (is_ok result) }
{
    let n = fb.order;
    if is_written(even, n, 16) {
        T::undo(down, false, col, fa, row, fb, 16, i, 0, 4, v, x)?;
        T::undo(down, false, col, fa, row, fb, 16, i, 4, 8, v, x)?;
        T::undo(down, false, col, fa, row, fb, 16, i, 8, 12, v, x)?;
        return T::undo(down, false, col, fa, row, fb, 16, i, 12, 16, v, x);
    }
    if even {
        return T::undo(down, true, col, fa, row, fb, n, i, 0, n, v, x);
    }
    T::undo(down, false, col, fa, row, fb, n, i, 0, n, v, x)
}

// Row i of rows of four. The width is a literal here, so that sums and elements stay in registers.
fn undo_four<T: Triangle>(
    down: bool,
    even: bool,
    col: &[i32],
    fa: Layout,
    row: &[i32],
    fb: Layout,
    i: usize,
    x: &mut [i32; Block::CELLS],
) -> Result<(), Beyond>
    requires { RowAsks col.now fa row.now fb i x.old × (fb.kind ≡ T.kind) × (fb.order ≡ 4) }
    ensures { RowDone bound (undone_of (rule_by down even) col.now fa row.now fb) (undone_turn fb i)
        fb.order x.old x.new (is_ok result) }
{
    let mut v = [0i64; Block::LINE];
    T::rest_sums(col, fa, i, x, 4, &mut v);
    if even {
        return T::undo(down, true, col, fa, row, fb, 4, i, 0, 4, &mut v, x);
    }
    T::undo(down, false, col, fa, row, fb, 4, i, 0, 4, &mut v, x)
}

// The same for rows of eight.
fn undo_eight<T: Triangle>(
    down: bool,
    col: &[i32],
    fa: Layout,
    row: &[i32],
    fb: Layout,
    i: usize,
    x: &mut [i32; Block::CELLS],
) -> Result<(), Beyond>
    requires { RowAsks col.now fa row.now fb i x.old × (fb.kind ≡ T.kind) × (fb.order ≡ 8) }
    ensures { RowDone bound (undone_of (rule_by down false) col.now fa row.now fb) (undone_turn fb i)
        fb.order x.old x.new (is_ok result) }
{
    let mut v = [0i64; Block::LINE];
    T::rest_sums(col, fa, i, x, 8, &mut v);
    T::undo(down, false, col, fa, row, fb, 8, i, 0, 4, &mut v, x)?;
    T::undo(down, false, col, fa, row, fb, 8, i, 4, 8, &mut v, x)
}

// Row i: the sums without it, over the rows that it looks at, then its elements.
fn undo_row<T: Triangle>(
    down: bool,
    even: bool,
    col: &[i32],
    fa: Layout,
    row: &[i32],
    fb: Layout,
    i: usize,
    x: &mut [i32; Block::CELLS],
) -> Result<(), Beyond>
    requires { RowAsks col.now fa row.now fb i x.old × (fb.kind ≡ T.kind) }
    ensures { RowDone bound (undone_of (rule_by down even) col.now fa row.now fb) (undone_turn fb i)
        fb.order x.old x.new (is_ok result) }
{
    let n = fb.order;
    if n == 4 {
        return undo_four::<T>(down, even, col, fa, row, fb, i, x);
    }
    if is_written(even, n, 8) {
        return undo_eight::<T>(down, col, fa, row, fb, i, x);
    }
    let mut v = [0i64; Block::LINE];
    T::rest_sums(col, fa, i, x, n, &mut v);
    undo_elements::<T>(down, even, col, fa, row, fb, i, &mut v, x)
}

// Row i under a lower factor.
pub fn undo_lower_row(
    down: bool,
    even: bool,
    col: &[i32],
    fa: Layout,
    row: &[i32],
    fb: Layout,
    i: usize,
    x: &mut [i32; Block::CELLS],
) -> Result<(), Beyond>
    requires { RowAsks col.now fa row.now fb i x.old × (fb.kind ≡ Kind.Lower) }
    ensures { RowDone bound (undone_of (rule_by down even) col.now fa row.now fb) (undone_turn fb i)
        fb.order x.old x.new (is_ok result) }
{
    undo_row::<Lower>(down, even, col, fa, row, fb, i, x)
}

// The same under an upper factor.
pub fn undo_upper_row(
    down: bool,
    even: bool,
    col: &[i32],
    fa: Layout,
    row: &[i32],
    fb: Layout,
    i: usize,
    x: &mut [i32; Block::CELLS],
) -> Result<(), Beyond>
    requires { RowAsks col.now fa row.now fb i x.old × (fb.kind ≡ Kind.Upper) }
    ensures { RowDone bound (undone_of (rule_by down even) col.now fa row.now fb) (undone_turn fb i)
        fb.order x.old x.new (is_ok result) }
{
    undo_row::<Upper>(down, even, col, fa, row, fb, i, x)
}
