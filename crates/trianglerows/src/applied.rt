// A row of elements under a lower or an upper factor, applied. The kind is known before a row begins, so the entries of
// its elements lie one after another; and where the order is 4, 8 or 16 a run of elements has literal ends, so that the compiler
// writes its sums out.
ghost use Rattle.std.specs.Prelude.{◌≡◌, ◌+◌, ◌-◌, ◌≤◌, ◌<◌, is_ok};
ghost use Rattle.rules.specs.Numbers.{bound};
ghost use Rattle.factor.specs.Rounding.{rule_by};
ghost use Rattle.joint.specs.Elements.{applied_of};
ghost use Rattle.joint.specs.RowsInPlace.{RowAsks, RowDone, onward, plain, in_row};
ghost use Rattle.joint.specs.Triangles.{RunGiven, applied_in};

use crate::lower::Lower;
use crate::triangle::Triangle;
use crate::upper::Upper;
use factor::Layout;
use factor::bounds::{Beyond, keep};
use factor::run::{is_other, is_written};
use joint::elements::{applied_whole, sign_at};
use rules::{Block, Kind};

// The elements from .. to of the row that starts at place k, n being the factor's order.
#[tactic(auto, unfolding(factor::specs::InPlace::in_place))]
fn apply_run<T: Triangle>(
    down: bool,
    even: bool,
    row: &[i32],
    f: Layout,
    n: usize,
    d: i32,
    v: &[i64; Block::LINE],
    k: usize,
    from: usize,
    to: usize,
    x: &mut [i32; Block::CELLS],
) -> Result<(), Beyond>
    requires { RunGiven row.now f d v.now k x.old × (f.kind ≡ T.kind) × (from < to) × (to ≤ f.order) × (n ≡ f.order) }
    ensures { RowDone bound (applied_in (rule_by down even) row.now f d v.now k) (onward
        (λ u. k + u) from) (to - from) x.old x.new (is_ok result) }
{
    let mut p = T::first(f, n, from);
    for j in from..to {
        let s = T::total(row, f, n, j, p, v);
        let z = applied_whole(down, even, s, d, sign_at(row, f, j), x[k + j]);
        keep(z, Block::SAMPLE, x, k + j)?;
        p = T::next(f, n, j, p);
    }
    Ok(())
}

// A whole row of elements.
fn apply_elements<T: Triangle>(
    down: bool,
    even: bool,
    row: &[i32],
    f: Layout,
    d: i32,
    v: &[i64; Block::LINE],
    k: usize,
    x: &mut [i32; Block::CELLS],
) -> Result<(), Beyond>
    requires { RunGiven row.now f d v.now k x.old × (f.kind ≡ T.kind) }
    ensures { RowDone bound (applied_in (rule_by down even) row.now f d v.now k) (λ u. k + u)
        f.order x.old x.new (is_ok result) }
{
    let n = f.order;
    let other = is_other(down, even);
    if is_written(other, n, 8) {
        return apply_run::<T>(false, false, row, f, 8, d, v, k, 0, 8, x);
    }
    if is_written(other, n, 16) {
        apply_run::<T>(false, false, row, f, 16, d, v, k, 0, 8, x)?;
        return apply_run::<T>(false, false, row, f, 16, d, v, k, 8, 16, x);
    }
    apply_run::<T>(down, even, row, f, n, d, v, k, 0, n, x)
}

// Row i of rows of four. The width is a literal here, so that sums and elements stay in registers.
fn apply_four<T: Triangle>(
    down: bool,
    even: bool,
    col: &[i32],
    fa: Layout,
    row: &[i32],
    fb: Layout,
    i: usize,
    x: &mut [i32; Block::CELLS],
) -> Result<(), Beyond>
    requires { RowAsks col.now fa row.now fb i x.old × (fb.kind ≡ T.kind) × (fb.order ≡ 4) }
    ensures { RowDone bound (plain (applied_of (rule_by down even) col.now fa row.now fb
        x.old)) (in_row fb.order i) fb.order x.old x.new (is_ok result) }
{
    let d = sign_at(col, fa, i);
    let mut v = [0i64; Block::LINE];
    T::sums(col, fa, i, x, 4, &mut v);
    if even {
        return apply_run::<T>(down, true, row, fb, 4, d, &v, i * 4, 0, 4, x);
    }
    apply_run::<T>(down, false, row, fb, 4, d, &v, i * 4, 0, 4, x)
}

// Row i: its sums, over the rows that it looks at, then its elements.
fn apply_row<T: Triangle>(
    down: bool,
    even: bool,
    col: &[i32],
    fa: Layout,
    row: &[i32],
    fb: Layout,
    i: usize,
    x: &mut [i32; Block::CELLS],
) -> Result<(), Beyond>
    requires { RowAsks col.now fa row.now fb i x.old × (fb.kind ≡ T.kind) }
    ensures { RowDone bound (plain (applied_of (rule_by down even) col.now fa row.now fb
        x.old)) (in_row fb.order i) fb.order x.old x.new (is_ok result) }
{
    let n = fb.order;
    if n == 4 {
        return apply_four::<T>(down, even, col, fa, row, fb, i, x);
    }
    let d = sign_at(col, fa, i);
    let mut v = [0i64; Block::LINE];
    T::sums(col, fa, i, x, n, &mut v);
    apply_elements::<T>(down, even, row, fb, d, &v, i * n, x)
}

// Row i under a lower factor.
pub fn apply_lower_row(
    down: bool,
    even: bool,
    col: &[i32],
    fa: Layout,
    row: &[i32],
    fb: Layout,
    i: usize,
    x: &mut [i32; Block::CELLS],
) -> Result<(), Beyond>
    requires { RowAsks col.now fa row.now fb i x.old × (fb.kind ≡ Kind.Lower) }
    ensures { RowDone bound (plain (applied_of (rule_by down even) col.now fa row.now fb
        x.old)) (in_row fb.order i) fb.order x.old x.new (is_ok result) }
{
    apply_row::<Lower>(down, even, col, fa, row, fb, i, x)
}

// The same under an upper factor.
pub fn apply_upper_row(
    down: bool,
    even: bool,
    col: &[i32],
    fa: Layout,
    row: &[i32],
    fb: Layout,
    i: usize,
    x: &mut [i32; Block::CELLS],
) -> Result<(), Beyond>
    requires { RowAsks col.now fa row.now fb i x.old × (fb.kind ≡ Kind.Upper) }
    ensures { RowDone bound (plain (applied_of (rule_by down even) col.now fa row.now fb
        x.old)) (in_row fb.order i) fb.order x.old x.new (is_ok result) }
{
    apply_row::<Upper>(down, even, col, fa, row, fb, i, x)
}
