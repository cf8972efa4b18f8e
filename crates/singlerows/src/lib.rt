// A row of a pair of single-row factors. The column sheet's factor has entries in one row only: a row beside it looks at nothing
// but itself, and its one sum has a scale of 4096, since the other scale is a sign's.
#![tactic(auto)]

ghost use Rattle.std.specs.Prelude.{◌≢◌, ◌≡◌, ◌+◌, ◌*◌, ◌<◌, ◌*ℤ◌, length, is_ok};
ghost use Rattle.std.specs.Int.{w32};
ghost use Rattle.std.proofs.Common.{SFits};
ghost use Rattle.whole.specs.Diff.{Within};
ghost use Rattle.whole.specs.Stated.{Sign};
ghost use Rattle.rules.specs.declared.Kind.TheVariants.{Single};
ghost use Rattle.rules.specs.Numbers.{most_order, unit, most_cells, bound, at};
ghost use Rattle.rules.specs.Stages.{R};
ghost use Rattle.factor.specs.UndoingOrder.{nth_undone};
ghost use Rattle.factor.specs.SumBounds.{Bounded};
ghost use Rattle.factor.specs.LayoutInSheet.{InSheet};
ghost use Rattle.factor.specs.Rounding.{rule_by};
ghost use Rattle.joint.specs.Elements.{applied_of, undone_of};
ghost use Rattle.joint.specs.RowsInPlace.{RowAsks, RowDone, in_row, plain};
ghost use Rattle.joint.specs.Triangles.{TotalGiven, total_of, RunGiven, applied_in};
ghost use Rattle.singlerows.specs.SingleRows.{OneRow, Narrow, narrow_sum, SignsGiven, Turned, applied_beside, undone_beside};
ghost use Rattle.singlerows.specs.LaidRows.{entry_in, entries_laid, signs_laid, Laid};

use factor::bounds::{Beyond, keep};
use factor::rounding::{applied, round_line, undone};
use factor::sums::with_term;
use factor::{Layout, nth_undone, row_of};
use joint::elements::{
    applied_whole, both_signs, diagonal_of, rest_sums_at, sign_at, sums_at, turned, undone_at,
    with_diagonal,
};
use joint::sums::{whole_sum, with_sum};
use rules::Block;

// The entry in column j of the factor's one row, and 0 in the row's own column, where none stands.
fn entry_in(row: &[i32], f: Layout, j: usize) -> i32
    requires { InSheet row.now f × (f.kind ≡ Single) × (f.row < f.order) × (j < f.order) }
    ensures { result ≡ entry_in row.now f j }
{
    let q = f.row;
    let entries = f.entries;
    if j < q {
        return row[entries + j];
    }
    if j == q {
        return 0;
    }
    row[entries + (j - 1)]
}

// That row laid out by columns. With it a row of the block has one sum over all its columns, in place of two whose lengths are
// known late, and the number in the row's own column is no part of it.
#[tactic(auto, unfolding(rules::specs::Stages::fill))]
pub fn lay_entries(row: &[i32], f: Layout) -> [i32; Block::LINE]
    requires { InSheet row.now f × (f.kind ≡ Single) × (f.row < f.order) }
    ensures { result ≡ entries_laid row.now f }
{
    let mut w = [0i32; Block::LINE];
    let n = f.order;
    for j in 0..n {
        w[j] = entry_in(row, f, j);
    }
    w
}

// The signs of the columns, laid out: from an array of its own the compiler reads several at a time. A slice of the sheet to copy
// from would ask that the place of its signs lies in it, which `InSheet` says only of a factor that has a row.
#[tactic(auto, unfolding(rules::specs::Stages::fill))]
pub fn lay_signs(row: &[i32], f: Layout) -> [i32; Block::LINE]
    requires { InSheet row.now f }
    ensures { result ≡ signs_laid row.now f }
{
    let mut g = [0i32; Block::LINE];
    let n = f.order;
    for j in 0..n {
        g[j] = sign_at(row, f, j);
    }
    g
}

// The first n entries of w, each times its number of the block's row that starts at place k.
#[tactic(auto, unfolding(whole::specs::Stated::sum))]
fn narrow_sum(w: &[i32; Block::LINE], x: &[i32; Block::CELLS], k: usize, n: usize) -> i64
    requires { Narrow w.now x.now k n }
    ensures { result ≡ narrow_sum w.now x.now k n }
{
    let mut sum: i64 = 0;
    for j in 0..n {
        sum = with_term(sum, w[j], x[k + j]);
    }
    sum
}

// The same as the element looks at it: times the sign of the block's row, and rounded.
fn rounded_beside(
    down: bool,
    even: bool,
    w: &[i32; Block::LINE],
    n: usize,
    d: i32,
    k: usize,
    x: &[i32; Block::CELLS],
) -> i64
    requires { Narrow w.now x.now k n × Sign d }
    ensures { result ≡ R (rule_by down even) unit (d *ℤ narrow_sum w.now x.now k n) }
{
    round_line(down, even, turned(d, narrow_sum(w, x, k, n)))
}

// The sign of the element in column j of a row of the sign d.
fn sign_in(d: i32, g: &[i32; Block::LINE], j: usize) -> i32
    requires { (j < most_order) × Sign d × Sign (at g.now j) }
    ensures { result ≡ d *ℤ at g.now j }
{
    both_signs(d, g[j])
}

// What the element in column q of that row becomes, q the row of the row sheet's factor.
#[tactic(auto, unfolding(crate::specs::SingleRows::applied_beside))]
fn applied_beside(
    down: bool,
    even: bool,
    g: &[i32; Block::LINE],
    w: &[i32; Block::LINE],
    n: usize,
    q: usize,
    d: i32,
    k: usize,
    x: &[i32; Block::CELLS],
) -> i64
    requires { SignsGiven g.now n d k x.now × Narrow w.now x.now k n × (q < n) }
    ensures { result ≡ applied_beside (rule_by down even) d (at g.now q) (narrow_sum w.now
        x.now k n) (at x.now (k + q)) }
{
    applied(
        sign_in(d, g, q),
        x[k + q],
        rounded_beside(down, even, w, n, d, k, x),
    )
}

// What it was, where it is y now and the others of the row are recovered.
#[tactic(auto, unfolding(crate::specs::SingleRows::undone_beside))]
fn undone_beside(
    down: bool,
    even: bool,
    g: &[i32; Block::LINE],
    w: &[i32; Block::LINE],
    n: usize,
    q: usize,
    d: i32,
    k: usize,
    y: i32,
    x: &[i32; Block::CELLS],
) -> i64
    requires { SignsGiven g.now n d k x.now × Narrow w.now x.now k n × (q < n) × Within bound y }
    ensures { result ≡ undone_beside (rule_by down even) d (at g.now q) (narrow_sum w.now
        x.now k n) y }
{
    undone(
        sign_in(d, g, q),
        y,
        rounded_beside(down, even, w, n, d, k, x),
    )
}

// A number of the block times a sign, which turns it. The compiler tests several signs at a time; for as many products the
// baseline machine has no instruction.
fn turned_number(s: i32, x: i32) -> i32
    requires { Sign s × SFits w32 (s *ℤ x) }
    ensures { result ≡ s *ℤ x }
{
    if s < 0 {
        return -x;
    }
    x
}

// The n numbers of the block from place k on, each times the sign d of its row and the sign of its column.
fn turn_row(g: &[i32; Block::LINE], n: usize, d: i32, k: usize, x: &mut [i32; Block::CELLS])
    requires { SignsGiven g.now n d k x.old × (length x.old ≡ most_cells) }
    ensures { Turned (at g.now) d k n x.old x.new }
{
    for j in 0..n {
        x[k + j] = turned_number(sign_in(d, g, j), x[k + j]);
    }
}

// A row beside the one with entries, applied, where rows have n numbers; g and w are the row sheet's signs and entries, laid out
// once for all rows.
pub fn apply_beside(
    down: bool,
    even: bool,
    col: &[i32],
    fa: Layout,
    row: &[i32],
    fb: Layout,
    n: usize,
    g: &[i32; Block::LINE],
    w: &[i32; Block::LINE],
    i: usize,
    x: &mut [i32; Block::CELLS],
) -> Result<(), Beyond>
    requires { RowAsks col.now fa row.now fb i x.old × (fb.kind ≡ Single) × (i ≢ fa.row)
        × Laid row.now fb n g.now w.now }
    ensures { RowDone bound (plain (applied_of (rule_by down even) col.now fa row.now fb
        x.old)) (in_row fb.order i) fb.order x.old x.new (is_ok result) }
{
    let q = fb.row;
    let d = sign_at(col, fa, i);
    let k = i * n;
    let z = applied_beside(down, even, g, w, n, q, d, k, x);
    turn_row(g, n, d, k, x);
    keep(z, Block::SAMPLE, x, k + q)
}

// The same undone: the sum is of the numbers recovered, which are those beside column q.
pub fn undo_beside(
    down: bool,
    even: bool,
    col: &[i32],
    fa: Layout,
    row: &[i32],
    fb: Layout,
    n: usize,
    g: &[i32; Block::LINE],
    w: &[i32; Block::LINE],
    i: usize,
    x: &mut [i32; Block::CELLS],
) -> Result<(), Beyond>
    requires { RowAsks col.now fa row.now fb i x.old × (fb.kind ≡ Single) × (i ≢ fa.row)
        × Laid row.now fb n g.now w.now }
    ensures { RowDone bound (undone_of (rule_by down even) col.now fa row.now fb)
        (λ u. in_row fb.order i (nth_undone fb.kind fb.order fb.row u)) fb.order
        x.old x.new (is_ok result) }
{
    let q = fb.row;
    let d = sign_at(col, fa, i);
    let k = i * n;
    let y = x[k + q];
    turn_row(g, n, d, k, x);
    let z = undone_beside(down, even, g, w, n, q, d, k, y, x);
    keep(z, Block::SAMPLE, x, k + q)
}

// The whole sum of the element in column q, v the sums of its row over the columns.
fn column_total(row: &[i32], f: Layout, v: &[i64; Block::LINE]) -> i64
    requires { TotalGiven row.now f f.row v.now }
    ensures { result ≡ total_of row.now f f.row v.now }
{
    let q = f.row;
    whole_sum(
        row,
        row_of(f, q),
        q,
        diagonal_of(sign_at(row, f, q)),
        v,
        v[q],
    )
}

// That of the element in column j: beside column q, whose total is lent, it is the diagonal's term alone.
fn crossing_total(row: &[i32], f: Layout, j: usize, total: i64, v: &[i64; Block::LINE]) -> i64
    requires { TotalGiven row.now f j v.now × OneRow f × (total ≡ total_of row.now f f.row v.now) }
    ensures { result ≡ total_of row.now f j v.now }
{
    let q = f.row;
    if j == q {
        return total;
    }
    with_diagonal(0, sign_at(row, f, j), v[j])
}

// The elements of the row with entries, which starts at place k and has the sign d and the sums v, applied.
#[tactic(auto, unfolding(factor::specs::InPlace::in_place))]
fn apply_elements(
    down: bool,
    even: bool,
    row: &[i32],
    f: Layout,
    d: i32,
    v: &[i64; Block::LINE],
    k: usize,
    x: &mut [i32; Block::CELLS],
) -> Result<(), Beyond>
    requires { RunGiven row.now f d v.now k x.old × (f.row < f.order) × OneRow f }
    ensures { RowDone bound (applied_in (rule_by down even) row.now f d v.now k) (λ u. k + u)
        f.order x.old x.new (is_ok result) }
{
    let n = f.order;
    let total = column_total(row, f, v);
    for j in 0..n {
        let s = crossing_total(row, f, j, total, v);
        let z = applied_whole(down, even, s, d, sign_at(row, f, j), x[k + j]);
        keep(z, Block::SAMPLE, x, k + j)?;
    }
    Ok(())
}

// The row with entries, applied: an element looks at the row's sums, made before, and at its own number.
pub fn apply_crossing(
    down: bool,
    even: bool,
    col: &[i32],
    fa: Layout,
    row: &[i32],
    fb: Layout,
    i: usize,
    x: &mut [i32; Block::CELLS],
) -> Result<(), Beyond>
    requires { InSheet col.now fa × InSheet row.now fb × (i < fa.order) × Bounded bound x.old
        × (fb.row < fb.order) × OneRow fb }
    ensures { RowDone bound (plain (applied_of (rule_by down even) col.now fa row.now fb
        x.old)) (in_row fb.order i) fb.order x.old x.new (is_ok result) }
{
    let n = fb.order;
    let mut v = [0i64; Block::LINE];
    sums_at(col, fa, i, x, n, &mut v);
    apply_elements(down, even, row, fb, sign_at(col, fa, i), &v, i * n, x)
}

// The same undone, in the order of the row sheet's factor. A number goes into the row's sums when it is recovered: nothing looks
// at it before.
#[tactic(auto, unfolding(factor::specs::InPlace::in_place, joint::specs::Sums::rest_sums))]
pub fn undo_crossing(
    down: bool,
    even: bool,
    col: &[i32],
    fa: Layout,
    row: &[i32],
    fb: Layout,
    i: usize,
    x: &mut [i32; Block::CELLS],
) -> Result<(), Beyond>
    requires { InSheet col.now fa × InSheet row.now fb × (i < fa.order) × (fb.row < fb.order)
        × Bounded bound x.old × (length x.old ≡ most_cells) }
    ensures { RowDone bound (undone_of (rule_by down even) col.now fa row.now fb)
        (λ u. in_row fb.order i (nth_undone fb.kind fb.order fb.row u)) fb.order
        x.old x.new (is_ok result) }
{
    let n = fb.order;
    let mut v = [0i64; Block::LINE];
    rest_sums_at(col, fa, i, x, n, &mut v);
    for u in 0..n {
        let j = nth_undone(fb, u);
        let e = i * n + j;
        let d = sign_at(col, fa, i);
        let z = undone_at(down, even, row, fb, j, d, &v, x[e]);
        keep(z, Block::SAMPLE, x, e)?;
        v[j] = with_sum(v[j], diagonal_of(d), z);
    }
    Ok(())
}
