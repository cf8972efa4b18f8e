// One element of a pair of factors: d is the sign of its row, v the sums of its row over the columns, x its number.
ghost use Rattle.std.specs.Prelude.{◌≡◌, ◌+◌, ◌<◌, pos, ◌+ℤ◌, ◌*ℤ◌};
ghost use Rattle.std.specs.Int.{w32, w64};
ghost use Rattle.std.proofs.Common.{SFits};
ghost use Rattle.whole.specs.Diff.{Within};
ghost use Rattle.whole.specs.Stated.{Sign};
ghost use Rattle.rules.specs.Numbers.{unit, bound};
ghost use Rattle.factor.specs.SumBounds.{Bounded};
ghost use Rattle.factor.specs.LayoutInSheet.{InSheet};
ghost use Rattle.joint.specs.Sums.{most_column};
ghost use Rattle.factor.specs.Rounding.{rule_by};
ghost use Rattle.joint.specs.Elements.{sign_at, diagonal_of, sums_at, rest_sums_at};
ghost use Rattle.joint.specs.Elements.{RowGiven, ElementGiven, rounded_rest, undone_rest};
ghost use Rattle.joint.specs.Elements.{most_joint, applied_from, undone_from};

use crate::sums::{column_sums, rest_sums, whole_sum};
use factor::rounding::{round_joint, round_past, undone};
use factor::{Layout, row_of};
use rules::{Block, Scale, Sheet};

// The sign of row m.
pub fn sign_at(sheet: &[i32], f: Layout, m: usize) -> i32
    requires { InSheet sheet.now f × (m < f.order) }
    ensures { result ≡ sign_at sheet.now f m }
{
    sheet[f.signs + m]
}

// A sign on the diagonal, inside a sum.
pub fn diagonal_of(d: i32) -> i32
    requires { SFits w32 (pos unit *ℤ d) }
    ensures { result ≡ diagonal_of d }
{
    Sheet::UNIT * d
}

// The sign of an element: "A(i,i)·B(j,j)".
pub fn both_signs(d: i32, e: i32) -> i32
    requires { SFits w32 (d *ℤ e) }
    ensures { result ≡ d *ℤ e }
{
    d * e
}

// The sums of row i over the n columns of a block, into v.
pub fn sums_at(
    col: &[i32],
    f: Layout,
    i: usize,
    x: &[i32; Block::CELLS],
    n: usize,
    v: &mut [i64; Block::LINE],
)
    requires { RowGiven col.now f i x.now n v.old }
    ensures { v.new ≡ sums_at col.now f i x.now n }
{
    column_sums(
        col,
        row_of(f, i),
        i,
        diagonal_of(sign_at(col, f, i)),
        x,
        n,
        v,
    )
}

// The same without row i itself.
pub fn rest_sums_at(
    col: &[i32],
    f: Layout,
    i: usize,
    x: &[i32; Block::CELLS],
    n: usize,
    v: &mut [i64; Block::LINE],
)
    requires { RowGiven col.now f i x.now n v.old }
    ensures { v.new ≡ rest_sums_at col.now f i x.now n }
{
    rest_sums(col, row_of(f, i), i, x, n, v)
}

// The rounded sum of the element in column j, where v has nothing of the element's own number.
#[tactic(auto, unfolding(crate::specs::Elements::rounded_rest))]
fn rounded_rest_at(
    down: bool,
    even: bool,
    row: &[i32],
    f: Layout,
    j: usize,
    v: &[i64; Block::LINE],
) -> i64
    requires { InSheet row.now f × (j < f.order) × Bounded most_column v.now }
    ensures { result ≡ rounded_rest (rule_by down even) row.now f j v.now }
{
    let s = whole_sum(
        row,
        row_of(f, j),
        j,
        diagonal_of(sign_at(row, f, j)),
        v,
        v[j],
    );
    round_joint(down, even, s)
}

// What the element was, where v has of its own row the numbers recovered before it.
#[tactic(auto, unfolding(crate::specs::Elements::undone_rest))]
pub fn undone_at(
    down: bool,
    even: bool,
    row: &[i32],
    f: Layout,
    j: usize,
    d: i32,
    v: &[i64; Block::LINE],
    x: i32,
) -> i64
    requires { ElementGiven row.now f j d v.now x }
    ensures { result ≡ undone_rest (rule_by down even) row.now f j d v.now x }
{
    undone(
        both_signs(d, sign_at(row, f, j)),
        x,
        rounded_rest_at(down, even, row, f, j, v),
    )
}

// d times a number: a sign turns it, which is faster than a product.
pub fn turned(d: i32, w: i64) -> i64
    requires { Sign d × SFits w64 (d *ℤ w) }
    ensures { result ≡ d *ℤ w }
{
    if d < 0 { -w } else { w }
}

// A sum, and a diagonal's weight, of the sign d, times the number w of its own column.
pub fn with_diagonal(sum: i64, d: i32, w: i64) -> i64
    requires { Within most_joint sum × Sign d × Within most_column w }
    ensures { result ≡ sum +ℤ (diagonal_of d *ℤ w) }
{
    sum + Scale::LINE * turned(d, w)
}

// What an element has of its own: its number x, by the signs d of its row and e of its column.
fn own(d: i32, e: i32, x: i32) -> i64
    requires { Sign d × Sign e × Within bound x }
    ensures { result ≡ (d *ℤ e) *ℤ x }
{
    (both_signs(d, e) as i64) * (x as i64)
}

// What an element becomes whose sum s has its own term in it. The own term is a whole number of 16777216, so it need not be taken
// off. But halves go to what is even without it: the own number has to be known there.
#[tactic(auto, unfolding(crate::specs::Elements::applied_from))]
pub fn applied_whole(down: bool, even: bool, s: i64, d: i32, e: i32, x: i32) -> i64
    requires { Within most_joint s × Sign d × Sign e × Within bound x }
    ensures { result ≡ applied_from (rule_by down even) s d e x }
{
    round_past(down, even, s, own(d, e, x))
}

// What an element was whose sum s has nothing of its own number.
#[tactic(auto, unfolding(crate::specs::Elements::undone_from))]
pub fn undone_whole(down: bool, even: bool, s: i64, d: i32, e: i32, x: i32) -> i64
    requires { Within most_joint s × Sign d × Sign e × Within bound x }
    ensures { result ≡ undone_from (rule_by down even) s d e x }
{
    undone(both_signs(d, e), x, round_joint(down, even, s))
}
