// One element's allowance: v has the sums of its row over the columns, b is its allowance so far.
ghost use Rattle.std.specs.Prelude.{◌≡◌, ◌+◌, ◌-◌, ◌≤◌, ◌<◌, pos, ◌+ℤ◌, replicate};
ghost use Rattle.std.specs.Int.{w64};
ghost use Rattle.std.proofs.Common.{SFits};
ghost use Rattle.rules.specs.Numbers.{most_order, unit², most_allowance};
ghost use Rattle.rules.specs.Stages.{ceiling};
ghost use Rattle.factor.specs.SumBounds.{Bounded};
ghost use Rattle.factor.specs.LayoutInSheet.{InSheet};
ghost use Rattle.joint.specs.Allowances.{AllowanceGiven, magnitude_sums, magnitude_sum, whole_row, share_of, allowed_at};

use crate::sums::{column_sums, joint_sum};
use factor::magnitudes::{are_whole, magnitudes};
use factor::rounding::{raised, share_of};
use factor::{Layout, Row, row_of};
use rules::{Block, Rule, Scale, Sheet};

// The quotient s / 16777216 upward.
#[tactic(auto, unfolding(rules::specs::Stages::ceiling))]
fn raise_joint(s: i64) -> i64
    requires { SFits w64 (s +ℤ pos (unit² - 1)) × SFits w64 (ceiling unit² s) }
    ensures { result ≡ ceiling unit² s }
{
    (s + Scale::JOINT_UP) >> Scale::JOINT_BITS
}

// The sums of row i over the n columns of a block of allowances, with magnitudes, into v.
pub fn magnitude_sums_at(
    col: &[i32],
    f: Layout,
    i: usize,
    b: &[i32; Block::CELLS],
    n: usize,
    v: &mut [i64; Block::LINE],
)
    requires { InSheet col.now f × (i < f.order) × (n ≤ most_order) × Bounded most_allowance b.now
        × (v.old ≡ replicate most_order (pos 0)) }
    ensures { v.new ≡ magnitude_sums col.now f i b.now n }
{
    let r = row_of(f, i);
    let a = magnitudes(col, r.at, r.left + r.right);
    column_sums(&a, Row { at: 0, ..r }, i, Sheet::UNIT, b, n, v)
}

// The sum of the element in column j, with magnitudes.
fn magnitude_sum_at(row: &[i32], f: Layout, j: usize, v: &[i64; Block::LINE], b: i32) -> i64
    requires { AllowanceGiven row.now f j v.now b }
    ensures { result ≡ magnitude_sum row.now f j v.now b }
{
    let r = row_of(f, j);
    let a = magnitudes(row, r.at, r.left + r.right);
    joint_sum(&a, Row { at: 0, ..r }, j, Sheet::UNIT, Sheet::UNIT, v, b)
}

// Whether row m has only multiples of 4096.
pub fn is_whole_row(sheet: &[i32], f: Layout, m: usize) -> bool
    requires { InSheet sheet.now f × (m < f.order) }
    ensures { result ≡ whole_row sheet.now f m }
{
    let r = row_of(f, m);
    are_whole(sheet, r.at, r.left + r.right)
}

// What a rounding adds, unless both rows have only multiples of 4096.
fn share_unless_whole(rule: Rule, a: bool, b: bool) -> i64
    ensures { result ≡ share_of rule a b }
{
    if a && b { 0 } else { share_of(rule) }
}

// What the element's allowance becomes; whole says that its row has only multiples of 4096.
#[tactic(auto, unfolding(rules::specs::Stages::ceiling, crate::specs::Allowances::allowed_at))]
pub fn allowed_at(
    rule: Rule,
    row: &[i32],
    f: Layout,
    j: usize,
    whole: bool,
    v: &[i64; Block::LINE],
    b: i32,
) -> i64
    requires { AllowanceGiven row.now f j v.now b }
    ensures { result ≡ allowed_at rule row.now f j whole v.now b }
{
    raised(
        b,
        raise_joint(magnitude_sum_at(row, f, j, v, b)),
        share_unless_whole(rule, whole, is_whole_row(row, f, j)),
    )
}
