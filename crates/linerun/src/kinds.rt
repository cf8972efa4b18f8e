// A factor with weights, applied and undone: a loop for each kind, so that its kind is looked at once. Applied, every element of
// the block y is made from the block x, of which y is a copy. Undone in place, a loop stops at the first number beyond the bound:
// later sums could leave 64 bits.
ghost use Rattle.std.specs.Prelude.{◌≢◌, ◌≡◌, ◌<◌, is_ok};
ghost use Rattle.rules.specs.Numbers.{bound};
ghost use Rattle.rules.specs.Stages.{fill};
ghost use Rattle.factor.specs.Layouts.{row_of};
ghost use Rattle.factor.specs.SumBounds.{Bounded};
ghost use Rattle.factor.specs.LayoutInSheet.{InSheet};
ghost use Rattle.factor.specs.Steps.{Step};
ghost use Rattle.factor.specs.Rounding.{rule_by};
ghost use Rattle.linerun.specs.Steps.{ElementGiven, rounded_sum, applied_at, undone_in_place};

use crate::steps::{apply_at, undo_at};
use factor::bounds::Beyond;
use factor::rounding::round_line;
use factor::sums::{products_sum, products_sum_from, row_sum};
use factor::{Layout, before_lower, nth_undone, row_of};
use rules::{Block, Kind};

// The rounded sum of row m of a lower factor, whose entries start at place p.
#[tactic(auto, unfolding(crate::specs::Steps::rounded_sum))]
fn left_sum(
    down: bool,
    even: bool,
    sheet: &[i32],
    f: Layout,
    p: usize,
    m: usize,
    x: &[i32; Block::LINE],
) -> i64
    requires { ElementGiven sheet.now f m x.now × (f.kind ≡ Kind.Lower) × (p ≡ (row_of f m).at) }
    ensures { result ≡ rounded_sum (rule_by down even) sheet.now f x.now m }
{
    round_line(down, even, products_sum(&sheet[p..], x, m))
}

// The rounded sum of row m of an upper factor, whose entries start at place p.
#[tactic(auto, unfolding(crate::specs::Steps::rounded_sum))]
fn right_sum(
    down: bool,
    even: bool,
    sheet: &[i32],
    f: Layout,
    p: usize,
    m: usize,
    x: &[i32; Block::LINE],
) -> i64
    requires { ElementGiven sheet.now f m x.now × (f.kind ≡ Kind.Upper) × (p ≡ (row_of f m).at) }
    ensures { result ≡ rounded_sum (rule_by down even) sheet.now f x.now m }
{
    round_line(
        down,
        even,
        products_sum_from(&sheet[p..], x, m + 1, f.order - 1 - m),
    )
}

// The rounded sum of row m of a factor with a single row: the others have no entries.
#[tactic(auto, unfolding(crate::specs::Steps::rounded_sum))]
fn single_sum(
    down: bool,
    even: bool,
    sheet: &[i32],
    f: Layout,
    m: usize,
    x: &[i32; Block::LINE],
) -> i64
    requires { ElementGiven sheet.now f m x.now × (f.kind ≡ Kind.Single) }
    ensures { result ≡ rounded_sum (rule_by down even) sheet.now f x.now m }
{
    if m == f.row {
        round_line(down, even, row_sum(sheet, row_of(f, m), m, x))
    } else {
        0
    }
}

// A lower factor, applied: every element from the old block.
#[tactic(auto, unfolding(rules::specs::Stages::fill, rules::specs::Sheets::triangle, crate::specs::Steps::applied_at))]
fn lower(
    down: bool,
    even: bool,
    sheet: &[i32],
    f: Layout,
    x: &[i32; Block::LINE],
    y: &mut [i32; Block::LINE],
) -> Result<(), Beyond>
    requires { InSheet sheet.now f × (f.kind ≡ Kind.Lower) × Bounded bound x.now × (y.old ≡ x.now) }
    ensures { Step bound f.order (fill f.order (applied_at (rule_by down even) sheet.now f x.now) x.now)
        (is_ok result) y.new }
{
    let mut p = f.entries;
    for m in 0..f.order {
        let q = left_sum(down, even, sheet, f, p, m, x);
        apply_at(sheet, f, m, q, x, y)?;
        p += m;
    }
    Ok(())
}

// An upper factor, applied: every element from the old block.
#[tactic(auto, unfolding(rules::specs::Stages::fill, rules::specs::Factors::above, crate::specs::Steps::applied_at))]
fn upper(
    down: bool,
    even: bool,
    sheet: &[i32],
    f: Layout,
    x: &[i32; Block::LINE],
    y: &mut [i32; Block::LINE],
) -> Result<(), Beyond>
    requires { InSheet sheet.now f × (f.kind ≡ Kind.Upper) × Bounded bound x.now × (y.old ≡ x.now) }
    ensures { Step bound f.order (fill f.order (applied_at (rule_by down even) sheet.now f x.now) x.now)
        (is_ok result) y.new }
{
    let mut p = f.entries;
    for m in 0..f.order {
        let q = right_sum(down, even, sheet, f, p, m, x);
        apply_at(sheet, f, m, q, x, y)?;
        p += f.order - 1 - m;
    }
    Ok(())
}

// A factor with a single row, applied: every element from the old block.
#[tactic(auto, unfolding(rules::specs::Stages::fill, crate::specs::Steps::applied_at))]
fn single(
    down: bool,
    even: bool,
    sheet: &[i32],
    f: Layout,
    x: &[i32; Block::LINE],
    y: &mut [i32; Block::LINE],
) -> Result<(), Beyond>
    requires { InSheet sheet.now f × (f.kind ≡ Kind.Single) × Bounded bound x.now × (y.old ≡ x.now) }
    ensures { Step bound f.order (fill f.order (applied_at (rule_by down even) sheet.now f x.now) x.now)
        (is_ok result) y.new }
{
    for m in 0..f.order {
        let q = single_sum(down, even, sheet, f, m, x);
        apply_at(sheet, f, m, q, x, y)?;
    }
    Ok(())
}

// A lower factor, undone.
#[tactic(auto, unfolding(factor::specs::UndoingOrder::nth_undone, factor::specs::InPlace::in_place, rules::specs::Sheets::triangle, crate::specs::Steps::undone_at))]
fn lower_back(
    down: bool,
    even: bool,
    sheet: &[i32],
    f: Layout,
    x: &mut [i32; Block::LINE],
) -> Result<(), Beyond>
    requires { InSheet sheet.now f × (f.kind ≡ Kind.Lower) × (f.row < f.order) × Bounded bound x.old }
    ensures { Step bound f.order (undone_in_place (rule_by down even) sheet.now f f.order x.old)
        (is_ok result) x.new }
{
    let mut p = f.entries;
    for m in 0..f.order {
        let q = left_sum(down, even, sheet, f, p, m, x);
        undo_at(sheet, f, m, q, x)?;
        p += m;
    }
    Ok(())
}

// An upper factor, undone.
#[tactic(auto, unfolding(factor::specs::UndoingOrder::nth_undone, factor::specs::InPlace::in_place, rules::specs::Factors::above, crate::specs::Steps::undone_at))]
fn upper_back(
    down: bool,
    even: bool,
    sheet: &[i32],
    f: Layout,
    x: &mut [i32; Block::LINE],
) -> Result<(), Beyond>
    requires { InSheet sheet.now f × (f.kind ≡ Kind.Upper) × (f.row < f.order) × Bounded bound x.old }
    ensures { Step bound f.order (undone_in_place (rule_by down even) sheet.now f f.order x.old)
        (is_ok result) x.new }
{
    let mut p = f.entries + before_lower(f.order);
    for t in 0..f.order {
        let m = f.order - 1 - t;
        p -= t;
        let q = right_sum(down, even, sheet, f, p, m, x);
        undo_at(sheet, f, m, q, x)?;
    }
    Ok(())
}

// A factor with a single row, undone.
#[tactic(auto, unfolding(factor::specs::UndoingOrder::nth_undone, factor::specs::InPlace::in_place, crate::specs::Steps::undone_at))]
fn single_back(
    down: bool,
    even: bool,
    sheet: &[i32],
    f: Layout,
    x: &mut [i32; Block::LINE],
) -> Result<(), Beyond>
    requires { InSheet sheet.now f × (f.kind ≡ Kind.Single) × (f.row < f.order) × Bounded bound x.old }
    ensures { Step bound f.order (undone_in_place (rule_by down even) sheet.now f f.order x.old)
        (is_ok result) x.new }
{
    for t in 0..f.order {
        let m = nth_undone(f, t);
        let q = single_sum(down, even, sheet, f, m, x);
        undo_at(sheet, f, m, q, x)?;
    }
    Ok(())
}

// A factor with weights, applied. A permutation has none, and does not come here. The loops of triangles, which round in every
// turn, are compiled for each value of the second test.
pub fn apply_weights(
    down: bool,
    even: bool,
    sheet: &[i32],
    f: Layout,
    x: &[i32; Block::LINE],
    y: &mut [i32; Block::LINE],
) -> Result<(), Beyond>
    requires { InSheet sheet.now f × (f.kind ≢ Kind.Permutation) × Bounded bound x.now × (y.old ≡ x.now) }
    ensures { Step bound f.order (fill f.order (applied_at (rule_by down even) sheet.now f x.now) x.now)
        (is_ok result) y.new }
{
    match f.kind {
        Kind::Permutation => single(down, even, sheet, f, x, y),
        Kind::Lower if even => lower(down, true, sheet, f, x, y),
        Kind::Lower => lower(down, false, sheet, f, x, y),
        Kind::Upper if even => upper(down, true, sheet, f, x, y),
        Kind::Upper => upper(down, false, sheet, f, x, y),
        Kind::Single => single(down, even, sheet, f, x, y),
    }
}

// A factor with weights, undone, in the same way.
pub fn undo_weights(
    down: bool,
    even: bool,
    sheet: &[i32],
    f: Layout,
    x: &mut [i32; Block::LINE],
) -> Result<(), Beyond>
    requires { InSheet sheet.now f × (f.kind ≢ Kind.Permutation) × (f.row < f.order) × Bounded bound x.old }
    ensures { Step bound f.order (undone_in_place (rule_by down even) sheet.now f f.order x.old)
        (is_ok result) x.new }
{
    match f.kind {
        Kind::Permutation => single_back(down, even, sheet, f, x),
        Kind::Lower if even => lower_back(down, true, sheet, f, x),
        Kind::Lower => lower_back(down, false, sheet, f, x),
        Kind::Upper if even => upper_back(down, true, sheet, f, x),
        Kind::Upper => upper_back(down, false, sheet, f, x),
        Kind::Single => single_back(down, even, sheet, f, x),
    }
}
