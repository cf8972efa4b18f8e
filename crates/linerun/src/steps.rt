// One element of a factor with weights, applied and undone; and what the factor does to allowances.
ghost use Rattle.std.specs.Prelude.{◌≡◌, is_ok, cond, ◌+◌, ◌<◌, pos, ◌+ℤ◌, ◌-ℤ◌, ◌*ℤ◌};
ghost use Rattle.std.specs.Int.{w64};
ghost use Rattle.std.proofs.Common.{Fits};
ghost use Rattle.whole.specs.Diff.{Within};
ghost use Rattle.rules.specs.Numbers.{most_order, bound, most_allowance, at};
ghost use Rattle.rules.specs.Stages.{share, fill};
ghost use Rattle.factor.specs.Layouts.{along};
ghost use Rattle.factor.specs.SumBounds.{Bounded, RowIn, Kept};
ghost use Rattle.factor.specs.LayoutInSheet.{InSheet};
ghost use Rattle.factor.specs.Magnitudes.{Entries, whole, magnitude_at};
ghost use Rattle.factor.specs.Steps.{Step};
ghost use Rattle.linerun.specs.Steps.{ElementGiven, allowed_at};
ghost use Rattle.linerun.specs.LineBounds.{most_rounded};
ghost use Rattle.linerun.specs.RowColumns.{column_of};

use factor::bounds::{Beyond, keep};
use factor::magnitudes::{are_whole, magnitude};
use factor::rounding::{applied, raise_line, raised, share_of, undone};
use factor::sums::with_term;
use factor::{Layout, Row, row_of};
use rules::{Block, Rule};

// Element m of the new block y, from the old block x and the rounded sum q of its row, if it is in bound.
pub fn apply_at(
    sheet: &[i32],
    f: Layout,
    m: usize,
    q: i64,
    x: &[i32; Block::LINE],
    y: &mut [i32; Block::LINE],
) -> Result<(), Beyond>
    requires { ElementGiven sheet.now f m x.now × Within most_rounded q }
    ensures { Kept bound ((at sheet.now (f.signs + m) *ℤ at x.now m) +ℤ q) m
        y.old (is_ok result) y.new }
{
    keep(applied(sheet[f.signs + m], x[m], q), Block::SAMPLE, y, m)
}

// What element m was, by the rounded sum q of its row, in its place in the block, if it is in bound.
pub fn undo_at(
    sheet: &[i32],
    f: Layout,
    m: usize,
    q: i64,
    x: &mut [i32; Block::LINE],
) -> Result<(), Beyond>
    requires { ElementGiven sheet.now f m x.old × Within most_rounded q }
    ensures { Kept bound (at sheet.now (f.signs + m) *ℤ (at x.old m -ℤ q)) m
        x.old (is_ok result) x.new }
{
    keep(undone(sheet[f.signs + m], x[m], q), Block::SAMPLE, x, m)
}

// What the rounding of a row adds, unless all its entries are multiples of 4096.
fn row_share(rule: Rule, sheet: &[i32], p: usize, m: usize) -> i64
    requires { Entries sheet.now p m }
    ensures { result ≡ cond (whole sheet.now p m) (pos 0) (pos (share rule)) }
{
    if are_whole(sheet, p, m) {
        0
    } else {
        share_of(rule)
    }
}

// The column of entry j of row m.
fn column_of(r: Row, m: usize, j: usize) -> usize
    requires { Fits w64 (m + 1 + j) }
    ensures { result ≡ column_of r m j }
{
    if j < r.left { j } else { m + 1 + (j - r.left) }
}

// The sum of the magnitudes of row m, each times the allowance of its column. Nobody waits for allowances, so what counts is that
// they need little stack: the sum goes through the row's entries in one loop, and keeps no array of their magnitudes.
#[tactic(auto, unfolding(whole::specs::Stated::sum))]
fn magnitude_sum_at(sheet: &[i32], r: Row, m: usize, b: &[i32; Block::LINE]) -> i64
    requires { RowIn sheet.now most_order r m × Bounded most_allowance b.now }
    ensures { result ≡ along (magnitude_at sheet.now) r m b.now }
{
    let many = r.left + r.right;
    let mut sum: i64 = 0;
    for j in 0..many {
        sum = with_term(sum, magnitude(sheet[r.at + j]), b[column_of(r, m, j)]);
    }
    sum
}

// What the allowance of element m becomes.
#[tactic(auto, unfolding(rules::specs::Stages::ceiling, crate::specs::Steps::allowed_at))]
pub fn allowed_at(rule: Rule, sheet: &[i32], f: Layout, m: usize, b: &[i32; Block::LINE]) -> i64
    requires { InSheet sheet.now f × (m < f.order) × Bounded most_allowance b.now }
    ensures { result ≡ allowed_at rule sheet.now f b.now m }
{
    let r = row_of(f, m);
    raised(
        b[m],
        raise_line(magnitude_sum_at(sheet, r, m, b)),
        row_share(rule, sheet, r.at, r.left + r.right),
    )
}

// The allowances after a factor with weights.
#[tactic(auto, unfolding(rules::specs::Stages::fill))]
pub fn allow_weights(
    rule: Rule,
    sheet: &[i32],
    f: Layout,
    b: &[i32; Block::LINE],
    c: &mut [i32; Block::LINE],
) -> Result<(), Beyond>
    requires { InSheet sheet.now f × Bounded most_allowance b.now }
    ensures { Step most_allowance f.order (fill f.order (allowed_at rule sheet.now f b.now) b.now)
        (is_ok result) c.new }
{
    *c = *b;
    for m in 0..f.order {
        keep(allowed_at(rule, sheet, f, m, b), Block::ALLOWANCE, c, m)?;
    }
    Ok(())
}
