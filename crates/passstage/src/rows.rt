// A factor with weights along every line, in place, row by row.
ghost use Rattle.std.specs.Prelude.{◌≡◌, ◌*◌, ◌≤◌, ◌<◌, length, is_ok};
ghost use Rattle.rules.specs.Numbers.{most_order, most_cells, bound};
ghost use Rattle.factor.specs.Rounding.{rule_by};
ghost use Rattle.factor.specs.SumBounds.{Bounded};
ghost use Rattle.factor.specs.LayoutInSheet.{InSheet};
ghost use Rattle.passstage.specs.Lanes.{lane};
ghost use Rattle.passstage.specs.LaneSteps.{step_at, turn_of, after_turns, RowMade, LinesMade};

use crate::numbers::{make_numbers, turn_row};
use crate::sums::{Parts, add_columns};
use factor::bounds::Beyond;
use factor::{Layout, nth_undone, row_of};
use rules::Block;

// The row that is taken in turn t: undone, in the order of undoing; applied, the other way round, so that no row looks at one
// written before it.
#[tactic(auto, unfolding(crate::specs::LaneSteps::turn_of))]
fn row_in_turn(back: bool, f: Layout, t: usize) -> usize
    requires { (t < f.order) × (f.row < f.order) }
    ensures { result ≡ turn_of back f t }
{
    if back {
        nth_undone(f, t)
    } else {
        nth_undone(f, f.order - 1 - t)
    }
}

// Row m, for w lines.
fn take_row(
    back: bool,
    down: bool,
    even: bool,
    sheet: &[i32],
    f: Layout,
    m: usize,
    w: usize,
    x: &mut [i32; Block::CELLS],
) -> Result<(), Beyond>
    requires { InSheet sheet.now f × (m < f.order) × (w ≤ most_order) × Bounded bound x.old
        × (length x.old ≡ most_cells) }
    ensures { RowMade (m * most_order) w (λ l. step_at back (rule_by down even) sheet.now f
        (lane l x.old) m) x.old x.new (is_ok result) }
{
    let d = sheet[f.signs + m];
    let r = row_of(f, m);
    if r.left + r.right == 0 {
        turn_row(d, m * Block::LINE, w, x);
        return Ok(());
    }
    let mut v = [0i32; Parts::BOTH];
    add_columns(sheet, r.at, r.left, x, 0, w, &mut v);
    add_columns(
        sheet,
        r.at + r.left,
        r.right,
        x,
        (m + 1) * Block::LINE,
        w,
        &mut v,
    );
    make_numbers(back, down, even, d, m * Block::LINE, w, &v, x)
}

// All rows, up to the first that has a number beyond the bound.
pub fn take_rows(
    back: bool,
    down: bool,
    even: bool,
    sheet: &[i32],
    f: Layout,
    w: usize,
    x: &mut [i32; Block::CELLS],
) -> Result<(), Beyond>
    requires { InSheet sheet.now f × (f.row < f.order) × (w ≤ most_order) × Bounded bound x.old
        × (length x.old ≡ most_cells) }
    ensures { LinesMade bound f.order (after_turns back (rule_by down even) sheet.now f f.order) w
        x.old x.new (is_ok result) }
{
    for t in 0..f.order {
        let m = row_in_turn(back, f, t);
        take_row(back, down, even, sheet, f, m, w, x)?;
    }
    Ok(())
}
