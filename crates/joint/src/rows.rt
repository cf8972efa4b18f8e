// One row of elements: every number that it makes is in bound, or the row stops there.
ghost use Rattle.std.specs.Prelude.{◌<◌, is_ok};
ghost use Rattle.rules.specs.Numbers.{most_allowance};
ghost use Rattle.factor.specs.SumBounds.{Bounded};
ghost use Rattle.factor.specs.LayoutInSheet.{InSheet};
ghost use Rattle.joint.specs.Allowances.{allowed_of};
ghost use Rattle.joint.specs.RowsInPlace.{RowDone, in_row, plain};

use crate::allowances::{allowed_at, is_whole_row, magnitude_sums_at};
use factor::Layout;
use factor::bounds::{Beyond, keep};
use rules::{Block, Rule};

// The allowances of row i in place.
#[tactic(auto, unfolding(factor::specs::InPlace::in_place))]
pub fn allow_row(
    rule: Rule,
    col: &[i32],
    fa: Layout,
    row: &[i32],
    fb: Layout,
    i: usize,
    x: &mut [i32; Block::CELLS],
) -> Result<(), Beyond>
    requires { InSheet col.now fa × InSheet row.now fb × (i < fa.order) × Bounded most_allowance x.old }
    ensures { RowDone most_allowance
        (plain (allowed_of rule col.now fa row.now fb x.old))
        (in_row fb.order i) fb.order x.old x.new (is_ok result) }
{
    let n = fb.order;
    let whole = is_whole_row(col, fa, i);
    let mut v = [0i64; Block::LINE];
    magnitude_sums_at(col, fa, i, x, n, &mut v);
    for j in 0..n {
        let e = i * n + j;
        let z = allowed_at(rule, row, fb, j, whole, &v, x[e]);
        keep(z, Block::ALLOWANCE, x, e)?;
    }
    Ok(())
}
