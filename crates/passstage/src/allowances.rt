// A factor with weights on allowances: a line at a time, each number by the line's own code. Nobody waits for allowances.
ghost use Rattle.std.specs.Prelude.{◌≡◌, ◌≤◌, ◌<◌, length, is_ok};
ghost use Rattle.rules.specs.Numbers.{most_order, most_cells, most_allowance};
ghost use Rattle.factor.specs.SumBounds.{Bounded};
ghost use Rattle.factor.specs.LayoutInSheet.{InSheet};
ghost use Rattle.passstage.specs.Lanes.{lane};
ghost use Rattle.passstage.specs.LaneSteps.{line_allowed, LineMade, LinesMade};

use factor::Layout;
use factor::bounds::{Beyond, keep};
use factor::moves::copy_line;
use linerun::steps::allowed_at;
use rules::{Block, Rule};

// The allowances of line l, up to the first that is beyond the limit.
#[tactic(auto, unfolding(crate::specs::Lanes::lane, factor::specs::MovedInPlace::scattered))]
fn allow_line(
    rule: Rule,
    sheet: &[i32],
    f: Layout,
    l: usize,
    x: &mut [i32; Block::CELLS],
) -> Result<(), Beyond>
    requires { InSheet sheet.now f × (l < most_order) × Bounded most_allowance x.old × (length x.old ≡ most_cells) }
    ensures { LineMade most_allowance f.order l (line_allowed rule sheet.now f (lane l x.old))
        x.old x.new (is_ok result) }
{
    let n = f.order;
    let mut v = [0i32; Block::LINE];
    copy_line(x, Block::LINE, l, Block::LINE, &mut v);
    for m in 0..n {
        let z = allowed_at(rule, sheet, f, m, &v);
        keep(z, Block::ALLOWANCE, x, l + m * Block::LINE)?;
    }
    Ok(())
}

// Those of w lines.
pub fn allow_lines(
    rule: Rule,
    sheet: &[i32],
    f: Layout,
    w: usize,
    x: &mut [i32; Block::CELLS],
) -> Result<(), Beyond>
    requires { InSheet sheet.now f × (w ≤ most_order) × Bounded most_allowance x.old × (length x.old ≡ most_cells) }
    ensures { LinesMade most_allowance f.order (line_allowed rule sheet.now f) w x.old
        x.new (is_ok result) }
{
    for l in 0..w {
        allow_line(rule, sheet, f, l, x)?;
    }
    Ok(())
}
