// A pair of factors with weights, on allowances: row by row, in place.
ghost use Rattle.std.specs.Prelude.{is_ok};
ghost use Rattle.rectanglerun.specs.RowsInTurn.{Weighable, Weighed};

use factor::bounds::Beyond;
use factor::run::Task;
use factor::{Layout, nth_undone};
use joint::rows::allow_row;
use rules::{Block, Rule};

// The allowances of all rows. The row that is undone last comes first, so that no row looks at one written before it.
#[tactic(auto, unfolding(crate::specs::UndoingOrder::nth_row, factor::specs::Tasks::is_inverse, factor::specs::Tasks::limit_of, joint::specs::RowsInPlace::element_of, joint::specs::RowsInPlace::row_order))]
pub fn allow_rows(
    rule: Rule,
    col: &[i32],
    fa: Layout,
    row: &[i32],
    fb: Layout,
    x: &mut [i32; Block::CELLS],
) -> Result<(), Beyond>
    requires { Weighable Task.Allowance col.now fa row.now fb x.old }
    ensures { Weighed Task.Allowance rule col.now fa row.now fb x.old
        (is_ok result) x.new }
{
    let n = fa.order;
    for s in 0..n {
        let i = nth_undone(fa, n - 1 - s);
        allow_row(rule, col, fa, row, fb, i, x)?;
    }
    Ok(())
}
