// The kinds with weights, applied, or undone if BACK: element by element, in the order of undoing. p is the place of the first
// sign.
ghost use Rattle.std.specs.Prelude.{◌<◌};
ghost use Rattle.rules.specs.Numbers.{bound};
ghost use Rattle.factor.specs.SumBounds.{Bounded};
ghost use Rattle.factor.specs.Rounding.{rule_by};
ghost use Rattle.four.specs.Turns.{lower_by, upper_by, single_by, Became};
ghost use Rattle.four.specs.TurnLaws.{FactorIn};

use crate::Four;
use crate::elements::turn;

// A lower factor, from the top.
pub fn lower<const BACK: bool>(down: bool, even: bool, sheet: &[i32], p: usize, x: [i32; 4]) -> Four
    requires { FactorIn sheet.now p 6 × Bounded bound x }
    ensures { Became result (lower_by (rule_by down even) sheet.now p BACK x) }
{
    let v = Four { ok: true, block: x };
    let a = turn::<BACK>(down, even, sheet, p, 0, 0, 0, 0, 0, x, v);
    let b = turn::<BACK>(down, even, sheet, p, 1, 1, 0, 0, 0, x, a);
    let c = turn::<BACK>(down, even, sheet, p, 2, 2, 3, 0, 0, x, b);
    turn::<BACK>(down, even, sheet, p, 3, 4, 5, 6, 0, x, c)
}

// An upper factor, from the bottom.
pub fn upper<const BACK: bool>(down: bool, even: bool, sheet: &[i32], p: usize, x: [i32; 4]) -> Four
    requires { FactorIn sheet.now p 6 × Bounded bound x }
    ensures { Became result (upper_by (rule_by down even) sheet.now p BACK x) }
{
    let v = Four { ok: true, block: x };
    let a = turn::<BACK>(down, even, sheet, p, 3, 0, 0, 0, 0, x, v);
    let b = turn::<BACK>(down, even, sheet, p, 2, 0, 0, 0, 6, x, a);
    let c = turn::<BACK>(down, even, sheet, p, 1, 0, 0, 4, 5, x, b);
    turn::<BACK>(down, even, sheet, p, 0, 0, 1, 2, 3, x, c)
}

// A factor with the single row r: all signs, then that row.
pub fn single<const BACK: bool>(
    down: bool,
    even: bool,
    sheet: &[i32],
    p: usize,
    r: usize,
    x: [i32; 4],
) -> Four
    requires { FactorIn sheet.now p 3 × (r < 4) × Bounded bound x }
    ensures { Became result (single_by (rule_by down even) sheet.now p BACK r x) }
{
    let v = Four { ok: true, block: x };
    let a = turn::<BACK>(down, even, sheet, p, 0, 0, 0, 0, 0, x, v);
    let b = turn::<BACK>(down, even, sheet, p, 1, 0, 0, 0, 0, x, a);
    let c = turn::<BACK>(down, even, sheet, p, 2, 0, 0, 0, 0, x, b);
    let d = turn::<BACK>(down, even, sheet, p, 3, 0, 0, 0, 0, x, c);
    match r {
        0 => turn::<BACK>(down, even, sheet, p, 0, 0, 1, 2, 3, x, d),
        1 => turn::<BACK>(down, even, sheet, p, 1, 1, 0, 2, 3, x, d),
        2 => turn::<BACK>(down, even, sheet, p, 2, 1, 2, 0, 3, x, d),
        _ => turn::<BACK>(down, even, sheet, p, 3, 1, 2, 3, 0, x, d),
    }
}
