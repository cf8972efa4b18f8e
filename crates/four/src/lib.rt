// One stage of a line of four numbers, the most common order: every place is a constant, so that the block stays in registers.
// Only accepted stages are of account here: where one has a number beyond the bound, the run of any order says which.
#![tactic(auto)]

ghost use Rattle.std.specs.Prelude.{true, false};
ghost use Rattle.rules.specs.Numbers.{bound};
ghost use Rattle.rules.specs.Factors.{factor_at};
ghost use Rattle.rules.specs.Shapes.{line_stage};
ghost use Rattle.laws.specs.Accepted.{FactorRead};
ghost use Rattle.factor.specs.SumBounds.{Bounded};
ghost use Rattle.factor.specs.Rounding.{rule_by};
ghost use Rattle.four.specs.Turns.{stage_on, Became, Given};

use moves::moved;
use rules::Kind;
use sheetread::factors::{count_at, kind_at};
use weights::{lower, single, upper};

mod elements; // one element, applied or undone
mod moves; // permutations
mod weights; // the kinds with weights

// The block so far, and whether every number was in bound. An Option inside would be a test after each element, which the next
// sum waits for; so the flag goes along, and is looked at once, at the end of the stage.
#[derive(Clone, Copy)]
struct Four {
    ok: bool,
    block: [i32; 4],
}

// The factor at place i, applied, or undone if BACK.
#[tactic(auto, unfolding(rules::specs::Factors::signs_at, laws::specs::Accepted::entries_of, rules::specs::Sheets::triangle))]
fn stage<const BACK: bool>(down: bool, even: bool, sheet: &[i32], i: usize, x: [i32; 4]) -> Four
    requires { FactorRead sheet.now 4 i × Bounded bound x }
    ensures { Became result (stage_on BACK (rule_by down even) 4 (line_stage 4 (factor_at sheet.now 4 i)) x) }
{
    match kind_at(sheet, i) {
        Kind::Permutation => moved::<BACK>(sheet, i + 1, x),
        Kind::Lower => lower::<BACK>(down, even, sheet, i + 1, x),
        Kind::Upper => upper::<BACK>(down, even, sheet, i + 1, x),
        Kind::Single => single::<BACK>(down, even, sheet, i + 2, count_at(sheet, i + 1), x),
    }
}

// The factor at place i, applied or undone; nothing if a number lies beyond the bound.
pub fn run_stage(
    back: bool,
    down: bool,
    even: bool,
    sheet: &[i32],
    i: usize,
    x: [i32; 4],
) -> Option<[i32; 4]>
    requires { FactorRead sheet.now 4 i × Bounded bound x }
    ensures { Given result (stage_on back (rule_by down even) 4 (line_stage 4 (factor_at sheet.now 4 i)) x) }
{
    let r = if back {
        stage::<true>(down, even, sheet, i, x)
    } else {
        stage::<false>(down, even, sheet, i, x)
    };
    r.ok.then_some(r.block)
}
