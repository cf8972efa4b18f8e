// Permutations of a line of four; p is the place of the first of their places.
ghost use Rattle.std.specs.Prelude.{true, false, ◌≡◌, ◌+◌, ◌<◌};
ghost use Rattle.rules.specs.Numbers.{bound, count};
ghost use Rattle.laws.specs.Accepted.{Stretch};
ghost use Rattle.laws.specs.Readers.{Seen};
ghost use Rattle.factor.specs.MovedInPlace.{moved_by};
ghost use Rattle.factor.specs.SumBounds.{Bounded};
ghost use Rattle.four.specs.Turns.{Became};

use crate::Four;
use rules::Item;
use sheetread::factors::count_at;

// The m-th place.
fn place(sheet: &[i32], p: usize, m: usize) -> usize
    requires { Seen sheet.now (Item.Place 4 p) (p + m) }
    ensures { (result ≡ count sheet.now (p + m)) × (result < 4) }
{
    count_at(sheet, p + m)
}

// Place m takes the number of the m-th place.
#[tactic(auto, unfolding(factor::specs::MovedInPlace::moved_by, rules::specs::Stages::fill))]
fn applied(sheet: &[i32], p: usize, x: [i32; 4]) -> Four
    requires { Stretch sheet.now (Item.Place 4 p) 4 p × Bounded bound x }
    ensures { Became result (moved_by false 4 (λ m. count sheet.now (p + m)) x) }
{
    let a = place(sheet, p, 0);
    let b = place(sheet, p, 1);
    let c = place(sheet, p, 2);
    let d = place(sheet, p, 3);
    Four {
        ok: true,
        block: [x[a], x[b], x[c], x[d]],
    }
}

// The number of place m goes to the m-th place.
#[tactic(auto, unfolding(factor::specs::MovedInPlace::moved_by, rules::specs::Stages::put_back))]
fn undone(sheet: &[i32], p: usize, y: [i32; 4]) -> Four
    requires { Stretch sheet.now (Item.Place 4 p) 4 p × Bounded bound y }
    ensures { Became result (moved_by true 4 (λ m. count sheet.now (p + m)) y) }
{
    let a = place(sheet, p, 0);
    let b = place(sheet, p, 1);
    let c = place(sheet, p, 2);
    let d = place(sheet, p, 3);
    let mut x = y;
    x[a] = y[0];
    x[b] = y[1];
    x[c] = y[2];
    x[d] = y[3];
    Four { ok: true, block: x }
}

// The one or the other.
pub fn moved<const BACK: bool>(sheet: &[i32], p: usize, x: [i32; 4]) -> Four
    requires { Stretch sheet.now (Item.Place 4 p) 4 p × Bounded bound x }
    ensures { Became result (moved_by BACK 4 (λ m. count sheet.now (p + m)) x) }
{
    if BACK {
        undone(sheet, p, x)
    } else {
        applied(sheet, p, x)
    }
}
