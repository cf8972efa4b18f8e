// The numbers of one row, for all lines: each from its sum, in its place.
ghost use Rattle.std.specs.Prelude.{◌≡◌, ◌+◌, pos, ◌+ℤ◌, ◌*ℤ◌, is_ok};
ghost use Rattle.whole.specs.Diff.{Within};
ghost use Rattle.whole.specs.Stated.{Sign};
ghost use Rattle.rules.specs.Numbers.{unit, bound, at};
ghost use Rattle.rules.specs.Stages.{R};
ghost use Rattle.factor.specs.Rounding.{rule_by};
ghost use Rattle.factor.specs.SumBounds.{Bounded};
ghost use Rattle.passstage.specs.Parts.{most_parts, most_new, joined};
ghost use Rattle.passstage.specs.LaneSteps.{made_by, row_set, RowGiven, RowMade};

use crate::sums::Parts;
use factor::bounds::{Beyond, wide};
use factor::rounding::{is_within, lift};
use rules::{Block, Scale};

// R of a sum, by the rule: 4096 times h, the sum of whole parts, and l, that of rests. Whole units pass through the floor.
fn rounded(down: bool, even: bool, h: i32, l: i32) -> i32
    requires { Within most_parts h × Within most_parts l }
    ensures { (result ≡ R (rule_by down even) unit ((pos unit *ℤ h) +ℤ l)) × Within most_new result }
{
    let q = h + (l >> Parts::BITS);
    let a = lift(down, even, Scale::LINE_HALF, wide(q)) as i32;
    h + ((l + a) >> Parts::BITS)
}

// What a number becomes, or was, by the rounded sum q of its row.
fn made(back: bool, d: i32, x: i32, q: i32) -> i32
    requires { Sign d × Within bound x × Within most_new q }
    ensures { result ≡ made_by back d x q }
{
    if d < 0 {
        q - x
    } else if back {
        x - q
    } else {
        x + q
    }
}

// The first w numbers from place k on, by the sums v. A number beyond the bound does not end the loop, so that several can be
// made together.
#[tactic(auto, unfolding(factor::specs::MovedInPlace::scattered))]
pub fn make_numbers(
    back: bool,
    down: bool,
    even: bool,
    d: i32,
    k: usize,
    w: usize,
    v: &[i32; Parts::BOTH],
    x: &mut [i32; Block::CELLS],
) -> Result<(), Beyond>
    requires { RowGiven d k w x.old × Bounded most_parts v.now }
    ensures { RowMade k w (λ l. made_by back d (at x.old (k + l))
        (R (rule_by down even) unit (joined v.now l))) x.old x.new (is_ok result) }
{
    let mut fine = true;
    for l in 0..w {
        let z = made(
            back,
            d,
            x[k + l],
            rounded(down, even, v[l], v[Block::LINE + l]),
        );
        x[k + l] = z;
        fine &= is_within(wide(z), Block::SAMPLE);
    }
    if fine { Ok(()) } else { Err(Beyond {}) }
}

// The numbers of a row without entries: a sign turns them.
#[tactic(auto, unfolding(factor::specs::MovedInPlace::scattered))]
pub fn turn_row(d: i32, k: usize, w: usize, x: &mut [i32; Block::CELLS])
    requires { RowGiven d k w x.old }
    ensures { x.new ≡ row_set k w (λ l. d *ℤ at x.old (k + l)) x.old }
{
    if d < 0 {
        for l in 0..w {
            x[k + l] = -x[k + l];
        }
    }
}
