// The bound: of what is lent, stage 0, and of a number that goes into its block.
ghost use Rattle.std.specs.Prelude.{◌≡◌, ◌<◌, T, nat_abs, length, is_ok};
ghost use Rattle.std.specs.Int.Signed.{non_neg};
ghost use Rattle.rules.specs.Numbers.{bound};
ghost use Rattle.rules.specs.Stages.{inside};
ghost use Rattle.factor.specs.SumBounds.{Kept};

use crate::rounding::is_within;
use rules::Block;

// A number of 32 bits in 64.
pub fn wide(z: i32) -> i64
    ensures { result ≡ z }
{
    z as i64
}

// Whether every number of the input is in bound. No number ends the loop, so that several can be looked at together.
#[tactic(auto, unfolding(rules::specs::Stages::inside))]
pub fn is_inside(x: &[i32]) -> bool
    ensures { result ≡ inside bound (length x.now) x.now }
{
    x.iter()
        .fold(true, |fine, z| fine & is_within(wide(*z), Block::SAMPLE))
}

// A number that lies beyond the bound, or an allowance beyond its limit.
#[derive(Clone, Copy, Debug, PartialEq, Eq)]
pub struct Beyond {}

// A number into place k of a block, if it lies between -most and most.
pub fn keep(z: i64, most: i32, x: &mut [i32], k: usize) -> Result<(), Beyond>
    requires { T (non_neg most) × (k < length x.old) }
    ensures { Kept (nat_abs most) z k x.old (is_ok result) x.new }
{
    if !is_within(z, most) {
        return Err(Beyond {});
    }
    x[k] = z as i32;
    Ok(())
}
