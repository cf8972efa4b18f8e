// One element of a stage: the sum rounded, the sign, the bound. In 64 bits; each `requires` says that nothing wraps.
ghost use Rattle.std.specs.Prelude.{◌≡◌, ◌-◌, ◌%◌, T, leb, pos, nat_abs, ◌+ℤ◌, ◌-ℤ◌, ◌*ℤ◌, ◌≤ℤ◌};
ghost use Rattle.std.specs.Int.Signed.{non_neg};
ghost use Rattle.std.specs.Int.{w64};
ghost use Rattle.std.proofs.Common.{SFits};
ghost use Rattle.whole.specs.Stated.{Sign};
ghost use Rattle.whole.specs.Diff.{Within};
ghost use Rattle.rules.specs.Numbers.{unit, unit², bound};
ghost use Rattle.rules.specs.Stages.{R, Rounds, share, ceiling};
ghost use Rattle.factor.specs.Rounding.{rule_by, lift_by, most_roundable};

use rules::{Rule, Scale};

// The rule of a sum comes as two tests, whether it is rounded down and whether halves go to the even number (`rule_by`). An enum
// goes through memory, where a test goes through a register and can be taken out of a loop.

// 1 of an odd number, 0 of an even one.
fn odd(q: i64) -> i64
    requires { Within most_roundable q }
    ensures { result ≡ pos (nat_abs q % 2) }
{
    q & 1
}

// What is added to a sum before the floor is taken: a half; nothing; or a half, and less by 1 where the floor q of the sum is
// even, so that halves stay with it.
#[tactic(auto, unfolding(crate::specs::Rounding::lift_by))]
pub fn lift(down: bool, even: bool, half: i64, q: i64) -> i64
    requires { (pos 1 ≤ℤ half) × Within unit² half × Within most_roundable q }
    ensures { result ≡ pos (lift_by down even (nat_abs half) q) }
{
    if even {
        half - 1 + odd(q)
    } else if down {
        0
    } else {
        half
    }
}

// The two scales have a function each: its half and its shift are literals there, by which its proof computes the floor, and one
// function for both would not be shorter.

// R of a line's sum, by the rule. A shift to the right is a floor, also below zero: by rule 0 it is 4096·r ≤ s + 2048, and
// s + 2048 < 4096·r + 4096. So -2048 gives 0 and -2049 gives -1 (`roundings`).
pub fn round_line(down: bool, even: bool, s: i64) -> i64
    requires { Within most_roundable s }
    ensures { (result ≡ R (rule_by down even) unit s) × Rounds (rule_by down even) unit s result }
{
    let a = lift(down, even, Scale::LINE_HALF, s >> Scale::LINE_BITS);
    (s + a) >> Scale::LINE_BITS
}

// R2 of a rectangle's sum, by the rule, and k: s is that sum and k times 16777216. By rules 0 and 1 nothing need be done about k,
// which passes through the floor; halves go to what is even without it.
pub fn round_past(down: bool, even: bool, s: i64, k: i64) -> i64
    requires { Within most_roundable s × Within bound k }
    ensures { result ≡ k +ℤ R (rule_by down even) unit² (s -ℤ (pos unit² *ℤ k)) }
{
    let a = lift(down, even, Scale::JOINT_HALF, (s >> Scale::JOINT_BITS) - k);
    (s + a) >> Scale::JOINT_BITS
}

// R2 of a rectangle's sum, by the rule: by rule 0 -8388608 gives 0 and -8388609 gives -1 (`roundings`).
pub fn round_joint(down: bool, even: bool, s: i64) -> i64
    requires { Within most_roundable s }
    ensures { (result ≡ R (rule_by down even) unit² s) × Rounds (rule_by down even) unit² s result }
{
    round_past(down, even, s, 0)
}

// What one rounding adds to an allowance, counted in 1/4096.
#[tactic(auto, unfolding(rules::specs::Stages::share))]
pub fn share_of(rule: Rule) -> i64
    ensures { result ≡ pos (share rule) }
{
    match rule {
        Rule::Nearest | Rule::Even => Rule::SHARE,
        Rule::Down => Rule::SHARE_DOWN,
    }
}

// The quotient s / 4096 upward, for an allowance. A rectangle's scale has its own line in `joint`.
#[tactic(auto, unfolding(rules::specs::Stages::ceiling))]
pub fn raise_line(s: i64) -> i64
    requires { SFits w64 (s +ℤ pos (unit - 1)) × SFits w64 (ceiling unit s) }
    ensures { result ≡ ceiling unit s }
{
    (s + Scale::LINE_UP) >> Scale::LINE_BITS
}

// d·x + q: an element applied. A sign flips the value, not the rounding.
pub fn applied(d: i32, x: i32, q: i64) -> i64
    requires { SFits w64 d × SFits w64 x × SFits w64 (d *ℤ x) × SFits w64 ((d *ℤ x) +ℤ q) }
    ensures { result ≡ (d *ℤ x) +ℤ q }
{
    (d as i64) * (x as i64) + q
}

// d·(y - q): an element undone. The sign is tested, which is faster than a product: the next sum waits for this number.
pub fn undone(d: i32, y: i32, q: i64) -> i64
    requires { Sign d × SFits w64 y × SFits w64 (y -ℤ q) × SFits w64 (d *ℤ (y -ℤ q)) }
    ensures { result ≡ d *ℤ (y -ℤ q) }
{
    let w = (y as i64) - q;
    if d < 0 { -w } else { w }
}

// b + q + share: an allowance, and what a stage adds to it.
pub fn raised(b: i32, q: i64, share: i64) -> i64
    requires { SFits w64 b × SFits w64 (b +ℤ q) × SFits w64 ((b +ℤ q) +ℤ share) }
    ensures { result ≡ (b +ℤ q) +ℤ share }
{
    (b as i64) + q + share
}

// Whether a number lies between -most and most.
pub fn is_within(z: i64, most: i32) -> bool
    requires { T (non_neg most) }
    ensures { result ≡ leb (nat_abs z) (nat_abs most) }
{
    -(most as i64) <= z && z <= most as i64
}
