// What an allowance asks of a row's entries: their magnitudes, and whether all are multiples of 4096.
ghost use Rattle.std.specs.Prelude.{◌≡◌, ◌%◌, eqb, pos, nat_abs};
ghost use Rattle.whole.specs.Diff.{Within};
ghost use Rattle.rules.specs.Numbers.{unit, most_entry};
ghost use Rattle.factor.specs.Magnitudes.{magnitudes_of, Entries, whole};

use rules::{Block, Sheet};

// |z|
pub fn magnitude(z: i32) -> i32
    requires { Within most_entry z }
    ensures { result ≡ pos (nat_abs z) }
{
    z.abs()
}

// The magnitudes of m numbers from place p on.
#[tactic(auto, unfolding(rules::specs::Stages::fill, crate::specs::Magnitudes::magnitudes_of))]
pub fn magnitudes(a: &[i32], p: usize, m: usize) -> [i32; Block::LINE]
    requires { Entries a.now p m }
    ensures { result ≡ magnitudes_of a.now p m }
{
    let mut b = [0i32; Block::LINE];
    for j in 0..m {
        b[j] = magnitude(a[p + j]);
    }
    b
}

// Whether z is a multiple of 4096.
fn is_whole(z: i32) -> bool
    ensures { result ≡ eqb (nat_abs z % unit) 0 }
{
    z.unsigned_abs() as usize % Sheet::WHOLE == 0
}

// Whether m numbers from place p on are all multiples of 4096.
pub fn are_whole(a: &[i32], p: usize, m: usize) -> bool
    requires { Entries a.now p m }
    ensures { result ≡ whole a.now p m }
{
    a[p..p + m].iter().all(|z| is_whole(*z))
}
