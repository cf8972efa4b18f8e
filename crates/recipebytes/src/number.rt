// One number and its bytes: at most three groups of seven bits, low group first.
ghost use Rattle.std.specs.Prelude.{◌≡◌, ◌+◌, ◌*◌, ◌≤◌, ◌<◌, length, drop};
ghost use Rattle.std.proofs.lemmas.List.Edits.{sets};
ghost use Rattle.rules.specs.Recipes.{code, value, spell, ahead, group, number};
ghost use Rattle.recipebytes.specs.Codes.{codes};
ghost use Rattle.recipebytes.specs.Groups.{Small};
ghost use Rattle.recipebytes.specs.Spelled.{spelled};

use crate::spelled::Spelled;

// A group of seven bits is below this, and so is one with its top bit taken off.
pub const GROUP: u32 = 128;

// A code of at most two groups is below this.
pub const TWO_GROUPS: u32 = GROUP * GROUP;

// A group before what the next groups spell: no number, if they spell none.
fn ahead(g: u32, next: Option<Spelled>) -> Option<Spelled>
    requires { (g < 128) × Small 2 (128 * 128) (spelled next) }
    ensures { spelled result ≡ ahead g (spelled next) }
{
    next.map(|r| Spelled {
        size: r.size + 1,
        code: g + GROUP * r.code,
    })
}

// The group at i before what the next groups spell. The last group is 0 only if it stands alone.
#[tactic(auto, unfolding(rules::specs::Recipes::group))]
fn group(bytes: &[u8], i: usize, alone: bool, next: Option<Spelled>) -> Option<Spelled>
    requires { Small 2 (128 * 128) (spelled next) }
    ensures { spelled result ≡ group alone (drop i bytes.now) (spelled next) }
{
    let x = u32::from(*bytes.get(i)?);
    if x >= GROUP {
        ahead(x % GROUP, next)
    } else if x != 0 || alone {
        Some(Spelled { size: 1, code: x })
    } else {
        None
    }
}

// The number at i, if one stands there: the last of three groups is read first, since each is judged by what follows it.
pub fn read_number(bytes: &[u8], i: usize) -> Option<Spelled>
    ensures { spelled result ≡ number (drop i bytes.now) }
{
    if i >= bytes.len() {
        return None;
    }
    let third = group(bytes, i + 2, false, None);
    let second = group(bytes, i + 1, false, third);
    group(bytes, i, true, second)
}

// The number of a code.
pub fn value_of(u: u32) -> i32
    ensures { result ≡ value u }
{
    let h = (u / 2) as i32;
    if u % 2 == 0 { h } else { -h - 1 }
}

// The code of a number. Below zero, how far it is below -1 fits doubled, where how far it is below 0 may not.
pub fn code_of(v: i32) -> u32
    ensures { result ≡ code v }
{
    if v < 0 {
        2 * (v.unsigned_abs() - 1) + 1
    } else {
        2 * v.unsigned_abs()
    }
}

// How many bytes a code takes.
pub fn code_size(u: u32) -> usize
    ensures { result ≡ length (spell 2 u) }
{
    if u < GROUP {
        1
    } else if u < TWO_GROUPS {
        2
    } else {
        3
    }
}

// Writes the bytes of a code from i on; answers where the next one starts.
pub fn write_code(out: &mut [u8], i: usize, u: u32) -> usize
    requires { (u < codes) × (i + length (spell 2 u) ≤ length out.old) }
    ensures { (result ≡ i + length (spell 2 u)) × (out.new ≡ sets out.old i (spell 2 u)) }
{
    if u < GROUP {
        out[i] = u as u8;
        return i + 1;
    }
    out[i] = (GROUP + u % GROUP) as u8;
    let w = u / GROUP;
    if w < GROUP {
        out[i + 1] = w as u8;
        return i + 2;
    }
    out[i + 1] = (GROUP + w % GROUP) as u8;
    out[i + 2] = (w / GROUP) as u8;
    i + 3
}
