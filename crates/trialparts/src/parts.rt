// Parts of a case: taken, copied, compared. None asks anything of its caller: what isn't there is 0 or empty, and then differs.
ghost use Rattle.std.specs.Prelude.{◌≡◌, length};
ghost use Rattle.std.specs.Int.{w32};
ghost use Rattle.std.proofs.Common.{to_z};

use rules::Answer;

// Room for the longest sheet's bytes, for more bytes than the program reads, and for any text that it prints.
pub const ROOM: usize = 20000;

// The words from a place to another; none where they don't lie so.
pub fn part(w: &[i32], from: usize, to: usize) -> &[i32] {
    w.get(from..to).unwrap_or(&[])
}

// The word at i, or 0 after the end.
pub fn at(w: &[i32], i: usize) -> i32 {
    w.get(i).copied().unwrap_or(0)
}

// A word as a count; 0 below zero.
pub fn natural(z: i32) -> usize {
    usize::try_from(z).unwrap_or(0)
}

// The bits of a word, as a number: a rule may be any number of 32 bits.
pub fn bits_of(z: i32) -> u32
    ensures { to_z w32 result ≡ z }
{
    z.cast_unsigned()
}

// A word that holds a byte; 0 for one that doesn't.
fn byte_of(z: i32) -> u8 {
    u8::try_from(z).unwrap_or(0)
}

// Words at the front of a room.
pub fn load(w: &[i32]) -> [i32; ROOM]
    ensures { 20000 ≡ length result }
{
    let n = w.len().min(ROOM);
    let mut room = [0; ROOM];
    room[..n].copy_from_slice(&w[..n]);
    room
}

// Words that hold bytes, at the front of a room.
pub fn load_bytes(w: &[i32]) -> [u8; ROOM]
    ensures { 20000 ≡ length result }
{
    let mut room = [0; ROOM];
    for (here, z) in room.iter_mut().zip(w) {
        *here = byte_of(*z);
    }
    room
}

// The bytes at the front of a room, one to a word, from a place on. After the room's end the words are 0.
pub fn store_bytes(room: &[u8; ROOM], w: &mut [i32], from: usize) {
    let Some(rest) = w.get_mut(from..) else {
        return;
    };
    for (k, z) in rest.iter_mut().enumerate() {
        *z = room.get(k).map_or(0, |b| i32::from(*b));
    }
}

// Whether those words stand at the front of a room.
pub fn is_front(room: &[i32; ROOM], those: &[i32]) -> bool {
    room.starts_with(those)
}

// Whether the words at the front of a room lie between those of two slices.
pub fn is_between(room: &[i32; ROOM], least: &[i32], most: &[i32]) -> bool {
    least.len() <= ROOM
        && room
            .iter()
            .zip(least)
            .enumerate()
            .all(|(k, (z, low))| low <= z && *z <= at(most, k))
}

// Whether an answer is the number, side, place and element of four words.
pub fn is_answer(r: Answer, number: i32, side: i32, place: i32, element: i32) -> bool {
    u32::try_from(number).is_ok_and(|n| n == r.number)
        && u32::try_from(side).is_ok_and(|n| n == r.side)
        && u64::try_from(place).is_ok_and(|n| n == r.place)
        && u64::try_from(element).is_ok_and(|n| n == r.element)
}
