// Numbers one after another in a byte string: read from it, and written to it.
ghost use Rattle.std.specs.Prelude.{◌≡◌, ◌≤◌, length, take};
ghost use Rattle.rules.specs.Recipes.{numbers_of, packed};
ghost use Rattle.rules.specs.Calls.{over};
ghost use Rattle.recipebytes.specs.Packing.{Codables};
ghost use Rattle.recipebytes.specs.Reading.{NumbersEnd};

use crate::number::{code_of, code_size, read_number, value_of, write_code};

// Where the numbers of some bytes end, and how many they are.
#[derive(Clone, Copy)]
pub struct End {
    pub place: usize,
    pub count: usize,
}

// Reads number after number until none stands at the place: that is the end, or the fault of 14.
pub fn scan(bytes: &[u8]) -> End
    ensures { NumbersEnd bytes.now result.place result.count }
{
    let mut place = 0;
    let mut count = 0;
    while let Some(r) = read_number(bytes, place) {
        place += r.size;
        count += 1;
    }
    End { place, count }
}

// Puts the first numbers into out, as many as it has places. Bytes and numbers lie at different places, so both are counted.
pub fn decode(bytes: &[u8], out: &mut [i32])
    requires { length out.old ≤ length (numbers_of bytes.now) }
    ensures { out.new ≡ take (length out.old) (numbers_of bytes.now) }
{
    let mut i = 0;
    for k in 0..out.len() {
        let r = read_number(bytes, i).unwrap();
        out[k] = value_of(r.code);
        i += r.size;
    }
}

// How many bytes the numbers take.
pub fn packed_size(sheet: &[i32]) -> usize
    ensures { result ≡ length (packed sheet.now) }
{
    sheet.iter().map(|&v| code_size(code_of(v))).sum()
}

// Puts the bytes of the numbers into the front of out.
pub fn encode(sheet: &[i32], out: &mut [u8])
    requires { Codables sheet.now × (length (packed sheet.now) ≤ length out.old) }
    ensures { out.new ≡ over (packed sheet.now) out.old }
{
    let mut i = 0;
    for &v in sheet {
        i = write_code(out, i, code_of(v));
    }
}
