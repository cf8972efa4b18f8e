// Words of 32 bits from standard input: low byte first, two's complement.
ghost use Rattle.std.specs.Prelude.{◌≡◌, length};

// The longest piece of a case that is read at once.
pub const MOST: usize = 32768;

const MOST_BYTES: usize = MOST * 4;

// Room for the bytes of a piece. A call's result keeps its 131072 zeros out of the proofs.
fn blank() -> [u8; MOST_BYTES]
    ensures { 131072 ≡ length result }
{
    [0; MOST_BYTES]
}

// Room for the words of a piece.
pub fn blank_words() -> [i32; MOST]
    ensures { 32768 ≡ length result }
{
    [0; MOST]
}

// Reads as many words as out has; answers how many bytes there were.
pub fn read_words(out: &mut [i32]) -> usize {
    let n = out.len();
    if n > MOST {
        return 0;
    }
    let mut raw = blank();
    let got = io::read_full(0, &mut raw[..n * 4]);
    let (fours, _) = raw.as_chunks();
    for (word, four) in out.iter_mut().zip(fours) {
        *word = i32::from_le_bytes(*four);
    }
    got
}
