// Text put into a lent slice from a place on. Each function answers the place after its text; what passes the slice's end is left
// out. It is put byte by byte and not by `write!`: the contracts name every byte, and std's writer into a lent slice says nothing
// of the bytes.
#![tactic(auto)]

ghost use Rattle.std.specs.Prelude.{[], ◌∷◌, ◌≤◌, pos, length};
ghost use Rattle.rules.specs.Results.{refused_for, answered};
ghost use Rattle.printing.specs.Program.{digit_at, digits, decimal, spaced, line_of, refusal, replied};
ghost use Rattle.printing.specs.Stated.{Wrote};

use rules::Refusal;

// The powers of ten that 64 bits hold.
const POWERS: [u64; 20] = [
    10000000000000000000,
    1000000000000000000,
    100000000000000000,
    10000000000000000,
    1000000000000000,
    100000000000000,
    10000000000000,
    1000000000000,
    100000000000,
    10000000000,
    1000000000,
    100000000,
    10000000,
    1000000,
    100000,
    10000,
    1000,
    100,
    10,
    1,
];

// One byte.
fn put(out: &mut [u8], i: usize, b: u8) -> usize
    ensures { Wrote out.old i (b ∷ []) out.new result }
{
    let n = out.len();
    if i >= n {
        return n;
    }
    out[i] = b;
    i + 1
}

// The digit at a power of ten, if the number reaches it. 0 counts as 1: it has the digit at 1.
fn put_digit(out: &mut [u8], i: usize, n: u64, p: u64) -> usize
    requires { (i ≤ length out.old) × (1 ≤ p) }
    ensures { Wrote out.old i (digit_at p n) out.new result }
{
    if p > n.max(1) {
        return i;
    }
    put(out, i, b'0' + (n / p % 10) as u8)
}

// A number that is at least 0.
fn put_digits(out: &mut [u8], i: usize, n: u64) -> usize
    requires { i ≤ length out.old }
    ensures { Wrote out.old i (digits 20 n) out.new result }
{
    let mut j = i;
    for &p in &POWERS {
        j = put_digit(out, j, n, p);
    }
    j
}

// A number with its sign.
fn put_decimal(out: &mut [u8], i: usize, z: i32) -> usize
    requires { i ≤ length out.old }
    ensures { Wrote out.old i (decimal z) out.new result }
{
    let n = u64::from(z.unsigned_abs());
    if z < 0 {
        let j = put(out, i, b'-');
        put_digits(out, j, n)
    } else {
        put_digits(out, i, n)
    }
}

// A blank and a number.
fn put_number(out: &mut [u8], i: usize, z: i32) -> usize
    requires { i ≤ length out.old }
    ensures { Wrote out.old i (32 ∷ decimal z) out.new result }
{
    let j = put(out, i, b' ');
    put_decimal(out, j, z)
}

// A blank and a count.
fn put_count(out: &mut [u8], i: usize, n: u64) -> usize
    requires { i ≤ length out.old }
    ensures { Wrote out.old i (32 ∷ decimal (pos n)) out.new result }
{
    let j = put(out, i, b' ');
    put_digits(out, j, n)
}

// Some bytes.
fn put_word(out: &mut [u8], i: usize, word: &[u8]) -> usize
    requires { i ≤ length out.old }
    ensures { Wrote out.old i word.now out.new result }
{
    let mut j = i;
    for &b in word {
        j = put(out, j, b);
    }
    j
}

// Numbers, each after a blank.
fn put_numbers(out: &mut [u8], i: usize, v: &[i32]) -> usize
    requires { i ≤ length out.old }
    ensures { Wrote out.old i (spaced v.now) out.new result }
{
    let mut j = i;
    for &z in v {
        j = put_number(out, j, z);
    }
    j
}

// A word, then numbers, as a line.
fn put_line(out: &mut [u8], i: usize, word: &[u8], v: &[i32]) -> usize
    requires { i ≤ length out.old }
    ensures { Wrote out.old i (line_of word.now v.now) out.new result }
{
    let j = put_word(out, i, word);
    let k = put_numbers(out, j, v);
    put(out, k, b'\n')
}

// The line of a refusal.
pub fn put_refusal(out: &mut [u8], i: usize, r: Refusal) -> usize
    requires { i ≤ length out.old }
    ensures { Wrote out.old i (refusal (refused_for r)) out.new result }
{
    let word = put_word(out, i, b"refused");
    let number = put_count(out, word, u64::from(r.fault.number()));
    let side = put_count(out, number, u64::from(r.side.number()));
    let place = put_count(out, side, r.place);
    put(out, place, b'\n')
}

// The line of a call: the numbers that it gave, or its refusal.
pub fn put_reply(out: &mut [u8], i: usize, word: &[u8], r: Result<(), Refusal>, v: &[i32]) -> usize
    requires { i ≤ length out.old }
    ensures { Wrote out.old i (replied word.now (record { answer = answered r; memory = v.now }))
        out.new result }
{
    match r {
        Ok(()) => put_line(out, i, word, v),
        Err(refusal) => put_refusal(out, i, refusal),
    }
}
