// A session of the program: the text that it prints for the bytes that it was given.
#![tactic(auto)]

ghost use Rattle.std.specs.Prelude.{◌≡◌, ◌≤◌, length};
ghost use Rattle.rules.specs.Recipes.{numbers_of};
ghost use Rattle.printing.specs.Program.{limit, afterwards, ran, printed};
ghost use Rattle.session.specs.Inputs.{session_of};
ghost use Rattle.printing.specs.Stated.{Wrote};

use input::find_block;
use printing::{put_refusal, put_reply};
use recipebytes::stream::{decode, scan};
use rules::{Fault, Refusal, Side};

mod input; // the count, the sheet and the block among the numbers that were read

// The program reads at most so many bytes, and so no more numbers.
pub const LIMIT: usize = 16384;

// Room for the numbers. A call's result keeps its zeros out of the proofs.
fn blank() -> [i32; LIMIT]
    ensures { limit ≡ length result }
{
    [0; LIMIT]
}

// The inverse of y and the allowance, by rule 0 as all that the program prints; z is lent as output.
fn put_afterwards(s: &[i32], y: &[i32], z: &mut [i32], out: &mut [u8], i: usize) -> usize
    requires { i ≤ length out.old }
    ensures { Wrote out.old i (afterwards s.now y.now z.old)
        out.new result }
{
    let back = line::inverse(0, s, y, z);
    let j = put_reply(out, i, b"back", back, z);
    let allowed = line::allowance(0, s, z);
    put_reply(out, j, b"allow", allowed, z)
}

// The forward result, the inverse of that, the allowance; y and z are lent as outputs.
fn put_runs(s: &[i32], x: &[i32], y: &mut [i32], z: &mut [i32], out: &mut [u8]) -> usize
    ensures { Wrote out.old 0 (ran s.now x.now y.old z.old)
        out.new result }
{
    let there = line::forward(0, s, x, y);
    let i = put_reply(out, 0, b"forward", there, y);
    if there.is_err() {
        return i;
    }
    put_afterwards(s, y, z, out, i)
}

// The text for the numbers v: 10 for the count, or the runs. y and z hold the same numbers, and their blocks are lent as outputs.
fn put_session(v: &[i32], y: &mut [i32], z: &mut [i32], out: &mut [u8]) -> usize
    requires { (y.old ≡ v.now) × (z.old ≡ v.now) }
    ensures { Wrote out.old 0 (session_of v.now) out.new result }
{
    match find_block(v) {
        Ok(e) => put_runs(&v[1..e], &v[e..], &mut y[e..], &mut z[e..], out),
        Err(refusal) => put_refusal(out, 0, refusal),
    }
}

// The text for bytes that spell m numbers, and nothing more.
fn put_decoded(input: &[u8], m: usize, out: &mut [u8]) -> usize
    requires { (m ≡ length (numbers_of input.now)) × (m ≤ limit) }
    ensures { Wrote out.old 0 (session_of (numbers_of input.now)) out.new result }
{
    let mut v = blank();
    decode(input, &mut v[..m]);
    let mut y = v;
    let mut z = v;
    put_session(&v[..m], &mut y[..m], &mut z[..m], out)
}

// Puts the text for some bytes into the front of out, and answers its length. What passes the end of out is left out.
pub fn text_of(input: &[u8], out: &mut [u8]) -> usize
    ensures { Wrote out.old 0 (printed input.now) out.new result }
{
    if input.len() > LIMIT {
        return put_refusal(out, 0, Refusal::new(Fault::Room, Side::First, LIMIT as u64));
    }
    let end = scan(input);
    if end.place < input.len() {
        return put_refusal(
            out,
            0,
            Refusal::new(Fault::Spelling, Side::First, end.place as u64),
        );
    }
    put_decoded(input, end.count, out)
}
