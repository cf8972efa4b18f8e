// One case after another, to the stream's end.
ghost use Rattle.std.specs.Prelude.{◌≤◌};

use crate::calls::{answer, is_rest};
use trialparts::call::Call;
use trialparts::parts::{ROOM, at, bits_of, is_answer, is_between, is_front, load, natural, part};
use trialparts::tally::{Counts, note};
use trialparts::words::{MOST, blank_words, read_words};

// More cases than any stream has.
const MANY: u64 = 1000000000;

// The places of a case's parts: where A, B, X and Y end, the answer's side, place and element, and Y after the call.
#[derive(Clone, Copy)]
struct Layout {
    pub a: usize,
    pub b: usize,
    pub x: usize,
    pub y: usize,
    pub side: usize,
    pub place: usize,
    pub element: usize,
    pub after: usize,
    pub end: usize,
}

// What a case showed. Its number may be no call's.
#[derive(Clone, Copy)]
struct Verdict {
    pub number: usize,
    pub agrees: bool,
}

// There is no further case. Whole: the stream ends where a case may.
#[derive(Clone, Copy)]
struct Ended {
    pub whole: bool,
}

// How many cases the stream had, and how it ended.
#[derive(Clone, Copy)]
pub struct End {
    pub cases: u64,
    pub whole: bool,
}

// A length, kept small enough that sums of lengths fit.
fn length_of(z: i32) -> usize
    ensures { result ≤ 32768 }
{
    natural(z).min(MOST)
}

// Where the parts stand, by the lengths of A, B, X and Y.
fn lay_out(a: i32, b: i32, x: i32, y: i32) -> Layout {
    let a = length_of(a);
    let b = a + length_of(b);
    let x = b + length_of(x);
    let room = length_of(y);
    let y = x + room;
    Layout {
        a,
        b,
        x,
        y,
        side: y + 1,
        place: y + 2,
        element: y + 3,
        after: y + 4,
        end: y + 4 + room,
    }
}

// Runs a case: whether its answer and the lent memory are the expected ones. Where a law is tried, the coefficients have to lie
// between two blocks, the least in Y before the call and the largest in Y after it.
fn judge(call: Option<Call>, rule: u32, c: Layout, w: &[i32]) -> bool {
    let a = part(w, 0, c.a);
    let b = part(w, c.a, c.b);
    let x = part(w, c.b, c.x);
    let y = part(w, c.x, c.y);
    let number = at(w, c.y);
    let side = at(w, c.side);
    let place = at(w, c.place);
    let element = at(w, c.element);
    if let Some(Call::Rest) = call {
        return is_rest(a, b, number, place);
    }
    let n = y.len();
    if n > ROOM {
        return false;
    }
    let mut room = load(y);
    let r = answer(call, rule, a, b, x, &mut room[..n]);
    if !is_answer(r, number, side, place, element) {
        return false;
    }
    let after = part(w, c.after, c.end);
    match call {
        Some(Call::LineLaw | Call::JointLaw | Call::TwoPassLaw) => is_between(&room, y, after),
        _ => is_front(&room, after),
    }
}

// The rest of a case whose head was read. Number 0 is the stream's end, too: the stream is whole if that case agrees.
fn read_case(number: usize, rule: u32, c: Layout) -> Result<Verdict, Ended> {
    if c.end > MOST {
        return Err(Ended { whole: false });
    }
    let mut w = blank_words();
    if read_words(&mut w[..c.end]) != c.end * 4 {
        return Err(Ended { whole: false });
    }
    let agrees = judge(Call::of(number), rule, c, &w);
    if number == 0 {
        return Err(Ended { whole: agrees });
    }
    Ok(Verdict { number, agrees })
}

// A head is the call, the rule, and the lengths of A, B, X and Y.
fn next_case() -> Result<Verdict, Ended> {
    let mut head = [0i32; 6];
    let got = read_words(&mut head);
    if got != 24 {
        return Err(Ended { whole: got == 0 });
    }
    let [number, rule, a, b, x, y] = head;
    read_case(natural(number), bits_of(rule), lay_out(a, b, x, y))
}

// Runs case after case, and counts.
pub fn run_all(counts: &mut Counts) -> End {
    for case in 0..MANY {
        match next_case() {
            Ok(v) => note(counts, v.number, case, v.agrees),
            Err(ended) => {
                return End {
                    cases: case,
                    whole: ended.whole,
                };
            }
        }
    }
    End {
        cases: MANY,
        whole: false,
    }
}
