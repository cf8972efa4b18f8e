// Each call on the parts of a case: A, B and X are lent to be read, Y to be written. Runs and allowances take the case's rule.
ghost use Rattle.std.specs.Prelude.{◌≡◌, length};

use rules::{Answer, Refusal};
use trialparts::call::Call;
use trialparts::parts::{ROOM, at, bits_of, load_bytes, natural, store_bytes};

// The reader, on bytes that stand one to a word.
fn read(a: &[i32], y: &mut [i32]) -> Answer {
    let n = a.len();
    if n > ROOM {
        return unknown();
    }
    let bytes = load_bytes(a);
    Answer::from(recipe::read(&bytes[..n], y))
}

// The writer, into room whose bytes stand one to a word.
fn write(a: &[i32], y: &mut [i32]) -> Answer {
    let n = y.len();
    if n > ROOM {
        return unknown();
    }
    let mut room = load_bytes(y);
    let r = recipe::write(a, &mut room[..n]);
    store_bytes(&room, y, 0);
    Answer::from(r)
}

// The program's text, on bytes that stand one to a word; its answer is the text's length.
fn program(a: &[i32], y: &mut [i32]) -> Answer {
    let n = a.len();
    if n > ROOM {
        return unknown();
    }
    let bytes = load_bytes(a);
    let mut text = blank_text();
    let m = session::text_of(&bytes[..n], &mut text);
    store_bytes(&text, y, 0);
    Answer::from(Ok::<usize, Refusal>(m))
}

// A strip: X is the count of bytes and then the input, Y the output and then the bytes, one to a word. `call` has the rule and
// the sheets.
fn strip<F>(x: &[i32], y: &mut [i32], call: F) -> Answer
where
    F: FnOnce(&[i32], &mut [i32], &mut [u8]) -> Result<(), Refusal>,
    requires { F.IsAlwaysCallable call }
{
    let Some((count, x)) = x.split_first() else {
        return unknown();
    };
    let many = natural(*count);
    if many > ROOM || many > y.len() {
        return unknown();
    }
    let n = y.len() - many;
    let mut bytes = load_bytes(&y[n..]);
    let r = call(x, &mut y[..n], &mut bytes[..many]);
    store_bytes(&bytes, y, n);
    Answer::from(r)
}

// Room for a text.
fn blank_text() -> [u8; ROOM]
    ensures { 20000 ≡ length result }
{
    [0; ROOM]
}

// An answer that no case expects.
fn unknown() -> Answer {
    Answer {
        number: 99,
        side: 99,
        place: 99,
        element: 0,
    }
}

// The calls, of those whose answer is an Answer. For a pass alone A is its sheet, and the other order is the number of B's word.
pub fn answer(
    call: Option<Call>,
    rule: u32,
    a: &[i32],
    b: &[i32],
    x: &[i32],
    y: &mut [i32],
) -> Answer {
    let Some(call) = call else {
        return unknown();
    };
    let other = bits_of(at(b, 0));
    match call {
        Call::Check => Answer::from(sheet::check(a)),
        Call::Pair => Answer::from(sheet::check_pair(a, b)),
        Call::Rest => unknown(),
        Call::Read => read(a, y),
        Call::Write => write(a, y),
        Call::BuiltIn => Answer::from(recipe::built_in(y)),
        Call::LineForward | Call::LineLaw => Answer::from(line::forward(rule, a, x, y)),
        Call::LineInverse => Answer::from(line::inverse(rule, a, x, y)),
        Call::LineAllowance => Answer::from(line::allowance(rule, a, y)),
        Call::JointForward | Call::JointLaw => Answer::from(rectangle::forward(rule, a, b, x, y)),
        Call::JointInverse => Answer::from(rectangle::inverse(rule, a, b, x, y)),
        Call::JointAllowance => Answer::from(rectangle::allowance(rule, a, b, y)),
        Call::Program => program(a, y),
        Call::FirstPrinting => Answer::from(recipe::first_printing(y)),
        Call::LineStripForward => strip(
            x,
            y,
            |x, y, bytes| strip::line_forward(rule, a, x, y, bytes),
        ),
        Call::LineStripInverse => strip(
            x,
            y,
            |x, y, bytes| strip::line_inverse(rule, a, x, y, bytes),
        ),
        Call::JointStripForward => strip(
            x,
            y,
            |x, y, bytes| strip::joint_forward(rule, a, b, x, y, bytes),
        ),
        Call::JointStripInverse => strip(
            x,
            y,
            |x, y, bytes| strip::joint_inverse(rule, a, b, x, y, bytes),
        ),
        Call::TwoPassForward | Call::TwoPassLaw => Answer::from(twopass::forward(rule, a, b, x, y)),
        Call::TwoPassInverse => Answer::from(twopass::inverse(rule, a, b, x, y)),
        Call::TwoPassAllowance => Answer::from(twopass::allowance(rule, a, b, y)),
        Call::ColumnForward => Answer::from(twopass::column_forward(rule, a, other, x, y)),
        Call::ColumnInverse => Answer::from(twopass::column_inverse(rule, a, other, x, y)),
        Call::RowForward => Answer::from(twopass::row_forward(rule, a, other, x, y)),
        Call::RowInverse => Answer::from(twopass::row_inverse(rule, a, other, x, y)),
    }
}

// Whether a part is the end of w from a place on. A run sees a part's length and its words: two ends that are alike in both,
// such as the empty ends of the two sheets, it can't tell apart. The contract of `rest` says which slice the part is of.
fn is_end(part: &[i32], w: &[i32], start: i32) -> bool {
    let Ok(from) = usize::try_from(start) else {
        return false;
    };
    w.get(from..)
        .is_some_and(|end| end.len() <= ROOM && part == end)
}

// `rest`, whose answer is a part of a slice: which slice, 0 for the column sheet or 1 for the row sheet, and where the part
// starts.
pub fn is_rest(a: &[i32], b: &[i32], which: i32, start: i32) -> bool {
    is_end(sheet::rest(a, b), if which == 0 { a } else { b }, start)
}
