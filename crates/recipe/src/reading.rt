// Reading a recipe: the numbers of a byte string, one after another, checked as a sheet.
ghost use Rattle.std.specs.Prelude.{◌≡◌, ◌+◌, length};
ghost use Rattle.rules.specs.Recipes.{numbers_of, left_of};
ghost use Rattle.rules.specs.Answers.{◌or_else◌, checked};
ghost use Rattle.rules.specs.Calls.{Gives, spelling, fitting, read};
ghost use Rattle.rules.specs.Results.{answered, count_answered};
ghost use Rattle.recipebytes.specs.Reading.{NumbersEnd};

use crate::answers::fitting;
use recipebytes::stream::{End, decode, scan};
use rules::{Fault, Refusal, Sheet, Side};

// These decide about any sheet: one number more than the longest sheet has is a fault already.
const ENOUGH: usize = Sheet::LONGEST + 1;

// Checks the numbers of some bytes as a sheet, in a copy of those that decide. So no bytes are too many to be answered.
fn check_numbers(bytes: &[u8], count: usize) -> Result<(), Refusal>
    requires { count ≡ length (numbers_of bytes.now) }
    ensures { answered result ≡ checked (numbers_of bytes.now) }
{
    let mut copy = [0i32; ENOUGH];
    let front = &mut copy[..count.min(ENOUGH)];
    decode(bytes, front);
    sheet::check(front)
}

// 14, if the numbers end before the bytes do.
fn check_spelling(bytes: &[u8], place: usize) -> Result<(), Refusal>
    requires { place + length (left_of bytes.now) ≡ length bytes.now }
    ensures { answered result ≡ spelling bytes.now }
{
    if place < bytes.len() {
        return Err(Refusal::new(Fault::Spelling, Side::First, place as u64));
    }
    Ok(())
}

// The reader's answer: 14 for the whole byte string first, then 1 to 9, then 15.
fn read_answer(bytes: &[u8], end: End, room: usize) -> Result<usize, Refusal>
    requires { NumbersEnd bytes.now end.place end.count }
    ensures { count_answered result
        ≡ spelling bytes.now or_else checked (numbers_of bytes.now) or_else fitting end.count room }
{
    check_spelling(bytes, end.place)?;
    check_numbers(bytes, end.count)?;
    fitting(end.count, room)
}

// Reads a recipe into the front of out.
#[tactic(auto, unfolding(rules::specs::Calls::read, rules::specs::Calls::reply))]
pub fn read(bytes: &[u8], out: &mut [i32]) -> Result<usize, Refusal>
    ensures { Gives (count_answered result) out.new (read bytes.now out.old) }
{
    let end = scan(bytes);
    let count = read_answer(bytes, end, out.len())?;
    decode(bytes, &mut out[..count]);
    Ok(count)
}
