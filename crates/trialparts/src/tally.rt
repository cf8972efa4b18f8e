// How many cases of each call agreed.
use crate::call::{CALLS, Call, NAMES};

// The cases of a call: how many agree, how many differ, and the first of these.
#[derive(Clone, Copy)]
pub struct Count {
    pub agree: u64,
    pub differ: u64,
    pub first: u64,
}

// The counts of all calls. First come those of the numbers that are no call's.
pub type Counts = [Count; CALLS + 1];

// No case.
pub const NONE: Counts = [Count {
    agree: 0,
    differ: 0,
    first: 0,
}; CALLS + 1];

// One case more. A number that is no call's counts as 0.
pub fn note(counts: &mut Counts, call: usize, case: u64, agrees: bool) {
    let slot = Call::of(call).map_or(0, |c| c as usize);
    let Some(count) = counts.get_mut(slot) else {
        return;
    };
    if agrees {
        count.agree = count.agree.wrapping_add(1);
        return;
    }
    if count.differ == 0 {
        count.first = case;
    }
    count.differ = count.differ.wrapping_add(1);
}

fn print_line(name: &[u8], count: Count) {
    if count.agree == 0 && count.differ == 0 {
        return;
    }
    io::write_all(1, name);
    io::write_all(1, b" ");
    io::print_decimal(1, count.agree);
    io::write_all(1, b" agree, ");
    io::print_decimal(1, count.differ);
    io::write_all(1, b" differ");
    if count.differ != 0 {
        io::write_all(1, b", first case ");
        io::print_decimal(1, count.first);
    }
    io::write_all(1, b"\n");
}

// A line for each call that had a case.
pub fn print_all(counts: &Counts) {
    print_line(b"no call", counts[0]);
    for ((_, name), count) in NAMES.iter().zip(&counts[1..]) {
        print_line(name, *count);
    }
}

// How many cases there were, and whether the stream was whole.
pub fn print_end(cases: u64, whole: bool) {
    io::print_decimal(1, cases);
    if whole {
        io::write_all(1, b" cases\n");
    } else {
        io::write_all(1, b" cases, and then a piece that is none\n");
    }
}
