// One element of a line of four. The entries of its row, in columns 0 to 3, are given by their numbers a to d, from 1 on, 0 for
// none: these are literals, so that products with 0 fall away.
ghost use Rattle.std.specs.Prelude.{true, false, ◌≡◌, ◌+◌, ◌<◌, set};
ghost use Rattle.rules.specs.Numbers.{bound};
ghost use Rattle.factor.specs.SumBounds.{Bounded};
ghost use Rattle.factor.specs.Rounding.{rule_by};
ghost use Rattle.four.specs.Turns.{entry_at, EntryIn, ElementIn, rounded_sum, turn, Turned};

use crate::Four;
use factor::rounding::{applied, is_within, round_line, undone};
use factor::sums::products_sum;
use rules::Block;

// Entry c of a factor whose entries start at place e.
#[tactic(auto, unfolding(crate::specs::Turns::entry_at))]
fn entry(sheet: &[i32], e: usize, c: usize) -> i32
    requires { EntryIn sheet.now e c }
    ensures { result ≡ entry_at sheet.now e c }
{
    match c {
        0 => 0,
        _ => sheet[e + (c - 1)],
    }
}

// The rounded sum of the row of element m.
#[tactic(auto, unfolding(crate::specs::Turns::row_sum, whole::specs::Stated::sum))]
fn rounded_sum(
    down: bool,
    even: bool,
    sheet: &[i32],
    p: usize,
    m: usize,
    a: usize,
    b: usize,
    c: usize,
    d: usize,
    x: &[i32; 4],
) -> i64
    requires { ElementIn sheet.now p m a b c d × Bounded bound x.now }
    ensures { result ≡ rounded_sum (rule_by down even) sheet.now p a b c d x.now }
{
    let e = p + 4;
    let w = [
        entry(sheet, e, a),
        entry(sheet, e, b),
        entry(sheet, e, c),
        entry(sheet, e, d),
    ];
    round_line(down, even, products_sum(&w, x, 4))
}

// The number z at place m of a block. If it is beyond the bound, the block is of no account, and 0 stands there: by its own test
// alone, so that the next sum does not wait for those of the numbers before it.
fn with_number(v: Four, m: usize, z: i64) -> Four
    requires { (m < 4) × Bounded bound v.block }
    ensures { Turned result v (λ b. set b m z) }
{
    let fits = is_within(z, Block::SAMPLE);
    let mut y = v.block;
    y[m] = if fits { z as i32 } else { 0 };
    Four {
        ok: v.ok && fits,
        block: y,
    }
}

// Element m applied, from the block x into v.
#[tactic(auto, unfolding(crate::specs::Turns::element_by))]
fn applied_at(
    down: bool,
    even: bool,
    sheet: &[i32],
    p: usize,
    m: usize,
    a: usize,
    b: usize,
    c: usize,
    d: usize,
    x: [i32; 4],
    v: Four,
) -> Four
    requires { ElementIn sheet.now p m a b c d × Bounded bound x × Bounded bound v.block }
    ensures { Turned result v (turn (rule_by down even) sheet.now p false m a b c d x) }
{
    let q = rounded_sum(down, even, sheet, p, m, a, b, c, d, &x);
    with_number(v, m, applied(sheet[p + m], x[m], q))
}

// Element m undone: its own number from the block y, the others from v.
#[tactic(auto, unfolding(crate::specs::Turns::element_by))]
fn undone_at(
    down: bool,
    even: bool,
    sheet: &[i32],
    p: usize,
    m: usize,
    a: usize,
    b: usize,
    c: usize,
    d: usize,
    y: [i32; 4],
    v: Four,
) -> Four
    requires { ElementIn sheet.now p m a b c d × Bounded bound y × Bounded bound v.block }
    ensures { Turned result v (turn (rule_by down even) sheet.now p true m a b c d y) }
{
    let x = v.block;
    let q = rounded_sum(down, even, sheet, p, m, a, b, c, d, &x);
    with_number(v, m, undone(sheet[p + m], y[m], q))
}

// A turn: element m applied, or undone if BACK.
pub fn turn<const BACK: bool>(
    down: bool,
    even: bool,
    sheet: &[i32],
    p: usize,
    m: usize,
    a: usize,
    b: usize,
    c: usize,
    d: usize,
    x: [i32; 4],
    v: Four,
) -> Four
    requires { ElementIn sheet.now p m a b c d × Bounded bound x × Bounded bound v.block }
    ensures { Turned result v (turn (rule_by down even) sheet.now p BACK m a b c d x) }
{
    if BACK {
        undone_at(down, even, sheet, p, m, a, b, c, d, x, v)
    } else {
        applied_at(down, even, sheet, p, m, a, b, c, d, x, v)
    }
}
