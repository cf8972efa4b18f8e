// The readers: each starts at a place and ends at the next one, or at the first fault (1 to 9) and its place.
ghost use Rattle.std.specs.Prelude.{◌≡◌, ◌≤◌, ◌-◌, length, OnOk};
ghost use Rattle.rules.specs.Numbers.{most_order, most_count, count};
ghost use Rattle.rules.specs.Results.{marked};
ghost use Rattle.rules.specs.Sheets.{◌then◌, times, one, weights, body, factor, closed, head, reading};
ghost use Rattle.laws.specs.Accepted.{Headed};
ghost use Rattle.sheetread.specs.Starts.{Starts};

use crate::factors::{count_at, kind_at, triangle_of};
use crate::faults::check_number;
use rules::{Fault, Found, Item, Kind, Sheet};

// 1, at the sheet's length, if no number stands at i.
#[tactic(auto, unfolding(rules::specs::Sheets::one))]
fn read_one(sheet: &[i32], what: Item, i: usize) -> Result<usize, Found>
    ensures { marked result ≡ one sheet.now what i }
{
    if i >= sheet.len() {
        return Err(Found {
            fault: Fault::Ended,
            place: sheet.len(),
        });
    }
    check_number(sheet, what, i).map_err(|fault| Found { fault, place: i })?;
    Ok(i + 1)
}

// The next m numbers, all of one meaning.
fn read_many(sheet: &[i32], what: Item, m: usize, start: usize) -> Result<usize, Found>
    ensures { marked result ≡ times m (one sheet.now what) start }
{
    let mut i = start;
    for _ in 0..m {
        i = read_one(sheet, what, i)?;
    }
    Ok(i)
}

// n signs, then m entries.
#[tactic(auto, unfolding(rules::specs::Sheets::weights))]
fn read_weights(sheet: &[i32], n: usize, m: usize, i: usize) -> Result<usize, Found>
    ensures { marked result ≡ weights sheet.now n m i }
{
    let entries = read_many(sheet, Item::Sign, n, i)?;
    read_many(sheet, Item::Entry, m, entries)
}

// Kind 4: its row, n signs, then n - 1 entries.
fn read_single(sheet: &[i32], n: usize, i: usize) -> Result<usize, Found>
    requires { (1 ≤ n) × (n ≤ most_order) }
    ensures { marked result ≡ one sheet.now (Item.Row n) i then weights sheet.now n (n - 1) }
{
    let signs = read_one(sheet, Item::Row(n), i)?;
    read_weights(sheet, n, n - 1, signs)
}

// What follows the kind number.
#[tactic(auto, unfolding(rules::specs::Sheets::body))]
fn read_body(sheet: &[i32], n: usize, kind: Kind, i: usize) -> Result<usize, Found>
    requires { (1 ≤ n) × (n ≤ most_order) }
    ensures { marked result ≡ body sheet.now n kind i }
{
    match kind {
        Kind::Permutation => read_many(sheet, Item::Place(n, i), n, i),
        Kind::Lower | Kind::Upper => read_weights(sheet, n, triangle_of(n), i),
        Kind::Single => read_single(sheet, n, i),
    }
}

#[tactic(auto, unfolding(rules::specs::Sheets::factor))]
fn read_factor(sheet: &[i32], n: usize, i: usize) -> Result<usize, Found>
    requires { (1 ≤ n) × (n ≤ most_order) }
    ensures { marked result ≡ factor sheet.now n i }
{
    let body = read_one(sheet, Item::KindNumber, i)?;
    read_body(sheet, n, kind_at(sheet, i), body)
}

// All factors of a sheet with a head. Where each starts is written down as it is met, at its number.
fn read_factors(sheet: &[i32], starts: &mut [u16; Sheet::FACTORS]) -> Result<usize, Found>
    requires { Headed sheet.now × (length starts.old ≡ most_count) }
    ensures { (marked result ≡ times (count sheet.now 1) (factor sheet.now (count sheet.now 0)) 2)
        × OnOk result (Starts sheet.now starts.new) }
{
    let n = count_at(sheet, 0);
    let many = count_at(sheet, 1);
    let mut i = 2;
    for f in 0..many {
        starts[f] = i as u16;
        i = read_factor(sheet, n, i)?;
    }
    Ok(i)
}

// 9, where numbers are left.
#[tactic(auto, unfolding(rules::specs::Sheets::closed))]
fn read_end(sheet: &[i32], i: usize) -> Result<usize, Found>
    ensures { marked result ≡ closed sheet.now i }
{
    if i < sheet.len() {
        return Err(Found {
            fault: Fault::Leftover,
            place: i,
        });
    }
    Ok(i)
}

// The order and the count.
#[tactic(auto, unfolding(rules::specs::Sheets::head))]
fn read_head(sheet: &[i32]) -> Result<usize, Found>
    ensures { marked result ≡ head sheet.now }
{
    let i = read_one(sheet, Item::Order, 0)?;
    read_one(sheet, Item::Count, i)
}

// A whole sheet. If it has no fault, the table has the starts of its factors.
#[tactic(auto, unfolding(rules::specs::Sheets::reading))]
pub fn read_sheet(sheet: &[i32], starts: &mut [u16; Sheet::FACTORS]) -> Result<usize, Found>
    requires { length starts.old ≡ most_count }
    ensures { (marked result ≡ reading sheet.now)
        × OnOk result (Starts sheet.now starts.new) }
{
    read_head(sheet)?;
    let end = read_factors(sheet, starts)?;
    read_end(sheet, end)
}
