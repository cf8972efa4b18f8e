// 2 to 8: the fault of one number of a sheet, by what it stands for.
ghost use Rattle.std.specs.Prelude.{◌≡◌, cond, ◌-◌, ◌<◌, pos, negsuc, length};
ghost use Rattle.rules.specs.Numbers.{at};
ghost use Rattle.rules.specs.Results.{fault_number, faulted};
ghost use Rattle.rules.specs.Sheets.{between, below, same, among, unless, fault_of};

use crate::factors::size;
use rules::{Fault, Item, Sheet};

fn check_between(z: i32, lo: i32, hi: i32, fault: Fault) -> Result<(), Fault>
    ensures { faulted result ≡ unless (between lo hi z) (fault_number fault) }
{
    if z < lo || z > hi {
        return Err(fault);
    }
    Ok(())
}

// 5: a row or a place is one of 0 to n - 1.
fn check_row(z: i32, n: usize) -> Result<(), Fault>
    ensures { faulted result ≡ unless (below n z) 5 }
{
    if z < 0 || size(z) >= n {
        return Err(Fault::Place);
    }
    Ok(())
}

// Whether the number at i stands already among those from start to i.
// An order is at most 16, so looking at all of them is cheap.
fn is_used(sheet: &[i32], start: usize, i: usize) -> bool
    requires { i < length sheet.now }
    ensures { result ≡ among sheet.now (at sheet.now i) start (i - start) }
{
    (start..i).any(|k| sheet[k] == sheet[i])
}

// 5 before 6: a place is first one of 0 to n - 1, then a new one.
#[tactic(auto, unfolding(rules::specs::Sheets::fault_of))]
fn check_place(sheet: &[i32], n: usize, start: usize, i: usize) -> Result<(), Fault>
    requires { i < length sheet.now }
    ensures { faulted result ≡ fault_of sheet.now (Item.Place n start) i }
{
    check_row(sheet[i], n)?;
    if is_used(sheet, start, i) {
        return Err(Fault::Repeated);
    }
    Ok(())
}

fn check_sign(z: i32) -> Result<(), Fault>
    ensures { faulted result ≡ cond (same z (pos 1)) 0 (unless (same z (negsuc 0)) 7) }
{
    if z != 1 && z != -1 {
        return Err(Fault::Sign);
    }
    Ok(())
}

// The fault of the number at i, by what it stands for.
#[tactic(auto, unfolding(rules::specs::Sheets::fault_of))]
pub fn check_number(sheet: &[i32], what: Item, i: usize) -> Result<(), Fault>
    requires { i < length sheet.now }
    ensures { faulted result ≡ fault_of sheet.now what i }
{
    let z = sheet[i];
    match what {
        Item::Order => check_between(z, 1, Sheet::ORDER, Fault::Order),
        Item::Count => check_between(z, 1, Sheet::COUNT, Fault::Count),
        Item::KindNumber => check_between(z, 1, Sheet::KIND, Fault::Kind),
        Item::Row(n) => check_row(z, n),
        Item::Place(n, start) => check_place(sheet, n, start, i),
        Item::Sign => check_sign(z),
        Item::Entry => check_between(z, -Sheet::ENTRY, Sheet::ENTRY, Fault::Entry),
    }
}
