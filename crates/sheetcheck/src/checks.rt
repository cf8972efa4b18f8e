// The checks of the calls: what is wrong with a sheet or a pair, and if nothing is, where the factors start.
ghost use Rattle.std.specs.Prelude.{◌≡◌, length, OnOk};
ghost use Rattle.rules.specs.Numbers.{most_count};
ghost use Rattle.rules.specs.Sheets.{reading};
ghost use Rattle.rules.specs.Answers.{◌or_else◌, read_answer, refused, checked, pair_checked};
ghost use Rattle.rules.specs.Results.{marked, answered, refused_for, fault_number, side_number};
ghost use Rattle.laws.specs.Accepted.{Accepted};
ghost use Rattle.sheetread.specs.Starts.{Starts};

use crate::matches::check_match;
use crate::quick::is_faultless;
use rules::{Found, Refusal, Sheet, Side};
use sheetread::checked::Checked;
use sheetread::readers::read_sheet;

// A fault that a reading found, as a refusal.
fn refuse(f: Found, side: Side) -> Refusal
    ensures { refused_for result ≡ refused (fault_number f.fault) (side_number side) f.place }
{
    Refusal::new(f.fault, side, f.place as u64)
}

// What a reading finds: where the sheet ends, or its first fault. Where the quick test says no, the readers tell the fault and
// its place.
fn read_starts(sheet: &[i32], starts: &mut [u16; Sheet::FACTORS]) -> Result<usize, Found>
    requires { length starts.old ≡ most_count }
    ensures { (marked result ≡ reading sheet.now)
        × OnOk result (Accepted sheet.now × Starts sheet.now starts.new) }
{
    if is_faultless(sheet, starts) {
        return Ok(sheet.len());
    }
    read_sheet(sheet, starts)
}

// The same, where nobody asks for the starts.
pub fn read_whole(sheet: &[i32]) -> Result<usize, Found>
    ensures { marked result ≡ reading sheet.now }
{
    let mut starts = [0u16; Sheet::FACTORS];
    read_starts(sheet, &mut starts)
}

// Checks a sheet, on either side: 1 to 9. If there is no fault, the table has where its factors start.
fn check_side(sheet: &[i32], side: Side, starts: &mut [u16; Sheet::FACTORS]) -> Result<(), Refusal>
    requires { length starts.old ≡ most_count }
    ensures { (answered result ≡ read_answer (side_number side) (reading sheet.now))
        × OnOk result (Accepted sheet.now × Starts sheet.now starts.new) }
{
    read_starts(sheet, starts).map_err(|found| refuse(found, side))?;
    Ok(())
}

// Checks a sheet: 1 to 9.
pub fn check_starts(sheet: &[i32], starts: &mut [u16; Sheet::FACTORS]) -> Result<(), Refusal>
    requires { length starts.old ≡ most_count }
    ensures { (answered result ≡ checked sheet.now)
        × OnOk result (Accepted sheet.now × Starts sheet.now starts.new) }
{
    check_side(sheet, Side::First, starts)
}

// Checks two sheets: 1 to 9 for the column sheet, then for the row sheet.
pub fn check_two_starts(
    col: &[i32],
    row: &[i32],
    columns: &mut [u16; Sheet::FACTORS],
    rows: &mut [u16; Sheet::FACTORS],
) -> Result<(), Refusal>
    requires { (length columns.old ≡ most_count) × (length rows.old ≡ most_count) }
    ensures { (answered result ≡ read_answer 0 (reading col.now) or_else read_answer 1 (reading row.now))
        × OnOk result (Accepted col.now × Starts col.now columns.new
        × Accepted row.now × Starts row.now rows.new) }
{
    check_side(col, Side::First, columns)?;
    check_side(row, Side::Second, rows)
}

// The same, then 12.
#[tactic(auto, unfolding(rules::specs::Answers::pair_checked))]
pub fn check_pair_starts(
    col: &[i32],
    row: &[i32],
    columns: &mut [u16; Sheet::FACTORS],
    rows: &mut [u16; Sheet::FACTORS],
) -> Result<(), Refusal>
    requires { (length columns.old ≡ most_count) × (length rows.old ≡ most_count) }
    ensures { (answered result ≡ pair_checked col.now row.now)
        × OnOk result (Accepted col.now × Starts col.now columns.new
        × Accepted row.now × Starts row.now rows.new) }
{
    check_two_starts(col, row, columns, rows)?;
    check_match(
        &Checked {
            numbers: col,
            starts: columns,
        },
        &Checked {
            numbers: row,
            starts: rows,
        },
    )
}
