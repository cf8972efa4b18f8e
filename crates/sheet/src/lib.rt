// The calls on sheets, by the rules 1 to 9 and 12 of document 01. They ask nothing of their callers.
#![tactic(auto)]

ghost use Rattle.std.specs.Prelude.{◌≡◌};
ghost use Rattle.rules.specs.Answers.{checked, pair_checked, IsRest};
ghost use Rattle.rules.specs.Results.{answered};

use rules::{Refusal, Sheet};
use sheetcheck::checks::{check_pair_starts, check_starts, read_whole};

// Checks a sheet: 1 to 9. The law `accepted-read` says what a sheet has for which this answers Ok.
pub fn check(sheet: &[i32]) -> Result<(), Refusal>
    ensures { answered result ≡ checked sheet.now }
{
    let mut starts = [0u16; Sheet::FACTORS];
    check_starts(sheet, &mut starts)
}

// Checks two sheets: 1 to 9 for the column sheet, then for the row sheet, then 12. The law is `pair_read`.
pub fn check_pair(col: &[i32], row: &[i32]) -> Result<(), Refusal>
    ensures { answered result ≡ pair_checked col.now row.now }
{
    let mut columns = [0u16; Sheet::FACTORS];
    let mut rows = [0u16; Sheet::FACTORS];
    check_pair_starts(col, row, &mut columns, &mut rows)
}

// The rest of the faulty sheet, from the fault's place on, as a part of that slice and no copy.
#[tactic(auto, unfolding(rules::specs::Answers::IsRest))]
pub fn rest<'a>(col: &'a [i32], row: &'a [i32]) -> &'a [i32]
    ensures { IsRest result col.entry row.entry }
{
    match read_whole(col) {
        Err(found) => &col[found.place..],
        Ok(end) => match read_whole(row) {
            Err(found) => &row[found.place..],
            Ok(_) => &col[end..],
        },
    }
}
