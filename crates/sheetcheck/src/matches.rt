// 12: two checked sheets, kind for kind.
ghost use Rattle.std.specs.Prelude.{◌≡◌, ◌<◌, ◌≤◌};
ghost use Rattle.rules.specs.Numbers.{count};
ghost use Rattle.rules.specs.Answers.{start, first, differ, matching};
ghost use Rattle.rules.specs.Results.{answered};

use rules::{Fault, Refusal, Side};
use sheetread::checked::Checked;
use sheetread::factors::count_at;

// The kind number of factor f.
fn kind_number(sheet: &Checked<'_>, f: usize) -> usize
    requires { f < count sheet.now.numbers.now 1 }
    ensures { result ≡ count sheet.now.numbers.now (start sheet.now.numbers.now f) }
{
    count_at(sheet.numbers, sheet.start(f))
}

// The first of the first m positions whose kinds differ, else m.
fn first_clash(col: &Checked<'_>, row: &Checked<'_>, m: usize) -> usize
    requires { (m ≤ count col.now.numbers.now 1) × (m ≤ count row.now.numbers.now 1) }
    ensures { result ≡ first (differ col.now.numbers.now row.now.numbers.now) m }
{
    (0..m)
        .find(|f| kind_number(col, *f) != kind_number(row, *f))
        .unwrap_or(m)
}

// The sheets match if the first clash is the count of both; else that is the place of 12.
#[tactic(auto, unfolding(rules::specs::Answers::matching))]
pub fn check_match(col: &Checked<'_>, row: &Checked<'_>) -> Result<(), Refusal>
    ensures { answered result ≡ matching col.now.numbers.now row.now.numbers.now }
{
    let a = col.many();
    let b = row.many();
    let k = first_clash(col, row, a.min(b));
    if k != a || k != b {
        return Err(Refusal::new(Fault::Mismatch, Side::First, k as u64));
    }
    Ok(())
}
