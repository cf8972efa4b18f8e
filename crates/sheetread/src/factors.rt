// Numbers that count something, and the kinds of factors. Callers have checked the sheet: each `requires` is a field of what the
// law `accepted-read` gives them, so nothing is read a second time.
ghost use Rattle.std.specs.Prelude.{◌≡◌, ◌≤◌, T, nat_abs};
ghost use Rattle.std.specs.Int.Signed.{non_neg};
ghost use Rattle.rules.specs.Numbers.{most_order, count};
ghost use Rattle.rules.specs.Sheets.{kind_of, triangle};
ghost use Rattle.laws.specs.Readers.{Seen};
ghost use Rattle.laws.specs.Accepted.{Counts};

use rules::{Item, Kind};

// A number that is at least 0, as a count.
pub fn size(z: i32) -> usize
    requires { T (non_neg z) }
    ensures { result ≡ nat_abs z }
{
    z as usize
}

// The number at i as a count. `order-counts`, `count-counts`, `kind-counts`, `row_counts` and `place-counts` give what is
// required.
pub fn count_at(sheet: &[i32], i: usize) -> usize
    requires { Counts sheet.now i }
    ensures { result ≡ count sheet.now i }
{
    size(sheet[i])
}

// The table of kinds. A number that is none of 1 to 4 is refused before anybody asks.
#[tactic(auto, unfolding(rules::specs::Sheets::kind_of))]
fn kind_of(number: usize) -> Kind
    ensures { result ≡ kind_of number }
{
    match number {
        1 => Kind::Permutation,
        2 => Kind::Lower,
        3 => Kind::Upper,
        _ => Kind::Single,
    }
}

// The kind of the factor that starts at i.
pub fn kind_at(sheet: &[i32], i: usize) -> Kind
    requires { Seen sheet.now Item.KindNumber i }
    ensures { result ≡ kind_of (count sheet.now i) }
{
    kind_of(count_at(sheet, i))
}

// The entries on one side of the diagonal.
pub fn triangle_of(n: usize) -> usize
    requires { (1 ≤ n) × (n ≤ most_order) }
    ensures { result ≡ triangle n }
{
    n * (n - 1) / 2
}
