// Sums of entries times numbers, in 64 bits.
ghost use Rattle.std.specs.Prelude.{◌≡◌, ◌≤◌, ◌+ℤ◌, ◌*ℤ◌, length, drop};
ghost use Rattle.std.specs.Int.{w64};
ghost use Rattle.std.proofs.Common.{SFits};
ghost use Rattle.whole.specs.Stated.{sum};
ghost use Rattle.rules.specs.Numbers.{most_order, most_allowance, at};
ghost use Rattle.factor.specs.Layouts.{along};
ghost use Rattle.factor.specs.SumBounds.{Terms, RowIn, Bounded};

use crate::Row;
use rules::Block;

// One term more, of two numbers of 32 bits. Where the second has 64, `joint` has `with_sum`: one function for both would have
// each caller here widen its number first.
pub fn with_term(sum: i64, a: i32, x: i32) -> i64
    requires { SFits w64 a × SFits w64 x × SFits w64 (a *ℤ x) × SFits w64 (sum +ℤ (a *ℤ x)) }
    ensures { result ≡ sum +ℤ (a *ℤ x) }
{
    sum + (a as i64) * (x as i64)
}

// m entries, each times the number that stands across from it. The loop counts from 0 over two parts: with other places
// the compiler takes four products at a time, which the baseline machine has no instruction for.
#[tactic(auto, unfolding(whole::specs::Stated::sum))]
pub fn products_sum(a: &[i32], x: &[i32], m: usize) -> i64
    requires { Terms a.now x.now m }
    ensures { result ≡ sum m (λ j. at a.now j *ℤ at x.now j) }
{
    let mut sum: i64 = 0;
    for j in 0..m {
        sum = with_term(sum, a[j], x[j]);
    }
    sum
}

// The same, from a column on.
pub fn products_sum_from(a: &[i32], x: &[i32], column: usize, m: usize) -> i64
    requires { (column ≤ length x.now) × Terms a.now (drop column x.now) m }
    ensures { result ≡ sum m (λ j. at a.now j *ℤ at (drop column x.now) j) }
{
    products_sum(a, &x[column..], m)
}

// The entries of row m, each times the number of its column.
pub fn row_sum(sheet: &[i32], r: Row, m: usize, x: &[i32; Block::LINE]) -> i64
    requires { RowIn sheet.now most_order r m × Bounded most_allowance x.now }
    ensures { result ≡ along (at sheet.now) r m x.now }
{
    products_sum(&sheet[r.at..], x, r.left)
        + products_sum_from(&sheet[r.at + r.left..], x, m + 1, r.right)
}
