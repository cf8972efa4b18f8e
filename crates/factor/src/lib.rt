// A factor where it stands in its sheet: nothing is decoded or copied for a block.
#![tactic(auto)]

ghost use Rattle.std.specs.Prelude.{◌≡◌, ◌+◌, ◌≤◌, ◌<◌};
ghost use Rattle.std.specs.Int.{w64};
ghost use Rattle.std.proofs.Common.{Fits};
ghost use Rattle.rules.specs.Numbers.{most_order};
ghost use Rattle.rules.specs.Sheets.{triangle};
ghost use Rattle.rules.specs.Factors.{above};
ghost use Rattle.laws.specs.Accepted.{FactorRead};
ghost use Rattle.factor.specs.Layouts.{layout, layout_at, row_of, is_move};
ghost use Rattle.factor.specs.UndoingOrder.{nth_undone};

use rules::Kind;
use sheetread::factors::{count_at, kind_at};

pub mod block; // the block between the lent slices and the runs
pub mod bounds; // stage 0
pub mod lengths; // 10: the lengths of lent slices
pub mod magnitudes; // what an allowance asks of entries
pub mod moves; // permutations, in place
pub mod rounding; // one element: rounding, sign, bound
pub mod run; // which run it is, and how it ended
pub mod sums; // sums of entries times numbers

// Where the numbers of a factor stand: its kind, its order, its row if it is of kind 4, and the places of its first sign and
// entry.
#[derive(Clone, Copy)]
pub struct Layout {
    pub kind: Kind,
    pub order: usize,
    pub row: usize,
    pub signs: usize,
    pub entries: usize,
}

// The entries of a row lie side by side: from place at on those left of the diagonal, then those right of it.
#[derive(Clone, Copy)]
pub struct Row {
    pub at: usize,
    pub left: usize,
    pub right: usize,
}

// A factor whose signs start there: its entries follow them.
fn layout_from(kind: Kind, n: usize, row: usize, signs: usize) -> Layout
    requires { Fits w64 (signs + n) }
    ensures { result ≡ layout kind n row signs (signs + n) }
{
    Layout {
        kind,
        order: n,
        row,
        signs,
        entries: signs + n,
    }
}

// The factor whose kind number stands at i. Its signs follow, in kind 4 after its row.
#[tactic(auto, unfolding(crate::specs::Layouts::layout_by, crate::specs::Layouts::row_in, rules::specs::Factors::signs_at))]
pub fn layout_at(sheet: &[i32], n: usize, i: usize) -> Layout
    requires { FactorRead sheet.now n i }
    ensures { result ≡ layout_at sheet.now n i }
{
    let kind = kind_at(sheet, i);
    match kind {
        Kind::Permutation | Kind::Lower | Kind::Upper => layout_from(kind, n, 0, i + 1),
        Kind::Single => layout_from(kind, n, count_at(sheet, i + 1), i + 2),
    }
}

// How many entries of a lower factor stand above row m.
pub fn before_lower(m: usize) -> usize
    requires { m ≤ most_order }
    ensures { result ≡ triangle m }
{
    (m * m - m) / 2
}

// How many entries of an upper factor of order n stand above row m.
pub fn before_upper(n: usize, m: usize) -> usize
    requires { (m < n) × (n ≤ most_order) }
    ensures { result ≡ above n m }
{
    m * (n - 1) - before_lower(m)
}

// The entries of row m.
#[tactic(auto, unfolding(crate::specs::Layouts::row_by))]
pub fn row_of(f: Layout, m: usize) -> Row
    requires { (m < f.order) × (f.order ≤ most_order) × Fits w64 (row_of f m).at }
    ensures { result ≡ row_of f m }
{
    let n = f.order;
    match f.kind {
        Kind::Lower => Row {
            at: f.entries + before_lower(m),
            left: m,
            right: 0,
        },
        Kind::Upper => Row {
            at: f.entries + before_upper(n, m),
            left: 0,
            right: n - 1 - m,
        },
        Kind::Single if m == f.row => Row {
            at: f.entries,
            left: m,
            right: n - 1 - m,
        },
        Kind::Single | Kind::Permutation => Row {
            at: f.entries,
            left: 0,
            right: 0,
        },
    }
}

// The element that is recovered in turn t: from the top, from the bottom, or round from the row after r, so that r is last.
#[tactic(auto, unfolding(crate::specs::UndoingOrder::nth_undone))]
pub fn nth_undone(f: Layout, t: usize) -> usize
    requires { (t < f.order) × (f.row < f.order) }
    ensures { result ≡ nth_undone f.kind f.order f.row t }
{
    let n = f.order;
    match f.kind {
        Kind::Permutation | Kind::Lower => t,
        Kind::Upper => n - 1 - t,
        Kind::Single if t < n - 1 - f.row => f.row + 1 + t,
        Kind::Single => t - (n - 1 - f.row),
    }
}

// Whether a factor only moves numbers.
#[tactic(auto, unfolding(crate::specs::Layouts::is_move))]
pub fn is_move(f: Layout) -> bool
    ensures { result ≡ is_move f.kind }
{
    matches!(f.kind, Kind::Permutation)
}
