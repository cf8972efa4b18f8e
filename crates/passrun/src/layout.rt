// A block between its two layouts: in reading order, as it is lent, and with its lines side by side.
ghost use Rattle.std.specs.Prelude.{◌≡◌, ◌+◌, ◌*◌, ◌≤◌, ◌<◌, length};
ghost use Rattle.rules.specs.Numbers.{most_order, most_cells, at};
ghost use Rattle.factor.specs.MovedInPlace.{scattered};
ghost use Rattle.passrun.specs.Layout.{CopiesRow, CopiesLines, copied, exchanged, turned};

use rules::Block;

// Number l of a row, for each l below many: from place k + l·s of x to place j + l·t of y.
#[tactic(auto, unfolding(factor::specs::MovedInPlace::scattered))]
fn copy_row(x: &[i32], k: usize, s: usize, y: &mut [i32], j: usize, t: usize, many: usize)
    requires { CopiesRow many k s x.now × CopiesRow many j t y.old }
    ensures { y.new ≡ scattered many (λ l. j + l * t) (λ l. at x.now (k + l * s)) y.old }
{
    for l in 0..many {
        y[j + l * t] = x[k + l * s];
    }
}

// Number m of line l, for `many` lines of `long` numbers: from place m·k + l·s of x to place m·j + l·t of y.
#[tactic(auto, unfolding(crate::specs::Layout::copied))]
pub fn copy_lines(
    x: &[i32],
    k: usize,
    s: usize,
    y: &mut [i32],
    j: usize,
    t: usize,
    many: usize,
    long: usize,
)
    requires { CopiesLines many long k s x.now × CopiesLines many long j t y.old }
    ensures { y.new ≡ copied many (λ m l. m * j + l * t) (λ m l. at x.now (m * k + l * s)) long
        y.old }
{
    for m in 0..long {
        copy_row(x, m * k, s, y, m * j, t, many);
    }
}

// The first `to` numbers of row i and of column i change places.
#[tactic(auto, unfolding(crate::specs::Layout::exchanged))]
fn exchange(i: usize, to: usize, x: &mut [i32; Block::CELLS])
    requires { (i < most_order) × (to ≤ i) × (length x.old ≡ most_cells) }
    ensures { x.new ≡ exchanged i to x.old }
{
    for j in 0..to {
        x.swap(i * Block::LINE + j, j * Block::LINE + i);
    }
}

// Rows and columns of a block of n by m numbers, or m by n, change places: what was a line is a row of numbers of all lines then.
// Of two numbers that change places, one is in the first rows or columns, as many as the smaller order.
#[tactic(auto, unfolding(crate::specs::Layout::turning))]
pub fn turn(n: usize, m: usize, x: &mut [i32; Block::CELLS])
    requires { (n ≤ most_order) × (m ≤ most_order) × (length x.old ≡ most_cells) }
    ensures { x.new ≡ turned n m x.old }
{
    let few = n.min(m);
    for i in 0..n.max(m) {
        exchange(i, i.min(few), x);
    }
}

// A block of m by n numbers whose rows stand 16 apart, in reading order. The numbers go to the front, row by row, so no row is
// written over before it is read.
#[tactic(auto, unfolding(crate::specs::Layout::copied))]
pub fn close_rows(m: usize, n: usize, x: &mut [i32; Block::CELLS])
    requires { (m ≤ most_order) × (n ≤ most_order) × (length x.old ≡ most_cells) }
    ensures { x.new ≡ copied n (λ i j. i * n + j) (λ i j. at x.old (i * most_order + j)) m
        x.old }
{
    for i in 0..m {
        x.copy_within(i * Block::LINE..i * Block::LINE + n, i * n);
    }
}
