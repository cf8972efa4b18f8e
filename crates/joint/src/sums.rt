// The sum of a joint stage in two steps, in 64 bits: the sums V over the columns for a row of the block, and a sum over V.
ghost use Rattle.std.specs.Prelude.{true, ◌≡◌, ◌+◌, ◌*◌, ◌%◌, ◌≤◌, pos, ◌+ℤ◌, ◌-ℤ◌, ◌*ℤ◌, replicate};
ghost use Rattle.std.specs.Int.{w64};
ghost use Rattle.std.proofs.Common.{SFits};
ghost use Rattle.whole.specs.Diff.{Within};
ghost use Rattle.whole.specs.Stated.{sum};
ghost use Rattle.rules.specs.Numbers.{most_order, most_entry, most_cells, most_allowance, at};
ghost use Rattle.factor.specs.SumBounds.{Bounded, RowIn};
ghost use Rattle.joint.specs.Sums.{added, rows_sum, side_with, with_four, entries_sum, column_sums, rest_sums, joint_sum};
ghost use Rattle.joint.specs.Sums.{most_column, most_rest, Band, Adding, Side, Wide};

use factor::Row;
use factor::sums::with_term;
use rules::Block;

// One term more: a weight times a sum over a column.
pub fn with_sum(sum: i64, a: i32, v: i64) -> i64
    requires { SFits w64 a × SFits w64 (a *ℤ v) × SFits w64 (sum +ℤ (a *ℤ v)) }
    ensures { result ≡ sum +ℤ (a *ℤ v) }
{
    sum + (a as i64) * v
}

// The m numbers of a from place p on, each times one of v from place k on.
#[tactic(auto, unfolding(whole::specs::Stated::sum))]
pub fn wide_sum(a: &[i32], p: usize, v: &[i64; Block::LINE], k: usize, m: usize) -> i64
    requires { Wide a.now p v.now k m }
    ensures { result ≡ sum m (λ j. at a.now (p + j) *ℤ at v.now (k + j)) }
{
    let mut sum: i64 = 0;
    for j in 0..m {
        sum = with_sum(sum, a[p + j], v[k + j]);
    }
    sum
}

// One row of the block more: a times each of its w numbers from place k on, into the sums v. Sums are lent, so that there is one
// row of them, and go row by row, since the numbers of a row lie side by side.
#[tactic(auto, unfolding(rules::specs::Stages::fill))]
fn add_row(a: i32, x: &[i32; Block::CELLS], k: usize, w: usize, v: &mut [i64; Block::LINE])
    requires { (w ≤ most_order) × (k + w ≤ most_cells) × Within most_entry a
        × Bounded most_allowance x.now × Bounded most_column v.old }
    ensures { v.new ≡ added w (λ c. a *ℤ at x.now (k + c)) v.old }
{
    for c in 0..w {
        v[c] = with_term(v[c], a, x[k + c]);
    }
}

// The m numbers of a from place p on, each times w numbers of a row of the block: of the first row those from place k on, of each
// row after it those n places on.
pub fn add_rows(
    a: &[i32],
    p: usize,
    m: usize,
    x: &[i32; Block::CELLS],
    k: usize,
    n: usize,
    w: usize,
    v: &mut [i64; Block::LINE],
)
    requires { Adding a.now p m x.now k n w v.old }
    ensures { v.new ≡ added w (rows_sum a.now p m x.now k n) v.old }
{
    for j in 0..m {
        add_row(a[p + j], x, k + j * n, w, v);
    }
}

// Four sums into their columns, from c on. Each is named, so that all stay in registers.
fn put_four(t: &[i64; Block::LINE], v: &mut [i64; Block::LINE], c: usize)
    requires { (c + 4 ≤ most_order) × Bounded most_column t.now }
    ensures { v.new ≡ with_four c t.now v.old }
{
    v[c] = t[0];
    v[c + 1] = t[1];
    v[c + 2] = t[2];
    v[c + 3] = t[3];
}

// Whether the sums of n columns are made four columns at a time: if there are more than `most`, and n is a multiple of four.
fn is_by_fours(n: usize, most: usize) -> bool
    ensures { result ≡ true → n % 4 ≡ 0 }
{
    n > most && n % 4 == 0
}

// m entries on one side of the diagonal, each times a row of the block, the first of which starts at place k. Four columns at a
// time: four sums fit into registers, where the compiler leaves out the rest of t.
#[tactic(auto, unfolding(rules::specs::Stages::fill))]
fn sums_by_fours(
    a: &[i32],
    p: usize,
    m: usize,
    x: &[i32; Block::CELLS],
    k: usize,
    n: usize,
    v: &mut [i64; Block::LINE],
)
    requires { Side a.now p m x.now k n × (v.old ≡ replicate most_order (pos 0)) × (n % 4 ≡ 0) }
    ensures { v.new ≡ added n (rows_sum a.now p m x.now k n)
        (replicate most_order (pos 0)) }
{
    for g in 0..n / 4 {
        let mut t = [0i64; Block::LINE];
        add_rows(a, p, m, x, k + 4 * g, n, 4, &mut t);
        put_four(&t, v, 4 * g);
    }
}

// The same for any n. It is small, so that the compiler puts it in where n is a literal: up to eight sums stay in registers then.
pub fn side_sums(
    a: &[i32],
    p: usize,
    m: usize,
    x: &[i32; Block::CELLS],
    k: usize,
    n: usize,
    v: &mut [i64; Block::LINE],
)
    requires { Side a.now p m x.now k n × (v.old ≡ replicate most_order (pos 0)) }
    ensures { v.new ≡ added n (rows_sum a.now p m x.now k n)
        (replicate most_order (pos 0)) }
{
    if is_by_fours(n, 8) {
        sums_by_fours(a, p, m, x, k, n, v);
    } else {
        add_rows(a, p, m, x, k, n, n, v);
    }
}

// The sums by fours and the row's own numbers, from place o on, each times the diagonal's weight. It is a function of its own:
// one for both would add a diagonal 0 times some row where there is none.
#[tactic(auto, unfolding(rules::specs::Stages::fill))]
fn sums_by_fours_with(
    a: &[i32],
    p: usize,
    m: usize,
    x: &[i32; Block::CELLS],
    k: usize,
    n: usize,
    diagonal: i32,
    o: usize,
    v: &mut [i64; Block::LINE],
)
    requires { Side a.now p m x.now k n × (v.old ≡ replicate most_order (pos 0)) × (m ≤ 15) × (o + n ≤ most_cells)
        × Within most_entry diagonal × (n % 4 ≡ 0) }
    ensures { v.new ≡ added n (side_with a.now p m x.now k n diagonal o)
        (replicate most_order (pos 0)) }
{
    for g in 0..n / 4 {
        let mut t = [0i64; Block::LINE];
        add_row(diagonal, x, o + 4 * g, 4, &mut t);
        add_rows(a, p, m, x, k + 4 * g, n, 4, &mut t);
        put_four(&t, v, 4 * g);
    }
}

// The same for any n, and small too. Eight columns are faster by fours here.
pub fn side_sums_with(
    a: &[i32],
    p: usize,
    m: usize,
    x: &[i32; Block::CELLS],
    k: usize,
    n: usize,
    diagonal: i32,
    o: usize,
    v: &mut [i64; Block::LINE],
)
    requires { Side a.now p m x.now k n × (v.old ≡ replicate most_order (pos 0)) × (m ≤ 15) × (o + n ≤ most_cells)
        × Within most_entry diagonal }
    ensures { v.new ≡ added n (side_with a.now p m x.now k n diagonal o)
        (replicate most_order (pos 0)) }
{
    if is_by_fours(n, 4) {
        sums_by_fours_with(a, p, m, x, k, n, diagonal, o, v);
    } else {
        add_row(diagonal, x, o, n, v);
        add_rows(a, p, m, x, k, n, n, v);
    }
}

// Row m of a matrix, its diagonal left out, times each of the n columns of the block, into v.
pub fn rest_sums(
    a: &[i32],
    r: Row,
    m: usize,
    x: &[i32; Block::CELLS],
    n: usize,
    v: &mut [i64; Block::LINE],
)
    requires { RowIn a.now most_order r m × (n ≤ most_order) × Bounded most_allowance x.now
        × (v.old ≡ replicate most_order (pos 0)) }
    ensures { v.new ≡ rest_sums a.now r m x.now n }
{
    add_rows(a, r.at, r.left, x, 0, n, n, v);
    add_rows(a, r.at + r.left, r.right, x, (m + 1) * n, n, n, v);
}

// Row m of a matrix, its diagonal too, times each of the n columns of the block, into v.
pub fn column_sums(
    a: &[i32],
    r: Row,
    m: usize,
    diagonal: i32,
    x: &[i32; Block::CELLS],
    n: usize,
    v: &mut [i64; Block::LINE],
)
    requires { Band a.now r m diagonal × (n ≤ most_order)
        × Bounded most_allowance x.now × (v.old ≡ replicate most_order (pos 0)) }
    ensures { v.new ≡ column_sums a.now r m diagonal x.now n }
{
    rest_sums(a, r, m, x, n, v);
    add_row(diagonal, x, m * n, n, v);
}

// Row m of a matrix, its diagonal too, times the sums v, where w stands in column m.
pub fn whole_sum(a: &[i32], r: Row, m: usize, diagonal: i32, v: &[i64; Block::LINE], w: i64) -> i64
    requires { Band a.now r m diagonal × Bounded most_column v.now × Within most_rest w }
    ensures { result ≡ entries_sum a.now r m (at v.now) +ℤ (diagonal *ℤ w) }
{
    let sum = wide_sum(a, r.at, v, 0, r.left) + wide_sum(a, r.at + r.left, v, m + 1, r.right);
    with_sum(sum, diagonal, w)
}

// The sum of a column without the number x, which has that weight in it.
fn without(v: i64, weight: i32, x: i32) -> i64
    requires { SFits w64 weight × SFits w64 x × SFits w64 (weight *ℤ x)
        × SFits w64 (v -ℤ (weight *ℤ x)) }
    ensures { result ≡ v -ℤ (weight *ℤ x) }
{
    v - (weight as i64) * (x as i64)
}

// The sum of an element: row m of a matrix, its diagonal too, times the sums v of the element's row, less the own term. The
// number is x, and other the diagonal of the other matrix in the element's row.
pub fn joint_sum(
    a: &[i32],
    r: Row,
    m: usize,
    diagonal: i32,
    other: i32,
    v: &[i64; Block::LINE],
    x: i32,
) -> i64
    requires { Band a.now r m diagonal × Within most_entry other × Bounded most_column v.now
        × Within most_allowance x }
    ensures { result ≡ joint_sum a.now r m diagonal other v.now x }
{
    whole_sum(a, r, m, diagonal, v, without(v[m], other, x))
}
