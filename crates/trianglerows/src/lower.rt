// Lower factors: a row's entries lie left of its diagonal, so it looks at the rows above it. The number recovered just before
// comes into a sum last, and from a variable of its own: read back from the sums at once, it would be waited for.
ghost use Rattle.std.specs.Prelude.{◌≡◌, ◌+◌, ◌≤◌, ◌+ℤ◌, ◌*ℤ◌};
ghost use Rattle.whole.specs.Diff.{Within};
ghost use Rattle.whole.specs.Stated.{sum};
ghost use Rattle.rules.specs.declared.Kind.{Kind};
ghost use Rattle.rules.specs.Numbers.{most_order, at};
ghost use Rattle.factor.specs.Layouts.{row_of};
ghost use Rattle.factor.specs.SumBounds.{Bounded};
ghost use Rattle.joint.specs.Sums.{Wide, most_column};
ghost use Rattle.joint.specs.Triangles.{TotalGiven, total_of};
ghost use Rattle.trianglerows.specs.TrianglesUndone.{most_own, recent_of};

use crate::triangle::Triangle;
use factor::bounds::{Beyond, keep};
use factor::{Layout, before_lower};
use joint::elements::{diagonal_of, sign_at, undone_whole, with_diagonal};
use joint::sums::{side_sums, side_sums_with, wide_sum, with_sum};
use rules::Block;

// The own term, and m entries times the first m sums, of which last is the last.
#[tactic(auto, unfolding(whole::specs::Stated::sum))]
fn sum_ending(a: &[i32], p: usize, v: &[i64; Block::LINE], m: usize, last: i64, own: i64) -> i64
    requires { Wide a.now p v.now 0 m × Within most_own own × (last ≡ recent_of v.now (λ t. t) m) }
    ensures { result ≡ own +ℤ sum m (λ j. at a.now (p + j) *ℤ at v.now (0 + j)) }
{
    if m == 0 {
        return own;
    }
    with_sum(own + wide_sum(a, p, v, 0, m - 1), a[p + (m - 1)], last)
}

// The whole sum of element j, whose entries start at place p; last is the sum of the column before.
fn total_with(row: &[i32], f: Layout, j: usize, p: usize, v: &[i64; Block::LINE], last: i64) -> i64
    requires { TotalGiven row.now f j v.now × (f.kind ≡ Kind.Lower) × (p ≡ (row_of f j).at)
        × (last ≡ recent_of v.now (λ t. t) j) }
    ensures { result ≡ total_of row.now f j v.now }
{
    let own = with_diagonal(0, sign_at(row, f, j), v[j]);
    sum_ending(row, p, v, j, last, own)
}

// The sum of the column before j, if there is one.
fn left_of(v: &[i64; Block::LINE], j: usize) -> i64
    requires { (j ≤ most_order) × Bounded most_column v.now }
    ensures { result ≡ recent_of v.now (λ t. t) j }
{
    if j == 0 {
        return 0;
    }
    v[j - 1]
}

// The kind lower.
pub struct Lower {}

impl Triangle for Lower {
    ghost kind = { Kind.Lower };

    fn sums(
        col: &[i32],
        f: Layout,
        i: usize,
        x: &[i32; Block::CELLS],
        n: usize,
        v: &mut [i64; Block::LINE],
    ) {
        side_sums_with(
            col,
            Self::first(f, f.order, i),
            i,
            x,
            0,
            n,
            diagonal_of(sign_at(col, f, i)),
            i * n,
            v,
        )
    }

    fn rest_sums(
        col: &[i32],
        f: Layout,
        i: usize,
        x: &[i32; Block::CELLS],
        n: usize,
        v: &mut [i64; Block::LINE],
    ) {
        side_sums(col, Self::first(f, f.order, i), i, x, 0, n, v)
    }

    fn first(f: Layout, _n: usize, m: usize) -> usize {
        f.entries + before_lower(m)
    }

    fn next(f: Layout, _n: usize, j: usize, p: usize) -> usize {
        p + j
    }

    fn total(row: &[i32], f: Layout, _n: usize, j: usize, p: usize, v: &[i64; Block::LINE]) -> i64 {
        with_diagonal(wide_sum(row, p, v, 0, j), sign_at(row, f, j), v[j])
    }

    fn undo(
        down: bool,
        even: bool,
        col: &[i32],
        fa: Layout,
        row: &[i32],
        fb: Layout,
        _n: usize,
        i: usize,
        from: usize,
        to: usize,
        v: &mut [i64; Block::LINE],
        x: &mut [i32; Block::CELLS],
    ) -> Result<(), Beyond> {
        let n = fb.order;
        let k = i * n;
        let mut p = Self::first(fb, n, from);
        let mut last = left_of(v, from);
        for j in from..to {
            let d = sign_at(col, fa, i);
            let s = total_with(row, fb, j, p, v, last);
            let z = undone_whole(down, even, s, d, sign_at(row, fb, j), x[k + j]);
            keep(z, Block::SAMPLE, x, k + j)?;
            last = with_diagonal(v[j], d, z);
            v[j] = last;
            p = p + j;
        }
        Ok(())
    }
}
