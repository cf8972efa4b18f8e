// Upper factors: a row's entries lie right of its diagonal, so it looks at the rows below it. The number recovered just before
// comes into a sum last, and from a variable of its own: read back from the sums at once, it would be waited for.
ghost use Rattle.std.specs.Prelude.{◌≡◌, suc, ◌+◌, ◌-◌, ◌≤◌, ◌<◌, ◌+ℤ◌, ◌*ℤ◌};
ghost use Rattle.whole.specs.Diff.{Within};
ghost use Rattle.whole.specs.Stated.{sum};
ghost use Rattle.rules.specs.declared.Kind.{Kind};
ghost use Rattle.rules.specs.Numbers.{most_order, at};
ghost use Rattle.factor.specs.Layouts.{row_of};
ghost use Rattle.factor.specs.SumBounds.{Bounded};
ghost use Rattle.joint.specs.Sums.{Wide, most_column};
ghost use Rattle.joint.specs.Triangles.{TotalGiven, total_of};
ghost use Rattle.trianglerows.specs.TrianglesUndone.{most_own, recent_of};

use crate::triangle::Triangle;
use factor::bounds::{Beyond, keep};
use factor::{Layout, before_upper};
use joint::elements::{diagonal_of, sign_at, undone_whole, with_diagonal};
use joint::sums::{side_sums, side_sums_with, wide_sum, with_sum};
use rules::Block;

// The own term, and m entries times the sums from column k on, of which first is the first.
#[tactic(auto, unfolding(whole::specs::Stated::sum))]
fn sum_starting(
    a: &[i32],
    p: usize,
    v: &[i64; Block::LINE],
    k: usize,
    m: usize,
    first: i64,
    own: i64,
) -> i64
    requires { Wide a.now p v.now k m × Within most_own own × (0 < m → first ≡ at v.now k) }
    ensures { result ≡ own +ℤ sum m (λ j. at a.now (p + j) *ℤ at v.now (k + j)) }
{
    if m == 0 {
        return own;
    }
    with_sum(own + wide_sum(a, p + 1, v, k + 1, m - 1), a[p], first)
}

// The whole sum of element j, whose entries start at place p; last is the sum of the column after, and m columns come after.
fn total_with(
    row: &[i32],
    f: Layout,
    j: usize,
    m: usize,
    p: usize,
    v: &[i64; Block::LINE],
    last: i64,
) -> i64
    requires { TotalGiven row.now f j v.now × (f.kind ≡ Kind.Upper) × (p ≡ (row_of f j).at) × (j + 1 + m ≡ f.order)
        × (0 < m → last ≡ at v.now (j + 1)) }
    ensures { result ≡ total_of row.now f j v.now }
{
    let own = with_diagonal(0, sign_at(row, f, j), v[j]);
    sum_starting(row, p, v, j + 1, m, last, own)
}

// The sum of the column that was recovered last of t, from the right.
fn right_of(v: &[i64; Block::LINE], n: usize, t: usize) -> i64
    requires { (t ≤ n) × (n ≤ most_order) × Bounded most_column v.now }
    ensures { result ≡ recent_of v.now (λ u. n - suc u) t }
{
    if t == 0 {
        return 0;
    }
    v[n - t]
}

// The kind upper.
pub struct Upper {}

impl Triangle for Upper {
    ghost kind = { Kind.Upper };

    fn sums(
        col: &[i32],
        f: Layout,
        i: usize,
        x: &[i32; Block::CELLS],
        n: usize,
        v: &mut [i64; Block::LINE],
    ) {
        let m = f.order;
        side_sums_with(
            col,
            Self::first(f, m, i),
            m - 1 - i,
            x,
            (i + 1) * n,
            n,
            diagonal_of(sign_at(col, f, i)),
            i * n,
            v,
        )
    }

    fn rest_sums(
        col: &[i32],
        f: Layout,
        i: usize,
        x: &[i32; Block::CELLS],
        n: usize,
        v: &mut [i64; Block::LINE],
    ) {
        let m = f.order;
        side_sums(col, Self::first(f, m, i), m - 1 - i, x, (i + 1) * n, n, v)
    }

    fn first(f: Layout, n: usize, m: usize) -> usize {
        f.entries + before_upper(n, m)
    }

    fn next(f: Layout, n: usize, j: usize, p: usize) -> usize {
        p + (n - 1 - j)
    }

    fn total(row: &[i32], f: Layout, n: usize, j: usize, p: usize, v: &[i64; Block::LINE]) -> i64 {
        with_diagonal(
            wide_sum(row, p, v, j + 1, n - 1 - j),
            sign_at(row, f, j),
            v[j],
        )
    }

    fn undo(
        down: bool,
        even: bool,
        col: &[i32],
        fa: Layout,
        row: &[i32],
        fb: Layout,
        n: usize,
        i: usize,
        from: usize,
        to: usize,
        v: &mut [i64; Block::LINE],
        x: &mut [i32; Block::CELLS],
    ) -> Result<(), Beyond> {
        let wide = fb.order;
        let k = i * wide;
        let mut p = Self::first(fb, n, n - 1 - from) + from;
        let mut last = right_of(v, n, from);
        for t in from..to {
            let j = n - 1 - t;
            p = p - t;
            let d = sign_at(col, fa, i);
            let s = total_with(row, fb, j, t, p, v, last);
            let z = undone_whole(down, even, s, d, sign_at(row, fb, j), x[k + j]);
            keep(z, Block::SAMPLE, x, k + j)?;
            last = with_diagonal(v[j], d, z);
            v[j] = last;
        }
        Ok(())
    }
}
