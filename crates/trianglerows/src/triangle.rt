// What a row asks of its factors' kind, lower or upper: on which side of the diagonal their entries lie.
ghost use Rattle.std.specs.Prelude.{◌≡◌, ◌+◌, ◌≤◌, ◌<◌, is_ok};
ghost use Rattle.std.specs.Int.{w64};
ghost use Rattle.std.proofs.Common.{Fits};
ghost use Rattle.rules.specs.declared.Kind.{Kind};
ghost use Rattle.rules.specs.Numbers.{most_order};
ghost use Rattle.factor.specs.Layouts.{row_of};
ghost use Rattle.factor.specs.Rounding.{rule_by};
ghost use Rattle.joint.specs.Elements.{RowGiven, sums_at, rest_sums_at};
ghost use Rattle.joint.specs.Triangles.{TotalGiven, total_of};
ghost use Rattle.trianglerows.specs.TrianglesUndone.{UndoGiven, RunUndone};

use factor::Layout;
use factor::bounds::Beyond;
use rules::Block;

// Lower factors or upper ones. The functions are small, so that the compiler puts them in, and writes them out where an order and
// the ends of a run are literals. Each kind has its own loop for turns undone: a lower one goes from the first column on, and the
// place of the entries grows after an element; an upper one goes from the last column on, and the place falls before it. One loop
// for both would ask two functions more of a kind, for the place before and after a turn, and would be no plainer.
pub trait Triangle {
    ghost kind: { Kind };

    // The sums of row i over the n columns of a block.
    fn sums(
        col: &[i32],
        f: Layout,
        i: usize,
        x: &[i32; Block::CELLS],
        n: usize,
        v: &mut [i64; Block::LINE],
    )
        requires { RowGiven col.now f i x.now n v.old × (f.kind ≡ kind) }
        ensures { v.new ≡ sums_at col.now f i x.now n };

    // The same without the row itself.
    fn rest_sums(
        col: &[i32],
        f: Layout,
        i: usize,
        x: &[i32; Block::CELLS],
        n: usize,
        v: &mut [i64; Block::LINE],
    )
        requires { RowGiven col.now f i x.now n v.old × (f.kind ≡ kind) }
        ensures { v.new ≡ rest_sums_at col.now f i x.now n };

    // Where the entries of row m start, n being the factor's order here and below.
    fn first(f: Layout, n: usize, m: usize) -> usize
        requires { (f.kind ≡ kind) × (n ≡ f.order) × (m < f.order) × (f.order ≤ most_order) × Fits w64 (row_of f m).at }
        ensures { result ≡ (row_of f m).at };

    // Where those of the row after row j start, if its own start at place p.
    fn next(f: Layout, n: usize, j: usize, p: usize) -> usize
        requires { (f.kind ≡ kind) × (n ≡ f.order) × (j < f.order) × (p ≡ (row_of f j).at)
            × Fits w64 (p + ((row_of f j).left + (row_of f j).right)) }
        ensures { result ≡ (row_of f (j + 1)).at };

    // The whole sum of element j, whose entries start at place p.
    fn total(row: &[i32], f: Layout, n: usize, j: usize, p: usize, v: &[i64; Block::LINE]) -> i64
        requires { TotalGiven row.now f j v.now × (f.kind ≡ kind) × (n ≡ f.order) × (p ≡ (row_of f j).at) }
        ensures { result ≡ total_of row.now f j v.now };

    // The turns from .. to of row i undone, in the order of the row sheet's factor.
    fn undo(
        down: bool,
        even: bool,
        col: &[i32],
        fa: Layout,
        row: &[i32],
        fb: Layout,
        n: usize,
        i: usize,
        from: usize,
        to: usize,
        v: &mut [i64; Block::LINE],
        x: &mut [i32; Block::CELLS],
    ) -> Result<(), Beyond>
        requires { UndoGiven col.now fa row.now fb i from x.old v.old × (fb.kind ≡ kind) × (from < to)
            × (to ≤ fb.order) × (n ≡ fb.order) }
        ensures { RunUndone (rule_by down even) col.now fa row.now fb i from to x.old
            x.new v.new (is_ok result) };
}
