// A pair of permutations, for numbers and allowances alike: from one block to another, and in place.
#![tactic(auto)]

ghost use Rattle.std.specs.Prelude.{◌≡◌, ◌+◌, ◌*◌, ◌≤◌, length};
ghost use Rattle.factor.specs.LayoutInSheet.{Moves};
ghost use Rattle.factor.specs.MovedInPlace.{moved_by};
ghost use Rattle.factor.specs.Tasks.{is_inverse};
ghost use Rattle.pairmoves.specs.Moves.{source_of, Lines, MovedBySheet};
ghost use Rattle.pairmoves.specs.MovedAside.{Places, place_at, moved_row, MovedInto};

use factor::Layout;
use factor::moves::move_line;
use factor::run::{Task, is_inverse};
use rules::Block;
use sheetread::factors::count_at;

// A row of one block as a row of another, where it starts at place k: applied, place j takes the number of place q(j) from o on;
// back, the number of j goes to q(j). The n places of a permutation stand in its sheet, from place q on.
#[tactic(auto, unfolding(crate::specs::MovedAside::moved_row, factor::specs::MovedInPlace::scattered))]
fn move_row(
    row: &[i32],
    q: usize,
    n: usize,
    back: bool,
    old: &[i32],
    o: usize,
    x: &mut [i32],
    k: usize,
)
    requires { Places row.now q n × (o + n ≤ length old.now) × (k + n ≤ length x.old) }
    ensures { x.new ≡ moved_row back n (place_at row.now q) old.now o k
        x.old }
{
    for j in 0..n {
        let place = count_at(row, q + j);
        let (to, from) = if back { (place, j) } else { (j, place) };
        x[k + to] = old[o + from];
    }
}

// The rows of one block as rows of another, by the column sheet's permutation. Where n2 is a literal, the loop over a row is
// unrolled.
fn move_rows(
    col: &[i32],
    p: usize,
    n1: usize,
    row: &[i32],
    q: usize,
    n2: usize,
    back: bool,
    old: &[i32],
    x: &mut [i32],
)
    requires { Places col.now p n1 × Places row.now q n2 × (n1 * n2 ≤ length old.now)
        × (n1 * n2 ≤ length x.old) }
    ensures { MovedInto back col.now p n1 row.now q n2 old.now x.old
        x.new }
{
    for i in 0..n1 {
        let place = count_at(col, p + i);
        let (to, from) = if back { (place, i) } else { (i, place) };
        move_row(row, q, n2, back, old, from * n2, x, to * n2);
    }
}

// A block from one slice to the front of another: Y(i,j) = X(p(i),q(j)), or back. It takes no layouts: they would lie on the
// stack of whoever calls it.
pub fn move_into(
    col: &[i32],
    p: usize,
    n1: usize,
    row: &[i32],
    q: usize,
    n2: usize,
    task: Task,
    old: &[i32],
    x: &mut [i32],
)
    requires { Places col.now p n1 × Places row.now q n2 × (n1 * n2 ≤ length old.now)
        × (n1 * n2 ≤ length x.old) }
    ensures { MovedInto (is_inverse task) col.now p n1 row.now q n2 old.now
        x.old x.new }
{
    let back = is_inverse(task);
    match n2 {
        4 => move_rows(col, p, n1, row, q, 4, back, old, x),
        8 => move_rows(col, p, n1, row, q, 8, back, old, x),
        _ => move_rows(col, p, n1, row, q, n2, back, old, x),
    }
}

// Lines that each start w places after the one before it, their numbers s apart: the rows of a block, or its columns.
fn move_lines(sheet: &[i32], f: Layout, task: Task, many: usize, w: usize, s: usize, x: &mut [i32])
    requires { Moves sheet.now f × Lines many f.order w s (length x.old) }
    ensures { MovedBySheet sheet.now f (is_inverse task) many w s x.old x.new }
{
    for l in 0..many {
        move_line(sheet, f, task, x, l * w, s);
    }
}

// In place, Y(i,j) = X(p(i),q(j)), or back: the numbers of each row by the row sheet's permutation, then those of each column by
// the column sheet's. There is no room for a copy of the block.
#[tactic(auto, unfolding(crate::specs::Moves::source_of))]
pub fn move_pair(
    col: &[i32],
    fa: Layout,
    row: &[i32],
    fb: Layout,
    task: Task,
    x: &mut [i32; Block::CELLS],
)
    requires { Moves col.now fa × Moves row.now fb }
    ensures { x.new ≡ moved_by (is_inverse task) (fa.order * fb.order)
        (source_of col.now fa row.now fb) x.old }
{
    let n1 = fa.order;
    let n2 = fb.order;
    move_lines(row, fb, task, n1, n2, 1, x);
    move_lines(col, fa, task, n2, 1, n2, x);
}
