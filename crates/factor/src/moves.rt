// The numbers of a line of a block by a permutation, in place. A line is the n numbers from place k on, s apart.
ghost use Rattle.std.specs.Prelude.{◌≡◌, cond, ◌+◌, ◌*◌, ◌≤◌};
ghost use Rattle.rules.specs.Numbers.{most_order, at};
ghost use Rattle.rules.specs.Stages.{fill};
ghost use Rattle.factor.specs.Tasks.{is_inverse};
ghost use Rattle.factor.specs.LayoutInSheet.{Moves, permutation_at};
ghost use Rattle.factor.specs.MovedInPlace.{LineIn, moved_from, moved_line};

use crate::Layout;
use crate::run::{Task, is_inverse};
use rules::Block;
use sheetread::factors::count_at;

// The numbers of a line into an array aside. The array is lent: by value it would stand on the stack three times.
#[tactic(auto, unfolding(rules::specs::Stages::fill))]
pub fn copy_line(x: &[i32], n: usize, k: usize, s: usize, v: &mut [i32; Block::LINE])
    requires { (n ≤ most_order) × LineIn n k s x.now }
    ensures { v.new ≡ fill n (λ m. at x.now (k + m * s)) v.old }
{
    for m in 0..n {
        v[m] = x[k + m * s];
    }
}

// A line from a copy of it: applied, place m takes the number of place p(m); back, the number of m goes to p(m).
#[tactic(auto, unfolding(crate::specs::MovedInPlace::scattered, crate::specs::MovedInPlace::moved_from))]
pub fn move_from(
    sheet: &[i32],
    f: Layout,
    task: Task,
    old: &[i32; Block::LINE],
    x: &mut [i32],
    k: usize,
    s: usize,
)
    requires { Moves sheet.now f × LineIn f.order k s x.old }
    ensures { x.new ≡ moved_from (is_inverse task) f.order (permutation_at sheet.now f)
        old.now k s x.old }
{
    let back = is_inverse(task);
    for m in 0..f.order {
        let p = count_at(sheet, f.signs + m);
        let (to, from) = if back { (p, m) } else { (m, p) };
        x[k + to * s] = old[from];
    }
}

// A line in place, through a copy of it.
pub fn move_line(sheet: &[i32], f: Layout, task: Task, x: &mut [i32], k: usize, s: usize)
    requires { Moves sheet.now f × LineIn f.order k s x.old }
    ensures { x.new ≡ moved_line (is_inverse task) f.order (permutation_at sheet.now f) k s
        x.old }
{
    let mut old = [0i32; Block::LINE];
    copy_line(x, f.order, k, s, &mut old);
    move_from(sheet, f, task, &old, x, k, s);
}
