// A block between the lent slices and the runs: its numbers at the front of an array, 0 behind them.
ghost use Rattle.std.specs.Prelude.{◌≡◌, ◌≤◌, length};
ghost use Rattle.rules.specs.Numbers.{at};
ghost use Rattle.rules.specs.Stages.{fill};

// The first n numbers of a slice over the front of another.
#[tactic(auto, unfolding(rules::specs::Stages::fill))]
pub fn copy_front(x: &[i32], y: &mut [i32], n: usize)
    requires { (n ≤ length x.now) × (n ≤ length y.old) }
    ensures { y.new ≡ fill n (at x.now) y.old }
{
    y[..n].copy_from_slice(&x[..n]);
}
