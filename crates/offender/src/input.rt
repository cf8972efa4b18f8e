// Stage 0: the lent numbers.
ghost use Rattle.std.specs.Prelude.{◌≡◌, length};
ghost use Rattle.rules.specs.Stages.{first_read};

use factor::rounding::is_within;
use rules::Block;

// The first number of the input beyond the bound, in reading order; 0 if there is none.
pub fn first_beyond(x: &[i32]) -> usize
    ensures { result ≡ first_read (length x.now) x.now }
{
    x.iter()
        .position(|z| !is_within(i64::from(*z), Block::SAMPLE))
        .unwrap_or(0)
}
