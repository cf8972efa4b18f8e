// What a call that fills a lent slice answers.
ghost use Rattle.std.specs.Prelude.{◌≡◌};
ghost use Rattle.rules.specs.Calls.{fitting};
ghost use Rattle.rules.specs.Results.{count_answered};

use rules::{Fault, Refusal, Side};

// The count, or 15 with the count needed.
pub fn fitting(count: usize, room: usize) -> Result<usize, Refusal>
    ensures { count_answered result ≡ fitting count room }
{
    if count > room {
        return Err(Refusal::new(Fault::Room, Side::First, count as u64));
    }
    Ok(count)
}
