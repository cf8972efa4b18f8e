// The numbers of the input: a count c, c sheet numbers, then the block.
ghost use Rattle.std.specs.Prelude.{◌≡◌, ◌≤◌, length, IfOk};
ghost use Rattle.rules.specs.Numbers.{at};
ghost use Rattle.rules.specs.Results.{answered};
ghost use Rattle.printing.specs.Program.{block_at, counts};

use rules::{Fault, Refusal, Side};

// The count c; 0 if it is missing.
fn first(v: &[i32]) -> i32
    ensures { result ≡ at v.now 0 }
{
    v.first().copied().unwrap_or(0)
}

// Where the block starts; 10, if c is missing or not between 0 and the numbers after it.
pub fn find_block(v: &[i32]) -> Result<usize, Refusal>
    ensures answer { answered result ≡ counts v.now }
    ensures place { IfOk result (λ e. (e ≡ block_at v.now) × (e ≤ length v.now)) }
{
    let c = first(v);
    if c < 0 || c as usize >= v.len() {
        return Err(Refusal::new(Fault::Length, Side::First, 0));
    }
    Ok(c as usize + 1)
}
