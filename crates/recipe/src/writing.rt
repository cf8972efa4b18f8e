// Writing a recipe: a checked sheet's numbers as bytes.
ghost use Rattle.std.specs.Prelude.{◌≡◌, length};
ghost use Rattle.rules.specs.Recipes.{packed};
ghost use Rattle.rules.specs.Answers.{◌or_else◌, checked};
ghost use Rattle.rules.specs.Calls.{Gives, fitting, write};
ghost use Rattle.rules.specs.Results.{count_answered};

use crate::answers::fitting;
use recipebytes::stream::{encode, packed_size};
use rules::Refusal;

// The writer's answer: 1 to 9, then 15.
fn write_answer(sheet: &[i32], room: usize) -> Result<usize, Refusal>
    ensures { count_answered result ≡ checked sheet.now or_else fitting (length (packed sheet.now)) room }
{
    sheet::check(sheet)?;
    fitting(packed_size(sheet), room)
}

// Writes a recipe into the front of out.
#[tactic(auto, unfolding(rules::specs::Calls::write, rules::specs::Calls::reply))]
pub fn write(sheet: &[i32], out: &mut [u8]) -> Result<usize, Refusal>
    ensures { Gives (count_answered result) out.new (write sheet.now out.old) }
{
    let count = write_answer(sheet, out.len())?;
    encode(sheet, out);
    Ok(count)
}
