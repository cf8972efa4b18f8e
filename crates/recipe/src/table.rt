// The built-in recipe, corrected and as first printed.
ghost use Rattle.rules.specs.Calls.{Gives, built_in, first_printing, write_table};
ghost use Rattle.rules.specs.Results.{count_answered};

use crate::answers::fitting;
use rules::Refusal;

const LENGTH: usize = 45;

// Where the entry of U in row 1, column 3 stands.
const LOST: usize = 27;

// Four points: the printed factors of 001, section 5, rounded to 1/4096, in order of application P_R, L_2, U, L_1, P_L.
const TABLE: [i32; LENGTH] = [
    4, 5, 1, 3, 2, 0, 1, 2, 1, 1, 1, 1, 1612, 0, -4096, -815, 3281, 0, 3, -1, 1, 1, 1, 6238, 2048,
    -2676, 3101, -2484, 0, 2, 1, 1, 1, 1, -2106, 2106, -4096, -872, 3281, 0, 1, 3, 2, 1, 0,
];

// Writes the built-in recipe: 15, or the table. Its product is the transpose of the DCT of 001 (`cosine-close`), so the cosine
// coefficients of a block come from the inverse run, and the forward run restores it.
#[tactic(auto, unfolding(rules::specs::Calls::write_table))]
pub fn built_in(out: &mut [i32]) -> Result<usize, Refusal>
    ensures { Gives (count_answered result) out.new (write_table built_in out.old) }
{
    let count = fitting(LENGTH, out.len())?;
    out[..LENGTH].copy_from_slice(&TABLE);
    Ok(count)
}

// Writes the built-in recipe as it was first printed, for recipes and coefficients that were kept under it: U's sign is lost.
pub fn first_printing(out: &mut [i32]) -> Result<usize, Refusal>
    ensures { Gives (count_answered result) out.new (write_table first_printing out.old) }
{
    let count = built_in(out)?;
    out[LOST] = -TABLE[LOST];
    Ok(count)
}
