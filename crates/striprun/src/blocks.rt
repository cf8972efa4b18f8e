// One block of a strip, of either shape, over sheets that were checked.
ghost use Rattle.std.specs.Prelude.{◌≡◌, length, is_ok};
ghost use Rattle.factor.specs.Tasks.{call_of};
ghost use Rattle.striprun.specs.Plans.{plan_of, TakesBlocks, byte_of, GivesByte};

use factor::run::{Place, Run};
use rules::Fault;
use sheetread::checked::Checked;

// "both shapes": lines over one sheet, or rectangles over a column sheet and a row sheet.
#[derive(Clone, Copy)]
pub enum Sheets<'a, 'b> {
    Line(Checked<'a>),
    Joint(Checked<'a>, Checked<'b>),
}

// The byte of a block: 0 if it is accepted, else the number of its refusal.
#[tactic(auto, unfolding(crate::specs::Plans::byte_of))]
fn byte_of(end: Result<(), Place>) -> u8
    ensures { result ≡ byte_of (is_ok end) }
{
    match end {
        Ok(()) => 0,
        Err(_) => Fault::Sample as u8,
    }
}

impl Sheets<'_, '_> {
    // How many numbers a block has.
    #[tactic(auto, unfolding(crate::specs::Plans::plan_of, rules::specs::Calls::line, rules::specs::Calls::joint))]
    pub fn size(&self) -> usize
        requires { (plan_of self.now).sheets.number ≡ 0 }
        ensures { result ≡ (plan_of self.now).size }
    {
        match self {
            Sheets::Line(sheet) => sheet.order(),
            Sheets::Joint(col, row) => col.order() * row.order(),
        }
    }

    // The single call: its output into y, and the byte. A byte takes the number alone, so no element is asked for.
    pub fn run_block(&self, run: Run, x: &[i32], y: &mut [i32]) -> u8
        requires { TakesBlocks run.task
            × ((plan_of self.now).sheets.number ≡ 0)
            × (length x.now ≡ (plan_of self.now).size)
            × (length y.old ≡ (plan_of self.now).size) }
        ensures { GivesByte result y.new (call_of run (plan_of self.now) x.now y.old) }
    {
        let end = match self {
            Sheets::Line(sheet) => linerun::block::run_block(false, run, sheet, x, y),
            Sheets::Joint(col, row) => rectanglerun::block::run_block(false, run, col, row, x, y),
        };
        byte_of(end)
    }
}
