// One factor along every line of a rectangle. The lines lie side by side in a block of 16 by 16: number m of line l stands at
// place m·16 + l. So a row of the factor is taken for all lines at once, and no line waits for another.
#![tactic(auto)]

mod sums; // the sums of a row's entries, one for each line
mod numbers; // a row of new numbers
mod rows; // a factor's rows, one after another
mod allowances; // the lines' allowances
pub mod stage; // one stage: the factor at a place of the sheet
