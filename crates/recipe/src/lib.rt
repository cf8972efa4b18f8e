// Recipes: the calls that read and write a sheet's bytes, and the built-in recipe.
#![tactic(auto)]

mod answers;
mod reading;
mod table;
mod writing;

pub use reading::read;
pub use table::{built_in, first_printing};
pub use writing::write;
