// Queries: the fitting lists of marked rows, counted before a word is written, by weights that are found where they are needed and kept, then
// listed by a position step and a row trial that call each other. And the total of a cell over these lists, by weights alone.
#![tactic(auto)]

mod arithmetic;
mod counting;
mod entries;
mod finding;
mod lister;
mod listing;
mod operands;
mod plan;
mod totalling;

pub use counting::count_fitting;
pub use listing::list_fitting;
pub use operands::{operands_fit, position_fits};
pub use totalling::total_fitting;
