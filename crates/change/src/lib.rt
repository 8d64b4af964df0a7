// Rows that come and go: a row is put in at a free number, or removed, and the cached rows become the smallest set for the tables as they now are. Over a
// sound state with the catalog of its rows, which is mended in place, and for whatever is lent. What each change answers and leaves is in state's specs/Changes.antt.
#![tactic(auto)]

mod causes;
mod changing;
mod counting;
mod lending;
mod storing;

pub use changing::{put_lawful, remove_lawful};
pub use lending::{put_row, remove_row};
