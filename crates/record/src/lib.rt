// What is held as a record: read from words and stored as words, REFER and DROP over a record by value, and over one that is lent by `&mut`, the form that document 01
// names. Programs that have what is held as words, the desk among them, need none of it.
#![tactic(auto)]

mod lending;
mod outcome;
mod records;

pub use lending::{drop, refer};
pub use outcome::Outcome;
