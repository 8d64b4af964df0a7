// The probe: which ground, if any, says that a value is complete in a column, and how many cached rows have the value there, found from the held
// values and the cached rows alone.
#![tactic(auto)]

mod cached;
mod counting;
mod grounds;
mod held;
mod searching;

pub use searching::{Found, search};
