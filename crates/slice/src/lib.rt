// What a slice of a larger database lacks: the fetch that must be made next, from the slice, what is held, the cached rows and the fetches that were made.
#![tactic(auto)]

mod accepted;
mod fetch;
mod fetched;
mod gaps;
mod held;
mod lack;
mod near;
mod ranges;
mod rows;
mod whole;

pub use fetch::Fetch;
pub use whole::{Next, missing, missing_catalogued, missing_lawful};
