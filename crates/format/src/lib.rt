// Reading a design with its rows from a script. What it is written as is in specs/Writing.antt: an accepted script is that, up to its END.
#![tactic(auto)]

mod kinds;
mod opening;
mod places;
mod reading;
mod repeating;
mod verdict;

pub use kinds::count_of;
pub use opening::{MOST_BYTES, read_catalogued, read_design};
pub use places::{is_issued, place_after};
pub use verdict::{DesignReading, Verdict};
