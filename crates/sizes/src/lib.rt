// How much an operation, or a step of a script, would write, told before anything is lent for it: for programs that lend memory to the library. The desk, which lends
// as much as any operation takes, needs none of it. What the numbers mean is in specs/Sizes.antt and specs/StepSizes.antt.
#![tactic(auto)]

mod sizing;
mod stepping;

pub use sizing::{Sizes, sizes_lawful};
pub use stepping::step_sizes_lawful;
