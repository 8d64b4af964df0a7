// One step of a script: the command at a place, carried out on a lent state. What a step gives for whatever is lent is in specs/Step.antt.
#![tactic(auto)]

mod outcome;
mod steps;

pub use outcome::Step;
pub use steps::{step, step_lawful};
