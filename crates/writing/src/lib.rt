// Writing a design with its rows out, as a script that reads as it, and (in proofs/) that reading and writing undo each other.
#![tactic(auto)]

mod commands;
mod lengths;
mod lent;
mod numbers;
mod outcome;

pub use commands::write_design;
pub use lengths::design_length;
pub use lent::write;
pub use outcome::Written;
