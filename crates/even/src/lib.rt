// Links that feed themselves: which tables reach which along constraints, whether a design is even, and its smallest knot. Nothing here depends on rows.
#![tactic(auto)]

mod knots;
mod pairs;
mod reaching;
mod walking;
mod weighing;

pub use knots::smallest_knot;
pub use pairs::evenness;
pub use reaching::reachable;
