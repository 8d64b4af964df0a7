// The guard of every entry point: causes 7 and 12, whatever is lent.
#![tactic(auto)]

mod causes;
mod distinct;

pub use causes::cause;
