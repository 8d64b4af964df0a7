// A whole run of a script, and a probe behind one. What a run leaves is in specs/Runs.antt.
#![tactic(auto)]

mod outcome;
mod runs;

pub use outcome::{ProbedRun, Run};
pub use runs::{probe_after, run, run_lawful};
