// REFER, DROP, PROBE, the naming of a desk, and holding and dropping a range over a sound state.
#![tactic(auto)]

mod dropping;
mod loads;
mod naming;
mod probing;
mod ranges;
mod ranging;
mod referring;
mod taking;
mod values;

pub use dropping::drop_lawful;
pub use naming::name_lawful;
pub use probing::probe_lawful;
pub use ranging::{drop_range_lawful, refer_range_lawful};
pub use referring::refer_lawful;
pub use taking::{filling_for, takes};
