// The catalog mended in place where one row comes or goes: what it costs is what the row reaches, and nothing else of the arrays is touched. `put_in` and `take_out` are
// in changing.rt; the parts are the next rows (relinking.rt over chaining.rt), the directory (redirecting.rt over revaluing.rt and values.rt) and the first demanded
// rows (resetting.rt).
#![tactic(auto)]

mod chaining;
mod changing;
mod redirecting;
mod relinking;
mod resetting;
mod revaluing;
mod values;

pub use changing::{put_in, take_out};
