// One operation, whichever it is, on a lent state: here is the one `match` over operations, but for those that inspect. What each answers and leaves for whatever is lent is in
// state's specs/Lent.antt.
#![tactic(auto)]

mod inspecting;
mod output;
mod performing;
mod querying;

pub use performing::{perform, perform_lawful};
