// The desk for programs in C, C++ and Rust, as a static library: the functions of the crate `wurzsige` under the same names and with the same clauses, and
// nothing more. `include/wurzsige.h` declares them.
#![tactic(auto)]

mod feeding;
mod opening;
mod running;
mod sizing;
mod stepping;
mod version;
mod writing_out;
