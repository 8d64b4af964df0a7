// The desk for programs in C or Rust, which lend it all of its memory: opening a design, one step of a script, all steps from a place on, writing a design
// out, how much a step and the written design take, what must be fetched next for a slice of a larger database, the verdicts on a design's columns, and which version it is. A design is a struct in Rattle, so it goes across as a list of u32 words (crate
// `words`); what is held is such a list everywhere. An answer goes across as the number of its word, with the numbers behind the word in a lent buffer
// (specs/Told.antt). The crate `wurzsige_c` exports these functions to C, and `include/wurzsige.h` declares them there and puts all that they are lent into
// one struct.
//
// Functions with a plain name take whatever is lent and test it for causes 7 and 12. Those that end in `_trusted` ask for memory that is ready
// (specs/Calls.antt `Ready`), which opening and every step leave, and test nothing.
#![tactic(auto)]

mod causes;
mod feeding;
mod opening;
mod running;
mod sizing;
mod stepping;
mod telling;
mod version;
mod writing_out;

pub use feeding::{
    wurzsige_parts_missing, wurzsige_parts_missing_trusted, wurzsige_parts_verdicts,
};
pub use opening::wurzsige_parts_open;
pub use running::wurzsige_parts_run_trusted;
pub use sizing::wurzsige_parts_sizes;
pub use stepping::{wurzsige_parts_step, wurzsige_parts_step_trusted};
pub use version::wurzsige_version;
pub use writing_out::wurzsige_parts_write;

// The number of a refusal's word.
const REFUSED: u8 = 7;
