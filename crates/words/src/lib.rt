// A design as u32 words, as it goes across to programs in C and Rust: stored, read back, and tested for being words of one (specs/Words.antt). What is held is
// lent as words everywhere (state's specs/HeldWords.antt). What these functions ask is that there are enough words; `wurzsige` tests that first.
#![tactic(auto)]

mod from_words;
mod to_words;
mod word_tests;

pub use from_words::{design_from, lawful_design_from};
pub use to_words::put_design;
pub use word_tests::design_narrow;

// How many words a design takes.
pub const DESIGN_WORDS: usize = 115;
