// The reason for a row in words: the shortest chain of demands from the row back to a held value or range, the lowest of those
// (crates/model/specs/Reason.antt), as a sentence (crates/model/specs/Sentence.antt). One reload gives each row's distance from what is held; the
// chain's links are found backwards, level by level, each among the rows that are one nearer; then they are written, link by link, into memory of
// its own; the lent text is written last, if it is long enough.
#![tactic(auto)]

mod explaining;
mod linking;
mod lowest;
mod nearing;
mod wording;

pub use explaining::reason_lawful;
