// What a design decides of each column before any row is there: whether a load can be asked for its values, whether a value can come to be complete there in
// passing and by which constraint, or neither, so that every probe is sent; and whether seeing a value there is enough. Nothing here reads rows.
#![tactic(auto)]

mod columns;
mod reached;
mod words;

pub use words::verdicts;
