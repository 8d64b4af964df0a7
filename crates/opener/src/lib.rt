// The value whose single reference would give a probe a ground. A load for each candidate would tell; instead one load along the constraints turned round,
// from the rows that would be ground 2 or 3, reaches the rows whose loading would bring one of these into the cache, and the lowest candidate among their
// values is read off. That this is the answer is proofs/ReadingLaws.antt over the model's Opens.antt.
#![tactic(auto)]

mod answering;
mod giving;
mod leading;
mod reading;
mod turning;

pub use answering::opener_lawful;
