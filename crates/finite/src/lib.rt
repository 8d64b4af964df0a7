// No code: the crate is its definitions (specs/Finite.antt) and their laws (proofs/), which every other crate uses.
#![tactic(auto)]
