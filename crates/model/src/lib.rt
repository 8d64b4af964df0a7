// No code: the crate is its definitions (specs/) and the theorems about them (proofs/). The layers above state their contracts in these terms.
#![tactic(auto)]
