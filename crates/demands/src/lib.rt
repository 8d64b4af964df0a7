// No code: the crate is the customer's sentences as theorems (proofs/) about what the functions of the crates below answer and leave.
#![tactic(auto)]
