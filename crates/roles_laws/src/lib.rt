// What is promised of the calls behind a role. This crate has no code, only statements and proofs.
#![tactic(auto)]
