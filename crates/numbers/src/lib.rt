// No code: specs and proofs on numbers that several crates use.
#![tactic(auto)]
