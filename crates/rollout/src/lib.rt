// No code: specs says what rollouts are, proofs what holds of them; crate `rolling` has the code.

#![tactic(auto)]
