// No code: specs states what the margin promises of a search, proofs has the theorems, for every accepted table. They are a crate of their own
// so that the program and the calls do not wait for them.

#![tactic(auto)]
