// No code: specs has Algorithm 1 and the search of a table, proofs that the search over heights, which the crate `searching` computes, is the
// same. They are a crate of their own so that what only speaks of the definition does not wait for the code.

#![tactic(auto)]
