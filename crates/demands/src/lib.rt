// No code: specs states the customer's demands on the public calls, and what holds of every match report, of forced plays, of level plays and of
// marks; proofs has the theorems. They are a crate of their own so that an edit of a demand checks these alone again.

#![tactic(auto)]
