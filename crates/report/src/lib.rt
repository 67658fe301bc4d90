// No code: specs has what a match file is and what its report lists and adds up, proofs what holds of it. The crate `scoring` has the code for
// one position, `report_call` the call.
#![tactic(auto)]

// An entry: the root's kind as the number that the caller's list gets, and the loss.
#[derive(Clone, Copy)]
pub struct Row {
    pub kind: u8,
    pub loss: Option<u64>,
}

// The number of a side's decisions, and the sum of their listed losses.
#[derive(Clone, Copy, Default)]
pub struct Tally {
    pub decisions: u64,
    pub sum: u64,
}

// The number of positions, and the tallies of MAX, at M, and of MIN, at N.
#[derive(Clone, Copy, Default)]
pub struct Totals {
    pub positions: usize,
    pub max: Tally,
    pub min: Tally,
}
