// A text read and rolled out: the answer, and the bounds of its nodes on two lists of numbers.
#![tactic(auto)]

ghost use Rattle.std.specs.Prelude.{◌≡◌, ◌≤◌, length, replicate};
ghost use Rattle.table.specs.Table.{read_text};
ghost use Rattle.rolled.specs.Inside.Contracts.{RollsTo};

use line::Refusal;
use table::Node;

// The worth in grains and how many leaves were read.
#[derive(Clone, Copy)]
pub struct RolledOut {
    pub worth: i64,
    pub leaves: usize,
}

// The answer, how many nodes have bounds, and the grains that these are above.
#[derive(Clone, Copy)]
pub struct Outcome {
    pub worth: i64,
    pub leaves: usize,
    pub nodes: usize,
    pub base: i64,
}

// The rollouts, for a store of `room` records: the bounds of the nodes, above the outcome's base, go to two lists of numbers.
pub fn roll(
    text: &[u8],
    policy: &[u8],
    room: usize,
    leaves: &mut [u16],
    low: &mut [u64],
    high: &mut [u64],
) -> Result<Outcome, Refusal>
    requires { (low.old ≡ replicate 1024 0) × (length high.old ≡ 1024) }
    ensures { RollsTo (read_text text.now) policy.now room result leaves.old leaves.new low.new high.new }
{
    let mut nodes = [Node::NONE; 1024];
    let t = reading::decode(text, &mut nodes)?;
    if 0 < t.chances {
        return Err(Refusal::HasChance);
    }
    if leaves.len() < t.leaves || room < t.nodes {
        return Err(Refusal::NoRoom);
    }
    high[..t.nodes].fill(scale::scale_of(t).top);
    let used = rolling::roll_out(&nodes, low, high, policy, leaves, t.nodes, t.grain);
    Ok(Outcome {
        worth: scale::in_grains(t.lowest, t.grain, low[0]),
        leaves: used,
        nodes: t.nodes,
        base: scale::in_grains(t.lowest, t.grain, 0),
    })
}
