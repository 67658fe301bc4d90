// The lent store, and the public call of rollouts, which takes any input and ends with an answer or a refusal.
#![tactic(auto)]

ghost use Rattle.std.specs.Prelude.{◌≡◌, ◌≤◌, length};
ghost use Rattle.table.specs.Table.{read_text};
ghost use Rattle.table.specs.Slices.{laid};
ghost use Rattle.rolled.specs.Call.{roll_call, roll_reads, roll_store};
ghost use Rattle.rolled.specs.Inside.Bounds.{SmallHeights, risen};
ghost use Rattle.rollout_call.specs.Records.{recorded};
ghost use Rattle.rollout_call.specs.Inside.{filled};

use line::Refusal;
use rolled::RolledOut;

// One node's bounds, in grains, laid out as in C: a caller in C lends a store of them.
#[repr(C)]
#[derive(Clone, Copy)]
pub struct Record {
    pub low: i64,
    pub high: i64,
}

// The first n records of the lent store get the bounds, in grains above `base`; the others stay.
// No zip: of what is written through `iter_mut().zip(..)` std's contracts say nothing.
fn fill(store: &mut [Record], low: &[u64], high: &[u64], n: usize, base: i64)
    requires { (n ≤ length store.old) × (n ≤ length low.now) × (n ≤ length high.now) × SmallHeights base n low.now × SmallHeights base n high.now }
    ensures { store.new ≡ filled n (risen base low.now) (risen base high.now) store.old }
{
    for (i, record) in store[..n].iter_mut().enumerate() {
        *record = Record {
            low: base + low[i] as i64,
            high: base + high[i] as i64,
        };
    }
}

// Rollouts under a policy list: for any text, any lists and any store. The list gets the leaves read in reading sequence, and keeps its
// other entries; the store gets the bounds of the nodes as last updated, and keeps its other records; a refused call writes nothing.
pub fn rollouts(
    text: &[u8],
    policy: &[u8],
    store: &mut [Record],
    leaves: &mut [u16],
) -> Result<RolledOut, Refusal>
    ensures answers { result ≡ roll_call (read_text text.now) policy.now (length leaves.old) (length store.old) }
    ensures lists { leaves.new ≡ laid (roll_reads (read_text text.now) policy.now (length leaves.old) (length store.old)) leaves.old }
    ensures store { store.new ≡ recorded (roll_store (read_text text.now) policy.now (length leaves.old) (length store.old)) store.old }
{
    // An entry more than is used: so the nodes and the two lists, of which a walk reads an entry each, do not all begin at one place of a cache line.
    let mut lows = [0u64; 1025];
    let mut highs = [0u64; 1025];
    let low = &mut lows[..1024];
    let high = &mut highs[..1024];
    let o = rolled::roll(text, policy, store.len(), leaves, low, high)?;
    fill(store, low, high, o.nodes, o.base);
    Ok(RolledOut {
        worth: o.worth,
        leaves: o.leaves,
    })
}
