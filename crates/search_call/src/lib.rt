// The public calls of the bounded search, with a leaf budget and without. They take any input, and end with an answer or a refusal.
#![tactic(auto)]

ghost use Rattle.std.specs.Prelude.{◌≡◌, ◌-◌, min, ◌≤◌, length, pos};
ghost use Rattle.line.specs.Line.{to_nat};
ghost use Rattle.table.specs.Table.{read_text};
ghost use Rattle.table.specs.Nodes.{slices_in};
ghost use Rattle.table.specs.Slices.{laid};
ghost use Rattle.table.specs.Root.{node_number};
ghost use Rattle.scale.specs.Inside.{Spread};
ghost use Rattle.search_call.specs.Inside.{rule_for, ends_for, bounds_for, Ready, Answers};
ghost use Rattle.search_call.specs.Call.{beyond, search_call, search_reads, within_call, within_reads};

use line::Refusal;
use scale::Scale;
use steps::{Ends, Found, Rule};
use table::{Node, Play, Summary};

// What a search answers: two bounds and how far apart they are, the best root child entered, how many leaves were read, whether the budget was
// spent, and G.
#[derive(Clone, Copy)]
pub struct Bounds {
    pub low: i64,
    pub high: i64,
    pub difference: i64,
    pub play: Play,
    pub leaves: usize,
    pub spent: bool,
    pub grain: u64,
}

// Whether z is none of the numbers from 0 to top.
pub fn is_beyond(top: i64, z: i64) -> bool
    ensures { result ≡ beyond top z }
{
    !(0..=top).contains(&z)
}

// The numbers that a search goes by.
pub fn rule_of(s: Scale, margin: i64) -> Rule
    ensures { result ≡ rule_for s margin }
{
    Rule {
        margin: margin.max(0).unsigned_abs(),
        grain: s.grain,
    }
}

// How many leaves may be read: the budget, or as many as the list has entries where these are fewer. No table is searched that has more leaves than the
// list has entries, so that this changes nothing.
fn reads_of(budget: i64, room: usize) -> usize
    ensures { result ≡ min (to_nat budget) room }
{
    room.min(budget.max(0).unsigned_abs() as usize)
}

// The ends of a table.
pub fn ends_of(s: Scale) -> Ends
    ensures { result ≡ ends_for s }
{
    Ends {
        bottom: 0,
        top: s.top,
    }
}

// A play as a node number, 0 for none.
pub fn node_number(p: Play) -> usize
    ensures { result ≡ node_number p }
{
    match p {
        Play::Child(n) => n,
        Play::NoPlay => 0,
    }
}

// How far apart two heights are.
fn apart(low: u64, high: u64) -> i64
    requires { (low ≤ high) × (high ≤ 35184372088832) }
    ensures { result ≡ pos (high - low) }
{
    (high - low) as i64
}

// What a search answers that found f, with so many reads to begin with.
pub fn bounds_of(t: Summary, f: Found, reads: usize) -> Bounds
    requires { Spread t × (f.low ≤ f.high) × (f.high ≤ 35184372088832) × (f.left ≤ reads) }
    ensures { result ≡ bounds_for t f reads }
{
    Bounds {
        low: scale::in_grains(t.lowest, t.grain, f.low),
        high: scale::in_grains(t.lowest, t.grain, f.high),
        difference: apart(f.low, f.high),
        play: f.play,
        leaves: reads - f.left,
        spent: f.spent,
        grain: t.grain,
    }
}

// The search of a decoded table, where nothing is refused.
pub fn search_decoded(
    nodes: &[Node],
    t: Summary,
    margin: i64,
    budget: i64,
    leaves: &mut [u16],
) -> Bounds
    requires { Ready (slices_in nodes.now) t margin budget (length leaves.old) }
    ensures { Answers (slices_in nodes.now) t margin budget result leaves.old leaves.new }
{
    let s = scale::scale_of(t);
    let g = rule_of(s, margin);
    let v = ends_of(s);
    // lent as many entries as leaves may be read
    let n = reads_of(budget, leaves.len());
    let f = searching::search(nodes, &[], &[], &mut leaves[..n], t.nodes, g, v);
    bounds_of(t, f, n)
}

// The bounded search within a budget of leaf reads: for any text, any margin, any budget and any list. The list gets the leaves read in reading
// sequence, and keeps its other entries; a refused call writes nothing.
pub fn search_within(
    text: &[u8],
    margin: i64,
    budget: i64,
    leaves: &mut [u16],
) -> Result<Bounds, Refusal>
    ensures answers { result ≡ within_call (read_text text.now) margin budget (length leaves.old) }
    ensures lists { leaves.new ≡ laid (within_reads (read_text text.now) margin budget (length leaves.old)) leaves.old }
{
    let mut nodes = [Node::NONE; 1024];
    let t = reading::decode(text, &mut nodes)?;
    if is_beyond(40000000000000, margin) {
        return Err(Refusal::BadMargin);
    }
    if is_beyond(1024, budget) {
        return Err(Refusal::BadBudget);
    }
    if leaves.len() < t.leaves {
        return Err(Refusal::NoRoom);
    }
    Ok(search_decoded(&nodes, t, margin, budget, leaves))
}

// The bounded search of document 01: no table has more leaves than the greatest budget, so that it is never spent.
pub fn search_table(text: &[u8], margin: i64, leaves: &mut [u16]) -> Result<Bounds, Refusal>
    ensures answers { result ≡ search_call (read_text text.now) margin (length leaves.old) }
    ensures lists { leaves.new ≡ laid (search_reads (read_text text.now) margin (length leaves.old)) leaves.old }
{
    search_within(text, margin, 1024, leaves)
}
