// Rollouts over the decoded table: Algorithm 4 of document 003, whose lines are named here, in grains above the lowest end.
// The bounds stay two slices of numbers, `low` and `high`: document 01 wants the lent structs in "a few thin functions after the core on two number slices".
#![tactic(auto)]

ghost use Rattle.std.specs.Prelude.{ℕ, ◌≡◌, ◌+◌, ◌*◌, ◌<◌, ◌≤◌, max, min, length, get_or, set, drop};
ghost use Rattle.line.specs.Line.{code};
ghost use Rattle.table.specs.Tree.{kind_of};
ghost use Rattle.table.specs.Nodes.{kinds_in, stops_in, heights_in};
ghost use Rattle.rollout.specs.Rollout.{spend, joined, candidate};
ghost use Rattle.rollout.specs.Inside.Heights.{natural};
ghost use Rattle.rolling.specs.Inside.Contracts.{stored, Children, Counted, Choice, Named, Chosen, Extreme, Updated, ReadyDown, WentDown, Climb, Climbed, ReadyWalk, Walked, ReadyRoll, WellRolled};

use line::Kind;
use table::Node;

// Where a walk ends: the leaf, how many inner nodes lead to it, and how many policy bytes are used.
#[derive(Clone, Copy)]
struct Step {
    pub leaf: usize,
    pub depth: usize,
    pub used: usize,
}

// The extremes of the bounds of a node's children.
#[derive(Clone, Copy)]
struct Bounds {
    pub low: u64,
    pub high: u64,
}

// The window that a walk enters a node in.
#[derive(Clone, Copy)]
struct Window {
    pub alpha: u64,
    pub beta: u64,
}

impl Window {
    // Line 9: the window of node i where its parent has this one.
    fn met(self, low: &[u64], high: &[u64], i: usize) -> Window
        requires { (i < length low.now) × (i < length high.now) }
        ensures { (result.alpha ≡ max self.alpha (get_or low.now i 0)) × (result.beta ≡ min self.beta (get_or high.now i 0)) }
    {
        Window {
            alpha: self.alpha.max(low[i]),
            beta: self.beta.min(high[i]),
        }
    }

    // Line 11: whether node i is a candidate where its parent has this window.
    fn is_candidate(self, low: &[u64], high: &[u64], i: usize) -> bool
        requires { (i < length low.now) × (i < length high.now) }
        ensures { result ≡ candidate natural self.alpha self.beta (get_or low.now i 0) (get_or high.now i 0) }
    {
        let own = self.met(low, high, i);
        own.alpha < own.beta
    }

    // How many of the children, entries c up to e, are candidates.
    fn count(self, nodes: &[Node], low: &[u64], high: &[u64], c: usize, e: usize) -> usize
        requires { Children (stops_in nodes.now) c e × (e ≤ length low.now) × (e ≤ length high.now) }
        ensures { Counted (stops_in nodes.now) c e self.alpha self.beta (stored low.now high.now) result }
    {
        let mut m = 0;
        let mut i = c;
        while i < e {
            m += usize::from(self.is_candidate(low, high, i));
            i = usize::from(nodes[i].stop);
        }
        m
    }

    // Candidate number j of the children, counted from 0.
    fn find(self, nodes: &[Node], low: &[u64], high: &[u64], c: usize, e: usize, j: usize) -> usize
        requires { Choice (stops_in nodes.now) c e self.alpha self.beta (stored low.now high.now) j }
        ensures { Chosen (stops_in nodes.now) c e self.alpha self.beta (stored low.now high.now) j result }
    {
        let mut left = j;
        let mut i = c;
        loop {
            // Looked up first: the way along the row then waits for no more than that (docs/SPEED.md, "The design pass").
            let next = usize::from(nodes[i].stop);
            if self.is_candidate(low, high, i) {
                if left == 0 {
                    return i;
                }
                left -= 1;
            }
            i = next;
        }
    }

    // Which of the candidates the policy byte at `at` names: past the list's end the first, whatever their number, so that none are counted.
    fn choice(
        self,
        nodes: &[Node],
        low: &[u64],
        high: &[u64],
        policy: &[u8],
        at: usize,
        c: usize,
        e: usize,
    ) -> usize
        requires { Choice (stops_in nodes.now) c e self.alpha self.beta (stored low.now high.now) 0 }
        ensures { Named (stops_in nodes.now) c e self.alpha self.beta (stored low.now high.now) (drop at policy.now) result }
    {
        match policy.get(at) {
            Some(b) => usize::from(*b) % self.count(nodes, low, high, c, e),
            None => 0,
        }
    }
}

fn join(kind: Kind, x: u64, y: u64) -> u64
    ensures { result ≡ joined natural (kind_of (code kind)) x y }
{
    match kind {
        Kind::Min => x.min(y),
        _ => x.max(y),
    }
}

// Lines 15 and 16: "the maximum or minimum over all children, unread ones included". Each child is come to once, for both bounds.
fn extremes(kind: Kind, nodes: &[Node], low: &[u64], high: &[u64], c: usize, e: usize) -> Bounds
    requires { Children (stops_in nodes.now) c e × (c < e) × (e ≤ length low.now) × (e ≤ length high.now) }
    ensures { Extreme (kind_of (code kind)) (stops_in nodes.now) c e low.now result.low × Extreme (kind_of (code kind)) (stops_in nodes.now) c e high.now result.high }
{
    let mut l = low[c];
    let mut h = high[c];
    let mut i = usize::from(nodes[c].stop);
    while i < e {
        l = join(kind, l, low[i]);
        h = join(kind, h, high[i]);
        i = usize::from(nodes[i].stop);
    }
    Bounds { low: l, high: h }
}

// The inner node c gets the extremes of its children's bounds.
fn update(nodes: &[Node], low: &mut [u64], high: &mut [u64], c: usize)
    requires { let e : ℕ = get_or (stops_in nodes.now) c 0 in Children (stops_in nodes.now) (c + 1) e × (c + 1 < e) × (e ≤ length low.old) × (e ≤ length high.old) }
    ensures { let k : ℕ = get_or (kinds_in nodes.now) c 0 in let e : ℕ = get_or (stops_in nodes.now) c 0 in Updated (kind_of k) (stops_in nodes.now) c e low.old low.new × Updated (kind_of k) (stops_in nodes.now) c e high.old high.new }
{
    let node = nodes[c];
    let x = extremes(node.kind, nodes, low, high, c + 1, usize::from(node.stop));
    low[c] = x.low;
    high[c] = x.high;
}

// The leaf c is read: both bounds are its height in grains.
fn read_leaf(nodes: &[Node], low: &mut [u64], high: &mut [u64], c: usize, grain: u64)
    requires { (c < length nodes.now) × (c < length low.old) × (c < length high.old) × (grain ≤ 16777216) }
    ensures { (low.new ≡ set low.old c (get_or (heights_in nodes.now) c 0 * grain)) × (high.new ≡ set high.old c (get_or (heights_in nodes.now) c 0 * grain)) }
{
    let v = u64::from(nodes[c].height) * grain;
    low[c] = v;
    high[c] = v;
}

// How many bytes are used after one more inner node.
fn consume(policy: &[u8], at: usize) -> usize
    ensures { drop result policy.now ≡ spend (drop at policy.now) }
{
    if at < policy.len() { at + 1 } else { at }
}

// Lines 6 to 13: from the root, a candidate in the window, down to a leaf. The inner nodes on the way are listed in `path`.
fn down(
    nodes: &[Node],
    low: &[u64],
    high: &[u64],
    policy: &[u8],
    path: &mut [u16],
    used: usize,
    window: Window,
) -> Step
    requires { ReadyDown (kinds_in nodes.now) (stops_in nodes.now) window.alpha window.beta (stored low.now high.now) path.old }
    ensures { WentDown (kinds_in nodes.now) (stops_in nodes.now) window.alpha window.beta (stored low.now high.now) used policy.now result path.new }
{
    let mut c = 0;
    let mut depth = 0;
    let mut at = used;
    let mut w = window;
    while nodes[c].kind != Kind::Leaf {
        path[depth] = c as u16;
        w = w.met(low, high, c);
        let e = usize::from(nodes[c].stop);
        let j = w.choice(nodes, low, high, policy, at, c + 1, e);
        c = w.find(nodes, low, high, c + 1, e, j);
        at = consume(policy, at);
        depth += 1;
    }
    Step {
        leaf: c,
        depth,
        used: at,
    }
}

// Lines 14 to 17: the nodes of the path are updated, the last first.
fn up(nodes: &[Node], low: &mut [u64], high: &mut [u64], path: &[u16], depth: usize)
    requires { Climb (kinds_in nodes.now) (stops_in nodes.now) path.now depth (stored low.old high.old) }
    ensures { Climbed (kinds_in nodes.now) (stops_in nodes.now) path.now depth (stored low.old high.old) (stored low.new high.new) }
{
    for d in (0..depth).rev() {
        update(nodes, low, high, usize::from(path[d]));
    }
}

// Lines 6 to 17: from the root, a candidate in the window, down to a leaf, which is read, and up again. What `path` held does not matter.
fn walk(
    nodes: &[Node],
    low: &mut [u64],
    high: &mut [u64],
    policy: &[u8],
    path: &mut [u16],
    at: usize,
    grain: u64,
    window: Window,
) -> Step
    requires { ReadyWalk (kinds_in nodes.now) (stops_in nodes.now) (heights_in nodes.now) grain window.alpha window.beta (stored low.old high.old) path.old }
    ensures { Walked (kinds_in nodes.now) (stops_in nodes.now) (heights_in nodes.now) grain window.alpha window.beta (drop at policy.now) (stored low.old high.old) result policy.now (stored low.new high.new) }
{
    let r = down(nodes, low, high, policy, path, at, window);
    read_leaf(nodes, low, high, r.leaf, grain);
    up(nodes, low, high, path, r.depth);
    r
}

// The rollouts of the table whose nodes are the entries up to n, from a store where every node has the ends as bounds: lines 2 to 4. The
// leaves read are listed in reading sequence; the rest of the list stays. It gives their number.
pub fn roll_out(
    nodes: &[Node],
    low: &mut [u64],
    high: &mut [u64],
    policy: &[u8],
    leaves: &mut [u16],
    n: usize,
    grain: u64,
) -> usize
    requires { ReadyRoll (kinds_in nodes.now) (stops_in nodes.now) (heights_in nodes.now) grain n (stored low.old high.old) (length leaves.old) }
    ensures { WellRolled (kinds_in nodes.now) (stops_in nodes.now) (heights_in nodes.now) grain n policy.now (stored low.old high.old) (stored low.new high.new) result leaves.old leaves.new }
{
    // a node's number is above its parent's: no path is longer
    let mut path = [0u16; 1024];
    let mut used = 0;
    let mut at = 0;
    loop {
        let root = Window {
            alpha: low[0],
            beta: high[0],
        };
        if root.beta <= root.alpha {
            return used;
        }
        let r = walk(nodes, low, high, policy, &mut path, at, grain, root);
        leaves[used] = r.leaf as u16;
        used += 1;
        at = r.used;
    }
}
