// Runs of nodes in the decoded table: where each stops, the nodes without a child or with weights that sum to no total, and how often a total is used.
#![tactic(auto)]

ghost use Rattle.std.specs.Prelude.{◌≡◌, ◌+◌, ◌<◌, ◌≤◌, length, get_or, take, IfSome};
ghost use Rattle.table.specs.Nodes.{kinds_in, stops_in, weights_in, heights_in};
ghost use Rattle.table.specs.Slices.{laid};
ghost use Rattle.runs.specs.Inside.{stop_in, stops_from, HasStops, first_where, bare_at, Has, weigh_at, odd_at, use_at, UsedMost};

use line::Kind;
use table::Node;

// One past the run of node i, from child to child: the stops of the later nodes are there, and `next` is that of node i + 1, so that on a
// path no stop is waited for that was just written.
fn run_end(up: &[u16], nodes: &[Node], i: usize, n: usize, next: usize) -> usize
    requires { (i < n) × (n ≤ length up.now) × (n ≤ length nodes.now) × (n ≤ 1024) × HasStops (take n up.now) (stops_in nodes.now) (i + 1) × (i + 1 < n → next ≡ stop_in (take n up.now) (i + 1)) }
    ensures { result ≡ stop_in (take n up.now) i }
{
    let c = i + 1;
    if n <= c || usize::from(up[c]) < i {
        return c;
    }
    let mut j = next;
    while j < n && i <= usize::from(up[j]) {
        j = usize::from(nodes[j].stop);
    }
    j
}

// One past the run of each of n nodes, the last node first.
pub fn stops(up: &[u16], n: usize, nodes: &mut [Node])
    requires { (n ≤ length up.now) × (n ≤ length nodes.old) × (n ≤ 1024) }
    ensures kinds { kinds_in nodes.new ≡ kinds_in nodes.old }
    ensures stops { stops_in nodes.new ≡ laid (stops_from 0 (take n up.now)) (stops_in nodes.old) }
    ensures weights { weights_in nodes.new ≡ weights_in nodes.old }
    ensures heights { heights_in nodes.new ≡ heights_in nodes.old }
{
    let mut end = n;
    for i in (0..n).rev() {
        end = run_end(up, nodes, i, n, end);
        nodes[i].stop = end as u16;
    }
}

// Whether node i is of kind M, N or C and its run is itself alone.
fn is_childless(nodes: &[Node], i: usize) -> bool
    requires { (i < length nodes.now) × (i < 1024) }
    ensures { result ≡ bare_at (kinds_in nodes.now) (stops_in nodes.now) i }
{
    nodes[i].kind != Kind::Leaf && usize::from(nodes[i].stop) == i + 1
}

// The first such node of n.
pub fn first_childless(nodes: &[Node], n: usize) -> Option<usize>
    requires { (n ≤ length nodes.now) × (n ≤ 1024) }
    ensures first { result ≡ first_where (bare_at (kinds_in nodes.now) (stops_in nodes.now)) n }
    ensures within { IfSome result (λ i. i < n) }
{
    (0..n).find(|&i| is_childless(nodes, i))
}

// The child after j. A leaf's run is itself alone: among leaves no stop is waited for.
fn next_child(nodes: &[Node], j: usize) -> usize
    requires { (j < length nodes.now) × (j < 1024) × (get_or (kinds_in nodes.now) j 0 ≡ 0 → get_or (stops_in nodes.now) j 0 ≡ j + 1) }
    ensures { result ≡ get_or (stops_in nodes.now) j 0 }
{
    match nodes[j].kind {
        Kind::Leaf => j + 1,
        _ => usize::from(nodes[j].stop),
    }
}

// The weights of the children in the entries from c up to e, from child to child.
pub fn sum_weights(nodes: &[Node], c: usize, e: usize) -> u64
    requires { (e ≤ length nodes.now) × (e ≤ 1024) × Has (kinds_in nodes.now) (stops_in nodes.now) (weights_in nodes.now) c e }
    ensures { result ≡ weigh_at (stops_in nodes.now) (weights_in nodes.now) 1024 c e }
{
    let mut sum = 0;
    let mut j = c;
    while j < e {
        sum += u64::from(nodes[j].weight);
        j = next_child(nodes, j);
    }
    sum
}

// Whether node i is a C whose children's weights sum to neither total.
fn is_unbalanced(nodes: &[Node], n: usize, total: u64, other: u64, i: usize) -> bool
    requires { (i < n) × (n ≤ length nodes.now) × (n ≤ 1024) × Has (kinds_in nodes.now) (stops_in nodes.now) (weights_in nodes.now) 0 n }
    ensures { result ≡ odd_at (kinds_in nodes.now) (stops_in nodes.now) (weights_in nodes.now) total other i }
{
    if nodes[i].kind != Kind::Chance {
        return false;
    }
    let sum = sum_weights(nodes, i + 1, usize::from(nodes[i].stop));
    sum != total && sum != other
}

// The first such node of n.
pub fn first_unbalanced(nodes: &[Node], n: usize, total: u64, other: u64) -> Option<usize>
    requires { (n ≤ length nodes.now) × (n ≤ 1024) × Has (kinds_in nodes.now) (stops_in nodes.now) (weights_in nodes.now) 0 n }
    ensures first { result ≡ first_where (odd_at (kinds_in nodes.now) (stops_in nodes.now) (weights_in nodes.now) total other) n }
    ensures within { IfSome result (λ i. i < n) }
{
    (0..n).find(|&i| is_unbalanced(nodes, n, total, other, i))
}

// 1 where node i, whose run stops at e, is a C whose children's weights sum to the total.
fn use_at(nodes: &[Node], i: usize, e: usize, total: u64) -> u64
    requires { (i < e) × (e ≤ length nodes.now) × (e ≤ 1024) × (get_or (stops_in nodes.now) i 0 ≡ e) × Has (kinds_in nodes.now) (stops_in nodes.now) (weights_in nodes.now) (i + 1) e }
    ensures { result ≡ use_at (kinds_in nodes.now) (stops_in nodes.now) (weights_in nodes.now) total i }
{
    u64::from(nodes[i].kind == Kind::Chance && sum_weights(nodes, i + 1, e) == total)
}

// The greatest number of uses of the total on a path down through the nodes in the entries from c up to e. Under a leaf there are none.
pub fn most_uses(nodes: &[Node], c: usize, e: usize, total: u64) -> u64
    requires { (e ≤ length nodes.now) × (e ≤ 1024) × Has (kinds_in nodes.now) (stops_in nodes.now) (weights_in nodes.now) c e }
    ensures { UsedMost (kinds_in nodes.now) (stops_in nodes.now) (weights_in nodes.now) total c e result }
{
    let mut most: u64 = 0;
    let mut i = c;
    while i < e {
        let stop = usize::from(nodes[i].stop);
        let here = use_at(nodes, i, stop, total);
        let under = most_uses(nodes, i + 1, stop, total);
        most = most.max(here + under);
        i = stop;
    }
    most
}
