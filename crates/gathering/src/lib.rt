// All node lines of a text, from the top, gathered into nodes.
#![tactic(auto)]

ghost use Rattle.std.specs.Prelude.{◌≡◌, [], ◌+◌, ◌*◌, ◌≤◌, length, drop};
ghost use Rattle.std.specs.Int.Signed.{mag};
ghost use Rattle.line.specs.Inside.{Ranged, Sized};
ghost use Rattle.table.specs.Table.{node_lines};
ghost use Rattle.table.specs.Slices.{height_of};
ghost use Rattle.gathering.specs.Inside.{node_of, Gathered};

use line::{Head, Kind, Line, Refusal};
use parsing::Path;
use table::Node;

// All node lines: the greatest number of C on a path, and the number of leaves.
#[derive(Clone, Copy)]
pub struct Counts {
    pub chances: u64,
    pub leaves: usize,
}

// How many points a leaf stands above the lowest end.
fn height_of(l: Line, lowest: i64) -> u32
    requires { (mag l.utility ≤ 1000000) × (mag lowest ≤ 1000000) }
    ensures { result ≡ height_of lowest l }
{
    match l.kind {
        Kind::Leaf => (l.utility - lowest).max(0) as u32,
        _ => 0,
    }
}

// A line as a node; where its run stops is not known yet.
fn node_of(l: Line, lowest: i64) -> Node
    requires { Sized l × (mag lowest ≤ 1000000) }
    ensures { result ≡ node_of lowest l }
{
    Node {
        kind: l.kind,
        stop: 0,
        weight: l.weight as u8,
        height: height_of(l, lowest),
    }
}

// All n node lines from the top, as nodes; `up` gets the parents.
pub fn node_lines(
    text: &[u8],
    n: usize,
    h: Head,
    nodes: &mut [Node],
    up: &mut [u16],
) -> Result<Counts, Refusal>
    requires { (1024 ≤ length nodes.old) × (1024 ≤ length up.old) × (n ≤ 1024) × (25 * n + 25 ≡ length text.now) × Ranged h }
    ensures { Gathered h.lowest (node_lines h n 0 [] (drop 25 text.now)) result nodes.old up.old nodes.new up.new }
{
    let mut path = Path::new();
    let mut most: u64 = 0;
    let mut leaves = 0;
    for i in 0..n {
        let at = 25 * i + 25;
        let p = parsing::node_line(&text[at..at + 25], i, h, &path)?;
        let l = p.line;
        path.push(p.depth, l.step());
        most = most.max(l.chances);
        leaves += usize::from(l.kind == Kind::Leaf);
        nodes[i] = node_of(l, h.lowest);
        up[i] = l.parent as u16;
    }
    Ok(Counts {
        chances: most,
        leaves,
    })
}
