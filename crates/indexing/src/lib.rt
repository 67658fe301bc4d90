// The ends of each inner node over the decoded nodes: how far the least height under it lies above the table's lowest end, and how far the greatest
// lies below its highest end; and these as an index's entries, written to a list or compared with one.
#![tactic(auto)]

ghost use Rattle.std.specs.Prelude.{ℕ, ◌≡◌, true, cond, ◌-◌, ◌<◌, ◌≤◌, eqb, length, get_or, set, map};
ghost use Rattle.std.specs.Int.Signed.{mag};
ghost use Rattle.numbers.specs.Integers.{eq_z};
ghost use Rattle.line.specs.Line.{code};
ghost use Rattle.table.specs.Nodes.{kinds_in, stops_in, heights_in};
ghost use Rattle.index.specs.Index.{written, agrees};
ghost use Rattle.indexing.specs.Inside.{Run, LeastOf, Nodes, OwnLeast, Leasts, Small, Dropped, Standing, OwnEndsOf, base_of, end_from, entries_of};

use line::Kind;
use table::Node;

// The end of a table that points are counted from: up from the lowest, or down from the highest.
#[derive(Clone, Copy)]
pub enum Base {
    Lowest(i64),
    Highest(i64),
}

impl Base {
    // The end that lies so many points from it.
    fn end(self, x: u32) -> i64
        requires { (mag (base_of self) ≤ 1000000) × (x ≤ 2000000) }
        ensures { result ≡ end_from self x }
    {
        match self {
            Base::Lowest(z) => z + i64::from(x),
            Base::Highest(z) => z - i64::from(x),
        }
    }
}

// The least of the points of the children in the entries from c up to e, from child to child.
fn least_of(nodes: &[Node], points: &[u32], c: usize, e: usize) -> u32
    requires { (e ≤ length nodes.now) × (e ≤ length points.now) × (e ≤ 1024) × Run (stops_in nodes.now) c e }
    ensures { LeastOf (stops_in nodes.now) points.now c e result }
{
    let mut m = u32::MAX;
    let mut j = c;
    while j < e {
        m = m.min(points[j]);
        j = usize::from(nodes[j].stop);
    }
    m
}

// The points of node i: a leaf's own, and else the least of its children's.
fn own_least(nodes: &[Node], points: &[u32], n: usize, i: usize) -> u32
    requires { (i < n) × (n ≤ length nodes.now) × (n ≤ length points.now) × (n ≤ 1024) × Nodes (kinds_in nodes.now) (stops_in nodes.now) n }
    ensures { OwnLeast (kinds_in nodes.now) (stops_in nodes.now) points.now i (get_or points.now i 0) result }
{
    match nodes[i].kind {
        Kind::Leaf => points[i],
        _ => least_of(nodes, points, i + 1, usize::from(nodes[i].stop)),
    }
}

// The same of every node, the last first: when a node's turn comes its children have theirs.
fn least_under(nodes: &[Node], points: &mut [u32], n: usize)
    requires { (n ≤ length nodes.now) × (n ≤ length points.old) × (n ≤ 1024) × Nodes (kinds_in nodes.now) (stops_in nodes.now) n }
    ensures { (length points.new ≡ length points.old) × Leasts (kinds_in nodes.now) (stops_in nodes.now) points.old points.new n }
{
    for i in (0..n).rev() {
        points[i] = own_least(nodes, points, n, i);
    }
}

// How far each height lies below the span.
pub fn drops(height: &[u32], drop: &mut [u32], n: usize, span: u32)
    requires { (n ≤ length height.now) × (n ≤ length drop.old) × Small span height.now n }
    ensures { (length drop.new ≡ length drop.old) × Dropped span height.now drop.new n }
{
    for (i, h) in height[..n].iter().enumerate() {
        drop[i] = span - *h;
    }
}

// Into `rise` each node's least height, a leaf's being its own, and into `drop` how far its greatest lies below the span: both are least numbers, of heights
// and of drops.
pub fn own_ends(nodes: &[Node], rise: &mut [u32], drop: &mut [u32], n: usize, span: u32)
    requires { (n ≤ length nodes.now) × (n ≤ length rise.old) × (n ≤ length drop.old) × (n ≤ 1024) × Small span (heights_in nodes.now) n × Standing (kinds_in nodes.now) (stops_in nodes.now) (heights_in nodes.now) n }
    ensures { (length rise.new ≡ length rise.old) × (length drop.new ≡ length drop.old) × OwnEndsOf (kinds_in nodes.now) (stops_in nodes.now) (heights_in nodes.now) n span rise.new drop.new }
{
    for (i, node) in nodes[..n].iter().enumerate() {
        rise[i] = node.height;
        drop[i] = span - node.height;
    }
    least_under(nodes, drop, n);
    least_under(nodes, rise, n);
}

// What shows whether it is a leaf: a node, or the number of its kind alone, where 0 is a leaf's and any other an inner node's.
pub trait Kinded: Copy {
    ghost kind_number: { Self → ℕ };

    fn is_leaf(self) -> bool
        ensures { result ≡ eqb (kind_number self) 0 };
}

impl Kinded for Node {
    ghost kind_number = { λ n. code n.kind };

    fn is_leaf(self) -> bool {
        self.kind == Kind::Leaf
    }
}

impl Kinded for u8 {
    ghost kind_number = { λ k. k };

    fn is_leaf(self) -> bool {
        self == 0
    }
}

// The entries of n nodes, written to a list: a leaf has none.
pub fn put_ends<T: Kinded>(nodes: &[T], points: &[u32], n: usize, base: Base, list: &mut [i64])
    requires { (n ≤ length nodes.now) × (n ≤ length points.now) × (n ≤ length list.old) × (mag (base_of base) ≤ 1000000) × Small 2000000 points.now n }
    ensures { list.new ≡ written (entries_of (map T.kind_number nodes.now) points.now base n) list.old }
{
    for (i, node) in nodes[..n].iter().enumerate() {
        if !node.is_leaf() {
            list[i] = base.end(points[i]);
        }
    }
}

// Whether z is the entry of node i, where it has one.
fn same_end<T: Kinded>(nodes: &[T], points: &[u32], i: usize, base: Base, z: i64) -> bool
    requires { (i < length nodes.now) × (i < length points.now) × (mag (base_of base) ≤ 1000000) × (get_or points.now i 0 ≤ 2000000) }
    ensures { result ≡ cond (eqb (get_or (map T.kind_number nodes.now) i 0) 0) true (eq_z (end_from base (get_or points.now i 0)) z) }
{
    nodes[i].is_leaf() || base.end(points[i]) == z
}

// Whether a list has the entries of n nodes.
pub fn same_ends<T: Kinded>(nodes: &[T], points: &[u32], n: usize, base: Base, list: &[i64]) -> bool
    requires { (n ≤ length nodes.now) × (n ≤ length points.now) × (mag (base_of base) ≤ 1000000) × Small 2000000 points.now n }
    ensures { result ≡ agrees (entries_of (map T.kind_number nodes.now) points.now base n) list.now }
{
    n <= list.len() && (0..n).all(|i| same_end(nodes, points, i, base, list[i]))
}
