// A table's text: refused with the documents' number and line, or decoded into nodes.
#![tactic(auto)]

ghost use Rattle.std.specs.Prelude.{◌≡◌, ◌+◌, ◌*◌, ◌<◌, ◌≤◌, length, map, take, drop};
ghost use Rattle.line.specs.Inside.{Ranged};
ghost use Rattle.line.specs.Line.{totals};
ghost use Rattle.table.specs.Table.{lines_of, bad_length, read_text, answer};
ghost use Rattle.table.specs.Tree.{grain_of};
ghost use Rattle.table.specs.Nodes.{kinds_in, stops_in, weights_in, heights_in};
ghost use Rattle.table.specs.Slices.{fitted, kinds_of, stops_of, weights_of, heights_of, decoded};
ghost use Rattle.reading.specs.Inside.{Counted, Summed, complete_at, Decoded};

use gathering::Counts;
use line::{Head, Refusal};
use table::{Node, Summary};

// The grain count of n nodes whose sums are totals. Where there is one total, its uses are all the C; only with a second one are they counted.
fn grain_of(h: Head, most: u64, nodes: &[Node], n: usize) -> u64
    requires { (n ≤ length nodes.now) × (n ≤ 1024) × (h.total ≤ 64) × (h.second ≤ 64) × (most ≤ 4) × Summed (kinds_in nodes.now) (stops_in nodes.now) (weights_in nodes.now) n most (totals h) }
    ensures { (S : Summed (kinds_in nodes.now) (stops_in nodes.now) (weights_in nodes.now) n most (totals h)) → result ≡ grain_of (totals h) S.counted.forest }
{
    if h.second == 0 {
        return h.total.pow(most as u32);
    }
    let first = runs::most_uses(nodes, 0, n, h.total);
    let second = runs::most_uses(nodes, 0, n, h.second);
    h.total.pow(first as u32) * h.second.pow(second as u32)
}

// A table whose node lines are decoded: 8, then 9, then 18, then accepted.
fn completed(h: Head, m: Counts, nodes: &[Node], n: usize) -> Result<Summary, Refusal>
    requires { (n ≤ length nodes.now) × (n ≤ 1024) × (h.total ≤ 64) × (h.second ≤ 64) × (m.chances ≤ 4) × Counted (kinds_in nodes.now) (stops_in nodes.now) (weights_in nodes.now) n m.chances }
    ensures { (C : Counted (kinds_in nodes.now) (stops_in nodes.now) (weights_in nodes.now) n m.chances) → result ≡ complete_at (kinds_in nodes.now) (stops_in nodes.now) (weights_in nodes.now) n h m.chances m.leaves (grain_of (totals h) C.forest) }
{
    let bare = runs::first_childless(nodes, n);
    let odd = runs::first_unbalanced(nodes, n, h.total, h.other_total());
    if let Some(i) = bare {
        return Err(Refusal::Childless(i + 1));
    }
    if let Some(i) = odd {
        return Err(Refusal::WrongSum(i + 1));
    }
    let grain = grain_of(h, m.chances, nodes, n);
    if 16777216 < grain {
        return Err(Refusal::TooManyGrains);
    }
    Ok(Summary {
        nodes: n,
        total: h.total,
        lowest: h.lowest,
        highest: h.highest,
        chances: m.chances,
        grain,
        leaves: m.leaves,
        second: h.second,
    })
}

// Copied to the front, as many entries as there is room for.
pub fn keep<T: Copy>(from: &[T], to: &mut [T])
    ensures { to.new ≡ fitted from.now to.old }
{
    let n = from.len().min(to.len());
    to[..n].copy_from_slice(&from[..n]);
}

// The node lines of a table whose header was read, then 8, 9 and 18.
fn decode_lines(text: &[u8], n: usize, h: Head, nodes: &mut [Node]) -> Result<Summary, Refusal>
    requires { (1024 ≤ length nodes.old) × (0 < n) × (n ≤ 1024) × (25 * n + 25 ≡ length text.now) × Ranged h }
    ensures { Decoded (lines_of h n (drop 25 text.now)) result (kinds_in nodes.old) (stops_in nodes.old) (weights_in nodes.old) (heights_in nodes.old) (kinds_in nodes.new) (stops_in nodes.new) (weights_in nodes.new) (heights_in nodes.new) }
{
    let mut up = [0u16; 1024];
    let m = gathering::node_lines(text, n, h, nodes, &mut up)?;
    runs::stops(&up, n, nodes);
    completed(h, m, nodes, n)
}

fn is_bad_length(n: usize) -> bool
    ensures { result ≡ bad_length n }
{
    n % 25 != 0 || n < 50 || 25625 < n
}

// Reads any text into 1,024 nodes or more, for a caller to whom they are its own: a refused table may leave something in them.
pub fn decode(text: &[u8], nodes: &mut [Node]) -> Result<Summary, Refusal>
    requires { 1024 ≤ length nodes.old }
    ensures { Decoded (read_text text.now) result (kinds_in nodes.old) (stops_in nodes.old) (weights_in nodes.old) (heights_in nodes.old) (kinds_in nodes.new) (stops_in nodes.new) (weights_in nodes.new) (heights_in nodes.new) }
{
    if is_bad_length(text.len()) {
        return Err(Refusal::Length);
    }
    let n = text.len() / 25 - 1;
    let h = parsing::header(&text[..25], n)?;
    decode_lines(text, n, h, nodes)
}

// A number of each node, to the front, as many as there is room for.
fn put_column<T: Copy, F: Fn(Node) -> T>(nodes: &[Node], to: &mut [T], column: F)
    requires { F.IsAlwaysCallable column }
    ensures { (f : _) → ((n : _) (r : _) → F.post column n r → r ≡ f n) → to.new ≡ fitted (map f nodes.now) to.old }
{
    let n = nodes.len().min(to.len());
    for (i, node) in nodes[..n].iter().enumerate() {
        to[i] = column(*node);
    }
}

// Reads any text. An accepted table's nodes are decoded into the four slices, by node number: kind (0 for L, 1 for M, 2 for N,
// 3 for C), one past the node's run, weight (0 where there is none), and for a leaf its points above the lowest end (0 for the others).
// A slice that is too short gets as many entries as it has room for; 1,024 are always enough. A refused table writes nothing.
pub fn read(
    text: &[u8],
    kind: &mut [u8],
    stop: &mut [u16],
    weight: &mut [u8],
    height: &mut [u32],
) -> Result<Summary, Refusal>
    ensures answers { result ≡ answer (read_text text.now) }
    ensures kinds { kind.new ≡ fitted (decoded kinds_of (read_text text.now)) kind.old }
    ensures stops { stop.new ≡ fitted (decoded stops_of (read_text text.now)) stop.old }
    ensures weights { weight.new ≡ fitted (decoded weights_of (read_text text.now)) weight.old }
    ensures heights { height.new ≡ fitted (decoded heights_of (read_text text.now)) height.old }
{
    let mut nodes = [Node::NONE; 1024];
    let t = decode(text, &mut nodes)?;
    let read = &nodes[..t.nodes];
    put_column(read, kind, |node| node.kind.code());
    put_column(read, stop, |node| node.stop);
    put_column(read, weight, |node| node.weight);
    put_column(read, height, |node| node.height);
    Ok(t)
}
