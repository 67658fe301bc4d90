// The exact worth: of a run of lines, in grains above the lowest end, with the kinds that the lines say and the numbers that were decoded;
// and the public call.
#![tactic(auto)]

ghost use Rattle.std.specs.Prelude.{◌≡◌, ◌+◌, ◌*◌, ◌<◌, ◌≤◌, length, take, drop};
ghost use Rattle.line.specs.Line.{code};
ghost use Rattle.table.specs.Tree.{MAX, CHANCE, kind_of};
ghost use Rattle.worth.specs.Inside.{kind_in, beside_in, ReadyRun, Worthy};
ghost use Rattle.table.specs.Inside.{begin, taken, sealed};
ghost use Rattle.table.specs.Table.{read_text};
ghost use Rattle.worth.specs.Call.{exact_call};

use line::{Kind, Refusal};
use scale::Scale;
use table::Node;

// The worth in grains, and G.
#[derive(Clone, Copy)]
pub struct Exact {
    pub grains: i64,
    pub grain: u64,
}

// The kind that the line at the byte `at` says; one of an unknown letter, which no accepted table has, as a C.
fn kind_at(run: &[u8], at: usize) -> Kind
    requires { at + 25 ≤ length run.now }
    ensures { kind_in (take 25 (drop at run.now)) < 4 → code result ≡ kind_in (take 25 (drop at run.now)) }
{
    Kind::from_letter(run[at + 5]).unwrap_or(Kind::Chance)
}

// What stands before the first child of a node of kind k.
fn before_any(k: Kind, top: u64) -> u64
    ensures { result ≡ begin top (kind_of (code k)) }
{
    match k {
        Kind::Min => top,
        _ => 0,
    }
}

// What stands after a child of weight w, which is worth h.
fn take_child(k: Kind, a: u64, w: u64, h: u64) -> u64
    requires { kind_of (code k) ≡ CHANCE → a + w * h < 9223372036854775808 }
    ensures { result ≡ taken (kind_of (code k)) a w h }
{
    match k {
        Kind::Max => a.max(h),
        Kind::Min => a.min(h),
        _ => a + w * h,
    }
}

// What stands after the last child, where the weights of all sum to `total`.
fn seal(k: Kind, total: u64, a: u64) -> u64
    requires { kind_of (code k) ≡ CHANCE → 0 < total }
    ensures { result ≡ sealed total (kind_of (code k)) a }
{
    match k {
        Kind::Max | Kind::Min => a,
        _ => a / total,
    }
}

// A node of kind k whose children's runs are the lines `run`, nodes c up to e: each child's run is a part of it. By document 01 the recursion
// is on the run of lines, uncopied, which says the kinds.
fn worth_under(k: Kind, run: &[u8], nodes: &[Node], c: usize, e: usize, g: Scale) -> u64
    requires { ReadyRun (beside_in nodes.now) g (kind_of (code k)) c e run.now }
    ensures { Worthy (beside_in nodes.now) g (kind_of (code k)) c e run.now result }
{
    let mut a = before_any(k, g.top);
    let mut total: u64 = 0;
    let mut i = c;
    while i < e {
        let s = usize::from(nodes[i].stop);
        let at = 25 * (i - c);
        let h = match kind_at(run, at) {
            Kind::Leaf => u64::from(nodes[i].height) * g.grain,
            kind => worth_under(kind, &run[at + 25..25 * (s - c)], nodes, i + 1, s, g),
        };
        let w = u64::from(nodes[i].weight);
        a = take_child(k, a, w, h);
        total += w;
        i = s;
    }
    seal(k, total, a)
}

// The worth of one node: its run of lines, nodes c up to e. A run of one line is a leaf, which takes no call: a root over leaves is judged faster so (docs/SPEED.md).
pub fn worth_of(run: &[u8], nodes: &[Node], c: usize, e: usize, g: Scale) -> u64
    requires { ReadyRun (beside_in nodes.now) g MAX c e run.now }
    ensures { Worthy (beside_in nodes.now) g MAX c e run.now result }
{
    if c + 1 == e {
        return u64::from(nodes[c].height) * g.grain;
    }
    worth_under(Kind::Max, run, nodes, c, e, g)
}

// The exact worth of a table, for any text.
pub fn exact_worth(text: &[u8]) -> Result<Exact, Refusal>
    ensures { result ≡ exact_call (read_text text.now) }
{
    let mut nodes = [Node::NONE; 1024];
    let t = reading::decode(text, &mut nodes)?;
    let g = scale::scale_of(t);
    let h = worth_of(&text[25..], &nodes, 0, t.nodes, g);
    Ok(Exact {
        grains: scale::in_grains(t.lowest, t.grain, h),
        grain: t.grain,
    })
}
