// The public calls of the index of ends: one builds it, the other searches with it. They take any input, and end with an answer or a refusal.
#![tactic(auto)]

ghost use Rattle.std.specs.Prelude.{◌&&◌, ◌≡◌, ◌≤◌, length};
ghost use Rattle.table.specs.Table.{read_text};
ghost use Rattle.table.specs.Slices.{laid};
ghost use Rattle.scale.specs.Inside.{Spread};
ghost use Rattle.index.specs.Index.{written, agrees};
ghost use Rattle.indexing.specs.Inside.{Small, entries_of};
ghost use Rattle.indexing.specs.declared.Base.TheVariants.{Lowest, Highest};
ghost use Rattle.table.specs.Nodes.{kinds_in};
ghost use Rattle.index_call.specs.Call.{room_in, index_call, index_lows, index_highs, indexed_call, indexed_reads};

use indexing::Base;
use line::Refusal;
use search_call::Bounds;
use table::{Node, Summary};

// Whether a lent index is the table's own, whose lines' ends stand so many points above its lowest end and below its highest.
fn is_own(
    nodes: &[Node],
    rise: &[u32],
    drop: &[u32],
    t: Summary,
    lows: &[i64],
    highs: &[i64],
) -> bool
    requires { (t.nodes ≤ length nodes.now) × (t.nodes ≤ length rise.now) × (t.nodes ≤ length drop.now) × Spread t × Small 2000000 rise.now t.nodes × Small 2000000 drop.now t.nodes }
    ensures { result ≡ (agrees (entries_of (kinds_in nodes.now) rise.now (Lowest t.lowest) t.nodes) lows.now && agrees (entries_of (kinds_in nodes.now) drop.now (Highest t.highest) t.nodes) highs.now) }
{
    indexing::same_ends(nodes, rise, t.nodes, Base::Lowest(t.lowest), lows)
        && indexing::same_ends(nodes, drop, t.nodes, Base::Highest(t.highest), highs)
}

// The index of a table, into two lists: for any text and any lists. The entries of M, N and C are written, by node number; those of leaves and those past the
// nodes stay, and a refused call writes nothing.
pub fn build_index(text: &[u8], lows: &mut [i64], highs: &mut [i64]) -> Result<(), Refusal>
    ensures answers { result ≡ index_call (read_text text.now) (room_in lows.old highs.old) }
    ensures lows { lows.new ≡ written (index_lows (read_text text.now) (room_in lows.old highs.old)) lows.old }
    ensures highs { highs.new ≡ written (index_highs (read_text text.now) (room_in lows.old highs.old)) highs.old }
{
    let mut nodes = [Node::NONE; 1024];
    let mut rise = [0u32; 1024];
    let mut drop = [0u32; 1024];
    let t = reading::decode(text, &mut nodes)?;
    if lows.len() < t.nodes {
        return Err(Refusal::NoRoom);
    }
    if highs.len() < t.nodes {
        return Err(Refusal::NoRoom);
    }
    let span = scale::span_of(t) as u32;
    indexing::own_ends(&nodes, &mut rise, &mut drop, t.nodes, span);
    indexing::put_ends(&nodes, &rise, t.nodes, Base::Lowest(t.lowest), lows);
    indexing::put_ends(&nodes, &drop, t.nodes, Base::Highest(t.highest), highs);
    Ok(())
}

// The bounded search with a lent index: for any text, any margin and any lists. The leaf list gets the leaves read in reading sequence, and keeps its
// other entries; a refused call writes nothing.
pub fn search_indexed(
    text: &[u8],
    margin: i64,
    lows: &[i64],
    highs: &[i64],
    leaves: &mut [u16],
) -> Result<Bounds, Refusal>
    ensures answers { result ≡ indexed_call (read_text text.now) margin lows.now highs.now (length leaves.old) }
    ensures lists { leaves.new ≡ laid (indexed_reads (read_text text.now) margin lows.now highs.now (length leaves.old)) leaves.old }
{
    let mut nodes = [Node::NONE; 1024];
    let mut rise = [0u32; 1024];
    let mut drop = [0u32; 1024];
    let mut tops = [0u32; 1024];
    let t = reading::decode(text, &mut nodes)?;
    let span = scale::span_of(t) as u32;
    indexing::own_ends(&nodes, &mut rise, &mut drop, t.nodes, span);
    if !is_own(&nodes, &rise, &drop, t, lows, highs) {
        return Err(Refusal::BadIndex);
    }
    if search_call::is_beyond(40000000000000, margin) {
        return Err(Refusal::BadMargin);
    }
    if leaves.len() < t.leaves {
        return Err(Refusal::NoRoom);
    }
    // the highest ends above the table's lowest
    indexing::drops(&drop, &mut tops, t.nodes, span);
    let s = scale::scale_of(t);
    let g = search_call::rule_of(s, margin);
    let v = search_call::ends_of(s);
    let n = leaves.len();
    let f = searching::search(&nodes, &rise, &tops, leaves, t.nodes, g, v);
    Ok(search_call::bounds_of(t, f, n))
}
