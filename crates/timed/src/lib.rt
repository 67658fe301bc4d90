// A table decoded once and searched many times, for ./bench alone: every other call reads the table's text before it searches, which takes longer than
// the search.
#![tactic(auto)]

ghost use Rattle.std.specs.Prelude.{[], ◌≡◌, length};
ghost use Rattle.table.specs.Table.{read_text};
ghost use Rattle.table.specs.Slices.{laid};
ghost use Rattle.table.specs.Nodes.{slices_in};
ghost use Rattle.searching.specs.Inside.{way, ReadyRoot};
ghost use Rattle.search_call.specs.Call.{search_call, search_reads};
ghost use Rattle.codes.specs.Numbers.{search_code, search_numbers, put};

use steps::{Ends, Rule};
use table::Node;

// A decoded table searched so many times, and what is found dropped. Were searches left out by the compiler, the time would not grow with their number.
fn searches(nodes: &[Node], n: usize, g: Rule, v: Ends, times: u64)
    requires { ReadyRoot (slices_in nodes.now) (way g v [] []) v n }
{
    let mut leaves = [0u16; 1024];
    for _ in 0..times {
        searching::search(nodes, &[], &[], &mut leaves, n, g, v);
    }
}

// The same from the text. A table that is refused is not searched, nor is any at a refused margin.
fn again(text: &[u8], margin: i64, times: u64) {
    let mut nodes = [Node::NONE; 1024];
    let Ok(t) = reading::decode(text, &mut nodes) else {
        return;
    };
    if search_call::is_beyond(40000000000000, margin) {
        return;
    }
    let s = scale::scale_of(t);
    let g = search_call::rule_of(s, margin);
    let v = search_call::ends_of(s);
    searches(&nodes, t.nodes, g, v, times);
}

// The call `margin_search`, after the table was read once and searched so many times. Of two numbers of times the difference is that of searches alone.
#[unsafe(no_mangle)]
pub extern "C" fn margin_search_times(
    text: &[u8],
    margin: i64,
    times: u64,
    leaves: &mut [u16],
    numbers: &mut [i64],
) -> u64
    ensures code { result ≡ search_code (search_call (read_text text.now) margin (length leaves.old)) }
    ensures numbers { numbers.new ≡ put 0 (search_numbers (search_call (read_text text.now) margin (length leaves.old))) numbers.old }
    ensures lists { leaves.new ≡ laid (search_reads (read_text text.now) margin (length leaves.old)) leaves.old }
{
    again(text, margin, times);
    abi::margin_search(text, margin, leaves, numbers)
}
