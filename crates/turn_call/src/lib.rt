// The public call of turning. It takes any input, and ends with an answer or a refusal.
#![tactic(auto)]

ghost use Rattle.std.specs.Prelude.{◌≡◌, length};
ghost use Rattle.table.specs.Table.{read_text};
ghost use Rattle.table.specs.Slices.{laid};
ghost use Rattle.turn_call.specs.Call.{turn_call, turn_bytes};

use line::Refusal;
use table::Node;

// The turned table's text: for any text and any buffer. The text goes to the start of the buffer, whose other bytes stay; a refused call
// writes nothing.
pub fn turn_table(text: &[u8], buffer: &mut [u8]) -> Result<usize, Refusal>
    ensures answers { result ≡ turn_call (read_text text.now) (length buffer.old) }
    ensures writes { buffer.new ≡ laid (turn_bytes (read_text text.now) (length buffer.old)) buffer.old }
{
    let mut nodes = [Node::NONE; 1024];
    let t = reading::decode(text, &mut nodes)?;
    if buffer.len() < text.len() {
        return Err(Refusal::NoRoom);
    }
    turn::turn(text, t.head(), t.nodes, buffer);
    Ok(text.len())
}
