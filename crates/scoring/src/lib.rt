// One position of a match file: its play-number line and its table read, and the play judged. `Match` is the reader: the file and a place in it.
#![tactic(auto)]

ghost use Rattle.std.specs.Prelude.{◌≡◌, length};
ghost use Rattle.line.specs.Refusal.{unless};
ghost use Rattle.line.specs.Line.{code, count_of, heading_of};
ghost use Rattle.report.specs.Report.{bad_start, head_checks, thousandths, scored};
ghost use Rattle.report.specs.Inside.{Small};
ghost use Rattle.scoring.specs.Inside.{claim_of, count_shown, SmallOpinion, entry_as, said, said_of, said_at};

use field::Field;
use judge::{Decision, Lines};
use line::{Kind, Refusal};
use report::Row;
use table::Node;

// What stands at a place of the file: a position's entry and how many bytes it takes, or why it is refused.
#[derive(Clone, Copy)]
pub struct Scored {
    pub row: Row,
    pub size: usize,
}

// A match file and a place in it.
#[derive(Clone, Copy)]
pub struct Match<'a> {
    pub file: &'a [u8],
    pub at: usize,
}

// Whether the play-number line is ill-written, or fewer than 30 bytes are left.
fn is_bad_start(s: &[u8]) -> bool
    ensures { result ≡ bad_start s.now }
{
    s.len() < 30 || s[4] != b'\n' || !matches!(field::read(s, 0, 4), Field::Number(_))
}

// The number of nodes that a header claims; 1 where it is outside 1 to 1,024, so that `parsing::header` answers 4.
fn claim(f: Field) -> usize
    ensures { result ≡ claim_of f }
{
    let n = f.count();
    if (1..=1024).contains(&n) {
        n as usize
    } else {
        1
    }
}

fn count_nodes(line: &[u8]) -> Result<usize, Refusal>
    requires { length line.now ≡ 25 }
    ensures { count_shown result ≡ unless (head_checks line.now) (count_of (heading_of line.now).count) }
{
    let n = claim(field::read(line, 0, 4));
    parsing::header(line, n)?;
    Ok(n)
}

fn in_thousandths(loss: u64, grain: u64) -> u64
    requires { Small grain loss }
    ensures { result ≡ thousandths loss grain }
{
    loss * 1000 / grain
}

// What judging says of a position of `size` bytes, as its entry.
fn entry_of(
    kind: Kind,
    grain: u64,
    size: usize,
    o: Result<Option<Decision>, Refusal>,
) -> Result<Scored, Refusal>
    requires { SmallOpinion grain o }
    ensures { result ≡ entry_as (code kind) grain size o }
{
    let j = o?;
    Ok(Scored {
        row: Row {
            kind: kind.code(),
            loss: j.map(|d| in_thousandths(d.loss, grain)),
        },
        size,
    })
}

// The play of root child `number` of a table, in a position of `size` bytes: for any text and any number.
fn score(text: &[u8], number: i64, size: usize) -> Result<Scored, Refusal>
    ensures { result ≡ said size (scored number text.now) }
{
    let mut nodes = [Node::NONE; 1024];
    let t = reading::decode(text, &mut nodes)?;
    let lines = Lines {
        text: &text[25..],
        n: t.nodes,
        nodes: &nodes,
        scale: scale::scale_of(t),
    };
    let o = lines.judge(number);
    entry_of(nodes[0].kind, t.grain, size, o)
}

// The position at the front of a part of the file.
fn position_of(s: &[u8]) -> Result<Scored, Refusal>
    ensures { result ≡ said_of s.now }
{
    if is_bad_start(s) {
        return Err(Refusal::NoPosition);
    }
    let n = count_nodes(&s[5..30])?;
    let size = 30 + 25 * n;
    if s.len() < size {
        return Err(Refusal::NoPosition);
    }
    score(&s[5..size], field::read(s, 0, 4).value(), size)
}

// The position at a place of the file: any place is answered.
pub fn position_at(file: &[u8], at: usize) -> Result<Scored, Refusal>
    ensures { result ≡ said_at file.now at }
{
    if file.len() < at {
        return Err(Refusal::NoPosition);
    }
    position_of(&file[at..])
}

impl Match<'_> {
    // The position that the reader stands at.
    pub fn here(self) -> Result<Scored, Refusal>
        ensures { result ≡ said_at self.entry.file.now self.entry.at }
    {
        position_at(self.file, self.at)
    }
}
