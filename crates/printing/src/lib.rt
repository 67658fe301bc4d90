// The margin program's answer: the bytes that it prints for the bytes that it reads.
#![tactic(auto)]

ghost use Rattle.std.specs.Prelude.{◌≡◌, [], map, ◌++◌, ◌+◌, ◌*◌, ◌≤◌, min, length, eqb};
ghost use Rattle.field.specs.Field.{field_of};
ghost use Rattle.line.specs.Refusal.{line_of};
ghost use Rattle.line.specs.Line.{count_of};
ghost use Rattle.table.specs.Table.{read_text};
ghost use Rattle.table.specs.Slices.{fitted};
ghost use Rattle.search_call.specs.Call.{sought};
ghost use Rattle.printing.specs.Program.{margin_in, margin_of, printed, leaf_row, rows_of, output_of};
ghost use Rattle.printing.specs.Inside.{child_marks, Lined, play_marks, Narrow, bound_rows, refusal_rows};

mod page;

use field::Field;
use line::Refusal;
use page::Page;
use search_call::Bounds;
use table::Play;

// ---- the input

// Any other field than a number stands for a margin that is refused.
fn margin_in(f: Field) -> i64
    ensures { result ≡ margin_in f }
{
    match f {
        Field::Number(z) => z,
        Field::Blank | Field::Ill => -1,
    }
}

fn margin_of(input: &[u8]) -> i64
    ensures { result ≡ margin_of input.now }
{
    if input.len() < 15 || input[14] != b'\n' {
        return -1;
    }
    margin_in(field::read(input, 0, 14))
}

// ---- the number of the play

// Whether a node's line is that of a root child.
fn is_root_child(line: &[u8]) -> bool
    requires { 11 ≤ length line.now }
    ensures { result ≡ eqb (count_of (field_of line.now 6 5)) 0 }
{
    field::read(line, 6, 5).count() == 0
}

// How many root children there are up to a node.
fn child_marks(lines: &[u8], node: usize) -> usize
    requires { (25 * node + 25 ≤ length lines.now) × (node ≤ 1024) }
    ensures { result ≡ child_marks lines.now node }
{
    lines[25..25 * node + 25]
        .chunks_exact(25)
        .filter(|line| is_root_child(line))
        .count()
}

fn play_marks(table: &[u8], play: Play) -> usize
    requires { Lined (length table.now) play }
    ensures { result ≡ play_marks table.now play }
{
    match play {
        Play::NoPlay => 0,
        Play::Child(node) => child_marks(&table[25..], node),
    }
}

// ---- the output

fn put_bounds(page: &mut Page, b: Bounds, play: usize)
    requires { (page.old ≡ []) × Narrow b play }
    ensures { page.new ≡ printed (bound_rows b play) }
{
    page.put(b"low   ", b.low);
    page.put(b"high  ", b.high);
    page.put_count(b"grain ", b.grain);
    page.put_count(b"play  ", play as u64);
    page.put_count(b"leaves", b.leaves as u64);
}

// A line for each leaf read.
fn put_leaves(page: &mut Page, leaves: &[u16])
    requires { length page.old + 22 * length leaves.now ≤ 22638 }
    ensures { page.new ≡ page.old ++ printed (map leaf_row leaves.now) }
{
    for node in leaves {
        page.put_count(b"leaf  ", u64::from(*node));
    }
}

#[tactic(auto, using(crate::proofs::Rows::appends), unfolding(crate::specs::Program::printed))]
fn put_refusal(page: &mut Page, r: Refusal)
    requires { (page.old ≡ []) × (line_of r ≤ 1024) }
    ensures { page.new ≡ printed (refusal_rows r) }
{
    page.put_count(b"refuse", r.number());
    page.put_count(b"line  ", r.line() as u64);
}

// The search of a table at a margin, printed. The page is lent: a function that hands out one of its own clears and copies it once more (docs/SPEED.md).
fn print_search(page: &mut Page, table: &[u8], margin: i64)
    requires { page.old ≡ [] }
    ensures { page.new ≡ printed (rows_of (sought (read_text table.now) margin 1024)) }
{
    let mut leaves = [0u16; 1024];
    match search_call::search_table(table, margin, &mut leaves) {
        Err(r) => put_refusal(page, r),
        Ok(b) => {
            put_bounds(page, b, play_marks(table, b.play));
            put_leaves(page, &leaves[..b.leaves]);
        }
    }
}

// What the program prints for an input: as many bytes as `output` has room for, and their number. The rest of `output` is kept.
pub fn answer(input: &[u8], output: &mut [u8]) -> usize
    ensures bytes { result ≡ min (length (output_of input.now)) (length output.old) }
    ensures output { output.new ≡ fitted (output_of input.now) output.old }
{
    let table = &input[input.len().min(15)..];
    let mut page = Page::new();
    print_search(&mut page, table, margin_of(input));
    let text = page.bytes();
    let n = text.len().min(output.len());
    output[..n].copy_from_slice(&text[..n]);
    n
}
