// A table's text, written into a lent buffer: blanks before each number.
#![tactic(auto)]

ghost use Rattle.std.specs.Prelude.{◌≡◌, cond, ◌+◌, ◌≤◌, length, replicate};
ghost use Rattle.std.proofs.lemmas.List.Edits.{sets};
ghost use Rattle.line.specs.Inside.{Ranged};
ghost use Rattle.line.specs.declared.Line.{Line};
ghost use Rattle.writing.specs.Text.{totals_text, header_text, line_text};
ghost use Rattle.writing.specs.Inside.{shown, Fits, entry_text, Roomy, entry_for, Short, line_coded};

use field::Field;
use line::{Entry, Head, Kind, Line};

// Blanks in the `width` columns from the byte `at` on.
fn clear(buffer: &mut [u8], at: usize, width: usize)
    requires { at + width ≤ length buffer.old }
    ensures { buffer.new ≡ sets buffer.old at (replicate width 32) }
{
    for i in 0..width {
        buffer[at + i] = b' ';
    }
}

// The field f in the `width` columns from the byte `at` on.
fn put(buffer: &mut [u8], at: usize, width: usize, f: Field)
    requires { (at + width ≤ length buffer.old) × Fits width f }
    ensures { buffer.new ≡ sets buffer.old at (shown width f) }
{
    match f {
        Field::Blank => clear(buffer, at, width),
        Field::Ill => {}
        Field::Number(z) => field::write(buffer, at, width, z),
    }
}

// T in columns 5-8, or after a second total in 7-8.
fn put_totals(buffer: &mut [u8], h: Head)
    requires { (25 ≤ length buffer.old) × Ranged h }
    ensures { buffer.new ≡ sets buffer.old 4 (totals_text h) }
{
    if h.second == 0 {
        put(buffer, 4, 4, Field::Number(h.total as i64));
        return;
    }
    put(buffer, 4, 2, Field::Number(h.second as i64));
    put(buffer, 6, 2, Field::Number(h.total as i64));
}

// The header of a table of n nodes.
pub fn put_header(buffer: &mut [u8], h: Head, n: usize)
    requires { (25 ≤ length buffer.old) × (n ≤ 1024) × Ranged h }
    ensures { buffer.new ≡ sets buffer.old 0 (header_text h n) }
{
    put(buffer, 0, 4, Field::Number(n as i64));
    put_totals(buffer, h);
    put(buffer, 8, 8, Field::Number(h.lowest));
    put(buffer, 16, 8, Field::Number(h.highest));
    buffer[24] = b'\n';
}

// A node line, from the byte `at` on.
pub fn put_entry(buffer: &mut [u8], at: usize, e: Entry)
    requires { (at + 25 ≤ length buffer.old) × Roomy e }
    ensures { buffer.new ≡ sets buffer.old at (entry_text e) }
{
    let last = at + 24;
    let number = e.number;
    let parent = e.parent;
    let weight = e.weight;
    let utility = e.utility;
    put(buffer, at, 4, number);
    buffer[at + 4] = b' ';
    buffer[at + 5] = e.letter;
    put(buffer, at + 6, 5, parent);
    put(buffer, at + 11, 5, weight);
    put(buffer, at + 16, 8, utility);
    buffer[last] = b'\n';
}

// A number's field, or a blank one.
fn field_for(empty: bool, z: i64) -> Field
    ensures { result ≡ cond empty Field.Blank (Field.Number z) }
{
    if empty {
        return Field::Blank;
    }
    Field::Number(z)
}

// The fields of a node line.
fn entry_for(l: Line) -> Entry
    requires { Short l }
    ensures { result ≡ entry_for l }
{
    let parent = field_for(l.node == 0, l.parent as i64);
    let weight = field_for(l.weight == 0, l.weight as i64);
    let utility = field_for(l.kind != Kind::Leaf, l.utility);
    Entry {
        number: Field::Number(l.node as i64),
        letter: l.kind.letter(),
        parent,
        weight,
        utility,
    }
}

// A node line whose kind is the number that stands for it: 0 for L, 1 for M, 2 for N, and any other for C.
#[derive(Clone, Copy)]
pub struct CodedLine {
    pub node: usize,
    pub kind: u8,
    pub parent: u64,
    pub weight: u64,
    pub utility: i64,
    pub chances: u64,
}

impl From<CodedLine> for Line {
    ghost from_gives = { λ l said. said ≡ line_coded l };

    fn from(l: CodedLine) -> Line {
        Line {
            node: l.node,
            kind: match l.kind {
                0 => Kind::Leaf,
                1 => Kind::Max,
                2 => Kind::Min,
                _ => Kind::Chance,
            },
            parent: l.parent,
            weight: l.weight,
            utility: l.utility,
            chances: l.chances,
        }
    }
}

// A node line by what it says, from the byte `at` on.
pub fn put_line<L: Into<Line>>(buffer: &mut [u8], at: usize, l: L)
    requires { (at + 25 ≤ length buffer.old) × ((said : Line) → L.converts l said → Short said) }
    ensures { (said : Line) × L.converts l said × (buffer.new ≡ sets buffer.old at (line_text said)) }
{
    put_entry(buffer, at, entry_for(l.into()));
}
