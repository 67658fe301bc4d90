// The turned text: the same position from the other side, written into a lent buffer. Every field is written afresh, blanks before its number, whatever
// its padding was.
#![tactic(auto)]

ghost use Rattle.std.specs.Prelude.{◌≡◌, ◌++◌, ◌+◌, ◌*◌, ◌≤◌, length, drop};
ghost use Rattle.std.proofs.lemmas.List.Edits.{sets};
ghost use Rattle.line.specs.Line.{entry_of};
ghost use Rattle.line.specs.Inside.{Ranged};
ghost use Rattle.writing.specs.Text.{header_text};
ghost use Rattle.writing.specs.Inside.{Fits, entry_text, Roomy};
ghost use Rattle.turn.specs.Turn.{turn_head};
ghost use Rattle.turn.specs.Inside.{turn_letter, negated as negated_field, turn_entry, turned_rows, RowsRoomy};

use field::Field;
use line::{Entry, Head};

// The turned header.
fn turned_head(h: Head) -> Head
    requires { Ranged h }
    ensures { result ≡ turn_head h }
{
    Head {
        total: h.total,
        second: h.second,
        lowest: -h.highest,
        highest: -h.lowest,
    }
}

fn turned_letter(b: u8) -> u8
    ensures { result ≡ turn_letter b }
{
    match b {
        b'M' => b'N',
        b'N' => b'M',
        _ => b,
    }
}

fn negated(f: Field) -> Field
    requires { Fits 8 (negated_field f) }
    ensures { result ≡ negated_field f }
{
    match f {
        Field::Blank => Field::Blank,
        Field::Ill => Field::Ill,
        Field::Number(z) => Field::Number(-z),
    }
}

// A node line, turned, from the byte `at` on.
fn turn_line(line: &[u8], buffer: &mut [u8], at: usize)
    requires { (length line.now ≡ 25) × (at + 25 ≤ length buffer.old) × Roomy (turn_entry (entry_of line.now)) }
    ensures { buffer.new ≡ sets buffer.old at (entry_text (turn_entry (entry_of line.now))) }
{
    let e = Entry {
        number: field::read(line, 0, 4),
        letter: turned_letter(line[5]),
        parent: field::read(line, 6, 5),
        weight: field::read(line, 11, 5),
        utility: negated(field::read(line, 16, 8)),
    };
    writing::put_entry(buffer, at, e);
}

// The n node lines, each where it stands in the text.
fn turn_lines(text: &[u8], n: usize, buffer: &mut [u8])
    requires { (25 * n + 25 ≤ length text.now) × (25 * n + 25 ≤ length buffer.old) × (n ≤ 1024) × RowsRoomy n (drop 25 text.now) }
    ensures { buffer.new ≡ sets buffer.old 25 (turned_rows n (drop 25 text.now)) }
{
    for i in 0..n {
        let at = 25 * i + 25;
        turn_line(&text[at..at + 25], buffer, at);
    }
}

// Writes an accepted table's turned text to the front of the buffer: h is its header, and n the number of its nodes.
pub fn turn(text: &[u8], h: Head, n: usize, buffer: &mut [u8])
    requires { (25 * n + 25 ≤ length text.now) × (25 * n + 25 ≤ length buffer.old) × (n ≤ 1024) × Ranged h × RowsRoomy n (drop 25 text.now) }
    ensures { buffer.new ≡ sets buffer.old 0 (header_text (turn_head h) n ++ turned_rows n (drop 25 text.now)) }
{
    writing::put_header(buffer, turned_head(h), n);
    turn_lines(text, n, buffer);
}
