// What the program prints, line after line: each a word and a number in their columns.
#![tactic(auto)]

ghost use Rattle.std.specs.Prelude.{◌≡◌, ℕ, List, [], ◌++◌, ◌+◌, ◌<◌, ◌≤◌, ◌^◌, length, take, pos, nat_abs};
ghost use Rattle.field.specs.Field.{text_of};
ghost use Rattle.printing.specs.Program.{row_of};

use std::marker::Model;

// The bytes of a line: a word in 6 columns, a number in 15 and a newline.
const LINE: usize = 22;

// Those of the longest answer: five lines, and one for each of 1,024 leaves.
const ROOM: usize = 22638;

// Room for the longest answer, of which `len` bytes are printed so far. A contract sees these.
#[derive(Drop)]
pub struct Page {
    text: [u8; ROOM],
    len: usize,
}

impl Model for Page {
    ghost Value = { List ℕ };

    ghost view = { λ p. take p.len p.text };

    ghost invariant = { λ p. p.len ≤ 22638 };
}

// One line, where its bytes stand.
fn write_row(row: &mut [u8], word: &[u8; 6], z: i64)
    requires { (length row.old ≡ 22) × (nat_abs z < 10 ^ 15) × (length (text_of z) ≤ 15) }
    ensures { row.new ≡ row_of word.now z }
{
    row[..6].copy_from_slice(word);
    field::write(row, 6, 15, z);
    row[LINE - 1] = b'\n';
}

impl Page {
    pub fn new() -> Self
        ensures { result ≡ [] }
    {
        Page {
            text: [0; ROOM],
            len: 0,
        }
    }

    pub fn bytes(&self) -> &[u8]
        ensures { result.now ≡ self.now }
    {
        &self.text[..self.len]
    }

    // One line more.
    pub fn put(&mut self, word: &[u8; 6], z: i64)
        requires { (length self.old + 22 ≤ 22638) × (nat_abs z < 10 ^ 15) × (length (text_of z) ≤ 15) }
        ensures bytes { self.new ≡ self.old ++ row_of word.now z }
        ensures len { length self.new ≡ length self.old + 22 }
    {
        write_row(&mut self.text[self.len..self.len + LINE], word, z);
        self.len += LINE;
    }

    pub fn put_count(&mut self, word: &[u8; 6], n: u64)
        requires { (length self.old + 22 ≤ 22638) × (n < 10 ^ 15) }
        ensures bytes { self.new ≡ self.old ++ row_of word.now (pos n) }
        ensures len { length self.new ≡ length self.old + 22 }
    {
        self.put(word, n as i64);
    }
}
