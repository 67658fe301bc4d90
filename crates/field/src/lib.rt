// A number in columns of a text: read from a part of it, and written right-justified into it.
// What a well-written number is stands in specs/Field.antt alone.
#![tactic(auto)]

ghost use Rattle.std.specs.Prelude.{◌≡◌, Some, cond, false, ◌+◌, ◌-◌, ◌≤◌, ◌<◌, ◌^◌, ◌==◌, length, drop, slice_index, nat_abs};
ghost use Rattle.std.specs.Char.{is_ascii_digit};
ghost use Rattle.std.specs.List.{list_all};
ghost use Rattle.field.specs.Field.{strip, digits, signed, field_of, digit, text_of, written};
ghost use Rattle.field.specs.Value.{is_blank, is_ill, has_number, outside, value_of, count_of};
ghost use Rattle.field.specs.Inside.{off, with_sign};
ghost use Rattle.field.specs.declared.Field.TheVariants.{Ill, Number};

// What a field holds.
#[derive(Clone, Copy)]
pub enum Field {
    Blank,
    Ill,
    Number(i64),
}

impl Field {
    pub fn is_blank(self) -> bool
        ensures { result ≡ is_blank self }
    {
        matches!(self, Field::Blank)
    }

    pub fn is_ill(self) -> bool
        ensures { result ≡ is_ill self }
    {
        matches!(self, Field::Ill)
    }

    // Whether it holds the number n.
    pub fn is_number(self, n: u64) -> bool
        ensures { result ≡ has_number n self }
    {
        matches!(self, Field::Number(z) if u64::try_from(z) == Ok(n))
    }

    // Whether it holds a number below lo or above hi.
    pub fn is_outside(self, lo: i64, hi: i64) -> bool
        ensures { result ≡ outside lo hi self }
    {
        matches!(self, Field::Number(z) if !(lo..=hi).contains(&z))
    }

    // The number in the field, or 0 where there is none.
    pub fn value(self) -> i64
        ensures { result ≡ value_of self }
    {
        match self {
            Field::Number(z) => z,
            _ => 0,
        }
    }

    // The same, or 0 where it is below zero.
    pub fn count(self) -> u64
        ensures { result ≡ count_of self }
    {
        self.value().max(0).unsigned_abs()
    }
}

fn are_blank(t: &[u8]) -> bool
    ensures { result ≡ list_all (λ b. b == 32) t.now }
{
    t.iter().all(|b| *b == b' ')
}

// Where the digits at the end begin, and the number that they mean, which 64 bits hold. Seen from the right, the sign does not move the digits, so that the
// machine guesses its branches better.
fn last_number(t: &[u8]) -> (usize, u64)
    requires { length t.now ≤ 18 }
    ensures within { result.0 ≤ length t.now }
    ensures stops { 0 < result.0 → is_ascii_digit (slice_index t.now (result.0 - 1)) ≡ false }
    ensures number { digits 0 (drop result.0 t.now) ≡ Some result.1 }
{
    let mut n: u64 = 0;
    let mut unit: u64 = 1;
    for i in (0..t.len()).rev() {
        let b = t[i];
        if !b.is_ascii_digit() {
            return (i + 1, n);
        }
        n += unit * u64::from(b - b'0');
        unit *= 10;
    }
    (0, n)
}

// Whether n with c before its digits is no number.
fn is_off(c: u8, n: u64) -> bool
    ensures { result ≡ off c n }
{
    ((c != b' ') & (c != b'-')) | ((c == b'-') & (n == 0))
}

// What n means with c before its digits; no branch on the sign.
fn number_after(c: u8, n: u64) -> Field
    requires { n < 10 ^ 18 }
    ensures { result ≡ cond (off c n) Ill (Number (with_sign (c == 45) n)) }
{
    if is_off(c, n) {
        Field::Ill
    } else {
        Field::Number(with_sign(c == b'-', n))
    }
}

// All columns of a field. Small enough that the compiler puts a copy at each place where a field is read.
fn read_columns(t: &[u8]) -> Field
    requires { length t.now ≤ 18 }
    ensures { result ≡ signed (strip t.now) }
{
    let (start, n) = last_number(t);
    let front = &t[..start];
    if start == t.len() {
        return if are_blank(front) {
            Field::Blank
        } else {
            Field::Ill
        };
    }
    match front.split_last() {
        None => number_after(b' ', n),
        Some((sign, clear)) if are_blank(clear) => number_after(*sign, n),
        Some(_) => Field::Ill,
    }
}

// The field of `width` columns from the byte `from` on.
pub fn read(s: &[u8], from: usize, width: usize) -> Field
    requires { (from + width ≤ length s.now) × (width ≤ 18) }
    ensures { result ≡ field_of s.now from width }
{
    read_columns(&s[from..from + width])
}

fn with_sign(negative: bool, n: u64) -> i64
    requires { n < 10 ^ 18 }
    ensures { result ≡ with_sign negative n }
{
    let n = n as i64;
    if negative { -n } else { n }
}

// The last digit of n.
fn last_digit(n: u64) -> u8
    ensures { result ≡ digit n }
{
    b'0' + (n % 10) as u8
}

// The column before the digits written so far, where n is what is left of the number: its last digit;
// where none is left the minus, if it is still to come, and then a blank.
fn column_mark(negative: bool, n: u64) -> u8
    ensures { result ≡ cond (n == 0) (cond negative 45 32) (digit n) }
{
    match (n, negative) {
        (0, true) => b'-',
        (0, false) => b' ',
        _ => last_digit(n),
    }
}

// Writes z, of at most 15 digits, in the `width` columns from the byte `at` on: the last column first.
pub fn write(dst: &mut [u8], at: usize, width: usize, z: i64)
    requires { (at + width ≤ length dst.old) × (length (text_of z) ≤ width) × (nat_abs z < 10 ^ 15) }
    ensures { dst.new ≡ written dst.old at width z }
{
    let mut n = z.unsigned_abs();
    let mut negative = z < 0;
    let last = at + width - 1;
    dst[last] = last_digit(n);
    for i in (at..last).rev() {
        n /= 10;
        dst[i] = column_mark(negative, n);
        negative &= n != 0;
    }
}
