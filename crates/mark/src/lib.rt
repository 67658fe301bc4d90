// The marks that a report lists with its losses: document 02, Item 11. A loss is in thousandths of a point.
#![tactic(auto)]

ghost use Rattle.std.specs.Prelude.{◌≡◌};
ghost use Rattle.mark.specs.Marks.{printed_mark, new_mark, mark_by, mark_code, choice_of};

use line::Refusal;

// From the mildest on, numbered as they are listed.
#[derive(Clone, Copy)]
pub enum Mark {
    NoMark = 1,
    Doubtful,
    Error,
    Blunder,
}

// The scale of books in print, whose number is 1, and that of new books, 2.
#[derive(Clone, Copy)]
pub enum Marking {
    Printed,
    New,
}

// The scale of this number, if there is one.
impl TryFrom<i64> for Marking {
    type Error = Refusal;

    ghost try_from_gives = { λ number scale. scale ≡ choice_of number };

    fn try_from(number: i64) -> Result<Marking, Refusal> {
        match number {
            1 => Ok(Marking::Printed),
            2 => Ok(Marking::New),
            _ => Err(Refusal::BadScale),
        }
    }
}

// "Books up to this year".
fn printed_mark(loss: u64) -> Mark
    ensures { result ≡ printed_mark loss }
{
    match loss {
        0..=39 => Mark::NoMark,
        40..=79 => Mark::Doubtful,
        80..=159 => Mark::Error,
        _ => Mark::Blunder,
    }
}

// "New books".
fn new_mark(loss: u64) -> Mark
    ensures { result ≡ new_mark loss }
{
    match loss {
        0..=19 => Mark::NoMark,
        20..=49 => Mark::Doubtful,
        50..=99 => Mark::Error,
        _ => Mark::Blunder,
    }
}

impl Marking {
    fn mark(self, loss: u64) -> Mark
        ensures { result ≡ mark_by self loss }
    {
        match self {
            Marking::Printed => printed_mark(loss),
            Marking::New => new_mark(loss),
        }
    }

    // A mark as it is listed.
    pub fn mark_code(self, loss: Option<u64>) -> u8
        ensures { result ≡ mark_code self loss }
    {
        match loss {
            None => 0,
            Some(n) => self.mark(n) as u8,
        }
    }
}
