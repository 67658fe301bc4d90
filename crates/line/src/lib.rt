// One line of a table: what it says, and the documents' refusals.
#![tactic(auto)]

ghost use Rattle.std.specs.Prelude.{◌≡◌};
ghost use Rattle.line.specs.Refusal.{number_of, line_of};
ghost use Rattle.line.specs.Line.{larger, kind_from, letter, code, step_of};
ghost use Rattle.line.specs.Inside.{other};

use field::Field;

// Why a table, a call on an accepted one, a match file, a recipe or a report's scale is refused. A case that has a line names it: the header is line 0, and
// node i is line i + 1.
#[derive(Clone, Copy)]
pub enum Refusal {
    Length,
    IllWritten(usize),
    OutOfRange(usize),
    Misnumbered(usize),
    UnknownKind(usize),
    WrongParent(usize),
    Misfilled(usize),
    Childless(usize),
    WrongSum(usize),
    TooDeep(usize),
    NoRoom,
    BadMargin,
    HasChance,
    NoChild,
    TooMany,
    NoPosition,
    BadBudget,
    TooManyGrains,
    BadRecipe,
    BadScale,
    BadIndex,
}

// The header's fields, and what they say. A second total of 0 stands for none.
#[derive(Clone, Copy)]
pub struct Heading {
    pub count: Field,
    pub second: Field,
    pub total: Field,
    pub lowest: Field,
    pub highest: Field,
}

#[derive(Clone, Copy)]
pub struct Head {
    pub total: u64,
    pub second: u64,
    pub lowest: i64,
    pub highest: i64,
}

// A node line's fields, and what they say.
#[derive(Clone, Copy)]
pub struct Entry {
    pub number: Field,
    pub letter: u8,
    pub parent: Field,
    pub weight: Field,
    pub utility: Field,
}

// Who moves at a node, or L for a leaf.
#[derive(Clone, Copy, PartialEq, Eq)]
pub enum Kind {
    Leaf,
    Max,
    Min,
    Chance,
}

// `chances` counts the C on the path down to the node.
#[derive(Clone, Copy)]
pub struct Line {
    pub node: usize,
    pub kind: Kind,
    pub parent: u64,
    pub weight: u64,
    pub utility: i64,
    pub chances: u64,
}

// A node on the path from the root: its number, its kind, and how many C the path has down to it.
#[derive(Clone, Copy)]
pub struct Step {
    pub node: u64,
    pub kind: Kind,
    pub chances: u64,
}

impl Refusal {
    // The documents' number of a refusal.
    pub fn number(self) -> u64
        ensures { result ≡ number_of self }
    {
        match self {
            Refusal::Length => 1,
            Refusal::IllWritten(_) => 2,
            Refusal::OutOfRange(_) => 3,
            Refusal::Misnumbered(_) => 4,
            Refusal::UnknownKind(_) => 5,
            Refusal::WrongParent(_) => 6,
            Refusal::Misfilled(_) => 7,
            Refusal::Childless(_) => 8,
            Refusal::WrongSum(_) => 9,
            Refusal::TooDeep(_) => 10,
            Refusal::NoRoom => 11,
            Refusal::BadMargin => 12,
            Refusal::HasChance => 13,
            Refusal::NoChild => 14,
            Refusal::TooMany => 15,
            Refusal::NoPosition => 16,
            Refusal::BadBudget => 17,
            Refusal::TooManyGrains => 18,
            Refusal::BadRecipe => 19,
            Refusal::BadScale => 20,
            Refusal::BadIndex => 22,
        }
    }

    // The documents' line of a refusal.
    pub fn line(self) -> usize
        ensures { result ≡ line_of self }
    {
        match self {
            Refusal::IllWritten(n)
            | Refusal::OutOfRange(n)
            | Refusal::Misnumbered(n)
            | Refusal::UnknownKind(n)
            | Refusal::WrongParent(n)
            | Refusal::Misfilled(n)
            | Refusal::Childless(n)
            | Refusal::WrongSum(n)
            | Refusal::TooDeep(n) => n,
            _ => 0,
        }
    }
}

impl Head {
    // The greatest weight that there may be.
    pub fn larger_total(self) -> u64
        ensures { result ≡ larger self }
    {
        self.total.max(self.second)
    }

    // The second total, or the first again where there is none.
    pub fn other_total(self) -> u64
        ensures { result ≡ other self }
    {
        if self.second == 0 {
            return self.total;
        }
        self.second
    }
}

impl Kind {
    // None for a byte that is no kind's letter: refusal 5.
    pub fn from_letter(letter: u8) -> Option<Kind>
        ensures { result ≡ kind_from letter }
    {
        match letter {
            b'L' => Some(Kind::Leaf),
            b'M' => Some(Kind::Max),
            b'N' => Some(Kind::Min),
            b'C' => Some(Kind::Chance),
            _ => None,
        }
    }

    pub fn letter(self) -> u8
        ensures { result ≡ letter self }
    {
        match self {
            Kind::Leaf => b'L',
            Kind::Max => b'M',
            Kind::Min => b'N',
            Kind::Chance => b'C',
        }
    }

    // The number that C callers get.
    pub fn code(self) -> u8
        ensures { result ≡ code self }
    {
        match self {
            Kind::Leaf => 0,
            Kind::Max => 1,
            Kind::Min => 2,
            Kind::Chance => 3,
        }
    }
}

impl Line {
    // The line as the last step of its path.
    pub fn step(self) -> Step
        ensures { result ≡ step_of self }
    {
        Step {
            node: self.node as u64,
            kind: self.kind,
            chances: self.chances,
        }
    }
}
