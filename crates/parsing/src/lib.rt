// One line of a table, read: the header and a node line, with the documents' refusals of them.
#![tactic(auto)]

ghost use Rattle.std.specs.Prelude.{◌≡◌, not, cond, List, [], ◌∷◌, ◌<◌, ◌≤◌, length, reverse, take};
ghost use Rattle.std.specs.List.{All};
ghost use Rattle.line.specs.Line.{second_of, total_of, heading_of, ill_heading, bad_second, wide_heading, larger, entry_of, climb, ancestors, chances_of, at_chance, line_said, place_of, ill_entry, misfilled, wide_entry, node_line, header as header_of};
ghost use Rattle.line.specs.declared.Step.{Step};
ghost use Rattle.parsing.specs.Inside.{head_shown, lowest, above_shown, placing_shown, placing_of, Upto, Roomy, Rare, step_coded};

use field::Field;
use line::{Entry, Head, Heading, Kind, Line, Refusal, Step};
use std::marker::Model;

// A node line, and how many steps stand above it.
#[derive(Clone, Copy)]
pub struct PlacedLine {
    pub line: Line,
    pub depth: usize,
}

// Columns 5-6: zeros alone are no second total, as blanks are.
fn second_of(f: Field) -> Field
    ensures { result ≡ second_of f }
{
    if f.is_number(0) {
        return Field::Blank;
    }
    f
}

// The first total has columns 5-8, or 7-8 after a second one.
fn read_total(line: &[u8], second: Field) -> Field
    requires { length line.now ≡ 25 }
    ensures { result ≡ total_of line.now second }
{
    if second.is_blank() {
        return field::read(line, 4, 4);
    }
    field::read(line, 6, 2)
}

fn read_heading(line: &[u8]) -> Heading
    requires { length line.now ≡ 25 }
    ensures { result ≡ heading_of line.now }
{
    let second = second_of(field::read(line, 4, 2));
    Heading {
        count: field::read(line, 0, 4),
        second,
        total: read_total(line, second),
        lowest: field::read(line, 8, 8),
        highest: field::read(line, 16, 8),
    }
}

fn is_ill_heading(last: u8, g: Heading) -> bool
    ensures { result ≡ ill_heading last g }
{
    last != b'\n'
        || g.count.is_ill()
        || g.second.is_ill()
        || g.total.is_ill()
        || g.lowest.is_ill()
        || g.highest.is_ill()
        || g.count.is_blank()
        || g.total.is_blank()
        || g.lowest.is_blank()
        || g.highest.is_blank()
}

// A second total that is out of range, or the first again.
fn is_bad_second(g: Heading) -> bool
    ensures { result ≡ bad_second g }
{
    g.second.is_outside(1, 64) || g.second.is_number(g.total.count())
}

fn is_wide_heading(g: Heading) -> bool
    ensures { result ≡ wide_heading g }
{
    is_bad_second(g)
        || g.total.is_outside(1, 64)
        || g.lowest.is_outside(-1000000, 1000000)
        || g.highest.is_outside(-1000000, 1000000)
        || g.highest.value() < g.lowest.value()
}

fn read_entry(line: &[u8]) -> Entry
    requires { length line.now ≡ 25 }
    ensures { result ≡ entry_of line.now }
{
    Entry {
        number: field::read(line, 0, 4),
        letter: line[5],
        parent: field::read(line, 6, 5),
        weight: field::read(line, 11, 5),
        utility: field::read(line, 16, 8),
    }
}

fn is_ill_entry(fifth: u8, last: u8, e: Entry) -> bool
    ensures { result ≡ ill_entry fifth last e }
{
    last != b'\n'
        || e.number.is_ill()
        || e.parent.is_ill()
        || e.weight.is_ill()
        || e.utility.is_ill()
        || fifth != b' '
        || e.number.is_blank()
        || e.letter == b' '
}

// A field that is blank where a number is wanted, or filled where none is.
fn is_misplaced(wanted: bool, blank: bool) -> bool
    ensures { result ≡ cond wanted blank (not blank) }
{
    if wanted { blank } else { !blank }
}

fn is_misfilled(chance: bool, leaf: bool, e: Entry) -> bool
    ensures { result ≡ misfilled chance leaf e }
{
    is_misplaced(chance, e.weight.is_blank()) || is_misplaced(leaf, e.utility.is_blank())
}

fn is_wide_entry(h: Head, e: Entry) -> bool
    requires { larger h ≤ 64 }
    ensures { result ≡ wide_entry h e }
{
    e.weight.is_outside(1, h.larger_total() as i64) || e.utility.is_outside(h.lowest, h.highest)
}

// A step whose kind is the number that stands for it: 0 for L, 1 for M, 3 for C, and any other for N. No rule about a path tells M from N.
#[derive(Clone, Copy)]
pub struct CodedStep {
    pub node: u64,
    pub kind: u8,
    pub chances: u64,
}

impl From<CodedStep> for Step {
    ghost from_gives = { λ s step. step ≡ step_coded s };

    fn from(s: CodedStep) -> Step {
        Step {
            node: s.node,
            kind: match s.kind {
                0 => Kind::Leaf,
                1 => Kind::Max,
                3 => Kind::Chance,
                _ => Kind::Min,
            },
            chances: s.chances,
        }
    }
}

// The path from the root down to a node line, the root's step first. A contract sees the steps from the node up to the root.
#[derive(Drop)]
pub struct Path {
    steps: [Step; 64],
    depth: usize,
}

impl Model for Path {
    ghost Value = { List Step };

    ghost view = { λ p. reverse (take p.depth p.steps) };

    ghost invariant = { λ p. (p.depth ≤ length p.steps) × (length p.steps ≡ 64) × All Rare p.steps };
}

impl Path {
    pub fn new() -> Path
        ensures { result ≡ [] }
    {
        let none = Step {
            node: 0,
            kind: Kind::Leaf,
            chances: 0,
        };
        Path {
            steps: [none; 64],
            depth: 0,
        }
    }

    // A step below the first d, in place of those that stood there.
    pub fn push<S: Into<Step>>(&mut self, d: usize, step: S)
        requires { (d ≤ length self.old) × (d < 64) × ((s : Step) → S.converts step s → Rare s) }
        ensures { (s : Step) × S.converts step s × (self.new ≡ s ∷ lowest d self.old) }
    {
        self.steps[d] = step.into();
        self.depth = d + 1;
    }

    // Looks for the parent from the last step upward: a step that is passed is on no later path.
    fn climb(&self, parent: u64) -> Option<usize>
        ensures shown { above_shown self.now result ≡ climb parent self.now }
        ensures upto { Upto (length self.now) result }
    {
        for d in (0..self.depth).rev() {
            let step = self.steps[d];
            if step.node == parent {
                if step.kind == Kind::Leaf {
                    return None;
                }
                return Some(d + 1);
            }
        }
        None
    }

    fn above(&self, parent: Field) -> Option<usize>
        ensures shown { above_shown self.now result ≡ ancestors parent self.now }
        ensures upto { Upto (length self.now) result }
    {
        match parent {
            Field::Blank if self.depth == 0 => Some(0),
            Field::Number(z) if 0 <= z => self.climb(z.unsigned_abs()),
            _ => None,
        }
    }

    // How many C stand on the first d steps.
    fn chances_on(&self, d: usize) -> u64
        requires { d ≤ length self.now }
        ensures count { result ≡ chances_of (lowest d self.now) }
        ensures few { result ≤ 4 }
    {
        self.steps[..d].last().map_or(0, |step| step.chances)
    }

    // Whether the last of the first d steps is a C.
    fn ends_at_chance(&self, d: usize) -> bool
        requires { d ≤ length self.now }
        ensures { result ≡ at_chance (lowest d self.now) }
    {
        self.steps[..d]
            .last()
            .is_some_and(|step| step.kind == Kind::Chance)
    }
}

// What a node line says, where the C on its path are known.
fn line_of(i: usize, kind: Kind, chances: u64, e: Entry) -> Line
    ensures { result ≡ line_said i kind chances e }
{
    Line {
        node: i,
        kind,
        parent: e.parent.count(),
        weight: e.weight.count(),
        utility: e.utility.value(),
        chances,
    }
}

// A node line below d steps of the path: 10, 7, 3.
#[tactic(auto, unfolding(line::specs::Refusal::unless))]
fn place_below(
    e: Entry,
    i: usize,
    h: Head,
    kind: Kind,
    path: &Path,
    d: usize,
) -> Result<PlacedLine, Refusal>
    requires { (d ≤ length path.now) × (i < 1024) × (larger h ≤ 64) }
    ensures shown { placing_shown path.now result ≡ placing_of h i kind e (lowest d path.now) }
    ensures roomy { Roomy (length path.now) result }
{
    let c = path.chances_on(d) + u64::from(kind == Kind::Chance);
    if 64 <= d || 4 < c {
        return Err(Refusal::TooDeep(i + 1));
    }
    if is_misfilled(path.ends_at_chance(d), kind == Kind::Leaf, e) {
        return Err(Refusal::Misfilled(i + 1));
    }
    if is_wide_entry(h, e) {
        return Err(Refusal::OutOfRange(i + 1));
    }
    Ok(PlacedLine {
        line: line_of(i, kind, c, e),
        depth: d,
    })
}

// A node line with its fields read, below the path of the line before it: 2, 4, 5, 6, 10, 7, 3.
#[tactic(auto, unfolding(line::specs::Refusal::unless))]
fn place(
    e: Entry,
    fifth: u8,
    last: u8,
    i: usize,
    h: Head,
    path: &Path,
) -> Result<PlacedLine, Refusal>
    requires { (i < 1024) × (larger h ≤ 64) }
    ensures shown { placing_shown path.now result ≡ place_of h i e fifth last path.now }
    ensures roomy { Roomy (length path.now) result }
{
    if is_ill_entry(fifth, last, e) {
        return Err(Refusal::IllWritten(i + 1));
    }
    if !e.number.is_number(i as u64) {
        return Err(Refusal::Misnumbered(i + 1));
    }
    match Kind::from_letter(e.letter) {
        None => Err(Refusal::UnknownKind(i + 1)),
        Some(kind) => match path.above(e.parent) {
            None => Err(Refusal::WrongParent(i + 1)),
            Some(d) => place_below(e, i, h, kind, path, d),
        },
    }
}

pub fn node_line(line: &[u8], i: usize, h: Head, path: &Path) -> Result<PlacedLine, Refusal>
    requires { (length line.now ≡ 25) × (i < 1024) × (larger h ≤ 64) }
    ensures shown { placing_shown path.now result ≡ node_line h i path.now line.now }
    ensures roomy { Roomy (length path.now) result }
{
    place(read_entry(line), line[4], line[24], i, h, path)
}

// The header of a table of n node lines: 2, 3, 4.
#[tactic(auto, unfolding(line::specs::Refusal::unless))]
pub fn header(line: &[u8], n: usize) -> Result<Head, Refusal>
    requires { length line.now ≡ 25 }
    ensures { head_shown result ≡ header_of n line.now }
{
    let g = read_heading(line);
    if is_ill_heading(line[24], g) {
        return Err(Refusal::IllWritten(0));
    }
    if is_wide_heading(g) {
        return Err(Refusal::OutOfRange(0));
    }
    if !g.count.is_number(n as u64) {
        return Err(Refusal::Misnumbered(0));
    }
    Ok(Head {
        total: g.total.count(),
        second: g.second.count(),
        lowest: g.lowest.value(),
        highest: g.highest.value(),
    })
}
