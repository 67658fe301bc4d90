// Judging the play made: the loss of a root child, and how many root children are level with the best.
#![tactic(auto)]

ghost use Rattle.std.specs.Prelude.{◌≡◌, ◌-◌, ◌<◌, ◌≤◌, length, get_or};
ghost use Rattle.line.specs.Line.{to_nat, letter_code};
ghost use Rattle.table.specs.Table.{read_text};
ghost use Rattle.table.specs.Nodes.{stops_in};
ghost use Rattle.worth.specs.Inside.{beside_in};
ghost use Rattle.judge.specs.Call.{judge_call};
ghost use Rattle.judge.specs.Inside.Heights.{height_loss, Ahead};
ghost use Rattle.judge.specs.Inside.{side_of, chooser, Chain, Played, Under, Listed, better, best_in, AllAhead, levels_in, WholeLines, WellJudged, Decided, WellDecided};

use line::{Kind, Refusal};
use scale::Scale;
use table::{Node, Play};

// The loss in grains and the number of level children; a root without a decision has none.
#[derive(Clone, Copy)]
pub struct Decision {
    pub loss: u64,
    pub level: u64,
}

// Who chooses at a root.
#[derive(Clone, Copy)]
enum Side {
    Max,
    Min,
}

// The node lines of a table, how many they are, what was decoded of them, and the scale of its worths.
#[derive(Clone, Copy)]
pub struct Lines<'a> {
    pub text: &'a [u8],
    pub n: usize,
    pub nodes: &'a [Node],
    pub scale: Scale,
}

impl Side {
    // None at a C or L root, and for a byte that is no kind's letter.
    fn at_root(letter: u8) -> Option<Side>
        ensures { result ≡ chooser (letter_code letter) }
    {
        match Kind::from_letter(letter)? {
            Kind::Max => Some(Side::Max),
            Kind::Min => Some(Side::Min),
            Kind::Leaf | Kind::Chance => None,
        }
    }

    fn better(self, a: u64, h: u64) -> u64
        ensures { result ≡ better (side_of self) a h }
    {
        match self {
            Side::Max => a.max(h),
            Side::Min => a.min(h),
        }
    }

    fn loss(self, best: u64, h: u64) -> u64
        requires { Ahead (side_of self) best h }
        ensures { result ≡ height_loss (side_of self) best h }
    {
        match self {
            Side::Max => best - h,
            Side::Min => h - best,
        }
    }

    // The best of the worths, 0 of none.
    fn best_of(self, worths: &[u64]) -> u64
        ensures { result ≡ best_in (side_of self) worths.now }
    {
        worths
            .iter()
            .copied()
            .reduce(|a, h| self.better(a, h))
            .unwrap_or(0)
    }

    // How many of the worths are level with the best: these lose nothing.
    fn count_levels(self, best: u64, worths: &[u64]) -> u64
        requires { AllAhead (side_of self) best worths.now }
        ensures { result ≡ levels_in (side_of self) best worths.now }
    {
        worths.iter().filter(|h| self.loss(best, **h) == 0).count() as u64
    }
}

// The worth of root child `number`, in the list of all.
fn worth_at(worths: &[u64], number: i64) -> u64
    requires { (0 < to_nat number) × (to_nat number ≤ length worths.now) }
    ensures { result ≡ get_or worths.now (to_nat number - 1) 0 }
{
    worths[number as usize - 1]
}

impl Lines<'_> {
    // The root's child of a number, counted from 1 from child to child: any number is answered. By document 01 the answer is a `Play`, and no Option.
    fn find_child(self, number: i64) -> Play
        requires { Chain (stops_in self.nodes.now) self.n }
        ensures { Played (stops_in self.entry.nodes.now) self.entry.n number result }
    {
        let mut left = number.max(0).unsigned_abs();
        if left == 0 {
            return Play::NoPlay;
        }
        let mut i = 1;
        while i < self.n {
            if left == 1 {
                return Play::Child(i);
            }
            left -= 1;
            i = usize::from(self.nodes[i].stop);
        }
        Play::NoPlay
    }

    // The worth of each of the root's children, first to last, to the list's front; it gives their number. Each child's run is handed on as a
    // part of the lines.
    fn list_worths(self, list: &mut [u64]) -> usize
        requires { Under (beside_in self.nodes.now) self.scale self.n self.text.now (length list.old) }
        ensures { Listed (beside_in self.entry.nodes.now) self.entry.scale self.entry.n self.entry.text.now result list.old list.new }
    {
        let mut m = 0;
        let mut i = 1;
        while i < self.n {
            let e = usize::from(self.nodes[i].stop);
            list[m] = worth::worth_of(&self.text[25 * i..25 * e], self.nodes, i, e, self.scale);
            m += 1;
            i = e;
        }
        m
    }

    // At an M or N root with two children or more. Each child is evaluated once: the one played is taken from the list.
    fn judge_root(self, side: Side, number: i64) -> Result<Option<Decision>, Refusal>
        requires { Decided (beside_in self.nodes.now) self.scale self.n self.text.now (side_of side) }
        ensures { WellDecided (beside_in self.entry.nodes.now) self.entry.scale self.entry.n self.entry.text.now (side_of side) number result }
    {
        let Play::Child(_) = self.find_child(number) else {
            return Err(Refusal::NoChild);
        };
        let mut list = [0; 1024];
        let m = self.list_worths(&mut list);
        let worths = &list[..m];
        let h = worth_at(worths, number);
        let best = side.best_of(worths);
        let level = side.count_levels(best, worths);
        Ok(Some(Decision {
            loss: side.loss(best, h),
            level,
        }))
    }

    // The judgement of root child `number`. Without a second child there is no decision, whatever the root's kind.
    pub fn judge(self, number: i64) -> Result<Option<Decision>, Refusal>
        requires { WholeLines (beside_in self.nodes.now) self.scale self.n self.text.now }
        ensures { WellJudged (beside_in self.entry.nodes.now) self.entry.scale self.entry.n self.entry.text.now number result }
    {
        let Play::Child(_) = self.find_child(2) else {
            return Ok(None);
        };
        match Side::at_root(self.text[5]) {
            Some(side) => self.judge_root(side, number),
            None => Ok(None),
        }
    }
}

// The play of root child `number`, counted from 1, judged: for any text and any number.
pub fn judge_play(text: &[u8], number: i64) -> Result<Option<Decision>, Refusal>
    ensures { result ≡ judge_call (read_text text.now) number }
{
    let mut nodes = [Node::NONE; 1024];
    let t = reading::decode(text, &mut nodes)?;
    let lines = Lines {
        text: &text[25..],
        n: t.nodes,
        nodes: &nodes,
        scale: scale::scale_of(t),
    };
    lines.judge(number)
}
