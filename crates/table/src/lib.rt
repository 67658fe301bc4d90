// The types of what is answered of a table; crate `reading` has the code.
#![tactic(auto)]

ghost use Rattle.std.specs.Prelude.{◌≡◌};
ghost use Rattle.table.specs.Nodes.{head_in};

use line::{Head, Kind};

// An accepted table's numbers. A second total of 0 stands for none.
#[derive(Clone, Copy)]
pub struct Summary {
    pub nodes: usize,
    pub total: u64,
    pub lowest: i64,
    pub highest: i64,
    pub chances: u64,
    pub grain: u64,
    pub leaves: usize,
    pub second: u64,
}

impl Summary {
    // The header of the table.
    pub fn head(self) -> Head
        ensures { result ≡ head_in self }
    {
        Head {
            total: self.total,
            second: self.second,
            lowest: self.lowest,
            highest: self.highest,
        }
    }
}

// A play: a root child, by its node number, or none.
#[derive(Clone, Copy)]
pub enum Play {
    Child(usize),
    NoPlay,
}

// A line as the calls work on it: its kind, one past its run, its weight (0 where there is none), and for a leaf its points above the lowest end (0 for
// the others). In this order it takes 8 bytes.
#[derive(Clone, Copy)]
pub struct Node {
    pub height: u32,
    pub stop: u16,
    pub weight: u8,
    pub kind: Kind,
}

impl Node {
    // What a list of nodes has where none was written.
    pub const NONE: Node = Node {
        height: 0,
        stop: 0,
        weight: 0,
        kind: Kind::Leaf,
    };
}
