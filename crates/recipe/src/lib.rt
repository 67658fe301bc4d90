// Test positions by recipe: the same table from the same numbers, written into a lent buffer.
#![tactic(auto)]

ghost use Rattle.std.specs.Prelude.{◌≡◌, cond, ◌+◌, ◌*◌, ◌≤◌, ◌<◌, length, eqb};
ghost use Rattle.std.proofs.lemmas.List.Edits.{sets};
ghost use Rattle.line.specs.declared.Kind.TheVariants.{Leaf};
ghost use Rattle.table.specs.Tree.{line_kind};
ghost use Rattle.table.specs.Slices.{laid};
ghost use Rattle.writing.specs.Text.{line_text, table_text};
ghost use Rattle.recipe.specs.Recipe.{next_state, points, levels, plays, chance_at, kind_at, weight_of, nodes, recipe_head, recipe_table};
ghost use Rattle.recipe.specs.Inside.{under_of, first_line, after_first, LineReady, RowReady, Rowed, TableReady};

use line::{Head, Kind, Line};

// What the shape of the table follows from: the branching number, and whether there are dice.
#[derive(Clone, Copy)]
pub struct Recipe {
    pub b: u64,
    pub dice: bool,
}

// The next node's number, and the state before its leaves.
#[derive(Clone, Copy)]
pub struct Place {
    pub node: usize,
    pub state: u64,
}

// Lines with one parent: how many lines a path has from one of them down to its leaf, the leaf not counted, and how many stand above
// them; the parent's number, whether it is a C, and which child it is itself.
#[derive(Clone, Copy)]
pub struct Siblings {
    pub left: u64,
    pub level: u64,
    pub parent: usize,
    pub under: bool,
    pub play: u64,
}

fn next_state(s: u64) -> u64
    requires { s < 2147483648 }
    ensures { result ≡ next_state s }
{
    (1103515245 * s + 12345) % 2147483648
}

fn points(s: u64) -> u64
    ensures { result ≡ points s }
{
    s / 65536 % 101
}

impl Siblings {
    // What one of them is worth: a leaf has points, and other lines nothing.
    fn worth_of(self, state: u64) -> u64
        requires { state < 2147483648 }
        ensures { result ≡ cond (eqb self.left 0) (points (next_state state)) 0 }
    {
        if self.left == 0 {
            points(next_state(state))
        } else {
            0
        }
    }

    // The state after one of them alone: a leaf takes the next one.
    fn state_after(self, state: u64) -> u64
        requires { state < 2147483648 }
        ensures { result ≡ cond (eqb self.left 0) (next_state state) state }
    {
        if self.left == 0 {
            next_state(state)
        } else {
            state
        }
    }
}

impl Recipe {
    fn chance_at(self, level: u64) -> bool
        ensures { result ≡ chance_at self.dice level }
    {
        self.dice && level % 2 == 1
    }

    fn plays(self, level: u64) -> u64
        ensures { result ≡ plays self.dice level }
    {
        if self.dice { level / 2 } else { level }
    }

    // The kind of a line that is no leaf.
    fn kind_at(self, level: u64) -> Kind
        ensures { result ≡ line_kind (kind_at self.dice level) }
    {
        if self.chance_at(level) {
            Kind::Chance
        } else if self.plays(level) % 2 == 0 {
            Kind::Max
        } else {
            Kind::Min
        }
    }

    // The kind of any line.
    fn kind_of(self, y: Siblings) -> Kind
        ensures { result ≡ cond (eqb y.left 0) Leaf (line_kind (kind_at self.dice y.level)) }
    {
        if y.left == 0 {
            Kind::Leaf
        } else {
            self.kind_at(y.level)
        }
    }

    fn weight_of(self, y: Siblings, child: u64) -> u64
        requires { (2 ≤ self.b) × (self.b ≤ 5) }
        ensures { result ≡ weight_of self.b y.under y.play child }
    {
        if !y.under {
            0
        } else if child == y.play {
            4 * (self.b - 1)
        } else {
            1
        }
    }

    // How many children each has.
    fn children(self, y: Siblings) -> u64
        ensures { result ≡ cond (eqb y.left 0) 0 self.b }
    {
        if y.left == 0 { 0 } else { self.b }
    }

    // The children of the node `node`, which is child c of its parent.
    fn under_of(self, y: Siblings, c: u64, node: usize) -> Siblings
        requires { y.level ≤ 18 }
        ensures { result ≡ under_of self.dice y c node }
    {
        Siblings {
            left: y.left.saturating_sub(1),
            level: y.level + 1,
            parent: node,
            under: self.chance_at(y.level),
            play: c,
        }
    }

    // The line of child c, which is the node at `at`.
    fn first_line(self, y: Siblings, c: u64, at: Place) -> Line
        requires { (2 ≤ self.b) × (self.b ≤ 5) × (at.state < 2147483648) × (y.parent < 1024) }
        ensures { result ≡ first_line self.b self.dice y c at }
    {
        Line {
            node: at.node,
            kind: self.kind_of(y),
            parent: y.parent as u64,
            weight: self.weight_of(y, c),
            utility: y.worth_of(at.state) as i64,
            chances: 0,
        }
    }

    // That line written: the node after it, and the state before that one's leaves.
    fn write_first(self, y: Siblings, c: u64, at: Place, buffer: &mut [u8]) -> Place
        requires { LineReady self.b y at (length buffer.old) }
        ensures places { result ≡ after_first y at }
        ensures writes { buffer.new ≡ sets buffer.old (25 * at.node + 25) (line_text (first_line self.b self.dice y c at)) }
    {
        writing::put_line(buffer, 25 * at.node + 25, self.first_line(y, c, at));
        Place {
            node: at.node + 1,
            state: y.state_after(at.state),
        }
    }

    // m lines with one parent, from the child number c on, and all under them: the first is the node at `at`.
    fn write_row(self, y: Siblings, m: u64, c: u64, at: Place, buffer: &mut [u8]) -> Place
        requires { RowReady self.b y m c at (length buffer.old) }
        ensures { Rowed self.b self.dice y m c at buffer.old buffer.new result }
    {
        if m == 0 {
            at
        } else {
            let first = self.write_first(y, c, at, buffer);
            let under = self.under_of(y, c, at.node);
            let after = self.write_row(under, self.children(y), 1, first, buffer);
            self.write_row(y, m - 1, c + 1, after, buffer)
        }
    }

    fn levels(self, depth: u64) -> u64
        requires { depth ≤ 9 }
        ensures { result ≡ levels self.dice depth }
    {
        if self.dice { 2 * depth } else { depth }
    }

    // How many nodes a line is, with all under it, r lines above the leaves.
    fn count_nodes(self, r: u64) -> u64
        requires { (self.b ≤ 5) × (r ≤ 18) }
        ensures { result ≡ nodes self.b r }
    {
        let mut n = 1;
        for _ in 0..r {
            n = 1 + self.b * n;
        }
        n
    }

    // How many nodes the table has.
    pub fn table_nodes(self, depth: u64) -> u64
        requires { (self.b ≤ 5) × (depth ≤ 9) }
        ensures { result ≡ nodes self.b (levels self.dice depth) }
    {
        self.count_nodes(self.levels(depth))
    }

    fn head(self) -> Head
        requires { (2 ≤ self.b) × (self.b ≤ 5) }
        ensures { result ≡ recipe_head self.b self.dice }
    {
        Head {
            total: if self.dice { 5 * (self.b - 1) } else { 1 },
            second: 0,
            lowest: 0,
            highest: 100,
        }
    }

    // Writes the table of n nodes to the front of the buffer.
    pub fn write_table(self, seed: u64, depth: u64, n: usize, buffer: &mut [u8])
        requires { TableReady seed self.b depth self.dice n (length buffer.old) }
        ensures { buffer.new ≡ laid (table_text (recipe_table self.b self.dice seed depth)) buffer.old }
    {
        writing::put_header(buffer, self.head(), n);
        let root = Siblings {
            left: self.levels(depth),
            level: 0,
            parent: 0,
            under: false,
            play: 0,
        };
        let start = Place {
            node: 0,
            state: seed,
        };
        self.write_row(root, 1, 1, start, buffer);
    }
}
