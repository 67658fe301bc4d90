// One step of the bounded search: the window of a child, the state after it, a leaf read, and a node met when no read is left. Lines are those of
// Algorithm 1 of document 000, numbers are in grains above the lowest end, and in a C's state its total times that.
#![tactic(auto)]

ghost use Rattle.std.specs.Prelude.{◌≡◌, ◌||◌, cond, ◌+◌, ◌*◌, ◌/◌, ◌<◌, ◌≤◌, eqb, ltb, length, get_or};
ghost use Rattle.table.specs.Tree.{MAX, MIN, CHANCE};
ghost use Rattle.table.specs.Nodes.{heights_in};
ghost use Rattle.table.specs.declared.Play.TheVariants.{Child};
ghost use Rattle.search.specs.Search.{below};
ghost use Rattle.steps.specs.Inside.{is_first, frame_at, sums_at, window_for, after, stops, left_in, met_spent_in, leaf_seen, Gives, ends_at, limit, OkEnds, OkSums};

use table::{Node, Play};

// The margin, and the grains in a point.
#[derive(Clone, Copy)]
pub struct Rule {
    pub margin: u64,
    pub grain: u64,
}

// A node's least and greatest value in grains.
#[derive(Clone, Copy)]
pub struct Ends {
    pub bottom: u64,
    pub top: u64,
}

// Where the search of a node stands between two children; `play` is the best child. That child's low is the low of an M so far, and its high the high of an N;
// `other` is its other bound, by which a tie is broken. A C keeps running sums: its first four numbers are its total times those of Algorithm 1.
#[derive(Clone, Copy)]
pub struct State {
    pub alpha: u64,
    pub beta: u64,
    pub low: u64,
    pub high: u64,
    pub play: Play,
    pub other: u64,
}

// The window of a node.
#[derive(Clone, Copy)]
pub struct Window {
    pub alpha: u64,
    pub beta: u64,
}

// A node's bounds, its best child, how many reads are left, and whether a node was met when none was.
#[derive(Clone, Copy)]
pub struct Found {
    pub low: u64,
    pub high: u64,
    pub play: Play,
    pub left: usize,
    pub spent: bool,
}

impl Rule {
    // The margin on the scale of a C's sums.
    pub fn chance_margin(self, total: u64) -> u64
        requires { (total ≤ 64) × (self.margin ≤ 40000000000000) }
        ensures { result ≡ total * self.margin }
    {
        total * self.margin
    }
}

impl Ends {
    // A node met when no read is left: the two ends, and nothing is read.
    pub fn met_spent(self) -> Found
        ensures { result ≡ met_spent_in self }
    {
        Found {
            low: self.bottom,
            high: self.top,
            play: Play::NoPlay,
            left: 0,
            spent: true,
        }
    }
}

// Whether a child takes the place of the best so far: the first entered does, and then each that is better, which means that a is below b, or that they
// are equal and x is below y.
#[tactic(auto, unfolding(search::specs::Search::below))]
fn beats(play: Play, a: u64, b: u64, x: u64, y: u64) -> bool
    ensures { result ≡ (is_first play || below ltb a b x y) }
{
    match play {
        Play::NoPlay => true,
        Play::Child(_) => (a, x) < (b, y),
    }
}

impl State {
    // Line 24: whether the window is within the margin, which a C has times its total.
    pub fn stopped(self, margin: u64) -> bool
        requires { self.alpha + margin < 9223372036854775808 }
        ensures { result ≡ stops margin self }
    {
        self.beta <= self.alpha + margin
    }

    // The child i, whose bound to break a tie is `other`, or the best so far.
    fn prefer(self, takes: bool, i: usize, other: u64) -> (Play, u64)
        ensures { (result.0 ≡ cond takes (Child i) self.play) × (result.1 ≡ cond takes other self.other) }
    {
        if takes {
            (Play::Child(i), other)
        } else {
            (self.play, self.other)
        }
    }

    // After the child i of an M, lines 14, 15, 22 and 23: until the last child its high is its own top.
    #[tactic(auto, unfolding(search::specs::Search::update))]
    pub fn max_after(self, v: Ends, i: usize, low: u64, high: u64) -> State
        ensures { result ≡ after (frame_at v 0) MAX i 0 self low high }
    {
        let l = self.low.max(low);
        let takes = beats(self.play, self.low, low, self.other, high);
        let (play, other) = self.prefer(takes, i, high);
        State {
            alpha: self.alpha.max(l),
            beta: self.beta.min(v.top),
            low: l,
            high: self.high.max(high),
            play,
            other,
        }
    }

    // After the child i of an N, lines 17, 18, 22 and 23: until the last child its low is its own bottom. A function of its own, as document 01 has the rules of M
    // and N; one for both would have to be told each comparison.
    #[tactic(auto, unfolding(search::specs::Search::update))]
    pub fn min_after(self, v: Ends, i: usize, low: u64, high: u64) -> State
        ensures { result ≡ after (frame_at v 0) MIN i 0 self low high }
    {
        let h = self.high.min(high);
        let takes = beats(self.play, high, self.high, low, self.other);
        let (play, other) = self.prefer(takes, i, low);
        State {
            alpha: self.alpha.max(v.bottom),
            beta: self.beta.min(h),
            low: self.low.min(low),
            high: h,
            play,
            other,
        }
    }

    // Before a C's first child, in the window w: the total times each number of lines 3 to 10.
    pub fn chance_start(v: Ends, total: u64, w: Window) -> State
        requires { OkEnds v × (total ≤ 64) × (w.alpha ≤ limit) × (w.beta ≤ limit) }
        ensures { result ≡ sums_at v total w.alpha w.beta }
    {
        State {
            alpha: total * w.alpha,
            beta: total * w.beta,
            low: total * v.bottom,
            high: total * v.top,
            play: Play::NoPlay,
            other: 0,
        }
    }

    // The window of a C's child of weight w, lines 9 and 10, rounded outward. On the scale of the sums their dividends need no product.
    #[tactic(auto, using(crate::proofs::Sizes::ceil_is), unfolding(search::specs::Search::lower, search::specs::Search::upper))]
    pub fn chance_window(self, v: Ends, w: u64) -> Window
        requires { OkEnds v × OkSums self × (0 < w) × (w ≤ 64) }
        ensures { result ≡ window_for (frame_at v 0) CHANCE w self }
    {
        let x = self.high.saturating_sub(self.alpha).div_ceil(w);
        let y = self.beta.saturating_sub(self.low).div_ceil(w);
        Window {
            alpha: v.bottom.max(v.top.saturating_sub(x)),
            beta: v.top.min(v.bottom + y),
        }
    }

    // After a C's child of weight w, lines 20 to 23: nothing is divided. A C has no play.
    #[tactic(auto, unfolding(search::specs::Search::update))]
    pub fn chance_after(self, v: Ends, w: u64, low: u64, high: u64) -> State
        requires { OkEnds v × OkSums self × (w ≤ 64) × (v.bottom ≤ low) × (low ≤ limit) × (high ≤ v.top) }
        ensures { result ≡ after (frame_at v 0) CHANCE 0 w self low high }
    {
        let l = self.low + w * (low - v.bottom);
        let h = self.high.saturating_sub(w * (v.top - high));
        State {
            alpha: self.alpha.max(l),
            beta: self.beta.min(h),
            low: l,
            high: h,
            ..self
        }
    }

    // A C is left, cut or after its last child: its two sums are divided here and nowhere else.
    pub fn chance_left(self, total: u64, left: usize, spent: bool) -> Found
        requires { 0 < total }
        ensures { result ≡ left_in total self left spent }
    {
        Found {
            low: self.low / total,
            high: self.high / total,
            play: self.play,
            left,
            spent,
        }
    }
}

// The least and the greatest value of the M, N or C at entry i, whose parent has the ends v. With an index they are its own, which the two lists have in points
// above the table's lowest end; where `tops` is empty there is none, and they are v, the table's.
pub fn ends_at(rise: &[u32], tops: &[u32], v: Ends, grain: u64, i: usize) -> Ends
    requires { 0 < length tops.now → (i < length rise.now) × (i < length tops.now) × (get_or rise.now i 0 * grain ≤ limit) × (get_or tops.now i 0 * grain ≤ limit) }
    ensures { result ≡ ends_at grain rise.now tops.now v i }
{
    if tops.is_empty() {
        v
    } else {
        Ends {
            bottom: u64::from(rise[i]) * grain,
            top: u64::from(tops[i]) * grain,
        }
    }
}

// The leaf at entry c, lines 1 and 2: it is listed behind those read before, in a list that has an entry for each read of the whole budget, and both
// bounds are its height in grains. With no read left it is met as any node then is.
#[tactic(auto, unfolding(search::specs::Search::met_spent, search::specs::Search::point, crate::specs::Inside::put_from))]
pub fn leaf_at(
    nodes: &[Node],
    leaves: &mut [u16],
    left: usize,
    c: usize,
    grain: u64,
    v: Ends,
) -> Found
    requires { (c < length nodes.now) × (left ≤ length leaves.old) × (c < 1024) × (get_or (heights_in nodes.now) c 0 * grain < 9223372036854775808) }
    ensures { Gives left result (leaf_seen v left c (get_or (heights_in nodes.now) c 0 * grain)) leaves.old leaves.new }
{
    if left == 0 {
        return v.met_spent();
    }
    let used = leaves.len() - left;
    leaves[used] = c as u16;
    let h = u64::from(nodes[c].height) * grain;
    let n = left - 1;
    Found {
        low: h,
        high: h,
        play: Play::NoPlay,
        left: n,
        spent: false,
    }
}
