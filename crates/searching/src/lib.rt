// The bounded search over the decoded table: Algorithm 1 of document 000, whose lines are named here, in grains above the lowest end. One code for the plain
// search and for that with an index (document 02, Item 14): with one an M, N or C has its own ends, which stand so many points above the table's lowest end as
// `rise` and `tops` have for it; without one both are empty.
#![tactic(auto)]

ghost use Rattle.std.specs.Prelude.{◌+◌, length};
ghost use Rattle.table.specs.Tree.{MAX, MIN, CHANCE};
ghost use Rattle.table.specs.Nodes.{slices_in};
ghost use Rattle.searching.specs.Inside.{way, nodes_of, way_of, ReadyChildren, Told, ReadyRoot, Searched};

use line::Kind;
use steps::{Ends, Found, Rule, State, Window};
use table::{Node, Play};

// A decoded table, and the rule of its search: what stays as it is throughout.
#[derive(Clone, Copy)]
struct Table<'a> {
    nodes: &'a [Node],
    rise: &'a [u32],
    tops: &'a [u32],
    rule: Rule,
}

impl Table<'_> {
    // The children of an M whose ends are v, entries c up to end, in the window w, with so many reads left. Whether the budget was spent is as the child met
    // last tells it: once a node was met with none left, every later one is. M, N and C have a function each, and these call one another, as document 01 orders.
    #[cycle(chance_over_max_over_min_over)]
    fn max_over(
        &self,
        leaves: &mut [u16],
        left: usize,
        c: usize,
        end: usize,
        v: Ends,
        w: Window,
    ) -> Found
        requires { ReadyChildren (nodes_of self.now) (way_of self.now v) v MAX w c end left (length leaves.old) }
        ensures { Told (nodes_of self.now) (way_of self.now v) v MAX w c end left result leaves.old leaves.new }
    {
        if left == 0 {
            return v.met_spent();
        }
        let mut t = State {
            alpha: w.alpha,
            beta: w.beta,
            low: v.bottom,
            high: v.bottom,
            play: Play::NoPlay,
            other: 0,
        };
        let mut i = c;
        let mut n = left;
        loop {
            let e = usize::from(self.nodes[i].stop);
            let r = match self.nodes[i].kind {
                Kind::Leaf => steps::leaf_at(self.nodes, leaves, n, i, self.rule.grain, v),
                kind => {
                    let u = steps::ends_at(self.rise, self.tops, v, self.rule.grain, i);
                    let y = Window {
                        alpha: t.alpha,
                        beta: t.beta,
                    };
                    match kind {
                        Kind::Max => self.max_over(leaves, n, i + 1, e, u, y),
                        Kind::Min => self.min_over(leaves, n, i + 1, e, u, y),
                        _ => self.chance_over(leaves, n, i + 1, e, u, y),
                    }
                }
            };
            t = t.max_after(v, i, r.low, r.high);
            n = r.left;
            if e == end {
                return Found {
                    low: t.low,
                    high: t.high,
                    play: t.play,
                    left: n,
                    spent: r.spent,
                };
            }
            if t.stopped(self.rule.margin) {
                return Found {
                    low: t.low,
                    high: v.top,
                    play: t.play,
                    left: n,
                    spent: r.spent,
                };
            }
            i = e;
        }
    }

    // The same for the children of an N.
    #[cycle(chance_over_max_over_min_over)]
    fn min_over(
        &self,
        leaves: &mut [u16],
        left: usize,
        c: usize,
        end: usize,
        v: Ends,
        w: Window,
    ) -> Found
        requires { ReadyChildren (nodes_of self.now) (way_of self.now v) v MIN w c end left (length leaves.old) }
        ensures { Told (nodes_of self.now) (way_of self.now v) v MIN w c end left result leaves.old leaves.new }
    {
        if left == 0 {
            return v.met_spent();
        }
        let mut t = State {
            alpha: w.alpha,
            beta: w.beta,
            low: v.top,
            high: v.top,
            play: Play::NoPlay,
            other: 0,
        };
        let mut i = c;
        let mut n = left;
        loop {
            let e = usize::from(self.nodes[i].stop);
            let r = match self.nodes[i].kind {
                Kind::Leaf => steps::leaf_at(self.nodes, leaves, n, i, self.rule.grain, v),
                kind => {
                    let u = steps::ends_at(self.rise, self.tops, v, self.rule.grain, i);
                    let y = Window {
                        alpha: t.alpha,
                        beta: t.beta,
                    };
                    match kind {
                        Kind::Max => self.max_over(leaves, n, i + 1, e, u, y),
                        Kind::Min => self.min_over(leaves, n, i + 1, e, u, y),
                        _ => self.chance_over(leaves, n, i + 1, e, u, y),
                    }
                }
            };
            t = t.min_after(v, i, r.low, r.high);
            n = r.left;
            if e == end {
                return Found {
                    low: t.low,
                    high: t.high,
                    play: t.play,
                    left: n,
                    spent: r.spent,
                };
            }
            if t.stopped(self.rule.margin) {
                return Found {
                    low: v.bottom,
                    high: t.high,
                    play: t.play,
                    left: n,
                    spent: r.spent,
                };
            }
            i = e;
        }
    }

    // The same for the children of a C. Their weights are added up once, here; the window, low and high are kept times that total, and low and high divided by
    // it where the C is left. A leaf needs no window.
    #[cycle(chance_over_max_over_min_over)]
    fn chance_over(
        &self,
        leaves: &mut [u16],
        left: usize,
        c: usize,
        end: usize,
        v: Ends,
        w: Window,
    ) -> Found
        requires { ReadyChildren (nodes_of self.now) (way_of self.now v) v CHANCE w c end left (length leaves.old) }
        ensures { Told (nodes_of self.now) (way_of self.now v) v CHANCE w c end left result leaves.old leaves.new }
    {
        if left == 0 {
            return v.met_spent();
        }
        let total = runs::sum_weights(self.nodes, c, end);
        let margin = self.rule.chance_margin(total);
        let mut t = State::chance_start(v, total, w);
        let mut i = c;
        let mut n = left;
        loop {
            let e = usize::from(self.nodes[i].stop);
            let x = u64::from(self.nodes[i].weight);
            let r = match self.nodes[i].kind {
                Kind::Leaf => steps::leaf_at(self.nodes, leaves, n, i, self.rule.grain, v),
                kind => {
                    let u = steps::ends_at(self.rise, self.tops, v, self.rule.grain, i);
                    let y = t.chance_window(v, x);
                    match kind {
                        Kind::Max => self.max_over(leaves, n, i + 1, e, u, y),
                        Kind::Min => self.min_over(leaves, n, i + 1, e, u, y),
                        _ => self.chance_over(leaves, n, i + 1, e, u, y),
                    }
                }
            };
            t = t.chance_after(v, x, r.low, r.high);
            n = r.left;
            if e == end || t.stopped(margin) {
                return t.chance_left(total, n, r.spent);
            }
            i = e;
        }
    }
}

// The search of the table whose nodes are the entries up to n and whose ends are v. The list has an entry for each read of the budget: the leaves read are
// listed in reading sequence, and the rest of the list stays.
pub fn search(
    nodes: &[Node],
    rise: &[u32],
    tops: &[u32],
    leaves: &mut [u16],
    n: usize,
    g: Rule,
    v: Ends,
) -> Found
    requires { ReadyRoot (slices_in nodes.now) (way g v rise.now tops.now) v n }
    ensures { Searched (slices_in nodes.now) (way g v rise.now tops.now) v n result leaves.old leaves.new }
{
    let left = leaves.len();
    match nodes[0].kind {
        Kind::Leaf => steps::leaf_at(nodes, leaves, left, 0, g.grain, v),
        kind => {
            let u = steps::ends_at(rise, tops, v, g.grain, 0);
            let w = Window {
                alpha: u.bottom,
                beta: u.top,
            };
            let t = Table {
                nodes,
                rise,
                tops,
                rule: g,
            };
            match kind {
                Kind::Max => t.max_over(leaves, left, 1, n, u, w),
                Kind::Min => t.min_over(leaves, left, 1, n, u, w),
                _ => t.chance_over(leaves, left, 1, n, u, w),
            }
        }
    }
}
