// Leaves listed once: those of a reading sequence that are not listed yet are added to a list, in sequence.
#![tactic(auto)]

ghost use Rattle.listing.specs.Inside.{ReadyLeaf, AddedLeaf, ReadyLeaves, AddedLeaves};

// One leaf, behind the `count` that are listed. A mark stands for each node that is.
fn add_leaf(leaf: u16, marks: &mut [bool], leaves: &mut [u16], count: usize) -> usize
    requires { ReadyLeaf leaf marks.old leaves.old count }
    ensures { AddedLeaf leaf leaves.old count result marks.new leaves.new }
{
    let n = usize::from(leaf);
    if marks[n] {
        count
    } else {
        marks[n] = true;
        leaves[count] = leaf;
        count + 1
    }
}

// The leaves of a reading sequence; how many are listed then.
pub fn add_new(read: &[u16], marks: &mut [bool], leaves: &mut [u16], count: usize) -> usize
    requires { ReadyLeaves read.now marks.old leaves.old count }
    ensures { AddedLeaves read.now leaves.old count result marks.new leaves.new }
{
    let mut n = count;
    for leaf in read {
        n = add_leaf(*leaf, marks, leaves, n);
    }
    n
}
