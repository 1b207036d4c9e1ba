// What a call comes to know of each node: its ranks, of two types so that neither is taken for the other, and where things stand.
ghost use Rattle.std.specs.Prelude.{◌<◌, length};
ghost use Rattle.chains.specs.Limits.{max_kids};
ghost use Rattle.book.specs.Format.{prods, grammar};
ghost use Rattle.ranks.specs.Reads.{counts_of, numbers};
ghost use Rattle.ranks.specs.Padded.{CountsPadded};
ghost use Rattle.numbering.specs.Nodes.{plausible_ranks, subtree_ends};
ghost use Rattle.numbering.specs.Parts.{Children, Kindred};

use super::call::Call;
use super::limits::NODES;
use ranks::{Chosen, Feasible, KIDS, Plausible};

// The subtree of a node ends at the place behind its last node; the settings of the sheet are counted from the first node's on.
#[derive(Clone, Copy)]
pub struct Node {
    pub plausible: Plausible,
    pub feasible: Feasible,
    pub end: u16,
    pub first_setting: u16,
    pub entry: u64,
}

// A node before it is read.
pub const UNREAD: Node = Node {
    plausible: Plausible(0),
    feasible: Feasible(0),
    end: 0,
    first_setting: 0,
    entry: 0,
};

// A node's children as a read takes them, and where the last of them ends.
#[derive(Clone, Copy)]
pub struct Kin {
    pub children: [Chosen; KIDS],
    pub end: usize,
}

// Those of node i, of production p: their counts and plausible ranks; past the last a count of 1 and a rank of 0.
// The first child stands right after its parent, and each further one where the subtree of the one before it ends.
pub fn kin_of(call: &Call, nodes: &[Node; NODES], i: usize, p: u8) -> Kin
    requires known { p < prods call.now.book.now }
    requires children { Children (subtree_ends nodes.now) i (length ((grammar call.now.book.now).kids p)) }
    ensures counts { CountsPadded max_kids call.now.tables.plausible_counts.now ((grammar call.now.book.now).kids p) (counts_of result.children) }
    ensures ranks { Kindred (plausible_ranks nodes.now) (subtree_ends nodes.now) i (length ((grammar call.now.book.now).kids p)) (numbers result.children) result.end }
{
    let none = Chosen {
        count: 1,
        rank: Plausible(0),
    };
    let mut children = [none; KIDS];
    let mut at = i + 1;
    for (j, &kind) in call.kids(p).iter().enumerate() {
        let child = nodes[at];
        children[j] = Chosen {
            count: call.tables.plausible_counts[kind as usize],
            rank: child.plausible,
        };
        at = child.end as usize;
    }
    Kin { children, end: at }
}
