// The downward reads: each node's down entry by its feasible rank, from the first node on, and from there its children's feasible ranks.
ghost use Rattle.std.specs.Prelude.{◌≡◌, ◌<◌, length, get_or};
ghost use Rattle.book.specs.Format.{prods, grammar};
ghost use Rattle.ranks.specs.Entries.{down_start};
ghost use Rattle.numbering.specs.Nodes.{subtree_ends};
ghost use Rattle.numbering.specs.Parts.{TreeIn, down_start_in, Children, Ended, HandedDown, DownNodeRead, DownReads};

use super::call::Call;
use super::limits::NODES;
use super::nodes::{Node, kin_of};
use super::starts::down_starts;
use refusals::{Refusal, Refused};

// Gives each child of node i, of production p, its feasible rank from the entry; false where one is not below its count.
fn hand_down(call: &Call, i: usize, p: u8, entry: u64, nodes: &mut [Node; NODES]) -> bool
    requires known { p < prods call.now.book.now }
    requires children { Children (subtree_ends nodes.old) i (length ((grammar call.now.book.now).kids p)) }
    ensures { HandedDown call.now i p entry nodes.old nodes.new result }
{
    let mut child = i + 1;
    for (j, &kind) in call.kids(p).iter().enumerate() {
        let rank = ranks::child_rank(call.tables.down, entry, j);
        if call.tables.feasible_counts[kind as usize] <= rank.0 {
            return false;
        }
        let node = &mut nodes[child];
        node.feasible = rank;
        child = node.end as usize;
    }
    true
}

// The read at node i, of production p, whose entries begin at start: its down entry, and with it its children's ranks.
// None where the entry is past its slice, or a child's rank not below its count.
fn read_node(call: &Call, i: usize, p: u8, start: u64, nodes: &mut [Node; NODES]) -> Option<u64>
    requires known { p < prods call.now.book.now }
    requires begins { start ≡ down_start_in call.now p }
    requires children { Children (subtree_ends nodes.old) i (length ((grammar call.now.book.now).kids p)) }
    ensures { DownNodeRead call.now i p nodes.old nodes.new result }
{
    let kin = kin_of(call, nodes, i, p);
    let own = nodes[i].feasible;
    let entry = ranks::read_down(call.tables.down, start, own, kin.children)?;
    if !hand_down(call, i, p, entry, nodes) {
        return None;
    }
    Some(entry)
}

// All of them; the first that is bad is the answer.
pub fn read_downward(call: &Call, nodes: &mut [Node; NODES]) -> Result<(), Refused>
    requires { (t : TreeIn call.now) → Ended t.tree 0 0 (subtree_ends nodes.old) }
    ensures { DownReads call.now nodes.old nodes.new result }
{
    let starts = down_starts(call);
    for (i, &p) in call.sheet.iter().enumerate() {
        let entry = read_node(call, i, p, starts[p as usize], nodes).ok_or(Refusal::BadTables.at(
            i as u16,
        ))?;
        nodes[i].entry = entry;
    }
    Ok(())
}
