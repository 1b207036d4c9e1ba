// The upward reads: each node's plausible rank by its children's, from the last node to the first, and where its subtree ends.
ghost use Rattle.std.specs.Prelude.{◌<◌};
ghost use Rattle.book.specs.Format.{prods};
ghost use Rattle.ranks.specs.Reads.{counts_of, numbers, up_number};
ghost use Rattle.numbering.specs.Parts.{UpNodeIs, UpReads};

use super::call::Call;
use super::limits::NODES;
use super::nodes::{Node, kin_of};
use super::starts::up_starts;
use ranks::{Chosen, KIDS, Plausible};
use refusals::{Refusal, Refused};

// The read at a node of production p, whose entries begin at start, by its children: its own rank.
// None where the entry is past its slice, or the rank not below its count.
fn read_node(call: &Call, p: u8, start: u64, children: [Chosen; KIDS]) -> Option<Plausible>
    requires { p < prods call.now.book.now }
    ensures { UpNodeIs call.now p (up_number start (counts_of children) (numbers children)) result }
{
    let count = call.tables.plausible_counts[call.left(p) as usize];
    ranks::read_up(call.tables.up, start, children).filter(|rank| rank.0 < count)
}

// All of them; the first that is bad, from the last node on, is the answer.
pub fn read_upward(call: &Call, nodes: &mut [Node; NODES]) -> Result<(), Refused>
    ensures { UpReads call.now nodes.new result }
{
    let starts = up_starts(call);
    for i in (0..call.sheet.len()).rev() {
        let p = call.sheet[i];
        let kin = kin_of(call, nodes, i, p);
        let rank = read_node(call, p, starts[p as usize], kin.children).ok_or(Refusal::BadTables.at(
            i as u16,
        ))?;
        let node = &mut nodes[i];
        node.plausible = rank;
        node.end = kin.end as u16;
    }
    Ok(())
}
