// The choice of ranks and entries: all reads of the tables, upward from the last node, then the root, then downward from the first.
ghost use Rattle.numbering.specs.Parts.{Choice};

use super::call::Call;
use super::downward::read_downward;
use super::limits::NODES;
use super::nodes::Node;
use super::upward::read_upward;
use refusals::{Refusal, Refused};

// The root's feasible rank is its plausible rank; every other comes from its parent's entry.
pub fn choose(call: &Call, nodes: &mut [Node; NODES]) -> Result<(), Refused>
    ensures { Choice call.now nodes.new result }
{
    read_upward(call, nodes)?;
    let root = ranks::started(nodes[0].plausible);
    let start = book::start(call.book) as usize;
    if call.tables.feasible_counts[start] <= root.0 {
        return Err(Refusal::BadTables.at(0));
    }
    nodes[0].feasible = root;
    read_downward(call, nodes)
}
