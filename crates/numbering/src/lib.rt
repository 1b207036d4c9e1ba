// The sheet call: refusals 1 to 9 and 20 to 25, a rank of each kind and a down entry for every node, and a group number for every setting.
#![tactic(auto)]

mod call;
mod choice;
mod downward;
mod limits;
mod nodes;
mod numbers;
mod overfull;
mod settling;
mod starts;
mod telling;
mod upward;

ghost use Rattle.numbering.specs.Walk.{tables};
ghost use Rattle.numbering.specs.Promise.{lent, CallDue};
ghost use Rattle.numbering.specs.Answer.{said};

use admission::Lengths;
use call::Tables;
use refusals::Refused;
use settling::settle;

// What an accepted sheet comes to: the numbers of nodes, settings and groups.
#[derive(Clone, Copy, Debug, PartialEq, Eq)]
pub struct Counts {
    pub nodes: u16,
    pub settings: u16,
    pub groups: u16,
}

// Refusals 1 to 9 and 20 to 25; or each node's ranks and down entry, three places a node, and each setting's group number, all by anyone's tables.
// After a refusal the lent memory is as it came; after acceptance what lies beyond is.
pub fn group_sheet(
    book: &[u8],
    sheet: &[u8],
    plausible_counts: &[u8],
    feasible_counts: &[u8],
    up: &[u8],
    down: &[u8],
    nodes: &mut [u64],
    groups: &mut [u16],
) -> Result<Counts, Refused>
    ensures { CallDue book.now sheet.now (tables plausible_counts.now feasible_counts.now up.now down.now)
        (lent nodes.old groups.old) (said result) (lent nodes.new groups.new) }
{
    let lengths = Lengths {
        plausible_counts: plausible_counts.len(),
        feasible_counts: feasible_counts.len(),
        nodes: nodes.len(),
        groups: groups.len(),
    };
    let counts = admission::admit(book, sheet, lengths)?;
    let tables = Tables {
        plausible_counts,
        feasible_counts,
        up,
        down,
    };
    settle(book, sheet, tables, counts, nodes, groups)
}
