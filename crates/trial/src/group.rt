// The sheet call, on anyone's tables and on memory as the request lends it.
use crate::numbers::lent;
use crate::print::Out;
use crate::request::{argument, ends};
use crate::{print, room};

// The answer, then both slices as they are at exit.
pub fn group_sheet(arguments: &[u8], out: &mut Out) -> Option<()> {
    let (book, left) = argument(arguments, 1, room::BOOK)?;
    let (sheet, left) = argument(left, 1, room::SHEET)?;
    let (plausible_counts, left) = argument(left, 1, room::COUNTS)?;
    let (feasible_counts, left) = argument(left, 1, room::COUNTS)?;
    let (up, left) = argument(left, 1, room::UP)?;
    let (down, left) = argument(left, 1, room::DOWN)?;
    let (nodes, left) = argument(left, 8, room::NODES)?;
    let (groups, left) = argument(left, 2, room::GROUPS)?;
    ends(left)?;
    let mut memory = [0u64; room::NODES];
    let nodes = lent(nodes, &mut memory);
    let mut memory = [0u16; room::GROUPS];
    let groups = lent(groups, &mut memory);
    let answer = numbering::group_sheet(
        book,
        sheet,
        plausible_counts,
        feasible_counts,
        up,
        down,
        nodes,
        groups,
    );
    print::answer(
        out,
        answer.map(|counts| [counts.nodes, counts.settings, counts.groups]),
    );
    print::line(out, nodes);
    print::line(out, groups);
    Some(())
}
