// The build, on memory as the request lends it.
use crate::numbers::lent;
use crate::print::Out;
use crate::request::{argument, ends};
use crate::{print, room};

// The answer, then each slice as it is at exit.
pub fn build(arguments: &[u8], out: &mut Out) -> Option<()> {
    let (book, left) = argument(arguments, 1, room::BOOK)?;
    let (plausible, left) = argument(left, 4, room::SETS)?;
    let (plausible_counts, left) = argument(left, 1, room::COUNTS)?;
    let (feasible, left) = argument(left, 4, room::SETS)?;
    let (feasible_counts, left) = argument(left, 1, room::COUNTS)?;
    let (up, left) = argument(left, 1, room::UP)?;
    let (down, left) = argument(left, 1, room::DOWN)?;
    ends(left)?;
    let mut memory = [0u32; room::SETS];
    let plausible = lent(plausible, &mut memory);
    let mut memory = [0u8; room::COUNTS];
    let plausible_counts = lent(plausible_counts, &mut memory);
    let mut memory = [0u32; room::SETS];
    let feasible = lent(feasible, &mut memory);
    let mut memory = [0u8; room::COUNTS];
    let feasible_counts = lent(feasible_counts, &mut memory);
    let mut memory = [0u8; room::UP];
    let up = lent(up, &mut memory);
    let mut memory = [0u8; room::DOWN];
    let down = lent(down, &mut memory);
    let answer = tables::build(
        book,
        plausible,
        plausible_counts,
        feasible,
        feasible_counts,
        up,
        down,
    );
    print::answer(out, answer.map(|counts| [counts.up, counts.down]));
    print::line(out, plausible);
    print::line(out, plausible_counts);
    print::line(out, feasible);
    print::line(out, feasible_counts);
    print::line(out, up);
    print::line(out, down);
    Some(())
}
