// The build: plausible and feasible sets, and the up and down tables over them.
#![tactic(auto)]

mod downward;
mod entry;
mod fill;
mod labels;
mod making;
mod ranked;
mod seen;
mod sets;
mod shape;
mod sweep;
mod totals;
mod upward;
mod visit;

ghost use Rattle.tables.specs.Promise.{BuildDue};
ghost use Rattle.tables.specs.Answer.{said, lent};

use refusals::{Refusal, Refused};

// What an accepted build says: the numbers of up and down entries.
#[derive(Clone, Copy, Debug, PartialEq, Eq)]
pub struct Counts {
    pub up: u64,
    pub down: u64,
}

// Refusals 1 to 13; or the plausible and the feasible sets, MAX_MEMBERS places for each kind with its count beside it, and the two tables.
pub fn build(
    book: &[u8],
    plausible: &mut [u32],
    counts: &mut [u8],
    feasible: &mut [u32],
    tally: &mut [u8],
    up: &mut [u8],
    down: &mut [u8],
) -> Result<Counts, Refused>
    ensures { BuildDue book.now
        (lent plausible.old counts.old feasible.old tally.old up.old down.old)
        (said result)
        (lent plausible.new counts.new feasible.new tally.new up.new down.new) }
{
    let checked = bookcheck::check_book(book)?;
    if members::too_short(
        checked.kinds as usize,
        plausible.len(),
        counts.len(),
        feasible.len(),
        tally.len(),
    ) {
        return Err(Refusal::ShortSets.at(0));
    }
    let built = making::make(book, plausible, counts, feasible, tally, up, down);
    zeros::wipe(built.is_err(), plausible, counts, feasible, tally, up, down);
    built
}
