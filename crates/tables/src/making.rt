// The build of an accepted book: the two passes, then the two tables.
ghost use Rattle.std.specs.Prelude.{[], length};
ghost use Rattle.refusals.specs.Table.{said_by};
ghost use Rattle.book.specs.Format.{kinds, grammar};
ghost use Rattle.members.specs.Room.{Roomy};
ghost use Rattle.tables.specs.Answer.{said, lent};
ghost use Rattle.tables.specs.Shape.{Opened};
ghost use Rattle.tables.specs.Making.{Ready, Settled, Passed, Tabled, Worked};

use super::Counts;
use super::downward::downward;
use super::entry::{Down, Up};
use super::fill::fill;
use super::ranked::Sets;
use super::totals::totals;
use super::upward::upward;
use refusals::{Refusal, Refused};

// The two passes, or the refusal that one of them comes to. What a refusal leaves in the memory is not said.
fn passes(
    book: &[u8],
    places: &[usize],
    plausible: &mut [u32],
    counts: &mut [u8],
    feasible: &mut [u32],
    tally: &mut [u8],
) -> Result<(), Refused>
    requires { Opened book.now places.now × Roomy (kinds book.now) (length plausible.old) (length counts.old) (length feasible.old) (length tally.old) }
    ensures { Passed book.now plausible.old counts.old feasible.old tally.old
        plausible.new counts.new feasible.new tally.new (said_by (λ _. []) result) }
{
    upward(book, places, plausible, counts).map_err(|_| Refusal::ManyPlausible.at(0))?;
    let plausible = Sets {
        codes: plausible,
        counts,
    };
    downward(book, places, plausible, feasible, tally).map_err(|_| Refusal::ManyFeasible.at(0))
}

// Both tables, over the sets as they stand; nothing is written unless both fit.
fn write_tables(
    book: &[u8],
    places: &[usize],
    plausible: Sets,
    feasible: Sets,
    up: &mut [u8],
    down: &mut [u8],
) -> Result<Counts, Refused>
    requires { Opened book.now places.now × Settled book.now plausible.codes.now plausible.counts.now feasible.codes.now feasible.counts.now }
    ensures { Tabled (grammar book.now) plausible.entry.codes.now plausible.entry.counts.now feasible.entry.codes.now feasible.entry.counts.now
        up.old down.old (said result) up.new down.new }
{
    let all = totals(book, places, plausible.counts, feasible.counts);
    ranks::room_for(up.len(), down.len(), all.up, all.down)?;
    fill(&Up { plausible }, book, places, up);
    fill(
        &Down {
            plausible,
            feasible,
        },
        book,
        places,
        down,
    );
    Ok(all)
}

// The sets, then the tables over them. What a refusal leaves in the memory is not said.
pub fn make(
    book: &[u8],
    plausible: &mut [u32],
    counts: &mut [u8],
    feasible: &mut [u32],
    tally: &mut [u8],
    up: &mut [u8],
    down: &mut [u8],
) -> Result<Counts, Refused>
    requires { Ready book.now (lent plausible.old counts.old feasible.old tally.old up.old down.old) }
    ensures { Worked book.now (lent plausible.old counts.old feasible.old tally.old up.old down.old) (said result)
        (lent plausible.new counts.new feasible.new tally.new up.new down.new) }
{
    let index = book::index(book);
    let places = &index[..book::productions(book) as usize];
    passes(book, places, plausible, counts, feasible, tally)?;
    let plausible = Sets {
        codes: plausible,
        counts,
    };
    let feasible = Sets {
        codes: feasible,
        counts: tally,
    };
    write_tables(book, places, plausible, feasible, up, down)
}
