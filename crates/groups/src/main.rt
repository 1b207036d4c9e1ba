// The program `groups`: a sheet and a book come in on standard input; ranks, down entries and group numbers go out.
#![tactic(auto)]

mod input;
mod print;
mod room;

ghost use Rattle.std.specs.Prelude.{◌≡◌, ◌*◌, length};
ghost use Rattle.ranks.specs.Entries.{entry_bytes};
ghost use Rattle.numbering.specs.Walk.{tables};
ghost use Rattle.groups.specs.Room.{down_room};
ghost use Rattle.groups.specs.Answers.{Answers, BookText, SheetText};
ghost use Rattle.groups.specs.Adding.{PrintedOrRefused};

use print::Out;
use refusals::{Refusal, Refused};

// Only the reading before the answer and the writing after it no contract can speak of.
fn main() {
    // A byte more than is allowed, so that too much shows.
    let mut bytes = [0; input::MOST + 1];
    let n = io::read_full(text::STDIN, &mut bytes);
    let mut out = Out::new(text::STDOUT);
    answer(&bytes[..n], &mut out);
    out.flush();
}

// The text that is due for these bytes, whatever was held.
fn answer(bytes: &[u8], out: &mut Out)
    ensures { Answers bytes.now out.new }
{
    let Some((sheet, book)) = input::cut(bytes) else {
        return print::refused(out, Refusal::BadInput.at(0));
    };
    if let Err(refused) = build(book, sheet, out) {
        print::refused(out, refused);
    }
}

// The build fills the tables that the sheet call then reads. A refusal is not yet printed.
fn build(book: &[u8], sheet: &[u8], out: &mut Out) -> Result<(), Refused>
    ensures { PrintedOrRefused (BookText book.now sheet.now) result out.new }
{
    let mut plausible = [0; room::SET_PLACES];
    let mut plausible_counts = [0; room::KINDS];
    let mut feasible = [0; room::SET_PLACES];
    let mut feasible_counts = [0; room::KINDS];
    let mut up = [0; room::UP_ENTRIES];
    let mut down = [0; room::DOWN_BYTES];
    tables::build(
        book,
        &mut plausible,
        &mut plausible_counts,
        &mut feasible,
        &mut feasible_counts,
        &mut up,
        &mut down,
    )?;
    group(
        book,
        sheet,
        &plausible_counts,
        &feasible_counts,
        &up,
        &down,
        out,
    )
}

fn group(
    book: &[u8],
    sheet: &[u8],
    plausible_counts: &[u8],
    feasible_counts: &[u8],
    up: &[u8],
    down: &[u8],
    out: &mut Out,
) -> Result<(), Refused>
    requires { length down.now ≡ entry_bytes * down_room }
    ensures { PrintedOrRefused
        (SheetText book.now sheet.now (tables plausible_counts.now feasible_counts.now up.now down.now))
        result out.new }
{
    let mut nodes = [0; room::NODE_PLACES];
    let mut groups = [0; room::GROUP_PLACES];
    let counts = numbering::group_sheet(
        book,
        sheet,
        plausible_counts,
        feasible_counts,
        up,
        down,
        &mut nodes,
        &mut groups,
    )?;
    print::accepted(out, book, sheet, counts, &nodes, &groups);
    Ok(())
}
