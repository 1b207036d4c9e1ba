// What the program prints, gathered in a text: a refusal, or a line of totals and a line for each node.
ghost use Rattle.std.specs.Prelude.{◌+◌, ◌*◌, ◌<◌, ◌≡◌, [], ◌∷◌, length};
ghost use Rattle.lists.specs.Refusals.{accepted};
ghost use Rattle.refusals.specs.Table.{number_of};
ghost use Rattle.book.specs.Format.{prods, grammar};
ghost use Rattle.book.specs.Reading.{Index};
ghost use Rattle.bookcheck.specs.Accepted.{Accepted};
ghost use Rattle.numbering.specs.Promise.{lent};
ghost use Rattle.numbering.specs.Places.{plausible_rank, feasible_rank, down_entry_of};
ghost use Rattle.text.specs.Decimals.{decimals};
ghost use Rattle.groups.specs.Printed.{blank, refusal, totals, line, lines, printed};
ghost use Rattle.groups.specs.Adding.{Adds, Printable};

use crate::room;
use book::limits::MAX_PRODUCTIONS;
use numbering::Counts;
use refusals::Refused;

// A text with room for whatever is printed.
pub type Out = text::Text<{ room::TEXT }>;

// A node's three places.
const PLAUSIBLE: usize = 0;

const FEASIBLE: usize = 1;

const ENTRY: usize = 2;

// A number after a blank.
fn next_number(out: &mut Out, n: u64)
    ensures { Adds out.old (blank ∷ decimals n) out.new }
{
    out.add(b" ");
    out.add_decimal(n);
}

pub fn refused(out: &mut Out, refused: Refused)
    ensures { out.new ≡ refusal (number_of refused.refusal) refused.place }
{
    out.clear();
    out.add(b"refused");
    next_number(out, refused.refusal.number() as u64);
    next_number(out, refused.place as u64);
    out.add(b"\n");
}

pub fn accepted(
    out: &mut Out,
    book: &[u8],
    sheet: &[u8],
    counts: Counts,
    nodes: &[u64],
    groups: &[u16],
)
    requires { Printable book.now sheet.now (lent nodes.now groups.now) }
    ensures { out.new ≡ printed book.now sheet.now (accepted (counts.nodes ∷ counts.settings ∷ counts.groups ∷ []))
        (lent nodes.now groups.now) }
{
    out.clear();
    first_line(out, counts);
    node_lines(out, book, sheet, nodes, groups);
}

fn first_line(out: &mut Out, counts: Counts)
    ensures { Adds out.old (totals (counts.nodes ∷ counts.settings ∷ counts.groups ∷ [])) out.new }
{
    out.add(b"ok");
    next_number(out, counts.nodes as u64);
    next_number(out, counts.settings as u64);
    next_number(out, counts.groups as u64);
    out.add(b"\n");
}

// A line for each node of the sheet; the group numbers of a node's settings follow those of the nodes before it.
fn node_lines(out: &mut Out, book: &[u8], sheet: &[u8], nodes: &[u64], groups: &[u16])
    requires { Printable book.now sheet.now (lent nodes.now groups.now) }
    ensures { Adds out.old (lines (grammar book.now) sheet.now (lent nodes.now groups.now) (length sheet.now)) out.new }
{
    let places = book::index(book);
    let mut rest = groups;
    for (i, &production) in sheet.iter().enumerate() {
        let (own, next) = rest.split_at(settings(book, &places, production));
        node_line(out, i, production, nodes, own);
        rest = next;
    }
}

// Position, production, plausible rank, feasible rank, down entry, group numbers.
fn node_line(out: &mut Out, i: usize, production: u8, nodes: &[u64], groups: &[u16])
    requires { 3 * i + 2 < length nodes.now }
    ensures { Adds out.old
        (line i production (plausible_rank nodes.now i) (feasible_rank nodes.now i) (down_entry_of nodes.now i) groups.now)
        out.new }
{
    out.add_decimal(i as u64);
    next_number(out, production as u64);
    next_number(out, nodes[3 * i + PLAUSIBLE]);
    next_number(out, nodes[3 * i + FEASIBLE]);
    next_number(out, nodes[3 * i + ENTRY]);
    for &group in groups {
        next_number(out, group as u64);
    }
    out.add(b"\n");
}

// The settings of a production's left kind.
fn settings(book: &[u8], places: &[usize; MAX_PRODUCTIONS as usize], production: u8) -> usize
    requires { Accepted book.now × Index book.now places.now × (production < prods book.now) }
    ensures { result ≡ (grammar book.now).settings ((grammar book.now).left production) }
{
    book::settings(book, book::left(book, places[production as usize])) as usize
}
