// The walk that reads a sheet: it calls itself once for each child, with the levels left as the number that falls.
ghost use Rattle.std.specs.Prelude.{◌<◌, ◌≤◌, length};
ghost use Rattle.chains.specs.Limits.{max_nodes};
ghost use Rattle.book.specs.Reading.{Index};
ghost use Rattle.sheet.specs.Answer.{said};
ghost use Rattle.sheet.specs.Refusals.{SheetDue};
ghost use Rattle.sheet.specs.Trees.{Sound};
ghost use Rattle.sheet.specs.Walk.{Standing, Looked, Walked, Finished};

use super::{Counts, limits};
use refusals::{Refusal, Refused};

// A sheet of lawful length, and the accepted book that it is read against, whose entries stand at `places`.
#[derive(Drop)]
struct Reader<'a> {
    book: &'a [u8],
    places: [usize; book::limits::MAX_PRODUCTIONS as usize],
    sheet: &'a [u8],
    ghost sound: { Sound book.now },
    ghost indexed: { Index book.now places },
    ghost some_nodes: { 0 < length sheet.now },
    ghost few_nodes: { length sheet.now ≤ max_nodes },
}

impl Reader<'_> {
    // The place of the entry of the production at `at`, where a node of the kind is due, with so many levels left.
    // At one position 21 is sought first, then 22, then 23: a byte at level 65 is still looked at.
    fn node_at(&self, at: u16, kind: u8, levels: u8) -> Result<usize, Refused>
        requires { at ≤ length self.now.sheet.now }
        ensures { Looked self.now.book.now self.now.sheet.now at kind levels result }
    {
        let Some(&p) = self.sheet.get(usize::from(at)) else {
            return Err(Refusal::Misfit.at(at));
        };
        if book::productions(self.book) <= u16::from(p) {
            return Err(Refusal::UnknownProduction.at(at));
        }
        let entry = self.places[usize::from(p)];
        if book::left(self.book, entry) != kind {
            return Err(Refusal::Misfit.at(at));
        }
        if levels == 0 {
            return Err(Refusal::TooDeep.at(at));
        }
        Ok(entry)
    }

    // Reads the subtree that is due after the nodes counted before, one of the kind, with so many levels left.
    // The answer counts all nodes up to its end.
    fn subtree(&self, before: Counts, kind: u8, levels: u8) -> Result<Counts, Refused>
        requires { Standing self.now.book.now self.now.sheet.now before }
        ensures { Walked self.now.book.now self.now.sheet.now before.nodes kind levels result }
    {
        let entry = self.node_at(before.nodes, kind, levels)?;
        let mut counts = Counts {
            nodes: before.nodes + 1,
            settings: before.settings + u16::from(book::settings(self.book, kind)),
        };
        for j in 0..book::arity(self.book, entry) {
            let due = book::kid(self.book, entry, j);
            counts = self.subtree(counts, due, levels - 1)?;
        }
        Ok(counts)
    }

    // Nothing more is due after the nodes counted. A byte left over is still looked at: 21 comes before 22.
    fn finish(&self, counts: Counts) -> Result<Counts, Refused>
        requires { Finished self.now.book.now self.now.sheet.now counts }
        ensures { SheetDue self.now.book.now self.now.sheet.now (said result) }
    {
        let Some(&p) = self.sheet.get(usize::from(counts.nodes)) else {
            return Ok(counts);
        };
        if book::productions(self.book) <= u16::from(p) {
            return Err(Refusal::UnknownProduction.at(counts.nodes));
        }
        Err(Refusal::Misfit.at(counts.nodes))
    }
}

// The sheet against a book that has been accepted.
pub fn read(book: &[u8], sheet: &[u8]) -> Result<Counts, Refused>
    requires { Sound book.now }
    ensures { SheetDue book.now sheet.now (said result) }
{
    if sheet.is_empty() || limits::MAX_NODES < sheet.len() {
        return Err(Refusal::BadSheetSize.at(0));
    }
    let reader = Reader {
        book,
        places: book::index(book),
        sheet,
    };
    let none = Counts {
        nodes: 0,
        settings: 0,
    };
    let root = book::start(book) as u8;
    let counts = reader.subtree(none, root, limits::MAX_LEVELS)?;
    reader.finish(counts)
}
