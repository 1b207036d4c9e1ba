// The tree sheet: the check of refusals 20 to 23, after 1 to 8 of its book.
#![tactic(auto)]

pub mod limits;
mod reader;

ghost use Rattle.sheet.specs.Answer.{said};
ghost use Rattle.sheet.specs.Refusals.{SheetDue};

use refusals::Refused;

// Nodes of a sheet, all or the first so many, and their settings.
#[derive(Clone, Copy, Debug, PartialEq, Eq)]
pub struct Counts {
    pub nodes: u16,
    pub settings: u16,
}

// Refusals 1 to 8 of the book, then 20, then 21 to 23 sought together, from the first byte on.
pub fn check_sheet(book: &[u8], sheet: &[u8]) -> Result<Counts, Refused>
    ensures { SheetDue book.now sheet.now (said result) }
{
    bookcheck::check_book(book)?;
    reader::read(book, sheet)
}
