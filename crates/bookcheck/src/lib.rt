// The check of a grammar book: refusals 1 to 8.
#![tactic(auto)]

mod children;
mod heads;
mod layout;
mod masks;
mod ties;
mod walk;

ghost use Rattle.std.specs.Prelude.{◌≡◌, ◌<◌};
ghost use Rattle.bookcheck.specs.Refusals.{BookDue};
ghost use Rattle.bookcheck.specs.Answer.{said};
ghost use Rattle.bookcheck.specs.Search.{Opened};

use book::{field, kinds, limits, productions, start};
use refusals::{Refusal, Refused};
use walk::Row;

// What an accepted book has.
#[derive(Clone, Copy, Debug, PartialEq, Eq)]
pub struct Counts {
    pub kinds: u16,
    pub productions: u16,
}

fn wide(x: u8) -> usize
    ensures { (result ≡ x) × (result < 256) }
{
    x as usize
}

fn word(x: u8) -> u16
    ensures { (result ≡ x) × (result < 256) }
{
    x as u16
}

fn span(x: u16) -> usize
    ensures { (result ≡ x) × (result < 65536) }
{
    x as usize
}

// Refusals 1 to 8, each sought over the whole book before the next.
pub fn check_book(book: &[u8]) -> Result<Counts, Refused>
    ensures { BookDue book.now (said result) }
{
    if book.len() < limits::TRAILER {
        return Err(Refusal::BookTooShort.at(0));
    }
    if field(book, 0) != limits::EDITION {
        return Err(Refusal::UnknownEdition.at(0));
    }
    if layout::out_of_range(book) {
        return Err(Refusal::OutOfRange.at(0));
    }
    if !layout::is_laid(book) {
        return Err(Refusal::BadLayout.at(0));
    }
    check_entries(
        book,
        kinds(book) as u8,
        productions(book) as u8,
        start(book) as u8,
    )
}

// Refusals 5 to 8, of a book that is laid out.
fn check_entries(book: &[u8], n: u8, m: u8, first: u8) -> Result<Counts, Refused>
    requires { Opened book.now n m first }
    ensures { BookDue book.now (said result) }
{
    let k = masks::first_bad_kind(book, n, first);
    if k < n {
        return Err(Refusal::BadKind.at(u16::from(k)));
    }
    let p = walk::first_bad(book, Row::Kids, n, first, m);
    if p < m {
        return Err(Refusal::BadChildren.at(u16::from(p)));
    }
    let q = walk::first_bad(book, Row::Ties, n, first, m);
    if q < m {
        return Err(Refusal::BadPairs.at(u16::from(q)));
    }
    let h = heads::first_headless(book, n, m);
    if h < n {
        return Err(Refusal::NoProduction.at(u16::from(h)));
    }
    Ok(Counts {
        kinds: u16::from(n),
        productions: u16::from(m),
    })
}
