// The walk over the production entries that refusals 6 and 7 share.
ghost use Rattle.std.specs.Prelude.{◌≡◌, ◌≤◌};
ghost use Rattle.book.specs.Format.{prods, grammar};
ghost use Rattle.bookcheck.specs.Search.{Tells, Finds, TrailerTold, Stands, Bad, alone};

use super::children::bad_kids;
use super::ties::bad_ties;
use book::{first_entry, next};

// Which refusal is sought: 6, over left kinds and children, or 7, over pairs.
#[derive(Clone, Copy)]
pub enum Row {
    Kids,
    Ties,
}

fn bad(book: &[u8], at: usize, row: Row, n: u8, first: u8) -> bool
    requires { Stands book.now at × TrailerTold book.now n first }
    ensures { Tells (Bad row (alone book.now at) 0) result }
{
    match row {
        Row::Kids => bad_kids(book, at, n, first),
        Row::Ties => bad_ties(book, at),
    }
}

// The first of the `m` productions that the row refuses, or `m`.
pub fn first_bad(book: &[u8], row: Row, n: u8, first: u8, m: u8) -> u8
    requires { TrailerTold book.now n first × (m ≡ prods book.now) }
    ensures { Finds (Bad row (grammar book.now)) m result }
{
    let mut at = first_entry(book);
    let mut p = 0;
    while p < m {
        if bad(book, at, row, n, first) {
            return p;
        }
        at = next(book, at);
        p += 1;
    }
    m
}
