// Refusals 3 and 4: the ranges that the trailer keeps to, and the lie of the three parts.
ghost use Rattle.std.specs.Prelude.{◌≡◌, ◌≤◌, length};
ghost use Rattle.book.specs.Format.{trailer_bytes, trailer, Walks, Laid};
ghost use Rattle.bookcheck.specs.Refusals.{OutOfRange};
ghost use Rattle.bookcheck.specs.Search.{Tells};

use super::span;
use book::limits::{MAX_KINDS, MAX_PRODUCTIONS, TRAILER};
use book::{field, kinds, next, productions, start};

pub fn out_of_range(book: &[u8]) -> bool
    requires { trailer_bytes ≤ length book.now }
    ensures { Tells (OutOfRange book.now) result }
{
    let n = kinds(book);
    if n < 1 {
        return true;
    }
    if MAX_KINDS < n {
        return true;
    }
    let m = productions(book);
    if m < 1 {
        return true;
    }
    if MAX_PRODUCTIONS < m {
        return true;
    }
    n <= start(book)
}

// Whether `n` entries from `at` on end exactly at the trailer, none running past it.
fn walks(book: &[u8], n: u16, at: usize) -> bool
    requires { (trailer_bytes ≤ length book.now) × (at ≤ trailer book.now) }
    ensures { Tells (Walks book.now n at (trailer book.now)) result }
{
    let end = book.len() - TRAILER;
    let mut here = at;
    let mut rest = n;
    while 0 < rest {
        here = next(book, here);
        if end < here {
            return false;
        }
        rest -= 1;
    }
    here == end
}

// Whether both distances are right and the entries fill what lies between.
pub fn is_laid(book: &[u8]) -> bool
    requires { trailer_bytes ≤ length book.now }
    ensures { Tells (Laid book.now) result }
{
    let end = book.len() - TRAILER;
    if span(field(book, 4)) != end {
        return false;
    }
    let back = span(field(book, 5));
    if back + 2 * span(kinds(book)) != end {
        return false;
    }
    walks(book, productions(book), end - back)
}
