// Refusal 5: the kind entries.
ghost use Rattle.std.specs.Prelude.{◌≡◌};
ghost use Rattle.book.specs.Format.{grammar};
ghost use Rattle.bookcheck.specs.Refusals.{BadKind};
ghost use Rattle.bookcheck.specs.Search.{Tells, Finds, TrailerTold};

use super::word;
use book::limits::MAX_SETTINGS;
use book::{mask, settings};

// Too many settings, an inherited setting that is none, or an inherited one of the start `first`.
fn bad_kind(book: &[u8], n: u8, first: u8, k: u8) -> bool
    requires { TrailerTold book.now n first }
    ensures { Tells (BadKind (grammar book.now) k) result }
{
    let a = settings(book, k);
    if MAX_SETTINGS < a {
        return true;
    }
    let inherited = word(mask(book, k));
    if 0 < inherited >> a {
        return true;
    }
    if k == first {
        return 0 < inherited;
    }
    false
}

// The first of the `n` kinds that is refused, or `n`.
pub fn first_bad_kind(book: &[u8], n: u8, first: u8) -> u8
    requires { TrailerTold book.now n first }
    ensures { Finds (BadKind (grammar book.now)) n result }
{
    let mut k = 0;
    while k < n {
        if bad_kind(book, n, first, k) {
            return k;
        }
        k += 1;
    }
    n
}
