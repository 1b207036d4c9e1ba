// Refusal 6: the left kind and the children of a production.
ghost use Rattle.std.specs.Prelude.{◌≡◌};
ghost use Rattle.bookcheck.specs.Refusals.{BadKids};
ghost use Rattle.bookcheck.specs.Search.{Tells, TrailerTold, Stands, alone};

use book::limits::MAX_CHILDREN;
use book::{arity, kid, left};

// Of the entry at `at`: a kind not below `n`, too many children, or the start `first` as a child.
pub fn bad_kids(book: &[u8], at: usize, n: u8, first: u8) -> bool
    requires { Stands book.now at × TrailerTold book.now n first }
    ensures { Tells (BadKids (alone book.now at) 0) result }
{
    if n <= left(book, at) {
        return true;
    }
    let k = arity(book, at);
    if MAX_CHILDREN < k {
        return true;
    }
    let mut j = 0;
    while j < k {
        let kind = kid(book, at, j);
        if n <= kind {
            return true;
        }
        if kind == first {
            return true;
        }
        j += 1;
    }
    false
}
