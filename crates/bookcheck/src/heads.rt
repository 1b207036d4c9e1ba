// Refusal 8: each kind has a production. One walk marks the left kinds; a kind without a mark is refused.
ghost use Rattle.std.specs.Prelude.{◌≡◌, ◌≤◌};
ghost use Rattle.lists.specs.Sought.{Free};
ghost use Rattle.chains.specs.Limits.{max_kinds};
ghost use Rattle.book.specs.Format.{prods, kinds, grammar, Laid};
ghost use Rattle.bookcheck.specs.Refusals.{BadKids, Headless};
ghost use Rattle.bookcheck.specs.Search.{Finds, Marks, Markable};

use super::wide;
use book::limits::MAX_KINDS;
use book::{first_entry, left, next};

// 1 at each left kind of the `m` productions, 0 elsewhere.
fn marks(book: &[u8], m: u8) -> [u8; MAX_KINDS as usize]
    requires { Markable book.now m }
    ensures { Marks book.now m result }
{
    let mut seen = [0u8; MAX_KINDS as usize];
    let mut at = first_entry(book);
    let mut p = 0;
    while p < m {
        seen[wide(left(book, at))] = 1;
        at = next(book, at);
        p += 1;
    }
    seen
}

// The first of the `n` kinds that has no production, or `n`.
pub fn first_headless(book: &[u8], n: u8, m: u8) -> u8
    requires { Markable book.now m × (n ≤ max_kinds) }
    ensures { Finds (Headless (grammar book.now)) n result }
{
    let seen = marks(book, m);
    let mut k = 0;
    while k < n {
        if seen[wide(k)] == 0 {
            return k;
        }
        k += 1;
    }
    n
}
