// Refusal 7: the pairs of a production.
ghost use Rattle.std.specs.Prelude.{◌≡◌, ◌<◌};
ghost use Rattle.chains.specs.Grammar.{Exists, Target};
ghost use Rattle.book.specs.Format.{occ, pairs_at};
ghost use Rattle.bookcheck.specs.Refusals.{BadTies};
ghost use Rattle.bookcheck.specs.Search.{Tells, Stands, alone, Fair, Climbs};

use book::{arity, from, kind_in, mask, pairs, settings, to};
use occurrence::{setting, slot};

// Whether the entry at `at` has an occurrence `o`.
fn exists(book: &[u8], at: usize, o: u8) -> bool
    requires { Stands book.now at }
    ensures { Tells (Exists (alone book.now at) 0 (occ o)) result }
{
    let s = slot(o);
    if arity(book, at) < s {
        return false;
    }
    setting(o) < settings(book, kind_in(book, at, s))
}

// Whether the entry may work `o` out: a synthesized setting of its left kind, an inherited one of a child.
fn is_target(book: &[u8], at: usize, o: u8) -> bool
    requires { Stands book.now at × Exists (alone book.now at) 0 (occ o) }
    ensures { Tells (Target (alone book.now at) 0 (occ o)) result }
{
    let s = slot(o);
    let bit = (mask(book, kind_in(book, at, s)) >> setting(o)) & 1;
    if s == 0 {
        return bit == 0;
    }
    bit == 1
}

// Whether pair `i` names two occurrences, the first of which may be worked out.
fn is_fair(book: &[u8], at: usize, i: u8) -> bool
    requires { Stands book.now at × (i < pairs_at book.now at) }
    ensures { Tells (Fair book.now at i) result }
{
    let o = to(book, at, i);
    if !exists(book, at, o) {
        return false;
    }
    if !exists(book, at, from(book, at, i)) {
        return false;
    }
    is_target(book, at, o)
}

// Whether pair `i` is the last of the `d`, or is followed by a greater one.
fn climbs(book: &[u8], at: usize, i: u8, d: u8) -> bool
    requires { Stands book.now at × (i < d) × (d ≡ pairs_at book.now at) }
    ensures { Tells (Climbs book.now at i) result }
{
    let next = i + 1;
    if next == d {
        return true;
    }
    let o = to(book, at, i);
    if o == to(book, at, next) {
        return from(book, at, i) < from(book, at, next);
    }
    o < to(book, at, next)
}

pub fn bad_ties(book: &[u8], at: usize) -> bool
    requires { Stands book.now at }
    ensures { Tells (BadTies (alone book.now at) 0) result }
{
    let d = pairs(book, at);
    let mut i = 0;
    while i < d {
        if !is_fair(book, at, i) {
            return true;
        }
        if !climbs(book, at, i, d) {
            return true;
        }
        i += 1;
    }
    false
}
