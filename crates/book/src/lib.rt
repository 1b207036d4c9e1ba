// The grammar book: what its bytes say.
//
// An accessor takes the book and, for a production, the place of its entry. It answers for every book and every place:
// 0 where what is asked for is not there. Of an accepted book each is a field of the grammar (crates/bookcheck/proofs/Accepted.antt).
#![tactic(auto)]

pub mod limits;

ghost use Rattle.std.specs.Prelude.{◌≡◌, ◌+◌, ◌*◌, ◌<◌, ◌≤◌, min, length, get_or};
ghost use Rattle.book.specs.Format.{arity_at, left_at, after_kids, pairs_at, pair_place, next_at, entry, entry_most};
ghost use Rattle.chains.specs.Limits.{max_prods};
ghost use Rattle.book.specs.Reading.{told, settings_of, mask_of, kid_at, kind_in, to_at, from_at, following, Index};

use limits::TRAILER;

// The byte `off` bytes after `at`, or 0 past the end.
fn byte(book: &[u8], at: usize, off: usize) -> u8
    ensures { result ≡ get_or book.now (at + off) 0 }
{
    book.get(at..)
        .and_then(|entry| entry.get(off))
        .copied()
        .unwrap_or(0)
}

// Field `i` of the trailer, the low byte first, or 0 where there is none.
pub fn field(book: &[u8], i: usize) -> u16
    ensures { result ≡ told book.now i }
{
    let Some(trailer) = book.last_chunk::<TRAILER>() else {
        return 0;
    };
    let (fields, _) = trailer.as_chunks::<2>();
    fields.get(i).copied().map_or(0, u16::from_le_bytes)
}

pub fn kinds(book: &[u8]) -> u16
    ensures { result ≡ told book.now 1 }
{
    field(book, 1)
}

pub fn productions(book: &[u8]) -> u16
    ensures { result ≡ told book.now 2 }
{
    field(book, 2)
}

pub fn start(book: &[u8]) -> u16
    ensures { result ≡ told book.now 3 }
{
    field(book, 3)
}

// How many settings a kind has.
pub fn settings(book: &[u8], kind: u8) -> u8
    ensures { result ≡ settings_of book.now kind }
{
    byte(book, 2 * usize::from(kind), 0)
}

// A kind's mask: bit i is set when setting i is inherited.
pub fn mask(book: &[u8], kind: u8) -> u8
    ensures { result ≡ mask_of book.now kind }
{
    byte(book, 2 * usize::from(kind), 1)
}

// The left kind of the production whose entry stands at `at`.
pub fn left(book: &[u8], at: usize) -> u8
    ensures { result ≡ left_at book.now at }
{
    byte(book, at, 0)
}

// Its number of children.
pub fn arity(book: &[u8], at: usize) -> u8
    ensures { result ≡ arity_at book.now at }
{
    byte(book, at, 1)
}

// The kind of its child `j`, from 0.
pub fn kid(book: &[u8], at: usize, j: u8) -> u8
    ensures { result ≡ kid_at book.now at j }
{
    byte(book, at, 2 + usize::from(j))
}

// The kind of its slot `s`: 0 is the left kind, then the children.
pub fn kind_in(book: &[u8], at: usize, s: u8) -> u8
    ensures { result ≡ kind_in book.now at s }
{
    if s == 0 {
        left(book, at)
    } else {
        kid(book, at, s - 1)
    }
}

// How far behind `at` its children end: the number of its pairs stands there, then the pairs.
fn behind_kids(book: &[u8], at: usize) -> usize
    ensures place { at + result ≡ after_kids book.now at }
    ensures near { result < 2 + 256 }
{
    2 + usize::from(arity(book, at))
}

// How far behind `at` its pair `i` stands.
fn pair_offset(book: &[u8], at: usize, i: u8) -> usize
    ensures place { at + result ≡ pair_place book.now at i }
    ensures near { result ≤ entry_most }
{
    behind_kids(book, at) + 1 + 2 * usize::from(i)
}

// Its number of pairs.
pub fn pairs(book: &[u8], at: usize) -> u8
    ensures { result ≡ pairs_at book.now at }
{
    byte(book, at, behind_kids(book, at))
}

// The occurrence that its pair `i` works out, from 0.
pub fn to(book: &[u8], at: usize, i: u8) -> u8
    ensures { result ≡ to_at book.now at i }
{
    byte(book, at, pair_offset(book, at, i))
}

// The occurrence that its pair `i` works it out from.
pub fn from(book: &[u8], at: usize, i: u8) -> u8
    ensures { result ≡ from_at book.now at i }
{
    byte(book, at, pair_offset(book, at, i) + 1)
}

// The place of the entry after the one at `at`, or 0 where `at` is past the book.
pub fn next(book: &[u8], at: usize) -> usize
    ensures { result ≡ following book.now at }
{
    if at < book.len() { step(book, at) } else { 0 }
}

// The same where the sum is known to fit.
fn step(book: &[u8], at: usize) -> usize
    requires { at ≤ length book.now + max_prods * entry_most }
    ensures place { result ≡ next_at book.now at }
    ensures near { result ≤ at + entry_most }
{
    at + pair_offset(book, at, pairs(book, at))
}

// The place of the first entry: the trailer points back to it.
pub fn first_entry(book: &[u8]) -> usize
    ensures { result ≡ entry book.now 0 }
{
    let back = usize::from(field(book, 5));
    book.len().saturating_sub(TRAILER + back)
}

// The places of all entries, found in one walk.
pub fn index(book: &[u8]) -> [usize; limits::MAX_PRODUCTIONS as usize]
    ensures { Index book.now result }
{
    let n = usize::from(productions(book).min(limits::MAX_PRODUCTIONS));
    let mut places = [0; limits::MAX_PRODUCTIONS as usize];
    let mut at = first_entry(book);
    for place in &mut places[..n] {
        *place = at;
        at = step(book, at);
    }
    places
}
