// The input taken apart: where the sheet ends and the book begins.
ghost use Rattle.std.specs.Prelude.{MatchOption};
ghost use Rattle.groups.specs.Input.{Thirty, Cut};

use book::limits::{MAX_CHILDREN, MAX_KINDS, MAX_PRODUCTIONS, TRAILER};
use sheet::limits::MAX_NODES;

// Bytes of the largest book: its kinds, its productions with all children and all pairs that a byte can count, its trailer.
const MOST_BOOK: usize = 2 * MAX_KINDS as usize
    + MAX_PRODUCTIONS as usize * (3 + MAX_CHILDREN as usize + 2 * 255)
    + TRAILER;

// The largest input: two bytes of length, a sheet and a book.
pub const MOST: usize = 2 + MAX_NODES + MOST_BOOK;

// The sheet, which is as long as its length says, and the book, which is what follows.
pub fn cut(bytes: &[u8]) -> Option<(&[u8], &[u8])>
    ensures { MatchOption result (Thirty bytes.now) (λ p. Cut bytes.now p.0.now p.1.now) }
{
    if MOST < bytes.len() {
        return None;
    }
    let (length, rest) = bytes.split_first_chunk()?;
    rest.split_at_checked(u16::from_le_bytes(*length).into())
}
