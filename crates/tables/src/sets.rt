// The sets of all kinds in lent memory: MAX_MEMBERS places for each kind, and its count beside it.
ghost use Rattle.std.specs.Prelude.{◌≡◌, ◌*◌, ◌≤◌, length};
ghost use Rattle.chains.specs.Limits.{max_members};
ghost use Rattle.book.specs.Format.{kinds};
ghost use Rattle.bookcheck.specs.Accepted.{Accepted};
ghost use Rattle.zeros.specs.Zeros.{cleared};

pub const MAX_MEMBERS: usize = book::limits::MAX_MEMBERS as usize;

// No kind of the book has a member: so a pass begins, whatever stood there before.
pub fn clear(book: &[u8], codes: &mut [u32], counts: &mut [u8])
    requires { Accepted book.now × (kinds book.now * max_members ≤ length codes.old) × (kinds book.now ≤ length counts.old) }
    ensures codes { codes.new ≡ cleared (kinds book.now * max_members) codes.old }
    ensures counts { counts.new ≡ cleared (kinds book.now) counts.old }
{
    let n = book::kinds(book) as usize;
    zeros::clear(codes, n * MAX_MEMBERS);
    zeros::clear(counts, n);
}
