// The counts of the sets: none may be over the limit.
ghost use Rattle.std.specs.Prelude.{◌↔◌, ℕ, ◌<◌, IsTrue, length, get_or};
ghost use Rattle.chains.specs.Limits.{max_members};
ghost use Rattle.numbering.specs.Promise.{BigCount};
ghost use Rattle.numbering.specs.Parts.{grammar_in, tables_in};

use super::call::Call;
use book::limits::MAX_MEMBERS;

// Whether one of these is.
fn over(counts: &[u8]) -> bool
    ensures { IsTrue result ↔ ((k : ℕ) × (k < length counts.now) × (max_members < get_or counts.now k 0)) }
{
    counts.iter().any(|&count| MAX_MEMBERS < count)
}

// Whether a count of some kind is, in either slice.
pub fn too_many(call: &Call) -> bool
    ensures { IsTrue result ↔ BigCount (grammar_in call.now) (tables_in call.now) }
{
    let n = book::kinds(call.book) as usize;
    over(&call.tables.plausible_counts[..n]) || over(&call.tables.feasible_counts[..n])
}
