// Where each production's entries begin in the two tables, worked out once for a call.
ghost use Rattle.std.specs.Prelude.{◌≡◌, ℕ, suc, ◌+◌, ◌^◌, ◌≤◌, ◌<◌, get_or};
ghost use Rattle.chains.specs.Limits.{max_kids};
ghost use Rattle.book.specs.Format.{prods, grammar};
ghost use Rattle.ranks.specs.Entries.{choices, byte_values};
ghost use Rattle.numbering.specs.Parts.{Starts, UpStarts, DownStarts};

use super::call::Call;
use super::limits::PRODUCTIONS;

// The number of choices for the children of production p.
fn choices_of(call: &Call, p: u8) -> u64
    requires { p < prods call.now.book.now }
    ensures is { result ≡ choices call.now.tables.plausible_counts.now ((grammar call.now.book.now).kids p) }
    ensures small { result ≤ byte_values ^ max_kids }
{
    let mut product: u64 = 1;
    for &kind in call.kids(p) {
        let count = call.tables.plausible_counts[kind as usize];
        product *= count as u64;
    }
    product
}

// The productions' entries follow one another, and production p has so many.
fn starts<F: Fn(u8) -> u64>(call: &Call, entries: F) -> [u64; PRODUCTIONS]
    requires asked { (p : ℕ) → p < prods call.now.book.now → F.pre entries p }
    requires small { (p n : ℕ) → p < prods call.now.book.now → F.post entries p n → n ≤ byte_values ^ suc max_kids }
    ensures { (S : ℕ → ℕ) → ((p n : ℕ) → p < prods call.now.book.now → F.post entries p n → S (suc p) ≡ S p + n)
        → S 0 ≡ 0 → Starts call.now S result }
{
    let count = book::productions(call.book) as u8;
    let mut starts = [0; PRODUCTIONS];
    let mut next = 0;
    for p in 0..count {
        starts[p as usize] = next;
        next += entries(p);
    }
    starts
}

// In the up table a production has an entry for each choice.
pub fn up_starts(call: &Call) -> [u64; PRODUCTIONS]
    ensures { UpStarts call.now result }
{
    starts(call, |p| choices_of(call, p))
}

// In the down table it has one for each feasible rank of its left kind, and each choice.
pub fn down_starts(call: &Call) -> [u64; PRODUCTIONS]
    ensures { DownStarts call.now result }
{
    starts(call, |p| {
        let ranks = call.tables.feasible_counts[call.left(p) as usize];
        ranks as u64 * choices_of(call, p)
    })
}
