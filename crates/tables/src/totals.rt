// How many entries the two tables have, by the counts of the sets.
ghost use Rattle.std.specs.Prelude.{◌≡◌, ◌*◌, ◌^◌, ◌≤◌};
ghost use Rattle.chains.specs.Limits.{max_members, max_kids};
ghost use Rattle.book.specs.Format.{grammar};
ghost use Rattle.ranks.specs.Entries.{choices};
ghost use Rattle.tables.specs.Promise.{up_entries, down_entries};
ghost use Rattle.tables.specs.Shape.{Opened, Small, Countable, kinds_from};

use super::Counts;
use super::shape::Shape;

// The number of choices of a member for each child.
fn choices(v: Shape, counts: &[u8]) -> u64
    requires { Countable v counts.now }
    ensures { (result ≡ choices counts.now (kinds_from v 1)) × (result ≤ max_members ^ max_kids) }
{
    let mut product: u64 = 1;
    for child in v.children() {
        product *= counts[child.kind as usize] as u64;
    }
    product
}

// The entries of all productions. A down entry stands for a choice and a feasible grouping of the left kind.
pub fn totals(book: &[u8], places: &[usize], counts: &[u8], tally: &[u8]) -> Counts
    requires { Opened book.now places.now × Small book.now counts.now × Small book.now tally.now }
    ensures { (result.up ≡ up_entries (grammar book.now) counts.now) × (result.down ≡ down_entries (grammar book.now) counts.now tally.now) }
{
    let mut all = Counts { up: 0, down: 0 };
    for &at in places {
        let v = Shape::of(book, at);
        let many = choices(v, counts);
        all.up += many;
        all.down += tally[v.kind(0)] as u64 * many;
    }
    all
}
