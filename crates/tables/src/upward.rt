// The upward pass: the plausible groupings of every kind.
ghost use Rattle.std.specs.Prelude.{ℕ, suc, ◌*◌, ◌≤◌, length};
ghost use Rattle.chains.specs.Limits.{max_kids, max_members};
ghost use Rattle.chains.specs.Plausible.{Plausible};
ghost use Rattle.book.specs.Format.{arity_at, kinds, grammar};
ghost use Rattle.book.specs.Reading.{kind_in};
ghost use Rattle.members.specs.Sets.{Placed};
ghost use Rattle.tables.specs.Shape.{Opened};
ghost use Rattle.tables.specs.Visit.{Opening};
ghost use Rattle.tables.specs.Sweep.{Outcome};

use super::ranked::Sets;
use super::sets::clear;
use super::sweep::{Pass, close};
use super::visit::Visit;
use members::Full;

// The children in turn, from the first; the results are seen on the left kind.
fn prepare_up(book: &[u8], at: usize, sets: Sets) -> Visit
    requires { (arity_at book.now at ≤ max_kids)
        × ((i : ℕ) → i ≤ arity_at book.now at → Placed sets.codes.now sets.counts.now (kind_in book.now at i)) }
    ensures { Opening book.now at 0 suc (λ i. sets.entry.codes.now) (λ i. sets.entry.counts.now) result (arity_at book.now at) }
{
    let mut v = Visit::looking_at(book, at, 0);
    for j in 0..book::arity(book, at) {
        v.open(j + 1, book, at, sets);
    }
    v
}

// The book, and the places of its entries.
#[derive(Clone, Copy)]
struct Upwards<'a> {
    book: &'a [u8],
    places: &'a [usize],
}

impl<'a> Pass for Upwards<'a> {
    ghost use Rattle.tables.specs.Upward.{up_steps};

    ghost steps = { λ u. up_steps u.book.now u.places.now };

    fn productions(&self) -> usize {
        self.places.len()
    }

    // By the children's kinds.
    fn watched(&self, p: usize, counts: &[u8]) -> u16 {
        let at = self.places[p];
        let mut sum = 1;
        for i in 0..book::arity(self.book, at) {
            sum += counts[book::kid(self.book, at, i) as usize] as u16;
        }
        sum
    }

    // All results of the production, put into its left kind's set.
    fn serve(&self, p: usize, sets: &mut [u32], counts: &mut [u8]) -> Result<bool, Full> {
        let at = self.places[p];
        prepare_up(
            self.book,
            at,
            Sets {
                codes: sets,
                counts,
            },
        )
        .make(self.book, at, sets, counts)
    }
}

// The plausible groupings of every kind, unless some kind has more than a set can hold. Whatever stood in the sets before decides nothing.
pub fn upward(
    book: &[u8],
    places: &[usize],
    sets: &mut [u32],
    counts: &mut [u8],
) -> Result<(), Full>
    requires { Opened book.now places.now × (kinds book.now * max_members ≤ length sets.old) × (kinds book.now ≤ length counts.old) }
    ensures { Outcome (kinds book.now) (Plausible (grammar book.now))
        sets.old counts.old sets.new counts.new result }
{
    clear(book, sets, counts);
    close(&Upwards { book, places }, sets, counts)
}
