// The downward pass: the feasible groupings of every kind, from the plausible ones.
ghost use Rattle.std.specs.Prelude.{◌≡◌, ◌+◌, ◌*◌, ◌<◌, ◌≤◌, length};
ghost use Rattle.chains.specs.Limits.{max_members};
ghost use Rattle.chains.specs.Plausible.{Plausible};
ghost use Rattle.chains.specs.Feasible.{Feasible};
ghost use Rattle.book.specs.Format.{kinds, grammar};
ghost use Rattle.book.specs.Reading.{told};
ghost use Rattle.members.specs.Sets.{Placed};
ghost use Rattle.tables.specs.Shape as shape;
ghost use Rattle.tables.specs.Sweep.{Exact, Outcome};
ghost use Rattle.tables.specs.Downward.{slot_down, down_steps, Seeded};

use super::ranked::Sets;
use super::sets::{MAX_MEMBERS, clear};
use super::sweep::{Pass, close};
use super::visit::Visit;
use members::Full;

// The slot of turn j in a visit for the child in slot t, which is tied last.
fn slot_down(t: u8, j: u8) -> u8
    ensures { result ≡ slot_down t j }
{
    if j == 0 {
        t
    } else if t < j {
        j
    } else {
        j - 1
    }
}

// The book, the places of its entries, and the plausible groupings.
#[derive(Clone, Copy)]
struct Downwards<'a> {
    book: &'a [u8],
    places: &'a [usize],
    plausible: Sets<'a>,
}

impl<'a> Downwards<'a> {
    ghost use Rattle.std.specs.Prelude.{ℕ, suc};
    ghost use Rattle.chains.specs.Limits.{max_kids};
    ghost use Rattle.book.specs.Format.{arity_at};
    ghost use Rattle.book.specs.Reading.{kind_in};
    ghost use Rattle.tables.specs.Memory.{Fine, Turned};
    ghost use Rattle.tables.specs.Visit.{max_turns, Opened, Opening};
    ghost use Rattle.tables.specs.Sweep.{Since};
    ghost use Rattle.tables.specs.Downward.{given};

    // A turn more: the left kind has its feasible groupings to choose from, a child its plausible ones.
    fn open(&self, v: &mut Visit, slot: u8, at: usize, feasible: Sets)
        requires { (v.old.opened < max_turns)
            × Placed self.now.plausible.codes.now self.now.plausible.counts.now (kind_in self.now.book.now at slot)
            × Placed feasible.codes.now feasible.counts.now (kind_in self.now.book.now at slot) }
        ensures { Opened self.now.book.now at (given feasible.entry.codes.now self.now.plausible.codes.now slot)
            (given feasible.entry.counts.now self.now.plausible.counts.now slot) v.old slot v.new }
    {
        if slot == 0 {
            v.open(slot, self.book, at, feasible);
        } else {
            v.open(slot, self.book, at, self.plausible);
        }
    }

    // All slots in turn; the results are seen on the child in slot t.
    fn prepare(&self, at: usize, t: u8, feasible: Sets) -> Visit
        requires { (arity_at self.now.book.now at ≤ max_kids) × (t ≤ arity_at self.now.book.now at)
            × ((i : ℕ) → i ≤ arity_at self.now.book.now at
            → Placed self.now.plausible.codes.now self.now.plausible.counts.now (kind_in self.now.book.now at i)
            × Placed feasible.codes.now feasible.counts.now (kind_in self.now.book.now at i)) }
        ensures { Opening self.now.book.now at t (slot_down t)
            (λ i. given feasible.entry.codes.now self.now.plausible.codes.now (slot_down t i))
            (λ i. given feasible.entry.counts.now self.now.plausible.counts.now (slot_down t i)) result (suc (arity_at self.now.book.now at)) }
    {
        let mut v = Visit::looking_at(self.book, at, t);
        for j in 0..=book::arity(self.book, at) {
            self.open(&mut v, slot_down(t, j), at, feasible);
        }
        v
    }

    // All results of production p, over the sets as they stand, put into the set of its child j, from 0 on.
    fn visit(&self, p: usize, j: u8, feasible: &mut [u32], tally: &mut [u8]) -> Result<bool, Full>
        requires { let q = down_steps self.now.book.now self.now.places.now self.now.plausible.codes.now self.now.plausible.counts.now in
            q.leans × (p < q.prods) × (j < q.many p) × Fine q.kinds q.may feasible.old tally.old }
        ensures { let q = down_steps self.now.book.now self.now.places.now self.now.plausible.codes.now self.now.plausible.counts.now in
            Turned q.kinds q.may (Since q.kinds (q.step p j) (q.into p j) feasible.old tally.old feasible.new tally.new)
            feasible.old tally.old feasible.new tally.new result }
    {
        let at = self.places[p];
        let sets = Sets {
            codes: feasible,
            counts: tally,
        };
        self.prepare(at, j + 1, sets)
            .make(self.book, at, feasible, tally)
    }
}

impl<'a> Pass for Downwards<'a> {
    ghost steps = { λ d. down_steps d.book.now d.places.now d.plausible.codes.now d.plausible.counts.now };

    fn productions(&self) -> usize {
        self.places.len()
    }

    // By the left kind.
    fn watched(&self, p: usize, counts: &[u8]) -> u16 {
        counts[book::left(self.book, self.places[p]) as usize] as u16 + 1
    }

    // A visit for each child.
    fn serve(&self, p: usize, sets: &mut [u32], counts: &mut [u8]) -> Result<bool, Full> {
        let mut added = false;
        for j in 0..book::arity(self.book, self.places[p]) {
            added |= self.visit(p, j, sets, counts)?;
        }
        Ok(added)
    }
}

// The start's feasible groupings are its plausible ones.
fn seed(book: &[u8], plausible: Sets, feasible: &mut [u32], tally: &mut [u8])
    requires { Placed plausible.codes.now plausible.counts.now (told book.now 3) × (told book.now 3 * max_members + max_members ≤ length feasible.old)
        × (told book.now 3 < length tally.old) }
    ensures { Seeded (told book.now 3) plausible.entry.codes.now plausible.entry.counts.now feasible.old tally.old feasible.new tally.new }
{
    let k = book::start(book) as usize;
    let members = plausible.members(k);
    let base = k * MAX_MEMBERS;
    feasible[base..base + members.len()].copy_from_slice(members);
    tally[k] = plausible.counts[k];
}

// The feasible groupings of every kind, from the plausible ones, unless some kind has more than a set can hold. Whatever stood in the sets before
// decides nothing.
pub fn downward(
    book: &[u8],
    places: &[usize],
    plausible: Sets,
    feasible: &mut [u32],
    tally: &mut [u8],
) -> Result<(), Full>
    requires { shape.Opened book.now places.now × Exact (kinds book.now) (Plausible (grammar book.now)) plausible.codes.now plausible.counts.now
        × (kinds book.now * max_members ≤ length feasible.old) × (kinds book.now ≤ length tally.old) }
    ensures { Outcome (kinds book.now) (Feasible (grammar book.now))
        feasible.old tally.old feasible.new tally.new result }
{
    clear(book, feasible, tally);
    seed(book, plausible, feasible, tally);
    let pass = Downwards {
        book,
        places,
        plausible,
    };
    close(&pass, feasible, tally)
}
