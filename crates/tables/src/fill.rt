// The entries of the up and the down table. They are written one behind another: production after production, of each the choices with the first
// child's rank counting most, so that the place of an entry is where the one before it ends.
ghost use Rattle.std.specs.Prelude.{◌≡◌, List, ℕ, ◌+◌, ◌*◌, ◌<◌, ◌≤◌, length};
ghost use Rattle.book.specs.Format.{prods};
ghost use Rattle.ranks.specs.Entries.{choices, entry_bytes};
ghost use Rattle.tables.specs.Shape.{kinds_from, first_of, shape_of, base_of, Opened};
ghost use Rattle.tables.specs.Fill.{Ready, tied_once, UpAsks, UpByte, DownAsks, DownBytes, EntriesLaid, Choosable, Choices, ChoicesLaid, left_many, AllChoosable, AllChoices, so_many, Filled};

use super::entry::{Down, Entry, Up};
use super::labels::Labels;
use super::ranked::Sets;
use super::shape::Shape;

// The state s with a code tied to a slot.
fn tied(v: Shape, slot: u8, code: u32, s: &Labels) -> Labels
    requires { Ready v s.now × (slot ≤ v.arity) }
    ensures { result ≡ tied_once v slot code s.now }
{
    let mut t = *s;
    t.tie(slot, v.width(slot), code);
    t
}

// The entries of all choices of plausible groupings for the last `left` children, in order: the first of them is chosen for first, so that its
// rank counts most. The answer is the place behind the entries.
fn lay<E: Entry>(
    table: &E,
    v: Shape,
    left: u8,
    s: &Labels,
    plausible: Sets,
    out: &mut [u8],
    at: usize,
) -> usize
    requires { (left ≤ v.arity) × Choosable (E.asks table.now v) v (first_of v left) plausible.codes.now plausible.counts.now s.now
        × (at + choices plausible.counts.now (kinds_from v (first_of v left)) * E.size ≤ length out.old) }
    ensures { ChoicesLaid E.size (E.says table.now v) v (first_of v left) plausible.entry.codes.now plausible.entry.counts.now s.now
        out.old at out.new result }
{
    if left == 0 {
        return table.put(v, s, out, at);
    }
    let last = v.arity;
    let slot = last + 1 - left;
    let mut to = at;
    for &code in plausible.members(v.kind(slot)) {
        let t = tied(v, slot, code, s);
        to = lay(table, v, left - 1, &t, plausible, out, to);
    }
    to
}

// What a table has of a production.
pub trait Table: Entry {
    ghost use Rattle.tables.specs.declared.shape.Shape.{Shape};

    // The number of a production's entries; what they ask of its base; what the i-th of them says of it.
    ghost many: { Self → Shape → ℕ };

    ghost opens: { Self → Shape → List ℕ → Type 0 };

    ghost holds: { Self → Shape → List ℕ → ℕ → List ℕ → Type 0 };

    // The entries of a production, from its base, from `at` on. The answer is the place behind them.
    fn run(&self, v: Shape, s: &Labels, out: &mut [u8], at: usize) -> usize
        requires { opens self.now v s.now × (at + many self.now v * Self.size ≤ length out.old) }
        ensures { EntriesLaid Self.size (many self.now v) (holds self.now v s.now) out.old at out.new result };
}

// An entry for each choice of plausible groupings for the children.
impl<'a> Table for Up<'a> {
    ghost many = { λ t v. choices t.plausible.counts.now (kinds_from v 1) };

    ghost opens = { λ t v x. Choosable (UpAsks t.plausible.codes.now t.plausible.counts.now v) v 1 t.plausible.codes.now t.plausible.counts.now x };

    ghost holds = { λ t v x. Choices (UpByte t.plausible.codes.now t.plausible.counts.now v) v 1 t.plausible.codes.now t.plausible.counts.now (kinds_from v 1) x };

    fn run(&self, v: Shape, s: &Labels, out: &mut [u8], at: usize) -> usize {
        lay(self, v, v.arity, s, self.plausible, out, at)
    }
}

// The same for each feasible grouping of the left kind, in order.
impl<'a> Table for Down<'a> {
    ghost many = { λ t v. left_many v t.feasible.counts.now * choices t.plausible.counts.now (kinds_from v 1) };

    ghost opens = { λ t v x. AllChoosable (DownAsks t.feasible.codes.now t.feasible.counts.now v) v t.plausible.codes.now t.plausible.counts.now t.feasible.codes.now t.feasible.counts.now x };

    ghost holds = { λ t v x. AllChoices (DownBytes t.feasible.codes.now t.feasible.counts.now v) v t.plausible.codes.now t.plausible.counts.now t.feasible.codes.now t.feasible.counts.now (kinds_from v 1) x };

    fn run(&self, v: Shape, s: &Labels, out: &mut [u8], at: usize) -> usize {
        let mut to = at;
        for &code in self.feasible.members(v.kind(0)) {
            let t = tied(v, 0, code, s);
            to = lay(self, v, v.arity, &t, self.plausible, out, to);
        }
        to
    }
}

// Every entry of a table, one production behind another. What stands behind them stays as it came.
pub fn fill<T: Table>(table: &T, book: &[u8], places: &[usize], out: &mut [u8])
    requires { Opened book.now places.now
        × ((p : ℕ) → p < prods book.now → T.opens table.now (shape_of book.now p) (base_of book.now p))
        × (so_many (λ p. T.many table.now (shape_of book.now p)) (prods book.now) * T.size ≤ length out.old) }
    ensures { Filled T.size (λ p. T.many table.now (shape_of book.now p)) (prods book.now)
        (λ p. T.holds table.now (shape_of book.now p) (base_of book.now p)) out.old out.new }
{
    let mut to = 0;
    for &at in places {
        let v = Shape::of(book, at);
        let s = Labels::base(book, at);
        to = table.run(v, &s, out, to);
    }
}
