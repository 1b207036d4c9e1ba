// The shape of a production: its number of children, and the kind and the number of settings of each slot. It is read off the book once for all
// the entries that the production has.
use super::labels::{SLOTS, width};
use std::array;

// A slot's kind, and its number of settings.
#[derive(Clone, Copy)]
pub struct Slot {
    pub kind: u8,
    pub width: u8,
}

#[derive(Clone, Copy)]
pub struct Shape {
    pub arity: u8,
    pub slots: [Slot; SLOTS],
}

impl Slot {
    ghost use Rattle.std.specs.Prelude.{◌≡◌};
    ghost use Rattle.tables.specs.Shape.{slot_at};

    // Slot t of the production whose entry stands at `at`.
    fn of(book: &[u8], at: usize, t: u8) -> Slot
        ensures { result ≡ slot_at book.now at t }
    {
        Slot {
            kind: book::kind_in(book, at, t),
            width: width(book, at, t),
        }
    }
}

impl Shape {
    ghost use Rattle.std.specs.Prelude.{◌≡◌, ℕ, suc, ◌≤◌, ◌<◌, length, get_or};
    ghost use Rattle.chains.specs.Limits.{max_kids};
    ghost use Rattle.tables.specs.Shape.{max_slots, no_slot, shape_at, kind_of, width_of};

    // The shape of the production whose entry stands at `at`.
    pub fn of(book: &[u8], at: usize) -> Shape
        ensures { result ≡ shape_at book.now at }
    {
        Shape {
            arity: book::arity(book, at),
            slots: array::from_fn(|t| Slot::of(book, at, t as u8)),
        }
    }

    // The kind of a slot.
    pub fn kind(self, slot: u8) -> usize
        requires { slot ≤ max_kids }
        ensures { result ≡ kind_of self slot }
    {
        self.slots[slot as usize].kind as usize
    }

    // A slot's number of settings.
    pub fn width(self, slot: u8) -> u8
        requires { slot ≤ max_kids }
        ensures { result ≡ width_of self slot }
    {
        self.slots[slot as usize].width
    }
    // The slots of the children.
    pub fn children(&self) -> &[Slot]
        requires { (self.now.arity ≤ max_kids) × (length self.now.slots ≡ max_slots) }
        ensures many { length result.now ≡ self.now.arity }
        ensures each { (i : ℕ) → i < self.now.arity → get_or result.now i no_slot ≡ get_or self.now.slots (suc i) no_slot }
    {
        &self.slots[1..=self.arity as usize]
    }
}
