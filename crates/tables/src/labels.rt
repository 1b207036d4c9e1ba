// The labels of a production's occurrences while its groups are worked out: equal labels stand in one group, and NONE where there is no such
// occurrence or where it was dropped.
ghost use Rattle.std.specs.Prelude.{◌≡◌, ◌+◌, ◌<◌, ◌≤◌, List, [], ℕ, length, replicate};
ghost use Rattle.lists.specs.Sought.{Least};
ghost use Rattle.chains.specs.Limits.{max_settings, max_kids};
ghost use Rattle.chains.specs.Grouping.{label};
ghost use Rattle.chains.specs.Labels.{join_at, joins, index, add};
ghost use Rattle.chains.specs.State.{code_pairs, dropped, code_on};
ghost use Rattle.ranks.specs.Entries.{labels, none};
ghost use Rattle.tables.specs.State.{State, Whole, Readable, width_in, own, apart, based, tidied, numbered, Numbering};

use std::marker::Model;

// Occurrence numbers to a slot; slots of a production, the left kind and its children; and its occurrence numbers.
pub const SETTINGS: usize = book::limits::MAX_SETTINGS as usize;

pub const SLOTS: usize = 1 + book::limits::MAX_CHILDREN as usize;

pub const LABELS: usize = SLOTS * SETTINGS;

// No label.
pub const NONE: u8 = ranks::NONE;

// The number of settings in a slot.
pub fn width(book: &[u8], at: usize, slot: u8) -> u8
    ensures { result ≡ width_in book.now at slot }
{
    if book::arity(book, at) < slot {
        return 0;
    }
    book::settings(book, book::kind_in(book, at, slot))
}

// An occurrence's own number, if it exists.
fn own(book: &[u8], at: usize, o: u8) -> u8
    ensures { result ≡ own book.now at o }
{
    if occurrence::setting(o) < width(book, at, occurrence::slot(o)) {
        o
    } else {
        NONE
    }
}

// The label of the setting x in a code.
fn label(code: u32, x: u8) -> u8
    requires { x < max_settings }
    ensures { result ≡ label code x }
{
    ((code >> (3 * x as u32)) & 7) as u8
}

// The first setting that has the label of the setting x.
fn first_alike(code: u32, x: u8) -> u8
    requires { x < max_settings }
    ensures { Least (λ k. label code k ≡ label code x) (x + 1) result }
{
    let v = label(code, x);
    (0..x).find(|&i| label(code, i) == v).unwrap_or(x)
}

// ---- a state

// A label for each occurrence number.
#[derive(Clone, Copy, PartialEq, Eq)]
pub struct Labels {
    of: [u8; LABELS],
}

impl Model for Labels {
    ghost Value = { List ℕ };

    ghost view = { λ s. s.of };

    ghost invariant = { λ s. State s.of };

    ghost inverse = { λ l. record { of = l } };
}

impl Labels {
    // All in one group: zeros, as what is not filled yet is cleared to.
    pub fn zeros() -> Self
        ensures { result ≡ replicate labels 0 }
    {
        Labels { of: [0; LABELS] }
    }

    // Every occurrence by itself.
    fn apart(book: &[u8], at: usize) -> Self
        ensures { result ≡ apart book.now at }
    {
        let mut of = [NONE; LABELS];
        for (o, label) in of.iter_mut().enumerate() {
            *label = own(book, at, o as u8);
        }
        Labels { of }
    }

    // The ends of each pair of the entry at `at` joined: the base grouping.
    pub fn base(book: &[u8], at: usize) -> Self
        requires { Readable book.now at }
        ensures { result ≡ based book.now at }
    {
        let mut s = Labels::apart(book, at);
        for i in 0..book::pairs(book, at) {
            s.merge(
                book::to(book, at, i) as usize,
                book::from(book, at, i) as usize,
            );
        }
        s
    }

    // The groups of i and j become one.
    fn merge(&mut self, i: usize, j: usize)
        requires { (i < labels) × (j < labels) }
        ensures { self.new ≡ join_at self.old i j }
    {
        let a = self.of[i];
        let b = self.of[j];
        if a != b {
            slices::relabel(&mut self.of, a, b);
        }
    }

    // The settings of a slot joined as the code groups them: each with the first one of its label.
    pub fn tie(&mut self, slot: u8, width: u8, code: u32)
        requires { (slot ≤ max_kids) × (width ≤ max_settings) }
        ensures { self.new ≡ joins self.old (code_pairs slot width code) }
    {
        let base = slot as usize * SETTINGS;
        for x in 0..width {
            let y = first_alike(code, x);
            self.merge(base + y as usize, base + x as usize);
        }
    }

    // None of the slot's occurrences is there any more.
    pub fn forget(&mut self, slot: u8)
        requires { slot ≤ max_kids }
        ensures { self.new ≡ dropped slot self.old }
    {
        let base = slot as usize * SETTINGS;
        self.of[base..base + SETTINGS].fill(NONE);
    }

    // Labels by first appearance, so that equal groupings are equal arrays.
    pub fn tidy(&mut self)
        ensures { self.new ≡ tidied self.old }
    {
        let mut numbers = Numbers::new();
        for label in &mut self.of {
            if *label != NONE {
                *label = numbers.of(*label);
            }
        }
    }

    // The labels, as they stand in a down entry.
    pub fn as_bytes(&self) -> &[u8]
        ensures { State self.now × (result.now ≡ self.now) }
    {
        &self.of
    }

    // The code, by first appearance, of a slot's settings, which are all there.
    pub fn view(&self, slot: u8, width: u8) -> u32
        requires { (slot ≤ max_kids) × (width ≤ max_settings) × Whole self.now slot width }
        ensures { result ≡ code_on slot width self.now }
    {
        let base = slot as usize * SETTINGS;
        let mut numbers = Numbers::new();
        let mut code = 0;
        for (x, &label) in self.of[base..base + width as usize].iter().enumerate() {
            code |= (numbers.of(label) as u32) << (3 * x);
        }
        code
    }
}

// ---- labels by first appearance

// The numbers that labels have been given, in the order in which they first appeared.
#[derive(Drop)]
struct Numbers {
    given: [u8; LABELS],
    next: u8,
}

impl Model for Numbers {
    ghost Value = { List ℕ };

    ghost view = { λ n. numbered n.given n.next };

    ghost invariant = { λ n. Numbering n.given n.next };
}

impl Numbers {
    fn new() -> Self
        ensures { result ≡ [] }
    {
        Numbers {
            given: [NONE; LABELS],
            next: 0,
        }
    }

    // The number of a label, which gets the next one if it has none yet.
    fn of(&mut self, label: u8) -> u8
        requires { (label < labels) × (length self.old < none) }
        ensures { (result ≡ index label self.old) × (self.new ≡ add label self.old) }
    {
        let at = label as usize;
        if self.given[at] == NONE {
            self.given[at] = self.next;
            self.next += 1;
        }
        self.given[at]
    }
}
