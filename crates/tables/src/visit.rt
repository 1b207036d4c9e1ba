// A visit of a production: its turns opened one by one; then all that comes of its base by choices of codes for them is put into one kind's set.
use super::labels::{Labels, SLOTS, width};
use super::ranked::Sets;
use super::seen::{LEVELS, Level};
use super::sets::MAX_MEMBERS;
use members::Full;

// A choice of a code for a slot: the slot's number of settings, and the codes of its kind as they stood when the turn was opened.
#[derive(Clone, Copy)]
pub struct Turn {
    pub slot: u8,
    pub width: u8,
    pub size: u8,
    pub codes: [u32; MAX_MEMBERS],
}

// So many turns, of which the last one comes first; and the slot that the results are seen on, with its number of settings and its kind.
#[derive(Drop)]
pub struct Visit {
    pub turns: [Turn; SLOTS],
    pub opened: usize,
    pub target: u8,
    pub width: u8,
    pub kind: u8,
}

impl Visit {
    ghost use Rattle.std.specs.Prelude.{◌≡◌, true, List, ℕ, suc, ◌<◌, ◌≤◌};
    ghost use Rattle.chains.specs.State.{code_on};
    ghost use Rattle.book.specs.Reading.{kind_in};
    ghost use Rattle.members.specs.Sets.{Placed, Put};
    ghost use Rattle.tables.specs.State.{based};
    ghost use Rattle.tables.specs.Visit.{max_turns, Ready, Standing, InOrder, chosen, Yields, Gathers, Request, Reply, Opening, Opened, Barren, Prepared};

    // No turn yet, and the results seen on a slot.
    pub fn looking_at(book: &[u8], at: usize, slot: u8) -> Self
        ensures { (S C : ℕ → List ℕ) (σ : ℕ → ℕ) → Opening book.now at slot σ S C result 0 }
    {
        Visit {
            turns: [Turn {
                slot: 0,
                width: 0,
                size: 0,
                codes: [0; MAX_MEMBERS],
            }; SLOTS],
            opened: 0,
            target: slot,
            width: width(book, at, slot),
            kind: book::kind_in(book, at, slot),
        }
    }

    // One turn more, given to a slot, with the codes of its kind as they stand now.
    pub fn open(&mut self, slot: u8, book: &[u8], at: usize, sets: Sets)
        requires { (self.old.opened < max_turns) × Placed sets.codes.now sets.counts.now (kind_in book.now at slot) }
        ensures { Opened book.now at sets.entry.codes.now sets.entry.counts.now self.old slot self.new }
    {
        let codes = sets.members(book::kind_in(book, at, slot) as usize);
        let turn = &mut self.turns[self.opened];
        turn.slot = slot;
        turn.width = width(book, at, slot);
        turn.size = codes.len() as u8;
        turn.codes[..codes.len()].copy_from_slice(codes);
        self.opened += 1;
    }

    // Whether some turn has no code to choose.
    fn is_barren(&self) -> bool
        requires { self.now.opened ≤ max_turns }
        ensures { result ≡ true → Barren self.now self.now.opened }
    {
        self.turns[..self.opened].iter().any(|turn| turn.size == 0)
    }

    // The state s once turn j has chosen a code: tied to its slot, and the slot dropped, unless it is the one that the results are seen on.
    fn choose(&self, j: usize, code: u32, s: &Labels) -> Labels
        requires { Ready self.now (suc j) × (j < max_turns) × Standing self.now (suc j) s.now }
        ensures { result ≡ chosen self.now j code s.now }
    {
        let turn = &self.turns[j];
        let mut t = *s;
        t.tie(turn.slot, turn.width, code);
        if turn.slot != self.target {
            t.forget(turn.slot);
        }
        t.tidy();
        t
    }

    // All turns are over: what the state says on the slot looked at is put into the kind's set.
    fn enter(&self, s: &Labels, sets: &mut [u32], counts: &mut [u8]) -> Result<bool, Full>
        requires { Ready self.now 0 × Standing self.now 0 s.now × InOrder self.now.kind sets.old counts.old }
        ensures { Put self.now.kind (code_on self.now.target self.now.width s.now) sets.old counts.old sets.new counts.new result }
    {
        members::put(
            sets,
            counts,
            self.kind as usize,
            s.view(self.target, self.width),
        )
    }

    // Whatever comes of the state s by choices for the turns before j is put into the kind's set. The state may have been met before: then all of that
    // is there.
    fn gather(
        &self,
        j: usize,
        s: &Labels,
        seen: &mut [Level; LEVELS],
        sets: &mut [u32],
        counts: &mut [u8],
    ) -> Result<bool, Full>
        requires { Request self.now j s.now seen.old sets.old counts.old }
        ensures { Reply self.now j s.now sets.old counts.old seen.new sets.new counts.new result }
    {
        if j == 0 {
            return self.enter(s, sets, counts);
        }
        if seen[j].knows(s) {
            return Ok(false);
        }
        let k = j - 1;
        let turn = &self.turns[k];
        let mut added = false;
        for &code in &turn.codes[..turn.size as usize] {
            let t = self.choose(k, code, s);
            added |= self.gather(k, &t, seen, sets, counts)?;
        }
        seen[j].remember(s);
        Ok(added)
    }

    // All that comes of the production's base by choices for the turns is put into the kind's set.
    pub fn make(
        &self,
        book: &[u8],
        at: usize,
        sets: &mut [u32],
        counts: &mut [u8],
    ) -> Result<bool, Full>
        requires { Prepared book.now at self.now sets.old counts.old }
        ensures { Gathers self.now.kind (Yields self.now self.now.opened (based book.now at))
            sets.old counts.old sets.new counts.new result }
    {
        if self.is_barren() {
            return Ok(false);
        }
        let s = Labels::base(book, at);
        let mut seen = [Level::new(); LEVELS];
        self.gather(self.opened, &s, &mut seen, sets, counts)
    }
}
