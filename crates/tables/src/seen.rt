// The states from which all was gathered already, for each number of turns left.
ghost use Rattle.std.specs.Prelude.{◌≡◌, ◌⊎◌, true, List, ℕ};
ghost use Rattle.tables.specs.Seen.{Blank, advanced, filled, Found, remembered};

use super::labels::Labels;

// States for each number of turns left.
const PLACES: usize = 64;

// The counter where all places are filled, and the one after which it is that again.
const FILLED: u8 = PLACES as u8;

const LAST: u8 = 2 * FILLED - 1;

// From no turn left to a turn for each slot.
pub const LEVELS: usize = 2 + book::limits::MAX_CHILDREN as usize;

// The states for one number of turns left: places, of which the oldest is overwritten, and a counter.
#[derive(Clone, Copy)]
pub struct Level {
    counter: u8,
    states: [Labels; PLACES],
}

// The counter after one state more. Once all places are filled it goes round.
fn advanced(counter: u8) -> u8
    ensures { result ≡ advanced counter }
{
    if counter < LAST { counter + 1 } else { FILLED }
}

impl Level {
    // No place is filled.
    pub fn new() -> Self
        ensures { Blank result }
    {
        Level {
            counter: 0,
            states: [Labels::zeros(); PLACES],
        }
    }

    // How many places are filled, by the counter.
    fn filled(&self) -> usize
        ensures { result ≡ filled self.now }
    {
        (self.counter as usize).min(PLACES)
    }

    // Whether the state s stands here.
    pub fn knows(&self, s: &Labels) -> bool
        ensures { result ≡ true → Found self.now s.now }
    {
        self.states[..self.filled()].contains(s)
    }

    // The state s put here.
    pub fn remember(&mut self, s: &Labels)
        ensures exact { self.new ≡ remembered self.old s.now }
        ensures only { (t : List ℕ) → Found self.new t → (t ≡ s.now) ⊎ Found self.old t }
    {
        self.states[self.counter as usize % PLACES] = *s;
        self.counter = advanced(self.counter);
    }
}
