// The room that the program has for a vehicle, in elements. What is lent has exactly these (specs/Room.antt).

// Sets and counts for every kind that a book can have.
pub const KINDS: usize = book::limits::MAX_KINDS as usize;

pub const SET_PLACES: usize = book::limits::MAX_MEMBERS as usize * KINDS;

pub const UP_ENTRIES: usize = 8192;

pub const DOWN_ENTRIES: usize = 1489;

pub const DOWN_BYTES: usize = ranks::ENTRY * DOWN_ENTRIES;

pub const NODES: usize = 2730;

// Three places for each node.
pub const NODE_PLACES: usize = 3 * NODES;

// As many places for each node as a kind can have settings.
pub const GROUP_PLACES: usize = book::limits::MAX_SETTINGS as usize * NODES;

// Bytes of the longest first line, of a node's longest line, and of the longest text.
const TOTALS: usize = 21;

const LINE: usize = 70;

pub const TEXT: usize = TOTALS + LINE * NODES;
