// The limits that the paper sets, as the lengths of what the call works with.

pub const NODES: usize = sheet::limits::MAX_NODES;

pub const PRODUCTIONS: usize = book::limits::MAX_PRODUCTIONS as usize;

// Occurrence numbers to a slot.
pub const SETTINGS: usize = book::limits::MAX_SETTINGS as usize;

// A label is any byte.
pub const LABELS: usize = 256;
