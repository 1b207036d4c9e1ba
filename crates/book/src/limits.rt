// The limits that the paper sets on a book and on what is built from it, in one place.

// Fields of the trailer, and its bytes, two for each.
pub const FIELDS: usize = 6;

pub const TRAILER: usize = 2 * FIELDS;

// The edition that this reader knows.
pub const EDITION: u16 = 1;

pub const MAX_KINDS: u16 = 32;

pub const MAX_PRODUCTIONS: u16 = 64;

pub const MAX_SETTINGS: u8 = 8;

pub const MAX_CHILDREN: u8 = 4;

// Members of a plausible or a feasible set.
pub const MAX_MEMBERS: u8 = 64;
