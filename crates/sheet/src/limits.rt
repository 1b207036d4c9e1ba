// The limits that the paper sets on a sheet, in one place.

// Bytes, which are nodes.
pub const MAX_NODES: usize = 4096;

// No node stands deeper; the root is at level 1.
pub const MAX_LEVELS: u8 = 64;
