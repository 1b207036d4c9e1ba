// The room for each argument, in elements. A request that is over one of them is refused.

pub const BOOK: usize = 40000;

pub const SHEET: usize = 5000;

pub const SETS: usize = 2200;

pub const COUNTS: usize = 64;

pub const UP: usize = 16384;

pub const DOWN: usize = 131072;

pub const NODES: usize = 12500;

pub const GROUPS: usize = 33000;

// The longest request that fits: the sheet call, its byte, its eight arguments with four bytes of length for each.
pub const REQUEST: usize = 1
    + 8 * 4
    + BOOK
    + SHEET
    + 2 * COUNTS
    + UP
    + DOWN
    + 8 * NODES
    + 2 * GROUPS;
