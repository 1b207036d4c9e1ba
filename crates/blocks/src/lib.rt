// The blocks of a down entry: the occurrences that carry one label, as a set of 64 bits, bit o for occurrence o.
#![tactic(auto)]

ghost use Rattle.blocks.specs.Blocks.{Block, Size, FirstIn};

use ranks::{ENTRY, LABELS, NONE};

// The occurrences with the label in a down entry. An entry past its slice has none, and 255 is no label.
pub fn occurrences(down: &[u8], entry: u64, label: u8) -> u64
    ensures { Block down.now entry label result }
{
    if label == NONE {
        return 0;
    }
    if (down.len() / ENTRY) as u64 <= entry {
        return 0;
    }
    let mut set = 0;
    for o in 0..LABELS {
        set |= u64::from(ranks::label(down, entry, o) == label) << o;
    }
    set
}

// How many occurrences a set has.
pub fn block_size(set: u64) -> u32
    ensures { Size set result }
{
    set.count_ones()
}

// The first occurrence of a set; 64 of the empty one.
pub fn first_occurrence(set: u64) -> u32
    ensures { FirstIn set result }
{
    set.trailing_zeros()
}
