// Ranks in the plausible and in the feasible sets, and the reads of the two tables, which take and give only their own kind.
#![tactic(auto)]

ghost use Rattle.std.specs.Prelude.{◌≡◌, suc, ◌+◌, ◌*◌, ◌^◌, ◌<◌, slice_get};
ghost use Rattle.chains.specs.Limits.{max_kids};
ghost use Rattle.ranks.specs.Entries.{choices, choice, byte_values, entry_bytes};
ghost use Rattle.ranks.specs.Room.{room_said, RoomDue};
ghost use Rattle.ranks.specs.Reads.{counts_of, numbers, places, up_number, down_number, UpFinds, DownFinds, entry_at, label_at, child_rank_at};

use refusals::{Refusal, Refused};

// The children of a production, and a down entry: a label for each occurrence, then a rank for each child.
pub const KIDS: usize = book::limits::MAX_CHILDREN as usize;

pub const LABELS: usize = (1 + KIDS) * book::limits::MAX_SETTINGS as usize;

pub const ENTRY: usize = LABELS + KIDS;

// The absence of a label or a rank.
pub const NONE: u8 = 255;

#[derive(Clone, Copy, Debug, PartialEq, Eq)]
pub struct Plausible(pub u8);

#[derive(Clone, Copy, Debug, PartialEq, Eq)]
pub struct Feasible(pub u8);

// A child in a choice: how many plausible groupings its kind has, and the chosen one's rank among them.
#[derive(Clone, Copy, Debug, PartialEq, Eq)]
pub struct Chosen {
    pub count: u8,
    pub rank: Plausible,
}

// The number of a choice, child 1's rank counting most, under a digit that counts more than all of them.
fn numbered(most: u8, children: [Chosen; KIDS]) -> u64
    ensures { (result ≡ most * choices (counts_of children) places + choice (counts_of children) places (numbers children)) × (result < byte_values ^ suc max_kids) }
{
    let mut number = u64::from(most);
    for Chosen {
        count,
        rank: Plausible(rank),
    } in children {
        number = number * u64::from(count) + u64::from(rank);
    }
    number
}

// The rank that the up table has for a production, whose entries begin at start, and a choice: a child each, past the last one a count of 1
// and a rank of 0.
pub fn read_up(up: &[u8], start: u64, children: [Chosen; KIDS]) -> Option<Plausible>
    ensures { UpFinds up.now (up_number start (counts_of children) (numbers children)) result }
{
    let entry = start.checked_add(numbered(0, children))?;
    up.get(entry as usize).copied().map(Plausible)
}

// The number of the down entry of a feasible rank and a choice, where the entry is whole within the slice.
pub fn read_down(down: &[u8], start: u64, f: Feasible, children: [Chosen; KIDS]) -> Option<u64>
    ensures { DownFinds down.now (down_number start (counts_of children) f.0 (numbers children)) result }
{
    let entry = start.checked_add(numbered(f.0, children))?;
    let whole = (down.len() / ENTRY) as u64;
    (entry < whole).then_some(entry)
}

// Byte i of a down entry, where the slice has it.
fn byte_of(down: &[u8], entry: u64, i: usize) -> Option<u8>
    requires { i < entry_bytes }
    ensures { result ≡ slice_get (entry_at down.now entry) i }
{
    let start = (entry as usize).checked_mul(ENTRY)?;
    down.get(start.checked_add(i)?).copied()
}

// The feasible rank of child j, from 0 on, in a down entry; 255 where there is none.
pub fn child_rank(down: &[u8], entry: u64, j: usize) -> Feasible
    ensures { result.0 ≡ child_rank_at down.now entry j }
{
    if j < KIDS {
        Feasible(byte_of(down, entry, LABELS + j).unwrap_or(NONE))
    } else {
        Feasible(NONE)
    }
}

// The label of occurrence o in a down entry; 255 where there is none.
pub fn label(down: &[u8], entry: u64, o: usize) -> u8
    ensures { result ≡ label_at down.now entry o }
{
    if o < LABELS {
        byte_of(down, entry, o).unwrap_or(NONE)
    } else {
        NONE
    }
}

// The root's feasible rank is its plausible rank. Nowhere else does one kind of rank become the other.
pub fn started(r: Plausible) -> Feasible
    ensures { result.0 ≡ r.0 }
{
    Feasible(r.0)
}

// Refusals 12 and 13: so many entries held against slices of so many bytes.
pub fn room_for(up: usize, down: usize, ups: u64, downs: u64) -> Result<(), Refused>
    ensures { RoomDue up down ups downs (room_said result) }
{
    if (up as u64) < ups {
        return Err(Refusal::ShortUpTable.at(0));
    }
    if ((down / ENTRY) as u64) < downs {
        return Err(Refusal::ShortDownTable.at(0));
    }
    Ok(())
}
