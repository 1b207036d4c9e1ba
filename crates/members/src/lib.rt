// The sets of groupings in lent memory: MAX_MEMBERS places for each kind, in rising order, and each kind's count beside it.
#![tactic(auto)]

ghost use Rattle.std.specs.Prelude.{IsTrue, ◌↔◌};
ghost use Rattle.members.specs.Room.{Measured};
ghost use Rattle.members.specs.Sets.{Placed, Sought, Tried, Put};

const MAX_MEMBERS: usize = book::limits::MAX_MEMBERS as usize;

// Refusal 9: whether a set slice has too few places for so many kinds, or a count slice too few counts.
pub fn too_short(
    kinds: usize,
    plausible: usize,
    counts: usize,
    feasible: usize,
    tally: usize,
) -> bool
    ensures { Measured kinds plausible counts feasible tally result }
{
    plausible / MAX_MEMBERS < kinds
        || counts < kinds
        || feasible / MAX_MEMBERS < kinds
        || tally < kinds
}

// The set of a kind has no place for a new member.
#[derive(Clone, Copy, Debug, PartialEq, Eq)]
pub struct Full;

// The first of the n places from base on that holds x, where all of them are there.
pub fn place_of(s: &[u32], base: usize, n: usize, x: u32) -> Option<usize>
    ensures { Sought s.now base n x result }
{
    let places = s.get(base..)?.get(..n)?;
    places.iter().position(|y| *y == x)
}

// Whether the kind k has its count and all its places, and the count is no greater than they are.
fn placed(sets: &[u32], counts: &[u8], k: usize) -> bool
    ensures { IsTrue result ↔ Placed sets.now counts.now k }
{
    k < sets.len() / MAX_MEMBERS && k < counts.len() && counts[k] <= book::limits::MAX_MEMBERS
}

// x put into the set of the kind k, if it is new and there is room for it. The answer says whether it was new.
fn add(sets: &mut [u32], counts: &mut [u8], k: usize, x: u32) -> Result<bool, Full>
    requires { Placed sets.old counts.old k }
    ensures { Tried k x sets.old counts.old sets.new counts.new result }
{
    let base = k * MAX_MEMBERS;
    let n = counts[k] as usize;
    if place_of(sets, base, n, x).is_some() {
        return Ok(false);
    }
    if n == MAX_MEMBERS {
        return Err(Full);
    }
    slices::insert(sets, base, n, x);
    counts[k] += 1;
    Ok(true)
}

// The same of any kind; nothing changes where it has not its places or its count.
pub fn put(sets: &mut [u32], counts: &mut [u8], k: usize, x: u32) -> Result<bool, Full>
    ensures { Put k x sets.old counts.old sets.new counts.new result }
{
    if placed(sets, counts, k) {
        return add(sets, counts, k, x);
    }
    Err(Full)
}
