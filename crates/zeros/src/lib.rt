// Places of lent slices made zero: the first ones, or all of them after a refusal.
#![tactic(auto)]

ghost use Rattle.std.specs.Prelude.{◌≡◌};
ghost use Rattle.zeros.specs.Zeros.{ClearedTo, WipedTo, Wiped};

// What has a zero: bytes and words.
pub trait Zero: Copy {
    ghost zero: { Self };

    fn zero() -> Self
        ensures { result ≡ zero };
}

impl Zero for u8 {
    ghost zero = { 0 };

    fn zero() -> u8 {
        0
    }
}

impl Zero for u32 {
    ghost zero = { 0 };

    fn zero() -> u32 {
        0
    }
}

// The first n places become zero, or all of them where there are fewer.
pub fn clear<T: Zero>(s: &mut [T], n: usize)
    ensures { ClearedTo T.zero n s.old s.new }
{
    let end = n.min(s.len());
    for place in &mut s[..end] {
        *place = T::zero();
    }
}

fn wipe_one<T: Zero>(all: bool, s: &mut [T])
    ensures { WipedTo T.zero all s.old s.new }
{
    if all {
        clear(s, s.len());
    }
}

// The six slices of a build become zero throughout, or nothing of them.
pub fn wipe(
    all: bool,
    plausible: &mut [u32],
    counts: &mut [u8],
    feasible: &mut [u32],
    tally: &mut [u8],
    up: &mut [u8],
    down: &mut [u8],
)
    ensures { Wiped all plausible.old plausible.new
        × Wiped all counts.old counts.new
        × Wiped all feasible.old feasible.new
        × Wiped all tally.old tally.new
        × Wiped all up.old up.new
        × Wiped all down.old down.new }
{
    wipe_one(all, plausible);
    wipe_one(all, counts);
    wipe_one(all, feasible);
    wipe_one(all, tally);
    wipe_one(all, up);
    wipe_one(all, down);
}
