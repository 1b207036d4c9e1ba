// Work on lent slices that no grammar decides: a number carried into a run of numbers, one label in place of another, and a run of bytes laid over
// a part.
#![tactic(auto)]

ghost use Rattle.std.specs.Prelude.{◌+◌, ◌<◌, length};
ghost use Rattle.lists.specs.Inserted.{Inserted};
ghost use Rattle.slices.specs.Slices.{Taken, Relabelled, Overlaid};

use std::mem::swap;

// ---- a number carried in

// Carries x up to its place, and from there on each member by one place. The answer says whether there is one more.
fn carry_in(s: &mut [u32], base: usize, n: usize, x: u32) -> bool
    requires { base + n < length s.old }
    ensures { Inserted base n x s.old s.new result }
{
    let mut carry = x;
    for y in &mut s[base..base + n] {
        if carry == *y {
            return false;
        }
        if carry < *y {
            swap(&mut carry, y);
        }
    }
    s[base + n] = carry;
    true
}

// x carried into the n numbers from base on, where a place behind them is there.
pub fn insert(s: &mut [u32], base: usize, n: usize, x: u32) -> bool
    ensures { Taken base n x s.old s.new result }
{
    if s.len() <= n || s.len() - n <= base {
        return false;
    }
    carry_in(s, base, n, x)
}

// ---- labels

// The label b becomes a everywhere. Each place is written, also with what it holds, so that many are taken at a time.
#[tactic(auto, unfolding(chains::specs::Labels::relabel))]
pub fn relabel(s: &mut [u8], a: u8, b: u8)
    ensures { Relabelled a b s.old s.new }
{
    for label in s {
        *label = if *label == b { a } else { *label };
    }
}

// ---- a run of bytes

// s put into t from a place on, where it fits whole.
pub fn lay(t: &mut [u8], from: usize, s: &[u8])
    ensures { Overlaid from s.now t.old t.new }
{
    if s.len() <= t.len() && from <= t.len() - s.len() {
        t[from..from + s.len()].copy_from_slice(s);
    }
}
