// One entry of the up or the down table, written from a state in which everything is tied.
ghost use Rattle.std.specs.Prelude.{◌≡◌, List, ℕ, suc, ◌+◌, ◌<◌, ◌≤◌, length};
ghost use Rattle.lists.specs.Part.{place};
ghost use Rattle.chains.specs.Limits.{max_kids};
ghost use Rattle.ranks.specs.Entries.{labels, entry_bytes};
ghost use Rattle.tables.specs.State.{State, tidied};
ghost use Rattle.tables.specs.Shape.{AllPlaced};
ghost use Rattle.tables.specs.Fill.{Ready, Listed, RankOn, ChildRank, ChildRanks, UpByte, DownBytes, UpAsks, DownAsks, EntriesLaid};

use super::labels::{LABELS, Labels, NONE};
use super::ranked::Sets;
use super::shape::Shape;
use ranks::{ENTRY, Feasible, Plausible};

const CHILDREN: u8 = book::limits::MAX_CHILDREN;

// The rank of the code that the state shows on a slot, among the members of the slot's kind: what both kinds of rank are.
fn rank_on(v: Shape, slot: u8, s: &Labels, sets: Sets) -> u8
    requires { Ready v s.now × AllPlaced v sets.codes.now sets.counts.now × (slot ≤ v.arity)
        × Listed sets.codes.now sets.counts.now v slot s.now }
    ensures { RankOn sets.entry.codes.now sets.entry.counts.now v slot s.now result }
{
    sets.rank_of(v.kind(slot), s.view(slot, v.width(slot)))
}

// The plausible rank of what the state shows on slot 0.
fn plausible_rank(v: Shape, s: &Labels, plausible: Sets) -> Plausible
    requires { Ready v s.now × UpAsks plausible.codes.now plausible.counts.now v s.now }
    ensures { RankOn plausible.entry.codes.now plausible.entry.counts.now v 0 s.now result.0 }
{
    Plausible(rank_on(v, 0, s, plausible))
}

// The feasible rank of what the state shows on a child, from 0 on; NONE where there is no such child.
fn feasible_rank(v: Shape, j: u8, s: &Labels, feasible: Sets) -> Feasible
    requires { Ready v s.now × DownAsks feasible.codes.now feasible.counts.now v s.now }
    ensures { ChildRank feasible.entry.codes.now feasible.entry.counts.now v s.now j result.0 }
{
    if v.arity <= j {
        return Feasible(NONE);
    }
    Feasible(rank_on(v, j + 1, s, feasible))
}

// The ranks of all children.
fn put_ranks(v: Shape, s: &Labels, feasible: Sets, out: &mut [u8], at: usize)
    requires { Ready v s.now × DownAsks feasible.codes.now feasible.counts.now v s.now × (at + max_kids ≤ length out.old) }
    ensures { ChildRanks feasible.entry.codes.now feasible.entry.counts.now v s.now max_kids out.old at out.new }
{
    for j in 0..CHILDREN {
        out[at + j as usize] = feasible_rank(v, j, s, feasible).0;
    }
}

// The labels by first appearance.
fn put_labels(s: &Labels, out: &mut [u8], at: usize)
    requires { State s.now × (at + labels ≤ length out.old) }
    ensures { out.new ≡ place at (tidied s.now) out.old }
{
    let mut t = *s;
    t.tidy();
    out[at..at + LABELS].copy_from_slice(t.as_bytes());
}

// What a table has of a state.
pub trait Entry {
    ghost use Rattle.tables.specs.declared.shape.Shape.{Shape};

    // The bytes of an entry; what it asks of a state; what its bytes say of one.
    ghost size: { ℕ };

    ghost asks: { Self → Shape → List ℕ → Type 0 };

    ghost says: { Self → Shape → List ℕ → List ℕ → Type 0 };

    // The entry of a state, from `at` on. The answer is the place behind it.
    fn put(&self, v: Shape, s: &Labels, out: &mut [u8], at: usize) -> usize
        requires { Ready v s.now × asks self.now v s.now × (at + size ≤ length out.old) }
        ensures { EntriesLaid size 1 (λ i e. says self.now v s.now e) out.old at out.new result };
}

// An up entry: the plausible rank of what the state shows on slot 0.
#[derive(Clone, Copy)]
pub struct Up<'a> {
    pub plausible: Sets<'a>,
}

impl<'a> Entry for Up<'a> {
    ghost size = { 1 };

    ghost asks = { λ t v x. UpAsks t.plausible.codes.now t.plausible.counts.now v x };

    ghost says = { λ t v x e. UpByte t.plausible.codes.now t.plausible.counts.now v x e };

    fn put(&self, v: Shape, s: &Labels, out: &mut [u8], at: usize) -> usize {
        out[at] = plausible_rank(v, s, self.plausible).0;
        at + 1
    }
}

// A down entry: the labels, then the children's feasible ranks.
#[derive(Clone, Copy)]
pub struct Down<'a> {
    pub plausible: Sets<'a>,
    pub feasible: Sets<'a>,
}

impl<'a> Entry for Down<'a> {
    ghost size = { entry_bytes };

    ghost asks = { λ t v x. DownAsks t.feasible.codes.now t.feasible.counts.now v x };

    ghost says = { λ t v x e. DownBytes t.feasible.codes.now t.feasible.counts.now v x e };

    fn put(&self, v: Shape, s: &Labels, out: &mut [u8], at: usize) -> usize {
        put_labels(s, out, at);
        put_ranks(v, s, self.feasible, out, at + LABELS);
        at + ENTRY
    }
}
