// Group numbers: a setting takes the number of the first occurrence before it, in the same production instance, that has its label; else the next unused.
ghost use Rattle.std.specs.Prelude.{◌≡◌, ◌+◌, ◌≤◌, ◌<◌, length};
ghost use Rattle.chains.specs.Limits.{max_kids, max_settings};
ghost use Rattle.sheet.specs.Reading.{all_settings};
ghost use Rattle.numbering.specs.Nodes.{OnlyPlaces};
ghost use Rattle.numbering.specs.Parts.{grammar_in};
ghost use Rattle.numbering.specs.Giving.{Placed, HeldOne, HeldOwn, Slot, Ready, Instance, Walkable, Given};

use super::call::Call;
use super::limits::{LABELS, NODES, SETTINGS};
use super::nodes::Node;

// The first occurrence that has a label, by its number. The stamp says in which instance, so that nothing is cleared from one to the next.
#[derive(Clone, Copy)]
pub struct Holder {
    pub stamp: u16,
    pub number: u16,
}

// No instance has this stamp.
const NOBODY: Holder = Holder {
    stamp: 0,
    number: 0,
};

// Each node's first setting has its place among those of the sheet.
fn place_settings(call: &Call, nodes: &mut [Node; NODES])
    ensures placed { Placed call.now nodes.new }
    ensures others { OnlyPlaces nodes.old nodes.new }
{
    let mut next = 0;
    for (i, &p) in call.sheet.iter().enumerate() {
        nodes[i].first_setting = next;
        next += call.width(call.left(p)) as u16;
    }
}

// An occurrence with its label and a number: the number of the one before it that holds the label; where none does, it is the holder.
fn hold(holders: &mut [Holder; LABELS], stamp: u16, label: u8, number: u16) -> Option<u16>
    ensures { HeldOne stamp label number holders.old holders.new result }
{
    let holder = &mut holders[label as usize];
    if holder.stamp == stamp {
        return Some(holder.number);
    }
    *holder = Holder { stamp, number };
    None
}

// Slot 0 of a node, whose settings have these numbers.
fn hold_own(holders: &mut [Holder; LABELS], down: &[u8], entry: u64, stamp: u16, numbers: &[u16])
    requires { length numbers.now ≤ max_settings }
    ensures { HeldOwn down.now entry stamp numbers.now holders.old holders.new }
{
    for (a, &number) in numbers.iter().enumerate() {
        hold(holders, stamp, ranks::label(down, entry, a), number);
    }
}

// A slot's settings are numbered. Gives the next unused number.
fn number_slot(
    holders: &mut [Holder; LABELS],
    down: &[u8],
    entry: u64,
    slot: usize,
    stamp: u16,
    first: u16,
    groups: &mut [u16],
) -> u16
    requires slot { slot ≤ max_kids }
    requires settings { length groups.old ≤ max_settings }
    requires room { first + length groups.old < 65536 }
    ensures { Slot down.now entry slot stamp first holders.old groups.old holders.new groups.new result }
{
    let mut next = first;
    for (a, group) in groups.iter_mut().enumerate() {
        let label = ranks::label(down, entry, slot * SETTINGS + a);
        let earlier = hold(holders, stamp, label, next);
        *group = earlier.unwrap_or(next);
        if earlier.is_none() {
            next += 1;
        }
    }
    next
}

// Node i: its own settings hold their labels, then its children's settings are numbered, from the first child to the last. Its stamp is later than those of the nodes before it.
fn number_node(
    call: &Call,
    nodes: &[Node; NODES],
    i: usize,
    first: u16,
    holders: &mut [Holder; LABELS],
    groups: &mut [u16],
) -> u16
    requires { Ready call.now nodes.now i first groups.old }
    ensures { Instance call.now nodes.now i first holders.old groups.old holders.new groups.new result }
{
    let p = call.sheet[i];
    let node = nodes[i];
    let stamp = i as u16 + 2;
    let at = node.first_setting as usize;
    let own = call.width(call.left(p));
    hold_own(
        holders,
        call.tables.down,
        node.entry,
        stamp,
        &groups[at..at + own],
    );
    let mut next = first;
    let mut child = i + 1;
    for (j, &kind) in call.kids(p).iter().enumerate() {
        let kid = nodes[child];
        let at = kid.first_setting as usize;
        let width = call.width(kind);
        let slot = &mut groups[at..at + width];
        next = number_slot(
            holders,
            call.tables.down,
            node.entry,
            j + 1,
            stamp,
            next,
            slot,
        );
        child = kid.end as usize;
    }
    next
}

// All settings: the root's own first, then at each node its children's. Gives the number of groups.
pub fn number_all(call: &Call, nodes: &mut [Node; NODES], groups: &mut [u16]) -> u16
    requires walkable { Walkable call.now nodes.old }
    requires room { all_settings (grammar_in call.now) call.now.sheet.now ≤ length groups.old }
    ensures { Given call.now nodes.old groups.old groups.new result }
{
    place_settings(call, nodes);
    let own = call.width(call.left(call.sheet[0]));
    let mut holders = [NOBODY; LABELS];
    let root = &mut groups[..own];
    let mut next = number_slot(
        &mut holders,
        call.tables.down,
        nodes[0].entry,
        0,
        1,
        0,
        root,
    );
    for i in 0..call.sheet.len() {
        next = number_node(call, nodes, i, next, &mut holders, groups);
    }
    next
}
