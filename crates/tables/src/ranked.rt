// The sets of all kinds where they are only read: a kind's members stand in rising order, each at its rank.
ghost use Rattle.std.specs.Prelude.{◌≡◌, ◌<◌, get_or};
ghost use Rattle.members.specs.Sets.{Has, Placed, member, members};

use super::sets::MAX_MEMBERS;

// MAX_MEMBERS places for each kind, with its count beside it.
#[derive(Clone, Copy)]
pub struct Sets<'a> {
    pub codes: &'a [u32],
    pub counts: &'a [u8],
}

impl<'a> Sets<'a> {
    // The members of a kind.
    pub fn members(self, kind: usize) -> &'a [u32]
        requires { Placed self.codes.now self.counts.now kind }
        ensures { result.now ≡ members self.entry.codes.now self.entry.counts.now kind }
    {
        let base = kind * MAX_MEMBERS;
        &self.codes[base..base + self.counts[kind] as usize]
    }

    // The rank of a member of a kind.
    pub fn rank_of(self, kind: usize, code: u32) -> u8
        requires { Placed self.codes.now self.counts.now kind × Has self.codes.now self.counts.now kind code }
        ensures { (result < get_or self.entry.counts.now kind 0) × (member self.entry.codes.now kind result ≡ code) }
    {
        let n = self.counts[kind] as usize;
        let rank = members::place_of(self.codes, kind * MAX_MEMBERS, n, code);
        rank.unwrap() as u8
    }
}
