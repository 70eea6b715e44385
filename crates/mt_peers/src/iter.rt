//! Iterators over the masters above a group, and over the members of one. Neither takes memory.

use crate::peers::Peers;
use crate::state::GroupId;
use mt_mounts::mount::MountId;

/// The masters above a peer group, nearest first.
#[derive(Drop)]
pub struct MastersUp<'a> {
    pub(crate) peers: &'a Peers,
    pub(crate) next: Option<GroupId>,
    /// No chain of masters is longer than the list of states.
    pub(crate) left: usize,
}

impl<'a> Iterator for MastersUp<'a> {
    ghost use Rattle.std.specs.Iterator.{YieldsFirst, item_count};
    ghost use Rattle.mt_peers.specs.Above.{masters_to_come};

    type Item = GroupId;

    ghost next_gives = { YieldsFirst masters_to_come };

    ghost remaining = { item_count masters_to_come };

    fn next(&mut self) -> Option<GroupId> {
        let group = self.next?;
        if self.left == 0 {
            return None;
        }
        self.left -= 1;
        self.next = self.peers.master_of(group);
        Some(group)
    }
}

/// The members of a peer group.
#[derive(Drop)]
pub struct PeersOf<'a> {
    pub(crate) peers: &'a Peers,
    pub(crate) next: Option<MountId>,
}

impl<'a> Iterator for PeersOf<'a> {
    ghost use Rattle.std.specs.Iterator.{YieldsFirst, item_count};
    ghost use Rattle.mt_peers.specs.Coming.{coming};

    type Item = MountId;

    ghost next_gives = { YieldsFirst coming };

    ghost remaining = { item_count coming };

    fn next(&mut self) -> Option<MountId> {
        let id = self.next?;
        self.next = self.peers.following(id);
        Some(id)
    }
}
