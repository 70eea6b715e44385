//! A change of many mounts at once: their states, their masters, and both lists after them.
ghost use Rattle.std.specs.Prelude.{◌≡◌, List, ◌+◌, ◌<◌, ◌≤◌, ◌^◌, map, length, true, ◌&&◌, IsTrue};
ghost use Rattle.std.specs.Option.{option_map_or};
ghost use Rattle.indexmap.specs.IndexMap.{spare};
ghost use Rattle.mt_skel.specs.Keyed.{rises, among};
ghost use Rattle.mt_lists.specs.Numbered.{rows_by};
ghost use Rattle.mt_peers.specs.Peers.{Peer, mount_of, has_member};
ghost use Rattle.mt_peers.specs.Loss.{heir};
ghost use Rattle.mt_peers.specs.Making.{made, is_shared};
ghost use Rattle.mt_peers.specs.Entries.{now_peers, was_peers, settled_entry};
ghost use Rattle.mt_peers.specs.Listed.{peer_group, leader_of, IsListed};
ghost use Rattle.mt_peers.specs.Vanished.{IsVanished, AreNear};

use crate::chosen::Chosen;
use crate::entries::{Entry, change_all};
use crate::state::{GroupId, Kind};
use crate::vanished::{Above, enter_all, heir_from};
use indexmap::IndexMap;
use mt_lists::lists::Lists;

/// Whether a group has a member, where the members of each group are listed.
pub(crate) fn lives(members: &Lists, group: GroupId) -> bool
    ensures { (es : List Peer) → members.now.rows ≡ rows_by mount_of peer_group es → result ≡ has_member es group }
{
    members.count(group) > 0
}

/// Whether it is known that each master has a member, once a mount has this one.
pub(crate) fn all_led(live: bool, members: &Lists, master: Option<GroupId>) -> bool
    ensures { (es : List Peer) → members.now.rows ≡ rows_by mount_of peer_group es → result ≡ (live && option_map_or (has_member es) master true) }
{
    if !live {
        return false;
    }
    match master {
        Some(group) => lives(members, group),
        None => true,
    }
}

/// A master, and the master that its slaves get.
#[derive(Clone, Copy)]
struct Known {
    master: Option<GroupId>,
    heir: Option<GroupId>,
}

/// The first group that still lives among a master and the masters above it, which is not looked for again if it is
/// known.
fn heir_of(
    members: &Lists,
    vanished: &mut IndexMap<GroupId, Above>,
    most: usize,
    master: Option<GroupId>,
    known: &Known,
) -> Option<GroupId>
    requires few { most < 2 ^ 63 }
    requires near { AreNear most vanished.old }
    ensures heir { (old new : List Peer) → members.now.rows ≡ rows_by mount_of peer_group new → IsVanished old new vanished.old → length old ≡ most → known.now.heir ≡ heir old new known.now.master → result ≡ heir old new master }
    ensures kept { (old new : List Peer) → members.now.rows ≡ rows_by mount_of peer_group new → IsVanished old new vanished.old → IsVanished old new vanished.new }
    ensures near { AreNear most vanished.new }
    ensures room { spare vanished.old ≤ spare vanished.new }
{
    if master == known.master {
        return known.heir;
    }
    let group = master?;
    heir_from(members, vanished, most, group)
}

/// Gives each mount whose master has gone the nearest living one above it. What was found for one slave
/// serves those of the same master that follow it, and what was found above a group that has vanished serves all
/// searches that come to it.
fn settle_all(entries: &mut [Entry], members: &Lists, vanished: &mut IndexMap<GroupId, Above>)
    requires listed { members.now.rows ≡ rows_by mount_of peer_group (now_peers entries.old) }
    requires vanished { IsVanished (was_peers entries.old) (now_peers entries.old) vanished.old }
    requires near { AreNear (length entries.old) vanished.old }
    ensures settled { entries.new ≡ map (settled_entry entries.old) entries.old }
    ensures room { spare vanished.old ≤ spare vanished.new }
{
    let mut known = Known {
        master: None,
        heir: None,
    };
    let most = entries.len();
    for i in 0..most {
        let master = entries[i].state.master;
        let heir = heir_of(members, vanished, most, master, &known);
        known = Known { master, heir };
        entries[i].state.master = heir;
    }
}

/// Brings the list of members from what all states were to what they are.
fn list_members(entries: &[Entry], members: &mut Lists)
    requires rising { IsTrue (rises mount_of (now_peers entries.now)) }
    requires room { length entries.now ≤ members.old.room }
    requires listed { members.old.rows ≡ rows_by mount_of peer_group (was_peers entries.now) }
    ensures listed { members.new.rows ≡ rows_by mount_of peer_group (now_peers entries.now) }
    ensures room { members.old.room ≤ members.new.room + length entries.now }
{
    for entry in entries {
        if entry.state.group != entry.was.group {
            members.set(entry.mount, entry.state.group);
        }
    }
}

/// Brings the list of slaves from what all states were to what they are.
fn list_slaves(entries: &[Entry], slaves: &mut Lists)
    requires rising { IsTrue (rises mount_of (now_peers entries.now)) }
    requires room { length entries.now ≤ slaves.old.room }
    requires listed { slaves.old.rows ≡ rows_by mount_of leader_of (was_peers entries.now) }
    ensures listed { slaves.new.rows ≡ rows_by mount_of leader_of (now_peers entries.now) }
    ensures room { slaves.old.room ≤ slaves.new.room + length entries.now }
{
    for entry in entries {
        if entry.state.master != entry.was.master {
            slaves.set(entry.mount, entry.state.master);
        }
    }
}

/// Changes the states of these mounts, settles all masters and brings both lists up to date. Returns
/// the next new group.
pub(crate) fn make_entries(
    entries: &mut [Entry],
    members: &mut Lists,
    slaves: &mut Lists,
    vanished: &mut IndexMap<GroupId, Above>,
    ids: &Chosen<'_>,
    kind: Kind,
    next: GroupId,
) -> GroupId
    requires listed { IsListed (now_peers entries.old) members.old.rows slaves.old.rows }
    requires members_room { length entries.old ≤ members.old.room }
    requires slaves_room { length entries.old ≤ slaves.old.room }
    requires vanished_room { length entries.old ≤ spare vanished.old }
    requires numbered { IsTrue (is_shared kind) → next + length entries.old < 2 ^ 64 }
    ensures made { record { peers = now_peers entries.new; next = result } ≡ made kind (among ids.now) (record { peers = now_peers entries.old; next = next }) }
    ensures was { was_peers entries.new ≡ now_peers entries.old }
    ensures listed { IsListed (now_peers entries.new) members.new.rows slaves.new.rows }
    ensures members_room { members.old.room ≤ members.new.room + length entries.old }
    ensures slaves_room { slaves.old.room ≤ slaves.new.room + length entries.old }
    ensures vanished_room { spare vanished.old ≤ spare vanished.new + length entries.old }
{
    let after = change_all(entries, ids, kind, next);
    list_members(entries, members);
    enter_all(entries, members, vanished);
    settle_all(entries, members, vanished);
    list_slaves(entries, slaves);
    after
}
