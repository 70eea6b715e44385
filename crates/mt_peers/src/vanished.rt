//! Groups that lost their last members in a change, and the groups above them that still live.
ghost use Rattle.std.specs.Prelude.{◌≡◌, ℕ, ◌+◌, ◌<◌, ◌≤◌, ◌^◌, List, length, cond, false, Some, None, nat_eq, is_some, IfSome, IsTrue};
ghost use Rattle.std.specs.Option.{option_or};
ghost use Rattle.indexmap.specs.IndexMap.{get, spare};
ghost use Rattle.mt_lists.specs.Numbered.{rows_by};
ghost use Rattle.mt_peers.specs.Peers.{Peer, mount_of, has_member, names};
ghost use Rattle.mt_peers.specs.Masters.{master_of};
ghost use Rattle.mt_peers.specs.Loss.{heir};
ghost use Rattle.mt_peers.specs.Entries.{now_peers, was_peers};
ghost use Rattle.mt_peers.specs.Listed.{peer_group};
ghost use Rattle.mt_peers.specs.Ways.{IsAbove, if_passes};
ghost use Rattle.mt_peers.specs.Vanished.{above_was, IsVanished, AreNear, IsReached};

use crate::entries::Entry;
use crate::settling::lives;
use crate::state::GroupId;
use indexmap::IndexMap;
use mt_lists::lists::Lists;

/// A group on a chain of masters.
#[derive(Clone, Copy)]
pub(crate) struct Above {
    /// The group, or `None` after the end of the chain.
    pub(crate) up: Option<GroupId>,
    /// How many steps up it is.
    pub(crate) steps: usize,
}

/// Enters a group with the master that it had, unless it is already there.
fn enter_group(vanished: &mut IndexMap<GroupId, Above>, group: GroupId, master: Option<GroupId>)
    requires room { 0 < spare vanished.old }
    ensures entered { (g : ℕ) → get nat_eq vanished.new g ≡ option_or (get nat_eq vanished.old g) (cond (nat_eq group g) (Some (record { up = master; steps = 1 })) None) }
    ensures room { spare vanished.old ≤ spare vanished.new + 1 }
{
    if !vanished.contains_key(&group) {
        let above = Above {
            up: master,
            steps: 1,
        };
        vanished.insert(group, above).unwrap();
    }
}

/// Enters the group that a mount has left, unless it is already there or still lives.
fn enter(entry: &Entry, members: &Lists, vanished: &mut IndexMap<GroupId, Above>)
    requires room { 0 < spare vanished.old }
    ensures entered { (es : List Peer) (g : ℕ) → members.now.rows ≡ rows_by mount_of peer_group es → has_member es g ≡ false → names entry.now.state.group g ≡ false → get nat_eq vanished.new g ≡ option_or (get nat_eq vanished.old g) (above_was g entry.now) }
    ensures near { (most : ℕ) → AreNear most vanished.old → AreNear most vanished.new }
    ensures room { spare vanished.old ≤ spare vanished.new + 1 }
{
    if entry.state.group == entry.was.group {
        return;
    }
    if let Some(group) = entry.was.group {
        if !lives(members, group) {
            enter_group(vanished, group, entry.was.master);
        }
    }
}

/// Enters each group that no longer has a member, with the master that it had when the change began. What was entered
/// before is forgotten.
pub(crate) fn enter_all(entries: &[Entry], members: &Lists, vanished: &mut IndexMap<GroupId, Above>)
    requires listed { members.now.rows ≡ rows_by mount_of peer_group (now_peers entries.now) }
    requires room { length entries.now ≤ spare vanished.old }
    ensures vanished { IsVanished (was_peers entries.now) (now_peers entries.now) vanished.new }
    ensures near { (most : ℕ) → AreNear most vanished.new }
    ensures room { spare vanished.old ≤ spare vanished.new + length entries.now }
{
    vanished.clear();
    for entry in entries {
        enter(entry, members, vanished);
    }
}

/// What is known above a group that does not live.
fn known_above(
    members: &Lists,
    vanished: &IndexMap<GroupId, Above>,
    group: GroupId,
) -> Option<Above>
    ensures known { (es : List Peer) → members.now.rows ≡ rows_by mount_of peer_group es → result ≡ cond (has_member es group) None (get nat_eq vanished.now group) }
    ensures entered { IfSome result (λ above. get nat_eq vanished.now group ≡ Some above) }
{
    if lives(members, group) {
        return None;
    }
    vanished.get(&group).copied()
}

/// The first group that lives from a group upwards, or else where the search ends: above all that is known, or more than
/// this many steps up.
fn reached(
    members: &Lists,
    vanished: &IndexMap<GroupId, Above>,
    most: usize,
    group: GroupId,
) -> Above
    requires few { most < 2 ^ 63 }
    requires near { AreNear most vanished.now }
    ensures { (old new : List Peer) → members.now.rows ≡ rows_by mount_of peer_group new → IsVanished old new vanished.now → IsReached old new most group result }
{
    let mut here = Above {
        up: Some(group),
        steps: 0,
    };
    'chain: while let Some(passed) = here.up {
        if most < here.steps {
            return here;
        }
        let Some(next) = known_above(members, vanished, passed) else {
            return here;
        };
        here = Above {
            up: next.up,
            steps: here.steps + next.steps,
        };
    }
    here
}

/// Writes what is known above a group that was entered.
fn put(vanished: &mut IndexMap<GroupId, Above>, group: GroupId, above: Above)
    requires there { IsTrue (is_some (get nat_eq vanished.old group)) }
    ensures written { (g : ℕ) → get nat_eq vanished.new g ≡ cond (nat_eq group g) (Some above) (get nat_eq vanished.old g) }
    ensures room { spare vanished.old ≤ spare vanished.new }
{
    if let Some(place) = vanished.get_mut(&group) {
        *place = above;
    }
}

/// Notes where the way up from a group ended, for each group that was passed on it.
fn shorten(vanished: &mut IndexMap<GroupId, Above>, most: usize, group: GroupId, end: Above)
    requires near { AreNear most vanished.old }
    requires within { end.steps ≤ most }
    ensures kept { (old new : List Peer) → IsVanished old new vanished.old → IsAbove (has_member new) (master_of old) (Some group) end.up end.steps → IsVanished old new vanished.new }
    ensures near { AreNear most vanished.new }
    ensures room { spare vanished.old ≤ spare vanished.new }
{
    let mut here = group;
    let mut rest = end.steps;
    'passed: while let Some(found) = vanished.get(&here).copied() {
        if rest <= found.steps {
            return;
        }
        let above = Above {
            up: end.up,
            steps: rest,
        };
        put(vanished, here, above);
        let Some(up) = found.up else {
            return;
        };
        rest -= found.steps;
        here = up;
    }
}

/// The group, if it lives.
fn living(members: &Lists, group: Option<GroupId>) -> Option<GroupId>
    ensures { (es : List Peer) → members.now.rows ≡ rows_by mount_of peer_group es → result ≡ if_passes (has_member es) group }
{
    let group = group?;
    if lives(members, group) {
        Some(group)
    } else {
        None
    }
}

/// The first group that still lives among a group and the masters that were above it, which is then noted for all
/// groups that were passed.
pub(crate) fn heir_from(
    members: &Lists,
    vanished: &mut IndexMap<GroupId, Above>,
    most: usize,
    group: GroupId,
) -> Option<GroupId>
    requires few { most < 2 ^ 63 }
    requires near { AreNear most vanished.old }
    ensures heir { (old new : List Peer) → members.now.rows ≡ rows_by mount_of peer_group new → IsVanished old new vanished.old → length old ≡ most → result ≡ heir old new (Some group) }
    ensures kept { (old new : List Peer) → members.now.rows ≡ rows_by mount_of peer_group new → IsVanished old new vanished.old → IsVanished old new vanished.new }
    ensures near { AreNear most vanished.new }
    ensures room { spare vanished.old ≤ spare vanished.new }
{
    let end = reached(members, vanished, most, group);
    if most < end.steps {
        return None;
    }
    shorten(vanished, most, group, end);
    living(members, end.up)
}
