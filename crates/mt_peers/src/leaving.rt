//! Mounts that leave without taking another mount's master along.
ghost use Rattle.std.specs.Prelude.{◌≡◌, ◌≤◌, not, ◌||◌, IsTrue, vec_capacity, vec_len};
ghost use Rattle.std.specs.List.{filter, list_all};
ghost use Rattle.mt_skel.specs.Keyed.{among, without, rises};
ghost use Rattle.mt_lists.specs.Lists.{first, ids, names};
ghost use Rattle.mt_peers.specs.Peers.{mount_of};
ghost use Rattle.mt_peers.specs.Entries.{now_peers};
ghost use Rattle.mt_peers.specs.Listed.{IsListed};
ghost use Rattle.mt_peers.specs.Going.{stays, may_go, keeps, loses_none};

use crate::chosen::Chosen;
use crate::entries::{Entry, drop_entries, drop_entry};
use crate::state::{GroupId, Kind};
use mt_lists::lists::Lists;
use mt_mounts::mount::MountId;

/// Whether one of the mounts of a group's list stays.
fn any_stays(lists: &Lists, group: GroupId, gone: &Chosen<'_>) -> bool
    ensures { result ≡ stays (among gone.now) (ids lists.now.rows group) }
{
    let mut here = lists.first(group);
    'list: while let Some(id) = here {
        if !gone.has(id) {
            return true;
        }
        here = lists.after(id);
    }
    false
}

/// Whether a mount is the first one of a group's list.
fn is_first(lists: &Lists, group: GroupId, id: MountId) -> bool
    ensures { result ≡ names (first (ids lists.now.rows group)) id }
{
    match lists.first(group) {
        Some(first) => first == id,
        None => false,
    }
}

/// Whether a group keeps a member, or leaves no slave behind.
fn leaves_none(members: &Lists, slaves: &Lists, group: GroupId, gone: &Chosen<'_>) -> bool
    ensures { result ≡ (stays (among gone.now) (ids members.now.rows group) || not (stays (among gone.now) (ids slaves.now.rows group))) }
{
    if any_stays(members, group, gone) {
        return true;
    }
    !any_stays(slaves, group, gone)
}

/// Whether a mount that leaves takes no master along. It is asked only of the first member of its group, so that no
/// list is gone through twice.
fn may_go(members: &Lists, slaves: &Lists, id: MountId, gone: &Chosen<'_>) -> bool
    ensures { result ≡ may_go members.now.rows slaves.now.rows (among gone.now) id }
{
    let Some(group) = members.number(id) else {
        return true;
    };
    if !is_first(members, group, id) {
        return true;
    }
    leaves_none(members, slaves, group, gone)
}

/// Whether none of these mounts, which leave, takes a master along.
pub(crate) fn may_all_go(
    members: &Lists,
    slaves: &Lists,
    ids: &[MountId],
    gone: &Chosen<'_>,
) -> bool
    ensures { result ≡ list_all (may_go members.now.rows slaves.now.rows (among gone.now)) ids.now }
{
    for id in ids {
        if !may_go(members, slaves, *id, gone) {
            return false;
        }
    }
    true
}

/// Whether the group that a mount loses keeps a member. It is asked only of the first member of a group.
fn keeps(members: &Lists, id: MountId, lost: &Chosen<'_>) -> bool
    ensures { result ≡ keeps members.now.rows (among lost.now) id }
{
    let Some(group) = members.number(id) else {
        return true;
    };
    if !is_first(members, group, id) {
        return true;
    }
    any_stays(members, group, lost)
}

/// Whether each group that these mounts lose keeps a member.
fn all_keep(members: &Lists, ids: &[MountId], lost: &Chosen<'_>) -> bool
    ensures { result ≡ list_all (keeps members.now.rows (among lost.now)) ids.now }
{
    for id in ids {
        if !keeps(members, *id, lost) {
            return false;
        }
    }
    true
}

/// Whether each group that is a master keeps a member when these mounts are made so.
pub(crate) fn loses_none(
    members: &Lists,
    slaves: &Lists,
    ids: &[MountId],
    chosen: &Chosen<'_>,
    kind: Kind,
) -> bool
    ensures { result ≡ loses_none kind members.now.rows slaves.now.rows (among chosen.now) ids.now }
{
    match kind {
        Kind::Shared => true,
        Kind::Slave => all_keep(members, ids, chosen),
        Kind::Private => may_all_go(members, slaves, ids, chosen),
        Kind::Unbindable => may_all_go(members, slaves, ids, chosen),
    }
}

/// Takes these mounts, as far as they are there, out of lists.
fn forget_all(lists: &mut Lists, ids: &[MountId])
    ensures rows { lists.new.rows ≡ without (λ r. among ids.now r.id) lists.old.rows }
    ensures room { lists.old.room ≤ lists.new.room }
{
    for id in ids {
        lists.remove(*id);
    }
}

/// Takes these mounts, as far as they are there, out of the entries: a single one at its place, several in one pass.
pub(crate) fn drop_all(entries: &mut Vec<Entry>, ids: &[MountId])
    requires { IsTrue (rises mount_of (now_peers entries.old.items)) }
    ensures entries { entries.new.items ≡ filter (λ e. not (among ids.now e.mount)) entries.old.items }
    ensures len { vec_len entries.new ≤ vec_len entries.old }
    ensures capacity { vec_capacity entries.new ≡ vec_capacity entries.old }
{
    match ids {
        [id] => drop_entry(entries, *id),
        _ => drop_entries(entries, &Chosen::new(ids)),
    }
}

/// Takes these mounts, as far as they are there, out of the entries and both lists, and settles no
/// master.
pub(crate) fn take_out(
    entries: &mut Vec<Entry>,
    members: &mut Lists,
    slaves: &mut Lists,
    ids: &[MountId],
)
    requires listed { IsListed (now_peers entries.old.items) members.old.rows slaves.old.rows }
    ensures peers { now_peers entries.new.items ≡ without (λ e. among ids.now e.mount) (now_peers entries.old.items) }
    ensures listed { IsListed (now_peers entries.new.items) members.new.rows slaves.new.rows }
    ensures len { vec_len entries.new ≤ vec_len entries.old }
    ensures capacity { vec_capacity entries.new ≡ vec_capacity entries.old }
    ensures members_room { members.old.room ≤ members.new.room }
    ensures slaves_room { slaves.old.room ≤ slaves.new.room }
{
    forget_all(members, ids);
    forget_all(slaves, ids);
    drop_all(entries, ids);
}
