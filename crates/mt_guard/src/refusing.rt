//! What is refused for a lock, and what comes before that.
ghost use Rattle.std.specs.Prelude.{◌≡◌, ◌&&◌, false, not};
ghost use Rattle.std.specs.List.{list_any};
ghost use Rattle.std.specs.Option.{option_map_or};
ghost use Rattle.mt_skel.specs.Keyed.{among};
ghost use Rattle.mt_mounts.specs.Forest.{parent};
ghost use Rattle.mt_propagate.specs.World.{world_view};
ghost use Rattle.mt_bind.specs.Sources.{stands_within};
ghost use Rattle.mt_locks.specs.declared.mount_locks.MountLocks.{MountLocks as AnyLocks};
ghost use Rattle.mt_locks.specs.Locks.{locked_ids};
ghost use Rattle.mt_setattr.specs.Change.{is_chosen};
ghost use Rattle.mt_guard.specs.Refusals.{same_flag, same_atime, changes_locked, copy_shows, unlocks, unlocks_some};

use mt_bind::pivoting::is_in_tree_of;
use mt_locks::mount_locks::MountLocks;
use mt_mounts::mount::{Atime, Attrs, MountId, Place};
use mt_propagate::copies::mount_or_unknown;
use mt_propagate::world::World;
use mt_setattr::change::Change;
use mt_setattr::setting::attrs_after;
use mt_skel::list::is_among;
use mt_skel::skel::Dir;

/// Whether a mount stands at a directory or below it.
fn stands_within(world: &World, dir: Dir, id: MountId) -> bool
    ensures { result ≡ stands_within (world_view world.now) dir id }
{
    match mount_or_unknown(world, id).place {
        Some(place) => world.skel.holds(dir, place.dir),
        None => false,
    }
}

/// Whether the copy of a mount copy_shows where another one stands on that.
fn copy_shows(world: &World, from: Place, on: MountId, id: MountId) -> bool
    ensures { result ≡ copy_shows (world_view world.now) from on id }
{
    on != from.mount || stands_within(world, from.dir, id)
}

/// Whether a bind that copies these mounts leaves out another one that stands where a copy shows it.
fn leaves_out(world: &World, from: Place, copied: &[MountId], id: MountId) -> bool
    ensures { result ≡ (not (among copied.now id) && option_map_or (λ on. among copied.now on && copy_shows (world_view world.now) from on id) (parent world.now.forest.mounts id) false) }
{
    if is_among(copied, id) {
        return false;
    }
    match world.forest.parent(id) {
        Some(on) => is_among(copied, on) && copy_shows(world, from, on, id),
        None => false,
    }
}

/// Whether a bind that copies these mounts leaves out one of those that are locked on their places.
fn leaves_some_out(world: &World, from: Place, copied: &[MountId], locks: &[MountLocks]) -> bool
    ensures { result ≡ list_any (λ (k : AnyLocks). k.place && (not (among copied.now k.mount) && option_map_or (λ on. among copied.now on && copy_shows (world_view world.now) from on k.mount) (parent world.now.forest.mounts k.mount) false)) locks.now }
{
    for row in locks {
        if row.place && leaves_out(world, from, copied, row.mount) {
            return true;
        }
    }
    false
}

/// Whether a bind that copies these mounts leaves out one that is locked on its place.
pub(crate) fn uncovers(world: &World, from: Place, copied: &[MountId]) -> bool
    ensures { result ≡ list_any (λ id. not (among copied.now id) && option_map_or (λ on. among copied.now on && copy_shows (world_view world.now) from on id) (parent world.now.forest.mounts id) false) (locked_ids (world_view world.now).locks) }
{
    leaves_some_out(world, from, copied, world.locks.mounts())
}

/// Whether two flags are the same.
fn same_flag(first: bool, second: bool) -> bool
    ensures { result ≡ same_flag first second }
{
    first == second
}

/// Whether two access times are the same.
fn same_atime(first: Atime, second: Atime) -> bool
    ensures { result ≡ same_atime first second }
{
    first == second
}

/// Whether the updates of access times are the same.
fn same_times(before: &Attrs, after: &Attrs) -> bool
    ensures { result ≡ (same_flag before.now.nodiratime after.now.nodiratime && same_atime before.now.atime after.now.atime) }
{
    same_flag(before.nodiratime, after.nodiratime) && same_atime(before.atime, after.atime)
}

/// Whether attributes are changed of which some are locked.
fn changes_locked(locks: &MountLocks, before: &Attrs, after: &Attrs) -> bool
    ensures { result ≡ changes_locked locks.now before.now after.now }
{
    locks.ro && !after.ro
        || locks.nosuid && !after.nosuid
        || locks.nodev && !after.nodev
        || locks.noexec && !after.noexec
        || locks.atime && !same_times(before, after)
}

/// Whether a change of a mount is also of another one.
fn is_chosen(world: &World, change: &Change, top: MountId, id: MountId) -> bool
    ensures { result ≡ is_chosen (world_view world.now) change.now top id }
{
    top == id || change.recursive && is_in_tree_of(world, top, id)
}

/// Whether a change of a mount, or of its tree, takes away what is locked of another one.
fn unlocks(world: &World, change: &Change, top: MountId, locks: &MountLocks) -> bool
    ensures { result ≡ unlocks (world_view world.now) change.now top locks.now }
{
    if !is_chosen(world, change, top, locks.mount) {
        return false;
    }
    let attrs = mount_or_unknown(world, locks.mount).attrs;
    changes_locked(locks, &attrs, &attrs_after(change, &attrs))
}

/// Whether a change of a mount, or of its tree, takes away what is locked.
pub(crate) fn unlocks_some(world: &World, change: &Change, top: MountId) -> bool
    ensures { result ≡ unlocks_some (world_view world.now) change.now top }
{
    for row in world.locks.mounts() {
        if unlocks(world, change, top, row) {
            return true;
        }
    }
    false
}
