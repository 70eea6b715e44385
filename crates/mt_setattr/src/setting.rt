//! The change of mounts.
ghost use Rattle.std.specs.Prelude.{◌≡◌, ◌≢◌, ◌<◌, ◌≤◌, ◌^◌, ◌||◌, ◌&&◌, not, map, length, IsTrue, OnOk, OnErr, IfErr, IsOkUnless, Ok, Err};
ghost use Rattle.std.specs.Option.{option_map_or, is_some};
ghost use Rattle.mt_skel.specs.Keyed.{has, among};
ghost use Rattle.mt_mounts.specs.Forest.{id_of};
ghost use Rattle.mt_peers.specs.Making.{made};
ghost use Rattle.mt_propagate.specs.World.{world_view};
ghost use Rattle.mt_propagate.specs.WellFormed.{IsWellFormed};
ghost use Rattle.mt_propagate.specs.Touched.{since_view};
ghost use Rattle.mt_setattr.specs.Change.{clashes, changed_atime, changed_attrs, changed_mount, with_change, changes_inside, attributed};

use crate::change::Change;
use mt_mounts::forest::Forest;
use mt_mounts::mount::{Atime, Attrs, MountId, Place, SpaceId};
use mt_propagate::named::{is_mount_root, is_root_mount};
use mt_propagate::world::World;
use mt_skel::fault::Fault;
use mt_skel::name::Name;

/// Whether a change sets two access times, or one for which it makes no room.
pub fn clashes(change: &Change) -> bool
    ensures { result ≡ clashes change.now }
{
    let set = &change.set;
    let any = set.relatime || set.noatime || set.strictatime;
    set.sets_two_times() || any && !change.clr.atime
}

/// The access times of a mount after a change.
fn atime_after(change: &Change, atime: Atime) -> Atime
    ensures { result ≡ changed_atime change.now atime }
{
    if change.set.noatime {
        Atime::Noatime
    } else if change.set.strictatime {
        Atime::Strictatime
    } else if change.set.relatime || change.clr.atime {
        Atime::Relatime
    } else {
        atime
    }
}

/// A flag after a change: what is cleared goes first, then what is set comes.
fn flag_after(had: bool, clear: bool, set: bool) -> bool
    ensures { result ≡ ((had && not clear) || set) }
{
    had && !clear || set
}

/// The attributes of a mount after a change.
pub fn attrs_after(change: &Change, attrs: &Attrs) -> Attrs
    ensures { result ≡ changed_attrs change.now attrs.now }
{
    let clr = &change.clr;
    let set = &change.set;
    Attrs {
        ro: flag_after(attrs.ro, clr.ro, set.ro),
        nosuid: flag_after(attrs.nosuid, clr.nosuid, set.nosuid),
        nodev: flag_after(attrs.nodev, clr.nodev, set.nodev),
        noexec: flag_after(attrs.noexec, clr.noexec, set.noexec),
        nosymfollow: flag_after(attrs.nosymfollow, clr.nosymfollow, set.nosymfollow),
        nodiratime: flag_after(attrs.nodiratime, clr.nodiratime, set.nodiratime),
        atime: atime_after(change, attrs.atime),
    }
}

/// Changes the attributes of these mounts. One that is listed twice is changed once, since
/// repeating a change does nothing. There is room for as many changes.
fn change_attrs(forest: &mut Forest, ids: &[MountId], change: &Change)
    requires room { length ids.now ≤ forest.old.room }
    ensures mounts { forest.new.mounts ≡ map (changed_mount change.now (among ids.now)) forest.old.mounts }
    ensures since { forest.new.since ≡ forest.old.since }
{
    for id in ids {
        if let Some(mount) = forest.get(*id) {
            forest.set_attrs(*id, attrs_after(change, &mount.attrs));
        }
    }
}

/// Makes room for a change of this many mounts, and changes nothing: new attributes need it for each of them, and a new
/// propagation for as many mounts as there are.
fn reserve_change(world: &mut World, count: usize, change: &Change) -> Result<(), Fault>
    ensures attrs { OnOk result (count ≤ world.new.forest.room) }
    ensures room { OnOk result (IsTrue (is_some change.now.prop) → length world.new.peers.peers ≤ world.new.peers.room) }
    ensures memory { IsOkUnless result Fault.NoMemory }
    ensures world { world_view world.new ≡ world_view world.old }
    ensures since { since_view world.new ≡ since_view world.old }
{
    world.forest.reserve(count)?;
    if change.prop.is_some() {
        world.reserve_states()?;
    }
    Ok(())
}

/// Changes these mounts, all at once. It takes no memory: [`reserve_change`] has made room.
fn change_all(world: &mut World, ids: &[MountId], change: &Change)
    requires attrs { length ids.now ≤ world.old.forest.room }
    requires room { IsTrue (is_some change.now.prop) → length world.old.peers.peers ≤ world.old.peers.room }
    requires numbered { world.old.peers.next < 2 ^ 63 }
    ensures world { world_view world.new ≡ record (world_view world.old) { forest = map (changed_mount change.now (among ids.now)) world.old.forest.mounts; peering = option_map_or (λ k. made k (among ids.now) (world_view world.old).peering) change.now.prop (world_view world.old).peering } }
    ensures since { since_view world.new ≡ since_view world.old }
{
    change_attrs(&mut world.forest, ids, change);
    if let Some(kind) = change.prop {
        world.peers.make_all(ids, kind);
    }
}

/// Changes a mount, and if the change is recursive all mounts below it.
fn change_from(world: &mut World, top: MountId, change: &Change) -> Result<(), Fault>
    requires there { IsTrue (has id_of top world.old.forest.mounts) }
    requires numbered { world.old.peers.next < 2 ^ 63 }
    ensures done { OnOk result (world_view world.new ≡ with_change (world_view world.old) change.now top) }
    ensures memory { IsOkUnless result Fault.NoMemory }
    ensures unchanged { OnErr result (world_view world.new ≡ world_view world.old) }
    ensures since { since_view world.new ≡ since_view world.old }
{
    if change.recursive {
        let ids = world.forest.subtree(top)?;
        reserve_change(world, ids.len(), change)?;
        change_all(world, &ids, change);
    } else {
        reserve_change(world, 1, change)?;
        change_all(world, &[top], change);
    }
    Ok(())
}

/// Whether attributes are to be changed in a detached tree, below its root mount.
pub fn changes_inside(world: &World, space: SpaceId, place: Place, change: &Change) -> bool
    ensures { result ≡ changes_inside (world_view world.now) space place change.now }
{
    world.is_tree(space)
        && (change.set.sets_some() || change.clr.clears_some())
        && !is_root_mount(world, place)
}

/// Changes the mount that a path names in a namespace, and if the change is recursive all mounts
/// below it, all at once. It may be a root mount. An empty change changes nothing.
///
/// Refused as `NoNamespace` if the namespace is not there, `NoEntry` if a directory of the path is
/// not, `NotMountRoot` if the path does not end at the root of a mount, `BadAttr` if two access
/// times are set, or one while the access time is not taken away, `Detached` if attributes would
/// be changed below the root mount of a detached tree, and as `NoMemory`; then nothing has changed.
#[tactic(auto, unfolding(crate::specs::Change::attributed))]
pub fn set_attr(
    world: &mut World,
    space: SpaceId,
    path: &[Name],
    change: &Change,
) -> Result<(), Fault>
    requires numbered { world.old.peers.next < 2 ^ 63 }
    ensures done { OnOk result (attributed (world_view world.old) space path.now change.now ≡ Ok (world_view world.new)) }
    ensures refused { IfErr result (λ fault. fault ≢ Fault.NoMemory → attributed (world_view world.old) space path.now change.now ≡ Err fault) }
    ensures unchanged { OnErr result (world_view world.new ≡ world_view world.old) }
    ensures kept { IsWellFormed (world_view world.old) → IsWellFormed (world_view world.new) }
    ensures since { since_view world.new ≡ since_view world.old }
{
    let place = world.forest.walk(&world.skel, space, path)?;
    if !is_mount_root(world, place) {
        return Err(Fault::NotMountRoot);
    }
    if clashes(change) {
        return Err(Fault::BadAttr);
    }
    if changes_inside(world, space, place, change) {
        return Err(Fault::Detached);
    }
    change_from(world, place.mount, change)
}
