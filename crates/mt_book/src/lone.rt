//! The one namespace in which most commands change something.
ghost use Rattle.std.specs.Prelude.{◌≡◌, ◌==◌, true, IfSome, IsTrue};
ghost use Rattle.std.specs.List.{list_all};
ghost use Rattle.std.specs.Option.{option_map_or};
ghost use Rattle.mt_propagate.specs.World.{world_view};
ghost use Rattle.mt_book.specs.Parts.{stays_in, rests_in};

use mt_info::touched::is_elsewhere;
use mt_mounts::mount::{Mount, MountId, SpaceId};
use mt_propagate::world::{World, space_of};

/// Whether a mount, if there is one, is in this namespace.
fn is_only_in(space: SpaceId, mount: Option<Mount>) -> bool
    ensures { result ≡ option_map_or (λ m. m.space == space) mount true }
{
    match mount {
        Some(mount) => mount.space == space,
        None => true,
    }
}

/// Whether a mount is in no other namespace than this one, before or after.
fn stays_in(old: &World, new: &World, space: SpaceId, id: MountId) -> bool
    ensures { result ≡ stays_in (world_view old.now) (world_view new.now) space id }
{
    is_only_in(space, old.forest.get(id)) && is_only_in(space, new.forest.get(id))
}

/// Whether a mount is in no other namespace than this one, before or after, and did not move. It is looked at once in
/// each world.
fn rests_in(old: &World, new: &World, space: SpaceId, id: MountId) -> bool
    ensures { result ≡ rests_in (world_view old.now) (world_view new.now) space id }
{
    let (before, after) = (old.forest.get(id), new.forest.get(id));
    is_only_in(space, before) && is_only_in(space, after) && !is_elsewhere(before, after)
}

/// The namespace of a mount after a command, or before it if the mount is gone.
fn space_after(old: &World, new: &World, id: MountId) -> SpaceId {
    match new.forest.get(id) {
        Some(mount) => mount.space,
        None => space_of(old, id),
    }
}

/// The namespace that all these mounts were in and are in, if there is only one. Takes no memory.
pub(crate) fn lone_space(old: &World, new: &World, ids: &[MountId]) -> Option<SpaceId>
    ensures { IfSome result (λ space. IsTrue (list_all (stays_in (world_view old.now) (world_view new.now) space) ids.now)) }
{
    let space = space_after(old, new, *ids.first()?);
    'mounts: for id in ids {
        if !stays_in(old, new, space, *id) {
            return None;
        }
    }
    Some(space)
}

/// The same, if none of these mounts moved.
pub(crate) fn resting_space(old: &World, new: &World, ids: &[MountId]) -> Option<SpaceId>
    ensures { IfSome result (λ space. IsTrue (list_all (rests_in (world_view old.now) (world_view new.now) space) ids.now)) }
{
    let space = space_after(old, new, *ids.first()?);
    'mounts: for id in ids {
        if !rests_in(old, new, space, *id) {
            return None;
        }
    }
    Some(space)
}
