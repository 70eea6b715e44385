//! Binds: copies of one mount, or of the tree of mounts below a directory.
ghost use Rattle.std.specs.Prelude.{◌≡◌, ◌≢◌, ◌^◌, ◌<◌, cond, map, IfOk, IfErr, OnErr, IsOkUnless, Ok, Err, [], ◌∷◌};
ghost use Rattle.std.specs.List.{filter};
ghost use Rattle.mt_mounts.specs.Forest.{id_of};
ghost use Rattle.mt_propagate.specs.World.{world_view, state_of};
ghost use Rattle.mt_propagate.specs.WellFormed.{IsWellFormed};
ghost use Rattle.mt_propagate.specs.Touched.{since_view};
ghost use Rattle.mt_propagate.specs.Plans.{source_of};
ghost use Rattle.mt_bind.specs.Sources.{alone, tree_within, is_bound_along};
ghost use Rattle.mt_bind.specs.Mounting.{bound};

use crate::members::members_within;
use mt_mounts::mount::{MountId, Place, SpaceId};
use mt_propagate::carry::{carry_out, ready};
use mt_propagate::copies::Sources;
use mt_propagate::limits::too_many_mounts;
use mt_propagate::named::is_root_place;
use mt_propagate::plan::make_plan;
use mt_propagate::world::{World, state_of};
use mt_skel::fault::Fault;
use mt_skel::name::Name;

/// Whether a mount is unbindable.
pub fn is_unbindable(world: &World, id: MountId) -> bool
    ensures { result ≡ (state_of (world_view world.now) id).unbindable }
{
    state_of(world, id).unbindable
}

/// A list of one mount.
fn only(world: &World, id: MountId) -> Result<Vec<MountId>, Fault>
    ensures only { IfOk result (λ ids. ids.items ≡ id ∷ []) }
    ensures memory { IsOkUnless result Fault.NoMemory }
{
    let mut ids = Vec::with_capacity(world.forest.allocator(), 1)?;
    ids.push(id)?;
    Ok(ids)
}

/// The mounts that a bind of a place copies, by rising ID: its mount alone, or with `recursive` the tree of mounts below
/// it.
pub fn members_at(world: &World, from: Place, recursive: bool) -> Result<Vec<MountId>, Fault>
    requires well_formed { IsWellFormed (world_view world.now) }
    ensures members { IfOk result (λ ids. ids.items ≡ cond recursive (map id_of (filter (λ m. is_bound_along (world_view world.now) from m.id) world.now.forest.mounts)) (from.mount ∷ [])) }
    ensures memory { IsOkUnless result Fault.NoMemory }
{
    if recursive {
        return members_within(world, from);
    }
    only(world, from.mount)
}

/// What a bind of a place copies: its mount alone, or with `recursive` the tree of mounts below it.
fn sources_at(world: &World, from: Place, recursive: bool) -> Result<Sources, Fault>
    requires well_formed { IsWellFormed (world_view world.now) }
    ensures sources { IfOk result (λ sources. source_of (world_view world.now) sources ≡ cond recursive (tree_within (world_view world.now) from) (alone (world_view world.now) from)) }
    ensures memory { IsOkUnless result Fault.NoMemory }
{
    let members = members_at(world, from, recursive)?;
    Ok(Sources::Tree {
        top: from.mount,
        root: from.dir,
        members,
        moved: false,
    })
}

/// Copies the mount where one path ends, as seen from that directory on, without what stands on it, to where another path
/// ends and to each propagation target of that place, and answers the ID of the copy at the place itself.
///
/// With `recursive` all that stand on it within the directory are copied too, at whatever height, as one tree, and the ID
/// is that of the topmost copy. An unbindable mount is left out then, with all mounts that stand on it.
///
/// Refused as `NoNamespace`, `NoEntry` if a component of either path is not there, the source path first, `RootPlace` if
/// the other path is `/`, `Unbindable` if the mount is, `TooMany` above 4,096 mounts times the room, and as `NoMemory`;
/// then nothing has changed.
pub fn bind(
    world: &mut World,
    space: SpaceId,
    recursive: bool,
    from: &[Name],
    to: &[Name],
) -> Result<MountId, Fault>
    requires well_formed { IsWellFormed (world_view world.old) }
    requires numbers { (world.old.next_mount < 2 ^ 63) × (world.old.peers.next < 2 ^ 63) }
    ensures done { IfOk result (λ id. bound (world_view world.old) space recursive from.now to.now ≡ Ok (world_view world.new, id)) }
    ensures refused { IfErr result (λ fault. fault ≢ Fault.NoMemory → bound (world_view world.old) space recursive from.now to.now ≡ Err fault) }
    ensures unchanged { OnErr result (world_view world.new ≡ world_view world.old) }
    ensures kept { IsWellFormed (world_view world.new) }
    ensures since { since_view world.new ≡ since_view world.old }
{
    let source = world.forest.walk(&world.skel, space, from)?;
    let place = world.forest.walk(&world.skel, space, to)?;
    if is_root_place(world, place) {
        return Err(Fault::RootPlace);
    }
    if is_unbindable(world, source.mount) {
        return Err(Fault::Unbindable);
    }
    // A copy comes at least to the place itself.
    if too_many_mounts(world, 1) {
        return Err(Fault::TooMany);
    }
    let sources = sources_at(world, source, recursive)?;
    let plan = make_plan(world, &sources, place)?;
    ready(world, &plan)?;
    Ok(carry_out(world, plan))
}
