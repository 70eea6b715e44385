//! Mounting filesystems.
ghost use Rattle.std.specs.Prelude.{◌≡◌, ◌≢◌, ◌^◌, ◌<◌, IfOk, IfErr, OnErr, Ok, Err};
ghost use Rattle.mt_propagate.specs.World.{world_view};
ghost use Rattle.mt_propagate.specs.WellFormed.{IsWellFormed};
ghost use Rattle.mt_propagate.specs.Touched.{since_view};
ghost use Rattle.mt_bind.specs.Mounting.{mounted, mounted_with};

use mt_mounts::mount::{MountId, SpaceId};
use mt_propagate::carry::{carry_out, ready};
use mt_propagate::copies::Sources;
use mt_propagate::named::is_root_place;
use mt_propagate::plan::make_plan;
use mt_propagate::world::World;
use mt_setattr::change::SetWords;
use mt_skel::fault::Fault;
use mt_skel::name::{Label, Name};

/// Mounts the filesystem of this name where the path leads in a namespace, and at each propagation
/// target of that place, and answers the ID of the mount at the place itself. The new mounts are
/// `rw,relatime`.
///
/// Refused as `NoFilesystem`, `NoNamespace`, `NoEntry` if a component is not there, `RootPlace` if
/// the path is `/`, `TooMany` above 4,096 mounts times the room, and as `NoMemory`; then nothing has changed.
pub fn mount(world: &mut World, space: SpaceId, fs: &Label, path: &[Name]) -> Result<MountId, Fault>
    requires well_formed { IsWellFormed (world_view world.old) }
    requires numbers { (world.old.next_mount < 2 ^ 63) × (world.old.peers.next < 2 ^ 63) }
    ensures done { IfOk result (λ id. mounted (world_view world.old) space fs.now path.now ≡ Ok (world_view world.new, id)) }
    ensures refused { IfErr result (λ fault. fault ≢ Fault.NoMemory → mounted (world_view world.old) space fs.now path.now ≡ Err fault) }
    ensures unchanged { OnErr result (world_view world.new ≡ world_view world.old) }
    ensures kept { IsWellFormed (world_view world.new) }
    ensures since { since_view world.new ≡ since_view world.old }
{
    mount_with_attrs(world, space, fs, path, &SetWords::new())
}

/// Mounts the filesystem of this name as [`mount`] does, with these attributes at the place and at
/// each target. What is not set is as in any new mount: `rw,relatime`.
///
/// Refused as `NoFilesystem`, `NoNamespace`, `NoEntry` if a component is not there, `RootPlace` if
/// the path is `/`, `BadAttr` if two access times are set, `TooMany` above 4,096 mounts times the room, and as
/// `NoMemory`; then nothing has changed.
pub fn mount_with_attrs(
    world: &mut World,
    space: SpaceId,
    fs: &Label,
    path: &[Name],
    set: &SetWords,
) -> Result<MountId, Fault>
    requires well_formed { IsWellFormed (world_view world.old) }
    requires numbers { (world.old.next_mount < 2 ^ 63) × (world.old.peers.next < 2 ^ 63) }
    ensures done { IfOk result (λ id. mounted_with (world_view world.old) space fs.now path.now set.now ≡ Ok (world_view world.new, id)) }
    ensures refused { IfErr result (λ fault. fault ≢ Fault.NoMemory → mounted_with (world_view world.old) space fs.now path.now set.now ≡ Err fault) }
    ensures unchanged { OnErr result (world_view world.new ≡ world_view world.old) }
    ensures kept { IsWellFormed (world_view world.new) }
    ensures since { since_view world.new ≡ since_view world.old }
{
    let Some(fs) = world.skel.fs(fs) else {
        return Err(Fault::NoFilesystem);
    };
    let place = world.forest.walk(&world.skel, space, path)?;
    if is_root_place(world, place) {
        return Err(Fault::RootPlace);
    }
    if set.sets_two_times() {
        return Err(Fault::BadAttr);
    }
    let root = world.skel.root(fs);
    let attrs = set.attrs();
    let plan = make_plan(world, &Sources::Fresh { root, attrs }, place)?;
    ready(world, &plan)?;
    Ok(carry_out(world, plan))
}
