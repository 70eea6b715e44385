//! New namespaces of filesystems.
ghost use Rattle.std.specs.Prelude.{◌≡◌, ◌≢◌, ◌+◌, ◌≤◌, ◌^◌, ◌<◌, ◌||◌, length, false, Some, None, IfOk, IfErr, OnOk, OnErr, Ok, Err};
ghost use Rattle.std.specs.Option.{unwrap_or};
ghost use Rattle.mt_propagate.specs.World.{world_view, private};
ghost use Rattle.mt_propagate.specs.Limits.{too_many_mounts, too_many_spaces};
ghost use Rattle.mt_propagate.specs.WellFormed.{IsWellFormed};
ghost use Rattle.mt_propagate.specs.Touched.{since_view};
ghost use Rattle.mt_skel.specs.Skeleton.{fs_named};
ghost use Rattle.mt_skel.specs.Keyed.{put};
ghost use Rattle.mt_mounts.specs.Forest.{id_of, mount_at, root_mount};
ghost use Rattle.mt_peers.specs.Peers.{mount_of, state_at};
ghost use Rattle.mt_bind.specs.Spaces.{next_root, new_space};

use mt_mounts::mount::{Attrs, Mount, SpaceId};
use mt_propagate::limits::{too_many_mounts, too_many_spaces};
use mt_propagate::world::{PRIVATE, World};
use mt_skel::fault::Fault;
use mt_skel::name::Label;

/// Whether one more namespace with this many mounts is too many.
pub(crate) fn too_many(world: &World, more: usize) -> bool
    ensures { result ≡ (too_many_spaces (world_view world.now) || too_many_mounts (world_view world.now) more) }
{
    too_many_spaces(world) || too_many_mounts(world, more)
}

/// The root mount of one more namespace, which shows the root of the filesystem of this name. There is room for it then.
///
/// Refused as `NoFilesystem`, as `TooMany` at 64 namespaces or 4,096 mounts times the room, and as `NoMemory`.
pub(crate) fn ready_root(world: &mut World, fs: &Label) -> Result<Mount, Fault>
    ensures root { IfOk result (λ root. root ≡ next_root (world_view world.old) (unwrap_or (fs_named world.old.skel fs.now) 0)) }
    ensures passed { OnOk result ((fs_named world.old.skel fs.now ≡ Some (unwrap_or (fs_named world.old.skel fs.now) 0)) × (too_many_spaces (world_view world.old) ≡ false) × (too_many_mounts (world_view world.old) 1 ≡ false)) }
    ensures there { IfOk result (λ root. root.root < length world.old.skel.directories) }
    ensures refused { IfErr result (λ fault. fault ≢ Fault.NoMemory → new_space (world_view world.old) fs.now ≡ Err fault) }
    ensures room { OnOk result ((1 ≤ world.new.forest.room) × (1 ≤ world.new.peers.room)) }
    ensures world { world_view world.new ≡ world_view world.old }
    ensures since { since_view world.new ≡ since_view world.old }
{
    let Some(fs) = world.skel.fs(fs) else {
        return Err(Fault::NoFilesystem);
    };
    if too_many(world, 1) {
        return Err(Fault::TooMany);
    }
    world.forest.reserve(1)?;
    world.peers.reserve(1)?;
    Ok(Mount {
        id: world.next_mount,
        space: world.next_space,
        place: None,
        root: world.skel.root(fs),
        attrs: Attrs::new(),
    })
}

/// Adds the next namespace with this root mount, which is private, and answers its number. It needs no memory:
/// [`ready_root`] has made room.
pub(crate) fn add_root(world: &mut World, root: Mount) -> SpaceId
    requires room { (1 ≤ world.old.forest.room) × (1 ≤ world.old.peers.room) }
    requires numbers { (world.old.next_mount < 2 ^ 63) × (world.old.next_space < 2 ^ 63) }
    requires unplaced { root.place ≡ None }
    requires absent { mount_at world.old.forest.mounts root.id ≡ None }
    requires first { root_mount world.old.forest.mounts root.space ≡ None }
    requires stateless { state_at world.old.peers.peers root.id ≡ None }
    ensures forest { world.new.forest.mounts ≡ put id_of root world.old.forest.mounts }
    ensures peers { world.new.peers.peers ≡ put mount_of (record { mount = root.id; state = private }) world.old.peers.peers }
    ensures same { (world.new.skel ≡ world.old.skel) × (world.new.peers.next ≡ world.old.peers.next) × (world.new.trees ≡ world.old.trees) × (world.new.locks ≡ world.old.locks) }
    ensures next { (world.new.next_mount ≡ world.old.next_mount + 1) × (world.new.next_space ≡ world.old.next_space + 1) }
    ensures space { result ≡ root.space }
    ensures since { since_view world.new ≡ since_view world.old }
{
    world.forest.insert(root);
    world.peers.join(root.id, PRIVATE);
    world.next_mount += 1;
    world.next_space += 1;
    root.space
}

/// Adds a namespace whose root mount is private and shows the root of the filesystem of this name,
/// and answers its number.
///
/// Refused as `NoFilesystem`, as `TooMany` at 64 namespaces or 4,096 mounts times the room, and as `NoMemory`; then
/// nothing has changed.
pub fn new_space(world: &mut World, fs: &Label) -> Result<SpaceId, Fault>
    requires well_formed { IsWellFormed (world_view world.old) }
    requires numbers { (world.old.next_mount < 2 ^ 63) × (world.old.next_space < 2 ^ 63) }
    ensures done { IfOk result (λ space. new_space (world_view world.old) fs.now ≡ Ok (world_view world.new, space)) }
    ensures refused { IfErr result (λ fault. fault ≢ Fault.NoMemory → new_space (world_view world.old) fs.now ≡ Err fault) }
    ensures unchanged { OnErr result (world_view world.new ≡ world_view world.old) }
    ensures kept { IsWellFormed (world_view world.new) }
    ensures since { since_view world.new ≡ since_view world.old }
{
    let root = ready_root(world, fs)?;
    Ok(add_root(world, root))
}
