//! Detached trees: opened as copies of what is mounted at a path, and made of a filesystem.
ghost use Rattle.std.specs.Prelude.{◌≡◌, ◌≢◌, ◌<◌, ◌^◌, IfOk, IfErr, OnErr, IsOkUnless, Ok, Err};
ghost use Rattle.mt_propagate.specs.World.{world_view};
ghost use Rattle.mt_propagate.specs.WellFormed.{IsWellFormed};
ghost use Rattle.mt_propagate.specs.Touched.{since_view};
ghost use Rattle.mt_propagate.specs.Plans.{member_of};
ghost use Rattle.mt_bind.specs.Opening.{unplaced_top, opened_sources, tree_opened, tree_made};

use crate::binding::{is_unbindable, members_at};
use crate::copying::{add_space, copies, make_room, states};
use crate::spaces::{add_root, ready_root, too_many};
use mt_mounts::mount::{Mount, MountId, Place, SpaceId};
use mt_propagate::copies::mount_or_unknown;
use mt_propagate::world::World;
use mt_skel::fault::Fault;
use mt_skel::name::{Label, Name};

/// A mount that is copied into a tree. The top stands nowhere, and shows the directory where the path ends.
fn source(world: &World, from: Place, id: MountId) -> Mount
    ensures { result ≡ unplaced_top from.mount (member_of (world_view world.now) from.mount from.dir id) }
{
    let mount = mount_or_unknown(world, id);
    if id != from.mount {
        return mount;
    }
    Mount {
        place: None,
        root: from.dir,
        ..mount
    }
}

/// The mounts of which a tree has copies, by rising ID: that of the place, and with `recursive` those below it.
fn sources(world: &World, from: Place, recursive: bool) -> Result<Vec<Mount>, Fault>
    requires well_formed { IsWellFormed (world_view world.now) }
    ensures sources { IfOk result (λ mounts. mounts.items ≡ opened_sources (world_view world.now) recursive from) }
    ensures memory { IsOkUnless result Fault.NoMemory }
{
    let members = members_at(world, from, recursive)?;
    let mut mounts = Vec::with_capacity(world.forest.allocator(), members.len())?;
    for id in &members {
        mounts.push(source(world, from, *id))?;
    }
    Ok(mounts)
}

/// Copies the mount where a path ends, as seen from that directory on, into a detached tree, which is a namespace, and
/// answers its number; with `recursive` all that stand on it within the directory too, but no unbindable mount, nor what
/// stands on one. Each copy is a peer of its source or a slave of the same master. Nothing propagates.
///
/// Refused as `NoNamespace`, `NoEntry` if a component of the path is not there, `Unbindable` if the mount is unbindable,
/// `TooMany` at 64 namespaces or above 4,096 mounts times the room, and as `NoMemory`; then nothing has changed.
pub fn open_tree(
    world: &mut World,
    space: SpaceId,
    path: &[Name],
    recursive: bool,
) -> Result<SpaceId, Fault>
    requires well_formed { IsWellFormed (world_view world.old) }
    requires numbers { (world.old.next_mount < 2 ^ 63) × (world.old.next_space < 2 ^ 63) }
    ensures done { IfOk result (λ tree. tree_opened (world_view world.old) space path.now recursive ≡ Ok (world_view world.new, tree)) }
    ensures refused { IfErr result (λ fault. fault ≢ Fault.NoMemory → tree_opened (world_view world.old) space path.now recursive ≡ Err fault) }
    ensures unchanged { OnErr result (world_view world.new ≡ world_view world.old) }
    ensures kept { IsWellFormed (world_view world.new) }
    ensures since { since_view world.new ≡ since_view world.old }
{
    let from = world.forest.walk(&world.skel, space, path)?;
    if is_unbindable(world, from.mount) {
        return Err(Fault::Unbindable);
    }
    let sources = sources(world, from, recursive)?;
    if too_many(world, sources.len()) {
        return Err(Fault::TooMany);
    }
    let mounts = copies(world, &sources)?;
    let states = states(world, &sources, false)?;
    make_room(world, sources.len())?;
    let tree = world.next_space;
    world.add_tree(tree)?;
    Ok(add_space(world, &mounts, &states))
}

/// Makes a detached tree, which is a namespace, of one private mount that shows the root of the filesystem of this name,
/// and answers its number. Nothing propagates.
///
/// Refused as `NoFilesystem`, as `TooMany` at 64 namespaces or 4,096 mounts times the room, and as `NoMemory`; then nothing
/// has changed.
pub fn new_tree(world: &mut World, fs: &Label) -> Result<SpaceId, Fault>
    requires well_formed { IsWellFormed (world_view world.old) }
    requires numbers { (world.old.next_mount < 2 ^ 63) × (world.old.next_space < 2 ^ 63) }
    ensures done { IfOk result (λ tree. tree_made (world_view world.old) fs.now ≡ Ok (world_view world.new, tree)) }
    ensures refused { IfErr result (λ fault. fault ≢ Fault.NoMemory → tree_made (world_view world.old) fs.now ≡ Err fault) }
    ensures unchanged { OnErr result (world_view world.new ≡ world_view world.old) }
    ensures kept { IsWellFormed (world_view world.new) }
    ensures since { since_view world.new ≡ since_view world.old }
{
    let root = ready_root(world, fs)?;
    world.add_tree(root.space)?;
    Ok(add_root(world, root))
}
