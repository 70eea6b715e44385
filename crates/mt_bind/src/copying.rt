//! Namespaces that are copies of others.
ghost use Rattle.std.specs.Prelude.{◌≡◌, ◌≢◌, ◌+◌, ◌<◌, ◌≤◌, ◌^◌, ◌++◌, map, length, nat_eq, IsTrue, IfOk, IfErr, OnOk, OnErr, IsOkUnless, Ok, Err};
ghost use Rattle.mt_skel.specs.Keyed.{numbered, rises};
ghost use Rattle.mt_mounts.specs.Forest.{id_of};
ghost use Rattle.mt_peers.specs.Peers.{mount_of, peers_of};
ghost use Rattle.mt_propagate.specs.World.{world_view};
ghost use Rattle.mt_propagate.specs.WellFormed.{HasDistinctPlaces, HasOneRoot, IsWellFormed};
ghost use Rattle.mt_propagate.specs.Touched.{since_view};
ghost use Rattle.mt_bind.specs.Spaces.{copy_space};
ghost use Rattle.mt_bind.specs.Copying.{copy_of, peer_of, state_of_copy};

use crate::spaces::too_many;
use mt_mounts::mount::{Mount, MountId, Place, SpaceId};
use mt_peers::state::State;
use mt_propagate::carry::{insert_all, join_all};
use mt_propagate::world::{World, state_of};
use mt_skel::fault::Fault;

/// The number of the copy of a mount, if the copies of these mounts get the numbers from `next` on. The mount is found
/// by halving the list, so their IDs have to rise.
fn copy_number(next: MountId, originals: &[Mount], id: MountId) -> MountId
    requires rising { IsTrue (rises id_of originals.now) }
    requires numbers { next + length originals.now < 2 ^ 64 }
    ensures { result ≡ numbered nat_eq next (map id_of originals.now) id }
{
    match originals.binary_search_by_key(&id, |original| original.id) {
        Ok(at) => next + at as u64,
        Err(_) => next + originals.len() as u64,
    }
}

/// The copy of a mount, which stands on the copy of its parent.
fn copy_of(world: &World, originals: &[Mount], mount: &Mount) -> Mount
    requires rising { IsTrue (rises id_of originals.now) }
    requires numbers { world.now.next_mount + length originals.now < 2 ^ 64 }
    ensures { result ≡ copy_of (world_view world.now) (map id_of originals.now) mount.now }
{
    let place = match mount.place {
        Some(place) => Some(Place {
            mount: copy_number(world.next_mount, originals, place.mount),
            dir: place.dir,
        }),
        None => None,
    };
    Mount {
        id: copy_number(world.next_mount, originals, mount.id),
        space: world.next_space,
        place,
        root: mount.root,
        attrs: mount.attrs,
    }
}

/// The copies of these mounts in the next namespace.
pub(crate) fn copies(world: &World, originals: &[Mount]) -> Result<Vec<Mount>, Fault>
    requires rising { IsTrue (rises id_of originals.now) }
    requires numbers { world.now.next_mount + length originals.now < 2 ^ 64 }
    ensures copies { IfOk result (λ copies. copies.items ≡ map (copy_of (world_view world.now) (map id_of originals.now)) originals.now) }
    ensures memory { IsOkUnless result Fault.NoMemory }
{
    let mut copies = Vec::with_capacity(world.forest.allocator(), originals.len())?;
    for mount in originals {
        copies.push(copy_of(world, originals, mount))?;
    }
    Ok(copies)
}

/// The state of the copy of a mount with this state, in a namespace that is less privileged or not.
fn state_of_copy(less: bool, state: State) -> State
    ensures { result ≡ state_of_copy less state }
{
    if less {
        return State {
            group: None,
            master: state.group.or(state.master),
            unbindable: state.unbindable,
        };
    }
    state
}

/// The states of the copies of these mounts, in a namespace that is less privileged or not.
pub(crate) fn states(
    world: &World,
    originals: &[Mount],
    less: bool,
) -> Result<Vec<(MountId, State)>, Fault>
    requires rising { IsTrue (rises id_of originals.now) }
    requires numbers { world.now.next_mount + length originals.now < 2 ^ 64 }
    ensures states { IfOk result (λ states. peers_of states.items ≡ map (peer_of (world_view world.now) (map id_of originals.now) less) originals.now) }
    ensures memory { IsOkUnless result Fault.NoMemory }
{
    let mut states = Vec::with_capacity(world.forest.allocator(), originals.len())?;
    for mount in originals {
        let id = copy_number(world.next_mount, originals, mount.id);
        let state = state_of_copy(less, state_of(world, mount.id));
        states.push((id, state))?;
    }
    Ok(states)
}

/// Makes room for this many more mounts, and changes nothing.
pub(crate) fn make_room(world: &mut World, more: usize) -> Result<(), Fault>
    ensures room { OnOk result ((more ≤ world.new.forest.room) × (more ≤ world.new.peers.room)) }
    ensures memory { IsOkUnless result Fault.NoMemory }
    ensures world { world_view world.new ≡ world_view world.old }
    ensures since { since_view world.new ≡ since_view world.old }
{
    world.forest.reserve(more)?;
    world.peers.reserve(more)?;
    Ok(())
}

/// Adds the mounts of one more namespace with their states, and answers its number.
pub(crate) fn add_space(world: &mut World, mounts: &[Mount], states: &[(MountId, State)]) -> SpaceId
    requires room { (length mounts.now ≤ world.old.forest.room) × (length states.now ≤ world.old.peers.room) }
    requires rising { IsTrue (rises id_of (world.old.forest.mounts ++ mounts.now)) }
    requires apart { HasDistinctPlaces (world.old.forest.mounts ++ mounts.now) }
    requires roots { HasOneRoot (world.old.forest.mounts ++ mounts.now) }
    requires states { IsTrue (rises mount_of (world.old.peers.peers ++ peers_of states.now)) }
    requires numbers { (world.old.next_mount + length mounts.now < 2 ^ 64) × (world.old.next_space + 1 < 2 ^ 64) }
    ensures forest { world.new.forest.mounts ≡ world.old.forest.mounts ++ mounts.now }
    ensures peers { world.new.peers.peers ≡ world.old.peers.peers ++ peers_of states.now }
    ensures same { (world.new.skel ≡ world.old.skel) × (world.new.peers.next ≡ world.old.peers.next) }
    ensures next { (world.new.next_mount ≡ world.old.next_mount + length mounts.now) × (world.new.next_space ≡ world.old.next_space + 1) }
    ensures trees { world.new.trees ≡ world.old.trees }
    ensures locks { world.new.locks ≡ world.old.locks }
    ensures space { result ≡ world.old.next_space }
    ensures since { since_view world.new ≡ since_view world.old }
{
    let space = world.next_space;
    insert_all(&mut world.forest, mounts);
    join_all(&mut world.peers, states);
    world.next_mount += mounts.len() as u64;
    world.next_space += 1;
    space
}

/// Adds a namespace whose mounts are copies of those of another one, each at the corresponding place with the same root
/// and attributes, and answers its number. The copy of a shared mount is its peer, and the copy of a slave has the same
/// master. With `less` the new namespace is less privileged: there the copy of a mount in a group is in no group, and
/// has that group as its master.
///
/// Refused as `NoNamespace`, `Detached` if the namespace is a detached tree, as `TooMany` at 64 namespaces or above 4,096
/// mounts times the room, and as `NoMemory`; then nothing has changed.
pub fn copy_space(world: &mut World, space: SpaceId, less: bool) -> Result<SpaceId, Fault>
    requires well_formed { IsWellFormed (world_view world.old) }
    requires numbers { (world.old.next_mount < 2 ^ 63) × (world.old.next_space < 2 ^ 63) }
    ensures done { IfOk result (λ copy. copy_space (world_view world.old) space less ≡ Ok (world_view world.new, copy)) }
    ensures refused { IfErr result (λ fault. fault ≢ Fault.NoMemory → copy_space (world_view world.old) space less ≡ Err fault) }
    ensures unchanged { OnErr result (world_view world.new ≡ world_view world.old) }
    ensures kept { IsWellFormed (world_view world.new) }
    ensures since { since_view world.new ≡ since_view world.old }
{
    if world.forest.root(space).is_none() {
        return Err(Fault::NoNamespace);
    }
    if world.is_tree(space) {
        return Err(Fault::Detached);
    }
    let originals = world.forest.mounts_in(space)?;
    if too_many(world, originals.len()) {
        return Err(Fault::TooMany);
    }
    let mounts = copies(world, &originals)?;
    let states = states(world, &originals, less)?;
    make_room(world, originals.len())?;
    Ok(add_space(world, &mounts, &states))
}
