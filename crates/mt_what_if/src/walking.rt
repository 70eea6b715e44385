//! Where paths lead.
ghost use Rattle.std.specs.Prelude.{◌≡◌, ◌++◌, ◌∷◌, [], Ok, Err, IfOk, OnOk, IfSome, IsOkUnless, IsTrue, MatchOption};
ghost use Rattle.std.specs.List.{filter};
ghost use Rattle.mt_skel.specs.Names.{is_name};
ghost use Rattle.mt_skel.specs.Skeleton.{is_directory};
ghost use Rattle.mt_mounts.specs.Walk.{walk};
ghost use Rattle.mt_propagate.specs.World.{world_view};
ghost use Rattle.mt_propagate.specs.WellFormed.{IsWellFormed};
ghost use Rattle.mt_what_if.specs.Scripts.{root_ended, names_of};

use mt_lines::words::Pieces;
use mt_mounts::mount::{MountId, Place, SpaceId};
use mt_propagate::world::World;
use mt_skel::fault::Fault;
use mt_skel::name::Name;
use std::alloc::Global;

/// Where a path leads in a namespace, if it leads to a directory that is there.
pub(crate) fn place_at(world: &World, space: SpaceId, path: &[Name]) -> Option<Place>
    requires { IsWellFormed (world_view world.now) }
    ensures place { MatchOption result ((fault : Fault) × (walk world.now.skel world.now.forest.mounts space path.now ≡ Err fault)) (λ place. walk world.now.skel world.now.forest.mounts space path.now ≡ Ok place) }
    ensures there { IfSome result (λ place. IsTrue (is_directory world.now.skel place.dir)) }
{
    match world.forest.walk(&world.skel, space, path) {
        Ok(place) => Some(place),
        Err(_fault) => None,
    }
}

/// The mount at a path, if that leads to its root.
pub(crate) fn mount_at(world: &World, space: SpaceId, path: &[Name]) -> Option<MountId>
    requires { IsWellFormed (world_view world.now) }
    ensures { result ≡ root_ended (world_view world.now) (walk world.now.skel world.now.forest.mounts space path.now) }
{
    let place = place_at(world, space, path)?;
    let mount = world.forest.get(place.mount)?;
    if mount.root == place.dir {
        Some(mount.id)
    } else {
        None
    }
}

/// Adds the name that stands between two slashes of a path, if it is one.
fn push_name(alloc: Global, names: &mut Vec<Name>, piece: &[u8]) -> Result<(), Fault>
    ensures names { OnOk result (names.new.items ≡ names.old.items ++ filter is_name (piece.now ∷ [])) }
    ensures memory { IsOkUnless result Fault.NoMemory }
{
    if let Ok(name) = Name::new(Vec::from_slice(alloc, piece)?) {
        names.push(name)?;
    }
    Ok(())
}

/// The names of a path: those between its slashes that have a byte.
pub(crate) fn names_of(alloc: Global, path: &[u8]) -> Result<Vec<Name>, Fault>
    ensures names { IfOk result (λ names. names.items ≡ names_of path.now) }
    ensures memory { IsOkUnless result Fault.NoMemory }
{
    let mut names = Vec::new(alloc);
    let mut pieces = Pieces::new(b'/', path);
    'pieces: while let Some(piece) = pieces.next() {
        push_name(alloc, &mut names, piece)?;
    }
    Ok(names)
}
