//! Taking mounts away, which umount and detach share: what stands on the root of one that goes slides to its place.
ghost use Rattle.std.specs.Prelude.{◌≡◌, ◌+◌, ◌≤◌, length, IfOk, OnOk, OnErr, IsOkUnless, IsTrue};
ghost use Rattle.std.specs.List.{filter_map};
ghost use Rattle.mt_skel.specs.Keyed.{among, rises};
ghost use Rattle.mt_peers.specs.Peers.{peering_of};
ghost use Rattle.mt_peers.specs.WellFormed.{IsPeering};
ghost use Rattle.mt_propagate.specs.World.{world_view};
ghost use Rattle.mt_propagate.specs.WellFormed.{IsWellFormed};
ghost use Rattle.mt_propagate.specs.Touched.{since_view};
ghost use Rattle.mt_propagate.specs.Carried.{IsFree, staying};
ghost use Rattle.mt_unmount.specs.Sliding.{place_of, slide, slid, CanGo, once_gone};
ghost use Rattle.mt_unmount.specs.Taking.{relocation_past, resettled};

use crate::gone::Gone;
use mt_mounts::mount::{MountId, Place, root_place};
use mt_propagate::carry::{move_all, remove_all};
use mt_propagate::world::World;
use mt_skel::fault::Fault;

/// The place of a mount, if it is there and has one.
pub(crate) fn place_of(world: &World, id: MountId) -> Option<Place>
    ensures { result ≡ place_of (world_view world.now) id }
{
    world.forest.get(id)?.place
}

/// Where a place on a mount that goes leads: to that mount's place.
fn slide(world: &World, gone: &Gone, place: Place) -> Option<Place>
    ensures { result ≡ slide (world_view world.now) (among gone.now) place }
{
    if gone.has(place.mount) {
        place_of(world, place.mount)
    } else {
        None
    }
}

/// Where a mount of this place comes to stand: it slides on while the mount under it goes.
fn slid(world: &World, gone: &Gone, place: Place) -> Place
    ensures { result ≡ slid (world_view world.now) (among gone.now) place }
{
    let mut here = place;
    'sliding: for _step in 0..world.forest.len() {
        let Some(next) = slide(world, gone, here) else {
            return here;
        };
        here = next;
    }
    here
}

/// The mount that stands at the root of one that goes, if it stays, and its new place.
fn relocation(world: &World, gone: &Gone, id: MountId) -> Option<(MountId, Place)>
    ensures { result ≡ relocation_past (world_view world.now) (among gone.now) id }
{
    let place = root_place(&world.forest.get(id)?);
    let child = world.forest.standing_at(place)?;
    if gone.has(child.id) {
        return None;
    }
    Some((child.id, slid(world, gone, place)))
}

/// All mounts that stay and stand at the root of one that goes, and their new places.
fn relocations(world: &World, gone: &Gone) -> Result<Vec<(MountId, Place)>, Fault>
    ensures relocations { IfOk result (λ relocations. relocations.items ≡ filter_map (relocation_past (world_view world.now) (among gone.now)) gone.now) }
    ensures memory { IsOkUnless result Fault.NoMemory }
{
    let ids = gone.ids();
    let mut relocations = Vec::new(world.forest.allocator());
    for id in ids {
        if let Some(relocation) = relocation(world, gone, *id) {
            relocations.push(relocation)?;
        }
    }
    Ok(relocations)
}

/// Makes room to take these mounts away, to move others and to change the states of all, and changes nothing.
fn make_room(world: &mut World, gone: &Gone, relocations: &[(MountId, Place)]) -> Result<(), Fault>
    ensures mounts { OnOk result (length gone.now + length relocations.now ≤ world.new.forest.room) }
    ensures states { OnOk result (length world.new.peers.peers ≤ world.new.peers.room) }
    ensures memory { IsOkUnless result Fault.NoMemory }
    ensures world { world_view world.new ≡ world_view world.old }
    ensures since { since_view world.new ≡ since_view world.old }
{
    world.forest.reserve(gone.ids().len() + relocations.len())?;
    world.reserve_states()
}

/// Takes these mounts away, and moves others to the places that become free. [`make_room`] has made room.
fn replace(world: &mut World, gone: &Gone, relocations: &[(MountId, Place)])
    requires order { IsPeering (peering_of world.old.peers) }
    requires states { length world.old.peers.peers ≤ world.old.peers.room }
    requires mounts { length gone.now + length relocations.now ≤ world.old.forest.room }
    requires free { IsFree relocations.now (staying gone.now world.old.forest.mounts) }
    ensures world { world_view world.new ≡ resettled gone.now relocations.now (world_view world.old) }
    ensures since { since_view world.new ≡ since_view world.old }
{
    remove_all(&mut world.forest, gone.ids());
    world.peers.leave_in_order(gone.ids());
    move_all(&mut world.forest, relocations);
}

/// Takes these mounts away, and lets what stands on their roots slide.
pub(crate) fn take_away(world: &mut World, gone: &Gone) -> Result<(), Fault>
    requires well_formed { IsWellFormed (world_view world.old) }
    requires rising { IsTrue (rises (λ k. k) gone.now) }
    requires can_go { CanGo (world_view world.old) (among gone.now) }
    ensures gone { OnOk result (world_view world.new ≡ once_gone (world_view world.old) (among gone.now)) }
    ensures memory { IsOkUnless result Fault.NoMemory }
    ensures unchanged { OnErr result (world_view world.new ≡ world_view world.old) }
    ensures kept { IsWellFormed (world_view world.new) }
    ensures since { since_view world.new ≡ since_view world.old }
{
    let relocations = relocations(world, gone)?;
    make_room(world, gone, &relocations)?;
    replace(world, gone, &relocations);
    Ok(())
}
