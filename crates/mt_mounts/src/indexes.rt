//! What a forest looks up beside its table: the mount at a place, the root mount of a namespace, and where stacks lead.
ghost use Rattle.std.specs.Prelude.{◌≡◌, ◌+◌, ◌<◌, ◌≤◌, List, [], Some, None, IsTrue, OnOk, IfOk, IsOkUnless, cond};
ghost use Rattle.std.specs.Option.{ForSome};
ghost use Rattle.indexmap.specs.IndexMap.{get, spare};
ghost use Rattle.mt_skel.specs.Keyed.{put, rises};
ghost use Rattle.mt_mounts.specs.declared.mount.Mount.{Mount};
ghost use Rattle.mt_mounts.specs.declared.mount.Place.{Place};
ghost use Rattle.mt_mounts.specs.Forest.{id_of, mount_at, on, is_at, place_eq};
ghost use Rattle.mt_mounts.specs.Tree.{IsSingle};
ghost use Rattle.mt_mounts.specs.ForestView.{with_place, without_id};
ghost use Rattle.mt_lists.specs.Lists.{listed_number, without_row};
ghost use Rattle.mt_mounts.specs.Indexes.{rooted_in, IsIndexed, room_of};

use crate::mount::{Mount, MountId, Place, SpaceId};
use crate::stacks::Stacks;
use indexmap::IndexMap;
use mt_lists::lists::Lists;
use mt_skel::fault::Fault;
use std::alloc::Global;

/// Which mount stands at a place, the root mount of each namespace, and where stacks of mounts lead.
///
/// It holds only IDs: a change of a forest is told to it with the mount as it was before.
pub(crate) struct Indexes {
    pub(crate) places: IndexMap<Place, MountId>,
    pub(crate) roots: Lists,
    pub(crate) stacks: Stacks,
}

impl Drop for Indexes {
    fn drop(self) {
        let Indexes {
            places: _places,
            roots: _roots,
            stacks: _stacks,
        } = self;
    }
}

/// The namespace of which a mount is the root mount.
fn rooted_in(mount: Mount) -> Option<SpaceId>
    ensures { result ≡ rooted_in mount }
{
    match mount.place {
        Some(_) => None,
        None => Some(mount.space),
    }
}

/// The ID of the mount that stands at a place.
fn standing(places: &IndexMap<Place, MountId>, place: Place) -> Option<MountId>
    ensures { result ≡ get place_eq places.now place }
{
    places.get(&place).copied()
}

/// Writes that this mount stands at a place.
fn stand(places: &mut IndexMap<Place, MountId>, place: Place, id: MountId)
    requires room { 0 < spare places.old }
    ensures places { (p : Place) → get place_eq places.new p ≡ cond (place_eq p place) (Some id) (get place_eq places.old p) }
    ensures room { spare places.old ≤ spare places.new + 1 }
{
    places.insert(place, id).unwrap();
}

/// Writes that a mount stands at its place, if it has one.
fn enter(places: &mut IndexMap<Place, MountId>, mount: Mount)
    requires room { 0 < spare places.old }
    ensures places { (p : Place) → get place_eq places.new p ≡ cond (is_at p mount) (Some mount.id) (get place_eq places.old p) }
    ensures room { spare places.old ≤ spare places.new + 1 }
{
    if let Some(place) = mount.place {
        stand(places, place, mount.id);
    }
}

/// Writes that no mount stands at the place of this one, if it has one.
fn leave(places: &mut IndexMap<Place, MountId>, mount: Mount)
    ensures places { (p : Place) → get place_eq places.new p ≡ cond (is_at p mount) None (get place_eq places.old p) }
    ensures room { spare places.old ≤ spare places.new }
{
    if let Some(place) = mount.place {
        places.swap_remove(&place);
    }
}

/// Takes a mount, if it is a root mount, out of the list of those.
fn uproot(roots: &mut Lists, mount: Mount)
    ensures rows { listed_number roots.old.rows mount.id ≡ rooted_in mount → roots.new.rows ≡ without_row mount.id roots.old.rows }
    ensures room { roots.old.room ≤ roots.new.room }
{
    match mount.place {
        Some(_) => {}
        None => roots.remove(mount.id),
    }
}

impl Indexes {
    /// The indexes of no mounts. Their memory will come from `alloc`.
    pub(crate) fn new(alloc: Global) -> Self
        ensures { IsIndexed [] result }
    {
        Indexes {
            places: IndexMap::new(alloc),
            roots: Lists::new(alloc),
            stacks: Stacks::new(alloc),
        }
    }

    /// The indexes of the same mounts.
    pub(crate) fn copy(&self) -> Result<Indexes, Fault>
        ensures copy { IfOk result (λ copy. (ms : List Mount) → IsIndexed ms self.now → IsIndexed ms copy) }
        ensures memory { IsOkUnless result Fault.NoMemory }
    {
        Ok(Indexes {
            places: self.places.clone()?,
            roots: self.roots.copy()?,
            stacks: self.stacks.copy()?,
        })
    }

    /// Makes room for this many more mounts.
    pub(crate) fn reserve(&mut self, additional: usize) -> Result<(), Fault>
        ensures room { OnOk result (additional ≤ room_of self.new) }
        ensures memory { IsOkUnless result Fault.NoMemory }
        ensures keeps { room_of self.old ≤ room_of self.new }
        ensures indexed { (ms : List Mount) → IsIndexed ms self.old → IsIndexed ms self.new }
    {
        self.places.reserve(additional)?;
        self.roots.reserve(additional)?;
        self.stacks.reserve(additional)?;
        Ok(())
    }

    /// How many mounts there is room for.
    pub(crate) fn room(&self) -> usize
        ensures { result ≡ room_of self.now }
    {
        let places = self.places.capacity() - self.places.len();
        places.min(self.roots.room().min(self.stacks.room()))
    }

    /// The ID of the mount that stands at a place.
    pub(crate) fn at(&self, place: Place) -> Option<MountId>
        ensures { result ≡ get place_eq self.now.places place }
    {
        standing(&self.places, place)
    }

    /// A mount with a new ID has come, for which there is room, to the root of another or not.
    pub(crate) fn insert(&mut self, mount: Mount, on_root: bool)
        requires room { 0 < room_of self.old }
        requires absent { listed_number self.old.roots.rows mount.id ≡ None }
        ensures indexed { (ms : List Mount) → IsTrue (rises id_of ms) → IsSingle ms → mount_at ms mount.id ≡ None → ForSome mount.place (λ p. on ms p ≡ None) → IsIndexed ms self.old → IsIndexed (put id_of mount ms) self.new }
        ensures room { room_of self.old ≤ room_of self.new + 1 }
    {
        enter(&mut self.places, mount);
        self.roots.enter(mount.id, rooted_in(mount));
        self.stacks.enter(mount, on_root);
    }

    /// A mount has gone.
    pub(crate) fn remove(&mut self, mount: Mount)
        ensures indexed { (ms : List Mount) → IsTrue (rises id_of ms) → IsSingle ms → mount_at ms mount.id ≡ Some mount → IsIndexed ms self.old → IsIndexed (without_id mount.id ms) self.new }
        ensures room { room_of self.old ≤ room_of self.new }
    {
        leave(&mut self.places, mount);
        uproot(&mut self.roots, mount);
        self.stacks.leave(mount);
    }

    /// A mount has gone to a place that was free, the root of another or not. There is room as for one more mount.
    pub(crate) fn set_place(&mut self, mount: Mount, place: Place, on_root: bool)
        requires room { 0 < room_of self.old }
        ensures indexed { (ms : List Mount) → IsTrue (rises id_of ms) → IsSingle ms → mount_at ms mount.id ≡ Some mount → on ms place ≡ None → IsIndexed ms self.old → IsIndexed (with_place mount.id place ms) self.new }
        ensures room { room_of self.old ≤ room_of self.new + 1 }
    {
        leave(&mut self.places, mount);
        stand(&mut self.places, place, mount.id);
        uproot(&mut self.roots, mount);
        self.stacks.go(mount, place, on_root);
    }
}
