//! What stands at places where the model cannot have it.
//!
//! The model mounts nothing at the root place of a namespace, and has a path for each command. So a mount that was moved to a root place
//! stays where it was, and an old root that pivot_root(2) has put on the new one, and that is named again, stands at a directory
//! of it. Both are found here where the kernel has them.

use mt_mounts::mount::{Mount, MountId, Place};
use mt_propagate::world::World;
use std::alloc::{AllocError, Global};

/// A mount that stands at a place, though the model has it elsewhere.
#[derive(Clone, Copy, PartialEq, Eq, Debug)]
struct Cover {
    place: Place,
    mount: MountId,
}

/// Mounts that stand at places where the model cannot have them, and those that were moved to a root place.
#[derive(Drop)]
pub struct Covers {
    covers: Vec<Cover>,
    moved: Vec<MountId>,
}

/// The number of the copy of a mount, where the copies of these have the numbers from one on.
pub fn mount_copied(originals: &[Mount], next: MountId, id: MountId) -> Option<MountId> {
    let at = originals.iter().position(|mount| mount.id == id)?;
    Some(next.saturating_add(at as u64))
}

/// Whether both mounts of a cover are there.
fn is_kept(world: &World, cover: &Cover) -> bool {
    world.forest.get(cover.mount).is_some() && world.forest.get(cover.place.mount).is_some()
}

impl Covers {
    /// None.
    pub fn new(alloc: Global) -> Covers {
        Covers {
            covers: Vec::new(alloc),
            moved: Vec::new(alloc),
        }
    }

    /// From now on a mount stands at a place.
    pub fn put(&mut self, place: Place, mount: MountId) -> Result<(), AllocError> {
        self.covers.retain(|cover| cover.place != place);
        self.covers.push(Cover { place, mount })?;
        Ok(())
    }

    /// Notes that a mount was moved to a root place.
    pub fn note_moved(&mut self, mount: MountId) -> Result<(), AllocError> {
        self.moved.push(mount)?;
        Ok(())
    }

    /// Whether a mount was moved to a root place.
    pub fn is_moved(&self, mount: MountId) -> bool {
        self.moved.contains(&mount)
    }

    /// The mount that stands at a place and is still there.
    fn at(&self, world: &World, place: Place) -> Option<MountId> {
        let cover = self.covers.iter().find(|cover| cover.place == place)?;
        let mount = world.forest.get(cover.mount)?;
        Some(mount.id)
    }

    /// Whether a mount stands at a place.
    pub fn has(&self, world: &World, place: Place) -> bool {
        world.forest.at(place).is_some() || self.at(world, place).is_some()
    }

    /// The topmost place of the stack of mounts at a place.
    pub fn top(&self, world: &World, place: Place) -> Place {
        let mut here = world.forest.top(place);
        for _cover in 0..self.covers.len() {
            let Some(mount) = self.at(world, here).and_then(|id| world.forest.get(id)) else {
                return here;
            };
            here = world.forest.top(Place {
                mount: mount.id,
                dir: mount.root,
            });
        }
        here
    }

    /// Enters what stands on the copies of these mounts, which have the numbers from one on.
    pub fn copy(&mut self, originals: &[Mount], next: MountId) -> Result<(), AllocError> {
        for at in 0..self.covers.len() {
            let Some(cover) = self.covers.get(at).copied() else {
                return Ok(());
            };
            let place = mount_copied(originals, next, cover.place.mount);
            let mount = mount_copied(originals, next, cover.mount);
            if let (Some(on), Some(mount)) = (place, mount) {
                self.covers.push(Cover {
                    place: Place {
                        mount: on,
                        dir: cover.place.dir,
                    },
                    mount,
                })?;
            }
        }
        self.copy_moved(originals, next)
    }

    /// Notes the copies of those of these mounts that were moved to a root place.
    fn copy_moved(&mut self, originals: &[Mount], next: MountId) -> Result<(), AllocError> {
        for at in 0..self.moved.len() {
            let Some(id) = self.moved.get(at).copied() else {
                return Ok(());
            };
            if let Some(copy) = mount_copied(originals, next, id) {
                self.moved.push(copy)?;
            }
        }
        Ok(())
    }

    /// Forgets mounts that are not there any more.
    pub fn sweep(&mut self, world: &World) {
        self.covers.retain(|cover| is_kept(world, cover));
        self.moved.retain(|id| world.forest.get(*id).is_some());
    }
}
