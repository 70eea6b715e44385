//! From a mount down to all that stand on it, at whatever height.
ghost use Rattle.std.specs.Prelude.{◌≡◌, ℕ, ◌++◌, ◌==◌, cond, not, IsTrue, OnOk, IfOk, IsOkUnless};
ghost use Rattle.std.specs.List.{filter};
ghost use Rattle.mt_skel.specs.Keyed.{rises};
ghost use Rattle.mt_skel.specs.Counted.{occ};
ghost use Rattle.mt_mounts.specs.Forest.{id_of, children, is_below, subtree};

use crate::forest::Forest;
use crate::mount::MountId;
use mt_skel::fault::Fault;

impl Forest {
    /// Adds the IDs of the mounts that stand on a mount, except for the one where the gathering
    /// began: if parents form a cycle, that one stands on one of those below it.
    fn gather_children(
        &self,
        id: MountId,
        start: MountId,
        gathered: &mut Vec<MountId>,
    ) -> Result<(), Fault>
        ensures gathered { OnOk result (gathered.new.items ≡ gathered.old.items ++ filter (λ child. not (child == start)) (children self.now.mounts id)) }
        ensures rising { IsTrue (rises id_of self.now.mounts) }
        ensures memory { IsOkUnless result Fault.NoMemory }
    {
        let children = self.children_of(id)?;
        for child in &children {
            if *child != start {
                gathered.push(*child)?;
            }
        }
        Ok(())
    }

    /// An ID, and the IDs of all mounts that stand on the mount with this ID, at whatever height,
    /// each once.
    fn gather(&self, id: MountId) -> Result<Vec<MountId>, Fault>
        ensures gathered { IfOk result (λ ids. (q : ℕ) → occ q ids.items ≡ cond (is_below self.now.mounts id q) 1 0) }
        ensures rising { OnOk result (IsTrue (rises id_of self.now.mounts)) }
        ensures memory { IsOkUnless result Fault.NoMemory }
    {
        let mut gathered = Vec::new(self.allocator());
        gathered.push(id)?;
        self.known();
        let mut visited = 0usize;
        'mounts: while visited < gathered.len() {
            let parent = gathered[visited];
            self.gather_children(parent, id, &mut gathered)?;
            visited += 1;
        }
        Ok(gathered)
    }

    /// The IDs of [`subtree`](Forest::subtree), in any order. An ID that is not there is left out,
    /// even if mounts stand on it.
    fn members(&self, id: MountId) -> Result<Vec<MountId>, Fault>
        ensures members { IfOk result (λ ids. (q : ℕ) → occ q ids.items ≡ occ q (subtree self.now.mounts id)) }
        ensures rising { OnOk result (IsTrue (rises id_of self.now.mounts)) }
        ensures memory { IsOkUnless result Fault.NoMemory }
    {
        let mut ids = self.gather(id)?;
        if self.get(id).is_some() {
            return Ok(ids);
        }
        ids.retain(|other| *other != id);
        Ok(ids)
    }

    /// The IDs of the mount with this ID, if it is there, and of all that stand on it, at whatever
    /// height, rising.
    pub fn subtree(&self, id: MountId) -> Result<Vec<MountId>, Fault>
        ensures subtree { IfOk result (λ ids. ids.items ≡ subtree self.now.mounts id) }
        ensures memory { IsOkUnless result Fault.NoMemory }
    {
        let mut ids = self.members(id)?;
        ids.sort()?;
        Ok(ids)
    }
}
