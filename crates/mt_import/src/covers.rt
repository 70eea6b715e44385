//! The mounts at the root of a namespace: the root mount, and those that stand on its root, one on the other. No path
//! leads there, so each one becomes the root of the namespace in turn, and the one before it is put on it, or back.

ghost use Rattle.std.specs.Prelude.{◌≡◌, ◌++◌, IfOk, OnOk};
ghost use Rattle.mt_import.specs.Covers.{shelf_text, rise_text, base_text, shelve_text, unshelve_text, lower_text, covered, finished};
ghost use Rattle.mt_import.specs.Groups.{receiving};
ghost use Rattle.mt_import.specs.Spaces.{numbers_where, is_cover};

use crate::mount::Mount;
use crate::path::{SECOND, STAGE};
use crate::script::Script;
use crate::site::{COVER, GROUP, NEW, PEER, PRIVATE, STAGE_FS, Site};
use crate::space::{Way, is_made};
use crate::writer::{Allocated, Written, command, one_behind};
use std::alloc::Global;

/// Whether a mount is made on the root of the root mount, or of another mount that is.
fn is_cover(ways: &[Way], number: usize, mount: &Mount<'_>) -> bool
    ensures { result ≡ is_cover ways.now number mount.now }
{
    mount.level == 0 && mount.base > 0 && is_made(ways, number)
}

/// The numbers of these, from below upwards.
pub(crate) fn covers_of(alloc: Global, mounts: &[Mount<'_>], ways: &[Way]) -> Allocated<Vec<usize>>
    ensures { IfOk result (λ covers. covers.items ≡ numbers_where (is_cover ways.now) 0 mounts.now) }
{
    let mut covers = Vec::new(alloc);
    'mounts: for (number, mount) in mounts.iter().enumerate() {
        if is_cover(ways, number, mount) {
            covers.push(number)?;
        }
    }
    Ok(covers)
}

impl<'s, 'a> Site<'s, 'a> {
    /// Makes the place, in no group, on which the old root is put, if others receive what is mounted on a mount, or one
    /// above the root mount is to be shared.
    fn shelve(self, script: &mut Script, mount: &Mount<'_>, path: &[u8]) -> Written
        ensures { OnOk result (script.new ≡ script.old ++ shelf_text (receiving self.entry.groups.now.all mount.now.row.now.shared) self.entry.space.now self.entry.stage.now mount.now path.now) }
    {
        let row = mount.row;
        if let Some(group) = self.groups.receiving(row.shared) {
            let place = one_behind(self.alloc, mount.root, STAGE)?;
            let hook = self.slot(GROUP, group, place.as_slice())?;
            script.count_mounts(self.groups, group, place.as_slice(), 1);
            return self.isolate(script, hook.as_slice(), &[], path);
        }
        if mount.base > 0 && row.shared.is_some() {
            return self.run(script, b"mount", STAGE_FS, path);
        }
        Ok(())
    }

    /// Has a mount at a path become the root of the namespace, with the old root on it.
    #[tactic(auto, unfolding(crate::specs::Covers::rise_text))]
    fn rise(self, script: &mut Script, mount: &Mount<'_>, path: &[u8]) -> Written
        ensures { OnOk result (script.new ≡ script.old ++ rise_text self.entry.groups.now.all self.entry.space.now self.entry.stage.now mount.now path.now) }
    {
        let old = one_behind(self.alloc, path, STAGE)?;
        self.shelve(script, mount, old.as_slice())?;
        self.run(script, b"pivot", path, old.as_slice())?;
        Ok(())
    }

    /// Makes the root mount, which takes the place of what is staged at the root of the namespace, or one that comes there, at a
    /// slot.
    #[tactic(auto, unfolding(crate::specs::Covers::base_text))]
    pub(crate) fn make_base(self, script: &mut Script, mount: &Mount<'_>) -> Written
        ensures { OnOk result (script.new ≡ script.old ++ base_text self.entry.groups.now.all self.entry.space.now self.entry.stage.now mount.now) }
    {
        if mount.base == 0 {
            let site = Site { stage: b"", ..self };
            site.make_bare(script, mount, NEW)?;
            return site.rise(script, mount, NEW);
        }
        let path = self.slot(COVER, mount.base as u64, b"")?;
        self.make_bare(script, mount, path.as_slice())
    }

    /// Makes the root of the namespace shared, which is alone in its group, and moves the old root onto a mount without group
    /// that a peer at a path gives it.
    #[tactic(auto, unfolding(crate::specs::Covers::shelve_text))]
    fn shelve_shared(self, script: &mut Script, mount: &Mount<'_>, peer: &[u8]) -> Written
        ensures { OnOk result (script.new ≡ script.old ++ shelve_text self.entry.groups.now.all self.entry.space.now peer.now mount.now) }
    {
        let hook = one_behind(self.alloc, peer, SECOND)?;
        self.share_alone(script, mount, b"")?;
        self.run(script, b"bind", b"/", peer)?;
        self.run(script, b"mount", STAGE_FS, hook.as_slice())?;
        self.run(script, b"setattr", SECOND, PRIVATE)?;
        self.run(script, b"move", STAGE, SECOND)?;
        self.unmount(script, STAGE)?;
        Ok(())
    }

    /// Puts it back on the one below it, and takes away its peer, which then has a path.
    #[tactic(auto, unfolding(crate::specs::Covers::unshelve_text))]
    fn lower_shared(self, script: &mut Script, peer: &[u8]) -> Written
        ensures { OnOk result (script.new ≡ script.old ++ unshelve_text self.entry.space.now peer.now) }
    {
        let hook = one_behind(self.alloc, peer, SECOND)?;
        self.run(script, b"pivot", SECOND, SECOND)?;
        self.unmount(script, hook.as_slice())?;
        self.unmount(script, peer)?;
        Ok(())
    }

    /// Puts one that is the root of the namespace back on the one below it.
    #[tactic(auto, unfolding(crate::specs::Covers::lower_text))]
    fn lower(self, script: &mut Script, mount: &Mount<'_>) -> Written
        ensures { OnOk result (script.new ≡ script.old ++ lower_text self.entry.groups.now.all self.entry.space.now self.entry.stage.now mount.now) }
    {
        let row = mount.row;
        if let Some(group) = self.groups.receiving(row.shared) {
            let place = one_behind(self.alloc, mount.root, STAGE)?;
            let hook = self.slot(GROUP, group, place.as_slice())?;
            self.run(script, b"pivot", STAGE, STAGE)?;
            self.unmount(script, hook.as_slice())?;
            return Ok(());
        }
        if let Some(alone) = row.shared {
            let below = one_behind(self.alloc, self.stage, PEER)?;
            let peer = one_behind(self.alloc, STAGE, below.as_slice())?;
            self.shelve_shared(script, mount, peer.as_slice())?;
            self.lower_shared(script, below.as_slice())?;
            script.count_mounts(self.groups, alone, SECOND, 1);
            return Ok(());
        }
        self.run(script, b"pivot", STAGE, STAGE)?;
        Ok(())
    }

    /// Makes each of the mounts of these numbers the root of the namespace, the old one below it, and then puts each back, the
    /// last one first.
    pub(crate) fn cover(
        self,
        script: &mut Script,
        mounts: &[Mount<'_>],
        covers: &[usize],
    ) -> Written
        ensures { OnOk result (script.new ≡ script.old ++ covered self.entry.groups.now.all self.entry.space.now self.entry.stage.now mounts.now covers.now) }
    {
        let Some((number, others)) = covers.split_first() else {
            return Ok(());
        };
        let Some(mount) = mounts.get(*number) else {
            return Ok(());
        };
        let stage = one_behind(self.alloc, STAGE, self.stage)?;
        let site = Site {
            stage: stage.as_slice(),
            ..self
        };
        let path = self.slot(COVER, mount.base as u64, b"")?;
        self.rise(script, mount, path.as_slice())?;
        site.cover(script, mounts, others)?;
        self.lower(script, mount)?;
        Ok(())
    }

    /// Takes away what is staged, and makes the root mount, if there is one, a member of its group, if it is alone in
    /// that.
    #[tactic(auto, unfolding(crate::specs::Covers::finish_text))]
    pub(crate) fn finish(self, script: &mut Script, mounts: &[Mount<'_>]) -> Written
        ensures { OnOk result (script.new ≡ script.old ++ finished self.entry.groups.now.all self.entry.space.now self.entry.stage.now mounts.now) }
    {
        let Some(root) = mounts.first() else {
            return Ok(());
        };
        command(script, &[b"detach", self.space, self.stage])?;
        self.share_alone(script, root, b"")?;
        Ok(())
    }
}
