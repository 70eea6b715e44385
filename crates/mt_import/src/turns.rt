//! The mounts of a table, one after another: each is begun after what it stands on, and gets to its place once
//! everything that belongs on it stands on it.
//!
//! A hook isolates the place on a mount of a peer group, so that what is mounted there reaches no other. A mount on the
//! staged member of the group comes to each mount that receives from it and shows the place, below what is there. The
//! one at the place itself is made private, so that it is tied only to what it stands on; what is then mounted there
//! stands on its root, from where nothing propagates. The unmount of the one on the staged member takes all the others
//! away with it, and what stood on the root of the private one slides back (sharedsubtree, mount_namespaces(7)).
ghost use Rattle.std.specs.Prelude.{◌≡◌, ◌++◌, if◌then◌else◌, [], map, slice_get, OnOk};
ghost use Rattle.std.specs.List.{flat_map};
ghost use Rattle.mt_import.specs.Hook.{release_text, isolate_text};
ghost use Rattle.mt_import.specs.Making.{share_text};
ghost use Rattle.mt_import.specs.Slots.{apart_path};
ghost use Rattle.mt_import.specs.Turns.{settle_text, placed_text, begun_at, ended_at, turns_from};

use crate::mount::Mount;
use crate::script::Script;
use crate::site::{GROUP, PRIVATE, SPARED, STAGE_FS, Site};
use crate::space::{Space, Way, hooked_by};
use crate::writer::{Written, one_behind};

impl<'s, 'a> Site<'s, 'a> {
    /// Takes away the mount of a hook at a path, where it would hide what has to be reached, and leaves all others: a
    /// mount inside these spares them.
    #[tactic(auto, unfolding(crate::specs::Hook::release_text))]
    fn release(self, script: &mut Script, hook: &[u8], path: &[u8]) -> Written
        ensures { OnOk result (script.new ≡ script.old ++ release_text self.entry.space.now hook.now path.now) }
    {
        let spared = one_behind(self.alloc, hook, SPARED)?;
        self.run(script, b"setattr", path, PRIVATE)?;
        self.run(script, b"mount", STAGE_FS, spared.as_slice())?;
        self.unmount(script, path)?;
        self.unmount(script, spared.as_slice())?;
        Ok(())
    }

    /// Takes away the mounts of a hook at these paths.
    fn release_all(self, script: &mut Script, hook: &[u8], paths: &[Vec<u8>]) -> Written
        ensures { OnOk result (script.new ≡ script.old ++ flat_map (release_text self.entry.space.now hook.now) (map (λ path. path.items) paths.now)) }
    {
        'paths: for path in paths {
            self.release(script, hook, path.as_slice())?;
        }
        Ok(())
    }

    /// Isolates a place, at which what is mounted next stands alone: by a mount at a path below the staged member of the group.
    /// That comes to the other paths too, and is taken away there.
    #[tactic(auto, unfolding(crate::specs::Hook::isolate_text))]
    pub(crate) fn isolate(
        self,
        script: &mut Script,
        hook: &[u8],
        others: &[Vec<u8>],
        place: &[u8],
    ) -> Written
        ensures { OnOk result (script.new ≡ script.old ++ isolate_text self.entry.space.now hook.now (map (λ path. path.items) others.now) place.now) }
    {
        self.run(script, b"mount", STAGE_FS, hook)?;
        self.release_all(script, hook, others)?;
        self.run(script, b"setattr", place, PRIVATE)?;
        Ok(())
    }

    /// Brings a mount to its place, where nothing propagates.
    #[tactic(auto, unfolding(crate::specs::Turns::settle_text))]
    fn settle(self, script: &mut Script, apart: bool, mount: &Mount<'_>, place: &[u8]) -> Written
        ensures { OnOk result (script.new ≡ script.old ++ settle_text self.entry.groups.now.all self.entry.space.now self.entry.stage.now apart mount.now place.now) }
    {
        if apart {
            let path = self.apart_path(mount)?;
            return self.run(script, b"move", path.as_slice(), place);
        }
        self.make_bare(script, mount, place)?;
        self.share_alone(script, mount, place)?;
        Ok(())
    }

    /// Brings a mount to its place, which is isolated if others receive what is mounted there.
    #[tactic(auto, unfolding(crate::specs::Turns::placed_text))]
    fn place(
        self,
        script: &mut Script,
        hooked: Option<u64>,
        way: &Way,
        mount: &Mount<'_>,
    ) -> Written
        ensures { OnOk result (script.new ≡ script.old ++ placed_text hooked self.entry.groups.now.all self.entry.space.now self.entry.stage.now way.now mount.now) }
    {
        let place = self.path_from(mount, mount.names)?;
        let (others, place) = (way.others.as_slice(), place.as_slice());
        let Some(group) = hooked else {
            return self.settle(script, way.apart, mount, place);
        };
        let hook = self.slot(GROUP, group, mount.place.as_slice())?;
        script.count_hook(self.groups, group, mount, others.len());
        self.isolate(script, hook.as_slice(), others, place)?;
        self.settle(script, way.apart, mount, place)?;
        self.unmount(script, hook.as_slice())?;
        Ok(())
    }

    /// Makes a mount shared that was made apart and is alone in its group.
    fn share_apart(self, script: &mut Script, apart: bool, mount: &Mount<'_>) -> Written
        ensures { OnOk result (script.new ≡ script.old ++ (if apart then share_text self.entry.groups.now.all self.entry.space.now mount.now.row.now (apart_path self.entry.stage.now mount.now.level) else [])) }
    {
        if !apart {
            return Ok(());
        }
        let path = self.apart_path(mount)?;
        self.share_alone(script, mount, path.as_slice())
    }

    /// Begins the mount of a number, unless it is left out: one at the root of the namespace is made, and one that is made apart.
    #[tactic(auto, unfolding(crate::specs::Turns::begun_text))]
    fn begin(
        self,
        script: &mut Script,
        space: &Space<'_>,
        number: usize,
        mount: &Mount<'_>,
    ) -> Written
        ensures { OnOk result (script.new ≡ script.old ++ begun_at self.entry.groups.now.all self.entry.space.now self.entry.stage.now (slice_get space.now.ways.items number) mount.now) }
    {
        let Some(way) = space.ways.get(number) else {
            return Ok(());
        };
        if way.left.is_some() {
            return Ok(());
        }
        if mount.level == 0 {
            return self.make_base(script, mount);
        }
        if !way.apart {
            return Ok(());
        }
        let path = self.apart_path(mount)?;
        self.make_bare(script, mount, path.as_slice())
    }

    /// Ends the mount of a number, once everything that belongs on it stands on it: it gets to its place, unless it is
    /// left out, or is at the root of the namespace.
    #[tactic(auto, unfolding(crate::specs::Turns::ended_text))]
    fn end(self, script: &mut Script, space: &Space<'_>, number: usize) -> Written
        ensures { OnOk result (script.new ≡ script.old ++ ended_at self.entry.groups.now.all self.entry.space.now self.entry.stage.now space.now number) }
    {
        let (mounts, ways) = (space.tree.mounts(), space.ways.as_slice());
        let (Some(way), Some(mount)) = (ways.get(number), mounts.get(number)) else {
            return Ok(());
        };
        if way.left.is_some() || mount.level == 0 {
            return Ok(());
        }
        let hooked = hooked_by(self.groups, mounts, mount);
        self.share_apart(script, way.apart, mount)?;
        self.place(script, hooked, way, mount)?;
        Ok(())
    }

    /// Ends the mounts of these numbers.
    fn end_all(self, script: &mut Script, space: &Space<'_>, numbers: &[usize]) -> Written
        ensures { OnOk result (script.new ≡ script.old ++ flat_map (ended_at self.entry.groups.now.all self.entry.space.now self.entry.stage.now space.now) numbers.now) }
    {
        'numbers: for number in numbers {
            self.end(script, space, *number)?;
        }
        Ok(())
    }

    /// Makes the mounts of a table, which are these. Those are open that were begun and wait for their end, the last one first.
    pub(crate) fn make_tree(
        self,
        script: &mut Script,
        space: &Space<'_>,
        mounts: &[Mount<'_>],
    ) -> Written
        ensures { OnOk result (script.new ≡ script.old ++ turns_from self.entry.groups.now.all self.entry.space.now self.entry.stage.now space.now [] 0 mounts.now) }
    {
        let mut open = Vec::new(self.alloc);
        'mounts: for (number, mount) in mounts.iter().enumerate() {
            let kept = open.split_off(open.len().saturating_sub(mount.level))?;
            self.end_all(script, space, open.as_slice())?;
            self.begin(script, space, number, mount)?;
            open = kept;
            open.insert(0, number)?;
        }
        self.end_all(script, space, open.as_slice())
    }
}
