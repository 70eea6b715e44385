//! What is locked of one mount.
ghost use Rattle.std.specs.Prelude.{◌≡◌};
ghost use Rattle.mt_locks.specs.MountLocks.{unlocked, with_all_attrs, without_place, locks_some};

use mt_mounts::mount::{Attrs, MountId};

/// What is locked of one mount: what nobody may change in the namespace that it is in.
#[derive(Clone, Copy, PartialEq, Eq, Debug)]
pub struct MountLocks {
    /// The mount.
    pub mount: MountId,
    /// Its place: it can neither be unmounted nor moved.
    pub place: bool,
    /// That nothing can be written.
    pub ro: bool,
    /// That the set-user-ID and set-group-ID bits of programs are ignored.
    pub nosuid: bool,
    /// That device files cannot be opened.
    pub nodev: bool,
    /// That programs cannot be run.
    pub noexec: bool,
    /// When the times of access of files and of directories are updated.
    pub atime: bool,
}

impl MountLocks {
    /// Nothing is locked of this mount.
    pub fn new(mount: MountId) -> MountLocks
        ensures { result ≡ unlocked mount }
    {
        MountLocks {
            mount,
            place: false,
            ro: false,
            nosuid: false,
            nodev: false,
            noexec: false,
            atime: false,
        }
    }

    /// The same, and all attributes: each of the first four that is set, and the access times.
    pub fn with_all_attrs(self, attrs: &Attrs) -> MountLocks
        ensures { result ≡ with_all_attrs attrs.now self }
    {
        MountLocks {
            mount: self.mount,
            place: self.place,
            ro: self.ro || attrs.ro,
            nosuid: self.nosuid || attrs.nosuid,
            nodev: self.nodev || attrs.nodev,
            noexec: self.noexec || attrs.noexec,
            atime: true,
        }
    }

    /// The same, but for the place.
    pub fn without_place(self) -> MountLocks
        ensures { result ≡ without_place self }
    {
        MountLocks {
            place: false,
            ..self
        }
    }

    /// Whether something is locked.
    pub fn locks_some(&self) -> bool
        ensures { result ≡ locks_some self.now }
    {
        self.place || self.ro || self.nosuid || self.nodev || self.noexec || self.atime
    }
}
