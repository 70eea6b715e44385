//! What is to be changed, or what a new mount is to have.
ghost use Rattle.std.specs.Prelude.{◌≡◌};
ghost use Rattle.mt_setattr.specs.Words.{nothing_set, sets_some, clears_some, sets_two_times, new_with};

use mt_mounts::mount::{Atime, Attrs};
use mt_peers::state::Kind;

/// What is to be added to the attributes: `attr_set` of mount_setattr(2).
///
/// At most one of the three access times; where a mount is changed, only if [`ClrWords::atime`] makes room for it.
#[derive(Clone, Copy, PartialEq, Eq, Debug)]
pub struct SetWords {
    /// Nothing can be written.
    pub ro: bool,
    /// The set-user-ID and set-group-ID bits of programs are ignored.
    pub nosuid: bool,
    /// Device files cannot be opened.
    pub nodev: bool,
    /// Programs cannot be run.
    pub noexec: bool,
    /// Symbolic links are not followed.
    pub nosymfollow: bool,
    /// The times of access of directories are not updated.
    pub nodiratime: bool,
    /// Times of access are updated if they are not later than the last change, or a day old.
    pub relatime: bool,
    /// Times of access are never updated.
    pub noatime: bool,
    /// Times of access are always updated.
    pub strictatime: bool,
}

impl SetWords {
    /// Nothing is set.
    pub fn new() -> SetWords
        ensures { result ≡ nothing_set }
    {
        SetWords {
            ro: false,
            nosuid: false,
            nodev: false,
            noexec: false,
            nosymfollow: false,
            nodiratime: false,
            relatime: false,
            noatime: false,
            strictatime: false,
        }
    }

    /// Whether something is set.
    pub fn sets_some(&self) -> bool
        ensures { result ≡ sets_some self.now }
    {
        self.ro
            || self.nosuid
            || self.nodev
            || self.noexec
            || self.nosymfollow
            || self.nodiratime
            || self.relatime
            || self.noatime
            || self.strictatime
    }

    /// Whether two access times are set.
    pub fn sets_two_times(&self) -> bool
        ensures { result ≡ sets_two_times self.now }
    {
        self.relatime && self.noatime
            || self.relatime && self.strictatime
            || self.noatime && self.strictatime
    }

    /// The access times of a new mount with these words: relative ones, unless other ones are set.
    fn new_atime(&self) -> Atime
        ensures { result ≡ (new_with self.now).atime }
    {
        if self.noatime {
            Atime::Noatime
        } else if self.strictatime {
            Atime::Strictatime
        } else {
            Atime::Relatime
        }
    }

    /// The attributes of a new mount with these words.
    pub fn attrs(&self) -> Attrs
        ensures { result ≡ new_with self.now }
    {
        Attrs {
            ro: self.ro,
            nosuid: self.nosuid,
            nodev: self.nodev,
            noexec: self.noexec,
            nosymfollow: self.nosymfollow,
            nodiratime: self.nodiratime,
            atime: self.new_atime(),
        }
    }
}

/// What is to be taken away from the attributes first: `attr_clr` of mount_setattr(2).
#[derive(Clone, Copy, PartialEq, Eq, Debug)]
pub struct ClrWords {
    /// Files can be written again.
    pub ro: bool,
    /// The set-user-ID and set-group-ID bits of programs count again.
    pub nosuid: bool,
    /// Device files can be opened again.
    pub nodev: bool,
    /// Programs can be run again.
    pub noexec: bool,
    /// Symbolic links are followed again.
    pub nosymfollow: bool,
    /// The times of access of directories are updated again.
    pub nodiratime: bool,
    /// The access time goes, and is `relatime` unless another one is set.
    pub atime: bool,
}

impl ClrWords {
    /// Whether something is taken away.
    pub fn clears_some(&self) -> bool
        ensures { result ≡ clears_some self.now }
    {
        self.ro
            || self.nosuid
            || self.nodev
            || self.noexec
            || self.nosymfollow
            || self.nodiratime
            || self.atime
    }
}

/// A change of one mount, or of a mount and all mounts below it.
#[derive(Clone, Copy, PartialEq, Eq, Debug)]
pub struct Change {
    /// What is added, after `clr` was taken away.
    pub set: SetWords,
    /// What is taken away.
    pub clr: ClrWords,
    /// What the mounts are made, all at once, or `None` to leave their propagation as it is.
    pub prop: Option<Kind>,
    /// Whether it also applies to all mounts below the named one: `AT_RECURSIVE` of
    /// mount_setattr(2).
    pub recursive: bool,
}
