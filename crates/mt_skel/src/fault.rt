//! Why a call or a request is refused.
ghost use Rattle.std.specs.Prelude.{◌≡◌, ◌≤◌, length};
ghost use Rattle.mt_skel.specs.Fault.{name_of};
ghost use Rattle.mt_skel.specs.declared.fault.Fault.TheVariants.{NoMemory};

use std::alloc::{AllocError, AllocFailed};

/// A refusal, in the order in which a call that could give several gives them.
/// A refused call has changed nothing.
#[derive(Clone, Copy, Debug, PartialEq, Eq)]
pub enum Fault {
    /// The line, or the text, is not well-formed.
    BadLine,
    /// A line, a path or a name is longer than its limit.
    TooLong,
    /// A path does not begin with `/`, or has a component that is empty, `.` or `..`.
    BadPath,
    /// As many commands were accepted as the journal holds.
    JournalFull,
    /// There is no filesystem of this name.
    NoFilesystem,
    /// There is a filesystem of this name already.
    FilesystemExists,
    /// There is no namespace of this number.
    NoNamespace,
    /// A component of the path is not there.
    NoEntry,
    /// The directory is there already.
    EntryExists,
    /// The path does not end at the root of a mount.
    NotMountRoot,
    /// The path ends at the root place of the namespace.
    RootPlace,
    /// The source of a bind is unbindable.
    Unbindable,
    /// The parent of the mount to be moved is in a peer group.
    SharedParent,
    /// A mount would be moved into itself.
    IntoItself,
    /// An unbindable mount would be moved under a shared one.
    UnbindableInside,
    /// The mount has other mounts on it.
    Busy,
    /// The attributes contradict one another.
    BadAttr,
    /// A limit of the server is reached.
    TooMany,
    /// There is no such watcher.
    NoWatcher,
    /// The session has a watcher already.
    WatcherOpen,
    /// As many watchers are open as the server holds.
    TooManyWatchers,
    /// The watcher fell behind and gets no more events.
    Lagged,
    /// The server was stopped.
    Stopped,
    /// A growth was refused for want of memory.
    NoMemory,
    /// The namespace is a detached tree, in which this is not done.
    Detached,
    /// The namespace that is to be attached is no detached tree.
    NotDetached,
    /// The mount is locked on its place.
    Locked,
    /// A copy would leave out a mount that is locked where it stands.
    LockedInside,
    /// An attribute that is locked would change.
    LockedAttr,
}

impl From<AllocError> for Fault {
    ghost from_gives = { λ _ fault. fault ≡ NoMemory };

    fn from(_error: AllocError) -> Fault {
        Fault::NoMemory
    }
}

impl<T: Drop> From<AllocFailed<T>> for Fault {
    ghost from_gives = { λ _ fault. fault ≡ NoMemory };

    fn from(_error: AllocFailed<T>) -> Fault {
        Fault::NoMemory
    }
}

impl Fault {
    /// The name that the refusal is printed by: at most 16 ASCII letters.
    pub fn name(self) -> &'static [u8]
        ensures name { result.now ≡ name_of self }
        ensures short { length result.now ≤ 16 }
    {
        match self {
            Fault::BadLine => b"BadLine",
            Fault::TooLong => b"TooLong",
            Fault::BadPath => b"BadPath",
            Fault::JournalFull => b"JournalFull",
            Fault::NoFilesystem => b"NoFilesystem",
            Fault::FilesystemExists => b"FilesystemExists",
            Fault::NoNamespace => b"NoNamespace",
            Fault::NoEntry => b"NoEntry",
            Fault::EntryExists => b"EntryExists",
            Fault::NotMountRoot => b"NotMountRoot",
            Fault::RootPlace => b"RootPlace",
            Fault::Unbindable => b"Unbindable",
            Fault::SharedParent => b"SharedParent",
            Fault::IntoItself => b"IntoItself",
            Fault::UnbindableInside => b"UnbindableInside",
            Fault::Busy => b"Busy",
            Fault::BadAttr => b"BadAttr",
            Fault::TooMany => b"TooMany",
            Fault::NoWatcher => b"NoWatcher",
            Fault::WatcherOpen => b"WatcherOpen",
            Fault::TooManyWatchers => b"TooManyWatchers",
            Fault::Lagged => b"Lagged",
            Fault::Stopped => b"Stopped",
            Fault::NoMemory => b"NoMemory",
            Fault::Detached => b"Detached",
            Fault::NotDetached => b"NotDetached",
            Fault::Locked => b"Locked",
            Fault::LockedInside => b"LockedInside",
            Fault::LockedAttr => b"LockedAttr",
        }
    }
}
