//! What a call asks of the system.

use crate::call_flags::{CloneWords, MoveWords, OpenWords, TreeWords, UnmountWords};
use crate::mount_flags::MountOperation;
use crate::string_argument::StringArgument;
use crate::unknown::Unknown;
use mt_setattr::change::{Change, SetWords};
use mt_strace::descriptor::Descriptor;

/// What a call of fsconfig(2) sets.
#[derive(Drop)]
pub enum ContextSetting<'a> {
    /// A key with a value, as the source.
    String {
        /// The key.
        key: StringArgument<'a>,
        /// Its value.
        value: StringArgument<'a>,
    },
    /// A key without a value.
    Flag {
        /// The key.
        key: StringArgument<'a>,
    },
    /// Something that no table tells, or nothing.
    Other,
}

/// What a call asks of the system. A path is looked up from the descriptor in front of it, which stands for the current directory
/// where the call has none.
#[derive(Drop)]
pub enum SystemCall<'a> {
    /// Mounts a filesystem, or changes mounts: mount(2).
    Mount {
        /// The source.
        source: StringArgument<'a>,
        /// Where to.
        target: StringArgument<'a>,
        /// The type of the filesystem.
        kind: StringArgument<'a>,
        /// Which of the things that the call can do.
        operation: MountOperation,
        /// The options of the filesystem.
        options: StringArgument<'a>,
    },
    /// Unmounts a mount: umount2(2).
    Umount {
        /// The mount.
        path: StringArgument<'a>,
        /// How.
        words: UnmountWords,
    },
    /// Changes the root mount: pivot_root(2).
    PivotRoot {
        /// The new one.
        new: StringArgument<'a>,
        /// Where the old one goes.
        old: StringArgument<'a>,
    },
    /// Changes attributes and propagation of mounts: mount_setattr(2).
    MountSetattr {
        /// Where the path begins.
        at: Descriptor<'a>,
        /// The mount.
        path: StringArgument<'a>,
        /// Whether a symbolic link at its end is followed.
        follows: bool,
        /// What is changed.
        change: Change,
    },
    /// Opens a place, or a detached copy of what is mounted there: open_tree(2).
    OpenTree {
        /// Where the path begins.
        at: Descriptor<'a>,
        /// The place.
        path: StringArgument<'a>,
        /// How.
        words: TreeWords,
    },
    /// Moves a mount, or attaches a detached tree: move_mount(2).
    MoveMount {
        /// Where the path of the source begins.
        from: Descriptor<'a>,
        /// The source.
        source: StringArgument<'a>,
        /// Where the path of the target begins.
        to: Descriptor<'a>,
        /// The target.
        target: StringArgument<'a>,
        /// How.
        words: MoveWords,
    },
    /// Begins a filesystem: fsopen(2).
    Fsopen {
        /// Its type.
        kind: StringArgument<'a>,
        /// Whether the descriptor is closed when another program is run.
        closes_on_exec: bool,
    },
    /// Says more of a filesystem: fsconfig(2).
    Fsconfig {
        /// What fsopen(2) has returned.
        context: Descriptor<'a>,
        /// What is set.
        setting: ContextSetting<'a>,
    },
    /// Makes a detached mount: fsmount(2).
    Fsmount {
        /// What fsopen(2) has returned.
        context: Descriptor<'a>,
        /// The attributes of the mount.
        set: SetWords,
        /// Whether the descriptor is closed when another program is run.
        closes_on_exec: bool,
    },
    /// Makes a process, or a thread: clone(2), fork(2).
    Clone(CloneWords),
    /// Gives the process namespaces, and tables of its own: unshare(2).
    Unshare(CloneWords),
    /// Enters a namespace: setns(2).
    Setns {
        /// A file of it.
        space: Descriptor<'a>,
        /// The kinds that it may be of; none is any.
        kinds: CloneWords,
    },
    /// Runs a program: execve(2).
    Execve {
        /// Where the path begins.
        at: Descriptor<'a>,
        /// The program.
        path: StringArgument<'a>,
        /// Whether a symbolic link at its end is followed.
        follows: bool,
    },
    /// Changes the current directory: chdir(2).
    Chdir {
        /// The new one.
        path: StringArgument<'a>,
    },
    /// Changes the current directory to an open one: fchdir(2).
    Fchdir {
        /// The new one.
        at: Descriptor<'a>,
    },
    /// Changes the root directory of the process: chroot(2).
    Chroot {
        /// The new one.
        path: StringArgument<'a>,
    },
    /// Opens a file: open(2), openat2(2).
    Open {
        /// Where the path begins.
        at: Descriptor<'a>,
        /// The file.
        path: StringArgument<'a>,
        /// How.
        words: OpenWords,
    },
    /// Closes a descriptor: close(2).
    Close {
        /// The descriptor.
        at: Descriptor<'a>,
    },
    /// Closes all descriptors from one to another, both among them, or has them closed when another program is run: close_range(2).
    CloseRange {
        /// The first.
        first: Descriptor<'a>,
        /// The last.
        last: Descriptor<'a>,
        /// Whether the process gets a table of its own before.
        unshares: bool,
        /// Whether they are closed when another program is run, and not now.
        closes_on_exec: bool,
    },
    /// Copies a descriptor to the number that is returned: dup(2), fcntl(2).
    Dup {
        /// The descriptor.
        at: Descriptor<'a>,
        /// Whether the copy is closed when another program is run.
        closes_on_exec: bool,
    },
    /// Says whether a descriptor is closed when another program is run: fcntl(2), F_SETFD.
    SetClosing {
        /// The descriptor.
        at: Descriptor<'a>,
        /// Whether it is.
        closes_on_exec: bool,
    },
    /// Makes a symbolic link, or reads one: symlink(2), readlink(2).
    Link {
        /// Where the path begins.
        at: Descriptor<'a>,
        /// The link.
        path: StringArgument<'a>,
        /// What it leads to.
        target: StringArgument<'a>,
    },
}

/// What is known of a call.
#[derive(Drop)]
pub enum AskedCall<'a> {
    /// It asks for nothing that is followed.
    Silent,
    /// What it asks for.
    Call(SystemCall<'a>),
    /// It is not known what it asks for, and why.
    Unknown(Unknown),
}
