//! What the flags of umount2(2), open_tree(2), move_mount(2), open(2), clone(2) and their kin ask for.
ghost use Rattle.std.specs.Prelude.{◌≡◌};
ghost use Rattle.mt_trace.specs.CallFlags.{unmount_words, tree_words, move_words, open_words, is_clone_flag, are_clone_flags, namespace_words, clone_words};

use crate::flags::{Flags, is_flag_of};

/// What the flags of umount2(2) ask for.
#[derive(Clone, Copy, PartialEq, Eq, Debug)]
pub struct UnmountWords {
    /// With all that is mounted below it, and also if it is in use.
    pub detaches: bool,
    /// A symbolic link at the end of the path is followed.
    pub follows: bool,
}

/// What the flags of open_tree(2) ask for.
#[derive(Clone, Copy, PartialEq, Eq, Debug)]
pub struct TreeWords {
    /// A copy of the mount, and not the place itself.
    pub clones: bool,
    /// With a copy of each mount below it.
    pub recursive: bool,
    /// A symbolic link at the end of the path is followed.
    pub follows: bool,
    /// The descriptor is closed when another program is run.
    pub closes_on_exec: bool,
}

/// What the flags of move_mount(2) ask for.
#[derive(Clone, Copy, PartialEq, Eq, Debug)]
pub struct MoveWords {
    /// A symbolic link at the end of the source's path is followed.
    pub follows_source: bool,
    /// A symbolic link at the end of the target's path is followed.
    pub follows_target: bool,
}

/// What the flags of open(2) and openat2(2) say of the descriptor.
#[derive(Clone, Copy, PartialEq, Eq, Debug)]
pub struct OpenWords {
    /// A symbolic link at the end of the path is followed.
    pub follows: bool,
    /// The descriptor is closed when another program is run.
    pub closes_on_exec: bool,
    /// The directory that the path begins at is the root for it (RESOLVE_IN_ROOT).
    pub in_root: bool,
}

/// What the flags of clone(2), unshare(2) and setns(2) name.
#[derive(Clone, Copy, PartialEq, Eq, Debug)]
pub struct CloneWords {
    /// The root and the current directory: a child shares them, a process that calls unshare gets its own.
    pub directories: bool,
    /// The table of descriptors, in the same way.
    pub files: bool,
    /// The child is a thread of the same process.
    pub thread: bool,
    /// A namespace of mounts.
    pub mount: bool,
    /// A namespace of users.
    pub user: bool,
    /// A namespace of processes.
    pub process: bool,
    /// A namespace of the network.
    pub network: bool,
    /// A namespace of IPC.
    pub ipc: bool,
    /// A namespace of control groups.
    pub control_group: bool,
}

/// The flags of umount2(2).
pub(crate) const UNMOUNT_FLAGS: [&[u8]; 5] = [
    b"0",
    b"MNT_FORCE",
    b"MNT_DETACH",
    b"MNT_EXPIRE",
    b"UMOUNT_NOFOLLOW",
];

/// The flags of mount_setattr(2).
pub(crate) const SETATTR_FLAGS: [&[u8]; 5] = [
    b"0",
    b"AT_EMPTY_PATH",
    b"AT_RECURSIVE",
    b"AT_SYMLINK_NOFOLLOW",
    b"AT_NO_AUTOMOUNT",
];

/// The flags of open_tree(2).
pub(crate) const OPEN_TREE_FLAGS: [&[u8]; 7] = [
    b"OPEN_TREE_CLONE",
    b"OPEN_TREE_CLOEXEC",
    b"0",
    b"AT_EMPTY_PATH",
    b"AT_RECURSIVE",
    b"AT_SYMLINK_NOFOLLOW",
    b"AT_NO_AUTOMOUNT",
];

/// The flags of move_mount(2) that are followed.
pub(crate) const MOVE_FLAGS: [&[u8]; 7] = [
    b"0",
    b"MOVE_MOUNT_F_SYMLINKS",
    b"MOVE_MOUNT_F_AUTOMOUNTS",
    b"MOVE_MOUNT_F_EMPTY_PATH",
    b"MOVE_MOUNT_T_SYMLINKS",
    b"MOVE_MOUNT_T_AUTOMOUNTS",
    b"MOVE_MOUNT_T_EMPTY_PATH",
];

/// The flags of fsmount(2).
pub(crate) const FSMOUNT_FLAGS: [&[u8]; 2] = [b"0", b"FSMOUNT_CLOEXEC"];

/// The flags of execveat(2).
pub(crate) const EXECVEAT_FLAGS: [&[u8]; 3] = [b"0", b"AT_EMPTY_PATH", b"AT_SYMLINK_NOFOLLOW"];

/// The flags of close_range(2).
pub(crate) const CLOSE_RANGE_FLAGS: [&[u8]; 3] = [
    b"0",
    b"CLOSE_RANGE_UNSHARE",
    b"CLOSE_RANGE_CLOEXEC",
];

/// The commands of fsconfig(2) that set nothing which a table tells, or nothing at all.
pub(crate) const OTHER_SETTINGS: [&[u8]; 7] = [
    b"FSCONFIG_SET_BINARY",
    b"FSCONFIG_SET_PATH",
    b"FSCONFIG_SET_PATH_EMPTY",
    b"FSCONFIG_SET_FD",
    b"FSCONFIG_CMD_CREATE",
    b"FSCONFIG_CMD_CREATE_EXCL",
    b"FSCONFIG_CMD_RECONFIGURE",
];

/// The flags of clone(2).
const CLONE_FLAGS: [&[u8]; 28] = [
    b"0",
    b"CLONE_VM",
    b"CLONE_FS",
    b"CLONE_FILES",
    b"CLONE_SIGHAND",
    b"CLONE_PIDFD",
    b"CLONE_PTRACE",
    b"CLONE_VFORK",
    b"CLONE_PARENT",
    b"CLONE_THREAD",
    b"CLONE_NEWNS",
    b"CLONE_SYSVSEM",
    b"CLONE_SETTLS",
    b"CLONE_PARENT_SETTID",
    b"CLONE_CHILD_CLEARTID",
    b"CLONE_DETACHED",
    b"CLONE_UNTRACED",
    b"CLONE_CHILD_SETTID",
    b"CLONE_NEWCGROUP",
    b"CLONE_NEWUTS",
    b"CLONE_NEWIPC",
    b"CLONE_NEWUSER",
    b"CLONE_NEWPID",
    b"CLONE_NEWNET",
    b"CLONE_IO",
    b"CLONE_CLEAR_SIGHAND",
    b"CLONE_INTO_CGROUP",
    b"CLONE_NEWTIME",
];

/// What the flags of umount2(2) ask for.
pub(crate) fn unmount_words(flags: &Flags<'_>) -> UnmountWords
    ensures { result ≡ unmount_words flags.now }
{
    UnmountWords {
        detaches: flags.has(b"MNT_DETACH"),
        follows: !flags.has(b"UMOUNT_NOFOLLOW"),
    }
}

/// What the flags of open_tree(2) ask for.
pub(crate) fn tree_words(flags: &Flags<'_>) -> TreeWords
    ensures { result ≡ tree_words flags.now }
{
    TreeWords {
        clones: flags.has(b"OPEN_TREE_CLONE"),
        recursive: flags.has(b"AT_RECURSIVE"),
        follows: !flags.has(b"AT_SYMLINK_NOFOLLOW"),
        closes_on_exec: flags.has(b"OPEN_TREE_CLOEXEC"),
    }
}

/// What the flags of move_mount(2) ask for.
pub(crate) fn move_words(flags: &Flags<'_>) -> MoveWords
    ensures { result ≡ move_words flags.now }
{
    MoveWords {
        follows_source: flags.has(b"MOVE_MOUNT_F_SYMLINKS"),
        follows_target: flags.has(b"MOVE_MOUNT_T_SYMLINKS"),
    }
}

/// What the flags of open(2) say, and how openat2(2) resolves the path.
pub(crate) fn open_words(flags: &Flags<'_>, resolve: &Flags<'_>) -> OpenWords
    ensures { result ≡ open_words flags.now resolve.now }
{
    OpenWords {
        follows: !flags.has(b"O_NOFOLLOW"),
        closes_on_exec: flags.has(b"O_CLOEXEC"),
        in_root: resolve.has(b"RESOLVE_IN_ROOT"),
    }
}

/// Whether a word is a flag of clone(2), or the signal of a child's end.
fn is_clone_flag(word: &[u8]) -> bool
    ensures { result ≡ is_clone_flag word.now }
{
    is_flag_of(&CLONE_FLAGS, word) || word.starts_with(b"SIG")
}

/// Whether each word is one of those.
pub(crate) fn are_clone_flags(flags: &Flags<'_>) -> bool
    ensures { result ≡ are_clone_flags flags.now }
{
    flags.words().all(|word| is_clone_flag(word))
}

/// The namespaces that such flags name.
fn namespace_words(flags: &Flags<'_>) -> CloneWords
    ensures { result ≡ namespace_words flags.now }
{
    CloneWords {
        directories: false,
        files: false,
        thread: false,
        mount: flags.has(b"CLONE_NEWNS"),
        user: flags.has(b"CLONE_NEWUSER"),
        process: flags.has(b"CLONE_NEWPID"),
        network: flags.has(b"CLONE_NEWNET"),
        ipc: flags.has(b"CLONE_NEWIPC"),
        control_group: flags.has(b"CLONE_NEWCGROUP"),
    }
}

/// What the flags of clone(2), unshare(2) and setns(2) name.
pub(crate) fn clone_words(flags: &Flags<'_>) -> CloneWords
    ensures { result ≡ clone_words flags.now }
{
    let spaces = namespace_words(flags);
    CloneWords {
        directories: flags.has(b"CLONE_FS"),
        files: flags.has(b"CLONE_FILES"),
        thread: flags.has(b"CLONE_THREAD"),
        ..spaces
    }
}
