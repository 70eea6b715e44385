//! What a line asks for.

use crate::attribute::Said;
use crate::word::Word;
use mt_lines::words::Words;

/// What mounts are made.
#[derive(Clone, Copy)]
pub enum PropagationKind {
    Shared,
    Private,
    Slave,
    Unbindable,
}

/// A change of propagation.
#[derive(Clone, Copy)]
pub struct Propagation {
    /// What the mount is made.
    pub kind: PropagationKind,
    /// Whether all mounts below it are made so too.
    pub recursive: bool,
}

/// Which mounts an unmount takes away.
#[derive(Clone, Copy)]
pub enum Reach {
    /// The one that is named.
    One,
    /// It, and all mounts below it, the last ones first: `umount -R`.
    Below,
    /// All mounts of its filesystem in the namespace: `umount -A`.
    Filesystem,
}

/// What a line asks for. Paths and sources are as they are written; a path begins with `/`, and has neither `.` nor `..`.
#[derive(Drop)]
pub enum Operation<'a> {
    /// `from` is to be seen at `to` too.
    Bind {
        from: Word<'a>,
        to: Word<'a>,
        /// Whether the mounts below it come with it.
        recursive: bool,
        /// What is said of the attributes of the new mount, and of it alone.
        said: Said,
        /// What the new mount is made then.
        propagation: Option<Propagation>,
    },
    /// The mount at `from` is to stand at `to`. What is said of its attributes has no effect.
    Move {
        from: Word<'a>,
        to: Word<'a>,
        propagation: Option<Propagation>,
    },
    /// A filesystem is to be mounted.
    Mount {
        /// Its source: a device, or any name.
        source: Word<'a>,
        /// Its type, if it is named.
        kind: Option<Word<'a>>,
        to: Word<'a>,
        /// What is said of the attributes of the new mount, which all of its copies have.
        said: Said,
        propagation: Option<Propagation>,
    },
    /// The attributes of a mount are to be others: what is said, over those that it has.
    Remount {
        to: Word<'a>,
        said: Said,
        propagation: Option<Propagation>,
    },
    /// The propagation of a mount is to be another one.
    Propagation {
        to: Word<'a>,
        propagation: Propagation,
    },
    /// Mounts are to be taken away.
    Umount {
        /// A mount point, or a source. What begins with `/` may be either.
        target: Word<'a>,
        /// Whether those that are busy too: `umount -l`.
        lazy: bool,
        reach: Reach,
    },
    /// `new` is to be the root mount, and the old one to stand at `old`.
    Pivot {
        new: Word<'a>,
        old: Word<'a>,
    },
    /// A copy of the namespace is to be made.
    CopySpace {
        /// Whether it belongs to a new user namespace, so that its mounts are locked as they come.
        less: bool,
        /// What all mounts of the copy are made, or None where they stay as they are.
        propagation: Option<Propagation>,
    },
    /// A directory is to be made, which no table tells of.
    Mkdir,
    /// A line of a session, as it stands.
    Line {
        /// Its first word.
        verb: Word<'a>,
        /// The others.
        words: Words<'a>,
    },
}

/// What a line asks for, and where.
#[derive(Drop)]
pub struct Asked<'a> {
    /// The namespace that the line names, as it is written: a process, or what else stands for one.
    pub space: Option<Word<'a>>,
    /// What is asked for.
    pub operation: Operation<'a>,
    /// The first word of `-o` that is an option of the filesystem, and has no effect on mounts.
    pub foreign: Option<Word<'a>>,
    /// Whether there are more such words.
    pub has_more_foreign: bool,
    /// Whether an unmount was to be forced, which has no effect here: `umount -f`.
    pub is_forced: bool,
    /// Whether a command comes after unshare(1), which is not read.
    pub has_command: bool,
}
