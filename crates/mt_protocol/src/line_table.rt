//! The rows of the table of lines.

use crate::argument::Argument;
use crate::argument::Argument::{
    Attributes, Count, Label, Less, Lock, Path, Recursive, Scope, Setting, Space,
};
use crate::form::Form;
use mt_skel::fault::Fault;
use mt_skel::fault::Fault::{
    BadAttr, Busy, Detached, EntryExists, FilesystemExists, IntoItself, Lagged, Locked, LockedAttr,
    LockedInside, NoEntry, NoFilesystem, NoNamespace, NoWatcher, NotDetached, NotMountRoot,
    RootPlace, SharedParent, Stopped, TooMany, TooManyWatchers, Unbindable, UnbindableInside,
    WatcherOpen,
};

/// A row of the table, of which a [`LineRow`](crate::line_row::LineRow) is made. A static may hold no value that has a model.
pub(crate) struct Entry {
    pub(crate) word: &'static [u8],
    pub(crate) arguments: &'static [Argument],
    pub(crate) form: Form,
    pub(crate) is_command: bool,
    pub(crate) refusals: &'static [Fault],
    pub(crate) usage: &'static str,
    pub(crate) help: &'static str,
    pub(crate) example: &'static str,
}

/// What a line that binds may be refused as.
const BIND_REFUSALS: [Fault; 6] = [
    NoNamespace,
    NoEntry,
    RootPlace,
    Unbindable,
    LockedInside,
    TooMany,
];

pub(crate) static MKFS: Entry = Entry {
    word: b"mkfs",
    arguments: &[Label, Label, Label],
    form: Form::Number,
    is_command: true,
    refusals: &[FilesystemExists, TooMany],
    usage: "mkfs NAME TYPE SOURCE",
    help: "makes a filesystem with a root directory",
    example: "mkfs usb vfat /dev/sdb1",
};

pub(crate) static MKDIR: Entry = Entry {
    word: b"mkdir",
    arguments: &[Label, Path],
    form: Form::Done,
    is_command: true,
    refusals: &[NoFilesystem, NoEntry, EntryExists, TooMany],
    usage: "mkdir FS DIR",
    help: "makes a directory in a filesystem",
    example: "mkdir usb /photos",
};

pub(crate) static NEWNS: Entry = Entry {
    word: b"newns",
    arguments: &[Label],
    form: Form::Number,
    is_command: true,
    refusals: &[NoFilesystem, TooMany],
    usage: "newns FS",
    help: "makes a namespace with a filesystem as its root mount",
    example: "newns root",
};

pub(crate) static COPYNS: Entry = Entry {
    word: b"copyns",
    arguments: &[Space, Less, Lock],
    form: Form::Number,
    is_command: true,
    refusals: &[NoNamespace, Detached, TooMany],
    usage: "copyns NS [less [lock]]",
    help: "makes a copy of a namespace, or a less privileged one, or one with locks",
    example: "copyns 1 less lock",
};

pub(crate) static DROPNS: Entry = Entry {
    word: b"dropns",
    arguments: &[Space],
    form: Form::Done,
    is_command: true,
    refusals: &[NoNamespace],
    usage: "dropns NS",
    help: "ends a namespace with all its mounts",
    example: "dropns 2",
};

pub(crate) static MOUNT: Entry = Entry {
    word: b"mount",
    arguments: &[Space, Label, Path, Attributes],
    form: Form::Number,
    is_command: true,
    refusals: &[
        NoFilesystem,
        NoNamespace,
        NoEntry,
        RootPlace,
        BadAttr,
        TooMany,
    ],
    usage: "mount NS FS PATH [set=W,..]",
    help: "mounts a filesystem at a path",
    example: "mount 1 usb /media set=ro,nosuid",
};

pub(crate) static BIND: Entry = Entry {
    word: b"bind",
    arguments: &[Space, Path, Path],
    form: Form::Number,
    is_command: true,
    refusals: &BIND_REFUSALS,
    usage: "bind NS SRC DST",
    help: "shows a directory at another path too",
    example: "bind 1 /srv /mnt",
};

pub(crate) static RBIND: Entry = Entry {
    word: b"rbind",
    arguments: &[Space, Path, Path],
    form: Form::Number,
    is_command: true,
    refusals: &BIND_REFUSALS,
    usage: "rbind NS SRC DST",
    help: "the same with all mounts below it",
    example: "rbind 1 /srv /mnt",
};

pub(crate) static MOVE: Entry = Entry {
    word: b"move",
    arguments: &[Space, Path, Path],
    form: Form::Done,
    is_command: true,
    refusals: &[
        NoNamespace,
        Detached,
        NoEntry,
        NotMountRoot,
        RootPlace,
        Locked,
        SharedParent,
        IntoItself,
        UnbindableInside,
        TooMany,
    ],
    usage: "move NS SRC DST",
    help: "moves a mount, with all mounts on it, to another path",
    example: "move 1 /media /mnt",
};

pub(crate) static PIVOT: Entry = Entry {
    word: b"pivot",
    arguments: &[Space, Path, Path],
    form: Form::Done,
    is_command: true,
    refusals: &[
        NoNamespace,
        Detached,
        NoEntry,
        NotMountRoot,
        RootPlace,
        Locked,
        SharedParent,
        IntoItself,
    ],
    usage: "pivot NS NEW OLD",
    help: "makes a mount the root mount, and moves the old one below it",
    example: "pivot 1 /media /media/old",
};

pub(crate) static UMOUNT: Entry = Entry {
    word: b"umount",
    arguments: &[Space, Path],
    form: Form::Done,
    is_command: true,
    refusals: &[
        NoNamespace,
        Detached,
        NoEntry,
        NotMountRoot,
        RootPlace,
        Locked,
        Busy,
    ],
    usage: "umount NS PATH",
    help: "takes a mount away",
    example: "umount 1 /media",
};

pub(crate) static DETACH: Entry = Entry {
    word: b"detach",
    arguments: &[Space, Path],
    form: Form::Done,
    is_command: true,
    refusals: &[
        NoNamespace,
        Detached,
        NoEntry,
        NotMountRoot,
        RootPlace,
        Locked,
    ],
    usage: "detach NS PATH",
    help: "takes a mount away, with all mounts below it",
    example: "detach 1 /media",
};

pub(crate) static SETATTR: Entry = Entry {
    word: b"setattr",
    arguments: &[Space, Path, Setting, Setting, Setting, Setting],
    form: Form::Done,
    is_command: true,
    refusals: &[
        NoNamespace,
        NoEntry,
        NotMountRoot,
        BadAttr,
        Detached,
        LockedAttr,
    ],
    usage: "setattr NS PATH [rec] [set=W,..] [clr=W,..] [prop=KIND]",
    help: "changes attributes and propagation (shared, private, slave, unbindable)",
    example: "setattr 1 /media rec set=noatime clr=atime prop=slave",
};

pub(crate) static OPENTREE: Entry = Entry {
    word: b"opentree",
    arguments: &[Space, Path, Recursive],
    form: Form::Number,
    is_command: true,
    refusals: &[NoNamespace, NoEntry, Unbindable, LockedInside, TooMany],
    usage: "opentree NS PATH [rec]",
    help: "copies what is mounted at a path into a detached tree, or all below it too",
    example: "opentree 1 /srv rec",
};

pub(crate) static NEWTREE: Entry = Entry {
    word: b"newtree",
    arguments: &[Label],
    form: Form::Number,
    is_command: true,
    refusals: &[NoFilesystem, TooMany],
    usage: "newtree FS",
    help: "makes a detached tree with a filesystem as its root mount",
    example: "newtree usb",
};

pub(crate) static MOVETREE: Entry = Entry {
    word: b"movetree",
    arguments: &[Space, Space, Path],
    form: Form::Done,
    is_command: true,
    refusals: &[
        NoNamespace,
        NotDetached,
        NoEntry,
        RootPlace,
        IntoItself,
        UnbindableInside,
        TooMany,
    ],
    usage: "movetree TREE NS PATH",
    help: "attaches a detached tree at a path",
    example: "movetree 2 1 /mnt",
};

pub(crate) static SHOW: Entry = Entry {
    word: b"show",
    arguments: &[Space],
    form: Form::Table,
    is_command: false,
    refusals: &[NoNamespace],
    usage: "show NS",
    help: "lists the mounts of a namespace",
    example: "show 1",
};

pub(crate) static LOCKS: Entry = Entry {
    word: b"locks",
    arguments: &[Space],
    form: Form::Locks,
    is_command: false,
    refusals: &[NoNamespace],
    usage: "locks NS",
    help: "lists what is locked of the mounts of a namespace",
    example: "locks 2",
};

pub(crate) static FIND: Entry = Entry {
    word: b"find",
    arguments: &[Space, Path],
    form: Form::Place,
    is_command: false,
    refusals: &[NoNamespace, NoEntry],
    usage: "find NS PATH",
    help: "says on which mount and directory a path ends",
    example: "find 1 /media/old",
};

pub(crate) static JOURNAL: Entry = Entry {
    word: b"journal",
    arguments: &[Count(u64::MAX), Count(1_024)],
    form: Form::Commands,
    is_command: false,
    refusals: &[],
    usage: "journal FROM K",
    help: "lists at most K commands that were accepted, from that number on, as lines that can be sent again",
    example: "journal 1 8",
};

pub(crate) static WATCH: Entry = Entry {
    word: b"watch",
    arguments: &[Scope],
    form: Form::Opening,
    is_command: false,
    refusals: &[WatcherOpen, NoNamespace, TooManyWatchers, Stopped],
    usage: "watch NS, watch all",
    help: "begins a watcher of one namespace, or of all, and lists what it finds",
    example: "watch all",
};

pub(crate) static TAKE: Entry = Entry {
    word: b"take",
    arguments: &[Count(1_024)],
    form: Form::Posts,
    is_command: false,
    refusals: &[NoWatcher, Lagged, Stopped],
    usage: "take K",
    help: "prints at most K posts that wait",
    example: "take 8",
};

pub(crate) static FOLLOW: Entry = Entry {
    word: b"follow",
    arguments: &[Count(1_048_576)],
    form: Form::Followed,
    is_command: false,
    refusals: &[NoWatcher, Lagged, Stopped],
    usage: "follow K",
    help: "gives K posts, and rests where none wait",
    example: "follow 1",
};

pub(crate) static CLOSE: Entry = Entry {
    word: b"close",
    arguments: &[],
    form: Form::Posts,
    is_command: false,
    refusals: &[NoWatcher],
    usage: "close",
    help: "ends the watcher, and gives the posts that it has not taken",
    example: "close",
};

pub(crate) static QUIT: Entry = Entry {
    word: b"quit",
    arguments: &[],
    form: Form::Done,
    is_command: false,
    refusals: &[],
    usage: "quit",
    help: "ends the session",
    example: "quit",
};

pub(crate) static STOP: Entry = Entry {
    word: b"stop",
    arguments: &[],
    form: Form::Done,
    is_command: false,
    refusals: &[],
    usage: "stop",
    help: "ends the server",
    example: "stop",
};
