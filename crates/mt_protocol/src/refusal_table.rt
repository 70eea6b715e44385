//! The rows of the table of refusals.

use crate::errno::Errno::{Ebusy, Eexist, Einval, Eloop, Enametoolong, Enoent, Enomem, Eperm};
use crate::refusal::InLinux::{Errors, Nothing};
use crate::refusal::{Case, InLinux};

/// A row of the table, of which a [`RefusalRow`](crate::refusal::RefusalRow) is made. A static may hold no value that has a model.
pub(crate) struct Entry {
    pub(crate) sentence: &'static str,
    pub(crate) linux: InLinux,
    pub(crate) look: &'static str,
    pub(crate) change: &'static str,
}

pub(crate) static BAD_LINE: Entry = Entry {
    sentence: "The line has not the form of a line.",
    linux: Nothing("its calls take no lines"),
    look: "the word at fault, and the form of the line",
    change: "the form",
};

pub(crate) static TOO_LONG: Entry = Entry {
    sentence: "A line, path, component or label is longer than its limit.",
    linux: Errors(&[Case {
        errno: Enametoolong,
        calls: "each call that takes a path",
    }]),
    look: "which word it is, and its limit",
    change: "a shorter one",
};

pub(crate) static BAD_PATH: Entry = Entry {
    sentence: "A path has not the form of a path.",
    linux: Nothing("its calls take no lines"),
    look: "the component that is empty, . or .., or the missing first slash",
    change: "the path written out",
};

pub(crate) static JOURNAL_FULL: Entry = Entry {
    sentence: "1,048,576 commands were accepted.",
    linux: Nothing("the limits are those of the server"),
    look: "the server",
    change: "a new one",
};

pub(crate) static NO_FILESYSTEM: Entry = Entry {
    sentence: "No filesystem has this name.",
    linux: Nothing("it names neither filesystems nor namespaces so"),
    look: "the names that mkfs was given",
    change: "mkfs NAME TYPE SOURCE",
};

pub(crate) static FILESYSTEM_EXISTS: Entry = Entry {
    sentence: "A filesystem has this name already.",
    linux: Nothing("it names neither filesystems nor namespaces so"),
    look: "its type and source",
    change: "another name, or the one there",
};

pub(crate) static NO_NAMESPACE: Entry = Entry {
    sentence: "No namespace has this number.",
    linux: Nothing("it names neither filesystems nor namespaces so"),
    look: "the namespaces that there are (spaces)",
    change: "one of these",
};

pub(crate) static NO_ENTRY: Entry = Entry {
    sentence: "A component of the path is not there.",
    linux: Errors(&[Case {
        errno: Enoent,
        calls: "mount(2), umount2(2), mount_setattr(2), pivot_root(2) or mkdir(2)",
    }]),
    look: "the longest front of the path that is there, and what is mounted there",
    change: "mkdir of the missing component, in the filesystem of that mount",
};

pub(crate) static ENTRY_EXISTS: Entry = Entry {
    sentence: "The directory is there already.",
    linux: Errors(&[Case {
        errno: Eexist,
        calls: "mkdir(2)",
    }]),
    look: "the mounts that show it",
    change: "nothing: it is there",
};

pub(crate) static NOT_MOUNT_ROOT: Entry = Entry {
    sentence: "The path does not end at the root of a mount.",
    linux: Errors(&[Case {
        errno: Einval,
        calls: "mount(2) with MS_MOVE, umount2(2), mount_setattr(2) or pivot_root(2)",
    }]),
    look: "the mount that it is on (find), and the mounts below it",
    change: "the mount point, or a bind of the directory on itself",
};

pub(crate) static ROOT_PLACE: Entry = Entry {
    sentence: "The path ends at the root of the namespace's root mount, which is no place for this.",
    linux: Errors(&[
        Case {
            errno: Eloop,
            calls: "mount(2) with MS_MOVE",
        },
        Case {
            errno: Einval,
            calls: "mount(2) with MS_MOVE",
        },
        Case {
            errno: Ebusy,
            calls: "pivot_root(2)",
        },
    ]),
    look: "the root mount, and what covers it",
    change: "pivot to another root, then detach the old one",
};

pub(crate) static UNBINDABLE: Entry = Entry {
    sentence: "The source of a bind is unbindable.",
    linux: Errors(&[Case {
        errno: Einval,
        calls: "mount(2) with MS_BIND, or open_tree(2)",
    }]),
    look: "the mount of the source",
    change: "setattr NS PATH prop=private of it",
};

pub(crate) static SHARED_PARENT: Entry = Entry {
    sentence: "The mount to be moved stands on a shared mount.",
    linux: Errors(&[Case {
        errno: Einval,
        calls: "mount(2) with MS_MOVE, or pivot_root(2)",
    }]),
    look: "the parent of the mount, and the members of its peer group",
    change: "setattr NS PATH prop=private, or prop=slave, of the parent",
};

pub(crate) static INTO_ITSELF: Entry = Entry {
    sentence: "A mount would be moved into itself.",
    linux: Errors(&[
        Case {
            errno: Eloop,
            calls: "mount(2) with MS_MOVE",
        },
        Case {
            errno: Ebusy,
            calls: "pivot_root(2)",
        },
        Case {
            errno: Einval,
            calls: "pivot_root(2)",
        },
    ]),
    look: "the mounts from the moved one down to the destination",
    change: "another place",
};

pub(crate) static UNBINDABLE_INSIDE: Entry = Entry {
    sentence: "An unbindable mount would be moved under a shared one.",
    linux: Errors(&[Case {
        errno: Einval,
        calls: "mount(2) with MS_MOVE",
    }]),
    look: "the unbindable mounts in the tree, and the peer group of the destination",
    change: "setattr prop=private of either",
};

pub(crate) static BUSY: Entry = Entry {
    sentence: "The mount has other mounts on it.",
    linux: Errors(&[Case {
        errno: Ebusy,
        calls: "umount2(2)",
    }]),
    look: "the mounts on it, hidden ones too; in Linux also open files and working directories (fuser -vm)",
    change: "umount of those first, or detach",
};

pub(crate) static BAD_ATTR: Entry = Entry {
    sentence: "The attributes contradict one another.",
    linux: Errors(&[Case {
        errno: Einval,
        calls: "mount_setattr(2)",
    }]),
    look: "the words of set= and clr=",
    change: "one access time, with clr=atime",
};

pub(crate) static TOO_MANY: Entry = Entry {
    sentence: "A limit of the server is reached.",
    linux: Nothing("the limits are those of the server"),
    look: "how many mounts, copies, namespaces or directories there would be",
    change: "fewer receivers, by prop=private, dropns, or a server with a greater mountd --room",
};

pub(crate) static NO_WATCHER: Entry = Entry {
    sentence: "The session has no watcher.",
    linux: Nothing("it has no server, and no watchers"),
    look: "whether watch came before, and close behind it",
    change: "watch NS",
};

pub(crate) static WATCHER_OPEN: Entry = Entry {
    sentence: "The session has a watcher already.",
    linux: Nothing("it has no server, and no watchers"),
    look: "what it follows",
    change: "close",
};

pub(crate) static TOO_MANY_WATCHERS: Entry = Entry {
    sentence: "As many watchers are open as the server holds.",
    linux: Nothing("it has no server, and no watchers"),
    look: "which sessions have one",
    change: "close in one of them",
};

pub(crate) static LAGGED: Entry = Entry {
    sentence: "The queue of the watcher was full when a post came; the server sends it nothing any more.",
    linux: Nothing("it has no server, and no watchers"),
    look: "the number of the last post, and that of the namespace now",
    change: "close and watch again, or a longer queue of the server (--queue)",
};

pub(crate) static STOPPED: Entry = Entry {
    sentence: "The server was stopped.",
    linux: Nothing("it has no server, and no watchers"),
    look: "the server",
    change: "a new one",
};

pub(crate) static NO_MEMORY: Entry = Entry {
    sentence: "There was no memory for the answer.",
    linux: Errors(&[Case {
        errno: Enomem,
        calls: "each of these calls",
    }]),
    look: "how much memory there is",
    change: "the same line again",
};

pub(crate) static DETACHED: Entry = Entry {
    sentence: "The namespace is a detached tree, in which this is not done.",
    linux: Errors(&[Case {
        errno: Einval,
        calls: "mount(2), umount2(2), pivot_root(2), or mount_setattr(2) below the root mount of a tree",
    }]),
    look: "the line that made it: opentree or newtree",
    change: "movetree TREE NS PATH, then the line in NS",
};

pub(crate) static NOT_DETACHED: Entry = Entry {
    sentence: "The namespace that is to be attached is no detached tree.",
    linux: Errors(&[Case {
        errno: Einval,
        calls: "move_mount(2)",
    }]),
    look: "the number that opentree or newtree answered",
    change: "opentree NS / rec, then movetree of the tree",
};

pub(crate) static LOCKED: Entry = Entry {
    sentence: "The mount is locked on its place.",
    linux: Errors(&[Case {
        errno: Einval,
        calls: "mount(2) with MS_MOVE, umount2(2) or pivot_root(2)",
    }]),
    look: "locks NS, which lists what is locked",
    change: "the same line in the namespace that it came from, or an rbind of it, which can be moved",
};

pub(crate) static LOCKED_INSIDE: Entry = Entry {
    sentence: "A copy would leave out a mount that is locked where it stands.",
    linux: Errors(&[
        Case {
            errno: Einval,
            calls: "mount(2) with MS_BIND, or open_tree(2)",
        },
        Case {
            errno: Eperm,
            calls: "mount(2) with MS_BIND and MS_REC, or open_tree(2) with AT_RECURSIVE",
        },
    ]),
    look: "the mounts on the source, hidden ones too, and locks NS",
    change: "rbind, or opentree NS PATH rec, which takes them along",
};

pub(crate) static LOCKED_ATTR: Entry = Entry {
    sentence: "An attribute that is locked would change.",
    linux: Errors(&[Case {
        errno: Eperm,
        calls: "mount_setattr(2)",
    }]),
    look: "locks NS, which lists what is locked",
    change: "the same line without what is locked",
};
