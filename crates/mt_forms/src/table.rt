//! The options of programs: what each means, and whether it takes a value.
ghost use Rattle.std.specs.Prelude.{◌≡◌, map};
ghost use Rattle.std.specs.Str.{bytes_eq};
ghost use Rattle.mt_forms.specs.Lookup.{looked_up};
ghost use Rattle.mt_forms.specs.Effects.{effect};
ghost use Rattle.mt_forms.specs.Tables.{options_of_tool, option_of_letter, option_of_name};

use crate::attribute::Attribute;
use crate::command::Tool;
use crate::operation::{Propagation, PropagationKind, Reach};

/// Which of its changes a line of mount(8) asks for.
#[derive(Clone, Copy)]
pub(crate) enum Change {
    Bind,
    Rbind,
    Move,
}

/// What an option means.
#[derive(Clone, Copy)]
pub(crate) enum Means {
    /// Bind, rbind or move.
    Changes(Change),
    /// The propagation of the mount.
    Makes(Propagation),
    /// An attribute is to be, or not.
    Turns(Attribute, bool),
    /// Its value is a list of options, between commas.
    Options,
    /// Its value is the type of the filesystem.
    FilesystemType,
    /// Its value is a source.
    Source,
    /// Its value is a target.
    Target,
    /// Its value names a namespace.
    Space,
    /// The mount namespace is meant; its value, if there is one, names it.
    Mounts,
    /// Busy mounts too.
    Lazy,
    /// Which mounts are unmounted.
    Reaches(Reach),
    /// An unmount is forced.
    Forced,
    /// A user namespace is made.
    Less,
    /// Its value says what the mounts of a new namespace are made.
    Spread,
    /// What stands in fstab(5), or all mounts.
    Fstab,
    /// Nothing that a table tells.
    Unseen,
}

/// Whether an option takes a value.
#[derive(Clone, Copy)]
pub(crate) enum Takes {
    /// None.
    Nothing,
    /// One, which comes after it.
    Value,
    /// One, if it comes after `=`.
    Maybe,
}

/// What an option does: what it means, and whether it takes a value.
#[derive(Clone, Copy)]
pub(crate) struct Effect {
    pub(crate) takes: Takes,
    pub(crate) means: Means,
}

/// An option of a program: its letter, or no byte where it has none, its name, whether it takes a value, and what it means.
#[derive(Clone, Copy)]
pub(crate) struct OptionRow(&'static [u8], pub(crate) &'static [u8], Takes, Means);

impl OptionRow {
    /// What the option does.
    fn effect(self) -> Effect
        ensures { result ≡ effect self }
    {
        Effect {
            takes: self.2,
            means: self.3,
        }
    }
}

/// One mount is made shared.
pub(crate) const SHARED: Propagation = Propagation {
    kind: PropagationKind::Shared,
    recursive: false,
};

/// A mount and all below it are made shared.
pub(crate) const ALL_SHARED: Propagation = Propagation {
    kind: PropagationKind::Shared,
    recursive: true,
};

/// One mount is made slave.
pub(crate) const SLAVE: Propagation = Propagation {
    kind: PropagationKind::Slave,
    recursive: false,
};

/// A mount and all below it are made slave.
pub(crate) const ALL_SLAVE: Propagation = Propagation {
    kind: PropagationKind::Slave,
    recursive: true,
};

/// One mount is made private.
pub(crate) const PRIVATE: Propagation = Propagation {
    kind: PropagationKind::Private,
    recursive: false,
};

/// A mount and all below it are made private.
pub(crate) const ALL_PRIVATE: Propagation = Propagation {
    kind: PropagationKind::Private,
    recursive: true,
};

/// One mount is made unbindable.
pub(crate) const UNBINDABLE: Propagation = Propagation {
    kind: PropagationKind::Unbindable,
    recursive: false,
};

/// A mount and all below it are made unbindable.
pub(crate) const ALL_UNBINDABLE: Propagation = Propagation {
    kind: PropagationKind::Unbindable,
    recursive: true,
};

/// The options of mount(8).
const MOUNT: [OptionRow; 27] = [
    OptionRow(b"B", b"bind", Takes::Nothing, Means::Changes(Change::Bind)),
    OptionRow(
        b"R",
        b"rbind",
        Takes::Nothing,
        Means::Changes(Change::Rbind),
    ),
    OptionRow(b"M", b"move", Takes::Nothing, Means::Changes(Change::Move)),
    OptionRow(b"", b"make-shared", Takes::Nothing, Means::Makes(SHARED)),
    OptionRow(b"", b"make-slave", Takes::Nothing, Means::Makes(SLAVE)),
    OptionRow(b"", b"make-private", Takes::Nothing, Means::Makes(PRIVATE)),
    OptionRow(
        b"",
        b"make-unbindable",
        Takes::Nothing,
        Means::Makes(UNBINDABLE),
    ),
    OptionRow(
        b"",
        b"make-rshared",
        Takes::Nothing,
        Means::Makes(ALL_SHARED),
    ),
    OptionRow(b"", b"make-rslave", Takes::Nothing, Means::Makes(ALL_SLAVE)),
    OptionRow(
        b"",
        b"make-rprivate",
        Takes::Nothing,
        Means::Makes(ALL_PRIVATE),
    ),
    OptionRow(
        b"",
        b"make-runbindable",
        Takes::Nothing,
        Means::Makes(ALL_UNBINDABLE),
    ),
    OptionRow(b"o", b"options", Takes::Value, Means::Options),
    OptionRow(b"t", b"types", Takes::Value, Means::FilesystemType),
    OptionRow(b"", b"source", Takes::Value, Means::Source),
    OptionRow(b"", b"target", Takes::Value, Means::Target),
    OptionRow(b"N", b"namespace", Takes::Value, Means::Space),
    OptionRow(
        b"r",
        b"read-only",
        Takes::Nothing,
        Means::Turns(Attribute::Ro, true),
    ),
    OptionRow(
        b"w",
        b"rw",
        Takes::Nothing,
        Means::Turns(Attribute::Ro, false),
    ),
    OptionRow(
        b"",
        b"read-write",
        Takes::Nothing,
        Means::Turns(Attribute::Ro, false),
    ),
    OptionRow(b"m", b"mkdir", Takes::Maybe, Means::Unseen),
    OptionRow(b"a", b"all", Takes::Nothing, Means::Fstab),
    OptionRow(b"T", b"fstab", Takes::Value, Means::Fstab),
    OptionRow(b"v", b"verbose", Takes::Nothing, Means::Unseen),
    OptionRow(b"n", b"no-mtab", Takes::Nothing, Means::Unseen),
    OptionRow(b"i", b"internal-only", Takes::Nothing, Means::Unseen),
    OptionRow(b"c", b"no-canonicalize", Takes::Nothing, Means::Unseen),
    OptionRow(b"s", b"sloppy", Takes::Nothing, Means::Unseen),
];

/// The options of umount(8).
const UMOUNT: [OptionRow; 15] = [
    OptionRow(b"l", b"lazy", Takes::Nothing, Means::Lazy),
    OptionRow(
        b"R",
        b"recursive",
        Takes::Nothing,
        Means::Reaches(Reach::Below),
    ),
    OptionRow(
        b"A",
        b"all-targets",
        Takes::Nothing,
        Means::Reaches(Reach::Filesystem),
    ),
    OptionRow(b"f", b"force", Takes::Nothing, Means::Forced),
    OptionRow(b"N", b"namespace", Takes::Value, Means::Space),
    OptionRow(b"a", b"all", Takes::Nothing, Means::Fstab),
    OptionRow(b"t", b"types", Takes::Value, Means::Fstab),
    OptionRow(b"O", b"test-opts", Takes::Value, Means::Fstab),
    OptionRow(b"v", b"verbose", Takes::Nothing, Means::Unseen),
    OptionRow(b"q", b"quiet", Takes::Nothing, Means::Unseen),
    OptionRow(b"n", b"no-mtab", Takes::Nothing, Means::Unseen),
    OptionRow(b"i", b"internal-only", Takes::Nothing, Means::Unseen),
    OptionRow(b"c", b"no-canonicalize", Takes::Nothing, Means::Unseen),
    OptionRow(b"d", b"detach-loop", Takes::Nothing, Means::Unseen),
    OptionRow(b"r", b"read-only", Takes::Nothing, Means::Unseen),
];

/// The options of unshare(1).
const UNSHARE: [OptionRow; 13] = [
    OptionRow(b"m", b"mount", Takes::Nothing, Means::Mounts),
    OptionRow(b"U", b"user", Takes::Maybe, Means::Less),
    OptionRow(b"r", b"map-root-user", Takes::Nothing, Means::Less),
    OptionRow(b"c", b"map-current-user", Takes::Nothing, Means::Less),
    OptionRow(b"", b"propagation", Takes::Value, Means::Spread),
    OptionRow(b"u", b"uts", Takes::Maybe, Means::Unseen),
    OptionRow(b"i", b"ipc", Takes::Maybe, Means::Unseen),
    OptionRow(b"n", b"net", Takes::Maybe, Means::Unseen),
    OptionRow(b"p", b"pid", Takes::Maybe, Means::Unseen),
    OptionRow(b"C", b"cgroup", Takes::Maybe, Means::Unseen),
    OptionRow(b"T", b"time", Takes::Maybe, Means::Unseen),
    OptionRow(b"f", b"fork", Takes::Nothing, Means::Unseen),
    OptionRow(b"", b"kill-child", Takes::Maybe, Means::Unseen),
];

/// The options of nsenter(1).
const NSENTER: [OptionRow; 14] = [
    OptionRow(b"t", b"target", Takes::Value, Means::Space),
    OptionRow(b"m", b"mount", Takes::Maybe, Means::Mounts),
    OptionRow(b"a", b"all", Takes::Nothing, Means::Mounts),
    OptionRow(b"u", b"uts", Takes::Maybe, Means::Unseen),
    OptionRow(b"i", b"ipc", Takes::Maybe, Means::Unseen),
    OptionRow(b"n", b"net", Takes::Maybe, Means::Unseen),
    OptionRow(b"p", b"pid", Takes::Maybe, Means::Unseen),
    OptionRow(b"C", b"cgroup", Takes::Maybe, Means::Unseen),
    OptionRow(b"T", b"time", Takes::Maybe, Means::Unseen),
    OptionRow(b"U", b"user", Takes::Maybe, Means::Unseen),
    OptionRow(b"F", b"no-fork", Takes::Nothing, Means::Unseen),
    OptionRow(b"", b"preserve-credentials", Takes::Nothing, Means::Unseen),
    OptionRow(b"S", b"setuid", Takes::Value, Means::Unseen),
    OptionRow(b"G", b"setgid", Takes::Value, Means::Unseen),
];

/// The options of a program.
pub(crate) fn options_of(tool: Tool) -> &'static [OptionRow]
    ensures { map (λ row. (row.0.now, row.1.now, row.2, row.3)) result.now ≡ options_of_tool tool }
{
    match tool {
        Tool::Mount => &MOUNT,
        Tool::Umount => &UMOUNT,
        Tool::Unshare => &UNSHARE,
        Tool::Nsenter => &NSENTER,
        Tool::PivotRoot => &[],
    }
}

/// What the option with a letter does, if it is in one of these rows.
fn among_letters(letter: &[u8], rows: &[OptionRow]) -> Option<Effect>
    ensures { result ≡ looked_up (λ row. bytes_eq row.0.now letter.now) effect rows.now }
{
    for row in rows {
        if row.0 == letter {
            return Some(row.effect());
        }
    }
    None
}

/// What the option with a name does, if it is in one of these rows.
fn among_names(name: &[u8], rows: &[OptionRow]) -> Option<Effect>
    ensures { result ≡ looked_up (λ row. bytes_eq row.1.now name.now) effect rows.now }
{
    for row in rows {
        if row.1 == name {
            return Some(row.effect());
        }
    }
    None
}

/// What an option of one letter does, if the program has it.
pub(crate) fn option_of_letter(tool: Tool, letter: &[u8]) -> Option<Effect>
    ensures { result ≡ option_of_letter tool letter.now }
{
    among_letters(letter, options_of(tool))
}

/// What an option with a name does, if the program has it.
pub(crate) fn option_of_name(tool: Tool, name: &[u8]) -> Option<Effect>
    ensures { result ≡ option_of_name tool name.now }
{
    among_names(name, options_of(tool))
}
