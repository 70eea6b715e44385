//! The table of refusals: their names, what each says, what Linux has in its place, and what may be done about it.
ghost use Rattle.std.specs.Prelude.{◌≡◌};
ghost use Rattle.std.specs.List.{find};
ghost use Rattle.std.specs.Str.{bytes_eq};
ghost use Rattle.mt_skel.specs.Fault.{name_of};
ghost use Rattle.mt_protocol.specs.Linux.{errnos_in};
ghost use Rattle.mt_protocol.specs.Refusals.{refusal_named, errnos_of};

use crate::errno::Errno;
use crate::refusal_table;
use crate::refusal_table::Entry;
use mt_skel::fault::Fault;
use std::marker::Model;

/// Every refusal of a server, in the order of the pages.
pub const REFUSALS: [Fault; 29] = [
    Fault::BadLine,
    Fault::TooLong,
    Fault::BadPath,
    Fault::JournalFull,
    Fault::NoFilesystem,
    Fault::FilesystemExists,
    Fault::NoNamespace,
    Fault::NoEntry,
    Fault::EntryExists,
    Fault::NotMountRoot,
    Fault::RootPlace,
    Fault::Unbindable,
    Fault::SharedParent,
    Fault::IntoItself,
    Fault::UnbindableInside,
    Fault::Busy,
    Fault::BadAttr,
    Fault::TooMany,
    Fault::NoWatcher,
    Fault::WatcherOpen,
    Fault::TooManyWatchers,
    Fault::Lagged,
    Fault::Stopped,
    Fault::NoMemory,
    Fault::Detached,
    Fault::NotDetached,
    Fault::Locked,
    Fault::LockedInside,
    Fault::LockedAttr,
];

/// A case in which Linux has an error in the place of a refusal: the error, and the calls that have it.
#[derive(Clone, Copy)]
pub struct Case {
    /// The error.
    pub errno: Errno,
    /// The calls, with their pages.
    pub calls: &'static str,
}

/// What Linux has in the place of a refusal.
#[derive(Clone, Copy)]
pub enum InLinux {
    /// Errors of calls.
    Errors(&'static [Case]),
    /// Nothing, and why.
    Nothing(&'static str),
}

/// What is known of a refusal: a row of the table of refusals.
#[derive(Drop)]
pub struct RefusalRow {
    /// What it says: a sentence.
    pub sentence: &'static str,
    /// What Linux has in its place (docs/KERNEL.md).
    pub linux: InLinux,
    /// What to look at.
    pub look: &'static str,
    /// What changes it.
    pub change: &'static str,
}

impl Model for RefusalRow {
    ghost use Rattle.std.specs.Prelude.{List};
    ghost use Rattle.mt_protocol.specs.declared.errno.Errno.{Errno};
    ghost use Rattle.mt_protocol.specs.Linux.{errnos_in};

    ghost Value = { List Errno };

    ghost view = { λ row. errnos_in row.linux };
}

/// The row of a refusal, as the table has it.
fn entry_of(refusal: Fault) -> &'static Entry
    ensures { errnos_in result.now.linux ≡ errnos_of refusal }
{
    match refusal {
        Fault::BadLine => &refusal_table::BAD_LINE,
        Fault::TooLong => &refusal_table::TOO_LONG,
        Fault::BadPath => &refusal_table::BAD_PATH,
        Fault::JournalFull => &refusal_table::JOURNAL_FULL,
        Fault::NoFilesystem => &refusal_table::NO_FILESYSTEM,
        Fault::FilesystemExists => &refusal_table::FILESYSTEM_EXISTS,
        Fault::NoNamespace => &refusal_table::NO_NAMESPACE,
        Fault::NoEntry => &refusal_table::NO_ENTRY,
        Fault::EntryExists => &refusal_table::ENTRY_EXISTS,
        Fault::NotMountRoot => &refusal_table::NOT_MOUNT_ROOT,
        Fault::RootPlace => &refusal_table::ROOT_PLACE,
        Fault::Unbindable => &refusal_table::UNBINDABLE,
        Fault::SharedParent => &refusal_table::SHARED_PARENT,
        Fault::IntoItself => &refusal_table::INTO_ITSELF,
        Fault::UnbindableInside => &refusal_table::UNBINDABLE_INSIDE,
        Fault::Busy => &refusal_table::BUSY,
        Fault::BadAttr => &refusal_table::BAD_ATTR,
        Fault::TooMany => &refusal_table::TOO_MANY,
        Fault::NoWatcher => &refusal_table::NO_WATCHER,
        Fault::WatcherOpen => &refusal_table::WATCHER_OPEN,
        Fault::TooManyWatchers => &refusal_table::TOO_MANY_WATCHERS,
        Fault::Lagged => &refusal_table::LAGGED,
        Fault::Stopped => &refusal_table::STOPPED,
        Fault::NoMemory => &refusal_table::NO_MEMORY,
        Fault::Detached => &refusal_table::DETACHED,
        Fault::NotDetached => &refusal_table::NOT_DETACHED,
        Fault::Locked => &refusal_table::LOCKED,
        Fault::LockedInside => &refusal_table::LOCKED_INSIDE,
        Fault::LockedAttr => &refusal_table::LOCKED_ATTR,
    }
}

/// The table of refusals: what is known of each.
pub fn refusal_row(refusal: Fault) -> RefusalRow
    ensures { result ≡ errnos_of refusal }
{
    let entry = entry_of(refusal);
    RefusalRow {
        sentence: entry.sentence,
        linux: entry.linux,
        look: entry.look,
        change: entry.change,
    }
}

/// The refusal of this name, if it is one of these.
fn named_among(name: &[u8], refusals: &[Fault]) -> Option<Fault>
    ensures { result ≡ find (λ fault. bytes_eq (name_of fault) name.now) refusals.now }
{
    refusals.iter().copied().find(|fault| fault.name() == name)
}

/// The refusal of this name, if there is one: [`Fault::name`] gives each one its own.
#[tactic(auto, unfolding(crate::specs::Refusals::refusal_named))]
pub fn refusal_named(name: &[u8]) -> Option<Fault>
    ensures { result ≡ refusal_named name.now }
{
    named_among(name, &REFUSALS)
}
