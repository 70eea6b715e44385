//! What the flags of mount(2), and the attributes of mount_setattr(2), ask for.
ghost use Rattle.std.specs.Prelude.{◌≡◌};
ghost use Rattle.mt_trace.specs.MountFlags.{set_without_times, set_by_flags, has_times, remount_set, remount_clr, remount_change, kind_by_flags, propagation_change, moved_or_new, known_operation, asked_operation, attribute_set_without_times, attribute_set, attribute_clr, attribute_fault, propagation_fault, attribute_change, attributes_asked};

use crate::flags::{Flags, no_flags};
use crate::unknown::Unknown;
use mt_peers::state::Kind;
use mt_setattr::change::{Change, ClrWords, SetWords};

/// What a call of mount(2) asks for.
#[derive(Clone, Copy, PartialEq, Eq, Debug)]
pub enum MountOperation {
    /// A filesystem is mounted, with these attributes.
    Mounts(SetWords),
    /// A place is bound; with all that is mounted below it if this is true.
    Binds(bool),
    /// A mount is moved.
    Moves,
    /// A mount is changed; and the options of its filesystem may be if this is true.
    Changes(Change, bool),
}

/// The flags that strace has names for.
const MOUNT_FLAGS: [&[u8]; 26] = [
    b"0",
    b"MS_MGC_VAL",
    b"MS_RDONLY",
    b"MS_NOSUID",
    b"MS_NODEV",
    b"MS_NOEXEC",
    b"MS_SYNCHRONOUS",
    b"MS_REMOUNT",
    b"MS_MANDLOCK",
    b"MS_DIRSYNC",
    b"MS_NOSYMFOLLOW",
    b"MS_NOATIME",
    b"MS_NODIRATIME",
    b"MS_BIND",
    b"MS_MOVE",
    b"MS_REC",
    b"MS_SILENT",
    b"MS_POSIXACL",
    b"MS_UNBINDABLE",
    b"MS_PRIVATE",
    b"MS_SLAVE",
    b"MS_SHARED",
    b"MS_RELATIME",
    b"MS_I_VERSION",
    b"MS_STRICTATIME",
    b"MS_LAZYTIME",
];

/// The attributes that are known, but for mapped IDs.
const ATTRIBUTES: [&[u8]; 11] = [
    b"0",
    b"MOUNT_ATTR_RDONLY",
    b"MOUNT_ATTR_NOSUID",
    b"MOUNT_ATTR_NODEV",
    b"MOUNT_ATTR_NOEXEC",
    b"MOUNT_ATTR_NOSYMFOLLOW",
    b"MOUNT_ATTR_NODIRATIME",
    b"MOUNT_ATTR_RELATIME",
    b"MOUNT_ATTR_NOATIME",
    b"MOUNT_ATTR_STRICTATIME",
    b"MOUNT_ATTR__ATIME",
];

/// The attributes of a new mount, but for access times.
fn set_without_times(flags: &Flags<'_>) -> SetWords
    ensures { result ≡ set_without_times flags.now }
{
    SetWords {
        ro: flags.has(b"MS_RDONLY"),
        nosuid: flags.has(b"MS_NOSUID"),
        nodev: flags.has(b"MS_NODEV"),
        noexec: flags.has(b"MS_NOEXEC"),
        nosymfollow: flags.has(b"MS_NOSYMFOLLOW"),
        nodiratime: flags.has(b"MS_NODIRATIME"),
        relatime: false,
        noatime: false,
        strictatime: false,
    }
}

/// The attributes of a new mount.
fn set_by_flags(flags: &Flags<'_>) -> SetWords
    ensures { result ≡ set_by_flags flags.now }
{
    let set = set_without_times(flags);
    SetWords {
        noatime: flags.has(b"MS_NOATIME") && !flags.has(b"MS_STRICTATIME"),
        strictatime: flags.has(b"MS_STRICTATIME"),
        ..set
    }
}

/// Whether flags say something of access times.
fn has_times(flags: &Flags<'_>) -> bool
    ensures { result ≡ has_times flags.now }
{
    flags.has(b"MS_NOATIME")
        || flags.has(b"MS_NODIRATIME")
        || flags.has(b"MS_RELATIME")
        || flags.has(b"MS_STRICTATIME")
}

/// What a remount sets, if flags say something of access times or not.
fn remount_set(flags: &Flags<'_>, has_times: bool) -> SetWords
    ensures { result ≡ remount_set flags.now has_times }
{
    let set = set_by_flags(flags);
    SetWords {
        relatime: has_times && !flags.has(b"MS_NOATIME") && !flags.has(b"MS_STRICTATIME"),
        ..set
    }
}

/// What a remount takes away, if flags say something of access times or not.
fn remount_clr(flags: &Flags<'_>, has_times: bool) -> ClrWords
    ensures { result ≡ remount_clr flags.now has_times }
{
    ClrWords {
        ro: !flags.has(b"MS_RDONLY"),
        nosuid: !flags.has(b"MS_NOSUID"),
        nodev: !flags.has(b"MS_NODEV"),
        noexec: !flags.has(b"MS_NOEXEC"),
        nosymfollow: !flags.has(b"MS_NOSYMFOLLOW"),
        nodiratime: has_times && !flags.has(b"MS_NODIRATIME"),
        atime: has_times,
    }
}

/// What a remount changes: all attributes, but access times only where one is given.
fn remount_change(flags: &Flags<'_>) -> Change
    ensures { result ≡ remount_change flags.now }
{
    let has_times = has_times(flags);
    Change {
        set: remount_set(flags, has_times),
        clr: remount_clr(flags, has_times),
        prop: None,
        recursive: false,
    }
}

/// The propagation that flags ask for, if they do.
fn kind_by_flags(flags: &Flags<'_>) -> Option<Kind>
    ensures { result ≡ kind_by_flags flags.now }
{
    if flags.has(b"MS_SHARED") {
        return Some(Kind::Shared);
    }
    if flags.has(b"MS_SLAVE") {
        return Some(Kind::Slave);
    }
    if flags.has(b"MS_PRIVATE") {
        return Some(Kind::Private);
    }
    if flags.has(b"MS_UNBINDABLE") {
        return Some(Kind::Unbindable);
    }
    None
}

/// The change of a propagation.
fn propagation_change(flags: &Flags<'_>, made: Kind) -> Change
    ensures { result ≡ propagation_change flags.now made }
{
    let none = no_flags();
    Change {
        set: attribute_set(&none),
        clr: attribute_clr(&none),
        prop: Some(made),
        recursive: flags.has(b"MS_REC"),
    }
}

/// What is neither a remount nor a bind.
fn moved_or_new(flags: &Flags<'_>, made: Option<Kind>) -> MountOperation
    ensures { result ≡ moved_or_new flags.now made }
{
    if let Some(made) = made {
        return MountOperation::Changes(propagation_change(flags, made), false);
    }
    if flags.has(b"MS_MOVE") {
        MountOperation::Moves
    } else {
        MountOperation::Mounts(set_by_flags(flags))
    }
}

/// What a call of mount(2) with known flags asks for.
fn known_operation(flags: &Flags<'_>) -> MountOperation
    ensures { result ≡ known_operation flags.now }
{
    if flags.has(b"MS_REMOUNT") {
        return MountOperation::Changes(remount_change(flags), !flags.has(b"MS_BIND"));
    }
    if flags.has(b"MS_BIND") {
        return MountOperation::Binds(flags.has(b"MS_REC"));
    }
    moved_or_new(flags, kind_by_flags(flags))
}

/// What a call of mount(2) asks for by its flags: of several things, the first in the order of the kernel. `None` if a flag is not
/// known.
#[tactic(auto, unfolding(crate::specs::MountFlags::asked_operation))]
pub(crate) fn asked_operation(flags: &Flags<'_>) -> Option<MountOperation>
    ensures { result ≡ asked_operation flags.now }
{
    if flags.are_flags_of(&MOUNT_FLAGS) {
        Some(known_operation(flags))
    } else {
        None
    }
}

/// What mount_setattr(2) sets, but for access times.
fn attribute_set_without_times(flags: &Flags<'_>) -> SetWords
    ensures { result ≡ attribute_set_without_times flags.now }
{
    SetWords {
        ro: flags.has(b"MOUNT_ATTR_RDONLY"),
        nosuid: flags.has(b"MOUNT_ATTR_NOSUID"),
        nodev: flags.has(b"MOUNT_ATTR_NODEV"),
        noexec: flags.has(b"MOUNT_ATTR_NOEXEC"),
        nosymfollow: flags.has(b"MOUNT_ATTR_NOSYMFOLLOW"),
        nodiratime: flags.has(b"MOUNT_ATTR_NODIRATIME"),
        relatime: false,
        noatime: false,
        strictatime: false,
    }
}

/// What mount_setattr(2) sets.
fn attribute_set(flags: &Flags<'_>) -> SetWords
    ensures { result ≡ attribute_set flags.now }
{
    let set = attribute_set_without_times(flags);
    SetWords {
        relatime: flags.has(b"MOUNT_ATTR_RELATIME"),
        noatime: flags.has(b"MOUNT_ATTR_NOATIME"),
        strictatime: flags.has(b"MOUNT_ATTR_STRICTATIME"),
        ..set
    }
}

/// What mount_setattr(2) clears.
fn attribute_clr(flags: &Flags<'_>) -> ClrWords
    ensures { result ≡ attribute_clr flags.now }
{
    ClrWords {
        ro: flags.has(b"MOUNT_ATTR_RDONLY"),
        nosuid: flags.has(b"MOUNT_ATTR_NOSUID"),
        nodev: flags.has(b"MOUNT_ATTR_NODEV"),
        noexec: flags.has(b"MOUNT_ATTR_NOEXEC"),
        nosymfollow: flags.has(b"MOUNT_ATTR_NOSYMFOLLOW"),
        nodiratime: flags.has(b"MOUNT_ATTR_NODIRATIME"),
        atime: flags.has(b"MOUNT_ATTR__ATIME"),
    }
}

/// Why what is set or cleared is not known, if it is not.
fn attribute_fault(flags: &Flags<'_>) -> Option<Unknown>
    ensures { result ≡ attribute_fault flags.now }
{
    if flags.has(b"MOUNT_ATTR_IDMAP") {
        return Some(Unknown::MappedIds);
    }
    if flags.are_flags_of(&ATTRIBUTES) {
        None
    } else {
        Some(Unknown::Flag)
    }
}

/// Why a propagation is not known, if it is not.
fn propagation_fault(flags: &Flags<'_>) -> Option<Unknown>
    ensures { result ≡ propagation_fault flags.now }
{
    if flags.are_flags_of(&MOUNT_FLAGS) {
        None
    } else {
        Some(Unknown::Flag)
    }
}

/// The change that a call of mount_setattr(2) asks for, by its flags, what it sets, what it clears, and the propagation; or why it
/// is not known.
#[tactic(auto, unfolding(crate::specs::MountFlags::attribute_change))]
pub(crate) fn attribute_change(
    flags: &Flags<'_>,
    set: &Flags<'_>,
    clear: &Flags<'_>,
    propagation: &Flags<'_>,
) -> Result<Change, Unknown>
    ensures { result ≡ attribute_change flags.now set.now clear.now propagation.now }
{
    if let Some(why) = attribute_fault(set) {
        return Err(why);
    }
    if let Some(why) = attribute_fault(clear) {
        return Err(why);
    }
    if let Some(why) = propagation_fault(propagation) {
        return Err(why);
    }
    Ok(Change {
        set: attribute_set(set),
        clr: attribute_clr(clear),
        prop: kind_by_flags(propagation),
        recursive: flags.has(b"AT_RECURSIVE"),
    })
}

/// The attributes that fsmount(2) gives a new mount, or why they are not known.
#[tactic(auto, unfolding(crate::specs::MountFlags::attributes_asked))]
pub(crate) fn attributes_asked(flags: &Flags<'_>) -> Result<SetWords, Unknown>
    ensures { result ≡ attributes_asked flags.now }
{
    match attribute_fault(flags) {
        Some(why) => Err(why),
        None => Ok(attribute_set(flags)),
    }
}
