//! The arguments of calls that change mounts.
ghost use Rattle.std.specs.Prelude.{◌≡◌};
ghost use Rattle.mt_trace.specs.SystemCalls.{strange, mount_call, umount_call, umount2_call, pivot_root_call, change_told, setattr_asked, mount_setattr_call, open_tree_call, moved_asked, move_mount_call};

use crate::call_flags::{
    MOVE_FLAGS, OPEN_TREE_FLAGS, SETATTR_FLAGS, UNMOUNT_FLAGS, move_words, tree_words,
    unmount_words,
};
use crate::flags::{Flags, no_flags};
use crate::mount_flags::{asked_operation, attribute_change};
use crate::string_argument::StringArgument;
use crate::system_call::{AskedCall, SystemCall};
use crate::unknown::Unknown;
use mt_setattr::change::Change;
use mt_strace::arguments::{Arguments, fields_of};
use mt_strace::descriptor::{Descriptor, read_descriptor};

/// A call whose arguments are not its own.
pub(crate) fn strange<'a>() -> AskedCall<'a>
    ensures { result ≡ strange }
{
    AskedCall::Unknown(Unknown::Arguments)
}

/// mount(2).
pub(crate) fn mount_call<'a>(arguments: Arguments<'a>) -> AskedCall<'a>
    ensures { result ≡ mount_call arguments.entry }
{
    let mut arguments = arguments;
    let (Some(source), Some(target), Some(kind), Some(flags), Some(options), None) = (
        arguments.next(),
        arguments.next(),
        arguments.next(),
        arguments.next(),
        arguments.next(),
        arguments.next(),
    ) else {
        return strange();
    };
    let flags = Flags::new(flags);
    let Some(operation) = asked_operation(&flags) else {
        return AskedCall::Unknown(Unknown::Flag);
    };
    AskedCall::Call(SystemCall::Mount {
        source: StringArgument::new(source),
        target: StringArgument::new(target),
        kind: StringArgument::new(kind),
        operation,
        options: StringArgument::new(options),
    })
}

/// umount(2), without flags.
pub(crate) fn umount_call<'a>(arguments: Arguments<'a>) -> AskedCall<'a>
    ensures { result ≡ umount_call arguments.entry }
{
    let mut arguments = arguments;
    let (Some(path), None) = (arguments.next(), arguments.next()) else {
        return strange();
    };
    AskedCall::Call(SystemCall::Umount {
        path: StringArgument::new(path),
        words: unmount_words(&no_flags()),
    })
}

/// umount2(2).
pub(crate) fn umount2_call<'a>(arguments: Arguments<'a>) -> AskedCall<'a>
    ensures { result ≡ umount2_call arguments.entry }
{
    let mut arguments = arguments;
    let (Some(path), Some(flags), None) = (arguments.next(), arguments.next(), arguments.next())
    else {
        return strange();
    };
    let flags = Flags::new(flags);
    if !flags.are_flags_of(&UNMOUNT_FLAGS) {
        return AskedCall::Unknown(Unknown::Flag);
    }
    AskedCall::Call(SystemCall::Umount {
        path: StringArgument::new(path),
        words: unmount_words(&flags),
    })
}

/// pivot_root(2).
pub(crate) fn pivot_root_call<'a>(arguments: Arguments<'a>) -> AskedCall<'a>
    ensures { result ≡ pivot_root_call arguments.entry }
{
    let mut arguments = arguments;
    let (Some(new), Some(old), None) = (arguments.next(), arguments.next(), arguments.next()) else {
        return strange();
    };
    AskedCall::Call(SystemCall::PivotRoot {
        new: StringArgument::new(new),
        old: StringArgument::new(old),
    })
}

/// The change that the fields of a structure ask for, or why it is not known.
fn change_told(flags: &Flags<'_>, fields: &Arguments<'_>) -> Result<Change, Unknown>
    ensures { result ≡ change_told flags.now fields.now }
{
    let Some(set) = fields.again().value(b"attr_set=") else {
        return Err(Unknown::Arguments);
    };
    let Some(clear) = fields.again().value(b"attr_clr=") else {
        return Err(Unknown::Arguments);
    };
    let Some(propagation) = fields.again().value(b"propagation=") else {
        return Err(Unknown::Arguments);
    };
    attribute_change(
        flags,
        &Flags::new(set),
        &Flags::new(clear),
        &Flags::new(propagation),
    )
}

/// A call of mount_setattr(2), if its change is known.
fn setattr_asked<'a>(
    at: Descriptor<'a>,
    path: &'a [u8],
    flags: &Flags<'_>,
    change: Result<Change, Unknown>,
) -> AskedCall<'a>
    ensures { result ≡ setattr_asked at.entry path.entry.now flags.now change }
{
    let change = match change {
        Ok(change) => change,
        Err(why) => return AskedCall::Unknown(why),
    };
    if !flags.are_flags_of(&SETATTR_FLAGS) {
        return AskedCall::Unknown(Unknown::Flag);
    }
    AskedCall::Call(SystemCall::MountSetattr {
        at,
        path: StringArgument::new(path),
        follows: !flags.has(b"AT_SYMLINK_NOFOLLOW"),
        change,
    })
}

/// mount_setattr(2).
pub(crate) fn mount_setattr_call<'a>(arguments: Arguments<'a>) -> AskedCall<'a>
    ensures { result ≡ mount_setattr_call arguments.entry }
{
    let mut arguments = arguments;
    let (Some(at), Some(path), Some(flags), Some(attributes), Some(_size), None) = (
        arguments.next(),
        arguments.next(),
        arguments.next(),
        arguments.next(),
        arguments.next(),
        arguments.next(),
    ) else {
        return strange();
    };
    let Some(at) = read_descriptor(at) else {
        return strange();
    };
    let Some(fields) = fields_of(attributes) else {
        return strange();
    };
    let flags = Flags::new(flags);
    let change = change_told(&flags, &fields);
    setattr_asked(at, path, &flags, change)
}

/// open_tree(2).
pub(crate) fn open_tree_call<'a>(arguments: Arguments<'a>) -> AskedCall<'a>
    ensures { result ≡ open_tree_call arguments.entry }
{
    let mut arguments = arguments;
    let (Some(at), Some(path), Some(flags), None) = (
        arguments.next(),
        arguments.next(),
        arguments.next(),
        arguments.next(),
    ) else {
        return strange();
    };
    let Some(at) = read_descriptor(at) else {
        return strange();
    };
    let flags = Flags::new(flags);
    if !flags.are_flags_of(&OPEN_TREE_FLAGS) {
        return AskedCall::Unknown(Unknown::Flag);
    }
    AskedCall::Call(SystemCall::OpenTree {
        at,
        path: StringArgument::new(path),
        words: tree_words(&flags),
    })
}

/// A call of move_mount(2), if its flags are followed.
fn moved_asked<'a>(flags: &Flags<'_>, asks: SystemCall<'a>) -> AskedCall<'a>
    ensures { result ≡ moved_asked flags.now asks.entry }
{
    if flags.has(b"MOVE_MOUNT_BENEATH") {
        return AskedCall::Unknown(Unknown::Beneath);
    }
    if flags.has(b"MOVE_MOUNT_SET_GROUP") {
        return AskedCall::Unknown(Unknown::Group);
    }
    if !flags.are_flags_of(&MOVE_FLAGS) {
        return AskedCall::Unknown(Unknown::Flag);
    }
    AskedCall::Call(asks)
}

/// move_mount(2).
pub(crate) fn move_mount_call<'a>(arguments: Arguments<'a>) -> AskedCall<'a>
    ensures { result ≡ move_mount_call arguments.entry }
{
    let mut arguments = arguments;
    let (Some(from), Some(source), Some(to), Some(target), Some(flags), None) = (
        arguments.next(),
        arguments.next(),
        arguments.next(),
        arguments.next(),
        arguments.next(),
        arguments.next(),
    ) else {
        return strange();
    };
    let Some(from) = read_descriptor(from) else {
        return strange();
    };
    let Some(to) = read_descriptor(to) else {
        return strange();
    };
    let flags = Flags::new(flags);
    let words = move_words(&flags);
    moved_asked(
        &flags,
        SystemCall::MoveMount {
            from,
            source: StringArgument::new(source),
            to,
            target: StringArgument::new(target),
            words,
        },
    )
}
