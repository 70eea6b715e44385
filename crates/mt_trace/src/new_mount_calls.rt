//! The arguments of calls that make a filesystem and a mount of it.
ghost use Rattle.std.specs.Prelude.{◌≡◌};
ghost use Rattle.mt_trace.specs.SystemCalls.{fsopen_call, fsmount_asked, fsmount_call, setting_of, fsconfig_call};

use crate::call_flags::{FSMOUNT_FLAGS, OTHER_SETTINGS};
use crate::flags::{Flags, is_flag_of};
use crate::mount_calls::strange;
use crate::mount_flags::attributes_asked;
use crate::string_argument::StringArgument;
use crate::system_call::{AskedCall, ContextSetting, SystemCall};
use crate::unknown::Unknown;
use mt_setattr::change::SetWords;
use mt_strace::arguments::Arguments;
use mt_strace::descriptor::{Descriptor, read_descriptor};

/// fsopen(2).
pub(crate) fn fsopen_call<'a>(arguments: Arguments<'a>) -> AskedCall<'a>
    ensures { result ≡ fsopen_call arguments.entry }
{
    let mut arguments = arguments;
    let (Some(kind), Some(flags), None) = (arguments.next(), arguments.next(), arguments.next())
    else {
        return strange();
    };
    AskedCall::Call(SystemCall::Fsopen {
        kind: StringArgument::new(kind),
        closes_on_exec: Flags::new(flags).has(b"FSOPEN_CLOEXEC"),
    })
}

/// A call of fsmount(2), if its attributes are known.
fn fsmount_asked<'a>(
    context: Descriptor<'a>,
    flags: &Flags<'_>,
    set: Result<SetWords, Unknown>,
) -> AskedCall<'a>
    ensures { result ≡ fsmount_asked context.entry flags.now set }
{
    let set = match set {
        Ok(set) => set,
        Err(why) => return AskedCall::Unknown(why),
    };
    if !flags.are_flags_of(&FSMOUNT_FLAGS) {
        return AskedCall::Unknown(Unknown::Flag);
    }
    AskedCall::Call(SystemCall::Fsmount {
        context,
        set,
        closes_on_exec: flags.has(b"FSMOUNT_CLOEXEC"),
    })
}

/// fsmount(2).
pub(crate) fn fsmount_call<'a>(arguments: Arguments<'a>) -> AskedCall<'a>
    ensures { result ≡ fsmount_call arguments.entry }
{
    let mut arguments = arguments;
    let (Some(context), Some(flags), Some(attributes), None) = (
        arguments.next(),
        arguments.next(),
        arguments.next(),
        arguments.next(),
    ) else {
        return strange();
    };
    let Some(context) = read_descriptor(context) else {
        return strange();
    };
    let set = attributes_asked(&Flags::new(attributes));
    fsmount_asked(context, &Flags::new(flags), set)
}

/// What a command of fsconfig(2) sets. `None` if the command is not known.
fn setting_of<'a>(command: &[u8], key: &'a [u8], value: &'a [u8]) -> Option<ContextSetting<'a>>
    ensures { result ≡ setting_of command.now key.entry.now value.entry.now }
{
    if command == b"FSCONFIG_SET_STRING".as_slice() {
        return Some(ContextSetting::String {
            key: StringArgument::new(key),
            value: StringArgument::new(value),
        });
    }
    if command == b"FSCONFIG_SET_FLAG".as_slice() {
        return Some(ContextSetting::Flag {
            key: StringArgument::new(key),
        });
    }
    if is_flag_of(&OTHER_SETTINGS, command) {
        Some(ContextSetting::Other)
    } else {
        None
    }
}

/// fsconfig(2).
pub(crate) fn fsconfig_call<'a>(arguments: Arguments<'a>) -> AskedCall<'a>
    ensures { result ≡ fsconfig_call arguments.entry }
{
    let mut arguments = arguments;
    let (Some(context), Some(command), Some(key), Some(value), Some(_aux), None) = (
        arguments.next(),
        arguments.next(),
        arguments.next(),
        arguments.next(),
        arguments.next(),
        arguments.next(),
    ) else {
        return strange();
    };
    let Some(context) = read_descriptor(context) else {
        return strange();
    };
    match setting_of(command, key, value) {
        Some(setting) => AskedCall::Call(SystemCall::Fsconfig { context, setting }),
        None => AskedCall::Unknown(Unknown::Flag),
    }
}
