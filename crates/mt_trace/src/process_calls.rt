//! The arguments of calls that make processes, or change where one stands.
ghost use Rattle.std.specs.Prelude.{◌≡◌};
ghost use Rattle.mt_trace.specs.CallFlags.{words_if_known};
ghost use Rattle.mt_trace.specs.SystemCalls.{here, clone_call, clone3_call, unshare_call, setns_call, execve_call, execveat_call, chdir_call, fchdir_call, chroot_call};

use crate::call_flags::{CloneWords, EXECVEAT_FLAGS, are_clone_flags, clone_words};
use crate::flags::Flags;
use crate::mount_calls::strange;
use crate::string_argument::StringArgument;
use crate::system_call::{AskedCall, SystemCall};
use crate::unknown::Unknown;
use mt_strace::arguments::{Arguments, fields_of};
use mt_strace::descriptor::{Descriptor, DescriptorNumber, read_descriptor};

/// The current directory, in the place of a descriptor.
pub(crate) fn here<'a>() -> Descriptor<'a>
    ensures { result ≡ here }
{
    Descriptor {
        number: DescriptorNumber::CurrentDirectory,
        path: None,
        is_deleted: false,
    }
}

/// What the flags of clone(2), unshare(2) and setns(2) name, if all of them are known.
fn words_if_known(flags: &Flags<'_>) -> Option<CloneWords>
    ensures { result ≡ words_if_known flags.now }
{
    if are_clone_flags(flags) {
        Some(clone_words(flags))
    } else {
        None
    }
}

/// clone(2), of which strace names the arguments.
pub(crate) fn clone_call<'a>(arguments: Arguments<'a>) -> AskedCall<'a>
    ensures { result ≡ clone_call arguments.entry }
{
    let Some(flags) = arguments.value(b"flags=") else {
        return strange();
    };
    match words_if_known(&Flags::new(flags)) {
        Some(words) => AskedCall::Call(SystemCall::Clone(words)),
        None => AskedCall::Unknown(Unknown::Flag),
    }
}

/// clone3(2), which has them in a structure.
pub(crate) fn clone3_call<'a>(arguments: Arguments<'a>) -> AskedCall<'a>
    ensures { result ≡ clone3_call arguments.entry }
{
    let mut arguments = arguments;
    let Some(structure) = arguments.next() else {
        return strange();
    };
    match fields_of(structure) {
        Some(fields) => clone_call(fields),
        None => strange(),
    }
}

/// unshare(2).
pub(crate) fn unshare_call<'a>(arguments: Arguments<'a>) -> AskedCall<'a>
    ensures { result ≡ unshare_call arguments.entry }
{
    let mut arguments = arguments;
    let (Some(flags), None) = (arguments.next(), arguments.next()) else {
        return strange();
    };
    match words_if_known(&Flags::new(flags)) {
        Some(words) => AskedCall::Call(SystemCall::Unshare(words)),
        None => AskedCall::Unknown(Unknown::Flag),
    }
}

/// setns(2).
pub(crate) fn setns_call<'a>(arguments: Arguments<'a>) -> AskedCall<'a>
    ensures { result ≡ setns_call arguments.entry }
{
    let mut arguments = arguments;
    let (Some(space), Some(kinds), None) = (arguments.next(), arguments.next(), arguments.next())
    else {
        return strange();
    };
    let Some(space) = read_descriptor(space) else {
        return strange();
    };
    match words_if_known(&Flags::new(kinds)) {
        Some(kinds) => AskedCall::Call(SystemCall::Setns { space, kinds }),
        None => AskedCall::Unknown(Unknown::Flag),
    }
}

/// execve(2).
pub(crate) fn execve_call<'a>(arguments: Arguments<'a>) -> AskedCall<'a>
    ensures { result ≡ execve_call arguments.entry }
{
    let mut arguments = arguments;
    let (Some(path), Some(_words), Some(_environment), None) = (
        arguments.next(),
        arguments.next(),
        arguments.next(),
        arguments.next(),
    ) else {
        return strange();
    };
    AskedCall::Call(SystemCall::Execve {
        at: here(),
        path: StringArgument::new(path),
        follows: true,
    })
}

/// execveat(2).
pub(crate) fn execveat_call<'a>(arguments: Arguments<'a>) -> AskedCall<'a>
    ensures { result ≡ execveat_call arguments.entry }
{
    let mut arguments = arguments;
    let (Some(at), Some(path), Some(_words), Some(_environment), Some(flags), None) = (
        arguments.next(),
        arguments.next(),
        arguments.next(),
        arguments.next(),
        arguments.next(),
        arguments.next(),
    ) else {
        return strange();
    };
    let Some(at) = read_descriptor(at) else {
        return strange();
    };
    let flags = Flags::new(flags);
    if !flags.are_flags_of(&EXECVEAT_FLAGS) {
        return AskedCall::Unknown(Unknown::Flag);
    }
    AskedCall::Call(SystemCall::Execve {
        at,
        path: StringArgument::new(path),
        follows: !flags.has(b"AT_SYMLINK_NOFOLLOW"),
    })
}

/// chdir(2).
pub(crate) fn chdir_call<'a>(arguments: Arguments<'a>) -> AskedCall<'a>
    ensures { result ≡ chdir_call arguments.entry }
{
    let mut arguments = arguments;
    let (Some(path), None) = (arguments.next(), arguments.next()) else {
        return strange();
    };
    AskedCall::Call(SystemCall::Chdir {
        path: StringArgument::new(path),
    })
}

/// chroot(2).
pub(crate) fn chroot_call<'a>(arguments: Arguments<'a>) -> AskedCall<'a>
    ensures { result ≡ chroot_call arguments.entry }
{
    let mut arguments = arguments;
    let (Some(path), None) = (arguments.next(), arguments.next()) else {
        return strange();
    };
    AskedCall::Call(SystemCall::Chroot {
        path: StringArgument::new(path),
    })
}

/// fchdir(2).
pub(crate) fn fchdir_call<'a>(arguments: Arguments<'a>) -> AskedCall<'a>
    ensures { result ≡ fchdir_call arguments.entry }
{
    let mut arguments = arguments;
    let (Some(at), None) = (arguments.next(), arguments.next()) else {
        return strange();
    };
    let Some(at) = read_descriptor(at) else {
        return strange();
    };
    AskedCall::Call(SystemCall::Fchdir { at })
}
