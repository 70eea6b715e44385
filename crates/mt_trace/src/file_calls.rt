//! The arguments of calls that open, copy and close descriptors, and of those that name symbolic links.
ghost use Rattle.std.specs.Prelude.{◌≡◌};
ghost use Rattle.mt_trace.specs.SystemCalls.{open_call, openat_call, openat2_with, openat2_call, creat_call, close_call, close_range_call, dup_call, dup3_call, fcntl_asked, fcntl_call, symlink_call, symlinkat_call, readlink_call, readlinkat_call};

use crate::call_flags::{CLOSE_RANGE_FLAGS, open_words};
use crate::flags::{Flags, no_flags};
use crate::mount_calls::strange;
use crate::process_calls::here;
use crate::string_argument::StringArgument;
use crate::system_call::{AskedCall, SystemCall};
use crate::unknown::Unknown;
use mt_strace::arguments::{Arguments, fields_of};
use mt_strace::descriptor::{Descriptor, read_descriptor};

/// open(2): a mode may come behind the flags.
pub(crate) fn open_call<'a>(arguments: Arguments<'a>) -> AskedCall<'a>
    ensures { result ≡ open_call arguments.entry }
{
    let mut arguments = arguments;
    let (Some(path), Some(flags)) = (arguments.next(), arguments.next()) else {
        return strange();
    };
    AskedCall::Call(SystemCall::Open {
        at: here(),
        path: StringArgument::new(path),
        words: open_words(&Flags::new(flags), &no_flags()),
    })
}

/// openat(2).
pub(crate) fn openat_call<'a>(arguments: Arguments<'a>) -> AskedCall<'a>
    ensures { result ≡ openat_call arguments.entry }
{
    let mut arguments = arguments;
    let (Some(at), Some(path), Some(flags)) = (arguments.next(), arguments.next(), arguments.next())
    else {
        return strange();
    };
    let Some(at) = read_descriptor(at) else {
        return strange();
    };
    AskedCall::Call(SystemCall::Open {
        at,
        path: StringArgument::new(path),
        words: open_words(&Flags::new(flags), &no_flags()),
    })
}

/// openat2(2), from the fields of its structure on.
fn openat2_with<'a>(at: Descriptor<'a>, path: &'a [u8], fields: &Arguments<'_>) -> AskedCall<'a>
    ensures { result ≡ openat2_with at.entry path.entry.now fields.now }
{
    let Some(flags) = fields.again().value(b"flags=") else {
        return strange();
    };
    let Some(resolve) = fields.again().value(b"resolve=") else {
        return strange();
    };
    AskedCall::Call(SystemCall::Open {
        at,
        path: StringArgument::new(path),
        words: open_words(&Flags::new(flags), &Flags::new(resolve)),
    })
}

/// openat2(2), which has the flags in a structure.
pub(crate) fn openat2_call<'a>(arguments: Arguments<'a>) -> AskedCall<'a>
    ensures { result ≡ openat2_call arguments.entry }
{
    let mut arguments = arguments;
    let (Some(at), Some(path), Some(how), Some(_size), None) = (
        arguments.next(),
        arguments.next(),
        arguments.next(),
        arguments.next(),
        arguments.next(),
    ) else {
        return strange();
    };
    let Some(at) = read_descriptor(at) else {
        return strange();
    };
    match fields_of(how) {
        Some(fields) => openat2_with(at, path, &fields),
        None => strange(),
    }
}

/// creat(2).
pub(crate) fn creat_call<'a>(arguments: Arguments<'a>) -> AskedCall<'a>
    ensures { result ≡ creat_call arguments.entry }
{
    let mut arguments = arguments;
    let (Some(path), Some(_mode), None) = (arguments.next(), arguments.next(), arguments.next())
    else {
        return strange();
    };
    AskedCall::Call(SystemCall::Open {
        at: here(),
        path: StringArgument::new(path),
        words: open_words(&no_flags(), &no_flags()),
    })
}

/// close(2).
pub(crate) fn close_call<'a>(arguments: Arguments<'a>) -> AskedCall<'a>
    ensures { result ≡ close_call arguments.entry }
{
    let mut arguments = arguments;
    let (Some(at), None) = (arguments.next(), arguments.next()) else {
        return strange();
    };
    let Some(at) = read_descriptor(at) else {
        return strange();
    };
    AskedCall::Call(SystemCall::Close { at })
}

/// close_range(2).
pub(crate) fn close_range_call<'a>(arguments: Arguments<'a>) -> AskedCall<'a>
    ensures { result ≡ close_range_call arguments.entry }
{
    let mut arguments = arguments;
    let (Some(first), Some(last), Some(flags), None) = (
        arguments.next(),
        arguments.next(),
        arguments.next(),
        arguments.next(),
    ) else {
        return strange();
    };
    let Some(first) = read_descriptor(first) else {
        return strange();
    };
    let Some(last) = read_descriptor(last) else {
        return strange();
    };
    let flags = Flags::new(flags);
    if !flags.are_flags_of(&CLOSE_RANGE_FLAGS) {
        return AskedCall::Unknown(Unknown::Flag);
    }
    AskedCall::Call(SystemCall::CloseRange {
        first,
        last,
        unshares: flags.has(b"CLOSE_RANGE_UNSHARE"),
        closes_on_exec: flags.has(b"CLOSE_RANGE_CLOEXEC"),
    })
}

/// dup(2), dup2(2).
pub(crate) fn dup_call<'a>(arguments: Arguments<'a>) -> AskedCall<'a>
    ensures { result ≡ dup_call arguments.entry }
{
    let mut arguments = arguments;
    let Some(at) = arguments.next() else {
        return strange();
    };
    let Some(at) = read_descriptor(at) else {
        return strange();
    };
    AskedCall::Call(SystemCall::Dup {
        at,
        closes_on_exec: false,
    })
}

/// dup3(2).
pub(crate) fn dup3_call<'a>(arguments: Arguments<'a>) -> AskedCall<'a>
    ensures { result ≡ dup3_call arguments.entry }
{
    let mut arguments = arguments;
    let (Some(at), Some(_to), Some(flags), None) = (
        arguments.next(),
        arguments.next(),
        arguments.next(),
        arguments.next(),
    ) else {
        return strange();
    };
    let Some(at) = read_descriptor(at) else {
        return strange();
    };
    AskedCall::Call(SystemCall::Dup {
        at,
        closes_on_exec: Flags::new(flags).has(b"O_CLOEXEC"),
    })
}

/// fcntl(2), from its command on: of its commands, those that copy a descriptor, or say whether it is closed when another
/// program is run.
fn fcntl_asked<'a>(at: Descriptor<'a>, command: &[u8], arguments: Arguments<'a>) -> AskedCall<'a>
    ensures { result ≡ fcntl_asked at.entry command.now arguments.entry }
{
    let mut arguments = arguments;
    let Some(value) = arguments.next() else {
        return AskedCall::Silent;
    };
    if command == b"F_DUPFD".as_slice() {
        return AskedCall::Call(SystemCall::Dup {
            at,
            closes_on_exec: false,
        });
    }
    if command == b"F_DUPFD_CLOEXEC".as_slice() {
        return AskedCall::Call(SystemCall::Dup {
            at,
            closes_on_exec: true,
        });
    }
    if command == b"F_SETFD".as_slice() {
        return AskedCall::Call(SystemCall::SetClosing {
            at,
            closes_on_exec: Flags::new(value).has(b"FD_CLOEXEC"),
        });
    }
    AskedCall::Silent
}

/// fcntl(2).
pub(crate) fn fcntl_call<'a>(arguments: Arguments<'a>) -> AskedCall<'a>
    ensures { result ≡ fcntl_call arguments.entry }
{
    let mut arguments = arguments;
    let (Some(at), Some(command)) = (arguments.next(), arguments.next()) else {
        return strange();
    };
    let Some(at) = read_descriptor(at) else {
        return strange();
    };
    fcntl_asked(at, command, arguments)
}

/// symlink(2).
pub(crate) fn symlink_call<'a>(arguments: Arguments<'a>) -> AskedCall<'a>
    ensures { result ≡ symlink_call arguments.entry }
{
    let mut arguments = arguments;
    let (Some(target), Some(path), None) = (arguments.next(), arguments.next(), arguments.next())
    else {
        return strange();
    };
    AskedCall::Call(SystemCall::Link {
        at: here(),
        path: StringArgument::new(path),
        target: StringArgument::new(target),
    })
}

/// symlinkat(2).
pub(crate) fn symlinkat_call<'a>(arguments: Arguments<'a>) -> AskedCall<'a>
    ensures { result ≡ symlinkat_call arguments.entry }
{
    let mut arguments = arguments;
    let (Some(target), Some(at), Some(path), None) = (
        arguments.next(),
        arguments.next(),
        arguments.next(),
        arguments.next(),
    ) else {
        return strange();
    };
    let Some(at) = read_descriptor(at) else {
        return strange();
    };
    AskedCall::Call(SystemCall::Link {
        at,
        path: StringArgument::new(path),
        target: StringArgument::new(target),
    })
}

/// readlink(2).
pub(crate) fn readlink_call<'a>(arguments: Arguments<'a>) -> AskedCall<'a>
    ensures { result ≡ readlink_call arguments.entry }
{
    let mut arguments = arguments;
    let (Some(path), Some(target), Some(_size), None) = (
        arguments.next(),
        arguments.next(),
        arguments.next(),
        arguments.next(),
    ) else {
        return strange();
    };
    AskedCall::Call(SystemCall::Link {
        at: here(),
        path: StringArgument::new(path),
        target: StringArgument::new(target),
    })
}

/// readlinkat(2).
pub(crate) fn readlinkat_call<'a>(arguments: Arguments<'a>) -> AskedCall<'a>
    ensures { result ≡ readlinkat_call arguments.entry }
{
    let mut arguments = arguments;
    let (Some(at), Some(path), Some(target), Some(_size), None) = (
        arguments.next(),
        arguments.next(),
        arguments.next(),
        arguments.next(),
        arguments.next(),
    ) else {
        return strange();
    };
    let Some(at) = read_descriptor(at) else {
        return strange();
    };
    AskedCall::Call(SystemCall::Link {
        at,
        path: StringArgument::new(path),
        target: StringArgument::new(target),
    })
}
