//! What a call asks of the system: by its name, and its arguments.
ghost use Rattle.std.specs.Prelude.{◌≡◌};
ghost use Rattle.mt_trace.specs.Asking.{asked_by_name, asked_by_call};

use crate::call_flags::clone_words;
use crate::call_name::{CallName, call_named};
use crate::file_calls::{
    close_call, close_range_call, creat_call, dup_call, dup3_call, fcntl_call, open_call,
    openat_call, openat2_call, readlink_call, readlinkat_call, symlink_call, symlinkat_call,
};
use crate::flags::no_flags;
use crate::mount_calls::{
    mount_call, mount_setattr_call, move_mount_call, open_tree_call, pivot_root_call, umount_call,
    umount2_call,
};
use crate::new_mount_calls::{fsconfig_call, fsmount_call, fsopen_call};
use crate::process_calls::{
    chdir_call, chroot_call, clone_call, clone3_call, execve_call, execveat_call, fchdir_call,
    setns_call, unshare_call,
};
use crate::system_call::{AskedCall, SystemCall};
use mt_strace::arguments::Arguments;
use mt_strace::call::TracedCall;

/// What a call of this name asks with these arguments.
fn asked_by_name<'a>(name: CallName, arguments: Arguments<'a>) -> AskedCall<'a>
    ensures { result ≡ asked_by_name name arguments.entry }
{
    match name {
        CallName::Mount => mount_call(arguments),
        CallName::Umount => umount_call(arguments),
        CallName::Umount2 => umount2_call(arguments),
        CallName::PivotRoot => pivot_root_call(arguments),
        CallName::MountSetattr => mount_setattr_call(arguments),
        CallName::OpenTree => open_tree_call(arguments),
        CallName::MoveMount => move_mount_call(arguments),
        CallName::Fsopen => fsopen_call(arguments),
        CallName::Fsconfig => fsconfig_call(arguments),
        CallName::Fsmount => fsmount_call(arguments),
        CallName::Clone => clone_call(arguments),
        CallName::Clone3 => clone3_call(arguments),
        CallName::Fork => AskedCall::Call(SystemCall::Clone(clone_words(&no_flags()))),
        CallName::Unshare => unshare_call(arguments),
        CallName::Setns => setns_call(arguments),
        CallName::Execve => execve_call(arguments),
        CallName::Execveat => execveat_call(arguments),
        CallName::Chdir => chdir_call(arguments),
        CallName::Fchdir => fchdir_call(arguments),
        CallName::Chroot => chroot_call(arguments),
        CallName::Open => open_call(arguments),
        CallName::Openat => openat_call(arguments),
        CallName::Openat2 => openat2_call(arguments),
        CallName::Creat => creat_call(arguments),
        CallName::Close => close_call(arguments),
        CallName::CloseRange => close_range_call(arguments),
        CallName::Dup => dup_call(arguments),
        CallName::Dup3 => dup3_call(arguments),
        CallName::Fcntl => fcntl_call(arguments),
        CallName::Symlink => symlink_call(arguments),
        CallName::Symlinkat => symlinkat_call(arguments),
        CallName::Readlink => readlink_call(arguments),
        CallName::Readlinkat => readlinkat_call(arguments),
    }
}

/// What a call asks: whether it failed is not asked. Takes no memory.
pub fn asked_by_call<'a>(call: &TracedCall<'a>) -> AskedCall<'a>
    ensures { result ≡ asked_by_call call.now }
{
    match call_named(call.name.bytes()) {
        Some(name) => asked_by_name(name, call.arguments.again()),
        None => AskedCall::Silent,
    }
}
