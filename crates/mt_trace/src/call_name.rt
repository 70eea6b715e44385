//! The names of the system calls that are followed.
ghost use Rattle.std.specs.Prelude.{◌≡◌, ◌∷◌, ◌++◌, map, IfOk, OnOk};
ghost use Rattle.std.specs.List.{flat_map};
ghost use Rattle.std.specs.Str.{bytes_eq};
ghost use Rattle.mt_forms.specs.Lookup.{looked_up};
ghost use Rattle.mt_trace.specs.CallNames.{call_named, names_listed, call_list};

use std::alloc::{AllocError, Global};

/// A system call that changes what a process sees of mounts, or where it stands.
#[derive(Clone, Copy, PartialEq, Eq, Debug)]
pub enum CallName {
    /// mount(2).
    Mount,
    /// umount(2), without flags.
    Umount,
    /// umount2(2).
    Umount2,
    /// pivot_root(2).
    PivotRoot,
    /// mount_setattr(2).
    MountSetattr,
    /// open_tree(2).
    OpenTree,
    /// move_mount(2).
    MoveMount,
    /// fsopen(2).
    Fsopen,
    /// fsconfig(2).
    Fsconfig,
    /// fsmount(2).
    Fsmount,
    /// clone(2).
    Clone,
    /// clone3(2).
    Clone3,
    /// fork(2), vfork(2).
    Fork,
    /// unshare(2).
    Unshare,
    /// setns(2).
    Setns,
    /// execve(2).
    Execve,
    /// execveat(2).
    Execveat,
    /// chdir(2).
    Chdir,
    /// fchdir(2).
    Fchdir,
    /// chroot(2).
    Chroot,
    /// open(2).
    Open,
    /// openat(2).
    Openat,
    /// openat2(2).
    Openat2,
    /// creat(2).
    Creat,
    /// close(2).
    Close,
    /// close_range(2).
    CloseRange,
    /// dup(2), dup2(2).
    Dup,
    /// dup3(2).
    Dup3,
    /// fcntl(2).
    Fcntl,
    /// symlink(2).
    Symlink,
    /// symlinkat(2).
    Symlinkat,
    /// readlink(2).
    Readlink,
    /// readlinkat(2).
    Readlinkat,
}

/// A call, and its name.
#[derive(Clone, Copy)]
struct CallRow(CallName, &'static [u8]);

/// All calls that are followed.
const CALLS: [CallRow; 35] = [
    CallRow(CallName::Mount, b"mount"),
    CallRow(CallName::Umount, b"umount"),
    CallRow(CallName::Umount2, b"umount2"),
    CallRow(CallName::PivotRoot, b"pivot_root"),
    CallRow(CallName::MountSetattr, b"mount_setattr"),
    CallRow(CallName::OpenTree, b"open_tree"),
    CallRow(CallName::MoveMount, b"move_mount"),
    CallRow(CallName::Fsopen, b"fsopen"),
    CallRow(CallName::Fsconfig, b"fsconfig"),
    CallRow(CallName::Fsmount, b"fsmount"),
    CallRow(CallName::Clone, b"clone"),
    CallRow(CallName::Clone3, b"clone3"),
    CallRow(CallName::Fork, b"fork"),
    CallRow(CallName::Fork, b"vfork"),
    CallRow(CallName::Unshare, b"unshare"),
    CallRow(CallName::Setns, b"setns"),
    CallRow(CallName::Execve, b"execve"),
    CallRow(CallName::Execveat, b"execveat"),
    CallRow(CallName::Chdir, b"chdir"),
    CallRow(CallName::Fchdir, b"fchdir"),
    CallRow(CallName::Chroot, b"chroot"),
    CallRow(CallName::Open, b"open"),
    CallRow(CallName::Openat, b"openat"),
    CallRow(CallName::Openat2, b"openat2"),
    CallRow(CallName::Creat, b"creat"),
    CallRow(CallName::Close, b"close"),
    CallRow(CallName::CloseRange, b"close_range"),
    CallRow(CallName::Dup, b"dup"),
    CallRow(CallName::Dup, b"dup2"),
    CallRow(CallName::Dup3, b"dup3"),
    CallRow(CallName::Fcntl, b"fcntl"),
    CallRow(CallName::Symlink, b"symlink"),
    CallRow(CallName::Symlinkat, b"symlinkat"),
    CallRow(CallName::Readlink, b"readlink"),
    CallRow(CallName::Readlinkat, b"readlinkat"),
];

/// The call of a name, if it is in one of these rows.
fn call_among(word: &[u8], rows: &[CallRow]) -> Option<CallName>
    ensures { result ≡ looked_up (λ row. bytes_eq row.1.now word.now) (λ row. row.0) rows.now }
{
    for row in rows {
        if row.1 == word {
            return Some(row.0);
        }
    }
    None
}

/// The call of a name. `None` if no call of this name is followed.
#[tactic(auto, unfolding(crate::specs::CallNames::call_named))]
pub fn call_named(word: &[u8]) -> Option<CallName>
    ensures { result ≡ call_named word.now }
{
    call_among(word, &CALLS)
}

/// Appends the names of these calls, each after a comma.
fn push_calls(text: &mut Vec<u8>, rows: &[CallRow]) -> Result<(), AllocError>
    ensures { OnOk result (text.new.items ≡ text.old.items ++ flat_map (λ row. 44 ∷ row.1.now) rows.now) }
{
    'rows: for row in rows {
        text.push(b',')?;
        text.extend_from_slice(row.1)?;
    }
    Ok(())
}

/// The names of these calls, with commas between them.
#[tactic(auto, using(crate::proofs::CallNameLaws::names_behind))]
fn names_listed(alloc: Global, rows: &[CallRow]) -> Result<Vec<u8>, AllocError>
    ensures { IfOk result (λ text. text.items ≡ names_listed (map (λ row. (row.0, row.1.now)) rows.now)) }
{
    let mut text = Vec::new(alloc);
    let Some((first, others)) = rows.split_first() else {
        return Ok(text);
    };
    text.extend_from_slice(first.1)?;
    push_calls(&mut text, others)?;
    Ok(text)
}

/// The names of all calls that are followed, with commas between them, as strace takes them after `-e trace=`. Fails for want of
/// memory alone.
#[tactic(auto, unfolding(crate::specs::CallNames::call_list))]
pub fn call_list(alloc: Global) -> Result<Vec<u8>, AllocError>
    ensures { IfOk result (λ text. text.items ≡ call_list) }
{
    names_listed(alloc, &CALLS)
}
