//! What later lines say of a call.

use crate::ahead::{Ahead, MOST_AHEAD};
use crate::asking::asked_by_call;
use crate::joining::Beginnings;
use crate::system_call::{AskedCall, SystemCall};
use crate::told_path::child_of;
use mt_strace::call::TracedCall;
use mt_strace::line::{StraceLine, read_call, read_strace_line};
use std::alloc::{AllocError, Global};

/// How many lines ahead it is looked for the next change of mounts of a process, by this project's rule.
const MOST_LOOKED_AT: usize = 400;

/// The names of the calls that make a process.
const CLONES: [&[u8]; 4] = [b"clone", b"clone3", b"fork", b"vfork"];

/// Whether a name is that of a call that makes a process.
fn makes_process(name: &[u8], clones: &[&[u8]]) -> bool {
    clones.iter().any(|clone| *clone == name)
}

/// Whether a call names the old root again, after both paths of pivot_root(2) were one: `None` if it changes no mount.
fn names_again(call: &TracedCall<'_>) -> Option<bool> {
    match asked_by_call(call) {
        AskedCall::Call(SystemCall::Umount { words, .. }) => Some(!words.detaches),
        AskedCall::Call(SystemCall::Mount { .. } | SystemCall::MountSetattr { .. }) => Some(true),
        _ => None,
    }
}

/// A call of which the end is missing, as one that has returned.
fn ended(alloc: Global, beginning: &[u8]) -> Result<Vec<u8>, AllocError> {
    let mut text = Vec::from_slice(alloc, beginning)?;
    text.extend_from_slice(b") = 0")?;
    Ok(text)
}

/// Whether a line has a call of a process that names the old root again: `None` if it has none that changes a mount.
fn line_names_again(alloc: Global, line: &[u8], process: u64) -> Result<Option<bool>, AllocError> {
    match read_strace_line(line) {
        StraceLine::Call(call) if call.process.unwrap_or(0) == process => Ok(names_again(&call)),
        StraceLine::Unfinished {
            process: other,
            name: _name,
            beginning,
        } if other.unwrap_or(0) == process => {
            let text = ended(alloc, beginning.bytes())?;
            match read_call(other, &text) {
                StraceLine::Call(call) => Ok(names_again(&call)),
                _ => Ok(None),
            }
        }
        _ => Ok(None),
    }
}

/// Whether a process names the old root again, after both paths of pivot_root(2) were one: its next call that changes mounts is any but a
/// detach. Looks at 400 lines at most.
pub(crate) fn is_named_again<A: Ahead>(
    alloc: Global,
    ahead: &mut A,
    process: u64,
) -> Result<bool, AllocError> {
    for place in 0..MOST_LOOKED_AT {
        let Some(line) = ahead.line_ahead(place) else {
            return Ok(false);
        };
        if let Some(again) = line_names_again(alloc, line, process)? {
            return Ok(again);
        }
    }
    Ok(false)
}

/// The call that has made a process, if a line has its end.
fn birth_in(
    beginnings: &Beginnings,
    line: &[u8],
    child: u64,
) -> Result<Option<(u64, Vec<u8>)>, AllocError> {
    let StraceLine::Resumed { process, name, end } = read_strace_line(line) else {
        return Ok(None);
    };
    if !makes_process(name.bytes(), &CLONES) {
        return Ok(None);
    }
    let Some(text) = beginnings.with_end(process, name.bytes(), end.bytes())? else {
        return Ok(None);
    };
    let is_birth = match read_call(process, &text) {
        StraceLine::Call(call) => child_of(&call.result) == Some(child),
        _ => false,
    };
    Ok(if is_birth {
        Some((process.unwrap_or(0), text))
    } else {
        None
    })
}

/// The call that has made a process, with its process, where a call has begun of which a later line has the end, or else the only one
/// that has begun.
pub(crate) fn birth_of<A: Ahead>(
    alloc: Global,
    beginnings: &Beginnings,
    ahead: &mut A,
    child: u64,
) -> Result<Option<(u64, Vec<u8>)>, AllocError> {
    for place in 0..MOST_AHEAD {
        let Some(line) = ahead.line_ahead(place) else {
            break;
        };
        if let Some(found) = birth_in(beginnings, line, child)? {
            return Ok(Some(found));
        }
    }
    match beginnings.only_of(&CLONES) {
        Some((process, beginning)) => Ok(Some((process, ended(alloc, beginning)?))),
        None => Ok(None),
    }
}
