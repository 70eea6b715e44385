//! What strace tells a descriptor to lead to, and the number of a child.
ghost use Rattle.std.specs.Prelude.{◌≡◌};
ghost use Rattle.mt_trace.specs.ToldPaths.{number_between, number_in_brackets, namespace_told, told_path, number_in_comment, child_of};

use crate::process_spaces::{SpaceKind, kind_of_file};
use mt_lines::words::{Pieces, number};
use mt_strace::excerpt::Excerpt;
use mt_strace::result::CallResult;

/// What strace tells a descriptor to lead to.
#[derive(Drop)]
pub enum ToldPath<'a> {
    /// A path from the root of the process, with escapes as in strings.
    Path(Excerpt<'a>),
    /// A namespace: its kind, and its number.
    Space(SpaceKind, u64),
    /// Something that is neither, as a pipe.
    Other,
}

/// The number between a text's front and its end.
fn number_between(front: &[u8], end: &[u8], text: &[u8]) -> Option<u64>
    ensures { result ≡ number_between front.now end.now text.now }
{
    let behind = text.strip_prefix(front)?;
    number(behind.strip_suffix(end)?)
}

/// The number between brackets.
fn number_in_brackets(text: &[u8]) -> Option<u64>
    ensures { result ≡ number_in_brackets text.now }
{
    number_between(b"[", b"]", text)
}

/// The namespace that a text names.
fn namespace_told(text: &[u8]) -> Option<(SpaceKind, u64)>
    ensures { result ≡ namespace_told text.now }
{
    let mut pieces = Pieces::new(b':', text);
    let (Some(word), Some(behind), None) = (pieces.next(), pieces.next(), pieces.next()) else {
        return None;
    };
    let kind = kind_of_file(word)?;
    let n = number_in_brackets(behind)?;
    Some((kind, n))
}

/// What the text between the angle brackets of a descriptor tells.
pub fn told_path<'a>(text: &'a [u8]) -> ToldPath<'a>
    ensures { result ≡ told_path text.entry.now }
{
    if text.starts_with(b"/") {
        return ToldPath::Path(Excerpt::new(text));
    }
    match namespace_told(text) {
        Some((kind, n)) => ToldPath::Space(kind, n),
        None => ToldPath::Other,
    }
}

/// The number in the comment behind a result.
fn number_in_comment(notes: &[u8]) -> Option<u64>
    ensures { result ≡ number_in_comment notes.now }
{
    number_between(b" /* ", b" in strace's PID NS */", notes)
}

/// The number that strace has for the child that a call has made. `None` if the call failed, or it does not tell the number.
pub fn child_of(of: &CallResult<'_>) -> Option<u64>
    ensures { result ≡ child_of of.now }
{
    match of {
        CallResult::Returned {
            value,
            path: _path,
            is_deleted: _is_deleted,
            notes,
        } => {
            if notes.bytes().is_empty() {
                *value
            } else {
                number_in_comment(notes.bytes())
            }
        }
        CallResult::Failed { .. } => None,
        CallResult::Unknown => None,
    }
}
