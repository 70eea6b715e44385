//! What a session has beside the lines that are sent.
ghost use Rattle.std.specs.Prelude.{◌≡◌, OnOk};
ghost use Rattle.mt_render.specs.PageSession.{begins_anew, said_text, note_with, is_unsent, role_by, role_of};

use mt_protocol::form::first_word;
use mt_protocol::verb::Verb;
use std::alloc::AllocError;

/// What a line of a session is for a page.
#[derive(Clone, Copy, PartialEq, Eq, Debug)]
pub enum Role {
    /// It is empty, or begins with `#`, and is not sent.
    Comment,
    /// It would be about a watcher: `watch`, `take`, `follow` or `close`. A page has its own.
    Watcher,
    /// The session ends with it: `quit` or `stop`, which is not sent.
    End,
    /// A line that is sent.
    Line,
}

/// Whether a line is empty, or begins with `#`.
fn is_unsent(line: &[u8]) -> bool
    ensures { result ≡ is_unsent line.now }
{
    match line {
        [] => true,
        [first, ..] => *first == b'#',
    }
}

/// What a line of a session is for a page, if it is no comment.
fn role_by(line: &[u8]) -> Role
    ensures { result ≡ role_by line.now }
{
    if matches!(Verb::of(line), Some(Verb::Quit | Verb::Stop)) {
        return Role::End;
    }
    match Verb::of(first_word(line)) {
        Some(Verb::Watch | Verb::Take | Verb::Follow | Verb::Close) => Role::Watcher,
        _ => Role::Line,
    }
}

/// What a line of a session is for a page.
pub fn role_of(line: &[u8]) -> Role
    ensures { result ≡ role_of line.now }
{
    if is_unsent(line) {
        Role::Comment
    } else {
        role_by(line)
    }
}

/// What a comment says: what stands behind `#`, and behind a space there.
fn said_text(line: &[u8]) -> &[u8]
    ensures { result.now ≡ said_text line.now }
{
    match line {
        [b'#', b' ', text @ ..] => text,
        [b'#', text @ ..] => text,
        text => text,
    }
}

/// Whether a note is empty, or ends with a line end.
fn begins_anew(note: &[u8]) -> bool
    ensures { result ≡ begins_anew note.now }
{
    match note.last() {
        Some(byte) => *byte == b'\n',
        None => true,
    }
}

/// Appends to a note what a comment says: behind a space, or behind an empty comment as a new paragraph. Fails for want of
/// memory alone.
pub fn push_comment(note: &mut Vec<u8>, line: &[u8]) -> Result<(), AllocError>
    ensures { OnOk result (note.new.items ≡ note_with note.old.items line.now) }
{
    let text = said_text(line);
    let is_new = begins_anew(note.as_slice());
    if text.is_empty() {
        if !is_new {
            note.push(b'\n')?;
        }
        return Ok(());
    }
    if !is_new {
        note.push(b' ')?;
    }
    note.extend_from_slice(text)
}
