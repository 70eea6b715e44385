//! The result of a call.
ghost use Rattle.std.specs.Prelude.{◌≡◌, is_some, codes};
ghost use Rattle.std.specs.List.{list_all};
ghost use Rattle.mt_strace.specs.Results.{is_address, is_note_closed, are_notes, with_path, behind_value, returned_with, returned, failed_with, unknown_with, valued, result_of};
ghost use Rattle.mt_strace.specs.Cuts.{cut_at, stripped};
ghost use Rattle.mt_strace.specs.Strings.{hex_value};

use crate::cut::{cut_at, stripped, until_byte, without_spaces};
use crate::excerpt::Excerpt;
use crate::string::hex_value;
use crate::unread::Unread;
use mt_lines::words::number;

/// The result of a call.
#[derive(Drop)]
pub enum CallResult<'a> {
    /// It returned a value.
    Returned {
        /// The value, unless it is written in hexadecimal digits.
        value: Option<u64>,
        /// The path that it leads to, if it is a descriptor and strace tells it: as in an argument.
        path: Option<Excerpt<'a>>,
        /// Whether the file of that path was deleted.
        is_deleted: bool,
        /// What comes behind, from the space in front of it: as ` /* 7 in strace's PID NS */`.
        notes: Excerpt<'a>,
    },
    /// It failed.
    Failed {
        /// The name of the error, as `EBUSY`.
        error: Excerpt<'a>,
        /// The same with what comes behind it: as `EBUSY (Device or resource busy)`.
        notes: Excerpt<'a>,
    },
    /// Strace did not see its end: `?`.
    Unknown,
}

/// What stands behind a value.
#[derive(Drop)]
struct Behind<'a> {
    path: Option<Excerpt<'a>>,
    is_deleted: bool,
    notes: Excerpt<'a>,
}

/// Whether each byte is a hexadecimal digit.
fn are_hex_digits(digits: &[u8]) -> bool
    ensures { result ≡ list_all (λ b. is_some (hex_value b)) digits.now }
{
    digits.iter().all(|byte| hex_value(*byte).is_some())
}

/// Whether a word is an address, or a set of bits.
fn is_address(word: &[u8]) -> bool
    ensures { result ≡ is_address word.now }
{
    match stripped(b"0x", word) {
        Some(digits) => !digits.is_empty() && are_hex_digits(digits),
        None => false,
    }
}

/// Whether a note has its end.
fn is_note_closed(note: &[u8]) -> bool
    ensures { result ≡ is_note_closed note.now }
{
    note.ends_with(b")") || note.ends_with(b"*/") || note.ends_with(b">")
}

/// Whether a text is notes behind a value, or nothing.
fn are_notes(text: &[u8]) -> bool
    ensures { result ≡ are_notes text.now }
{
    text.is_empty() || (text.starts_with(b" ") && is_note_closed(text))
}

/// The path behind `<`, and what stands behind it.
fn with_path<'a>(text: &'a [u8]) -> Option<Behind<'a>>
    ensures { result ≡ with_path (cut_at 62 text.entry.now) }
{
    let (path, behind) = cut_at(b'>', text)?;
    let path = Some(Excerpt::new(path));
    match stripped(b"(deleted)", behind) {
        Some(notes) => Some(Behind {
            path,
            is_deleted: true,
            notes: Excerpt::new(notes),
        }),
        None => Some(Behind {
            path,
            is_deleted: false,
            notes: Excerpt::new(behind),
        }),
    }
}

/// What stands behind a value. `None` if its path is not whole.
fn behind_value<'a>(behind: &'a [u8]) -> Option<Behind<'a>>
    ensures { result ≡ behind_value (stripped (codes "<") behind.entry.now) behind.entry.now }
{
    match stripped(b"<", behind) {
        Some(text) => with_path(text),
        None => Some(Behind {
            path: None,
            is_deleted: false,
            notes: Excerpt::new(behind),
        }),
    }
}

/// A value that was returned, with what stands behind it.
fn returned_with<'a>(
    value: Option<u64>,
    behind: Option<Behind<'a>>,
) -> Result<CallResult<'a>, Unread>
    ensures { result ≡ returned_with value behind.entry }
{
    let Some(behind) = behind else {
        return Err(Unread::Cut);
    };
    if !are_notes(behind.notes.bytes()) {
        return Err(Unread::Cut);
    }
    let Behind {
        path,
        is_deleted,
        notes,
    } = behind;
    Ok(CallResult::Returned {
        value,
        path,
        is_deleted,
        notes,
    })
}

/// A value that was returned.
fn returned<'a>(text: &'a [u8]) -> Result<CallResult<'a>, Unread>
    ensures { result ≡ returned text.entry.now }
{
    let word = until_byte(b'<', until_byte(b' ', text));
    let value = number(word);
    if value.is_none() && !is_address(word) {
        return Err(Unread::NotStrace);
    }
    returned_with(value, behind_value(&text[word.len()..]))
}

/// A call that failed, from its number below 0 on, of which the sign is left out.
fn failed_with<'a>(text: &'a [u8]) -> Result<CallResult<'a>, Unread>
    ensures { result ≡ failed_with (cut_at 32 text.entry.now) }
{
    let Some((digits, notes)) = cut_at(b' ', text) else {
        return Err(Unread::Cut);
    };
    if number(digits).is_none() {
        return Err(Unread::NotStrace);
    }
    if !is_note_closed(notes) {
        return Err(Unread::Cut);
    }
    Ok(CallResult::Failed {
        error: Excerpt::new(until_byte(b' ', notes)),
        notes: Excerpt::new(notes),
    })
}

/// A call of which strace did not see the end.
fn unknown_with<'a>(behind: &'a [u8]) -> Result<CallResult<'a>, Unread>
    ensures { result ≡ unknown_with behind.entry.now }
{
    if behind.is_empty() || behind.starts_with(b" ") {
        Ok(CallResult::Unknown)
    } else {
        Err(Unread::NotStrace)
    }
}

/// The result behind `= `.
fn valued<'a>(text: &'a [u8]) -> Result<CallResult<'a>, Unread>
    ensures { result ≡ valued (stripped (codes "?") text.entry.now) text.entry.now }
{
    if let Some(behind) = stripped(b"?", text) {
        return unknown_with(behind);
    }
    if text.is_empty() {
        return Err(Unread::Cut);
    }
    match stripped(b"-", text) {
        Some(digits) => failed_with(digits),
        None => returned(text),
    }
}

/// The result of a call, from what stands behind the bracket that closes its arguments.
pub(crate) fn result_of<'a>(behind: &'a [u8]) -> Result<CallResult<'a>, Unread>
    ensures { result ≡ result_of behind.entry.now }
{
    let rest = without_spaces(behind);
    if let Some(text) = stripped(b"= ", rest) {
        return valued(text);
    }
    if rest.is_empty() || rest == b"=".as_slice() {
        Err(Unread::Cut)
    } else {
        Err(Unread::NotStrace)
    }
}
