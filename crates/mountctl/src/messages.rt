//! What is told of a refused line on standard error.

use mt_help::reason::Reason;
use mt_lines::words::{Pieces, number};
use mt_terminal::message::Shown;
use std::io::Eprint;

/// The name that the program goes by in its messages.
pub(crate) const NAME: &str = "mountctl";

/// What stands between a mount and the reason for which it is left out.
const LEFT_OUT: &str = " is left out: ";

/// What is said of a namespace of which the locks are not known, behind its table.
pub(crate) const LOCKLESS: &str = " is of another user namespace, and its locks are not known";

/// Says on standard error which line of a script was refused, by its number, and how. A line that was not read is empty.
pub(crate) fn tell_refused<E: Eprint>(rt: &E, number: u64, line: &[u8], refusal: &[u8]) {
    let (line, refusal) = (Shown(line), Shown(refusal));
    if line.0.is_empty() {
        let _ = eprintln!(rt; "{NAME}: line {number}: {refusal}");
    } else {
        let _ = eprintln!(rt; "{NAME}: line {number}: {line}: {refusal}");
    }
}

/// Says on standard error why a line is bad, with its number where it is one of a script.
pub(crate) fn tell_reason<E: Eprint>(rt: &E, number: Option<u64>, reason: Reason<'_>) {
    match number {
        Some(number) => {
            let _ = eprintln!(rt; "{NAME}: line {number}: BadLine: {reason}");
        }
        None => {
            let _ = eprintln!(rt; "{NAME}: BadLine: {reason}");
        }
    }
}

/// Says on standard error the lines of a text, the first one behind the name of the program, and the number of the line where it is
/// one of a script.
pub(crate) fn tell_lines<E: Eprint>(rt: &E, number: Option<u64>, text: &[u8]) {
    let mut first = true;
    for line in Pieces::new(b'\n', text) {
        let line = Shown(line);
        match number {
            _ if line.0.is_empty() => {}
            Some(number) if first => {
                let _ = eprintln!(rt; "{NAME}: line {number}: {line}");
            }
            None if first => {
                let _ = eprintln!(rt; "{NAME}: {line}");
            }
            _ => {
                let _ = eprintln!(rt; "{line}");
            }
        }
        first = false;
    }
}

/// What stands in front of a piece in a text, where it first stands there, and what stands behind it.
fn parted_at<'a>(text: &'a [u8], piece: &[u8]) -> Option<(&'a [u8], &'a [u8])> {
    for place in 0..text.len() {
        let (front, rest) = text.split_at(place);
        if let Some(behind) = rest.strip_prefix(piece) {
            return Some((front, behind));
        }
    }
    None
}

/// The mount that a comment of a script says is left out, and the reason. None where it says nothing of one.
fn left_out_in(comment: &[u8]) -> Option<(&[u8], &[u8])> {
    let (mount, said) = parted_at(comment.strip_prefix(b"# ")?, LEFT_OUT.as_bytes())?;
    let (reason, _) = parted_at(said, b": ")?;
    Some((mount, reason))
}

/// The table of which a comment of a script says that the locks of its namespace are not known. None where it says no such thing.
fn lockless_in(comment: &[u8]) -> Option<u64> {
    let table = comment.strip_prefix(b"# table ")?;
    number(table.strip_suffix(LOCKLESS.as_bytes())?)
}

/// Says on standard error what a line of a script says of a namespace of which the locks are not known, if it does.
pub(crate) fn tell_lockless<E: Eprint>(rt: &E, line: &[u8]) {
    if let Some(table) = lockless_in(line) {
        let _ = eprintln!(rt; "{NAME}: table {table}{LOCKLESS}");
    }
}

/// Says on standard error what a line of a script says of a mount that is left out, if it does.
pub(crate) fn tell_left_out<E: Eprint>(rt: &E, line: &[u8]) {
    if let Some((mount, reason)) = left_out_in(line) {
        let (mount, reason) = (Shown(mount), Shown(reason));
        let _ = eprintln!(rt; "{NAME}: {mount}{LEFT_OUT}{reason}");
    }
}
