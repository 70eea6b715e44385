//! `import`: the script of commands that makes the namespace of which a mountinfo tells.

use crate::fault::Fault;
use crate::room::FIRST_ROOM;
use mt_import::fault::Fault as Refusal;
use mt_import::host_mount::HostMount;
use mt_import::host_space::HostSpace;
use mt_import::import::{Import, script_of};
use mt_import::read::read_mount;
use mt_info::print::push_number;
use mt_lines::line::{Line, LineReader};
use mt_lines::stream::{Input, Output, send};
use std::alloc::{AllocError, AllocFailed, Global};

/// The longest line of a mountinfo, in bytes before its line end.
pub(crate) const ROW_LIMIT: u32 = 134_217_728;

/// The most lines of a mountinfo.
const MOST_LINES: u64 = u64::MAX;

/// Why a mountinfo was not imported.
#[derive(Clone, Copy)]
pub(crate) enum ImportFault {
    /// The line of this number is none of a mountinfo.
    Row(u64),
    /// The input or the output failed, or a growth was refused for want of memory.
    Run(Fault),
}

impl From<Fault> for ImportFault {
    fn from(fault: Fault) -> ImportFault {
        ImportFault::Run(fault)
    }
}

impl From<AllocError> for ImportFault {
    fn from(_error: AllocError) -> ImportFault {
        ImportFault::Run(Fault::NoMemory)
    }
}

impl<T: Drop> From<AllocFailed<T>> for ImportFault {
    fn from(_error: AllocFailed<T>) -> ImportFault {
        ImportFault::Run(Fault::NoMemory)
    }
}

/// The row that the line of a number tells.
fn row_of(alloc: Global, line: &[u8], number: u64) -> Result<HostMount, ImportFault> {
    match read_mount(alloc, line) {
        Ok(row) => Ok(row),
        Err(Refusal::NoMemory) => Err(ImportFault::Run(Fault::NoMemory)),
        Err(_) => Err(ImportFault::Row(number)),
    }
}

/// The rows that an input tells, up to its end.
pub(crate) fn read_rows<I: Input + Drop>(
    alloc: Global,
    input: &mut LineReader<I>,
) -> Result<Vec<HostMount>, ImportFault> {
    let mut rows = Vec::new(alloc);
    'lines: for before in 0..MOST_LINES {
        match input.next() {
            Ok(Line::Text) => rows.push(row_of(alloc, input.line(), before + 1)?)?,
            Ok(Line::End) => return Ok(rows),
            Ok(Line::TooLong | Line::Unended) => return Err(ImportFault::Row(before + 1)),
            Err(fault) => return Err(ImportFault::Run(Fault::of_input(fault))),
        }
    }
    Ok(rows)
}

/// The comment that says which room a script takes, if that is not the one of every server.
fn room_comment(alloc: Global, room: usize) -> Result<Vec<u8>, AllocError> {
    let mut comment = Vec::new(alloc);
    if room > FIRST_ROOM {
        comment.extend_from_slice(b"# for a server with --room ")?;
        push_number(&mut comment, room as u64)?;
        comment.extend_from_slice(b", or more\n")?;
    }
    Ok(comment)
}

/// A script, behind a comment that says which room it takes if that is not 1.
pub(crate) fn script_text(alloc: Global, import: &Import) -> Result<Vec<u8>, AllocError> {
    let mut text = room_comment(alloc, import.room)?;
    text.extend_from_slice(import.script.text())?;
    Ok(text)
}

/// Sends a text.
fn send_text<O: Output>(out: &mut O, text: &[u8]) -> Result<(), Fault> {
    match send(out, text) {
        Ok(()) => Ok(()),
        Err(_) => Err(Fault::Output),
    }
}

/// Prints a script, behind a comment that says which room it takes if that is not 1, and other comments.
pub(crate) fn print_import<O: Output>(
    alloc: Global,
    import: &Import,
    comments: &[u8],
    out: &mut O,
) -> Result<(), Fault> {
    let comment = room_comment(alloc, import.room)?;
    send_text(out, comment.as_slice())?;
    send_text(out, comments)?;
    send_text(out, import.script.text())
}

/// Prints the script that makes the namespace of which an input tells in a server of this room or a lesser one. Nothing is
/// printed before all of it is read.
pub(crate) fn import<I: Input + Drop, O: Output>(
    alloc: Global,
    room: usize,
    input: &mut LineReader<I>,
    out: &mut O,
) -> Result<(), ImportFault> {
    let mut tables = Vec::new(alloc);
    tables.push(HostSpace {
        rows: read_rows(alloc, input)?,
        is_foreign: false,
    })?;
    let Ok(import) = script_of(alloc, tables.as_slice(), room) else {
        return Err(ImportFault::Run(Fault::NoMemory));
    };
    print_import(alloc, &import, b"", out)?;
    Ok(())
}
