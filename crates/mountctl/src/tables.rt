//! The tables of several processes, from files, and the script that makes all of them.

use crate::PROGRAM;
use crate::fault::Fault;
use crate::import::{ImportFault, ROW_LIMIT, print_import, read_rows};
use crate::messages::NAME;
use crate::processes::{is_foreign, user_namespace_of};
use crate::screen::standard_output;
use crate::sources::{SourceFault, TableFile, files_of};
use crate::task::WordFault;
use mt_import::fault::Fault as Refusal;
use mt_import::host_mount::HostMount;
use mt_import::host_space::HostSpace;
use mt_import::import::{Import, script_of};
use mt_lines::line::LineReader;
use mt_lines::stream::Reading;
use mt_terminal::message::Shown;
use std::alloc::{AllocError, AllocFailed};
use std::fmt::{Display, Formatter};
use std::fs::File;
use std::io::ErrorKind;
use std::process::ExitCode;
use std::{fmt, io};

/// Why the table of a file was not read.
#[derive(Clone, Copy)]
pub(crate) enum TableFault {
    /// The file cannot be opened.
    Open(ErrorKind),
    /// It cannot be read.
    Read,
    /// The line of this number is none of a mountinfo.
    Row(u64),
    /// There is no memory for it.
    NoMemory,
}

impl Display for TableFault {
    fn fmt<W: fmt::Write>(&self, f: &mut Formatter<W>) -> fmt::Result {
        match self {
            TableFault::Open(ErrorKind::NotFound) => f.write_str("no such file or directory"),
            TableFault::Open(kind) => kind.fmt(f),
            TableFault::Read => f.write_str(Fault::Input.message()),
            TableFault::Row(number) => write!(f, "line {number} is no row of a mountinfo"),
            TableFault::NoMemory => f.write_str(Fault::NoMemory.message()),
        }
    }
}

impl From<ImportFault> for TableFault {
    fn from(fault: ImportFault) -> TableFault {
        match fault {
            ImportFault::Row(number) => TableFault::Row(number),
            ImportFault::Run(Fault::NoMemory) => TableFault::NoMemory,
            ImportFault::Run(Fault::Connection | Fault::Input | Fault::Output | Fault::Lost) =>
                TableFault::Read,
        }
    }
}

impl From<io::Error> for TableFault {
    fn from(error: io::Error) -> TableFault {
        match error.kind() {
            ErrorKind::OutOfMemory => TableFault::NoMemory,
            kind => TableFault::Open(kind),
        }
    }
}

impl From<AllocError> for TableFault {
    fn from(_error: AllocError) -> TableFault {
        TableFault::NoMemory
    }
}

impl<T: Drop> From<AllocFailed<T>> for TableFault {
    fn from(_error: AllocFailed<T>) -> TableFault {
        TableFault::NoMemory
    }
}

/// The rows that a file tells.
pub(crate) fn read_table(rt: &HostRuntime, path: &str) -> Result<Vec<HostMount>, TableFault> {
    let alloc = rt.alloc();
    let file = File::open(rt, path)?;
    let mut lines = LineReader::new(alloc, Reading::new(file), ROW_LIMIT)?;
    let rows = read_rows(alloc, &mut lines)?;
    Ok(rows)
}

/// What the user namespace of the process is called whose table a file has, if that is told.
fn user_of(rt: &HostRuntime, file: &TableFile) -> io::Result<Option<String>> {
    match &file.process {
        Some(process) => user_namespace_of(rt, process.as_str()),
        None => Ok(None),
    }
}

/// What a file tells of a namespace, and whether that is foreign where the user namespace of the first one is called so.
fn read_space(
    rt: &HostRuntime,
    file: &TableFile,
    first: &Option<String>,
) -> Result<HostSpace, TableFault> {
    let rows = read_table(rt, file.path.as_str())?;
    let user = user_of(rt, file)?;
    Ok(HostSpace {
        rows,
        is_foreign: is_foreign(&user, first),
    })
}

/// Appends what a file tells of a namespace.
fn push_table(
    rt: &HostRuntime,
    tables: &mut Vec<HostSpace>,
    file: &TableFile,
    first: &Option<String>,
) -> Result<(), TableFault> {
    tables.push(read_space(rt, file, first)?)?;
    Ok(())
}

/// What the user namespace of the process is called whose table the first of these files has, if that is told.
fn first_user(rt: &HostRuntime, files: &[TableFile]) -> Result<Option<String>, ExitCode> {
    let Some(file) = files.first() else {
        return Ok(None);
    };
    match user_of(rt, file) {
        Ok(user) => Ok(user),
        Err(_) => Err(PROGRAM.fail(rt, Fault::NoMemory.message())),
    }
}

/// Says why the table of a file was not read, and answers the status.
fn tell_unread(rt: &HostRuntime, path: &str, fault: TableFault) -> ExitCode {
    if matches!(fault, TableFault::NoMemory) {
        return PROGRAM.fail(rt, Fault::NoMemory.message());
    }
    let path = Shown(path.as_bytes());
    let _ = eprintln!(rt; "{NAME}: {path}: {fault}");
    ExitCode::from(1)
}

/// What each of these files tells of a namespace, in their order. Says which one is not read, and why, and answers the
/// status.
fn read_tables(rt: &HostRuntime, files: &[TableFile]) -> Result<Vec<HostSpace>, ExitCode> {
    let first = first_user(rt, files)?;
    let mut tables = Vec::new(rt.alloc());
    for file in files {
        if let Err(fault) = push_table(rt, &mut tables, file, &first) {
            return Err(tell_unread(rt, file.path.as_str(), fault));
        }
    }
    Ok(tables)
}

/// The script that makes the namespaces of the tables of these files in a server of this room or a lesser one, or the
/// status, where it is said why there is none.
pub(crate) fn script_of_files(
    rt: &HostRuntime,
    files: &[TableFile],
    room: usize,
) -> Result<Import, ExitCode> {
    let tables = read_tables(rt, files)?;
    match script_of(rt.alloc(), tables.as_slice(), room) {
        Ok(import) => Ok(import),
        Err(_) => Err(PROGRAM.fail(rt, Fault::NoMemory.message())),
    }
}

/// Prints a script behind comments.
pub(crate) fn print_script(rt: &HostRuntime, import: &Import, comments: &[u8]) -> ExitCode {
    let mut out = standard_output(rt);
    match print_import(rt.alloc(), import, comments, &mut out) {
        Ok(()) => ExitCode::SUCCESS,
        Err(fault) => PROGRAM.fail(rt, fault.message()),
    }
}

/// The files that words name, or the status, where it is said why there are none: they are no words of this kind.
pub(crate) fn named_files(
    rt: &HostRuntime,
    words: &[&str],
    kind: WordFault,
) -> Result<Vec<TableFile>, ExitCode> {
    match files_of(rt.alloc(), words) {
        Ok(files) => Ok(files),
        Err(SourceFault::NoMemory) => Err(PROGRAM.fail(rt, Fault::NoMemory.message())),
        Err(SourceFault::Words) => Err(PROGRAM.refuse(rt, kind.message())),
    }
}

/// Prints the script that makes the namespaces of the tables of the files that words name, or says why not. `room` is the
/// greatest that its server may have.
pub(crate) fn import_files(rt: &HostRuntime, words: &[&str], room: usize) -> ExitCode {
    let files = match named_files(rt, words, WordFault::Import) {
        Ok(files) => files,
        Err(status) => return status,
    };
    match script_of_files(rt, files.as_slice(), room) {
        Ok(import) => print_script(rt, &import, b""),
        Err(status) => status,
    }
}
