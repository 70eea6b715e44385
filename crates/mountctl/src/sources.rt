//! The files of tables that words name.

use mt_lines::words::number;
use std::alloc::{AllocError, AllocFailed, Global};

/// The file of a table.
#[derive(Drop)]
pub(crate) struct TableFile {
    /// Where it is.
    pub(crate) path: String,
    /// The digits of the process whose table it is, or None where words name the file itself.
    pub(crate) process: Option<String>,
}

/// Why words name no files of tables.
#[derive(Clone, Copy)]
pub(crate) enum SourceFault {
    /// There is no word, or one that is neither a file nor the number of a process.
    Words,
    /// There is no memory for them.
    NoMemory,
}

impl From<AllocError> for SourceFault {
    fn from(_error: AllocError) -> SourceFault {
        SourceFault::NoMemory
    }
}

impl<T: Drop> From<AllocFailed<T>> for SourceFault {
    fn from(_error: AllocFailed<T>) -> SourceFault {
        SourceFault::NoMemory
    }
}

/// The file of the table of a process. Refused as `Words` where the word is no number.
fn file_of_process(alloc: Global, word: &str) -> Result<TableFile, SourceFault> {
    if number(word.as_bytes()).is_none() {
        return Err(SourceFault::Words);
    }
    let mut path = String::from_str(alloc, "/proc/")?;
    path.push_str(word)?;
    path.push_str("/mountinfo")?;
    let process = Some(String::from_str(alloc, word)?);
    Ok(TableFile { path, process })
}

/// The files of the tables of processes. Refused as `Words` where a word is no number.
fn files_of_processes(alloc: Global, words: &[&str]) -> Result<Vec<TableFile>, SourceFault> {
    let mut files = Vec::new(alloc);
    for word in words {
        files.push(file_of_process(alloc, word)?)?;
    }
    Ok(files)
}

/// The files of these names. Refused as `Words` where a word begins as an option does.
fn files_of_names(alloc: Global, words: &[&str]) -> Result<Vec<TableFile>, SourceFault> {
    let mut files = Vec::new(alloc);
    for word in words {
        if word.as_bytes().starts_with(b"-") {
            return Err(SourceFault::Words);
        }
        files.push(TableFile {
            path: String::from_str(alloc, word)?,
            process: None,
        })?;
    }
    Ok(files)
}

/// The files that words name: `--pid` and numbers of processes, of which each has a table below `/proc`, or files.
pub(crate) fn files_of(alloc: Global, words: &[&str]) -> Result<Vec<TableFile>, SourceFault> {
    let (named, are_processes) = match words {
        ["--pid", named @ ..] => (named, true),
        named => (named, false),
    };
    if named.is_empty() {
        return Err(SourceFault::Words);
    }
    if are_processes {
        files_of_processes(alloc, named)
    } else {
        files_of_names(alloc, named)
    }
}
