//! Running processes, and the namespaces that they are in (proc(5), namespaces(7)).

use crate::import::ROW_LIMIT;
use mt_lines::line::{Line, LineReader};
use mt_lines::stream::Reading;
use mt_lines::words::number;
use std::alloc::Global;
use std::fs::{DirEntry, File, ReadDir, read_dir, read_link};
use std::io::ErrorKind;
use std::{fmt, io};

/// A file of a process below `/proc`.
#[derive(Clone, Copy)]
pub(crate) enum ProcessFile {
    /// The link that names its mount namespace.
    Namespace,
    /// The link that names its user namespace.
    UserNamespace,
    /// Its mounts.
    Mounts,
    /// The name of its program.
    Program,
}

impl ProcessFile {
    /// Where it is below the folder of the process.
    fn name(self) -> &'static str {
        match self {
            ProcessFile::Namespace => "ns/mnt",
            ProcessFile::UserNamespace => "ns/user",
            ProcessFile::Mounts => "mountinfo",
            ProcessFile::Program => "comm",
        }
    }

    /// Where it is, of the process that these digits name.
    pub(crate) fn of(self, alloc: Global, process: &str) -> io::Result<String> {
        let mut path = String::from_str(alloc, "/proc/")?;
        path.push_str(process)?;
        path.push('/')?;
        path.push_str(self.name())?;
        Ok(path)
    }
}

/// What the link of a process names.
fn named_by(rt: &HostRuntime, link: ProcessFile, process: &str) -> io::Result<String> {
    let link = link.of(rt.alloc(), process)?;
    let named = read_link(rt, link.as_str())?;
    Ok(named.into_string())
}

/// What the mount namespace of a process is called: two processes are in one if both are told the same.
pub(crate) fn namespace_of(rt: &HostRuntime, process: &str) -> io::Result<String> {
    named_by(rt, ProcessFile::Namespace, process)
}

/// What the user namespace of a process is called, or None where that cannot be read. Fails for want of memory alone.
pub(crate) fn user_namespace_of(rt: &HostRuntime, process: &str) -> io::Result<Option<String>> {
    match named_by(rt, ProcessFile::UserNamespace, process) {
        Ok(named) => Ok(Some(named)),
        Err(error) => match error.kind() {
            ErrorKind::OutOfMemory => Err(error),
            _ => Ok(None),
        },
    }
}

/// Whether a user namespace is another one than the first. One that cannot be read is the same.
pub(crate) fn is_foreign(user: &Option<String>, first: &Option<String>) -> bool {
    match (user, first) {
        (Some(user), Some(first)) => user.as_str() != first.as_str(),
        _ => false,
    }
}

/// The first line of a file, as far as it can be read.
fn first_line(rt: &HostRuntime, path: &str) -> io::Result<Vec<u8>> {
    let file = File::open(rt, path)?;
    let mut lines = LineReader::new(rt.alloc(), Reading::new(file), ROW_LIMIT)?;
    let mut text = Vec::new(rt.alloc());
    if let Ok(Line::Text) = lines.next() {
        text.extend_from_slice(lines.line())?;
    }
    Ok(text)
}

/// What people call a process: its number and its program, or its number alone where that cannot be read.
pub(crate) fn process_name(rt: &HostRuntime, process: &str) -> io::Result<Vec<u8>> {
    let mut name = Vec::new(rt.alloc());
    name.extend_from_slice(process.as_bytes())?;
    let path = ProcessFile::Program.of(rt.alloc(), process)?;
    if let Ok(program) = first_line(rt, path.as_str()) {
        name.push(b' ')?;
        name.extend_from_slice(program.as_slice())?;
    }
    Ok(name)
}

/// Whether a process is told not to be there, or no longer.
pub(crate) fn is_gone(error: &io::Error) -> bool {
    error.kind() == ErrorKind::NotFound
}

/// The digits of the processes that run, as `/proc` lists them.
pub(crate) fn every_process(rt: &HostRuntime) -> io::Result<Vec<String>> {
    let mut processes = Vec::new(rt.alloc());
    'entries: for entry in read_dir(rt, "/proc")? {
        let entry = entry?;
        if number(entry.file_name().as_bytes()).is_some() {
            processes.push(String::from_str(rt.alloc(), entry.file_name())?)?;
        }
    }
    Ok(processes)
}
