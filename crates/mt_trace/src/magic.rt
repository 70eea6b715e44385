//! The files of a proc filesystem that lead elsewhere, though no text says where (proc(5)).

use crate::process_spaces::{SpaceKind, kind_of_file};
use crate::processes::Processes;
use mt_lines::words::{Pieces, number};

/// A file of `/proc/PID` that leads elsewhere.
#[derive(Clone, Copy, PartialEq, Eq, Debug)]
pub enum MagicFile {
    /// `fd/N`: what a descriptor leads to.
    Descriptor(u64),
    /// `exe`: the program.
    Program,
    /// `root`: the root.
    Root,
    /// `cwd`: the current directory.
    Current,
    /// `ns/KIND`: a namespace.
    Space(SpaceKind),
}

/// The process that the first name of a path in a proc filesystem means, for another one.
fn process_named(processes: &Processes, caller: u64, name: &[u8]) -> Option<u64> {
    if name == b"self".as_slice() || name == b"thread-self".as_slice() {
        return Some(caller);
    }
    let n = number(name)?;
    Some(processes.called(processes.spaces(caller).process, n))
}

/// The file of one name.
fn lone_file(name: &[u8]) -> Option<MagicFile> {
    if name == b"exe".as_slice() {
        Some(MagicFile::Program)
    } else if name == b"root".as_slice() {
        Some(MagicFile::Root)
    } else if name == b"cwd".as_slice() {
        Some(MagicFile::Current)
    } else {
        None
    }
}

/// The file of two names.
fn file_in(folder: &[u8], name: &[u8]) -> Option<MagicFile> {
    if folder == b"fd".as_slice() {
        Some(MagicFile::Descriptor(number(name)?))
    } else if folder == b"ns".as_slice() {
        Some(MagicFile::Space(kind_of_file(name)?))
    } else {
        None
    }
}

/// The process and the file that a path in a proc filesystem means, for another process: `/self/fd/3`, `/17/task/18/root`. `None` if it is
/// none of these.
pub fn magic_file(processes: &Processes, caller: u64, path: &[u8]) -> Option<(u64, MagicFile)> {
    let behind = path.strip_prefix(b"/".as_slice())?;
    let mut names = Pieces::new(b'/', behind);
    let process = process_named(processes, caller, names.next()?)?;
    let mut first = names.next()?;
    if first == b"task".as_slice() {
        let _thread = names.next()?;
        first = names.next()?;
    }
    let file = match names.next() {
        None => lone_file(first)?,
        Some(second) => file_in(first, second)?,
    };
    match names.next() {
        None => Some((process, file)),
        Some(_further) => None,
    }
}
