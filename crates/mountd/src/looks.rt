//! What is at a path, no link followed.

use mt_arguments::connecting::connect_now;
use std::fs;
use std::fs::{Files, Metadata};
use std::io::ErrorKind;
use std::net::Net;
use std::os::unix::fs::{FileTypeExt, MetadataExt};

/// A file, identified by what no other has as long as it is at a path, or is open.
#[derive(Clone, Copy, PartialEq, Eq)]
pub(crate) struct FileIdentity {
    /// The device of its file system.
    device: u64,
    /// Its number there.
    number: u64,
}

impl FileIdentity {
    /// The file with these.
    pub(crate) fn of(file: &Metadata) -> FileIdentity {
        FileIdentity {
            device: file.dev(),
            number: file.ino(),
        }
    }
}

/// The socket that a path names; none if it names something else, including a symbolic link to a socket.
pub(crate) fn socket_at<R: Files>(rt: &R, path: &str) -> Option<FileIdentity> {
    match fs::symlink_metadata(rt, path) {
        Ok(file) if file.file_type().is_socket() => Some(FileIdentity::of(&file)),
        _ => None,
    }
}

/// Whether nothing is at a path.
pub(crate) fn is_free<R: Files>(rt: &R, path: &str) -> bool {
    match fs::symlink_metadata(rt, path) {
        Ok(_) => false,
        Err(error) => error.kind() == ErrorKind::NotFound,
    }
}

/// Whether a connection is refused: nobody listens at the socket that a path names. For a path that names another file
/// this says nothing, since such a file refuses each connection. It does not wait.
pub(crate) fn is_refused<R: Net>(rt: &R, path: &str) -> bool {
    match connect_now(rt, path) {
        Ok(_) => false,
        Err(error) => error.kind() == ErrorKind::ConnectionRefused,
    }
}
