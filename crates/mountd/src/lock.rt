//! The lock of a socket: a file beside it, which a server keeps locked as long as it lives.
//!
//! Whoever holds the lock may look at the socket, remove it and make another, so that only one server at a time is at a
//! path. The system frees the lock once its holder has ended, in whatever way. The file goes with its server; one that
//! is killed leaves it, and then nobody holds its lock. Whoever locks a file that was removed in the meantime does not
//! hold the lock of the path.

use crate::looks::FileIdentity;
use std::alloc::{AllocError, Global};
use std::fmt::{Display, Formatter};
use std::fs::{File, Files, Metadata, TryLockError};
use std::io::ErrorKind;
use std::os::unix::fs::{MetadataExt, OpenOptionsExt};
use std::{fmt, fs, io};

/// The mode of the file, less what the process's umask takes away. Whoever could open it could hold its lock.
const MODE: u32 = 0o600;

/// The path of the lock of a socket.
pub(crate) fn lock_path(alloc: Global, socket: &str) -> Result<String, AllocError> {
    let mut path = String::from_str(alloc, socket)?;
    path.push_str(".lock")?;
    Ok(path)
}

/// Why there is no lock.
#[derive(Clone, Copy)]
pub(crate) enum LockFault {
    /// There is something at its path that is not a plain file, such as a symbolic link.
    NoFile,
    /// The file there is another user's.
    Foreign,
    /// The system's call failed with this error.
    Call(ErrorKind),
}

impl From<io::Error> for LockFault {
    fn from(error: io::Error) -> LockFault {
        LockFault::Call(error.kind())
    }
}

impl Display for LockFault {
    fn fmt<W: fmt::Write>(&self, f: &mut Formatter<W>) -> fmt::Result {
        match self {
            LockFault::NoFile => f.write_str("is no plain file"),
            LockFault::Foreign => f.write_str("is another user's"),
            LockFault::Call(kind) => kind.fmt(f),
        }
    }
}

/// Makes the file of a lock, if there is none.
fn create<R: Files<File = File>>(rt: &R, path: &str) -> io::Result<File> {
    File::options()
        .read(true)
        .write(true)
        .create_new(true)
        .mode(MODE)
        .open(rt, path)
}

/// Refuses a file that is not a lock of this user's.
fn check_file(file: &Metadata) -> Result<(), LockFault> {
    if !file.is_file() {
        return Err(LockFault::NoFile);
    }
    if file.uid() != libc::geteuid() {
        return Err(LockFault::Foreign);
    }
    Ok(())
}

/// The file of a lock that is there, no link followed.
fn file_at<R: Files>(rt: &R, path: &str) -> Result<FileIdentity, LockFault> {
    let file = fs::symlink_metadata(rt, path)?;
    check_file(&file)?;
    Ok(FileIdentity::of(&file))
}

/// Opens the file of a lock that is there. A link is not followed, and only a plain file is opened, as far as it is
/// already there at the look.
fn open_there<R: Files<File = File>>(rt: &R, path: &str) -> Result<File, LockFault> {
    file_at(rt, path)?;
    Ok(File::options().read(true).write(true).open(rt, path)?)
}

/// What was found at a path; none if it was removed in the meantime.
fn unless_gone<T: Drop>(found: Result<T, LockFault>) -> Result<Option<T>, LockFault> {
    match found {
        Ok(found) => Ok(Some(found)),
        Err(LockFault::Call(ErrorKind::NotFound)) => Ok(None),
        Err(fault) => Err(fault),
    }
}

/// Opens the file of a lock, or makes it; none if it was removed in the meantime.
fn open<R: Files<File = File>>(rt: &R, path: &str) -> Result<Option<File>, LockFault> {
    match create(rt, path) {
        Ok(file) => Ok(Some(file)),
        Err(error) if error.kind() == ErrorKind::AlreadyExists => unless_gone(open_there(rt, path)),
        Err(error) => Err(LockFault::from(error)),
    }
}

/// Takes the lock of a file, if nobody else holds it, and answers whether it did.
fn try_lock(file: &File) -> Result<bool, LockFault> {
    match file.try_lock() {
        Ok(()) => Ok(true),
        Err(TryLockError::WouldBlock) => Ok(false),
        Err(TryLockError::Error(error)) => Err(LockFault::from(error)),
    }
}

/// A lock that is held.
#[derive(Drop)]
pub(crate) struct Lock<'a> {
    /// The path of its file.
    path: &'a str,
    file: File,
}

impl<'a> Lock<'a> {
    /// Takes the lock of this path, and makes its file if there is none; none if another holds the lock, or has removed
    /// the file in the meantime.
    pub(crate) fn take<R: Files<File = File>>(
        rt: &R,
        path: &'a str,
    ) -> Result<Option<Lock<'a>>, LockFault> {
        let Some(file) = open(rt, path)? else {
            return Ok(None);
        };
        if !try_lock(&file)? {
            return Ok(None);
        }
        let lock = Lock { path, file };
        if lock.is_there(rt)? {
            Ok(Some(lock))
        } else {
            Ok(None)
        }
    }

    /// Whether the path still names the file.
    fn is_there<R: Files>(&self, rt: &R) -> Result<bool, LockFault> {
        let own = FileIdentity::of(&self.file.metadata()?);
        Ok(unless_gone(file_at(rt, self.path))? == Some(own))
    }

    /// Removes the file, if it is still at its path, and gives up the lock.
    pub(crate) fn remove<R: Files>(self, rt: &R) {
        if let Ok(true) = self.is_there(rt) {
            let _ = fs::remove_file(rt, self.path);
        }
    }
}
