//! Why there is no socket at a path, in words.
ghost use Rattle.std.specs.Prelude.{◌≡◌, ◌≢◌, ◌↔◌, ◌⊎◌, ◌<◌, ◌≤◌, IsTrue, length};
ghost use Rattle.std.specs.IoError.{error_kind};
ghost use Rattle.mt_arguments.specs.Sockets.{is_another};

use std::fmt::{Display, Formatter};
use std::fs::Metadata;
use std::io::ErrorKind;
use std::os::unix::fs::MetadataExt;
use std::{fmt, io};

/// The longest path of a Unix socket, in bytes: the address has 108, the last of which is a zero.
const LONGEST: usize = 107;

/// Why no socket can be made at a path, or reached there.
#[derive(Clone, Copy)]
pub enum SocketFault {
    /// The path is empty.
    NoPath,
    /// The path has more than 107 bytes.
    LongPath,
    /// The file at the path is not a socket.
    NoSocket,
    /// The system's call failed with this error.
    Call(ErrorKind),
}

/// Whether a file is known not to be a socket: it is there, and another.
fn is_another(file: &io::Result<Metadata>) -> bool
    ensures { result ≡ is_another file.now }
{
    match file {
        Ok(file) => file.mode() & libc::S_IFMT != libc::S_IFSOCK,
        Err(_) => false,
    }
}

/// Whether the system says this also of a path at which another kind of file is.
fn is_vague(kind: ErrorKind) -> bool
    ensures { IsTrue result ↔ (kind ≡ ErrorKind.AddrInUse) ⊎ (kind ≡ ErrorKind.ConnectionRefused) }
{
    matches!(kind, ErrorKind::AddrInUse | ErrorKind::ConnectionRefused)
}

impl SocketFault {
    /// What a failed call says of a path, at which this file was found. The system says of a file that is not a socket
    /// what it says of a socket that is in use, or at which nobody listens, so the file is looked at.
    pub fn new(path: &str, error: &io::Error, file: &io::Result<Metadata>) -> SocketFault
        ensures empty { length path.now ≡ 0 → result ≡ SocketFault.NoPath }
        ensures long { 107 < length path.now → result ≡ SocketFault.LongPath }
        ensures another { length path.now ≢ 0 → length path.now ≤ 107 → (result ≡ SocketFault.NoSocket) ↔ IsTrue (is_another file.now)
            × ((error_kind error.now ≡ ErrorKind.AddrInUse) ⊎ (error_kind error.now ≡ ErrorKind.ConnectionRefused)) }
        ensures call { length path.now ≢ 0 → length path.now ≤ 107
            → result ≢ SocketFault.NoSocket → result ≡ SocketFault.Call (error_kind error.now) }
    {
        if path.is_empty() {
            return SocketFault::NoPath;
        }
        if path.len() > LONGEST {
            return SocketFault::LongPath;
        }
        let kind = error.kind();
        if is_vague(kind) && is_another(file) {
            SocketFault::NoSocket
        } else {
            SocketFault::Call(kind)
        }
    }
}

impl Display for SocketFault {
    fn fmt<W: fmt::Write>(&self, f: &mut Formatter<W>) -> fmt::Result {
        match self {
            SocketFault::NoPath => f.write_str("path is empty"),
            SocketFault::LongPath => f.write_str("path too long"),
            SocketFault::NoSocket => f.write_str("is no socket"),
            SocketFault::Call(ErrorKind::NotFound) => f.write_str("no such file or directory"),
            SocketFault::Call(kind) => kind.fmt(f),
        }
    }
}
