//! Listening at a path, on request even if a server that was killed has left its socket there.
//!
//! A server takes the lock of its path before it looks at the path, and holds it up to its end. So no other server
//! makes or removes a socket there in the meantime, however much time passes between two of its steps.

use crate::descriptors;
use crate::lock::{Lock, LockFault, lock_path};
use crate::looks::{FileIdentity, is_free, is_refused, socket_at};
use mt_arguments::socket::SocketFault;
use std::alloc::{AllocError, Global};
use std::fs::{File, Files};
use std::io::ErrorKind;
use std::net::Net;
use std::os::fd::{AsFd, AsRawFd, OwnedFd};
use std::os::unix::net::{SocketAddr, UnixListener};
use std::time::{Clock, Duration};
use std::{fs, io, thread};

/// Who may connect: the user who runs the server.
const MODE: u32 = 0o600;

/// As many connections may wait to be accepted as the system allows.
const BACKLOG: i32 = -1;

/// How many milliseconds lie between two looks at a socket that refuses a connection: a program of another kind, which
/// takes no lock, has its socket at the path a moment before it listens there.
const SECOND_LOOK: u64 = 100;

/// How many milliseconds lie between two tries to take a lock that another server holds.
const PAUSE: u64 = 20;

/// The most tries, which take 15 seconds. A server that was stopped ends within some twelve
/// seconds.
const MOST_TRIES: u32 = 750;

/// The paths of a server.
#[derive(Drop)]
pub(crate) struct Paths {
    /// That of its socket.
    pub(crate) socket: String,
    /// That of the file whose lock it holds.
    pub(crate) lock: String,
}

impl Paths {
    /// The paths of a server at this socket.
    pub(crate) fn new(alloc: Global, socket: String) -> Result<Paths, AllocError> {
        let lock = lock_path(alloc, socket.as_str())?;
        Ok(Paths { socket, lock })
    }
}

/// Why a server cannot listen.
#[derive(Clone, Copy)]
pub(crate) enum ListenFault {
    /// No socket can be made at its path.
    Socket(SocketFault),
    /// The file of its lock cannot be made or locked.
    Lock(LockFault),
    /// The process may have fewer descriptors than a server needs to serve one client.
    FewDescriptors,
    /// At its path is a socket at which nobody listens, and which it was not to replace.
    Unserved,
}

/// What a failed call says of the socket of a path.
fn fault_at<R: Files>(rt: &R, path: &str, error: &io::Error) -> ListenFault {
    let file = fs::symlink_metadata(rt, path);
    ListenFault::Socket(SocketFault::new(path, error, &file))
}

/// What is said of a path where another server is, or something else.
fn taken<R: Files>(rt: &R, path: &str) -> ListenFault {
    fault_at(rt, path, &io::Error::from(ErrorKind::AddrInUse))
}

/// Whether a path is that of a socket at which nobody listens.
fn is_unserved<R: Files + Net>(rt: &R, path: &str) -> bool {
    socket_at(rt, path).is_some() && is_refused(rt, path)
}

/// What is said of a path, whose lock is held, where a socket cannot be made.
fn unbound<R: Files + Net>(rt: &R, path: &str, replaces: bool, error: &io::Error) -> ListenFault {
    if !replaces && is_unserved(rt, path) {
        ListenFault::Unserved
    } else {
        fault_at(rt, path, error)
    }
}

/// What is said if there is no lock. If its folder is not there, or the path is that of another file, no socket could
/// be made either, and the message is about that.
fn lock_fault<R: Files>(rt: &R, path: &str, fault: LockFault) -> ListenFault {
    if let LockFault::Call(ErrorKind::NotFound) = fault {
        return ListenFault::Socket(SocketFault::Call(ErrorKind::NotFound));
    }
    match taken(rt, path) {
        ListenFault::Socket(SocketFault::NoSocket) => ListenFault::Socket(SocketFault::NoSocket),
        _ => ListenFault::Lock(fault),
    }
}

/// What a system call says by its answer, which is 0 or -1.
fn check_status(status: i32) -> io::Result<()> {
    if status == 0 {
        Ok(())
    } else {
        Err(io::Error::from_raw_os_error(os::errno()))
    }
}

/// The address of a path. Without a path it would be a name that no file has.
fn address_of(path: &str) -> io::Result<SocketAddr> {
    if path.is_empty() {
        return Err(io::Error::from(ErrorKind::InvalidInput));
    }
    SocketAddr::from_pathname(path)
}

/// Whether a path, whose lock another server holds, is that of a server that is beginning or ending: nothing is there,
/// or a socket at which nobody listens, if that may be replaced.
fn may_come_free<R: Files + Net>(rt: &R, path: &str, replaces: bool) -> bool {
    (replaces && is_unserved(rt, path)) || is_free(rt, path)
}

/// Takes the lock of a path. If a server that is beginning or ending holds it, this waits for 15 seconds at most.
fn take_lock<'a, R: Files<File = File> + Net + Clock>(
    rt: &R,
    paths: &'a Paths,
    replaces: bool,
) -> Result<Lock<'a>, ListenFault> {
    let path = paths.socket.as_str();
    for _try in 0..MOST_TRIES {
        match Lock::take(rt, paths.lock.as_str()) {
            Ok(Some(lock)) => return Ok(lock),
            Ok(None) if may_come_free(rt, path, replaces) => {
                thread::sleep(rt, Duration::from_millis(PAUSE));
            }
            Ok(None) => return Err(taken(rt, path)),
            Err(fault) => return Err(lock_fault(rt, path, fault)),
        }
    }
    Err(taken(rt, path))
}

/// Removes a stale socket: a connection to it is refused, and refused again at a second look, after which the path
/// still names the same socket. Anything else at the path stays.
fn remove_stale<R: Files + Net + Clock>(rt: &R, path: &str) {
    let stale = socket_at(rt, path);
    if stale.is_none() || !is_refused(rt, path) {
        return;
    }
    thread::sleep(rt, Duration::from_millis(SECOND_LOOK));
    if is_refused(rt, path) && socket_at(rt, path) == stale {
        let _ = fs::remove_file(rt, path);
    }
}

/// A socket whose file will have the mode [`MODE`], less what the process's umask takes away.
///
/// The mode is set while there is no file: Linux makes the file with the mode that the socket has. So there is
/// no moment in which another user may connect, and no path is followed to set it, which somebody else could
/// have changed by then.
fn open_socket<R: Net>(rt: &R) -> io::Result<OwnedFd> {
    let socket = rt.unix_socket()?;
    check_status(libc::fchmod(socket.as_raw_fd(), MODE))?;
    Ok(socket)
}

/// Listens on a socket that it makes at an address, where there is nothing yet.
fn bind<R: Files + Net>(rt: &R, address: &SocketAddr) -> io::Result<UnixListener> {
    let socket = open_socket(rt)?;
    rt.bind_unix(socket.as_fd(), address)?;
    check_status(libc::net::listen(socket.as_raw_fd(), BACKLOG))?;
    Ok(UnixListener::from(socket))
}

/// Listens on a socket that it makes at a path, where there is nothing yet, or a stale socket that it `replaces`. If
/// there was one and it is gone, whoever removed it, the path is tried again.
fn bind_in_lock<R: Files + Net + Clock>(
    rt: &R,
    path: &str,
    address: &SocketAddr,
    replaces: bool,
) -> io::Result<UnixListener> {
    match bind(rt, address) {
        Err(_) if replaces => {
            remove_stale(rt, path);
            bind(rt, address)
        }
        bound => bound,
    }
}

/// A server's place: it listens, and holds the lock of its path.
#[derive(Drop)]
pub(crate) struct Listening<'a> {
    /// Its paths.
    paths: &'a Paths,
    /// Where connections come from.
    pub(crate) listener: UnixListener,
    /// The file of its socket, if that was still at the path when the server began to listen.
    made: Option<FileIdentity>,
    lock: Lock<'a>,
}

impl<'a> Listening<'a> {
    /// Listens at the path of a socket. Nothing may be there, except a stale socket if the server `replaces` it.
    pub(crate) fn begin<R: Files<File = File> + Net + Clock>(
        rt: &R,
        paths: &'a Paths,
        replaces: bool,
    ) -> Result<Listening<'a>, ListenFault> {
        let path = paths.socket.as_str();
        let address = address_of(path).map_err(|error| fault_at(rt, path, &error))?;
        match descriptors::are_enough(rt) {
            Ok(true) => {}
            Ok(false) => return Err(ListenFault::FewDescriptors),
            Err(error) => return Err(fault_at(rt, path, &error)),
        }
        let lock = take_lock(rt, paths, replaces)?;
        match bind_in_lock(rt, path, &address, replaces) {
            Ok(listener) => Ok(Listening {
                paths,
                listener,
                made: socket_at(rt, path),
                lock,
            }),
            Err(error) => {
                let fault = unbound(rt, path, replaces, &error);
                lock.remove(rt);
                Err(fault)
            }
        }
    }

    /// Removes the socket, if it is still the one that was made, and leaves the path to the next server.
    pub(crate) fn end<R: Files>(self, rt: &R) {
        let path = self.paths.socket.as_str();
        if self.made.is_some() && socket_at(rt, path) == self.made {
            let _ = fs::remove_file(rt, path);
        }
        self.lock.remove(rt);
    }
}
