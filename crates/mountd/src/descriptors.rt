//! How many descriptors a server needs.

use std::io;
use std::net::Net;

/// Whether the process may have as many descriptors as a server needs to serve one client and to be stopped by it: one
/// for its lock and one for its socket, two more for the same socket, one to shut it down and one in reserve, and two
/// for the client.
pub(crate) fn are_enough<R: Net>(rt: &R) -> io::Result<bool> {
    let socket = match rt.unix_socket() {
        Err(error) if error.raw_os_error() == Some(libc::EMFILE) => return Ok(false),
        socket => socket?,
    };
    let others = [
        socket.try_clone(),
        socket.try_clone(),
        socket.try_clone(),
        socket.try_clone(),
        socket.try_clone(),
    ];
    Ok(others.iter().all(Result::is_ok))
}
