//! Connecting to a socket without waiting.

use std::io;
use std::net::Net;
use std::os::unix::net::UnixStream;

/// Connects to the socket of a path, and waits for nothing: `WouldBlock` if as many connections wait to be accepted
/// there as may, so that somebody listens. Calls on the stream wait, as usual.
pub fn connect_now<R: Net>(rt: &R, path: &str) -> io::Result<UnixStream> {
    let stream = UnixStream::from(mio::net::UnixStream::connect(rt, path)?);
    stream.set_nonblocking(false)?;
    Ok(stream)
}
