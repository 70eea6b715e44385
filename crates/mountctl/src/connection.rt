//! The connection to a server.

use crate::PROGRAM;
use crate::fault::{CONNECTION_FAULT, Fault, LOST};
use crate::messages::NAME;
use mt_arguments::connecting::connect_now;
use mt_arguments::socket::SocketFault;
use mt_terminal::message::Shown;
use std::io::ErrorKind;
use std::net::Net;
use std::os::fd::AsRawFd;
use std::os::unix::net::UnixStream;
use std::process::ExitCode;
use std::time::Duration;
use std::{fs, io, thread};

/// The highest descriptor of a standard stream.
const LAST_STANDARD: i32 = 2;

/// How many milliseconds lie between two tries to connect, and how many tries a second has.
const PAUSE: u64 = 50;

const TRIES: u64 = 20;

/// Connects to a socket, and waits for room where as many clients wait there as may, unless it is to answer at once. The
/// connection has none of the descriptors of the standard streams.
///
/// Where a standard stream is closed, the system gives its number to the next file, and what is meant for the stream
/// would go to the server. So a connection of such a number is copied, which gives a higher one, and the first is
/// closed again: calls on the stream fail then, as they should.
fn connect<R: Net>(rt: &R, socket: &str, at_once: bool) -> io::Result<UnixStream> {
    let stream = if at_once {
        connect_now(rt, socket)?
    } else {
        UnixStream::connect(rt, socket)?
    };
    if stream.as_raw_fd() > LAST_STANDARD {
        return Ok(stream);
    }
    stream.try_clone()
}

/// Connects to a socket, or answers why not, at once or where it does not have to wait for room.
fn try_once(rt: &HostRuntime, socket: &str, at_once: bool) -> Result<UnixStream, SocketFault> {
    connect(rt, socket, at_once).map_err(|error| SocketFault::new(
        socket,
        &error,
        &fs::metadata(rt, socket),
    ))
}

/// Whether there may be a connection soon: the server has not made its socket yet, or does not listen there yet, or has
/// as many clients that wait as may.
fn may_come(fault: SocketFault) -> bool {
    matches!(
        fault,
        SocketFault::Call(
            ErrorKind::NotFound | ErrorKind::ConnectionRefused | ErrorKind::WouldBlock
        )
    )
}

/// Connects to a socket, or answers why not. While there may be a connection soon it tries again, for so many seconds.
/// With none it tries once, and waits for room as long as that takes.
fn connect_within(rt: &HostRuntime, socket: &str, seconds: u64) -> Result<UnixStream, SocketFault> {
    let at_once = 0 < seconds;
    let mut found = try_once(rt, socket, at_once);
    for _try in 0..seconds.saturating_mul(TRIES) {
        match found {
            Err(fault) if may_come(fault) => {
                thread::sleep(rt, Duration::from_millis(PAUSE));
                found = try_once(rt, socket, at_once);
            }
            found => return found,
        }
    }
    found
}

/// Connects to a socket, for so many seconds where it is not there yet, or says why not, and answers the status.
pub(crate) fn connected(
    rt: &HostRuntime,
    socket: &str,
    seconds: u64,
) -> Result<UnixStream, ExitCode> {
    match connect_within(rt, socket, seconds) {
        Ok(stream) => Ok(stream),
        Err(fault) => Err(PROGRAM.fail_at(rt, CONNECTION_FAULT, socket, fault)),
    }
}

/// The status of a run in which each answer was `ok`, or not, or that failed, which is said.
pub(crate) fn status_of(rt: &HostRuntime, socket: &str, done: Result<bool, Fault>) -> ExitCode {
    match done {
        Ok(true) => ExitCode::SUCCESS,
        Ok(false) => ExitCode::from(1),
        Err(Fault::Connection) => PROGRAM.fail_at(rt, CONNECTION_FAULT, socket, "no whole answer"),
        Err(Fault::Lost) => {
            let socket = Shown(socket.as_bytes());
            let _ = eprintln!(rt; "{NAME}: {socket}: {LOST}");
            ExitCode::from(PROGRAM.failed)
        }
        Err(fault) => PROGRAM.fail(rt, fault.message()),
    }
}
