//! How a connection ends: its client can read all that was sent.
//!
//! Where bytes that a client has sent lie unread when its Unix socket is closed, the system tells
//! the client of a reset in place of the end. So they are read first.
use crate::text::Text;
use mt_lines::stream::{Writing, send};
use mt_skel::fault::Fault;
use std::io::Read;
use std::net::Shutdown;
use std::os::unix::net::UnixStream;
use std::time::Duration;

/// How many bytes are read at once.
const PORTION: usize = 1_024;

/// The most reads for what a client has sent. Its socket holds less.
const MOST_READS: u32 = 16_384;

/// The most reads that wait for a client that is turned away.
const MOST_WAITS: u32 = 10;

/// How long one of them waits, in milliseconds.
const WAIT: u64 = 100;

/// Reads at most so often, until the end or a fault.
fn drain(mut stream: &UnixStream, most: u32) {
    let mut bytes = [0u8; PORTION];
    'reads: for _read in 0..most {
        match stream.read(&mut bytes) {
            Ok(0) | Err(_) => return,
            Ok(_) => {}
        }
    }
}

/// Ends a connection: nothing is sent or taken any more, and its client, once it has read all that
/// was sent, reads the end. It does not wait.
pub(crate) fn part(stream: &UnixStream) {
    let _ = stream.shutdown(Shutdown::Both);
    drain(stream, MOST_READS);
}

/// Tells a client why it has no session. It does not wait: nothing was sent on the connection before, so that the system
/// has room for a line.
fn refuse(stream: &UnixStream, fault: Fault) {
    let _ = send(&mut Writing::new(stream), Text::refusal(fault).bytes());
    let _ = stream.shutdown(Shutdown::Write);
}

/// Tells a client why it has no session, and ends the connection at once.
pub(crate) fn turn_away_now(stream: &UnixStream, fault: Fault) {
    refuse(stream, fault);
    part(stream);
}

/// Tells a client why it has no session, and ends the connection when the client has ended it too,
/// has sent nothing for 100 milliseconds, or after a second. A client that sends its request first
/// and then reads is not told of a closed socket.
pub(crate) fn turn_away(stream: &UnixStream, fault: Fault) {
    refuse(stream, fault);
    if stream
        .set_read_timeout(Some(Duration::from_millis(WAIT)))
        .is_ok()
    {
        drain(stream, MOST_WAITS);
    }
    part(stream);
}
