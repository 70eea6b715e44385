//! Servers on sockets: two sessions at once, and accepts that fail.
use crate::sockets::{Ended, Plan, connected, listening, served};
use mt_lines::line::{Line, LineReader};
use mt_lines::stream::{Reading, Writing, send};
use mt_session::gate::{Gate, OpenGate};
use std::alloc::Global;
use std::net::{Net, TcpListener, TcpStream};
use std::os::unix::net::UnixStream;
use std::rt::Files;
use std::sync::{Mutex, Wait};
use std::test::Fail;
use std::thread::Threads;
use std::time::Clock;
use std::{io, thread};

/// How often a gate looks for another session before it gives up.
const MOST_LOOKS: u64 = 100_000_000;

/// The longest answer that is read.
const LINE_LIMIT: u32 = 64;

/// A server with two sessions at most.
const TWO: Plan = Plan {
    sessions: 2,
    fails: false,
    stopped: false,
};

/// Holds session 1 before its first answer until session 2 was there.
#[derive(Drop)]
struct HoldsFirst {
    state: Mutex<Held>,
}

/// What has happened at the gate.
#[derive(Clone, Copy, PartialEq, Eq)]
struct Held {
    /// Session 2 was at the gate, and has gone on.
    other_came: bool,
    /// Session 1 has gone on after it.
    went_on: bool,
}

impl HoldsFirst {
    /// A gate to which nobody has come.
    fn new() -> HoldsFirst {
        HoldsFirst {
            state: Mutex::new(Held {
                other_came: false,
                went_on: false,
            }),
        }
    }

    /// What has happened.
    fn held<R: Wait>(&self, rt: &R) -> Held {
        *self.state.lock(rt)
    }

    /// Session 2 goes on.
    fn pass<R: Wait>(&self, rt: &R) {
        self.state.lock(rt).other_came = true;
    }

    /// Whether session 1 may go on; if so, it does.
    fn may_go<R: Wait>(&self, rt: &R) -> bool {
        let mut held = self.state.lock(rt);
        if held.other_came {
            held.went_on = true;
        }
        held.other_came
    }

    /// Session 1 waits for session 2.
    fn hold<R: Wait>(&self, rt: &R) {
        'looks: for _look in 0..MOST_LOOKS {
            if self.may_go(rt) {
                return;
            }
            thread::yield_now();
        }
    }
}

impl Gate for HoldsFirst {
    fn in_lock<R: Wait>(&self, _rt: &R, _session: u64) {}

    fn before_answer<R: Wait>(&self, rt: &R, session: u64) {
        if session == 1 {
            self.hold(rt);
        } else {
            self.pass(rt);
        }
    }

    fn taken<R: Wait>(&self, _rt: &R, _session: u64) {}
}

/// Whether the next line that comes is this one.
fn reads(alloc: Global, stream: &UnixStream, wanted: &[u8]) -> bool {
    let Ok(mut lines) = LineReader::new(alloc, Reading::new(stream), LINE_LIMIT) else {
        return false;
    };
    match lines.next() {
        Ok(Line::Text) => lines.line() == wanted,
        _ => false,
    }
}

/// Whether a request has this answer.
fn answers(alloc: Global, stream: &UnixStream, request: &[u8], wanted: &[u8]) -> bool {
    send(&mut Writing::new(stream), request).is_ok() && reads(alloc, stream, wanted)
}

/// The number that answers a request, if it is 1 or 2; otherwise 0.
fn number_answered(alloc: Global, stream: &UnixStream, request: &[u8]) -> u64 {
    if send(&mut Writing::new(stream), request).is_err() {
        return 0;
    }
    let Ok(mut lines) = LineReader::new(alloc, Reading::new(stream), LINE_LIMIT) else {
        return 0;
    };
    match lines.next() {
        Ok(Line::Text) if lines.line() == b"ok 1".as_slice() => 1,
        Ok(Line::Text) if lines.line() == b"ok 2".as_slice() => 2,
        _ => 0,
    }
}

/// Whether two sessions at once are answered 1 and 2, in whatever order, and the server stops.
fn ask_both<R>(rt: &R, alloc: Global, path: &String) -> io::Result<bool>
where
    R: Threads + Net<Listener = TcpListener, Stream = TcpStream> + Sync,
{
    let one = connected(rt, path)?;
    let other = connected(rt, path)?;
    let (first, second) = thread::join(
        rt,
        || number_answered(alloc, &one, b"mkfs a tmpfs none\n"),
        || number_answered(alloc, &other, b"mkfs d ext4 /dev/x\n"),
    );
    let stopped = answers(alloc, &one, b"stop\n", b"ok");
    Ok(stopped && ((first == 1 && second == 2) || (first == 2 && second == 1)))
}

/// Whether two sessions are served at the same time: the first is held until the second was there.
fn are_served_at_once<R>(rt: &R, alloc: Global, path: &String) -> io::Result<bool>
where
    R: Threads + Wait + Clock + Files + Net<Listener = TcpListener, Stream = TcpStream> + Sync,
{
    let listener = listening(rt, path)?;
    let gate = HoldsFirst::new();
    let (ended, answered) = thread::join(
        rt,
        || served(rt, alloc, path, &listener, TWO, &gate),
        || ask_both(rt, alloc, path).unwrap_or(false),
    );
    let held = gate.held(rt);
    Ok(answered && ended == Ended::Stopped && held.other_came && held.went_on)
}

#[test]
fn two_sessions_are_served_at_once(rt: HostRuntime) -> Result<(), Fail> {
    let path = String::from_str(rt.alloc(), "two-sessions")?;
    let served = are_served_at_once(&rt, rt.alloc(), &path)?;
    assert!(rt; served);
    Ok(())
}

/// How a server ends if each accept fails and its desk may be stopped already.
fn ends_by_failures<R>(rt: &R, alloc: Global, path: &String, stopped: bool) -> io::Result<Ended>
where
    R: Threads + Wait + Clock + Files + Net<Listener = TcpListener, Stream = TcpStream> + Sync,
{
    let listener = listening(rt, path)?;
    let plan = Plan {
        sessions: 2,
        fails: true,
        stopped,
    };
    Ok(served(rt, alloc, path, &listener, plan, &OpenGate))
}

#[test]
fn failed_accepts_end_a_server(rt: HostRuntime) -> Result<(), Fail> {
    let path = String::from_str(rt.alloc(), "failed-accepts")?;
    let ended = ends_by_failures(&rt, rt.alloc(), &path, false)?;
    assert!(rt; ended == Ended::CannotAccept);
    Ok(())
}

#[test]
fn a_stopped_desk_ends_a_server(rt: HostRuntime) -> Result<(), Fail> {
    let path = String::from_str(rt.alloc(), "stopped-desk")?;
    let ended = ends_by_failures(&rt, rt.alloc(), &path, true)?;
    assert!(rt; ended == Ended::Stopped);
    Ok(())
}
