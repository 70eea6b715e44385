//! What the tests of servers share: a server on a socket in the test's own folder, and its clients.
ghost use Rattle.std.specs.Prelude.{◌≡◌, IsTrue, None};
ghost use Rattle.mt_lines.specs.Reading.{fault_of};

use mt_client::ask::ask;
use mt_desk::desk::Desk;
use mt_desk::lines::{Host, Lines, Naming};
use mt_lines::line::LineReader;
use mt_lines::memory::Sink;
use mt_lines::stream::{Input, Reading, Writing};
use mt_lines::words::{Pieces, words};
use mt_session::bell::Bell;
use mt_session::gate::Gate;
use mt_session::server::{Door, ServerFault, ServerSetup, run_server};
use mt_skel::fault::Fault;
use std::alloc::Global;
use std::io::ErrorKind;
use std::marker::Brand;
use std::net::{Net, TcpListener, TcpStream};
use std::os::unix::net::{UnixListener, UnixStream};
use std::rt::Files;
use std::sync::{Mutex, Wait};
use std::thread::Threads;
use std::time::{Clock, Duration};
use std::{fs, io};

/// How many posts the queue of a watcher holds.
const QUEUE: usize = 8;

/// The longest line of an answer that is read, in bytes.
pub(crate) const LINE_LIMIT: u32 = 8_192;

/// How many bytes of answers a client keeps.
pub(crate) const ROOM: usize = 4_096;

/// How long a client waits for bytes before it gives up, in seconds.
const PATIENCE: u64 = 10;

/// How a server has ended.
#[derive(Clone, Copy, PartialEq, Eq)]
pub(crate) enum Ended {
    /// A session has stopped it.
    Stopped,
    /// It could not accept connections.
    CannotAccept,
    /// There was no memory for it.
    NoMemory,
}

/// How a server has ended that answers this.
pub(crate) fn ended_by(answer: Result<(), ServerFault>) -> Ended {
    match answer {
        Ok(()) => Ended::Stopped,
        Err(ServerFault::Accept) => Ended::CannotAccept,
        Err(ServerFault::NoMemory) => Ended::NoMemory,
    }
}

/// A listener at a path where the socket of an earlier run may be.
pub(crate) fn listening<R: Files + Net>(rt: &R, path: &String) -> io::Result<UnixListener> {
    let _ = fs::remove_file(rt, path.as_str());
    UnixListener::bind(rt, path.as_str())
}

/// How a server is run.
#[derive(Clone, Copy)]
pub(crate) struct Plan {
    /// How many sessions there may be at once.
    pub(crate) sessions: usize,
    /// Whether each accept fails.
    pub(crate) fails: bool,
    /// Whether the desk is stopped before the first accept.
    pub(crate) stopped: bool,
}

/// A door at which each accept fails.
#[derive(Drop)]
struct Failing;

impl Door for Failing {
    ghost use Rattle.std.specs.Prelude.{false};

    ghost counts = { false };

    ghost asked = { λ d. 0 };

    ghost failures = { λ d. 0 };

    fn accept(&mut self) -> io::Result<UnixStream> {
        Err(io::Error::from(ErrorKind::Other))
    }
}

/// Serves sessions at a desk on these lines, until one stops the server.
fn served_on<J, G, R>(
    rt: &R,
    alloc: Global,
    lines: Lines,
    path: &String,
    listener: &UnixListener,
    plan: Plan,
    gate: &G,
) -> Ended
where
    J: Naming + Send + Sync,
    G: Gate + Sync,
    R: Threads + Wait + Clock + Net<Listener = TcpListener, Stream = TcpStream> + Sync,
    requires lines { lines.lines ≡ J.lines }
    requires history { lines.history ≡ J.history }
{
    let host: Host<J> = lines.host();
    let mut desk = Desk::new(lines);
    if plan.stopped {
        let mut witness = desk.admit(&host);
        desk.stop(&mut witness);
    }
    let desk: Mutex<Desk<J>> = Mutex::new(desk);
    let bell = Bell::new();
    let setup = ServerSetup {
        listener,
        path: path.as_str(),
        desk: &desk,
        host: &host,
        bell: &bell,
        sessions: plan.sessions,
        idle: 0,
        gate,
    };
    if plan.fails {
        let (_, answer) = run_server(rt, alloc, Failing, setup);
        return ended_by(answer);
    }
    let (_, answer) = run_server(rt, alloc, listener, setup);
    ended_by(answer)
}

/// Serves sessions at a fresh desk, where watchers have room for eight posts, until one stops the server.
pub(crate) fn served<G, R>(
    rt: &R,
    alloc: Global,
    path: &String,
    listener: &UnixListener,
    plan: Plan,
    gate: &G,
) -> Ended
where
    G: Gate + Sync,
    R: Threads + Wait + Clock + Net<Listener = TcpListener, Stream = TcpStream> + Sync,
{
    match Lines::new(alloc, QUEUE) {
        Ok(lines) => served_on::<Brand, G, R>(rt, alloc, lines, path, listener, plan, gate),
        Err(_) => Ended::NoMemory,
    }
}

/// A connection whose reads wait ten seconds at most.
pub(crate) fn connected<R: Net>(rt: &R, path: &String) -> io::Result<UnixStream> {
    let stream = UnixStream::connect(rt, path.as_str())?;
    stream.set_read_timeout(Some(Duration::from_secs(PATIENCE)))?;
    Ok(stream)
}

/// Whether the request of a line is answered `ok`. The lines of its answer are kept.
pub(crate) fn is_done<I: Input + Drop>(
    alloc: Global,
    lines: &mut LineReader<I>,
    stream: &UnixStream,
    line: &[u8],
    answers: &mut Sink,
) -> bool
    requires { fault_of lines.old ≡ None }
    ensures { IsTrue result → fault_of lines.new ≡ None }
{
    let mut request = Vec::new(alloc);
    for word in words(line) {
        if request.push(word).is_err() {
            return false;
        }
    }
    match ask(
        alloc,
        lines,
        &mut Writing::new(stream),
        request.as_slice(),
        answers,
    ) {
        Ok(done) => done,
        Err(_) => false,
    }
}

/// Whether all requests of these lines are answered `ok`, and their answers together are this text.
pub(crate) fn are_done(
    alloc: Global,
    stream: &UnixStream,
    requests: &[u8],
    wanted: &[u8],
) -> Result<bool, Fault> {
    let mut lines = LineReader::new(alloc, Reading::new(stream), LINE_LIMIT)?;
    let mut answers = Sink::new(alloc, ROOM, ROOM)?;
    'requests: for line in Pieces::new(b'\n', requests) {
        if !is_done(alloc, &mut lines, stream, line, &mut answers) {
            return Ok(false);
        }
    }
    Ok(answers.bytes() == wanted)
}

/// Whether a session of its own stops the server.
pub(crate) fn stops<R: Net>(rt: &R, alloc: Global, path: &String) -> bool {
    match connected(rt, path) {
        Ok(stream) => are_done(alloc, &stream, b"stop", b"ok\n").unwrap_or(false),
        Err(_) => false,
    }
}
