//! The server on a Unix socket, which it makes, and removes at its end.
ghost use Rattle.std.specs.Prelude.{◌≡◌, ◌<◌};

use crate::listening::{ListenFault, Listening, Paths};
use crate::room::give_desk_room;
use mt_desk::desk::Desk;
use mt_desk::lines::{Host, Lines, Naming};
use mt_session::bell::Bell;
use mt_session::gate::OpenGate;
use mt_session::server::{ServerFault, ServerSetup, run_server};
use std::alloc::Global;
use std::fs::{File, Files};
use std::marker::Brand;
use std::net::{Net, TcpListener, TcpStream};
use std::os::unix::net::UnixListener;
use std::sync::{Mutex, Wait};
use std::thread::Threads;
use std::time::Clock;

/// The most posts that a queue may hold.
pub(crate) const MOST_POSTS: usize = 16_384;

/// The limits of a server.
#[derive(Clone, Copy)]
pub(crate) struct Limits {
    /// By what the limits of filesystems, directories, namespaces and mounts are multiplied, 1 to 256.
    pub(crate) room: usize,
    /// How many posts the queue of a watcher holds, 1 to 16,384.
    pub(crate) queue: usize,
    /// How many sessions there may be at once.
    pub(crate) sessions: usize,
    /// After how many seconds a session ends that sends nothing and follows nothing; 0 if never.
    pub(crate) idle: u64,
}

/// How a server on a socket ended.
#[derive(Clone, Copy)]
pub(crate) enum Served {
    /// A session has stopped it.
    Stopped,
    /// It could not listen at its path.
    NotListening(ListenFault),
    /// It could not accept connections.
    NotAccepting,
    /// There was no memory for the server's own.
    NoMemory,
}

/// Serves at a desk on these lines.
fn with_lines<J, R>(
    rt: &R,
    alloc: Global,
    lines: Lines,
    path: &String,
    listener: &UnixListener,
    limits: Limits,
) -> Served
where
    J: Naming + Send + Sync,
    R: Threads + Wait + Clock + Net<Listener = TcpListener, Stream = TcpStream> + Sync,
    requires lines { lines.lines ≡ J.lines }
    requires history { lines.history ≡ J.history }
{
    let host: Host<J> = lines.host();
    let mut desk: Desk<J> = Desk::new(lines);
    if give_desk_room(rt, &mut desk, &host, limits.room).is_err() {
        return Served::NoMemory;
    }
    let desk: Mutex<Desk<J>> = Mutex::new(desk);
    let bell = Bell::new();
    let setup = ServerSetup {
        listener,
        path: path.as_str(),
        desk: &desk,
        host: &host,
        bell: &bell,
        sessions: limits.sessions,
        idle: limits.idle,
        gate: &OpenGate,
    };
    let (_, ended) = run_server(rt, alloc, listener, setup);
    match ended {
        Ok(()) => Served::Stopped,
        Err(ServerFault::Accept) => Served::NotAccepting,
        Err(ServerFault::NoMemory) => Served::NoMemory,
    }
}

/// Serves on a listener.
fn serve_listener<R>(
    rt: &R,
    alloc: Global,
    path: &String,
    listener: &UnixListener,
    limits: Limits,
) -> Served
where
    R: Threads + Wait + Clock + Net<Listener = TcpListener, Stream = TcpStream> + Sync,
{
    match Lines::new(alloc, limits.queue.clamp(1, MOST_POSTS)) {
        Ok(lines) => with_lines::<Brand, R>(rt, alloc, lines, path, listener, limits),
        Err(_) => Served::NoMemory,
    }
}

/// Makes a socket at a path and serves sessions on it until one stops the server.
///
/// Nothing may be at the path, except a socket that a killed server has left, if the server `replaces` it. No other
/// server is at the path as long as this one lives. Only the user who runs the server may connect, and whoever connects
/// may do everything. At the end the socket is removed, if it is still the one that was made.
pub(crate) fn serve_socket<R>(
    rt: &R,
    alloc: Global,
    paths: &Paths,
    replaces: bool,
    limits: Limits,
) -> Served
where
    R: Threads
        + Wait
        + Clock
        + Files<File = File>
        + Net<Listener = TcpListener, Stream = TcpStream>
        + Sync,
{
    let listening = match Listening::begin(rt, paths, replaces) {
        Ok(listening) => listening,
        Err(fault) => return Served::NotListening(fault),
    };
    let served = serve_listener(rt, alloc, &paths.socket, &listening.listener, limits);
    listening.end(rt);
    served
}
