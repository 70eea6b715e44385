//! A server on a listener: a thread for each session.
ghost use Rattle.std.specs.Prelude.{◌≡◌, ◌<◌, ◌≤◌, ℕ, ◌∷◌, ◌++◌, replicate, IsTrue, IsOk, Err, true, false};
ghost use Rattle.mt_session.specs.Accepting.{most_failures};

pub use crate::accepting::Door;
use crate::accepting::{Lookout, Round, accept_one};
use crate::gate::Gate;
use crate::parting::turn_away_now;
use crate::running_server::RunningServer;
pub use crate::running_server::ServerSetup;
use crate::spare_descriptor::Spare;
use mt_desk::lines::Naming;
use mt_skel::fault::Fault;
use std::alloc::Global;
use std::net::{Net, TcpListener, TcpStream};
use std::os::unix::net::{UnixListener, UnixStream};
use std::sync::Wait;
use std::thread::{Scope, Threads};
use std::time::{Clock, Duration};
use std::{io, thread};
use thiserror::Error;

/// How long a server rests after a failed accept, in milliseconds.
const REST: u64 = 10;

/// Why a server ended, if no session stopped it.
#[derive(Debug, Drop, Error)]
pub enum ServerFault {
    /// 1,000 accepts in succession failed.
    #[error("1,000 accepts in succession failed")]
    Accept,
    /// There was no memory for the server's own.
    #[error("out of memory")]
    NoMemory,
}

/// A listener is a door that counts nothing.
impl<'a> Door for &'a UnixListener {
    ghost use Rattle.std.specs.Prelude.{false};

    ghost counts = { false };

    ghost asked = { λ d. 0 };

    ghost failures = { λ d. 0 };

    fn accept(&mut self) -> io::Result<UnixStream> {
        let (stream, _) = UnixListener::accept(*self)?;
        Ok(stream)
    }
}

/// Turns a connection away in a thread of its own, or at once where there may be no such thread.
fn refuse<'s, E, Name, Moments, Runtime>(
    scope: &Scope<'s, E>,
    rt: &'s Runtime,
    server: &'s RunningServer<'s, Name, Moments>,
    stream: UnixStream,
    fault: Fault,
)
where
    Name: Naming + Send + Sync,
    Moments: Gate + Sync,
    Runtime: Wait + Sync,
{
    if !server.connections.begin_parting(rt) {
        turn_away_now(&stream, fault);
        return;
    }
    let again = stream.try_clone();
    if scope
        .spawn(move || server.dismiss(rt, stream, fault))
        .is_ok()
    {
        return;
    }
    server.connections.end_parting(rt);
    if let Ok(stream) = again {
        turn_away_now(&stream, fault);
    }
}

/// Gives a connection a session in a thread of its own, or turns it away; at once where the system has no descriptor
/// to keep in reserve.
fn receive<'s, E, Name, Moments, Runtime>(
    scope: &Scope<'s, E>,
    rt: &'s Runtime,
    alloc: Global,
    server: &'s RunningServer<'s, Name, Moments>,
    spare: &mut Spare<'s>,
    stream: UnixStream,
)
where
    Name: Naming + Send + Sync,
    Moments: Gate + Sync,
    Runtime: Wait + Clock + Net<Listener = TcpListener, Stream = TcpStream> + Sync,
{
    let Some(stream) = spare.admit(stream) else {
        return;
    };
    let number = match server.connections.enter(rt, &stream) {
        Ok(number) => number,
        Err(fault) => return refuse(scope, rt, server, stream, fault),
    };
    if scope
        .spawn(move || server.serve(rt, alloc, number, stream))
        .is_ok()
    {
        return;
    }
    if let Some(stream) = server.connections.leave(rt, number) {
        refuse(scope, rt, server, stream, Fault::NoMemory);
    }
}

/// The desk of a server as a `Lookout`. It notes nothing: the threads of the sessions share the desk under a lock, and a
/// value under a lock has no name outside.
#[derive(Drop)]
struct Watchman<'s, Name: Naming, Moments, Runtime> {
    rt: &'s Runtime,
    server: &'s RunningServer<'s, Name, Moments>,
}

impl<'s, Name: Naming, Moments: Gate, Runtime: Wait> Lookout
    for Watchman<'s, Name, Moments, Runtime> {
    ghost use Rattle.std.specs.Prelude.{[], false};

    ghost notes = { false };

    ghost looks = { λ w. [] };

    /// Whether the desk is stopped.
    fn is_over(&mut self) -> bool {
        let server = self.server;
        server.is_over(self.rt)
    }
}

/// Goes one round after another ([`accept_one`]) and gives each connection that has arrived a session, or turns it away.
/// True once a round is over; false once one gives up, after 1,000 failed accepts in succession.
fn accept_all<'s, E, D, L, Name, Moments, Runtime>(
    scope: &Scope<'s, E>,
    rt: &'s Runtime,
    alloc: Global,
    door: &mut D,
    lookout: &mut L,
    server: &'s RunningServer<'s, Name, Moments>,
) -> bool
where
    D: Door,
    L: Lookout,
    Name: Naming + Send + Sync,
    Moments: Gate + Sync,
    Runtime: Wait + Clock + Net<Listener = TcpListener, Stream = TcpStream> + Sync,
    ensures gives_up { IsTrue D.counts → D.failures door.old ≡ 0 → result ≡ false → D.failures door.new ≡ most_failures }
    ensures goes_on { IsTrue D.counts → D.failures door.old ≡ 0 → result ≡ true → D.failures door.new ≤ most_failures }
    ensures asked { IsTrue D.counts → D.asked door.old < D.asked door.new }
    // Each look but the last one has said no, and the last one what is answered.
    ensures looked { IsTrue L.notes → (n : ℕ) × (L.looks lookout.new ≡ result ∷ replicate n false ++ L.looks lookout.old) }
{
    let mut failures = 0u32;
    let mut spare = Spare::new(server.listener());
    'accepting: for _accept in rt.forever() {
        match accept_one(door, lookout, &mut failures) {
            Round::Over => return true,
            Round::GivesUp => return false,
            Round::Arrived(stream) => receive(scope, rt, alloc, server, &mut spare, stream),
            Round::Missed => {
                spare.give_up();
                thread::sleep(rt, Duration::from_millis(REST));
            }
        }
    }
    unreachable!()
}

/// Accepts the connections of a door and serves each in a thread of its own, until a session stops the desk. From then on
/// none is accepted, whether that session's answer goes out or not. The door is answered as it has been left. A listener is
/// a door; that of the setup is where the door's connections come from.
///
/// At most `setup.sessions` have a session at once; the next one reads `no TooMany` and its end. One for
/// which there is no thread or no descriptor, or of which the system bounds no read, reads
/// `no NoMemory` and its end. Sessions are numbered from 1. When a session ends, its connection is
/// counted no longer before its client reads the end. One that has sent nothing for `setup.idle` seconds while
/// it follows nothing, if that is not 0, ends as at the end of its input, and so does one whose client has taken nothing
/// for so long of what it is sent, which is cut then.
///
/// At a stop, and at a fault, the desk is stopped and no more connections are accepted. The other
/// sessions go on: each ends once it has been idle for a second, so that a watcher can take what was
/// sent to it; those that have not ended after ten seconds are cut off. Their threads are joined.
/// Refused as `Accept` after 1,000 failed accepts in succession,
/// a hundredth of a second apart; as `NoMemory` at once where there is none for the list of connections.
///
/// It goes one round after another ([`accept_one`]). Whether the desk is stopped is looked for after each accept, so
/// that it is never answered before the door was asked; who has stopped it, and whether that session's answer went out,
/// is not asked. That it was stopped is no clause: the threads of the sessions share the desk under a lock, and a value
/// under a lock has no name outside. A round is over only where its lookout said so, and what this one says is what it
/// has read of the desk under that lock.
pub fn run_server<'a, D, Name, Moments, Runtime>(
    rt: &Runtime,
    alloc: Global,
    door: D,
    setup: ServerSetup<'a, Name, Moments>,
) -> (D, Result<(), ServerFault>)
where
    D: Door + Drop,
    Name: Naming + Send + Sync,
    Moments: Gate + Sync,
    Runtime: Threads + Wait + Clock + Net<Listener = TcpListener, Stream = TcpStream> + Sync,
    ensures accept { IsTrue D.counts → D.failures door ≡ 0 → result.1 ≡ Err ServerFault.Accept → D.failures result.0 ≡ most_failures }
    ensures stopped { IsTrue D.counts → D.failures door ≡ 0 → IsOk result.1 → D.failures result.0 ≤ most_failures }
    ensures asked { IsTrue D.counts → IsOk result.1 → D.asked door < D.asked result.0 }
    ensures memory { result.1 ≡ Err ServerFault.NoMemory → result.0 ≡ door }
{
    let Ok(server) = RunningServer::new(alloc, setup) else {
        return (door, Err(ServerFault::NoMemory));
    };
    let server = &server;
    let (stopped, door) = thread::scope(thread::scope_env(), rt, move |scope| {
        let mut door = door;
        let mut watchman = Watchman { rt, server };
        let stopped = accept_all(scope, rt, alloc, &mut door, &mut watchman, server);
        server.end_all(rt);
        (stopped, door)
    });
    if stopped {
        (door, Ok(()))
    } else {
        (door, Err(ServerFault::Accept))
    }
}
