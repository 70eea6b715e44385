//! What the threads of a server share, and how it ends once its desk is stopped.
use crate::bell::Bell;
use crate::connections::Connections;
use crate::doorkeeper::Doorkeeper;
use crate::gate::Gate;
use crate::parting::{part, turn_away};
use crate::patient::Patient;
use crate::patient_writer::PatientWriter;
use crate::serving::LINE_LIMIT;
use crate::shared_answer::Shared;
use crate::shared_serving::serve_shared;
use crate::shared_session::SharedSession;
use mt_desk::desk::{Desk, DeskWitness};
use mt_desk::lines::{Host, Naming};
use mt_lines::line::LineReader;
use mt_skel::fault::Fault;
use std::alloc::{AllocError, Global};
use std::io;
use std::net::{Net, Shutdown, TcpListener, TcpStream};
use std::os::fd::OwnedFd;
use std::os::unix::net::{UnixListener, UnixStream};
use std::sync::{Mutex, Wait};
use std::time::Clock;

/// The socket of a listener, a second time. Refused as the system refuses it.
fn listening_socket(listener: &UnixListener) -> io::Result<UnixStream> {
    Ok(UnixStream::from(OwnedFd::from(listener.try_clone()?)))
}

/// Where a server listens, and what its sessions share.
#[derive(Drop)]
pub struct ServerSetup<'a, Name: Naming, Moments> {
    /// Where connections come from. A session that stops the desk shuts it down.
    pub listener: &'a UnixListener,
    /// The path of the listener, to which the server connects itself where the system does not shut it down.
    pub path: &'a str,
    /// The desk of all sessions.
    pub desk: &'a Mutex<Desk<Name>>,
    /// Who lets sessions in at the desk. No session is lent it.
    pub host: &'a Host<Name>,
    /// Where sessions that follow rest.
    pub bell: &'a Bell,
    /// The most sessions at once.
    pub sessions: usize,
    /// After how many seconds a session ends that sends nothing and follows nothing, or that takes nothing of what is
    /// sent to it; 0 if never.
    pub idle: u64,
    /// What is called at certain moments of each session.
    pub gate: &'a Moments,
}

/// What the threads of a server share.
#[derive(Drop)]
pub(crate) struct RunningServer<'a, Name: Naming, Moments> {
    setup: ServerSetup<'a, Name, Moments>,
    /// Those that are open.
    pub(crate) connections: Connections,
    /// The socket of the listener, by which it is shut down also where no descriptor is left; none where there was
    /// none at the start.
    listening_socket: Option<UnixStream>,
}

/// It hears of a stop before the answer is sent.
impl<'a, Name: Naming, Moments: Gate> Doorkeeper for RunningServer<'a, Name, Moments> {
    fn close<R: Wait>(&self, rt: &R) {
        self.connections.stop(rt);
        self.shut();
    }
}

impl<'a, Name: Naming, Moments: Gate> RunningServer<'a, Name, Moments> {
    /// Nobody is connected yet. Refused for want of memory alone.
    pub(crate) fn new(
        alloc: Global,
        setup: ServerSetup<'a, Name, Moments>,
    ) -> Result<RunningServer<'a, Name, Moments>, AllocError> {
        let connections = Connections::new(alloc, setup.sessions)?;
        let listening_socket = listening_socket(setup.listener).ok();
        Ok(RunningServer {
            setup,
            connections,
            listening_socket,
        })
    }

    /// Whether the desk is stopped, so that nobody is let in any more.
    pub(crate) fn is_over<Runtime: Wait>(&self, rt: &Runtime) -> bool {
        let turns = self.setup.bell.turns();
        turns.begin(rt);
        let is_stopped = self.setup.desk.lock(rt).is_stopped();
        turns.end(rt);
        is_stopped
    }

    /// Where connections come from.
    pub(crate) fn listener(&self) -> &'a UnixListener {
        self.setup.listener
    }

    /// Lets nobody in any more: an accept of the listener that waits, and each later one, returns. Whether the
    /// system did so.
    fn shut(&self) -> bool {
        match &self.listening_socket {
            Some(socket) => socket.shutdown(Shutdown::Both).is_ok(),
            None => false,
        }
    }

    /// Lets a session in at the desk, in a turn of its own.
    fn admit<Runtime: Wait>(&self, rt: &Runtime) -> DeskWitness<Name> {
        let turns = self.setup.bell.turns();
        turns.begin(rt);
        let witness = self.setup.desk.lock(rt).admit(self.setup.host);
        turns.end(rt);
        witness
    }

    /// Serves the lines of a connection; nothing where there is no memory for a reader of lines.
    fn answer<Runtime>(&self, rt: &Runtime, alloc: Global, number: u64, stream: &UnixStream)
    where
        Runtime: Wait + Clock,
    {
        let reader = Patient::new(rt, &self.connections, stream, self.setup.idle);
        let Ok(mut lines) = LineReader::new(alloc, reader, LINE_LIMIT) else {
            return;
        };
        let mut writer = PatientWriter::new(rt, stream, self.setup.idle);
        let mut session = SharedSession::new(alloc, self.admit(rt));
        let shared = Shared {
            rt,
            desk: self.setup.desk,
            bell: self.setup.bell,
            gate: self.setup.gate,
            doorkeeper: self,
            number,
            alloc,
        };
        let _end = serve_shared(shared, &mut session, &mut lines, &mut writer);
    }

    /// Serves a connection. Where the desk is stopped behind it, by whichever session, the loop that accepts is woken.
    pub(crate) fn serve<Runtime>(
        &self,
        rt: &Runtime,
        alloc: Global,
        number: u64,
        stream: UnixStream,
    )
    where
        Runtime: Wait + Clock + Net<Listener = TcpListener, Stream = TcpStream>,
    {
        self.answer(rt, alloc, number, &stream);
        let again = self.connections.leave(rt, number);
        part(&stream);
        drop(again);
        drop(stream);
        if self.is_over(rt) {
            self.wake(rt);
        }
    }

    /// Wakes the loop that accepts: its listening socket is shut down, and where the system refuses
    /// that, the server connects to its own path. No descriptor of the session is open any more, so
    /// that there is one for this.
    fn wake<Runtime>(&self, rt: &Runtime)
    where
        Runtime: Net<Listener = TcpListener, Stream = TcpStream>,
    {
        if !self.shut() {
            let _ = UnixStream::connect(rt, self.setup.path);
        }
    }

    /// Turns a connection away, and counts it no longer.
    pub(crate) fn dismiss<Runtime: Wait>(&self, rt: &Runtime, stream: UnixStream, fault: Fault) {
        turn_away(&stream, fault);
        self.connections.end_parting(rt);
    }

    /// Stops the desk, in a turn of its own.
    fn stop<Runtime: Wait>(&self, rt: &Runtime) {
        let turns = self.setup.bell.turns();
        turns.begin(rt);
        let mut desk = self.setup.desk.lock(rt);
        let mut witness = desk.admit(self.setup.host);
        desk.stop(&mut witness);
        drop(desk);
        turns.end(rt);
    }

    /// Ends all sessions. The desk is stopped, so that those that follow are told so; each goes on to
    /// be served until it has been idle for a second; those that are left after ten seconds are cut
    /// off.
    pub(crate) fn end_all<Runtime: Wait + Clock>(&self, rt: &Runtime) {
        self.connections.stop(rt);
        self.stop(rt);
        self.setup.bell.ring(rt);
        self.connections.wait(rt);
        self.connections.cut_off(rt);
    }
}
