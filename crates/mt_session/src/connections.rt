//! The connections that have a session, and whether the server stops: a [`Register`] of their streams under a lock.
ghost use Rattle.std.specs.Prelude.{◌≡◌, ◌⊎◌, IfErr};

use crate::register::Register;
use mt_skel::fault::Fault;
use std::alloc::{AllocError, Global};
use std::io;
use std::net::Shutdown;
use std::os::unix::net::UnixStream;
use std::sync::{Condvar, CondvarTimeouts, Mutex, Wait};
use std::time::{Clock, Duration};

/// How often the end of all sessions is looked for, a tenth of a second apart, before those that
/// are left are cut off.
const MOST_LOOKS: u32 = 100;

/// How long one look waits, in milliseconds.
const LOOK: u64 = 100;

/// How long one read or write of a session waits, in seconds.
pub(crate) const PATIENCE: u64 = 1;

/// The connections of a server: those that have a session are kept with their streams, a second time.
#[derive(Drop)]
pub(crate) struct Connections {
    register: Mutex<Register<UnixStream>>,
    all_left: Condvar,
}

impl Connections {
    /// None yet, and the room for `most`. Refused for want of memory alone.
    pub(crate) fn new(alloc: Global, most: usize) -> Result<Connections, AllocError> {
        Ok(Connections {
            register: Mutex::new(Register::new(alloc, most)?),
            all_left: Condvar::new(),
        })
    }

    /// Counts a connection as one that has a session, and answers the session's number
    /// ([`Register::enter`]). Each read and each write of the stream waits for a second at most from
    /// then on. Refused as `TooMany` where nobody more is let in, and as `NoMemory` where the system
    /// refuses that, or has no second descriptor for the stream.
    pub(crate) fn enter<Runtime: Wait>(
        &self,
        rt: &Runtime,
        stream: &UnixStream,
    ) -> Result<u64, Fault>
        ensures fault { IfErr result (λ fault. (fault ≡ Fault.TooMany) ⊎ (fault ≡ Fault.NoMemory)) }
    {
        let mut register = self.register.lock(rt);
        if !register.lets_in() {
            return Err(Fault::TooMany);
        }
        let Ok(stream) = prepare(stream) else {
            return Err(Fault::NoMemory);
        };
        register.enter(stream)
    }

    /// Counts the connection of a session no longer, and answers its stream.
    pub(crate) fn leave<Runtime: Wait>(&self, rt: &Runtime, number: u64) -> Option<UnixStream> {
        let mut register = self.register.lock(rt);
        let left = register.leave(number)?;
        if register.is_empty() {
            self.all_left.notify_all();
        }
        Some(left)
    }

    /// Begins to turn one away in a thread of its own, unless as many are turned away as there may
    /// be sessions.
    pub(crate) fn begin_parting<Runtime: Wait>(&self, rt: &Runtime) -> bool {
        self.register.lock(rt).begin_parting()
    }

    /// One was turned away.
    pub(crate) fn end_parting<Runtime: Wait>(&self, rt: &Runtime) {
        self.register.lock(rt).end_parting();
    }

    /// The server stops from now on.
    pub(crate) fn stop<Runtime: Wait>(&self, rt: &Runtime) {
        self.register.lock(rt).stop();
    }

    /// Whether the server stops.
    pub(crate) fn are_stopping<Runtime: Wait>(&self, rt: &Runtime) -> bool {
        self.register.lock(rt).is_stopping()
    }

    /// Cuts off all that have a session: nothing is sent or taken any more.
    pub(crate) fn cut_off<Runtime: Wait>(&self, rt: &Runtime) {
        let register = self.register.lock(rt);
        for entry in register.entries() {
            let _ = entry.kept.shutdown(Shutdown::Both);
        }
    }

    /// Waits until no connection has a session, ten seconds at most.
    pub(crate) fn wait<Runtime: Wait + Clock>(&self, rt: &Runtime) {
        'looks: for _look in 0..MOST_LOOKS {
            let register = self.register.lock(rt);
            if register.is_empty() {
                return;
            }
            let _ = self
                .all_left
                .wait_timeout(rt, register, Duration::from_millis(LOOK));
        }
    }
}

/// Makes each read and each write of a stream wait for a second at most, and answers the stream a second time.
/// Refused as the system refuses any of it: a session whose reads have no bound would hold up a stop, and one whose
/// writes have none would never end for a client that does not read.
fn prepare(stream: &UnixStream) -> io::Result<UnixStream> {
    let patience = Some(Duration::from_secs(PATIENCE));
    stream.set_read_timeout(patience)?;
    stream.set_write_timeout(patience)?;
    stream.try_clone()
}
