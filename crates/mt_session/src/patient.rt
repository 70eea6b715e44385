//! What a session reads: the bytes of its stream, and the end of them too once the server stops and
//! nothing more comes.
use crate::connections::{Connections, PATIENCE};
use mt_lines::stream::{Input, StreamFault};
use std::io::{ErrorKind, Read};
use std::sync::Wait;

/// The stream of a connection that has a session, as an `Input`: it waits for bytes as long as the server does not stop,
/// and not much longer, and so many seconds at most where that is said. It tells no bytes and counts no failures.
#[derive(Drop)]
pub(crate) struct Patient<'a, Runtime: Wait, R> {
    rt: &'a Runtime,
    connections: &'a Connections,
    inner: R,
    idle: u64,
}

impl<'a, Runtime: Wait, R> Patient<'a, Runtime, R> {
    ghost use Rattle.std.specs.Prelude.{◌≡◌};
    ghost use Rattle.mt_session.specs.Patience.{patient_inner};

    /// Takes a stream of which each read waits for a second at most, as [`Connections::enter`] has
    /// seen to it. Where no byte comes for `idle` seconds, that is the end of it; with 0 it waits for ever.
    pub(crate) fn new(
        rt: &'a Runtime,
        connections: &'a Connections,
        inner: R,
        idle: u64,
    ) -> Patient<'a, Runtime, R>
        ensures { patient_inner result ≡ inner }
    {
        Patient {
            rt,
            connections,
            inner,
            idle,
        }
    }
}

impl<'a, Runtime: Wait, R: Read + Drop> Patient<'a, Runtime, R> {
    ghost use Rattle.std.specs.Prelude.{◌≤◌, length, IfOk};
    ghost use Rattle.mt_session.specs.Patience.{patient_inner, ReadsPatiently};

    /// Reads until bytes come, or their end. Where a read has waited in vain it reads again, unless
    /// the server was stopping already when that read began, or as many seconds have passed as a session may
    /// be idle: that is the end of the input too. So a
    /// session that is idle at a stop has one to two seconds, and one that is not goes on. An
    /// interrupted read is `Interrupted`, and every other error `Failed`.
    #[tactic(auto, using(crate::proofs::PatienceLaws::kept_and_read, crate::proofs::PatienceLaws::kept_and_none, crate::proofs::PatienceLaws::kept_twice))]
    fn wait(&mut self, buffer: &mut [u8]) -> Result<usize, StreamFault>
        ensures bound { IfOk result (λ n. n ≤ length buffer.new) }
        ensures bytes { ReadsPatiently (R.remaining (patient_inner self.old)) (R.remaining (patient_inner self.new)) result buffer.new }
    {
        let mut waited = 0u64;
        'reads: for _read in self.rt.forever() {
            let stopping = self.connections.are_stopping(self.rt);
            match self.inner.read(buffer) {
                Ok(count) => return Ok(count),
                Err(error) => match error.kind() {
                    ErrorKind::WouldBlock | ErrorKind::TimedOut => {
                        waited = waited.saturating_add(PATIENCE);
                        if stopping || (0 < self.idle && self.idle <= waited) {
                            return Ok(0);
                        }
                    }
                    ErrorKind::Interrupted => return Err(StreamFault::Interrupted),
                    _ => return Err(StreamFault::Failed),
                },
            }
        }
        unreachable!()
    }
}

impl<'a, Runtime: Wait, R: Read + Drop> Input for Patient<'a, Runtime, R> {
    ghost use Rattle.std.specs.Prelude.{[], None, false};

    ghost counts = { false };

    ghost remaining = { λ p. None };

    ghost failed = { λ p. 0 };

    ghost faults = { λ p. [] };

    /// Reads the next bytes, or the end of them ([`Patient::wait`]).
    fn read(&mut self, buffer: &mut [u8]) -> Result<usize, StreamFault> {
        self.wait(buffer)
    }
}
