//! What a session writes: it waits for its client to read, but not for ever where a session may not be idle for ever.
use crate::connections::PATIENCE;
use mt_lines::stream::{Output, StreamFault};
use std::io::{ErrorKind, Write};
use std::sync::Wait;

/// The stream of a connection that has a session, as an `Output`: it waits for a client that does not read, and so many
/// seconds at most where that is said. It counts no failures. What it has taken is known where it is known of the stream.
#[derive(Drop)]
pub(crate) struct PatientWriter<'a, Runtime: Wait, W> {
    rt: &'a Runtime,
    inner: W,
    idle: u64,
}

impl<'a, Runtime: Wait, W> PatientWriter<'a, Runtime, W> {
    ghost use Rattle.std.specs.Prelude.{◌≡◌};
    ghost use Rattle.mt_session.specs.Patience.{patient_writer_inner};

    /// Takes a stream of which each write waits for a second at most, as [`Connections::enter`] has seen to it, and
    /// which keeps no bytes back, so that there is nothing to flush. Where no byte is taken for `idle` seconds, a write
    /// fails; with 0 it waits for ever.
    ///
    /// [`Connections::enter`]: crate::connections::Connections::enter
    pub(crate) fn new(rt: &'a Runtime, inner: W, idle: u64) -> PatientWriter<'a, Runtime, W>
        ensures { patient_writer_inner result ≡ inner }
    {
        PatientWriter { rt, inner, idle }
    }
}

impl<'a, Runtime: Wait, W: Write + Drop> PatientWriter<'a, Runtime, W> {
    ghost use Rattle.std.specs.Prelude.{◌≤◌, length, IfOk};
    ghost use Rattle.std.specs.Io.KnownBytes.{WriteAppends};
    ghost use Rattle.mt_session.specs.Patience.{patient_writer_inner};

    /// Writes until some bytes are taken. Where a write has waited in vain it writes again, unless as many seconds have
    /// passed as a session may be idle: then it is `Failed`. Each write that takes a byte begins anew with that time. An
    /// interrupted write is `Interrupted`, and every other error `Failed`; nothing was taken then.
    ///
    /// A stop of the server ends no write: an answer that is half out has the time until all sessions are cut off.
    #[tactic(auto, using(crate::proofs::PatienceLaws::kept_and_written, crate::proofs::PatienceLaws::kept_twice))]
    fn wait(&mut self, bytes: &[u8]) -> Result<usize, StreamFault>
        ensures bound { IfOk result (λ n. n ≤ length bytes.now) }
        ensures known { WriteAppends (W.contents (patient_writer_inner self.old)) (W.contents (patient_writer_inner self.new)) result bytes.now }
    {
        let mut waited = 0u64;
        'writes: for _write in self.rt.forever() {
            match self.inner.write(bytes) {
                Ok(count) => return Ok(count),
                Err(error) => match error.kind() {
                    ErrorKind::WouldBlock | ErrorKind::TimedOut => {
                        waited = waited.saturating_add(PATIENCE);
                        if 0 < self.idle && self.idle <= waited {
                            return Err(StreamFault::Failed);
                        }
                    }
                    ErrorKind::Interrupted => return Err(StreamFault::Interrupted),
                    _ => return Err(StreamFault::Failed),
                },
            }
        }
        unreachable!()
    }
}

impl<'a, Runtime: Wait, W: Write + Drop> Output for PatientWriter<'a, Runtime, W> {
    ghost use Rattle.std.specs.Prelude.{[], false};
    ghost use Rattle.mt_session.specs.Patience.{patient_writer_inner};

    ghost counts = { false };

    ghost contents = { λ w. W.contents (patient_writer_inner w) };

    ghost failed = { λ w. 0 };

    ghost faults = { λ w. [] };

    /// Writes the next bytes ([`PatientWriter::wait`]).
    fn write(&mut self, bytes: &[u8]) -> Result<usize, StreamFault> {
        self.wait(bytes)
    }
}
