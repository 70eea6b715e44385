//! Streams of bytes, and a send that says how much went out.
ghost use Rattle.std.specs.Prelude.{◌≡◌, ◌↔◌, ℕ, ◌+◌, ◌<◌, ◌≤◌, List, length, take, Bool, IsTrue, IfOk, IfErr, OnErr, OnOk, Result, ◌⊎◌, false, []};
ghost use Rattle.std.specs.Io.KnownBytes.{Appends, Keeps, WriteAppends};
ghost use Rattle.std.specs.IoError.{error_kind};
ghost use Rattle.mt_lines.specs.Stream.{failed_writes, failed_reads, faults_after_read, faults_after_write, HasFailed, IsInterrupted};

use std::io::{Error, ErrorKind, Read, Write};

/// How many interrupted calls of a stream in succession end a read or a send, by this project's
/// rule.
pub const MOST_INTERRUPTIONS: u32 = 1_000;

/// Why a call of a stream failed.
#[derive(Clone, Copy, Debug, PartialEq, Eq)]
pub enum StreamFault {
    /// The call was interrupted: the same call may be made again.
    Interrupted,
    /// The stream failed.
    Failed,
}

/// A source of bytes.
///
/// `remaining` is what it still has to give, up to the end of the input, if that is known of the value, as in std's
/// `Read`: a stream over another one knows it if that one does. An implementation says of its type whether it `counts`
/// its failed calls, and what is said here of calls holds for one that does. `failed` is how many of its calls have
/// failed, and `faults` are the faults of its last calls, the latest first, back to the last call that succeeded.
pub trait Input {
    ghost use Rattle.std.specs.Prelude.{Option};
    ghost use Rattle.std.specs.Io.KnownBytes.{ReadConsumes};
    ghost use Rattle.mt_lines.specs.declared.stream.StreamFault.{StreamFault};

    ghost counts: { Bool };

    ghost remaining: { Self → Option (List ℕ) };

    ghost failed: { Self → ℕ };

    ghost faults: { Self → List StreamFault };

    /// Moves the next bytes to the front of the buffer, which is not empty, and answers how many: 0 at the end of the
    /// input. If what remains is known, a call that answers a fault moves nothing.
    fn read(&mut self, buffer: &mut [u8]) -> Result<usize, StreamFault>
        requires { 0 < length buffer.old }
        ensures bound { IfOk result (λ n. n ≤ length buffer.new) }
        ensures known { ReadConsumes (remaining self.old) (remaining self.new) result buffer.new }
        ensures counted { IsTrue counts → failed self.new ≡ failed self.old + failed_reads result }
        ensures faults { IsTrue counts → faults self.new ≡ faults_after_read (faults self.old) result };
}

/// A destination of bytes.
///
/// `contents` is what it has taken so far, if that is known of the value, as in std's `Write`: a stream over another
/// one knows it if that one does. An implementation says of its type whether it `counts` its failed calls, and what is
/// said here of calls holds for one that does. `failed` is how many of its calls have failed, and `faults` are the
/// faults of its last calls, the latest first, back to the last call that succeeded. A call that is given bytes and
/// takes none of them has failed.
pub trait Output {
    ghost use Rattle.std.specs.Prelude.{Option};
    ghost use Rattle.std.specs.Io.KnownBytes.{WriteAppends};
    ghost use Rattle.mt_lines.specs.declared.stream.StreamFault.{StreamFault};

    ghost counts: { Bool };

    ghost contents: { Self → Option (List ℕ) };

    ghost failed: { Self → ℕ };

    ghost faults: { Self → List StreamFault };

    /// Takes some of the bytes, from the first one on, and answers how many. If its contents are known, a call that
    /// answers a fault takes nothing; on a real stream, some bytes may have gone out before a call answers `Failed`.
    fn write(&mut self, bytes: &[u8]) -> Result<usize, StreamFault>
        ensures bound { IfOk result (λ n. n ≤ length bytes.now) }
        ensures known { WriteAppends (contents self.old) (contents self.new) result bytes.now }
        ensures counted { IsTrue counts → failed self.new ≡ failed self.old + failed_writes bytes.now result }
        ensures faults { IsTrue counts → faults self.new ≡ faults_after_write bytes.now (faults self.old) result };
}

/// Only a part of a send went out.
#[derive(Clone, Copy, Debug, PartialEq, Eq)]
pub struct Cut {
    /// How many bytes went out, from the first one on: those of the writes that answered how many
    /// they took.
    pub sent: usize,
}

/// Writes once, and again as long as the write is interrupted, and answers how many of the bytes
/// went out.
///
/// Answers `Cut`, with no bytes sent, at a write that fails or takes nothing of some bytes, and at the 1,000th
/// interrupted write in succession.
fn write_once<W: Output>(writer: &mut W, bytes: &[u8]) -> Result<usize, Cut>
    ensures bound { IfOk result (λ count. count ≤ length bytes.now) }
    ensures some { IfOk result (λ count. 0 < length bytes.now → 0 < count) }
    ensures known { WriteAppends (W.contents writer.old) (W.contents writer.new) result bytes.now }
    ensures none { IfErr result (λ cut. cut.sent ≡ 0) }
    ensures cause { OnErr result (IsTrue W.counts → W.failed writer.old < W.failed writer.new) }
    ensures counted { IsTrue W.counts → W.failed writer.old ≤ W.failed writer.new }
    ensures faults { OnErr result (IsTrue W.counts → W.faults writer.old ≡ []
        → HasFailed (W.faults writer.new) ⊎ IsInterrupted (W.faults writer.new)) }
    // So a write was made: one that comes through leaves no fault in succession.
    ensures served { OnOk result (IsTrue W.counts → W.faults writer.new ≡ []) }
{
    'trying: for _tries in 0..MOST_INTERRUPTIONS {
        match writer.write(bytes) {
            Ok(0) if !bytes.is_empty() => return Err(Cut { sent: 0 }),
            Ok(count) => return Ok(count),
            Err(StreamFault::Interrupted) => {}
            Err(StreamFault::Failed) => return Err(Cut { sent: 0 }),
        }
    }
    Err(Cut { sent: 0 })
}

/// Sends all the bytes, in as many writes as it takes.
///
/// Answers `Cut` at a write that fails or takes nothing, and, by this project's rule, at the 1,000th interrupted write
/// in succession. Then only the bytes that it tells went out, fewer than all, if the output's contents are known; on a
/// real stream some more may have gone out in the write that failed.
pub fn send<W: Output>(writer: &mut W, bytes: &[u8]) -> Result<(), Cut>
    ensures appended { OnOk result (Appends (W.contents writer.old) (W.contents writer.new) bytes.now) }

    // After a cut, a prefix of the bytes went out, and not all of them.
    ensures within { IfErr result (λ cut. cut.sent < length bytes.now) }
    ensures appended_part { IfErr result (λ cut. Appends (W.contents writer.old) (W.contents writer.new) (take cut.sent bytes.now)) }

    // A cut comes only where a call failed: where the last call did, with fewer interruptions in
    // succession before it than end a send, or where this many calls were interrupted in succession.
    ensures cause { OnErr result (IsTrue W.counts → W.failed writer.old < W.failed writer.new) }
    ensures counted { IsTrue W.counts → W.failed writer.old ≤ W.failed writer.new }
    ensures faults { OnErr result (IsTrue W.counts → W.faults writer.old ≡ []
        → HasFailed (W.faults writer.new) ⊎ IsInterrupted (W.faults writer.new)) }
    ensures served { OnOk result (IsTrue W.counts → W.faults writer.old ≡ []
        → W.faults writer.new ≡ []) }
{
    let mut sent = 0usize;
    'sending: while sent < bytes.len() {
        match write_once(writer, &bytes[sent..]) {
            Ok(count) => sent += count,
            Err(_) => return Err(Cut { sent }),
        }
    }
    Ok(())
}

/// Finds out whether the other end still reads, by writing no bytes: on a Unix socket this fails if the other end is
/// closed. An end that has only shut down its own writing still reads.
///
/// Answers `Cut`, with no bytes sent, at a write that fails, and at the 1,000th interrupted write in succession.
pub fn find_reader<W: Output>(writer: &mut W) -> Result<(), Cut>
    ensures known { Keeps (W.contents writer.old) (W.contents writer.new) }
    ensures none { IfErr result (λ cut. cut.sent ≡ 0) }

    // A cut comes only where a call failed, as in `send`.
    ensures cause { OnErr result (IsTrue W.counts → W.failed writer.old < W.failed writer.new) }
    ensures counted { IsTrue W.counts → W.failed writer.old ≤ W.failed writer.new }
    ensures faults { OnErr result (IsTrue W.counts → W.faults writer.old ≡ []
        → HasFailed (W.faults writer.new) ⊎ IsInterrupted (W.faults writer.new)) }
    // So a write was made: one that comes through leaves no fault in succession.
    ensures served { OnOk result (IsTrue W.counts → W.faults writer.new ≡ []) }
{
    let _count = write_once(writer, &[])?;
    Ok(())
}

/// What an error of the standard library's streams is here.
fn stream_fault(error: &Error) -> StreamFault
    ensures { (result ≡ StreamFault.Interrupted) ↔ (error_kind error.now ≡ ErrorKind.Interrupted) }
{
    match error.kind() {
        ErrorKind::Interrupted => StreamFault::Interrupted,
        _ => StreamFault::Failed,
    }
}

/// A reader of the standard library as an `Input`, which counts no failures. What remains is known if it is known of
/// the reader.
#[derive(Drop)]
pub struct Reading<R> {
    inner: R,
}

impl<R> Reading<R> {
    ghost use Rattle.mt_lines.specs.Stream.{reading_inner};

    /// Takes the reader, such as a socket or the standard input.
    pub fn new(inner: R) -> Reading<R>
        ensures { reading_inner result ≡ inner }
    {
        Reading { inner }
    }
}

impl<R: Read + Drop> Input for Reading<R> {
    ghost use Rattle.std.specs.Prelude.{◌≤◌, [], length, IfOk, false};
    ghost use Rattle.std.specs.Io.KnownBytes.{ReadConsumes};
    ghost use Rattle.mt_lines.specs.Stream.{reading_inner};

    ghost counts = { false };

    ghost remaining = { λ r. R.remaining (reading_inner r) };

    ghost failed = { λ r. 0 };

    ghost faults = { λ r. [] };

    /// Reads once. An interrupted read is `Interrupted`, and every other error `Failed`.
    fn read(&mut self, buffer: &mut [u8]) -> Result<usize, StreamFault>
        ensures bound { IfOk result (λ n. n ≤ length buffer.new) }
        ensures known { ReadConsumes (R.remaining (reading_inner self.old)) (R.remaining (reading_inner self.new)) result buffer.new }
    {
        match self.inner.read(buffer) {
            Ok(count) => Ok(count),
            Err(error) => Err(stream_fault(&error)),
        }
    }
}

/// A writer of the standard library as an `Output`, which counts no failures. What it has taken is known if it is known
/// of the writer.
///
/// Each write is flushed. If the flush fails, the bytes are taken all the same, so the call reports them, and every
/// later call fails; [`Writing::end`] reports a flush that failed in the last call.
#[derive(Drop)]
pub struct Writing<W> {
    inner: W,
    is_broken: bool,
}

impl<W> Writing<W> {
    ghost use Rattle.std.specs.Prelude.{false};
    ghost use Rattle.mt_lines.specs.Stream.{writing_inner, is_broken};

    /// Takes the writer, such as a socket or the standard output.
    pub fn new(inner: W) -> Writing<W>
        ensures inner { writing_inner result ≡ inner }
        ensures whole { is_broken result ≡ false }
    {
        Writing {
            inner,
            is_broken: false,
        }
    }
}

impl<W: Write + Drop> Writing<W> {
    ghost use Rattle.std.specs.Prelude.{MatchBool};
    ghost use Rattle.std.specs.Io.KnownBytes.{Keeps};
    ghost use Rattle.mt_lines.specs.Stream.{writing_inner, is_broken};

    /// Answers `Failed` if a flush has failed, so that bytes that were taken may not have gone out.
    pub fn end(self) -> Result<(), StreamFault>
        ensures { MatchBool (is_broken self) (result ≡ Err StreamFault.Failed) (result ≡ Ok tt) }
    {
        if self.is_broken {
            Err(StreamFault::Failed)
        } else {
            Ok(())
        }
    }

    /// Flushes, again if it is interrupted, and remembers a failure.
    fn flush(&mut self)
        ensures { Keeps (W.contents (writing_inner self.old)) (W.contents (writing_inner self.new)) }
    {
        'flushing: for _flushes in 0..MOST_INTERRUPTIONS {
            match self.inner.flush() {
                Ok(()) => return,
                Err(error) => {
                    if stream_fault(&error) == StreamFault::Failed {
                        self.is_broken = true;
                        return;
                    }
                }
            }
        }
        self.is_broken = true;
    }
}

impl<W: Write + Drop> Output for Writing<W> {
    ghost use Rattle.std.specs.Prelude.{◌≤◌, [], length, IfOk, false};
    ghost use Rattle.std.specs.Io.KnownBytes.{WriteAppends};
    ghost use Rattle.mt_lines.specs.Stream.{writing_inner};

    ghost counts = { false };

    ghost contents = { λ w. W.contents (writing_inner w) };

    ghost failed = { λ w. 0 };

    ghost faults = { λ w. [] };

    /// Writes once and flushes. An interrupted write is `Interrupted`, and every other error is `Failed`: nothing was taken
    /// then. Once a flush has failed, each call is `Failed`.
    fn write(&mut self, bytes: &[u8]) -> Result<usize, StreamFault>
        ensures bound { IfOk result (λ n. n ≤ length bytes.now) }
        ensures known { WriteAppends (W.contents (writing_inner self.old)) (W.contents (writing_inner self.new)) result bytes.now }
    {
        if self.is_broken {
            return Err(StreamFault::Failed);
        }
        match self.inner.write(bytes) {
            Ok(count) => {
                self.flush();
                Ok(count)
            }
            Err(error) => Err(stream_fault(&error)),
        }
    }
}
