//! Streams in memory: bytes to read in pieces, a reader and a writer that fail for a while, and a sink that keeps what
//! is written. Tests of sessions use them in the place of connections.
ghost use Rattle.std.specs.Prelude.{◌≡◌, ◌+◌, ◌<◌, ◌≤◌, ◌++◌, [], length, max, take, IfOk, Ok, vec_capacity, vec_len};

use crate::stream::{Input, Output, StreamFault};
use std::alloc::{AllocError, Global};

/// Bytes in memory, read at most this many a call.
///
/// As an `Input` its bytes are known, and it counts its failed calls, of which there are none.
#[derive(Drop)]
pub struct Portions<'a> {
    bytes: &'a [u8],
    most: usize,
    ghost some: { 0 < most },
}

impl<'a> Portions<'a> {
    ghost use Rattle.mt_lines.specs.Stream.{portion_size, portions_left, portions_most};

    /// Takes the bytes to give, and the most bytes that one read gives; 0 stands for 1.
    pub fn new(bytes: &'a [u8], most: usize) -> Portions<'a>
        ensures left { portions_left result ≡ bytes.entry.now }
        ensures most { portions_most result ≡ max most 1 }
    {
        Portions {
            bytes,
            most: most.max(1),
        }
    }

    /// Moves the next bytes to the front of the buffer, and answers how many.
    fn move_portion(&mut self, buffer: &mut [u8]) -> usize
        requires { 0 < length buffer.old }
        ensures count { result
            ≡ portion_size (portions_left self.old) (length buffer.old) (portions_most self.old) }
        ensures bound { result ≤ length buffer.new }
        ensures given { portions_left self.old ≡ take result buffer.new ++ portions_left self.new }
        ensures end { result ≡ 0 → portions_left self.new ≡ [] }
        ensures most { portions_most self.new ≡ portions_most self.old }
    {
        let count = self.bytes.len().min(buffer.len()).min(self.most);
        buffer[..count].copy_from_slice(&self.bytes[..count]);
        self.bytes = &self.bytes[count..];
        count
    }
}

impl Input for Portions<'_> {
    ghost use Rattle.std.specs.Prelude.{◌≡◌, ◌+◌, ◌<◌, ◌≤◌, [], length, IfOk, Ok, Some, true};
    ghost use Rattle.std.specs.Io.KnownBytes.{ReadConsumes};
    ghost use Rattle.mt_lines.specs.Stream.{failed_reads, faults_after_read, portion_size, portions_left, portions_most};

    ghost counts = { true };

    ghost remaining = { λ p. Some (portions_left p) };

    ghost failed = { λ p. 0 };

    ghost faults = { λ p. [] };

    /// Never fails: gives as many bytes as are left, fit the buffer and may go in one call.
    fn read(&mut self, buffer: &mut [u8]) -> Result<usize, StreamFault>
        requires { 0 < length buffer.old }
        ensures bound { IfOk result (λ n. n ≤ length buffer.new) }
        ensures known { ReadConsumes (Some (portions_left self.old)) (Some (portions_left self.new)) result buffer.new }

        // No call fails, so that the count of failed calls stays 0.
        ensures counted { 0 ≡ 0 + failed_reads result }
        ensures faults { [] ≡ faults_after_read [] result }

        ensures count { result
            ≡ Ok (portion_size (portions_left self.old) (length buffer.old) (portions_most self.old)) }
        ensures most { portions_most self.new ≡ portions_most self.old }
    {
        Ok(self.move_portion(buffer))
    }
}

/// Bytes in memory, read at most this many a call, with some calls in succession that fail.
///
/// As an `Input` its bytes are known, and it counts its failed calls.
#[derive(Drop)]
pub struct Faulty<'a> {
    portions: Portions<'a>,
    before: u64,
    fault: StreamFault,
    times: u32,
    pending: u32,
    run: u32,
    ghost counted: { run + pending ≤ times },
}

impl<'a> Faulty<'a> {
    ghost use Rattle.mt_lines.specs.Stream.{faulty_left, faulty_most, faulty_before, faulty_pending, faulty_failed, faulty_faults, faulty_fault};

    /// Takes the bytes to give, the most bytes that one read gives (0 stands for 1), how many
    /// reads are served before the first that fails, the fault, and how many reads in succession
    /// answer it. Every later read is served again.
    pub fn new(bytes: &'a [u8], most: usize, at: u64, fault: StreamFault, times: u32) -> Faulty<'a>
        ensures left { faulty_left result ≡ bytes.entry.now }
        ensures most { faulty_most result ≡ max most 1 }
        ensures before { faulty_before result ≡ at }
        ensures fault { faulty_fault result ≡ fault }
        ensures pending { faulty_pending result ≡ times }
        ensures failed { faulty_failed result ≡ 0 }
        ensures faults { faulty_faults result ≡ [] }
    {
        Faulty {
            portions: Portions::new(bytes, most),
            before: at,
            fault,
            times,
            pending: times,
            run: 0,
        }
    }
}

impl Input for Faulty<'_> {
    ghost use Rattle.std.specs.Prelude.{◌≡◌, ◌+◌, ◌-◌, ◌<◌, ◌≤◌, length, IfOk, Ok, Err, Some, true};
    ghost use Rattle.std.specs.Io.KnownBytes.{ReadConsumes};
    ghost use Rattle.mt_lines.specs.Stream.{failed_reads, faults_after_read, portion_size, faulty_left, faulty_most, faulty_before, faulty_pending, faulty_failed, faulty_faults, faulty_fault};

    ghost counts = { true };

    ghost remaining = { λ f. Some (faulty_left f) };

    ghost failed = { faulty_failed };

    ghost faults = { faulty_faults };

    /// Fails with its fault, and moves nothing, in the calls that it was made to fail.
    fn read(&mut self, buffer: &mut [u8]) -> Result<usize, StreamFault>
        requires { 0 < length buffer.old }
        ensures bound { IfOk result (λ n. n ≤ length buffer.new) }
        ensures known { ReadConsumes (Some (faulty_left self.old)) (Some (faulty_left self.new)) result buffer.new }
        ensures counted { faulty_failed self.new ≡ faulty_failed self.old + failed_reads result }
        ensures faults { faulty_faults self.new ≡ faults_after_read (faulty_faults self.old) result }

        // Which call answers what.
        ensures before { 0 < faulty_before self.old
            → result
            ≡ Ok (portion_size (faulty_left self.old) (length buffer.old) (faulty_most self.old)) }
        ensures fails { faulty_before self.old ≡ 0 → 0 < faulty_pending self.old
            → result ≡ Err (faulty_fault self.old) }
        ensures behind { faulty_before self.old ≡ 0 → faulty_pending self.old ≡ 0
            → result
            ≡ Ok (portion_size (faulty_left self.old) (length buffer.old) (faulty_most self.old)) }

        // What it leaves to later calls.
        ensures turn { faulty_before self.new ≡ faulty_before self.old - 1 }
        ensures pending { faulty_pending self.new + failed_reads result ≡ faulty_pending self.old }
        ensures same { (faulty_fault self.new ≡ faulty_fault self.old)
            × (faulty_most self.new ≡ faulty_most self.old) }
    {
        if self.before > 0 {
            self.before -= 1;
        } else if self.pending > 0 {
            self.pending -= 1;
            self.run += 1;
            return Err(self.fault);
        }
        self.run = 0;
        Ok(self.portions.move_portion(buffer))
    }
}

/// Takes all that is written to it and keeps nothing, but its first calls fail.
///
/// As an `Output` it counts its failed calls, and its bytes are not known.
#[derive(Drop)]
pub struct Faltering {
    fault: StreamFault,
    times: u32,
    pending: u32,
    run: u32,
    ghost counted: { run + pending ≤ times },
}

impl Faltering {
    ghost use Rattle.std.specs.Prelude.{[]};
    ghost use Rattle.mt_lines.specs.Stream.{faltering_pending, faltering_failed, faltering_faults, faltering_fault};

    /// Takes the fault, and how many writes answer it. Every later write is served.
    pub fn new(fault: StreamFault, times: u32) -> Faltering
        ensures fault { faltering_fault result ≡ fault }
        ensures pending { faltering_pending result ≡ times }
        ensures failed { faltering_failed result ≡ 0 }
        ensures faults { faltering_faults result ≡ [] }
    {
        Faltering {
            fault,
            times,
            pending: times,
            run: 0,
        }
    }
}

impl Output for Faltering {
    ghost use Rattle.std.specs.Prelude.{◌≡◌, ◌+◌, ◌<◌, ◌≤◌, length, IfOk, Ok, Err, None, true};
    ghost use Rattle.mt_lines.specs.Stream.{failed_writes, faults_after_write, faltering_pending, faltering_failed, faltering_faults, faltering_fault};

    ghost counts = { true };

    ghost contents = { λ f. None };

    ghost failed = { faltering_failed };

    ghost faults = { faltering_faults };

    /// Fails with its fault in the calls that it was made to fail, and takes all bytes in every other call.
    fn write(&mut self, bytes: &[u8]) -> Result<usize, StreamFault>
        ensures bound { IfOk result (λ n. n ≤ length bytes.now) }
        ensures counted { faltering_failed self.new ≡ faltering_failed self.old + failed_writes bytes.now result }
        ensures faults { faltering_faults self.new ≡ faults_after_write bytes.now (faltering_faults self.old) result }
        ensures fails { 0 < faltering_pending self.old → result ≡ Err (faltering_fault self.old) }
        ensures takes { faltering_pending self.old ≡ 0 → result ≡ Ok (length bytes.now) }
        ensures same { faltering_fault self.new ≡ faltering_fault self.old }
    {
        if self.pending > 0 {
            self.pending -= 1;
            self.run += 1;
            return Err(self.fault);
        }
        self.run = 0;
        Ok(bytes.len())
    }
}

/// Keeps what is written to it, at most this many bytes a call, until it is full.
///
/// As an `Output` its bytes are known, and it does not count its failed calls: a full sink fails
/// forever, which no number of the machine can count.
#[derive(Drop)]
pub struct Sink {
    kept: Vec<u8>,
    most: usize,
    room: usize,
    ghost some: { 0 < most },
    ghost within: { vec_len kept ≤ room },
    ghost reserved: { room ≤ vec_capacity kept },
}

impl Sink {
    ghost use Rattle.mt_lines.specs.Stream.{sink_bytes, sink_most, sink_room};

    /// Takes the most bytes that one write takes (0 stands for 1), and how many bytes it keeps in
    /// all, which it reserves. Answers `AllocError` if there is no memory for them.
    pub fn new(alloc: Global, most: usize, room: usize) -> Result<Sink, AllocError>
        ensures bytes { IfOk result (λ s. sink_bytes s ≡ []) }
        ensures most { IfOk result (λ s. sink_most s ≡ max most 1) }
        ensures room { IfOk result (λ s. sink_room s ≡ room) }
    {
        Ok(Sink {
            kept: Vec::with_capacity(alloc, room)?,
            most: most.max(1),
            room,
        })
    }

    /// Lends the bytes that were written so far.
    pub fn bytes(&self) -> &[u8]
        ensures { result.now ≡ sink_bytes self.now }
    {
        self.kept.as_slice()
    }
}

impl Output for Sink {
    ghost use Rattle.std.specs.Prelude.{◌≡◌, ◌-◌, ◌<◌, ◌≤◌, length, min, IfOk, Ok, Err, Some, false};
    ghost use Rattle.std.specs.Io.KnownBytes.{WriteAppends};
    ghost use Rattle.mt_lines.specs.Stream.{sink_bytes, sink_most, sink_room};

    ghost counts = { false };

    ghost contents = { λ s. Some (sink_bytes s) };

    ghost failed = { λ s. 0 };

    ghost faults = { λ s. [] };

    /// Takes as many bytes as it has room for and may take in one call, and fails once it is full.
    fn write(&mut self, bytes: &[u8]) -> Result<usize, StreamFault>
        ensures bound { IfOk result (λ n. n ≤ length bytes.now) }
        ensures known { WriteAppends (Some (sink_bytes self.old)) (Some (sink_bytes self.new)) result bytes.now }
        ensures full { length (sink_bytes self.old) ≡ sink_room self.old
            → result ≡ Err StreamFault.Failed }
        ensures takes { length (sink_bytes self.old) < sink_room self.old
            → result
            ≡ Ok (min (min (length bytes.now) (sink_most self.old)) (sink_room self.old - length (sink_bytes self.old))) }
        ensures same { (sink_most self.new ≡ sink_most self.old)
            × (sink_room self.new ≡ sink_room self.old) }
    {
        let room = self.room - self.kept.len();
        if room == 0 {
            return Err(StreamFault::Failed);
        }
        let count = bytes.len().min(self.most).min(room);
        match self.kept.extend_from_slice(&bytes[..count]) {
            Ok(()) => Ok(count),
            Err(AllocError) => Err(StreamFault::Failed),
        }
    }
}
