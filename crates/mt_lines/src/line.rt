//! Lines of a stream, the same however the stream cuts its bytes.
ghost use Rattle.std.specs.Prelude.{◌≡◌, ◌≢◌, ℕ, ◌+◌, ◌^◌, ◌<◌, ◌≤◌, List, [], ◌∷◌, ◌++◌, length, take, drop, IsTrue, IfOk, IfErr, OnErr, OnOk, IfSome, MatchResult, MatchOption, MatchBool, IsNone, None, Some, vec_capacity, vec_len, min};
ghost use Rattle.std.specs.Io.KnownBytes.{Consumes, Keeps, IsAtEnd};
ghost use Rattle.mt_lines.specs.Lines.{Unbroken, line_end, slack};
ghost use Rattle.mt_lines.specs.declared.line.TheConstants.{CHUNK, MOST_RESERVED};

use crate::stream::{Input, MOST_INTERRUPTIONS, StreamFault};
use memchr::memchr;
use std::alloc::{AllocError, Global};
use std::marker::Model;

/// How many bytes one read asks for at most.
const CHUNK: usize = 4_096;

/// How many bytes a reader reserves for a line at most, by this project's rule.
const MOST_RESERVED: usize = 8_192;

/// For how many bytes past the limit a line end is looked for, by this project's rule.
const SLACK: usize = 1_048_576;

/// What the next line is.
#[derive(Clone, Copy, Debug, PartialEq, Eq)]
pub enum Line {
    /// A line of at most the limit, with its line end (byte 10). The reader lends its bytes.
    Text,
    /// A line of more bytes than the limit. It was skipped, with its line end if it had one.
    TooLong,
    /// Bytes after the last line end, at most the limit. The input is at its end.
    Unended,
    /// There is no next line: the input is at its end.
    End,
}

/// Why there is no next line. The reader answers it again at every later call.
#[derive(Clone, Copy, Debug, PartialEq, Eq)]
pub enum ReadFault {
    /// A read of the input failed.
    Device,
    /// 1,000 reads of the input in succession were interrupted.
    Interrupted,
    /// No line end came within the limit and 1,048,576 bytes more.
    Endless,
    /// There was no memory for the line, which only a limit above 8,192 bytes can meet.
    NoMemory,
}

/// Bytes that were read ahead: a contract sees the list of those that are not taken yet.
#[derive(Drop)]
struct Chunk {
    bytes: [u8; CHUNK],
    at: usize,
    filled: usize,
}

impl Model for Chunk {
    ghost Value = { List ℕ };

    ghost view = { λ c. drop c.at (take c.filled c.bytes) };

    ghost invariant = { λ c. (c.at ≤ c.filled) × (c.filled ≤ CHUNK) × (length c.bytes ≡ CHUNK) };
}

impl Chunk {
    /// A chunk with no bytes in it.
    fn new() -> Chunk
        ensures { result ≡ [] }
    {
        Chunk {
            bytes: [0; CHUNK],
            at: 0,
            filled: 0,
        }
    }

    /// The bytes that were read but not used yet.
    fn as_slice(&self) -> &[u8]
        ensures { result.now ≡ self.now }
    {
        &self.bytes[self.at..self.filled]
    }

    /// How many bytes these are.
    fn len(&self) -> usize
        ensures len { result ≡ length self.now }
        ensures bound { result ≤ CHUNK }
    {
        self.filled - self.at
    }

    /// Whether there are none.
    fn is_empty(&self) -> bool
        ensures { MatchBool result (self.now ≡ []) (0 < length self.now) }
    {
        self.as_slice().is_empty()
    }

    /// The place of the first line end.
    fn find_end(&self) -> Option<usize>
        ensures cases { MatchOption result (Unbroken self.now)
            (λ k. Unbroken (take k self.now) × (k < length self.now)
            × (drop k self.now ≡ line_end ∷ drop (k + 1) self.now)) }
        ensures bound { length self.now ≤ CHUNK }
    {
        let _held = &self.bytes;
        memchr(b'\n', self.as_slice())
    }

    /// Drops bytes from the front.
    fn advance(&mut self, count: usize)
        requires { count ≤ length self.old }
        ensures { self.new ≡ drop count self.old }
    {
        self.at += count;
    }

    /// Reads once into the empty chunk: false at the end of the input.
    fn fill<R: Input>(&mut self, reader: &mut R) -> Result<bool, StreamFault>
        requires { self.old ≡ [] }
        ensures some { IfOk result (λ more. MatchBool more (0 < length self.new) (self.new ≡ [])) }
        ensures err { OnErr result (self.new ≡ []) }
        ensures known { Consumes (R.remaining reader.old) (R.remaining reader.new) self.new }
        ensures known_end { IfOk result (λ more. MatchBool more (Unit {0}) (IsAtEnd (R.remaining reader.new))) }
        ensures counted { IsTrue R.counts → MatchResult result
            (λ _. R.failed reader.new ≡ R.failed reader.old)
            (λ _. R.failed reader.new ≡ R.failed reader.old + 1) }
        ensures faults { IsTrue R.counts → MatchResult result
            (λ _. R.faults reader.new ≡ [])
            (λ e. R.faults reader.new ≡ e ∷ R.faults reader.old) }
    {
        self.at = 0;
        self.filled = 0;
        let bytes = &mut self.bytes;
        let count = reader.read(bytes)?;
        self.filled = count;
        Ok(count > 0)
    }
}

/// Reads an input line by line. A line has at most this many bytes, its line end (byte 10) not
/// counted.
#[derive(Drop)]
pub struct LineReader<R: Input + Drop> {
    reader: R,
    chunk: Chunk,
    limit: usize,
    line: Vec<u8>,
    fault: Option<ReadFault>,
    ghost small: { limit < 2 ^ 32 },
    ghost room: { min limit MOST_RESERVED ≤ vec_capacity line },
}

/// Appends a piece of a line as far as the limit allows.
fn keep(line: &mut Vec<u8>, limit: usize, piece: &[u8]) -> Result<(), AllocError>
    requires { vec_len line.old ≤ limit }
    ensures ok { OnOk result ((text : List ℕ) → line.old.items ≡ take limit text
        → line.new.items ≡ take limit (text ++ piece.now)) }
    ensures len { OnOk result (vec_len line.new ≤ limit) }
    ensures room { vec_capacity line.old ≤ vec_capacity line.new }
    ensures full { OnErr result (vec_capacity line.old < limit) }
{
    let room = limit - line.len();
    let count = room.min(piece.len());
    line.extend_from_slice(&piece[..count])
}

impl<R: Input + Drop> LineReader<R> {
    ghost use Rattle.mt_lines.specs.Reading.{IsNextKnown, LosesNoLine, IsFaultCause, IsReadCause, IsFaultRun, IsReadRun, known_left, failed_calls, last_faults, limit_of, fault_of, last_line, line_room, most_reserved};

    /// Takes the input, and the most bytes that a line may have.
    ///
    /// Reserves the smaller of the limit and 8,192 bytes, and answers `AllocError` if there is no
    /// memory for them. Reads nothing yet.
    pub fn new(alloc: Global, reader: R, limit: u32) -> Result<LineReader<R>, AllocError>
        ensures known { IfOk result (λ r. known_left r ≡ R.remaining reader) }
        ensures failed { IfOk result (λ r. failed_calls r ≡ R.failed reader) }
        ensures faults { IfOk result (λ r. last_faults r ≡ R.faults reader) }
        ensures limit { IfOk result (λ r. limit_of r ≡ limit) }
        ensures room { IfOk result (λ r. line_room r ≡ min limit most_reserved) }
        ensures fresh { IfOk result (λ r. (fault_of r ≡ None) × (last_line r ≡ [])) }
    {
        let limit = limit as usize;
        let line = Vec::with_capacity(alloc, limit.min(MOST_RESERVED))?;
        Ok(LineReader {
            reader,
            chunk: Chunk::new(),
            limit,
            line,
            fault: None,
        })
    }

    /// Lends the bytes of the last line, without its line end, if the last answer of `next` was
    /// `Line::Text`, and otherwise no bytes.
    pub fn line(&self) -> &[u8]
        ensures { result.now ≡ last_line self.now }
    {
        if self.fault.is_some() {
            &[]
        } else {
            self.line.as_slice()
        }
    }

    /// Reads the next line.
    ///
    /// The answers are the lines of the input's bytes, one per call. After a fault, every later
    /// call answers the same fault, and changes nothing.
    pub fn next(&mut self) -> Result<Line, ReadFault>
        ensures known { IsNone (fault_of self.old)
            → IsNextKnown (limit_of self.old) (known_left self.old) result (last_line self.new) (known_left self.new) }
        ensures whole { IsNone (fault_of self.old)
            → LosesNoLine result (known_left self.old) (known_left self.new) }

        // Only a text leaves a line to lend.
        ensures empty { result ≢ Ok Line.Text → last_line self.new ≡ [] }

        // When each fault comes: Device where the last call failed, Interrupted at the 1,000th
        // interrupted call in succession, and NoMemory only where the limit is more than was
        // reserved.
        ensures cause { IsNone (fault_of self.old) → IsTrue R.counts
            → IsReadCause result (failed_calls self.old) (failed_calls self.new) }
        ensures faults { IsNone (fault_of self.old) → IsTrue R.counts → last_faults self.old ≡ []
            → IsReadRun result (last_faults self.new) }
        ensures memory { IsNone (fault_of self.old) → result ≡ Err ReadFault.NoMemory
            → most_reserved < limit_of self.old }

        // A fault stays, and no other call leaves one.
        ensures again { IfSome (fault_of self.old) (λ e. (result ≡ Err e) × (self.new ≡ self.old)) }
        ensures fault { MatchResult result (λ _. fault_of self.new ≡ None)
            (λ e. fault_of self.new ≡ Some e) }
        ensures same { limit_of self.new ≡ limit_of self.old }
    {
        if let Some(fault) = self.fault {
            return Err(fault);
        }
        match self.read_line() {
            Ok(line) => Ok(line),
            Err(fault) => {
                self.fault = Some(fault);
                Err(fault)
            }
        }
    }

    /// Reads one line, where no fault has ended the reading.
    fn read_line(&mut self) -> Result<Line, ReadFault>
        ensures known { IsNextKnown self.old.limit (known_left self.old) result self.new.line.items (known_left self.new) }
        ensures whole { LosesNoLine result (known_left self.old) (known_left self.new) }
        ensures empty { IfOk result (λ line. line ≢ Line.Text → self.new.line.items ≡ []) }
        ensures cause { IsTrue R.counts
            → IsReadCause result (failed_calls self.old) (failed_calls self.new) }
        ensures faults { IsTrue R.counts → last_faults self.old ≡ []
            → IsReadRun result (last_faults self.new) }
        ensures memory { result ≡ Err ReadFault.NoMemory → most_reserved < self.old.limit }
        ensures same { (self.new.limit ≡ self.old.limit) × (self.new.fault ≡ self.old.fault) }
    {
        self.line.clear();
        let mut seen = 0usize;
        'reading: while seen <= self.limit + SLACK {
            if !self.more()? {
                return Ok(self.finish(seen));
            }
            match self.chunk.find_end() {
                Some(end) => {
                    self.take(end)?;
                    self.chunk.advance(1);
                    return self.judge(seen + end);
                }
                None => {
                    let count = self.chunk.len();
                    self.take(count)?;
                    seen += count;
                }
            }
        }
        Err(ReadFault::Endless)
    }

    /// Makes sure that the chunk has bytes: false at the end of the input.
    fn more(&mut self) -> Result<bool, ReadFault>
        ensures some { IfOk result
            (λ more. MatchBool more (0 < length self.new.chunk) (Unit {0})) }
        ensures known { Keeps (known_left self.old) (known_left self.new) }
        ensures known_end { IfOk result (λ more. MatchBool more (Unit {0}) (IsAtEnd (known_left self.new))) }
        ensures cause { IsTrue R.counts → MatchResult result
            (λ _. failed_calls self.old ≤ failed_calls self.new)
            (λ e. IsFaultCause e (failed_calls self.old) (failed_calls self.new)) }
        ensures faults { IsTrue R.counts → last_faults self.old ≡ [] → MatchResult result
            (λ _. last_faults self.new ≡ [])
            (λ e. IsFaultRun e (last_faults self.new)) }
        ensures kinds { IfErr result (λ e. (e ≢ ReadFault.Endless) × (e ≢ ReadFault.NoMemory)) }
        ensures same { (self.new.limit ≡ self.old.limit) × (self.new.line ≡ self.old.line)
            × (self.new.fault ≡ self.old.fault) }
    {
        if self.chunk.is_empty() {
            self.refill()
        } else {
            Ok(true)
        }
    }

    /// Reads into the empty chunk, again if it is interrupted: false at the end of the input.
    fn refill(&mut self) -> Result<bool, ReadFault>
        requires { self.old.chunk ≡ [] }
        ensures some { IfOk result
            (λ more. MatchBool more (0 < length self.new.chunk) (self.new.chunk ≡ [])) }
        ensures known { Consumes (R.remaining self.old.reader) (R.remaining self.new.reader) self.new.chunk }
        ensures known_end { IfOk result (λ more. MatchBool more (Unit {0}) (IsAtEnd (R.remaining self.new.reader))) }
        ensures cause { IsTrue R.counts → MatchResult result
            (λ _. failed_calls self.old ≤ failed_calls self.new)
            (λ e. IsFaultCause e (failed_calls self.old) (failed_calls self.new)) }
        ensures faults { IsTrue R.counts → last_faults self.old ≡ [] → MatchResult result
            (λ _. last_faults self.new ≡ [])
            (λ e. IsFaultRun e (last_faults self.new)) }
        ensures kinds { IfErr result (λ e. (e ≢ ReadFault.Endless) × (e ≢ ReadFault.NoMemory)) }
        ensures same { (self.new.limit ≡ self.old.limit) × (self.new.line ≡ self.old.line)
            × (self.new.fault ≡ self.old.fault) }
    {
        'trying: for _tries in 0..MOST_INTERRUPTIONS {
            match self.chunk.fill(&mut self.reader) {
                Ok(more) => return Ok(more),
                Err(StreamFault::Failed) => return Err(ReadFault::Device),
                Err(StreamFault::Interrupted) => {}
            }
        }
        Err(ReadFault::Interrupted)
    }

    /// Takes bytes of the chunk into the line, as far as the limit allows.
    fn take(&mut self, count: usize) -> Result<(), ReadFault>
        requires within { count ≤ length self.old.chunk }
        requires kept { vec_len self.old.line ≤ self.old.limit }
        ensures line { OnOk result ((text : List ℕ) → self.old.line.items ≡ take self.old.limit text
            → self.new.line.items ≡ take self.old.limit (text ++ take count self.old.chunk)) }
        ensures kept { OnOk result (vec_len self.new.line ≤ self.old.limit) }
        ensures rest { OnOk result (self.new.chunk ≡ drop count self.old.chunk) }
        ensures memory { IfErr result
            (λ e. (e ≡ ReadFault.NoMemory) × (most_reserved < self.old.limit)) }
        ensures kept_chunk { OnErr result (self.new.chunk ≡ self.old.chunk) }
        ensures same { (self.new.limit ≡ self.old.limit) × (self.new.reader ≡ self.old.reader)
            × (self.new.fault ≡ self.old.fault) }
    {
        let limit = self.limit;
        let piece = &self.chunk.as_slice()[..count];
        match keep(&mut self.line, limit, piece) {
            Ok(()) => {
                self.chunk.advance(count);
                Ok(())
            }
            Err(AllocError) => Err(ReadFault::NoMemory),
        }
    }

    /// What a whole line of this length is, after its line end.
    fn judge(&mut self, seen: usize) -> Result<Line, ReadFault>
        ensures short { seen ≤ self.old.limit → (result ≡ Ok Line.Text)
            × (self.new.line.items ≡ self.old.line.items) }
        ensures long { self.old.limit < seen → seen ≤ self.old.limit + slack
            → result ≡ Ok Line.TooLong }
        ensures endless { self.old.limit + slack < seen → result ≡ Err ReadFault.Endless }
        ensures empty { result ≢ Ok Line.Text → self.new.line.items ≡ [] }
        ensures same { (self.new.limit ≡ self.old.limit) × (self.new.reader ≡ self.old.reader)
            × (self.new.chunk ≡ self.old.chunk) × (self.new.fault ≡ self.old.fault) }
    {
        if seen <= self.limit {
            return Ok(Line::Text);
        }
        self.line.clear();
        if seen <= self.limit + SLACK {
            Ok(Line::TooLong)
        } else {
            Err(ReadFault::Endless)
        }
    }

    /// What this many bytes after the last line end are.
    fn finish(&mut self, seen: usize) -> Line
        ensures end { seen ≡ 0 → result ≡ Line.End }
        ensures short { 0 < seen → seen ≤ self.old.limit → result ≡ Line.Unended }
        ensures long { self.old.limit < seen → result ≡ Line.TooLong }
        ensures empty { self.new.line.items ≡ [] }
        ensures same { (self.new.limit ≡ self.old.limit) × (self.new.reader ≡ self.old.reader)
            × (self.new.chunk ≡ self.old.chunk) × (self.new.fault ≡ self.old.fault) }
    {
        self.line.clear();
        if seen == 0 {
            Line::End
        } else if seen <= self.limit {
            Line::Unended
        } else {
            Line::TooLong
        }
    }
}
