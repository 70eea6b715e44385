//! An output that marks the lines that it takes: with their time, and refusals as JSON.

use crate::fault::Fault;
use jiff::Timestamp;
use mt_lines::stream::{Output, StreamFault, send};
use mt_render::stamp::{refusal_line, timed_line};
use mt_render::telling::Telling;
use std::alloc::Global;
use std::time::Clock;

/// What is done to each line.
#[derive(Clone, Copy)]
pub(crate) struct Marks {
    /// How lines are told: beside JSON a refusal is an object too.
    pub(crate) telling: Telling,
    /// Whether each line has its time.
    pub(crate) time: bool,
}

/// Marks lines, and hands each on once it is whole.
#[derive(Drop)]
pub(crate) struct Marked<'a, C, O> {
    clock: &'a C,
    alloc: Global,
    marks: Marks,
    /// What was taken of a line that has not ended.
    begun: Vec<u8>,
    /// Whether there was no memory for a line.
    is_short: bool,
    out: O,
}

impl<'a, C: Clock, O: Output + Drop> Marked<'a, C, O> {
    /// Marks lines for an output.
    pub(crate) fn new(clock: &'a C, alloc: Global, marks: Marks, out: O) -> Marked<'a, C, O> {
        Marked {
            clock,
            alloc,
            marks,
            begun: Vec::new(alloc),
            is_short: false,
            out,
        }
    }

    /// Why a run did not end with an answer that printed to this output.
    pub(crate) fn fault(&self, fault: Fault) -> Fault {
        match fault {
            Fault::Output if self.is_short => Fault::NoMemory,
            fault => fault,
        }
    }

    /// The time of the clock, to a thousandth of a second, in UTC (RFC 3339).
    fn time(&self) -> Result<String, Fault> {
        match Timestamp::now(self.clock) {
            Ok(now) => Ok(format!(in self.alloc; "{now:.3}")?),
            Err(_) => Err(Fault::Output),
        }
    }

    /// The line that was taken, or the object of a refusal beside JSON.
    fn told_line(&self) -> Result<Vec<u8>, Fault> {
        let line = self.begun.as_slice();
        let told = match line.strip_prefix(b"no ") {
            Some(name) if self.marks.telling == Telling::Json => {
                refusal_line(self.alloc, name.strip_suffix(b"\n").unwrap_or(name))?
            }
            _ => Vec::from_slice(self.alloc, line)?,
        };
        Ok(told)
    }

    /// Hands on the line that was taken, with its time where it has one.
    fn pass_line(&mut self) -> Result<(), Fault> {
        let mut line = self.told_line()?;
        if self.marks.time {
            let time = self.time()?;
            line = timed_line(
                self.alloc,
                self.marks.telling,
                time.as_bytes(),
                line.as_slice(),
            )?;
        }
        self.begun.clear();
        match send(&mut self.out, line.as_slice()) {
            Ok(()) => Ok(()),
            Err(_) => Err(Fault::Output),
        }
    }

    /// Takes bytes, and hands on each line that they end.
    fn take(&mut self, bytes: &[u8]) -> Result<(), Fault> {
        for byte in bytes {
            self.begun.push(*byte)?;
            if *byte == b'\n' {
                self.pass_line()?;
            }
        }
        Ok(())
    }
}

impl<'a, C: Clock, O: Output + Drop> Output for Marked<'a, C, O> {
    ghost use Rattle.std.specs.Prelude.{[], None, false};

    ghost counts = { false };

    ghost contents = { λ q. None };

    ghost failed = { λ q. 0 };

    ghost faults = { λ q. [] };

    /// Takes all the bytes. Fails where the output does, where the clock cannot be read, and for want of memory.
    fn write(&mut self, bytes: &[u8]) -> Result<usize, StreamFault> {
        match self.take(bytes) {
            Ok(()) => Ok(bytes.len()),
            Err(fault) => {
                self.is_short = matches!(fault, Fault::NoMemory);
                Err(StreamFault::Failed)
            }
        }
    }
}
