//! The lines of a trace, of which some may be looked at before they are taken.

use mt_lines::line::{Line, LineReader, ReadFault};
use mt_lines::stream::Input;
use std::alloc::{AllocError, Global};
use std::collections::VecDeque;

/// How many lines are looked at before they are taken, by this project's rule.
pub const MOST_AHEAD: usize = 1_024;

/// A line of a trace.
#[derive(Drop)]
pub enum TraceLine {
    /// Its bytes, without the line end.
    Text(Vec<u8>),
    /// It has more bytes than a line may have.
    TooLong,
    /// The last bytes have no line end.
    Unended,
}

/// What has lines that may be looked at before they are taken.
pub trait Ahead {
    /// The bytes of the line that stands so many lines behind the next one, if it is one, is there and is not too far.
    fn line_ahead(&mut self, place: usize) -> Option<&[u8]>;
}

/// The lines of an input, in order.
#[derive(Drop)]
pub struct Feed<R: Input + Drop> {
    alloc: Global,
    lines: LineReader<R>,
    parked: VecDeque<TraceLine>,
    fault: Option<ReadFault>,
    is_over: bool,
}

impl<R: Input + Drop> Feed<R> {
    /// The lines of an input that may have so many bytes. Fails for want of memory alone.
    pub fn new(alloc: Global, input: R, limit: u32) -> Result<Feed<R>, AllocError> {
        Ok(Feed {
            alloc,
            lines: LineReader::new(alloc, input, limit)?,
            parked: VecDeque::new(alloc),
            fault: None,
            is_over: false,
        })
    }

    /// Reads the next line. `None` at the end of the input.
    fn read(&mut self) -> Result<Option<TraceLine>, ReadFault> {
        match self.lines.next()? {
            Line::Text => match Vec::from_slice(self.alloc, self.lines.line()) {
                Ok(bytes) => Ok(Some(TraceLine::Text(bytes))),
                Err(_) => Err(ReadFault::NoMemory),
            },
            Line::TooLong => Ok(Some(TraceLine::TooLong)),
            Line::Unended => Ok(Some(TraceLine::Unended)),
            Line::End => Ok(None),
        }
    }

    /// Takes the next line. `None` at the end of the input. Fails as the input does.
    pub fn take(&mut self) -> Result<Option<TraceLine>, ReadFault> {
        if let Some(line) = self.parked.pop_front() {
            return Ok(Some(line));
        }
        if let Some(fault) = self.fault {
            return Err(fault);
        }
        if self.is_over {
            return Ok(None);
        }
        self.read()
    }

    /// Reads one more line, to be taken later: whether there was one.
    fn park(&mut self) -> bool {
        if self.is_over || self.fault.is_some() {
            return false;
        }
        match self.read() {
            Ok(Some(line)) => self.keep(line),
            Ok(None) => {
                self.is_over = true;
                false
            }
            Err(fault) => {
                self.fault = Some(fault);
                false
            }
        }
    }

    /// Keeps a line that was read.
    fn keep(&mut self, line: TraceLine) -> bool {
        match self.parked.push_back(line) {
            Ok(()) => true,
            Err(_) => {
                self.fault = Some(ReadFault::NoMemory);
                false
            }
        }
    }
}

impl<R: Input + Drop> Ahead for Feed<R> {
    fn line_ahead(&mut self, place: usize) -> Option<&[u8]> {
        if place >= MOST_AHEAD {
            return None;
        }
        for _line in self.parked.len()..=place {
            if !self.park() {
                return None;
            }
        }
        match self.parked.get(place) {
            Some(TraceLine::Text(bytes)) => Some(bytes.as_slice()),
            Some(TraceLine::TooLong | TraceLine::Unended) => Some(b""),
            None => None,
        }
    }
}
