//! The session that a page plays, as it stands on standard input.

use crate::fault::Fault;
use mt_lines::line::{Line, LineReader};
use mt_lines::stream::Input;
use mt_render::page_data::Step;
use mt_render::page_name::{GivenName, given_name};
use mt_render::page_session::{Role, push_comment, role_of};
use std::alloc::{AllocError, AllocFailed, Global};
use std::mem;

/// The most lines of a session.
const MOST_LINES: u64 = u64::MAX;

/// A session that was read.
#[derive(Drop)]
pub(crate) struct Played {
    /// A step for each of its lines, of which nothing is known yet but the line and its note; one that is not sent has its
    /// answer.
    pub(crate) steps: Vec<Step>,
    /// The names that its comments give to namespaces.
    pub(crate) names: Vec<GivenName>,
    /// What comments say behind the last line.
    pub(crate) note: Vec<u8>,
}

/// Why no session was read.
#[derive(Clone, Copy)]
pub(crate) enum PlayedFault {
    /// The line of this number is about a watcher.
    Watcher(u64),
    /// Standard input could not be read, or there is no memory.
    Failed(Fault),
}

impl From<AllocError> for PlayedFault {
    fn from(_error: AllocError) -> PlayedFault {
        PlayedFault::Failed(Fault::NoMemory)
    }
}

impl<T: Drop> From<AllocFailed<T>> for PlayedFault {
    fn from(_error: AllocFailed<T>) -> PlayedFault {
        PlayedFault::Failed(Fault::NoMemory)
    }
}

/// A step of which nothing is known.
pub(crate) fn empty_step(alloc: Global) -> Step {
    Step {
        line: Vec::new(alloc),
        answer: Vec::new(alloc),
        reason: Vec::new(alloc),
        note: Vec::new(alloc),
        changes: Vec::new(alloc),
    }
}

impl Played {
    /// No line yet.
    fn new(alloc: Global) -> Played {
        Played {
            steps: Vec::new(alloc),
            names: Vec::new(alloc),
            note: Vec::new(alloc),
        }
    }

    /// Adds a comment: a name, or what is told of the next line.
    fn add_comment(&mut self, alloc: Global, line: &[u8]) -> Result<(), PlayedFault> {
        match given_name(alloc, line)? {
            Some(name) => self.names.push(name)?,
            None => push_comment(&mut self.note, line)?,
        }
        Ok(())
    }

    /// Adds a line, with its answer where it is not sent.
    fn add_line(&mut self, alloc: Global, line: &[u8], answer: &[u8]) -> Result<(), PlayedFault> {
        let mut step = empty_step(alloc);
        step.line.extend_from_slice(line)?;
        step.answer.extend_from_slice(answer)?;
        step.note = mem::replace(&mut self.note, Vec::new(alloc));
        self.steps.push(step)?;
        Ok(())
    }

    /// Adds what a line of this number is: whether the session goes on.
    fn add(&mut self, alloc: Global, number: u64, line: &[u8]) -> Result<bool, PlayedFault> {
        match role_of(line) {
            Role::Comment => self.add_comment(alloc, line)?,
            Role::Line => self.add_line(alloc, line, b"")?,
            Role::Watcher => return Err(PlayedFault::Watcher(number)),
            Role::End => return Ok(false),
        }
        Ok(true)
    }
}

/// Reads a session: the lines of an input, up to one that ends it.
pub(crate) fn read_played<I: Input + Drop>(
    alloc: Global,
    input: &mut LineReader<I>,
) -> Result<Played, PlayedFault> {
    let mut played = Played::new(alloc);
    'lines: for before in 0..MOST_LINES {
        match input.next() {
            Ok(Line::Text) => {
                if !played.add(alloc, before + 1, input.line())? {
                    return Ok(played);
                }
            }
            Ok(Line::TooLong) => played.add_line(alloc, b"", b"no TooLong")?,
            Ok(Line::Unended) => {
                played.add_line(alloc, b"", b"no BadLine")?;
                return Ok(played);
            }
            Ok(Line::End) => return Ok(played),
            Err(fault) => return Err(PlayedFault::Failed(Fault::of_input(fault))),
        }
    }
    Ok(played)
}
