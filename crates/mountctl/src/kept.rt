//! An output that keeps what it takes.
ghost use Rattle.std.specs.Prelude.{◌≡◌, [], None, OnOk};
ghost use Rattle.mt_lines.specs.Reading.{fault_of};
ghost use Rattle.mountctl.specs.Played.{kept_text};

use crate::fault::Fault;
use mt_client::ask::ask_line;
use mt_client::fault::ClientFault;
use mt_lines::line::LineReader;
use mt_lines::stream::{Input, Output, StreamFault};
use std::alloc::Global;

/// The text of an answer, which is not printed.
#[derive(Drop)]
pub(crate) struct Kept {
    text: Vec<u8>,
}

impl Kept {
    /// No text yet.
    pub(crate) fn new(alloc: Global) -> Kept
        ensures { kept_text result ≡ [] }
    {
        Kept {
            text: Vec::new(alloc),
        }
    }

    /// All that was taken.
    pub(crate) fn text(&self) -> &[u8] {
        self.text.as_slice()
    }

    /// The text itself.
    pub(crate) fn into_text(self) -> Vec<u8>
        ensures { result.items ≡ kept_text self }
    {
        self.text
    }
}

impl Output for Kept {
    ghost use Rattle.std.specs.Prelude.{[], Some, false};

    ghost counts = { false };

    ghost contents = { λ q. Some q.text.items };

    ghost failed = { λ q. 0 };

    ghost faults = { λ q. [] };

    /// Takes all the bytes, and fails for want of memory alone.
    fn write(&mut self, bytes: &[u8]) -> Result<usize, StreamFault> {
        match self.text.extend_from_slice(bytes) {
            Ok(()) => Ok(bytes.len()),
            Err(_) => Err(StreamFault::Failed),
        }
    }
}

/// Sends a line and keeps its answer: whether it is `ok`.
pub(crate) fn ask_kept<R: Input + Drop, W: Output>(
    alloc: Global,
    lines: &mut LineReader<R>,
    writer: &mut W,
    line: &[u8],
    kept: &mut Kept,
) -> Result<bool, Fault>
    requires fresh { fault_of lines.old ≡ None }
    ensures fresh { OnOk result (fault_of lines.new ≡ None) }
{
    match ask_line(alloc, lines, writer, line, kept) {
        Ok(told) => Ok(told),
        Err(ClientFault::Output) => Err(Fault::NoMemory),
        Err(fault) => Err(Fault::from(fault)),
    }
}
