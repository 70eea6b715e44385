//! Standard output: a terminal is given text that it does not obey, and anything else the bytes as they are.
ghost use Rattle.std.specs.Prelude.{◌≡◌, length, IfOk};
ghost use Rattle.mountctl.specs.Screens.{shown_lines};

use crate::PROGRAM;
use crate::fault::Fault;
use mt_lines::stream::{Output, StreamFault, Writing, send};
use mt_lines::words::Pieces;
use mt_terminal::terminal::terminal_text;
use std::alloc::{AllocError, Global};
use std::io;
use std::io::{IsTerminal, Printer};
use std::process::ExitCode;

/// An output of whole lines, which may be a terminal.
#[derive(Drop)]
pub(crate) struct Screen<O> {
    alloc: Global,
    is_terminal: bool,
    out: O,
}

/// Standard output.
pub(crate) fn standard_output(rt: &HostRuntime) -> Screen<Writing<Printer<'_, HostRuntime>>> {
    Screen {
        alloc: rt.alloc(),
        is_terminal: rt.stdout().is_terminal(),
        out: Writing::new(io::writer(rt)),
    }
}

/// Whether standard input and output are a terminal.
pub(crate) fn is_at_terminal(rt: &HostRuntime) -> bool {
    rt.stdin().is_terminal() && rt.stdout().is_terminal()
}

/// Prints a text, and answers a status, or says that the text did not go out.
pub(crate) fn print_out(rt: &HostRuntime, text: &[u8], status: u8) -> ExitCode {
    let mut out = standard_output(rt);
    match send(&mut out, text) {
        Ok(()) => ExitCode::from(status),
        Err(_) => PROGRAM.fail(rt, Fault::Output.message()),
    }
}

/// Lines as a terminal is given them. Fails for want of memory alone.
fn shown_lines(alloc: Global, lines: &[u8]) -> Result<Vec<u8>, AllocError>
    ensures { IfOk result (λ text. text.items ≡ shown_lines lines.now) }
{
    let mut pieces = Pieces::new(b'\n', lines);
    let Some(first) = pieces.next() else {
        return Ok(Vec::new(alloc));
    };
    let mut text = terminal_text(alloc, first)?;
    'lines: while let Some(line) = pieces.next() {
        text.push(b'\n')?;
        text.extend_from_slice(&terminal_text(alloc, line)?)?;
    }
    Ok(text)
}

impl<O: Output + Drop> Screen<O> {
    ghost use Rattle.std.specs.Prelude.{true};
    ghost use Rattle.mountctl.specs.Screens.{HasShown};

    /// Gives a terminal all the bytes, as such lines.
    fn show(&mut self, bytes: &[u8]) -> Result<usize, StreamFault>
        ensures whole { IfOk result (λ count. count ≡ length bytes.now) }
        ensures shown { HasShown true (O.contents self.old.out) (O.contents self.new.out) result bytes.now }
        ensures same { self.new.is_terminal ≡ self.old.is_terminal }
    {
        let Ok(text) = shown_lines(self.alloc, bytes) else {
            return Err(StreamFault::Failed);
        };
        match send(&mut self.out, text.as_slice()) {
            Ok(()) => Ok(bytes.len()),
            Err(_) => Err(StreamFault::Failed),
        }
    }
}

impl<O: Output + Drop> Output for Screen<O> {
    ghost use Rattle.std.specs.Prelude.{◌≡◌, ◌≤◌, [], length, cond, true, false, None, IfOk};
    ghost use Rattle.std.specs.Io.KnownBytes.{WriteAppends};
    ghost use Rattle.mountctl.specs.Screens.{HasShown};

    ghost counts = { false };

    ghost contents = { λ q. cond q.is_terminal None (O.contents q.out) };

    ghost failed = { λ q. 0 };

    ghost faults = { λ q. [] };

    /// Takes all the bytes for a terminal, and else as many as the output takes. Each write is a text by itself: of a character
    /// that is cut between two, a terminal is given each half in hexadecimal digits. Fails where the output does, and where
    /// there is no memory for what a terminal is given.
    fn write(&mut self, bytes: &[u8]) -> Result<usize, StreamFault>
        ensures bound { IfOk result (λ count. count ≤ length bytes.now) }
        ensures known { WriteAppends (cond self.old.is_terminal None (O.contents self.old.out)) (cond self.new.is_terminal None (O.contents self.new.out)) result bytes.now }
        ensures whole { self.old.is_terminal ≡ true → IfOk result (λ count. count ≡ length bytes.now) }
        ensures shown { HasShown self.old.is_terminal (O.contents self.old.out) (O.contents self.new.out) result bytes.now }
        ensures same { self.new.is_terminal ≡ self.old.is_terminal }
    {
        if self.is_terminal {
            self.show(bytes)
        } else {
            self.out.write(bytes)
        }
    }
}
