//! One line and its answer, and what is told of a refusal.
ghost use Rattle.std.specs.Prelude.{◌≡◌, None, OnOk};
ghost use Rattle.mt_lines.specs.Reading.{fault_of};

use crate::fault::Fault;
use crate::messages::{tell_reason, tell_refused};
use crate::refusals::{refusal_in, tell_reason_of};
use mt_client::ask::ask_line;
use mt_help::finding::reason_of;
use mt_lines::line::LineReader;
use mt_lines::stream::{Input, Output};
use mt_skel::fault::Fault as Refusal;
use std::alloc::Global;
use std::io::Eprint;

/// Says of a line why it is bad, if it is.
pub(crate) fn tell_bad<E: Eprint>(
    rt: &E,
    alloc: Global,
    number: Option<u64>,
    line: &[u8],
) -> Result<(), Fault> {
    if let Some(reason) = reason_of(alloc, line)? {
        tell_reason(rt, number, reason);
    }
    Ok(())
}

/// Says why a line is refused, where that is known.
fn tell_why<E: Eprint, R: Input + Drop, W: Output>(
    rt: &E,
    alloc: Global,
    number: Option<u64>,
    line: &[u8],
    refusal: Option<Refusal>,
    lines: &mut LineReader<R>,
    writer: &mut W,
) -> Result<(), Fault>
    requires fresh { fault_of lines.old ≡ None }
    ensures fresh { OnOk result (fault_of lines.new ≡ None) }
{
    match refusal {
        Some(refusal) => tell_reason_of(rt, alloc, number, line, refusal, lines, writer),
        None => Ok(()),
    }
}

/// Says of a line of a script that it was refused, by its number, and what else is known of that. The reader lends the refusal.
pub(crate) fn tell_refused_line<E: Eprint, R: Input + Drop, W: Output>(
    rt: &E,
    alloc: Global,
    number: u64,
    line: &[u8],
    lines: &mut LineReader<R>,
    writer: &mut W,
) -> Result<(), Fault>
    requires fresh { fault_of lines.old ≡ None }
    ensures fresh { OnOk result (fault_of lines.new ≡ None) }
{
    tell_refused(rt, number, line, lines.line());
    if lines.line() == b"no BadLine".as_slice() {
        tell_bad(rt, alloc, Some(number), line)?;
    }
    let refusal = refusal_in(lines.line());
    tell_why(rt, alloc, Some(number), line, refusal, lines, writer)
}

/// Sends a line and prints its answer: whether it is `ok`. Why the line is bad is said before it is sent, and behind a refusal what
/// is in the way, unless the connection has ended by then.
pub(crate) fn run_line<E: Eprint, R: Input + Drop, W: Output, O: Output>(
    rt: &E,
    alloc: Global,
    line: &[u8],
    lines: &mut LineReader<R>,
    writer: &mut W,
    out: &mut O,
) -> Result<bool, Fault>
    requires fresh { fault_of lines.old ≡ None }
{
    tell_bad(rt, alloc, None, line)?;
    if ask_line(alloc, lines, writer, line, out)? {
        return Ok(true);
    }
    let refusal = refusal_in(lines.line());
    match tell_why(rt, alloc, None, line, refusal, lines, writer) {
        Ok(()) | Err(Fault::Connection) => Ok(false),
        Err(fault) => Err(fault),
    }
}
