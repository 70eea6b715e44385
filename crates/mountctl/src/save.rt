//! `save`: the session that makes the world of a server, which are the commands that it has accepted.
ghost use Rattle.std.specs.Prelude.{◌≡◌, None, OnOk};
ghost use Rattle.mt_lines.specs.Reading.{fault_of};

use crate::fault::Fault;
use crate::kept::{Kept, ask_kept};
use mt_client::relay::print_text;
use mt_info::print::push_number;
use mt_lines::line::LineReader;
use mt_lines::stream::{Input, Output};
use mt_lines::words::{Pieces, number};
use mt_protocol::verb::Verb;
use std::alloc::{AllocError, Global};

/// How many commands are asked for at once, the most that may be.
const MOST_AT_ONCE: u64 = 1_024;

/// How often commands are asked for at most.
const MOST_TIMES: u64 = u64::MAX;

/// What comes of asking for commands.
#[derive(Drop)]
enum Asked {
    /// So many were printed.
    Printed(u64),
    /// It was refused, with this line.
    Refused(Kept),
}

/// The line that asks for the commands from the one of a number on. Fails for want of memory alone.
fn journal_line(alloc: Global, from: u64) -> Result<Vec<u8>, AllocError> {
    let mut line = Vec::new(alloc);
    line.extend_from_slice(Verb::Journal.word())?;
    line.extend_from_slice(b" ")?;
    push_number(&mut line, from)?;
    line.extend_from_slice(b" ")?;
    push_number(&mut line, MOST_AT_ONCE)?;
    Ok(line)
}

/// How many commands an answer has, and their lines.
fn listed_in(answer: &[u8]) -> Option<(u64, &[u8])> {
    let first = Pieces::new(b'\n', answer).next()?;
    let count = number(first.strip_prefix(b"ok ")?)?;
    let lines = answer.get(first.len().saturating_add(1)..)?;
    Some((count, lines))
}

/// Asks for the commands from the one of a number on, and prints their lines.
fn save_next<R: Input + Drop, W: Output, O: Output>(
    alloc: Global,
    from: u64,
    lines: &mut LineReader<R>,
    writer: &mut W,
    out: &mut O,
) -> Result<Asked, Fault>
    requires fresh { fault_of lines.old ≡ None }
    ensures fresh { OnOk result (fault_of lines.new ≡ None) }
{
    let mut answer = Kept::new(alloc);
    let line = journal_line(alloc, from)?;
    if !ask_kept(alloc, lines, writer, line.as_slice(), &mut answer)? {
        return Ok(Asked::Refused(answer));
    }
    let Some((count, commands)) = listed_in(answer.text()) else {
        return Err(Fault::Connection);
    };
    print_text(out, commands)?;
    Ok(Asked::Printed(count))
}

/// Prints the commands that a server has accepted, as lines: `None`, or the line that refuses to tell them.
pub(crate) fn save<R: Input + Drop, W: Output, O: Output>(
    alloc: Global,
    lines: &mut LineReader<R>,
    writer: &mut W,
    out: &mut O,
) -> Result<Option<Kept>, Fault>
    requires fresh { fault_of lines.old ≡ None }
{
    let mut from = 1u64;
    'times: for _time in 0..MOST_TIMES {
        match save_next(alloc, from, lines, writer, out)? {
            Asked::Printed(MOST_AT_ONCE) => from = from.saturating_add(MOST_AT_ONCE),
            Asked::Printed(_) => return Ok(None),
            Asked::Refused(refusal) => return Ok(Some(refusal)),
        }
    }
    Ok(None)
}

/// Prints the commands that a server has accepted, as lines: false where it refuses to tell them, which is printed.
pub(crate) fn print_saved<R: Input + Drop, W: Output, O: Output>(
    alloc: Global,
    lines: &mut LineReader<R>,
    writer: &mut W,
    out: &mut O,
) -> Result<bool, Fault>
    requires fresh { fault_of lines.old ≡ None }
{
    match save(alloc, lines, writer, out)? {
        None => Ok(true),
        Some(refusal) => {
            print_text(out, refusal.text())?;
            Ok(false)
        }
    }
}
