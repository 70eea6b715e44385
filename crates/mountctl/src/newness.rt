//! Whether a server is new: it has accepted no line yet, so that it has no filesystem and no namespace.
//!
//! Questions tell of namespaces, and none tells of filesystems. But the first line that a server accepts makes a
//! filesystem, since all other commands need one, and no number is given twice. So the number of the first filesystem of
//! a script tells whether anything was accepted before it.
ghost use Rattle.std.specs.Prelude.{◌≡◌, None, OnOk};
ghost use Rattle.mt_lines.specs.Reading.{fault_of};

use crate::fault::Fault;
use crate::lines::tell_refused_line;
use crate::quiet::Quiet;
use crate::script::is_comment;
use mt_client::ask::ask_line;
use mt_client::relay::print_text;
use mt_lines::line::LineReader;
use mt_lines::stream::{Input, Output};
use std::alloc::Global;
use std::io::Eprint;

/// The most lines of a script.
const MOST_LINES: u64 = u64::MAX;

/// What came of the first command of a script.
#[derive(Clone, Copy)]
pub(crate) enum Begun<'a> {
    /// The server was new: how many lines of the script are done, and those behind them.
    New(u64, &'a [u8]),
    /// It had accepted something before.
    Used,
    /// It refused, which was printed or told.
    Refused,
}

/// The first command of a script.
#[derive(Clone, Copy)]
struct First<'a> {
    /// The number of its line.
    number: u64,
    line: &'a [u8],
    /// The lines behind it.
    rest: &'a [u8],
}

/// Where the first line of a text ends.
fn line_end(text: &[u8]) -> Option<usize> {
    text.iter().position(|byte| *byte == b'\n')
}

/// The first line of a text, and what stands behind its line end.
fn first_line(text: &[u8]) -> Option<(&[u8], &[u8])> {
    let (line, behind) = text.split_at_checked(line_end(text)?)?;
    Some((line, behind.strip_prefix(b"\n")?))
}

/// The first command of a script, if it has one.
fn first_command(script: &[u8]) -> Option<First<'_>> {
    let mut text = script;
    'lines: for before in 0..MOST_LINES {
        let (line, rest) = first_line(text)?;
        if !is_comment(line) {
            return Some(First {
                number: before + 1,
                line,
                rest,
            });
        }
        text = rest;
    }
    None
}

/// Whether a server has no namespace, or None where that is refused, which is printed.
fn has_no_space<R: Input + Drop, W: Output, O: Output>(
    alloc: Global,
    lines: &mut LineReader<R>,
    writer: &mut W,
    out: &mut O,
) -> Result<Option<bool>, Fault>
    requires fresh { fault_of lines.old ≡ None }
    ensures fresh { OnOk result (fault_of lines.new ≡ None) }
{
    if !ask_line(alloc, lines, writer, b"watch all", &mut Quiet)? {
        print_text(out, lines.line())?;
        print_text(out, b"\n")?;
        return Ok(None);
    }
    let is_empty = lines.line() == b"ok 0".as_slice();
    let _closed = ask_line(alloc, lines, writer, b"close", &mut Quiet)?;
    Ok(Some(is_empty))
}

/// Sends the first command of a script, which makes a filesystem.
fn begin_with<'a, E: Eprint, R: Input + Drop, W: Output>(
    rt: &E,
    alloc: Global,
    first: First<'a>,
    lines: &mut LineReader<R>,
    writer: &mut W,
) -> Result<Begun<'a>, Fault>
    requires fresh { fault_of lines.old ≡ None }
    ensures fresh { OnOk result (fault_of lines.new ≡ None) }
{
    if ask_line(alloc, lines, writer, first.line, &mut Quiet)? {
        if lines.line() == b"ok 1".as_slice() {
            return Ok(Begun::New(first.number, first.rest));
        }
        return Ok(Begun::Used);
    }
    if lines.line() == b"no FilesystemExists".as_slice() {
        return Ok(Begun::Used);
    }
    tell_refused_line(rt, alloc, first.number, first.line, lines, writer)?;
    Ok(Begun::Refused)
}

/// Sends a new server the first command of a script.
///
/// One that has a namespace is asked alone, and stays as it is, and so does one that has a filesystem of this name. One
/// that has others alone, or had a namespace, has one filesystem more then.
pub(crate) fn begin_script<'a, E: Eprint, R: Input + Drop, W: Output, O: Output>(
    rt: &E,
    alloc: Global,
    script: &'a [u8],
    lines: &mut LineReader<R>,
    writer: &mut W,
    out: &mut O,
) -> Result<Begun<'a>, Fault>
    requires fresh { fault_of lines.old ≡ None }
    ensures fresh { OnOk result (fault_of lines.new ≡ None) }
{
    match has_no_space(alloc, lines, writer, out)? {
        Some(true) => {}
        Some(false) => return Ok(Begun::Used),
        None => return Ok(Begun::Refused),
    }
    match first_command(script) {
        Some(first) => begin_with(rt, alloc, first, lines, writer),
        None => Ok(Begun::New(0, script)),
    }
}
