//! Which component of a path is not there, as the server finds it behind the refusal.
ghost use Rattle.std.specs.Prelude.{◌≡◌, None, OnOk};
ghost use Rattle.mt_lines.specs.Reading.{fault_of};

use crate::fault::Fault;
use crate::kept::{Kept, ask_kept};
use mt_book::command::Command;
use mt_info::print::{push_names, push_number};
use mt_lines::line::LineReader;
use mt_lines::stream::{Input, Output};
use mt_mounts::mount::SpaceId;
use mt_protocol::verb::Verb;
use mt_refused::asked::{Which, asked_path};
use mt_skel::name::Name;
use std::alloc::{AllocError, Global};

/// How often a path is halved at most.
const MOST_HALVES: u32 = 16;

/// The path of a command that is not there, and how many of its names are.
#[derive(Clone, Copy)]
pub(crate) struct Missing {
    pub(crate) which: Which,
    pub(crate) there: usize,
}

/// The line that asks where names lead. Fails for want of memory alone.
fn find_line(alloc: Global, space: SpaceId, names: &[Name]) -> Result<Vec<u8>, AllocError> {
    let mut line = Vec::new(alloc);
    line.extend_from_slice(Verb::Find.word())?;
    line.extend_from_slice(b" ")?;
    push_number(&mut line, space)?;
    line.extend_from_slice(b" ")?;
    push_names(&mut line, names)?;
    Ok(line)
}

/// Whether names lead to a directory of a namespace.
fn are_there<R: Input + Drop, W: Output>(
    alloc: Global,
    space: SpaceId,
    names: &[Name],
    lines: &mut LineReader<R>,
    writer: &mut W,
) -> Result<bool, Fault>
    requires fresh { fault_of lines.old ≡ None }
    ensures fresh { OnOk result (fault_of lines.new ≡ None) }
{
    let mut found = Kept::new(alloc);
    let line = find_line(alloc, space, names)?;
    ask_kept(alloc, lines, writer, line.as_slice(), &mut found)
}

/// How many of the first names lead to a directory, where all of them lead to none.
fn count_there<R: Input + Drop, W: Output>(
    alloc: Global,
    space: SpaceId,
    names: &[Name],
    lines: &mut LineReader<R>,
    writer: &mut W,
) -> Result<usize, Fault>
    requires fresh { fault_of lines.old ≡ None }
    ensures fresh { OnOk result (fault_of lines.new ≡ None) }
{
    let mut there = 0usize;
    let mut missing = names.len();
    'halves: for _half in 0..MOST_HALVES {
        let middle = there.midpoint(missing);
        let Some(front) = names.get(..middle) else {
            return Ok(there);
        };
        if middle == there {
            return Ok(there);
        }
        if are_there(alloc, space, front, lines, writer)? {
            there = middle;
        } else {
            missing = middle;
        }
    }
    Ok(there)
}

/// How many names of a path of a command are there; none where all are, or it has no such path.
fn missing_of<R: Input + Drop, W: Output>(
    alloc: Global,
    space: SpaceId,
    command: &Command,
    which: Which,
    lines: &mut LineReader<R>,
    writer: &mut W,
) -> Result<Option<Missing>, Fault>
    requires fresh { fault_of lines.old ≡ None }
    ensures fresh { OnOk result (fault_of lines.new ≡ None) }
{
    let Some(path) = asked_path(command, which) else {
        return Ok(None);
    };
    let names = match path.to_vec() {
        Ok(names) => names,
        Err(fault) => return Err(Fault::of_line(fault)),
    };
    if are_there(alloc, space, names.as_slice(), lines, writer)? {
        return Ok(None);
    }
    let there = count_there(alloc, space, names.as_slice(), lines, writer)?;
    Ok(Some(Missing { which, there }))
}

/// The first path of a command that is not there, as the server finds it; none where somebody else has made it.
pub(crate) fn missing_in<R: Input + Drop, W: Output>(
    alloc: Global,
    space: SpaceId,
    command: &Command,
    lines: &mut LineReader<R>,
    writer: &mut W,
) -> Result<Option<Missing>, Fault>
    requires fresh { fault_of lines.old ≡ None }
    ensures fresh { OnOk result (fault_of lines.new ≡ None) }
{
    let first = missing_of(alloc, space, command, Which::First, lines, writer)?;
    if first.is_some() {
        return Ok(first);
    }
    missing_of(alloc, space, command, Which::Second, lines, writer)
}
