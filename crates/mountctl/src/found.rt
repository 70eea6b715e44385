//! `find` with `--json`: the mount on which a path ends, with its row.
ghost use Rattle.std.specs.Prelude.{◌≡◌, None, OnOk};
ghost use Rattle.mt_lines.specs.Reading.{fault_of};

use crate::fault::Fault;
use crate::kept::{Kept, ask_kept};
use crate::lines::tell_bad;
use crate::server_tables::shown_table;
use crate::what_if::line_of;
use mt_client::relay::print_text;
use mt_info::row::Row;
use mt_lines::line::LineReader;
use mt_lines::stream::{Input, Output};
use mt_lines::words::{number, words};
use mt_mounts::mount::{MountId, SpaceId};
use mt_render::objects::place_line;
use mt_skel::escape::unescape;
use std::alloc::Global;
use std::io::Eprint;

/// How often a path is looked for whose mount somebody else takes away before its row is read.
pub(crate) const MOST_TRIES: u32 = 1_000;

/// What comes of a look for a path.
#[derive(Clone, Copy)]
pub(crate) enum Look {
    /// It was printed.
    Found,
    /// The refusal was printed.
    Refused,
    /// The mount has gone.
    Gone,
}

/// The mount on which a path ends and the directory, as an answer says them.
pub(crate) fn place_in(answer: &[u8]) -> Option<(&[u8], &[u8])> {
    let mut words = words(answer.strip_prefix(b"ok ")?.strip_suffix(b"\n")?);
    let (Some(id), Some(directory), None) = (words.next(), words.next(), words.next()) else {
        return None;
    };
    Some((id, directory))
}

/// Prints where a path ends.
fn print_place<O: Output>(
    alloc: Global,
    space: SpaceId,
    directory: &[u8],
    row: &Row,
    out: &mut O,
) -> Result<(), Fault> {
    let directory = match unescape(alloc, directory) {
        Ok(directory) => directory,
        Err(fault) => return Err(Fault::of_line(fault)),
    };
    let line = place_line(alloc, space, directory.as_slice(), row)?;
    print_text(out, line.as_slice())?;
    Ok(())
}

/// Prints where a path ends, if the row of its mount is among these: whether it is.
fn print_among<O: Output>(
    alloc: Global,
    space: SpaceId,
    directory: &[u8],
    rows: &[Row],
    id: MountId,
    out: &mut O,
) -> Result<bool, Fault> {
    for row in rows {
        if row.id == id {
            print_place(alloc, space, directory, row, out)?;
            return Ok(true);
        }
    }
    Ok(false)
}

/// Looks once for a path of a namespace by the line that asks for it, and for the row of the mount on which it ends.
fn look_once<R: Input + Drop, W: Output, O: Output>(
    alloc: Global,
    space: &str,
    line: &[u8],
    lines: &mut LineReader<R>,
    writer: &mut W,
    out: &mut O,
) -> Result<Look, Fault>
    requires fresh { fault_of lines.old ≡ None }
    ensures fresh { OnOk result (fault_of lines.new ≡ None) }
{
    let mut found = Kept::new(alloc);
    if !ask_kept(alloc, lines, writer, line, &mut found)? {
        print_text(out, found.text())?;
        return Ok(Look::Refused);
    }
    let Some((id, directory)) = place_in(found.text()) else {
        return Err(Fault::Connection);
    };
    let (Some(id), Some(space)) = (number(id), number(space.as_bytes())) else {
        return Err(Fault::Connection);
    };
    let table = shown_table(alloc, space, lines, writer)?;
    if print_among(alloc, space, directory, table.rows(), id, out)? {
        Ok(Look::Found)
    } else {
        Ok(Look::Gone)
    }
}

/// Prints where a path of a namespace ends as JSON: false where it is refused, which is printed.
pub(crate) fn find_place<E: Eprint, R: Input + Drop, W: Output, O: Output>(
    rt: &E,
    alloc: Global,
    space: &str,
    path: &str,
    lines: &mut LineReader<R>,
    writer: &mut W,
    out: &mut O,
) -> Result<bool, Fault>
    requires fresh { fault_of lines.old ≡ None }
{
    let line = line_of(alloc, &["find", space, path])?;
    tell_bad(rt, alloc, None, line.as_slice())?;
    'tries: for _try in 0..MOST_TRIES {
        match look_once(alloc, space, line.as_slice(), lines, writer, out)? {
            Look::Found => return Ok(true),
            Look::Refused => return Ok(false),
            Look::Gone => {}
        }
    }
    Err(Fault::Connection)
}
