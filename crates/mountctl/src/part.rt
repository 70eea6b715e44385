//! `tree` and `dot` with a path: the part of a namespace to which it leads.
ghost use Rattle.std.specs.Prelude.{◌≡◌, None, OnOk};
ghost use Rattle.mt_lines.specs.Reading.{fault_of};

use crate::fault::Fault;
use crate::found::{Look, MOST_TRIES, place_in};
use crate::kept::{Kept, ask_kept};
use crate::lines::tell_bad;
use crate::server_tables::shown_table;
use crate::what_if::line_of;
use mt_client::relay::print_text;
use mt_events::mirror::Mirror;
use mt_info::table::Table;
use mt_lines::line::LineReader;
use mt_lines::stream::{Input, Output};
use mt_lines::words::{Pieces, number};
use mt_mounts::mount::{MountId, SpaceId};
use mt_render::drawing::{Drawing, drawing_text};
use mt_render::named::SpaceName;
use mt_render::part::part_below;
use mt_skel::name::Name;
use mt_skel::names::Names;
use std::alloc::Global;
use std::io::Eprint;

/// What is drawn: the part of a namespace to which a path leads, in a form, with the names of namespaces.
#[derive(Clone, Copy)]
pub(crate) struct Part<'w, 'a> {
    pub(crate) drawing: Drawing,
    pub(crate) space: &'w str,
    pub(crate) path: &'w str,
    pub(crate) names: &'w [SpaceName<'a>],
}

/// The path of a name that is one.
fn with_name(alloc: Global, path: Names, piece: &[u8]) -> Result<Names, Fault> {
    match Name::new(Vec::from_slice(alloc, piece)?) {
        Ok(name) => Ok(path.with(&name)?),
        Err(_) => Err(Fault::Connection),
    }
}

/// The names of a path that leads somewhere.
fn names_of(alloc: Global, path: &str) -> Result<Names, Fault> {
    let mut names = Names::root(alloc);
    let text = path.as_bytes();
    let Some((_slash, behind)) = text.split_first() else {
        return Err(Fault::Connection);
    };
    if behind.is_empty() {
        return Ok(names);
    }
    for piece in Pieces::new(b'/', behind) {
        names = with_name(alloc, names, piece)?;
    }
    Ok(names)
}

/// Prints the part of a table to which the path leads that ends on a mount: false where the mount is not in the table.
fn print_part<O: Output>(
    alloc: Global,
    part: Part<'_, '_>,
    space: SpaceId,
    table: &Table,
    top: MountId,
    out: &mut O,
) -> Result<bool, Fault> {
    let names = names_of(alloc, part.path)?;
    let Some(found) = part_below(table, top, &names)? else {
        return Ok(false);
    };
    let mut parts = Vec::new(alloc);
    parts.push(Mirror::new(space, 0, found))?;
    let text = drawing_text(alloc, part.drawing, part.names, parts.as_slice())?;
    print_text(out, text.as_slice())?;
    Ok(true)
}

/// Looks once for the path by the line that asks for it, and for the table of its namespace.
fn look_once<R: Input + Drop, W: Output, O: Output>(
    alloc: Global,
    part: Part<'_, '_>,
    line: &[u8],
    lines: &mut LineReader<R>,
    writer: &mut W,
    out: &mut O,
) -> Result<Look, Fault>
    requires fresh { fault_of lines.old ≡ None }
    ensures fresh { OnOk result (fault_of lines.new ≡ None) }
{
    let mut found = Kept::new(alloc);
    if !ask_kept(alloc, lines, writer, line, &mut found)? {
        print_text(out, found.text())?;
        return Ok(Look::Refused);
    }
    let Some((id, _directory)) = place_in(found.text()) else {
        return Err(Fault::Connection);
    };
    let (Some(top), Some(space)) = (number(id), number(part.space.as_bytes())) else {
        return Err(Fault::Connection);
    };
    let table = shown_table(alloc, space, lines, writer)?;
    if print_part(alloc, part, space, &table, top, out)? {
        Ok(Look::Found)
    } else {
        Ok(Look::Gone)
    }
}

/// Prints the part of a namespace to which a path leads: false where the path is refused, which is printed.
pub(crate) fn draw_part<E: Eprint, R: Input + Drop, W: Output, O: Output>(
    rt: &E,
    alloc: Global,
    part: Part<'_, '_>,
    lines: &mut LineReader<R>,
    writer: &mut W,
    out: &mut O,
) -> Result<bool, Fault>
    requires fresh { fault_of lines.old ≡ None }
{
    let line = line_of(alloc, &["find", part.space, part.path])?;
    tell_bad(rt, alloc, None, line.as_slice())?;
    'tries: for _try in 0..MOST_TRIES {
        match look_once(alloc, part, line.as_slice(), lines, writer, out)? {
            Look::Found => return Ok(true),
            Look::Refused => return Ok(false),
            Look::Gone => {}
        }
    }
    Err(Fault::Connection)
}
