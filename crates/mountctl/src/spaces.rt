//! `spaces`: the namespaces that are there, with the number of their mounts.
ghost use Rattle.std.specs.Prelude.{◌≡◌, None};
ghost use Rattle.mt_lines.specs.Reading.{fault_of};

use crate::fault::Fault;
use crate::server_tables::watched_tables;
use mt_client::relay::print_text;
use mt_events::mirror::Mirror;
use mt_lines::line::LineReader;
use mt_lines::stream::{Input, Output};
use mt_render::named::{SpaceName, name_in};
use mt_render::spaces::space_line;
use mt_render::telling::Telling;
use std::alloc::{AllocError, Global};

/// The lines of the namespaces of tables.
fn listed(
    alloc: Global,
    telling: Telling,
    names: &[SpaceName<'_>],
    tables: &[Mirror],
) -> Result<Vec<u8>, AllocError> {
    let mut text = Vec::new(alloc);
    for table in tables {
        let (space, mounts) = (table.space(), table.table().rows().len() as u64);
        let line = space_line(alloc, telling, space, name_in(names, space), mounts)?;
        text.extend_from_slice(&line)?;
    }
    Ok(text)
}

/// Prints each namespace that a watcher of all finds, with its name among these and the number of its mounts: false where it
/// is refused, which is printed.
pub(crate) fn list_spaces<R: Input + Drop, W: Output, O: Output>(
    alloc: Global,
    telling: Telling,
    names: &[SpaceName<'_>],
    lines: &mut LineReader<R>,
    writer: &mut W,
    out: &mut O,
) -> Result<bool, Fault>
    requires fresh { fault_of lines.old ≡ None }
{
    let Some(tables) = watched_tables(alloc, lines, writer, out)? else {
        return Ok(false);
    };
    let text = listed(alloc, telling, names, tables.as_slice())?;
    print_text(out, text.as_slice())?;
    Ok(true)
}
