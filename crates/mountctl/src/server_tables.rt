//! The tables of a server: those of all namespaces, which a watcher finds, and that of one, which the server shows.
ghost use Rattle.std.specs.Prelude.{◌≡◌, None, OnOk};
ghost use Rattle.mt_lines.specs.Reading.{fault_of};

use crate::fault::Fault;
use crate::kept::{Kept, ask_kept};
use mt_client::watch::watch;
use mt_events::mirror::Mirror;
use mt_events::opening::Scope;
use mt_info::print::push_number;
use mt_info::read::read_row;
use mt_info::table::Table;
use mt_lines::line::LineReader;
use mt_lines::stream::{Input, Output};
use mt_lines::words::Pieces;
use mt_mounts::mount::SpaceId;
use mt_protocol::verb::Verb;
use mt_reach::row::SeenRow;
use std::alloc::{AllocError, Global};

/// The tables of all namespaces, by rising number, or `None` where the server refuses to tell them, which is printed. The
/// session has a watcher then.
pub(crate) fn watched_tables<R: Input + Drop, W: Output, O: Output>(
    alloc: Global,
    lines: &mut LineReader<R>,
    writer: &mut W,
    out: &mut O,
) -> Result<Option<Vec<Mirror>>, Fault>
    requires fresh { fault_of lines.old ≡ None }
    ensures fresh { OnOk result (fault_of lines.new ≡ None) }
{
    match watch(alloc, lines, writer, Scope::All, out) {
        Ok(tables) => Ok(tables),
        Err(fault) => Err(Fault::from(fault)),
    }
}

/// The line that asks for the table of a namespace. Fails for want of memory alone.
fn show_line(alloc: Global, space: SpaceId) -> Result<Vec<u8>, AllocError> {
    let mut line = Vec::new(alloc);
    line.extend_from_slice(Verb::Show.word())?;
    line.extend_from_slice(b" ")?;
    push_number(&mut line, space)?;
    Ok(line)
}

/// The table whose rows are the lines behind the first one of an answer.
fn table_in(alloc: Global, answer: &[u8]) -> Result<Table, Fault> {
    let mut rows = Vec::new(alloc);
    let mut lines = Pieces::new(b'\n', answer);
    let _told = lines.next();
    for line in lines {
        if !line.is_empty() {
            match read_row(alloc, line) {
                Ok(row) => rows.push(row)?,
                Err(fault) => return Err(Fault::of_line(fault)),
            }
        }
    }
    Table::from_rows(rows).ok_or(Fault::Connection)
}

/// The table of a namespace, which is empty where that is gone.
pub(crate) fn shown_table<R: Input + Drop, W: Output>(
    alloc: Global,
    space: SpaceId,
    lines: &mut LineReader<R>,
    writer: &mut W,
) -> Result<Table, Fault>
    requires fresh { fault_of lines.old ≡ None }
    ensures fresh { OnOk result (fault_of lines.new ≡ None) }
{
    let mut shown = Kept::new(alloc);
    let show = show_line(alloc, space)?;
    if ask_kept(alloc, lines, writer, show.as_slice(), &mut shown)? {
        table_in(alloc, shown.text())
    } else {
        table_in(alloc, b"")
    }
}

/// Appends the rows of the table of a namespace.
pub(crate) fn push_rows(
    alloc: Global,
    rows: &mut Vec<SeenRow>,
    space: SpaceId,
    table: &Table,
) -> Result<(), Fault> {
    for row in table.rows() {
        match SeenRow::of(space, row, alloc) {
            Ok(row) => rows.push(row)?,
            Err(fault) => return Err(Fault::of_line(fault)),
        }
    }
    Ok(())
}

/// The rows of tables, in their order.
pub(crate) fn rows_of(alloc: Global, tables: &[Mirror]) -> Result<Vec<SeenRow>, Fault> {
    let mut rows = Vec::new(alloc);
    for table in tables {
        push_rows(alloc, &mut rows, table.space(), table.table())?;
    }
    Ok(rows)
}
