//! `import --all`: the script that makes each mount namespace of this machine once.

use crate::PROGRAM;
use crate::fault::Fault;
use crate::namespaces::{Namespaces, named_tables};
use crate::tables::print_script;
use crate::task::WordFault;
use mt_import::host_space::HostSpace;
use mt_import::import::script_of;
use mt_info::print::push_number;
use mt_questions::table::NamedTable;
use mt_terminal::terminal::terminal_text;
use std::alloc::{AllocError, Global};
use std::process::ExitCode;

/// What is said where no namespace may be looked at, or none has a root mount.
const NONE: &str = "no process may be looked at";

/// Appends the comment that says of which process a table is, as text for a terminal.
fn push_table_comment(
    comments: &mut Vec<u8>,
    alloc: Global,
    number: u64,
    name: &[u8],
) -> Result<(), AllocError> {
    comments.extend_from_slice(b"# table ")?;
    push_number(comments, number)?;
    comments.extend_from_slice(b" is that of process ")?;
    comments.extend_from_slice(terminal_text(alloc, name)?.as_slice())?;
    comments.push(b'\n')?;
    Ok(())
}

/// What is imported: the tables, and comments that say of which process each one is.
#[derive(Drop)]
struct Source {
    tables: Vec<HostSpace>,
    comments: Vec<u8>,
}

/// What is imported of namespaces.
fn source_of(alloc: Global, all: Namespaces) -> Result<Source, AllocError> {
    let mut source = Source {
        tables: Vec::new(alloc),
        comments: Vec::new(alloc),
    };
    let mut number = 0u64;
    for table in all.into_tables() {
        let NamedTable {
            name,
            rows,
            is_foreign,
        } = table;
        number = number.saturating_add(1);
        push_table_comment(&mut source.comments, alloc, number, name.as_slice())?;
        source.tables.push(HostSpace { rows, is_foreign })?;
    }
    Ok(source)
}

/// The script that makes the namespaces of tables in a server of this room or a lesser one, printed: the status.
fn print_source(rt: &HostRuntime, source: &Source, room: usize) -> ExitCode {
    let Ok(import) = script_of(rt.alloc(), source.tables.as_slice(), room) else {
        return PROGRAM.fail(rt, Fault::NoMemory.message());
    };
    print_script(rt, &import, source.comments.as_slice())
}

/// Prints the script that makes each mount namespace of this machine once, by the first process whose table has a root
/// mount at `/`, or says why not. Comments say of which process each table is. `room` is the greatest that its server may
/// have.
pub(crate) fn import_machine(rt: &HostRuntime, room: usize) -> ExitCode {
    let all = match named_tables(rt, &["--all"], WordFault::Import) {
        Ok(all) => all,
        Err(status) => return status,
    };
    if all.tables().is_empty() {
        return PROGRAM.refuse(rt, NONE);
    }
    match source_of(rt.alloc(), all) {
        Ok(source) => print_source(rt, &source, room),
        Err(_) => PROGRAM.fail(rt, Fault::NoMemory.message()),
    }
}
