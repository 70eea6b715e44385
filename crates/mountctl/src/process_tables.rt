//! The tables of running processes, each with the name of its namespace.

use crate::messages::NAME;
use crate::namespaces::{Lack, Namespaces, number_of, table_at};
use crate::processes::{
    ProcessFile, every_process, is_foreign, is_gone, namespace_of, process_name, user_namespace_of,
};
use crate::tables::TableFault;
use mt_import::host_mount::HostMount;
use mt_lines::words::number;
use mt_questions::table::NamedTable;
use std::io::ErrorKind;

/// A mount namespace that was met: what the system calls it and the user namespace of its process, if that is told, and the
/// place of its table.
#[derive(Drop)]
struct Met {
    namespace: String,
    user: Option<String>,
    place: usize,
}

/// The place of the table of a namespace that was met.
fn met_place(met: &[Met], namespace: &str) -> Option<usize> {
    let one = met.iter().find(|one| one.namespace.as_str() == namespace)?;
    Some(one.place)
}

/// Whether the user namespace of a process is another one than that of the first table, if there is one.
fn is_foreign_to(met: &[Met], user: &Option<String>) -> bool {
    match met.first() {
        Some(one) => is_foreign(user, &one.user),
        None => false,
    }
}

/// The table of a process.
fn process_table(rt: &HostRuntime, process: &str) -> Result<Vec<HostMount>, Lack> {
    let Ok(path) = ProcessFile::Mounts.of(rt.alloc(), process) else {
        return Err(Lack::NoMemory);
    };
    match table_at(rt, path.as_str()) {
        Err(Lack::Table(_, TableFault::Open(ErrorKind::NotFound) | TableFault::Read)) => {
            Err(Lack::Process(String::from_str(rt.alloc(), process)?))
        }
        table => table,
    }
}

/// Enters the table of a process, whose namespace was not met before.
fn enter_process(
    rt: &HostRuntime,
    process: &str,
    namespace: String,
    rows: Vec<HostMount>,
    met: &mut Vec<Met>,
    all: &mut Namespaces,
) -> Result<(), Lack> {
    let Ok(name) = process_name(rt, process) else {
        return Err(Lack::NoMemory);
    };
    let Ok(user) = user_namespace_of(rt, process) else {
        return Err(Lack::NoMemory);
    };
    let table = NamedTable {
        name,
        rows,
        is_foreign: is_foreign_to(met.as_slice(), &user),
    };
    let place = all.tables().len();
    met.push(Met {
        namespace,
        user,
        place,
    })?;
    all.enter(rt.alloc(), process, table)
}

/// Enters the table of a process, or says that it is that of another one.
fn add_process(
    rt: &HostRuntime,
    process: &str,
    met: &mut Vec<Met>,
    all: &mut Namespaces,
) -> Result<(), Lack> {
    if number(process.as_bytes()).is_none() {
        return Err(Lack::Words);
    }
    let Ok(namespace) = namespace_of(rt, process) else {
        return Err(Lack::Process(String::from_str(rt.alloc(), process)?));
    };
    match met_place(met.as_slice(), namespace.as_str()) {
        Some(place) => all.join(rt, process, place),
        None => {
            let rows = process_table(rt, process)?;
            enter_process(rt, process, namespace, rows, met, all)
        }
    }
}

/// The tables of processes.
pub(crate) fn of_processes(rt: &HostRuntime, words: &[&str]) -> Result<Namespaces, Lack> {
    let mut all = Namespaces::new(rt.alloc());
    let mut met = Vec::new(rt.alloc());
    for word in words {
        add_process(rt, word, &mut met, &mut all)?;
    }
    Ok(all)
}

/// Whether a table has a mount at the root: that of a process whose root is another one has none.
fn has_root(rows: &[HostMount]) -> bool {
    rows.iter()
        .any(|row| row.point.as_slice() == b"/".as_slice())
}

/// Enters a process of this machine, and its table where it is the first one of its namespace that shows all of it: false
/// where the process may not be looked at.
fn look_at(
    rt: &HostRuntime,
    process: &str,
    met: &mut Vec<Met>,
    all: &mut Namespaces,
) -> Result<bool, Lack> {
    let namespace = match namespace_of(rt, process) {
        Ok(namespace) => namespace,
        Err(error) => return Ok(is_gone(&error)),
    };
    if let Some(place) = met_place(met.as_slice(), namespace.as_str()) {
        all.name(rt.alloc(), process, number_of(place))?;
        return Ok(true);
    }
    let rows = match process_table(rt, process) {
        Ok(rows) => rows,
        Err(Lack::Process(_)) => return Ok(true),
        Err(Lack::Table(_, _)) => return Ok(false),
        Err(lack) => return Err(lack),
    };
    match namespace_of(rt, process) {
        Ok(later) if later == namespace && has_root(rows.as_slice()) => {
            enter_process(rt, process, namespace, rows, met, all)?;
            Ok(true)
        }
        _ => Ok(true),
    }
}

/// The table of each mount namespace of this machine. Says how many processes may not be looked at.
pub(crate) fn of_machine(rt: &HostRuntime) -> Result<Namespaces, Lack> {
    let Ok(processes) = every_process(rt) else {
        return Err(Lack::Processes);
    };
    let mut all = Namespaces::new(rt.alloc());
    let mut met = Vec::new(rt.alloc());
    let mut hidden = 0u64;
    for process in &processes {
        if !look_at(rt, process.as_str(), &mut met, &mut all)? {
            hidden = hidden.saturating_add(1);
        }
    }
    if hidden > 0 {
        let _ = eprintln!(rt; "{NAME}: processes that may not be looked at: {hidden}");
    }
    Ok(all)
}
