//! What is told of rows that a world has not as they are told, and of locks that it does not know.

use crate::messages::{LOCKLESS, NAME};
use crate::namespaces::Namespaces;
use mt_import::host_mount::HostMount;
use mt_mounts::mount::SpaceId;
use mt_questions::table::NamedTable;
use mt_terminal::message::Shown;
use mt_what_if::gathered::Missed;
use mt_world::misfit::Misfit;

/// Why a row is left out, or why its mount is private.
fn reason(why: Option<Misfit>) -> &'static str {
    match why {
        None => "its directory or its mount point cannot be read",
        Some(Misfit::NoNumber) => "its number is 0 or too great",
        Some(Misfit::SameId) => "another mount has its number",
        Some(Misfit::NoParent) => "its parent is in no row that is kept",
        Some(Misfit::Elsewhere) => "it does not stand below its parent",
        Some(Misfit::SamePlace) => "another mount stands in its place",
        Some(Misfit::SecondRoot) => "its namespace has another root mount",
        Some(Misfit::TooDeep) => "its directory or its mount point is too deep",
        Some(Misfit::NoRoom) => "there is no room for it",
        Some(Misfit::Unbindable) =>
            "it is told to be unbindable, and to have a peer group or a master",
        Some(Misfit::OtherMaster) => "another row tells another master of its peer group",
        Some(Misfit::OtherFilesystem) => "its peer group, or its master, is of another filesystem",
        Some(Misfit::NoMaster) => "no row that is kept has its master",
    }
}

/// The row of a table that was missed.
fn row_of(tables: &[NamedTable], missed: Missed) -> Option<(&[u8], &HostMount)> {
    let table = tables.get(missed.origin.table)?;
    let row = table.rows.get(missed.origin.row)?;
    Some((table.name.as_slice(), row))
}

/// How many rows in succession are told that are alike; the others are counted.
const MOST_ALIKE: u64 = 5;

/// Whether two rows are alike: of one table, and missed in one way for one reason.
fn are_alike(one: Missed, other: Missed) -> bool {
    one.origin.table == other.origin.table
        && one.why == other.why
        && one.is_private == other.is_private
}

/// What a world has in place of a row.
fn outcome(missed: Missed) -> &'static str {
    if missed.is_private {
        "is private here"
    } else {
        "is left out"
    }
}

/// Says of a row that a world has it not as it is told, and why.
fn tell_row(rt: &HostRuntime, names: &Namespaces, missed: Missed) {
    if let Some((name, row)) = row_of(names.tables(), missed) {
        let (name, point, id) = (Shown(name), Shown(row.point.as_slice()), row.id);
        let (what, why) = (outcome(missed), reason(missed.why));
        let _ = eprintln!(rt; "{NAME}: {name}: {id} {point} {what}: {why}");
    }
}

/// Says how many more rows there are like one, behind so many that are told.
fn tell_more(rt: &HostRuntime, names: &Namespaces, missed: Missed, alike: u64) {
    if let Some((name, _row)) = row_of(names.tables(), missed) {
        if alike > MOST_ALIKE {
            let (name, more) = (Shown(name), alike - MOST_ALIKE);
            let (what, why) = (outcome(missed), reason(missed.why));
            let _ = eprintln!(rt; "{NAME}: {name}: {more} more, of which each {what}: {why}");
        }
    }
}

/// Says of each row that a world has not as it is told what is not, and why; of rows in succession that are alike the first five,
/// and how many more there are.
pub(crate) fn tell_missed(rt: &HostRuntime, names: &Namespaces, all: &[Missed]) {
    let mut before: Option<Missed> = None;
    let mut alike = 0u64;
    for missed in all {
        match before {
            Some(other) if are_alike(other, *missed) => alike = alike.saturating_add(1),
            Some(other) => {
                tell_more(rt, names, other, alike);
                alike = 1;
            }
            None => alike = 1,
        }
        if alike <= MOST_ALIKE {
            tell_row(rt, names, *missed);
        }
        before = Some(*missed);
    }
    if let Some(last) = before {
        tell_more(rt, names, last, alike);
    }
}

/// Says of each of these namespaces that what is locked there is not known, since its table does not tell which of its mounts came
/// with a copy of the first one.
pub(crate) fn tell_lockless_tables(rt: &HostRuntime, names: &Namespaces, lockless: &[SpaceId]) {
    let mut number: SpaceId = 0;
    for table in names.tables() {
        number = number.saturating_add(1);
        if lockless.contains(&number) {
            let name = Shown(table.name.as_slice());
            let _ = eprintln!(rt; "{NAME}: {name}{LOCKLESS}");
        }
    }
}
