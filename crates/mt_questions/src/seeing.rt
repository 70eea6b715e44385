//! The rows of tables as they are seen: paths without escapes, devices as numbers, all of them by rising ID.
ghost use Rattle.std.specs.Prelude.{◌≡◌, ◌∷◌, ◌++◌, [], false, true, map, length, Some, None, IfOk, IfErr, IfNone, IfSome, IsOkUnless, IsPermutation, MatchOption};
ghost use Rattle.std.specs.List.{filter};
ghost use Rattle.std.specs.List.Sorted.{IsNonDecreasingBy};
ghost use Rattle.mt_skel.specs.Escapes.{unescaped};
ghost use Rattle.mt_reach.specs.Rows.{seen_id};
ghost use Rattle.mt_questions.specs.Seeing.{device_of_word, components_in, begins_at_root, path_of_word, is_unlinked, path_shown, directory_in, text_in, row_given, told_row, told_rows, names_from, AreToldBy, IsUnreadIn, is_line_of, is_twice, IsToldFault, HaveTwice};

use crate::misfit::{LineAt, SeeingFault};
use crate::table::{NamedSpace, NamedTable, SeenTables};
use mt_import::host_mount::HostMount;
use mt_lines::words::{Pieces, number};
use mt_mounts::mount::{MountId, SpaceId};
use mt_reach::path::Path;
use mt_reach::row::{Device, SeenDirectory, SeenRow};
use mt_reach::rows::SeenRows;
use mt_reach::text::SeenText;
use mt_skel::escape::unescape;
use mt_skel::fault::Fault;
use std::alloc::Global;

/// The device that a word says: its major and minor number with a colon between them. Takes no memory.
pub fn device_of_word(word: &[u8]) -> Option<Device>
    ensures { result ≡ device_of_word word.now }
{
    let mut pieces = Pieces::new(b':', word);
    let (Some(major), Some(minor), None) = (pieces.next(), pieces.next(), pieces.next()) else {
        return None;
    };
    let major = number(major)?;
    let minor = number(minor)?;
    Some(Device { major, minor })
}

/// The names of a path. Refused as `NoMemory` alone.
fn components_in(alloc: Global, bytes: &[u8]) -> Result<Path, Fault>
    ensures names { IfOk result (λ path. path ≡ components_in bytes.now) }
    ensures memory { IsOkUnless result Fault.NoMemory }
{
    let mut path = Path::root(alloc);
    'pieces: for piece in Pieces::new(b'/', bytes) {
        if piece.len() != 0 {
            path = path.with(SeenText::of(alloc, piece)?)?;
        }
    }
    Ok(path)
}

/// Whether a path begins at a root.
fn begins_at_root(bytes: &[u8]) -> bool
    ensures { result ≡ begins_at_root bytes.now }
{
    bytes.starts_with(b"/")
}

/// Whether what is shown is no directory of its filesystem.
fn is_unlinked(bytes: &[u8]) -> bool
    ensures { result ≡ is_unlinked bytes.now }
{
    !begins_at_root(bytes) || bytes.ends_with(b"//deleted")
}

/// A word without its escapes; `None` where it has a backslash that begins none. Refused as `NoMemory` alone.
fn bytes_in(alloc: Global, word: &[u8]) -> Result<Option<Vec<u8>>, Fault>
    ensures bytes { IfOk result (λ bytes. MatchOption bytes (unescaped word.now ≡ None) (λ bytes. unescaped word.now ≡ Some bytes.items)) }
    ensures memory { IsOkUnless result Fault.NoMemory }
{
    match unescape(alloc, word) {
        Ok(bytes) => Ok(Some(bytes)),
        Err(Fault::BadLine) => Ok(None),
        Err(_) => Err(Fault::NoMemory),
    }
}

/// The path of a word: of a mount point, or one that somebody asks about. `None` where it does not begin with a slash, or has a
/// backslash that begins no escape. Refused as `NoMemory` alone.
pub fn path_of_word(alloc: Global, word: &[u8]) -> Result<Option<Path>, Fault>
    ensures path { IfOk result (λ path. path ≡ path_of_word word.now) }
    ensures memory { IsOkUnless result Fault.NoMemory }
{
    let Some(bytes) = bytes_in(alloc, word)? else {
        return Ok(None);
    };
    if !begins_at_root(bytes.as_slice()) {
        return Ok(None);
    }
    let path = components_in(alloc, bytes.as_slice())?;
    Ok(Some(path))
}

/// The path of one name. Refused as `NoMemory` alone.
fn path_of_name(alloc: Global, bytes: &[u8]) -> Result<Path, Fault>
    ensures path { IfOk result (λ path. path ≡ bytes.now ∷ []) }
    ensures memory { IsOkUnless result Fault.NoMemory }
{
    Path::root(alloc).with(SeenText::of(alloc, bytes)?)
}

/// The names of what a mount shows. Refused as `NoMemory` alone.
fn path_shown(alloc: Global, bytes: &[u8]) -> Result<Path, Fault>
    ensures path { IfOk result (λ path. path ≡ path_shown bytes.now) }
    ensures memory { IsOkUnless result Fault.NoMemory }
{
    if is_unlinked(bytes) {
        path_of_name(alloc, bytes)
    } else {
        components_in(alloc, bytes)
    }
}

/// What a mount shows, by its filesystem and bytes without escapes. Refused as `NoMemory` alone.
fn directory_in(alloc: Global, device: Device, bytes: &[u8]) -> Result<SeenDirectory, Fault>
    ensures directory { IfOk result (λ directory. directory ≡ directory_in device bytes.now) }
    ensures memory { IsOkUnless result Fault.NoMemory }
{
    let path = path_shown(alloc, bytes)?;
    Ok(SeenDirectory {
        device,
        unlinked: is_unlinked(bytes),
        path,
    })
}

/// A text without its escapes, or as it is where it has others. Refused as `NoMemory` alone.
pub fn text_in(alloc: Global, word: &[u8]) -> Result<SeenText, Fault>
    ensures text { IfOk result (λ text. text ≡ text_in word.now) }
    ensures memory { IsOkUnless result Fault.NoMemory }
{
    match bytes_in(alloc, word)? {
        Some(bytes) => Ok(SeenText::new(bytes)),
        None => SeenText::of(alloc, word),
    }
}

/// The row of a mount, given its parts. Refused as `NoMemory` alone.
fn row_given(
    alloc: Global,
    space: SpaceId,
    told: &HostMount,
    root: SeenDirectory,
    point: Path,
) -> Result<SeenRow, Fault>
    ensures row { IfOk result (λ row. row ≡ row_given space told.now root point) }
    ensures memory { IsOkUnless result Fault.NoMemory }
{
    let kind = text_in(alloc, told.kind.as_slice())?;
    let source = text_in(alloc, told.source.as_slice())?;
    Ok(SeenRow {
        space,
        id: told.id,
        parent: told.parent,
        root,
        point,
        group: told.shared,
        master: told.master,
        via: told.via,
        unbindable: told.unbindable,
        kind,
        source,
    })
}

/// What a line of the table of a namespace tells; `None` where its device, its root or its mount point is not a word of that kind.
/// Refused as `NoMemory` alone.
#[tactic(auto, unfolding(crate::specs::Seeing::told_row))]
fn told_row(alloc: Global, space: SpaceId, told: &HostMount) -> Result<Option<SeenRow>, Fault>
    ensures row { IfOk result (λ row. row ≡ told_row space told.now) }
    ensures memory { IsOkUnless result Fault.NoMemory }
{
    let Some(device) = device_of_word(told.device.as_slice()) else {
        return Ok(None);
    };
    let Some(bytes) = bytes_in(alloc, told.root.as_slice())? else {
        return Ok(None);
    };
    let Some(point) = path_of_word(alloc, told.point.as_slice())? else {
        return Ok(None);
    };
    let root = directory_in(alloc, device, bytes.as_slice())?;
    let row = row_given(alloc, space, told, root, point)?;
    Ok(Some(row))
}

/// Appends the rows of a table, or answers the line of the first that cannot be read, counted from 1. Refused as `NoMemory` alone.
fn push_table(
    alloc: Global,
    rows: &mut Vec<SeenRow>,
    space: SpaceId,
    lines: &[HostMount],
) -> Result<Option<usize>, Fault>
    ensures rows { IfOk result (λ found. MatchOption found (map (λ r. Some r) rows.new.items ≡ map (λ r. Some r) rows.old.items ++ map (told_row space) lines.now) (λ line. IsUnreadIn space lines.now line)) }
    ensures memory { IsOkUnless result Fault.NoMemory }
{
    let mut line = 0usize;
    'lines: for told in lines {
        line += 1;
        let Some(row) = told_row(alloc, space, told)? else {
            return Ok(Some(line));
        };
        rows.push(row)?;
    }
    Ok(None)
}

/// The rows of all tables in the order of their lines, where the first is of the namespace 1. Refused as `Unread` where a line is not
/// that of a row, and otherwise only as `NoMemory`.
fn all_rows(alloc: Global, tables: &[NamedTable]) -> Result<Vec<SeenRow>, SeeingFault>
    ensures rows { IfOk result (λ rows. map (λ r. Some r) rows.items ≡ told_rows tables.now) }
    ensures refused { IfErr result (λ fault. IsToldFault tables.now fault) }
{
    let mut rows = Vec::new(alloc);
    let mut number = 0usize;
    'tables: for table in tables {
        number += 1;
        match push_table(alloc, &mut rows, number as u64, table.rows.as_slice()) {
            Ok(None) => {}
            Ok(Some(line)) => {
                return Err(SeeingFault::Unread(LineAt {
                    table: number,
                    line,
                }));
            }
            Err(_) => return Err(SeeingFault::NoMemory),
        }
    }
    Ok(rows)
}

/// How many lines of a table are of a mount.
fn count_in(lines: &[HostMount], id: MountId) -> usize
    ensures { result ≡ length (filter (is_line_of id) lines.now) }
{
    let mut count = 0usize;
    'lines: for told in lines {
        if told.id == id {
            count += 1;
        }
    }
    count
}

/// Whether several lines of tables are of a mount.
fn is_twice(tables: &[NamedTable], id: MountId) -> bool
    ensures { result ≡ is_twice tables.now id }
{
    let mut found = false;
    'tables: for table in tables {
        let count = count_in(table.rows.as_slice(), id);
        if count > 1 || (found && count > 0) {
            return true;
        }
        found = found || count > 0;
    }
    false
}

/// The mount of which two rows one after the other are, and several lines.
fn twice_in(tables: &[NamedTable], rows: &[SeenRow]) -> Option<MountId>
    ensures { IfSome result (λ id. is_twice tables.now id ≡ true) }
{
    let mut last: Option<MountId> = None;
    'rows: for row in rows {
        if last == Some(row.id) && is_twice(tables, row.id) {
            return Some(row.id);
        }
        last = Some(row.id);
    }
    None
}

/// Rows in the order of their IDs. Refused as `NoMemory` alone.
fn sorted(rows: Vec<SeenRow>) -> Result<Vec<SeenRow>, Fault>
    ensures sorted { IfOk result (λ sorted. IsPermutation rows.items sorted.items) }
    ensures order { IfOk result (λ sorted. IsNonDecreasingBy seen_id sorted.items) }
    ensures memory { IsOkUnless result Fault.NoMemory }
{
    let mut rows = rows;
    rows.sort_by_key(|row| row.id)?;
    Ok(rows)
}

/// The rows of tables, by rising ID: the first table is that of the namespace 1. Refused as `Unread` where a line is not that of a
/// row, as `Twice` where several are of one mount, and otherwise only as `NoMemory`.
pub fn all_seen_rows(alloc: Global, tables: &[NamedTable]) -> Result<SeenRows, SeeingFault>
    ensures rows { IfOk result (λ rows. AreToldBy tables.now rows) }
    ensures refused { IfErr result (λ fault. IsToldFault tables.now fault) }
{
    let told = all_rows(alloc, tables)?;
    let Ok(rows) = sorted(told) else {
        return Err(SeeingFault::NoMemory);
    };
    if let Some(id) = twice_in(tables, rows.as_slice()) {
        return Err(SeeingFault::Twice(id));
    }
    match SeenRows::new(alloc, rows) {
        Ok(Some(seen)) => Ok(seen),
        Ok(None) => Err(SeeingFault::NoMemory),
        Err(_) => Err(SeeingFault::NoMemory),
    }
}

/// Rows by rising ID; `None` exactly where two have one ID. Refused as `NoMemory` alone.
pub fn gathered(alloc: Global, rows: Vec<SeenRow>) -> Result<Option<SeenRows>, Fault>
    ensures rows { IfOk result (λ seen. IfSome seen (λ seen. IsPermutation rows.items seen)) }
    ensures twice { IfOk result (λ seen. IfNone seen (HaveTwice rows.items)) }
    ensures memory { IsOkUnless result Fault.NoMemory }
{
    let rows = sorted(rows)?;
    let Some(seen) = SeenRows::new(alloc, rows)? else {
        return Ok(None);
    };
    Ok(Some(seen))
}

/// The names of namespaces, of which the first is 1. Refused as `NoMemory` alone.
fn names_of(alloc: Global, tables: &[NamedTable]) -> Result<Vec<NamedSpace>, Fault>
    ensures names { IfOk result (λ names. names.items ≡ names_from 1 tables.now) }
    ensures memory { IsOkUnless result Fault.NoMemory }
{
    let mut names = Vec::new(alloc);
    let mut space = 0usize;
    'tables: for table in tables {
        space += 1;
        names.push(NamedSpace {
            space: space as u64,
            name: SeenText::of(alloc, table.name.as_slice())?,
        })?;
    }
    Ok(names)
}

/// The rows of tables and the names of their namespaces, of which the first is 1; others may be missing. Refused as [`all_seen_rows`].
pub fn seen_tables(alloc: Global, tables: &[NamedTable]) -> Result<SeenTables, SeeingFault>
    ensures rows { IfOk result (λ seen. AreToldBy tables.now seen.rows) }
    ensures names { IfOk result (λ seen. seen.names ≡ names_from 1 tables.now) }
    ensures complete { IfOk result (λ seen. seen.complete ≡ false) }
    ensures refused { IfErr result (λ fault. IsToldFault tables.now fault) }
{
    let rows = all_seen_rows(alloc, tables)?;
    let Ok(names) = names_of(alloc, tables) else {
        return Err(SeeingFault::NoMemory);
    };
    Ok(SeenTables {
        rows,
        names,
        complete: false,
    })
}
