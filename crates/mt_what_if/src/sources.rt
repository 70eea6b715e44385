//! Which filesystem a source is of.
ghost use Rattle.std.specs.Prelude.{◌≡◌, None, Some, IfOk, IsOkUnless, MatchOption};
ghost use Rattle.mt_what_if.specs.Sources.{has_source, device_told, device_of, has_slash, filesystem_of};

use crate::table_row::plain_bytes;
use mt_import::host_mount::HostMount;
use mt_questions::table::NamedTable;
use mt_skel::fault::Fault;
use std::alloc::Global;

/// Whether a row tells this source.
fn has_source(alloc: Global, row: &HostMount, source: &[u8]) -> Result<bool, Fault>
    ensures has { IfOk result (λ has. has ≡ has_source source.now row.now) }
    ensures memory { IsOkUnless result Fault.NoMemory }
{
    let bytes = plain_bytes(alloc, &row.source)?;
    Ok(bytes.as_slice() == source)
}

/// The device of the filesystem of a source among the rows of a table.
fn device_told<'a>(
    alloc: Global,
    rows: &'a [HostMount],
    source: &[u8],
) -> Result<Option<&'a [u8]>, Fault>
    ensures device { IfOk result (λ device. MatchOption device (device_told source.now rows.now ≡ None) (λ word. device_told source.now rows.now ≡ Some word.now)) }
    ensures memory { IsOkUnless result Fault.NoMemory }
{
    'rows: for row in rows {
        if has_source(alloc, row, source)? {
            return Ok(Some(row.device.as_slice()));
        }
    }
    Ok(None)
}

/// The device of the filesystem of a source, if a table has it.
fn device_of<'a>(
    alloc: Global,
    tables: &'a [NamedTable],
    source: &[u8],
) -> Result<Option<&'a [u8]>, Fault>
    ensures device { IfOk result (λ device. MatchOption device (device_of source.now tables.now ≡ None) (λ word. device_of source.now tables.now ≡ Some word.now)) }
    ensures memory { IsOkUnless result Fault.NoMemory }
{
    'tables: for table in tables {
        if let Some(device) = device_told(alloc, &table.rows, source)? {
            return Ok(Some(device));
        }
    }
    Ok(None)
}

/// Whether a source has a slash.
fn has_slash(source: &[u8]) -> bool
    ensures { result ≡ has_slash source.now }
{
    source.iter().any(|byte| *byte == b'/')
}

/// What the filesystem of a source goes by: its device, where a table has that; or else the source itself.
pub(crate) fn filesystem_of<'a>(
    alloc: Global,
    tables: &'a [NamedTable],
    source: &'a [u8],
) -> Result<&'a [u8], Fault>
    ensures name { IfOk result (λ name. name.now ≡ filesystem_of source.entry.now tables.entry.now) }
    ensures memory { IsOkUnless result Fault.NoMemory }
{
    if !has_slash(source) {
        return Ok(source);
    }
    match device_of(alloc, tables, source)? {
        Some(device) => Ok(device),
        None => Ok(source),
    }
}
