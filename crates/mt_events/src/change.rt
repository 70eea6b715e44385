//! What changed from one table to another.
ghost use Rattle.std.specs.Prelude.{◌≡◌, not, map, IfOk, IfSome, false, IsOkUnless, IsTrue};
ghost use Rattle.std.specs.List.{filter};
ghost use Rattle.mt_skel.specs.Keyed.{rises, has};
ghost use Rattle.mt_info.specs.Table.{row_id};
ghost use Rattle.mt_events.specs.Difference.{difference, is_empty, is_row_of, some_change};
ghost use Rattle.mt_events.specs.Posts.{is_change};

use crate::post::{Delta, Ids};
use mt_info::row::Row;
use mt_info::table::{Table, find_row};
use mt_mounts::mount::MountId;
use mt_skel::fault::Fault;
use std::alloc::Global;

/// Whether a row with this ID is among these.
fn has_row(rows: &[Row], id: MountId) -> bool
    requires { IsTrue (rises row_id rows.now) }
    ensures { result ≡ has row_id id rows.now }
{
    find_row(rows, id).is_some()
}

/// Whether a row is among these as it is.
fn is_row_of(rows: &[Row], row: &Row) -> bool
    requires { IsTrue (rises row_id rows.now) }
    ensures { result ≡ is_row_of rows.now row.now }
{
    match find_row(rows, row.id) {
        Some(here) => here.same(row),
        None => false,
    }
}

/// The IDs that the rows before have but the rows after do not.
fn gone(alloc: Global, before: &[Row], after: &[Row]) -> Result<Vec<MountId>, Fault>
    requires { IsTrue (rises row_id after.now) }
    ensures gone { IfOk result (λ ids. ids.items ≡ map row_id (filter (λ r. not (has row_id r.id after.now)) before.now)) }
    ensures memory { IsOkUnless result Fault.NoMemory }
{
    let mut ids = Vec::new(alloc);
    'rows: for row in before {
        if !has_row(after, row.id) {
            ids.push(row.id)?;
        }
    }
    Ok(ids)
}

/// Those of the rows after that are not, as they are, among the rows before.
fn new_rows(alloc: Global, before: &[Row], after: &[Row]) -> Result<Vec<Row>, Fault>
    requires { IsTrue (rises row_id before.now) }
    ensures rows { IfOk result (λ rows. rows.items ≡ filter (λ r. not (is_row_of before.now r)) after.now) }
    ensures memory { IsOkUnless result Fault.NoMemory }
{
    let mut rows = Vec::new(alloc);
    'rows: for row in after {
        if !is_row_of(before, row) {
            rows.push(row.copy()?)?;
        }
    }
    Ok(rows)
}

/// The difference of two tables, empty or not.
fn delta(alloc: Global, before: &Table, after: &Table) -> Result<Delta, Fault>
    ensures delta { IfOk result (λ delta. delta ≡ difference before.now after.now) }
    ensures told { IfOk result (λ delta. is_empty delta ≡ false → IsTrue (is_change delta.gone delta.rows)) }
    ensures memory { IsOkUnless result Fault.NoMemory }
{
    let before = before.rows();
    let after = after.rows();
    let ids = gone(alloc, before, after)?;
    let rows = new_rows(alloc, before, after)?;
    Ok(Delta {
        gone: Ids::new(ids),
        rows: Table::new(rows),
    })
}

/// This difference, or `None` exactly where it is empty. Takes no memory.
pub(crate) fn some_change(delta: Delta) -> Option<Delta>
    ensures change { result ≡ some_change delta }
    ensures same { IfSome result (λ some. (is_empty delta ≡ false) × (some ≡ delta)) }
{
    if delta.gone.as_slice().is_empty() && delta.rows.rows().is_empty() {
        return None;
    }
    Some(delta)
}

/// What changed from one table to another, or `None` exactly where they are equal. If something changed, it can be told
/// by a post (`Post::new`).
pub fn change(alloc: Global, before: &Table, after: &Table) -> Result<Option<Delta>, Fault>
    ensures change { IfOk result (λ change. change ≡ some_change (difference before.now after.now)) }
    ensures told { IfOk result (λ change. IfSome change (λ delta. IsTrue (is_change delta.gone delta.rows))) }
    ensures memory { IsOkUnless result Fault.NoMemory }
{
    let delta = delta(alloc, before, after)?;
    Ok(some_change(delta))
}
