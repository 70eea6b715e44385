//! The part of a table that a path leads to.
ghost use Rattle.std.specs.Prelude.{◌≡◌, ℕ, None, Some, nat_eq, IfOk, MatchOption};
ghost use Rattle.std.specs.HashSet.{contains};
ghost use Rattle.std.specs.List.{filter, starts_with};
ghost use Rattle.std.specs.Str.{bytes_eq};
ghost use Rattle.mt_skel.specs.Keyed.{row_at};
ghost use Rattle.mt_info.specs.declared.row.Row.{Row};
ghost use Rattle.mt_info.specs.Table.{row_id};
ghost use Rattle.mt_render.specs.Parts.{is_at_or_below, is_in_part, part_below};

use crate::children::Children;
use crate::forest::{drawn_ids, grown};
use mt_info::row::Row;
use mt_info::table::{Table, find_row};
use mt_mounts::mount::MountId;
use mt_skel::name::Name;
use mt_skel::names::Names;
use std::alloc::{AllocError, Global};
use std::collections::HashSet;

/// Whether the first names are the second ones, and maybe others below them.
#[tactic(auto, using(crate::proofs::PartLaws::begins_step))]
fn starts_with(names: &[Name], first: &[Name]) -> bool
    ensures { result ≡ starts_with bytes_eq names.now first.now }
{
    let mut below = names.iter();
    'first: for name in first {
        let Some(other) = below.next() else {
            return false;
        };
        if name.bytes() != other.bytes() {
            return false;
        }
    }
    true
}

/// The names of a path.
fn names_of(path: &Names) -> Result<Vec<Name>, AllocError>
    ensures { IfOk result (λ names. names.items ≡ path.now) }
{
    match path.to_vec() {
        Ok(names) => Ok(names),
        Err(_) => Err(AllocError),
    }
}

/// An equal row.
fn copy_of(row: &Row) -> Result<Row, AllocError>
    ensures { IfOk result (λ copy. copy ≡ row.now) }
{
    match row.copy() {
        Ok(copy) => Ok(copy),
        Err(_) => Err(AllocError),
    }
}

/// The mounts of a row and of all below it.
fn ids_below(alloc: Global, table: &Table, top: &Row) -> Result<HashSet<MountId>, AllocError>
    ensures { IfOk result (λ ids. (i : ℕ) → contains nat_eq ids i ≡ is_at_or_below table.now top.now i) }
{
    let children = Children::of(table)?;
    let drawn = grown(alloc, &children, top)?;
    drawn_ids(alloc, &drawn)
}

/// Whether a row is in the part to which a path leads that ends on the mount of a row, given the mounts at and below that.
fn is_in_part(
    ids: &HashSet<MountId>,
    top: &Row,
    path: &[Name],
    row: &Row,
) -> Result<bool, AllocError>
    ensures { IfOk result (λ is_in. is_in ≡ is_in_part (contains nat_eq ids.now) top.now path.now row.now) }
{
    if !ids.contains(&row.id) {
        return Ok(false);
    }
    if row.id == top.id {
        return Ok(true);
    }
    Ok(starts_with(&names_of(&row.point)?, path))
}

/// The rows in that part.
fn rows_in_part(
    alloc: Global,
    ids: &HashSet<MountId>,
    top: &Row,
    path: &[Name],
    rows: &[Row],
) -> Result<Vec<Row>, AllocError>
    ensures { IfOk result (λ kept. kept.items ≡ filter (is_in_part (contains nat_eq ids.now) top.now path.now) rows.now) }
{
    let mut kept = Vec::new(alloc);
    'rows: for row in rows {
        if is_in_part(ids, top, path, row)? {
            kept.push(copy_of(row)?)?;
        }
    }
    Ok(kept)
}

/// The part that begins with this row.
fn part_at(table: &Table, top: &Row, path: &Names) -> Result<Table, AllocError>
    ensures { IfOk result (λ part. part ≡ part_below table.now top.now path.now) }
{
    let alloc = table.allocator();
    let ids = ids_below(alloc, table, top)?;
    let path = names_of(path)?;
    let rows = rows_in_part(alloc, &ids, top, &path, table.rows())?;
    Ok(Table::new(rows))
}

/// The part of a table to which a path leads that ends on a mount: the mount's row, and of all rows below that those of which
/// the mount point is the path or below it. None where the table has no row of the mount. Fails for want of memory alone.
pub fn part_below(table: &Table, top: MountId, path: &Names) -> Result<Option<Table>, AllocError>
    ensures part { IfOk result (λ found. MatchOption found (row_at row_id top table.now ≡ None) (λ part. (row : Row) × (row_at row_id top table.now ≡ Some row) × (part ≡ part_below table.now row path.now))) }
{
    match find_row(table.rows(), top) {
        Some(top) => Ok(Some(part_at(table, top, path)?)),
        None => Ok(None),
    }
}
