//! The rows that are drawn below each row of a table, found without a look at all others.
ghost use Rattle.std.specs.Prelude.{◌≡◌, ◌≤◌, [], map, length, IfOk, IsTrue};
ghost use Rattle.std.specs.List.{filter_map};
ghost use Rattle.mt_skel.specs.Keyed.{row_at, rises};
ghost use Rattle.mt_lists.specs.Lists.{ids};
ghost use Rattle.mt_lists.specs.Numbered.{rows_by};
ghost use Rattle.mt_info.specs.Table.{row_id};
ghost use Rattle.mt_render.specs.Forest.{child_rows};
ghost use Rattle.mt_render.specs.Steps.{other_parent};

use mt_info::row::Row;
use mt_info::table::{Table, find_row};
use mt_lists::lists::Lists;
use mt_mounts::mount::MountId;
use std::alloc::{AllocError, Global};
use std::marker::Model;

/// The rows of a table, with lists of those that have the same parent.
#[derive(Drop)]
pub(crate) struct Children<'a> {
    rows: &'a [Row],
    parents: Lists,
}

impl<'a> Model for Children<'a> {
    ghost use Rattle.std.specs.Prelude.{List};
    ghost use Rattle.mt_info.specs.declared.row.Row.{Row};
    ghost use Rattle.mt_render.specs.Steps.{IsFamily};

    ghost Value = { List Row };

    ghost view = { λ c. c.rows.now };

    ghost invariant = { λ c. IsFamily c.rows.now c.parents.rows };
}

/// The mount below which a row is drawn where that is in the table: its parent, if this is another mount.
fn other_parent(row: &Row) -> Option<MountId>
    ensures { result ≡ other_parent row.now }
{
    if row.parent == row.id {
        None
    } else {
        Some(row.parent)
    }
}

/// Lists with room for so many numbers.
pub(crate) fn lists_for(alloc: Global, count: usize) -> Result<Lists, AllocError>
    ensures empty { IfOk result (λ lists. lists.rows ≡ []) }
    ensures room { IfOk result (λ lists. count ≤ lists.room) }
{
    let mut lists = Lists::new(alloc);
    match lists.reserve(count) {
        Ok(()) => Ok(lists),
        Err(_) => Err(AllocError),
    }
}

/// Enters the parents of rows.
fn enter_parents(parents: &mut Lists, rows: &[Row])
    requires rising { IsTrue (rises row_id rows.now) }
    requires empty { parents.old.rows ≡ [] }
    requires room { length rows.now ≤ parents.old.room }
    ensures { parents.new.rows ≡ rows_by row_id other_parent rows.now }
{
    'rows: for row in rows {
        parents.enter(row.id, other_parent(row));
    }
}

/// The IDs of a number.
fn ids_of(alloc: Global, lists: &Lists, number: u64) -> Result<Vec<u64>, AllocError>
    ensures { IfOk result (λ found. found.items ≡ ids lists.now.rows number) }
{
    match lists.ids(alloc, number) {
        Ok(found) => Ok(found),
        Err(_) => Err(AllocError),
    }
}

/// The rows of those of these mounts that have one.
fn rows_of<'a>(alloc: Global, rows: &'a [Row], ids: &[MountId]) -> Result<Vec<&'a Row>, AllocError>
    requires rising { IsTrue (rises row_id rows.now) }
    ensures { IfOk result (λ found. map (λ row. row.now) found.items ≡ filter_map (λ i. row_at row_id i rows.now) ids.now) }
{
    let mut found = Vec::with_capacity(alloc, ids.len())?;
    'ids: for id in ids {
        if let Some(row) = find_row(rows, *id) {
            found.push(row)?;
        }
    }
    Ok(found)
}

impl<'a> Children<'a> {
    /// The rows of a table. Fails for want of memory alone.
    pub(crate) fn of(table: &'a Table) -> Result<Children<'a>, AllocError>
        ensures { IfOk result (λ children. children ≡ table.now) }
    {
        let rows = table.rows();
        let mut parents = lists_for(table.allocator(), rows.len())?;
        enter_parents(&mut parents, rows);
        Ok(Children { rows, parents })
    }

    /// The rows, by rising ID.
    pub(crate) fn rows(&self) -> &'a [Row]
        ensures rows { result.now ≡ self.now }
        ensures rising { IsTrue (rises row_id self.now) }
    {
        self.rows
    }

    /// The rows that are drawn below a row, by rising ID. Fails for want of memory alone.
    pub(crate) fn below(&self, alloc: Global, row: &Row) -> Result<Vec<&'a Row>, AllocError>
        ensures { IfOk result (λ found. map (λ child. child.now) found.items ≡ child_rows self.now row.now) }
    {
        let ids = ids_of(alloc, &self.parents, row.id)?;
        rows_of(alloc, self.rows, &ids)
    }
}
