//! A table that follows its posts.
ghost use Rattle.std.specs.Prelude.{cond, ◌++◌, ◌≡◌, ◌≢◌, ◌≤◌, ◌==◌, false, true, nat_le, length, slice_get, IfOk, IfErr, OnOk, OnErr, IsOkUnless, Err};
ghost use Rattle.std.specs.List.{fold, flat_map, remove, position_from, position_or_len};
ghost use Rattle.std.specs.Option.{option_map_or};
ghost use Rattle.mt_skel.specs.Keyed.{put};
ghost use Rattle.mt_info.specs.declared.row.Row.{Row};
ghost use Rattle.mt_info.specs.Table.{row_id};
ghost use Rattle.mt_events.specs.Difference.{with_delta, delta_of};
ghost use Rattle.mt_events.specs.Mirrors.{is_next, kept_of, mirrored};

use crate::post::Post;
use mt_info::row::Row;
use mt_info::table::Table;
use mt_mounts::mount::{MountId, SpaceId};
use mt_skel::fault::Fault;
use mt_skel::list::is_among;
use std::alloc::Global;
use std::marker::Model;

/// The index of the first row that is not of a lesser mount.
fn first_from(rows: &[Row], id: MountId) -> Option<usize>
    ensures { result ≡ position_from (λ (r : Row). nat_le id r.id) 0 rows.now }
{
    rows.iter().position(|row| id <= row.id)
}

/// Where a row of this mount goes.
fn place_for(rows: &[Row], id: MountId) -> usize
    ensures place { result ≡ position_or_len (λ (r : Row). nat_le id r.id) rows.now }
    ensures within { result ≤ length rows.now }
{
    first_from(rows, id).unwrap_or(rows.len())
}

/// Whether the row at this place is of this mount.
fn is_at(rows: &[Row], place: usize, id: MountId) -> bool
    ensures { result ≡ option_map_or (λ (r : Row). r.id == id) (slice_get rows.now place) false }
{
    match rows.get(place) {
        Some(row) => row.id == id,
        None => false,
    }
}

/// Takes out the row at this place, if it is of this mount.
fn take_out(rows: &mut Vec<Row>, place: usize, id: MountId)
    requires { place ≤ length rows.old.items }
    ensures taken { rows.new.items ≡ cond (option_map_or (λ (r : Row). r.id == id) (slice_get rows.old.items place) false) (remove rows.old.items place) rows.old.items }
    ensures within { place ≤ length rows.new.items }
{
    if is_at(rows.as_slice(), place, id) {
        let _old = rows.remove(place);
    }
}

/// Puts a row in its place, where it takes the place of the row of its mount.
fn put_row(rows: &mut Vec<Row>, row: Row) -> Result<(), Fault>
    ensures put { OnOk result (rows.new.items ≡ put row_id row rows.old.items) }
    ensures memory { IsOkUnless result Fault.NoMemory }
{
    let place = place_for(rows.as_slice(), row.id);
    take_out(rows, place, row.id);
    rows.insert(place, row)?;
    Ok(())
}

/// Puts rows in their places, one after another.
fn put_rows(rows: &mut Vec<Row>, news: &[Row]) -> Result<(), Fault>
    ensures put { OnOk result (rows.new.items ≡ fold (λ rows r. put row_id r rows) rows.old.items news.now) }
    ensures memory { IsOkUnless result Fault.NoMemory }
{
    'news: for row in news {
        put_row(rows, row.copy()?)?;
    }
    Ok(())
}

/// Appends a row that is not of these mounts.
fn push_kept(kept: &mut Vec<Row>, gone: &[MountId], row: &Row) -> Result<(), Fault>
    ensures kept { OnOk result (kept.new.items ≡ kept.old.items ++ kept_of gone.now row.now) }
    ensures memory { IsOkUnless result Fault.NoMemory }
{
    if is_among(gone, row.id) {
        return Ok(());
    }
    kept.push(row.copy()?)?;
    Ok(())
}

/// The rows that are not of these mounts.
fn kept(alloc: Global, rows: &[Row], gone: &[MountId]) -> Result<Vec<Row>, Fault>
    ensures kept { IfOk result (λ kept. kept.items ≡ flat_map (kept_of gone.now) rows.now) }
    ensures memory { IsOkUnless result Fault.NoMemory }
{
    let mut kept = Vec::new(alloc);
    'rows: for row in rows {
        push_kept(&mut kept, gone, row)?;
    }
    Ok(kept)
}

/// A table with what a post says.
fn table_after(table: &Table, post: &Post) -> Result<Table, Fault>
    ensures table { IfOk result (λ after. after ≡ with_delta (delta_of post.now) table.now) }
    ensures memory { IsOkUnless result Fault.NoMemory }
{
    let old = table.rows();
    let gone = post.gone.as_slice();
    let news = post.rows.rows();
    let mut rows = kept(table.allocator(), old, gone)?;
    put_rows(&mut rows, news)?;
    Ok(Table::new(rows))
}

/// The table of a namespace, as its posts tell it.
#[derive(Drop)]
pub struct Mirror {
    space: SpaceId,
    number: u64,
    table: Table,
}

impl Model for Mirror {
    ghost use Rattle.mt_events.specs.Mirrors.{MirrorView, mirror_code};

    ghost Value = { MirrorView };

    ghost use Rattle.mt_info.specs.contracts.row.Row as row;

    ghost coded = { mirror_code row.the_row.coded };

    ghost view = { λ m. record { space = m.space; number = m.number; rows = m.table } };
}

impl Mirror {
    /// The mirror of a namespace that had this table with its post of this number.
    pub fn new(space: SpaceId, number: u64, table: Table) -> Mirror
        ensures { result ≡ record { space = space; number = number; rows = table } }
    {
        Mirror {
            space,
            number,
            table,
        }
    }

    /// The namespace.
    pub fn space(&self) -> SpaceId
        ensures { result ≡ self.now.space }
    {
        self.space
    }

    /// The table, as the posts told it.
    pub fn table(&self) -> &Table
        ensures { result.now ≡ self.now.rows }
    {
        &self.table
    }

    /// The number of the last post.
    pub fn number(&self) -> u64
        ensures { result ≡ self.now.number }
    {
        self.number
    }

    /// Whether a post is the next one: of this namespace, and with the number after the mirror's.
    fn is_next(&self, post: &Post) -> bool
        ensures { result ≡ is_next self.now post.now }
    {
        if post.space != self.space {
            return false;
        }
        match post.number.checked_sub(1) {
            Some(last) => last == self.number,
            None => false,
        }
    }

    /// Applies the next post: what it says changes the table, and its number is the mirror's. Nothing changes where
    /// it is refused.
    ///
    /// Refused as `BadLine` exactly where the post is of another namespace, or its number is not the
    /// mirror's plus one, and otherwise only as `NoMemory`.
    pub fn apply(&mut self, post: &Post) -> Result<(), Fault>
        ensures applied { OnOk result ((is_next self.old post.now ≡ true) × (self.new ≡ mirrored self.old post.now)) }
        ensures bad { is_next self.old post.now ≡ false → result ≡ Err Fault.BadLine }
        ensures refused { IfErr result (λ fault. fault ≢ Fault.NoMemory → (fault ≡ Fault.BadLine) × (is_next self.old post.now ≡ false)) }
        ensures unchanged { OnErr result (self.new ≡ self.old) }
    {
        if !self.is_next(post) {
            return Err(Fault::BadLine);
        }
        let table = table_after(&self.table, post)?;
        self.table = table;
        self.number = post.number;
        Ok(())
    }
}
