//! The mounts of all rows.
ghost use Rattle.std.specs.Prelude.{◌≡◌, ℕ, ◌<◌, ◌≤◌, ◌^◌, [], false, true, cond, nat_eq, length, slice_get, Some, None, option_copied, IfOk, IfSome, OnOk, IsOkUnless};
ghost use Rattle.std.specs.List.{list_any};
ghost use Rattle.indexmap.specs.IndexMap.{get};
ghost use Rattle.mt_skel.specs.Keyed.{among};
ghost use Rattle.mt_propagate.specs.World.{world_view};
ghost use Rattle.mt_world.specs.declared.row.TableRow.{TableRow as RowOf};
ghost use Rattle.mt_world.specs.Leaves.{IsSound};
ghost use Rattle.mt_world.specs.Rows.{is_mount_of, is_root_of_table};
ghost use Rattle.mt_world.specs.Kept.{AreKept, IsSetAt, HaveNumbers, HaveFilesystems, IsParentless, StandsRightly, AreGrown, waits_for_parent};

use crate::misfit::Misfit;
use crate::order::{Tie, order_of, push_if};
use crate::put::put_row;
use crate::row::TableRow;
use indexmap::IndexMap;
use mt_mounts::mount::{MountId, SpaceId};
use mt_propagate::world::World;
use mt_skel::fault::Fault;
use std::alloc::Global;

/// Which rows of tables have their mounts in a world.
pub(crate) struct Kept {
    /// Which row is that of the mount of an ID.
    put: IndexMap<MountId, usize>,
    /// Why rows have no mount: those of which this is `None` have one.
    left: Vec<Option<Misfit>>,
}

impl Drop for Kept {
    fn drop(self) {
        let Kept {
            put: _put,
            left: _left,
        } = self;
    }
}

/// Whether this row is of a mount with this ID in a namespace.
fn is_mount_of(row: &TableRow, space: SpaceId, id: MountId) -> bool
    ensures { result ≡ is_mount_of space id row.now }
{
    row.id == id && row.space == space
}

/// Whether any row is of a mount with this ID in a namespace.
fn has_row(rows: &[TableRow], space: SpaceId, id: MountId) -> bool
    ensures { result ≡ list_any (is_mount_of space id) rows.now }
{
    rows.iter().any(|row| is_mount_of(row, space, id))
}

/// Whether a row is that of a root mount: it stands at `/`, and on itself or on a mount that its table does not have.
fn is_root_of_table(rows: &[TableRow], row: &TableRow) -> bool
    ensures { result ≡ is_root_of_table rows.now row.now }
{
    row.is_at_root() && (row.parent == row.id || !has_row(rows, row.space, row.parent))
}

impl Kept {
    /// None has a mount.
    fn new(alloc: Global, rows: &[TableRow]) -> Result<Kept, Fault>
        ensures sized { IfOk result (λ kept. length kept.left.items ≡ length rows.now) }
        ensures waits { IfOk result (λ kept. (k : ℕ) → k < length rows.now → waits_for_parent kept.left.items k) }
        ensures none { IfOk result (λ kept. (i : ℕ) → get nat_eq kept.put i ≡ None) }
        ensures memory { IsOkUnless result Fault.NoMemory }
    {
        let left = vec![in alloc; Some(Misfit::NoParent); rows.len()]?;
        Ok(Kept {
            put: IndexMap::new(alloc),
            left,
        })
    }

    /// Why rows have no mount.
    fn into_left(self) -> Vec<Option<Misfit>>
        ensures { result.items ≡ self.left.items }
    {
        let Kept { put: _put, left } = self;
        left
    }

    /// The row of the mount on which that of a row stands, if that has its mount.
    fn parent_of<'r>(&self, rows: &'r [TableRow], row: &TableRow) -> Option<&'r TableRow>
        ensures found { IfSome result (λ above. (k : ℕ) × (get nat_eq self.now.put row.now.parent ≡ Some k) × (slice_get rows.now k ≡ Some above.now) × (above.now.space ≡ row.now.space)) }
        ensures none { result ≡ None → (k : ℕ) (above : RowOf) → get nat_eq self.now.put row.now.parent ≡ Some k → slice_get rows.now k ≡ Some above → above.space ≡ row.now.space → ⊥ }
    {
        let number = self.put.get(&row.parent)?;
        let above = rows.get(*number)?;
        if above.space == row.space {
            Some(above)
        } else {
            None
        }
    }

    /// Notes that the row of a number has its mount, which has this ID.
    fn keep(&mut self, number: usize, id: MountId) -> Result<(), Fault>
        requires { number < length self.old.left.items }
        ensures set { OnOk result (IsSetAt self.old.left.items self.new.left.items number None) }
        ensures noted { OnOk result ((i : ℕ) → get nat_eq self.new.put i ≡ cond (nat_eq id i) (Some number) (get nat_eq self.old.put i)) }
        ensures memory { IsOkUnless result Fault.NoMemory }
    {
        self.put.insert(id, number)?;
        self.left[number] = None;
        Ok(())
    }

    /// Notes why the row of a number has no mount.
    fn leave(&mut self, number: usize, why: Misfit)
        requires { number < length self.old.left.items }
        ensures set { IsSetAt self.old.left.items self.new.left.items number (Some why) }
        ensures put { self.new.put ≡ self.old.put }
    {
        self.left[number] = Some(why);
    }

    /// Adds the mount of the row of a number on that of another one, or as a root mount, and notes that it has one, or why not.
    fn put_on(
        &mut self,
        world: &mut World,
        rows: &[TableRow],
        number: usize,
        row: &TableRow,
        above: Option<&TableRow>,
    ) -> Result<(), Fault>
        requires kept { AreKept (world_view world.old) rows.now self.old.left.items (get nat_eq self.old.put) }
        requires here { slice_get rows.now number ≡ Some row.now }
        requires waits { waits_for_parent self.old.left.items number }
        requires stands { StandsRightly (world_view world.old) rows.now row.now (option_copied above) }
        ensures sound { IsSound (world_view world.new) }
        ensures kept { OnOk result (AreKept (world_view world.new) rows.now self.new.left.items (get nat_eq self.new.put)) }
        ensures others { OnOk result ((k : ℕ) → waits_for_parent self.new.left.items k → waits_for_parent self.old.left.items k) }
        ensures done { OnOk result (waits_for_parent self.new.left.items number → ⊥) }
        ensures room { OnOk result (world.new.skel.room ≡ world.old.skel.room) }
        ensures memory { IsOkUnless result Fault.NoMemory }
    {
        let Some(why) = put_row(world, row, above)? else {
            self.keep(number, row.id)?;
            return Ok(());
        };
        self.leave(number, why);
        Ok(())
    }

    /// Adds the mount of the row of a number, or notes why not, unless that was done before. Whether it waits: what it stands on is not there.
    #[tactic(auto, using(crate::proofs::KeptLaws::parentless))]
    fn try_row(
        &mut self,
        world: &mut World,
        rows: &[TableRow],
        number: usize,
    ) -> Result<bool, Fault>
        requires kept { AreKept (world_view world.old) rows.now self.old.left.items (get nat_eq self.old.put) }
        ensures sound { IsSound (world_view world.new) }
        ensures kept { OnOk result (AreKept (world_view world.new) rows.now self.new.left.items (get nat_eq self.new.put)) }
        ensures others { OnOk result ((k : ℕ) → waits_for_parent self.new.left.items k → waits_for_parent self.old.left.items k) }
        ensures done { IfOk result (λ waiting. waiting ≡ false → waits_for_parent self.new.left.items number → ⊥) }
        ensures same { IfOk result (λ waiting. waiting ≡ true → self.new.left.items ≡ self.old.left.items) }
        ensures parentless { IfOk result (λ waiting. waiting ≡ true → (row : RowOf) → slice_get rows.now number ≡ Some row → IsParentless rows.now self.old.left.items row) }
        ensures room { OnOk result (world.new.skel.room ≡ world.old.skel.room) }
        ensures memory { IsOkUnless result Fault.NoMemory }
    {
        let (Some(row), Some(Some(Misfit::NoParent))) = (rows.get(number), self.left.get(number))
        else {
            return Ok(false);
        };
        if is_root_of_table(rows, row) {
            self.put_on(world, rows, number, row, None)?;
            return Ok(false);
        }
        let Some(above) = self.parent_of(rows, row) else {
            return Ok(true);
        };
        self.put_on(world, rows, number, row, Some(above))?;
        Ok(false)
    }

    /// Tries these rows in turn, and answers those that wait.
    fn round(
        &mut self,
        alloc: Global,
        world: &mut World,
        rows: &[TableRow],
        waiting: &[usize],
    ) -> Result<Vec<usize>, Fault>
        requires kept { AreKept (world_view world.old) rows.now self.old.left.items (get nat_eq self.old.put) }
        requires waiting { (k : ℕ) → waits_for_parent self.old.left.items k → among waiting.now k ≡ true }
        ensures sound { IsSound (world_view world.new) }
        ensures kept { OnOk result (AreKept (world_view world.new) rows.now self.new.left.items (get nat_eq self.new.put)) }
        ensures waiting { IfOk result (λ later. (k : ℕ) → waits_for_parent self.new.left.items k → among later.items k ≡ true) }
        ensures fewer { IfOk result (λ later. length later.items ≤ length waiting.now) }
        ensures parentless { IfOk result (λ later. length waiting.now ≤ length later.items → (k : ℕ) (row : RowOf) → among later.items k ≡ true → slice_get rows.now k ≡ Some row → IsParentless rows.now self.new.left.items row) }
        ensures room { OnOk result (world.new.skel.room ≡ world.old.skel.room) }
        ensures memory { IsOkUnless result Fault.NoMemory }
    {
        let mut later = Vec::new(alloc);
        'turns: for number in waiting {
            let waits = self.try_row(world, rows, *number)?;
            push_if(&mut later, waits, *number)?;
        }
        Ok(later)
    }

    /// Tries these rows, and those that wait once more, until all of them wait.
    fn grow(
        &mut self,
        alloc: Global,
        world: &mut World,
        rows: &[TableRow],
        order: Vec<usize>,
    ) -> Result<(), Fault>
        requires kept { AreKept (world_view world.old) rows.now self.old.left.items (get nat_eq self.old.put) }
        requires waiting { (k : ℕ) → waits_for_parent self.old.left.items k → among order.items k ≡ true }
        ensures sound { IsSound (world_view world.new) }
        ensures kept { OnOk result (AreKept (world_view world.new) rows.now self.new.left.items (get nat_eq self.new.put)) }
        ensures parentless { OnOk result ((k : ℕ) (row : RowOf) → waits_for_parent self.new.left.items k → slice_get rows.now k ≡ Some row → IsParentless rows.now self.new.left.items row) }
        ensures room { OnOk result (world.new.skel.room ≡ world.old.skel.room) }
        ensures memory { IsOkUnless result Fault.NoMemory }
    {
        let mut waiting = order;
        'rounds: loop {
            let later = self.round(alloc, world, rows, waiting.as_slice())?;
            if later.len() >= waiting.len() {
                return Ok(());
            }
            waiting = later;
        }
    }
}

/// How rows stand on one another.
fn ties_of(alloc: Global, rows: &[TableRow]) -> Result<Vec<Tie>, Fault>
    ensures sized { IfOk result (λ ties. length ties.items ≡ length rows.now) }
    ensures memory { IsOkUnless result Fault.NoMemory }
{
    let mut ties = Vec::new(alloc);
    for row in rows {
        let below = if row.parent == row.id {
            None
        } else {
            Some(row.parent)
        };
        ties.push(Tie {
            name: Some(row.id),
            below,
        })?;
    }
    Ok(ties)
}

/// Adds the mounts of rows to a world without mounts, and answers why rows are left out: those of which this is `None` have their mounts.
pub(crate) fn grow(
    alloc: Global,
    world: &mut World,
    rows: &[TableRow],
) -> Result<Vec<Option<Misfit>>, Fault>
    requires sound { IsSound (world_view world.old) }
    requires numbers { HaveNumbers (world_view world.old) rows.now }
    requires filesystems { HaveFilesystems (world_view world.old).skel rows.now }
    requires bare { (world_view world.old).forest ≡ [] }
    requires few { (world.old.next_mount ≤ 2 ^ 62) × (world.old.next_space ≤ 2 ^ 62) }
    ensures sound { IsSound (world_view world.new) }
    ensures kept { IfOk result (λ left. AreGrown (world_view world.new) rows.now left.items) }
    ensures room { OnOk result (world.new.skel.room ≡ world.old.skel.room) }
    ensures memory { IsOkUnless result Fault.NoMemory }
{
    let ties = ties_of(alloc, rows)?;
    let order = order_of(alloc, ties.as_slice())?;
    let mut kept = Kept::new(alloc, rows)?;
    kept.grow(alloc, world, rows, order)?;
    Ok(kept.into_left())
}
