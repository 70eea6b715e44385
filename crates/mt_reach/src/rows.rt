//! The rows of all tables that were read.
ghost use Rattle.std.specs.Prelude.{◌≡◌, ◌↔◌, IsSome, IfOk, IfSome, IsOkUnless, IsTrue, MatchOption, None, Some, length, map};
ghost use Rattle.mt_skel.specs.Keyed.{rises};
ghost use Rattle.mt_peers.specs.Peers.{has_member};
ghost use Rattle.mt_peers.specs.Masters.{master_of};
ghost use Rattle.mt_reach.specs.Rows.{seen_id, seen_at, seen_group, peers_in};
ghost use Rattle.mt_reach.specs.Tree.{seen_parent_row, seen_parent};

use crate::masters::{Masters, masters_of};
use crate::row::SeenRow;
use mt_mounts::mount::MountId;
use mt_peers::state::GroupId;
use mt_skel::fault::Fault;
use mt_skel::list::are_rising;
use std::alloc::Global;
use std::marker::Model;

/// The rows of all tables that were read, by rising ID.
pub struct SeenRows {
    rows: Vec<SeenRow>,
    masters: Masters,
}

// Written out, so that whoever owns them lets them go as one thing.
impl Drop for SeenRows {
    fn drop(self) {
        let SeenRows {
            rows: _rows,
            masters: _masters,
        } = self;
    }
}

impl Model for SeenRows {
    ghost use Rattle.std.specs.Prelude.{List, IsTrue};
    ghost use Rattle.mt_skel.specs.Keyed.{rises};
    ghost use Rattle.mt_reach.specs.declared.row.SeenRow.{SeenRow};
    ghost use Rattle.mt_reach.specs.Rows.{seen_id, peers_in};
    ghost use Rattle.mt_reach.specs.Masters.{AreMasters};

    ghost Value = { List SeenRow };

    ghost view = { λ s. s.rows.items };

    ghost invariant = { λ s. IsTrue (rises seen_id s.rows.items) × AreMasters (peers_in s.rows.items) s.masters };
}

/// The IDs of rows. Refused as `NoMemory` alone.
fn ids_of(alloc: Global, rows: &[SeenRow]) -> Result<Vec<MountId>, Fault>
    ensures ids { IfOk result (λ ids. ids.items ≡ map seen_id rows.now) }
    ensures memory { IsOkUnless result Fault.NoMemory }
{
    let ids = rows.iter().map(|row| row.id).collect(alloc)?;
    Ok(ids)
}

/// Whether the IDs of rows strictly rise. Refused as `NoMemory` alone.
fn is_rising(alloc: Global, rows: &[SeenRow]) -> Result<bool, Fault>
    ensures rising { IfOk result (λ is. is ≡ rises seen_id rows.now) }
    ensures memory { IsOkUnless result Fault.NoMemory }
{
    let ids = ids_of(alloc, rows)?;
    Ok(are_rising(ids.as_slice()))
}

impl SeenRows {
    /// All of these rows; `None` exactly where their IDs do not strictly rise. Refused as `NoMemory` alone.
    pub fn new(alloc: Global, rows: Vec<SeenRow>) -> Result<Option<SeenRows>, Fault>
        ensures rising { IfOk result (λ all. IsSome all ↔ IsTrue (rises seen_id rows.items)) }
        ensures rows { IfOk result (λ all. IfSome all (λ seen. seen ≡ rows.items)) }
        ensures memory { IsOkUnless result Fault.NoMemory }
    {
        if !is_rising(alloc, rows.as_slice())? {
            return Ok(None);
        }
        let masters = masters_of(alloc, rows.as_slice())?;
        Ok(Some(SeenRows { rows, masters }))
    }

    /// The rows, by rising ID.
    pub fn rows(&self) -> &[SeenRow]
        ensures rows { result.now ≡ self.now }
        ensures rising { IsTrue (rises seen_id self.now) }
    {
        self.rows.as_slice()
    }

    /// How many rows there are.
    pub fn len(&self) -> usize
        ensures { result ≡ length self.now }
    {
        self.rows.len()
    }

    /// Where memory for these rows comes from.
    pub(crate) fn allocator(&self) -> Global {
        *self.rows.allocator()
    }

    /// The row of the mount with this ID, found by halving the list; `None` where there is none. Takes no memory.
    pub fn get(&self, id: MountId) -> Option<&SeenRow>
        ensures { MatchOption result (seen_at self.now id ≡ None) (λ row. seen_at self.now id ≡ Some row.now) }
    {
        match self.rows.binary_search_by_key(&id, |row| row.id) {
            Ok(at) => Some(&self.rows[at]),
            Err(_) => None,
        }
    }

    /// The peer group of a mount. Takes no memory.
    pub fn group_of(&self, id: MountId) -> Option<GroupId>
        ensures { result ≡ seen_group self.now id }
    {
        self.get(id)?.group
    }

    /// The master of a peer group: what its first member tells. Takes no memory.
    pub fn master_of(&self, group: GroupId) -> Option<GroupId>
        ensures { result ≡ master_of (peers_in self.now) group }
    {
        self.masters.get(&group).copied()?
    }

    /// Whether a row tells a member of a peer group. Takes no memory.
    #[tactic(auto, using(crate::proofs::MasterLaws::told_member))]
    pub fn has_member(&self, group: GroupId) -> bool
        ensures { result ≡ has_member (peers_in self.now) group }
    {
        self.masters.get(&group).copied().is_some()
    }

    /// The row of what a mount stands on; `None` where its table has not got that. Takes no memory.
    pub fn parent_row(&self, row: &SeenRow) -> Option<&SeenRow>
        ensures { MatchOption result (seen_parent_row self.now row.now ≡ None) (λ parent. seen_parent_row self.now row.now ≡ Some parent.now) }
    {
        let parent = self.get(row.parent)?;
        if row.stands_on(parent) {
            Some(parent)
        } else {
            None
        }
    }

    /// The mount that a mount stands on; `None` where its table has not got that. Takes no memory.
    pub fn parent_of(&self, id: MountId) -> Option<MountId>
        ensures { result ≡ seen_parent self.now id }
    {
        let row = self.get(id)?;
        let parent = self.parent_row(row)?;
        Some(parent.id)
    }
}
