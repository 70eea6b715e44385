//! What is locked of all mounts.
ghost use Rattle.std.specs.Prelude.{◌≡◌, ℕ, ◌&&◌, ◌==◌, ◌++◌, length, map, is_some, IfOk, OnOk, IsOkUnless};
ghost use Rattle.std.specs.List.{filter, find, list_any};
ghost use Rattle.std.specs.Option.{option_map_or, option_to_list, unwrap_or};
ghost use Rattle.mt_mounts.specs.Forest.{mount_at};
ghost use Rattle.mt_locks.specs.declared.mount_locks.MountLocks.{MountLocks as AnyLocks};
ghost use Rattle.mt_locks.specs.MountLocks.{locked_mount, unlocked, locks_some};
ghost use Rattle.mt_locks.specs.Locks.{no_locks, owner_of, locks_of, locked_ids, is_locked, unlocked_by, changed_locks, kept_locks};

use crate::mount_locks::MountLocks;
use mt_mounts::forest::Forest;
use mt_mounts::mount::{MountId, SpaceId};
use mt_skel::fault::Fault;
use mt_skel::list::is_among;
use std::alloc::Global;
use std::marker::Model;

/// What is locked of all mounts, and who owns the namespaces.
///
/// An owner is a number, which stands for the user namespace that a mount namespace belongs to. Most namespaces have the
/// owner 0. A namespace that was made as a less privileged copy with locks is its own owner, and each copy of it has that
/// owner too.
#[derive(Drop)]
pub struct Locks {
    owners: Vec<(SpaceId, SpaceId)>,
    mounts: Vec<MountLocks>,
}

impl Model for Locks {
    ghost use Rattle.mt_locks.specs.Locks.{LocksView};

    ghost Value = { LocksView };

    ghost view = { λ l. record { owners = l.owners.items; mounts = l.mounts.items } };
}

impl Locks {
    /// Nothing is locked. Memory will come from `alloc`.
    pub fn new(alloc: Global) -> Locks
        ensures { result ≡ no_locks }
    {
        Locks {
            owners: Vec::new(alloc),
            mounts: Vec::new(alloc),
        }
    }

    /// The same locks and owners.
    pub fn copy(&self) -> Result<Locks, Fault>
        ensures copy { IfOk result (λ locks. locks ≡ self.now) }
        ensures memory { IsOkUnless result Fault.NoMemory }
    {
        let owners = Vec::from_slice(*self.owners.allocator(), &self.owners)?;
        let mounts = Vec::from_slice(*self.mounts.allocator(), &self.mounts)?;
        Ok(Locks { owners, mounts })
    }

    /// Becomes the same as others. After a refusal some of it may be done.
    pub fn follow(&mut self, other: &Locks) -> Result<(), Fault>
        ensures locks { OnOk result (self.new ≡ other.now) }
        ensures memory { IsOkUnless result Fault.NoMemory }
    {
        self.owners.clear();
        self.owners.extend_from_slice(&other.owners)?;
        self.mounts.clear();
        self.mounts.extend_from_slice(&other.mounts)?;
        Ok(())
    }

    /// Whether nothing is locked and each namespace has the owner 0.
    pub fn are_none(&self) -> bool
        ensures { result ≡ ((length self.now.owners == 0) && (length self.now.mounts == 0)) }
    {
        self.owners.is_empty() && self.mounts.is_empty()
    }

    /// The owner of a namespace.
    pub fn owner_of(&self, space: SpaceId) -> SpaceId
        ensures { result ≡ owner_of self.now space }
    {
        owner_among(&self.owners, space)
    }

    /// What is locked of a mount.
    pub fn of(&self, id: MountId) -> MountLocks
        ensures { result ≡ locks_of self.now id }
    {
        locks_among(&self.mounts, id)
    }

    /// Whether a mount is locked on its place.
    pub fn is_locked(&self, id: MountId) -> bool
        ensures { result ≡ is_locked self.now id }
    {
        is_locked_among(&self.mounts, id)
    }

    /// What is locked, of each mount of which something is.
    pub fn mounts(&self) -> &[MountLocks]
        ensures { result.now ≡ self.now.mounts }
    {
        self.mounts.as_slice()
    }

    /// The mounts that are locked on their places.
    pub fn locked_ids(&self) -> Result<Vec<MountId>, Fault>
        ensures ids { IfOk result (λ ids. ids.items ≡ locked_ids self.now) }
        ensures memory { IsOkUnless result Fault.NoMemory }
    {
        ids_locked(*self.mounts.allocator(), &self.mounts)
    }

    /// What will be locked where these mounts are not locked on their places any more, others come with these locks, and
    /// maybe a namespace with this owner.
    pub fn changed(
        &self,
        met: &[MountId],
        came: &[MountLocks],
        owner: Option<(SpaceId, SpaceId)>,
    ) -> Result<Locks, Fault>
        ensures changed { IfOk result (λ locks. locks ≡ changed_locks met.now came.now owner self.now) }
        ensures memory { IsOkUnless result Fault.NoMemory }
    {
        let owners = owners_with(*self.owners.allocator(), &self.owners, owner)?;
        let mut mounts = all_unlocked_by(*self.mounts.allocator(), met, &self.mounts)?;
        mounts.extend_from_slice(came)?;
        Ok(Locks { owners, mounts })
    }

    /// What is locked of mounts that are there, and the owners of namespaces that are there. Takes no memory.
    pub fn kept(self, forest: &Forest) -> Locks
        ensures { result ≡ kept_locks forest.now.mounts self }
    {
        let mut owners = self.owners;
        let mut mounts = self.mounts;
        owners.retain(|row| forest.root(row.0).is_some());
        mounts.retain(|row| is_kept(forest, row));
        Locks { owners, mounts }
    }
}

/// The owner of a namespace, by those that have another owner than 0.
fn owner_among(owners: &[(SpaceId, SpaceId)], space: SpaceId) -> SpaceId
    ensures { result ≡ option_map_or (λ (o : ℕ × ℕ). o.1) (find (λ (o : ℕ × ℕ). o.0 == space) owners.now) 0 }
{
    for row in owners {
        if row.0 == space {
            return row.1;
        }
    }
    0
}

/// What is locked of a mount, by those of which something is.
fn locks_among(mounts: &[MountLocks], id: MountId) -> MountLocks
    ensures { result ≡ unwrap_or (find (λ (k : AnyLocks). k.mount == id) mounts.now) (unlocked id) }
{
    for row in mounts {
        if row.mount == id {
            return *row;
        }
    }
    MountLocks::new(id)
}

/// Whether a mount is locked on its place, by those of which something is locked.
fn is_locked_among(mounts: &[MountLocks], id: MountId) -> bool
    ensures { result ≡ list_any (λ (k : AnyLocks). k.place && (k.mount == id)) mounts.now }
{
    for row in mounts {
        if row.place && row.mount == id {
            return true;
        }
    }
    false
}

/// Those of these mounts that are locked on their places.
fn ids_locked(alloc: Global, mounts: &[MountLocks]) -> Result<Vec<MountId>, Fault>
    ensures ids { IfOk result (λ ids. ids.items ≡ map locked_mount (filter (λ (k : AnyLocks). k.place) mounts.now)) }
    ensures memory { IsOkUnless result Fault.NoMemory }
{
    let mut ids = Vec::new(alloc);
    for row in mounts {
        if row.place {
            ids.push(row.mount)?;
        }
    }
    Ok(ids)
}

/// Owners, and one more, if there is one.
fn owners_with(
    alloc: Global,
    owners: &[(SpaceId, SpaceId)],
    owner: Option<(SpaceId, SpaceId)>,
) -> Result<Vec<(SpaceId, SpaceId)>, Fault>
    ensures owners { IfOk result (λ all. all.items ≡ owners.now ++ option_to_list owner) }
    ensures memory { IsOkUnless result Fault.NoMemory }
{
    let mut all = Vec::from_slice(alloc, owners)?;
    if let Some(row) = owner {
        all.push(row)?;
    }
    Ok(all)
}

/// What is locked of a mount, if these are not locked on their places any more.
fn unlocked_by(met: &[MountId], row: MountLocks) -> MountLocks
    ensures { result ≡ unlocked_by met.now row }
{
    if is_among(met, row.mount) {
        row.without_place()
    } else {
        row
    }
}

/// What is locked of mounts, once some are not locked on their places any more.
fn all_unlocked_by(
    alloc: Global,
    met: &[MountId],
    mounts: &[MountLocks],
) -> Result<Vec<MountLocks>, Fault>
    ensures mounts { IfOk result (λ all. all.items ≡ map (unlocked_by met.now) mounts.now) }
    ensures memory { IsOkUnless result Fault.NoMemory }
{
    let mut all = Vec::with_capacity(alloc, mounts.len())?;
    for row in mounts {
        all.push(unlocked_by(met, *row))?;
    }
    Ok(all)
}

/// Whether something is locked of a mount that is there.
fn is_kept(forest: &Forest, row: &MountLocks) -> bool
    ensures { result ≡ (is_some (mount_at forest.now.mounts row.now.mount) && locks_some row.now) }
{
    forest.get(row.mount).is_some() && row.locks_some()
}
