//! Mounts by the namespaces that they are in.
ghost use Rattle.std.specs.Prelude.{◌≡◌, ℕ, ◌++◌, ◌<◌, ◌==◌, [], ◌∷◌, cond, length, slice_index_or, IfOk, IfSome, OnOk, IsOkUnless, IsTrue};
ghost use Rattle.std.specs.List.{filter};
ghost use Rattle.std.specs.Option.{option_map};
ghost use Rattle.mt_propagate.specs.World.{world_view};
ghost use Rattle.mt_skel.specs.Keyed.{among, rises, row_at};
ghost use Rattle.mt_book.specs.Book.{space_in};
ghost use Rattle.mt_book.specs.Parts.{is_part, is_touched, part_at, space_at, is_position};

use mt_mounts::mount::{MountId, SpaceId};
use mt_propagate::sorted::in_order;
use mt_propagate::world::{World, space_of};
use mt_skel::fault::Fault;
use std::alloc::Global;
use std::marker::Model;

/// Mounts of one namespace.
#[derive(Drop)]
pub(crate) struct Part {
    ids: Vec<MountId>,
}

impl Model for Part {
    ghost use Rattle.std.specs.Prelude.{ℕ, List};

    ghost Value = { List ℕ };

    ghost view = { λ p. p.ids.items };
}

impl Part {
    /// No mounts. Takes no memory.
    fn new(alloc: Global) -> Self
        ensures { result ≡ [] }
    {
        Part {
            ids: Vec::new(alloc),
        }
    }

    /// Appends a mount.
    fn push(&mut self, id: MountId) -> Result<(), Fault>
        ensures pushed { OnOk result (self.new ≡ self.old ++ id ∷ []) }
        ensures memory { IsOkUnless result Fault.NoMemory }
    {
        self.ids.push(id)?;
        Ok(())
    }

    /// The mounts.
    pub(crate) fn as_slice(&self) -> &[MountId]
        ensures { result.now ≡ self.now }
    {
        self.ids.as_slice()
    }
}

/// Where a namespace stands among some by rising number, if it is there.
pub(crate) fn place_among(numbers: &[(SpaceId, u64)], space: SpaceId) -> Option<usize>
    requires rising { IsTrue (rises space_in numbers.now) }
    ensures within { IfSome result (λ at. at < length numbers.now) }
    ensures place { (k : ℕ) → k < length numbers.now → (space == space_at numbers.now k) ≡ is_position result k }
    ensures row { row_at space_in space numbers.now ≡ option_map (λ at. slice_index_or numbers.now at (0, 0)) result }
{
    match numbers.binary_search_by_key(&space, |row| row.0) {
        Ok(at) => Some(at),
        Err(_) => None,
    }
}

/// Appends a mount to the part of a namespace, if there is one: each part is of the namespace that stands there among
/// these.
fn push_to(
    parts: &mut Vec<Part>,
    numbers: &[(SpaceId, u64)],
    space: SpaceId,
    id: MountId,
) -> Result<(), Fault>
    requires rising { IsTrue (rises space_in numbers.now) }
    requires len { length parts.old.items ≡ length numbers.now }
    ensures len { OnOk result (length parts.new.items ≡ length parts.old.items) }
    ensures parts { OnOk result ((k : ℕ) → k < length parts.old.items → part_at parts.new.items k ≡ part_at parts.old.items k ++ cond (space == space_at numbers.now k) (id ∷ []) []) }
    ensures memory { IsOkUnless result Fault.NoMemory }
{
    let Some(at) = place_among(numbers, space) else {
        return Ok(());
    };
    parts[at].push(id)?;
    Ok(())
}

/// Appends a mount to the part of the namespace that it is in, and to the parts of both if it is in another one in the
/// second world.
fn push_mount(
    parts: &mut Vec<Part>,
    numbers: &[(SpaceId, u64)],
    old: &World,
    new: &World,
    id: MountId,
) -> Result<(), Fault>
    requires rising { IsTrue (rises space_in numbers.now) }
    requires len { length parts.old.items ≡ length numbers.now }
    ensures len { OnOk result (length parts.new.items ≡ length parts.old.items) }
    ensures parts { OnOk result ((k : ℕ) → k < length parts.old.items → part_at parts.new.items k ≡ part_at parts.old.items k ++ cond (is_part (world_view old.now) (world_view new.now) (space_at numbers.now k) id) (id ∷ []) []) }
    ensures memory { IsOkUnless result Fault.NoMemory }
{
    let before = space_of(old, id);
    let after = space_of(new, id);
    push_to(parts, numbers, before, id)?;
    if after == before {
        return Ok(());
    }
    push_to(parts, numbers, after, id)
}

/// This many parts without mounts.
fn empty_parts(alloc: Global, count: usize) -> Result<Vec<Part>, Fault>
    ensures len { IfOk result (λ parts. length parts.items ≡ count) }
    ensures parts { IfOk result (λ parts. (k : ℕ) → part_at parts.items k ≡ []) }
    ensures memory { IsOkUnless result Fault.NoMemory }
{
    let mut parts = Vec::with_capacity(alloc, count)?;
    'spaces: for _i in 0..count {
        parts.push(Part::new(alloc))?;
    }
    Ok(parts)
}

/// Mounts by these namespaces, each in its order, with every mount in the parts of those that it is in, in one world or
/// in the other.
pub(crate) fn parts_of(
    alloc: Global,
    old: &World,
    new: &World,
    ids: &[MountId],
    numbers: &[(SpaceId, u64)],
) -> Result<Vec<Part>, Fault>
    requires rising { IsTrue (rises space_in numbers.now) }
    ensures len { IfOk result (λ parts. length parts.items ≡ length numbers.now) }
    ensures parts { IfOk result (λ parts. (k : ℕ) → k < length numbers.now → part_at parts.items k ≡ filter (is_part (world_view old.now) (world_view new.now) (space_at numbers.now k)) ids.now) }
    ensures memory { IsOkUnless result Fault.NoMemory }
{
    let mut parts = empty_parts(alloc, numbers.len())?;
    'mounts: for id in ids {
        push_mount(&mut parts, numbers, old, new, *id)?;
    }
    Ok(parts)
}

/// The namespaces that one of these mounts was in, or is in, rising.
pub(crate) fn spaces_touched(
    alloc: Global,
    old: &World,
    new: &World,
    ids: &[MountId],
) -> Result<Vec<SpaceId>, Fault>
    ensures rising { IfOk result (λ spaces. IsTrue (rises (λ k. k) spaces.items)) }
    ensures touched { IfOk result (λ spaces. (n : ℕ) → among spaces.items n ≡ is_touched (world_view old.now) (world_view new.now) ids.now n) }
    ensures memory { IsOkUnless result Fault.NoMemory }
{
    let mut spaces = Vec::new(alloc);
    'mounts: for id in ids {
        spaces.push(space_of(old, *id))?;
        spaces.push(space_of(new, *id))?;
    }
    Ok(in_order(spaces))
}
