//! The numbers of namespaces, by rising namespace.
ghost use Rattle.std.specs.Prelude.{◌≡◌, ℕ, ◌++◌, [], ◌∷◌, IfOk, OnOk, IsOkUnless, IsTrue};
ghost use Rattle.std.specs.List.{filter};
ghost use Rattle.std.specs.Option.{option_to_list};
ghost use Rattle.mt_skel.specs.Keyed.{among, rises, row_at};
ghost use Rattle.mt_propagate.specs.World.{world_view};
ghost use Rattle.mt_book.specs.Book.{space_in, with_newborn, still_there};
ghost use Rattle.mt_book.specs.Parts.{merged};

use crate::parts::place_among;
use mt_mounts::mount::SpaceId;
use mt_propagate::world::World;
use mt_skel::fault::Fault;
use std::alloc::Global;

/// The numbers of namespaces before a command, with that of one that it makes, if it makes one: 0.
pub(crate) fn numbers_before(
    alloc: Global,
    numbers: &[(SpaceId, u64)],
    newborn: SpaceId,
    makes_space: bool,
) -> Result<Vec<(SpaceId, u64)>, Fault>
    ensures numbers { IfOk result (λ before. before.items ≡ with_newborn numbers.now newborn makes_space) }
    ensures memory { IsOkUnless result Fault.NoMemory }
{
    let mut before = Vec::from_slice(alloc, numbers)?;
    if makes_space {
        before.push((newborn, 0))?;
    }
    Ok(before)
}

/// The numbers of those namespaces that are there.
pub(crate) fn still_there(
    alloc: Global,
    world: &World,
    numbers: &[(SpaceId, u64)],
) -> Result<Vec<(SpaceId, u64)>, Fault>
    ensures there { IfOk result (λ there. there.items ≡ still_there (world_view world.now) numbers.now) }
    ensures memory { IsOkUnless result Fault.NoMemory }
{
    let mut there = Vec::with_capacity(alloc, numbers.len())?;
    'spaces: for row in numbers {
        if world.forest.root(row.0).is_some() {
            there.push(*row)?;
        }
    }
    Ok(there)
}

/// Appends the number of a namespace, if it has one.
fn push_number(
    some: &mut Vec<(SpaceId, u64)>,
    numbers: &[(SpaceId, u64)],
    space: SpaceId,
) -> Result<(), Fault>
    requires rising { IsTrue (rises space_in numbers.now) }
    ensures pushed { OnOk result (some.new.items ≡ some.old.items ++ option_to_list (row_at space_in space numbers.now)) }
    ensures memory { IsOkUnless result Fault.NoMemory }
{
    let Some(at) = place_among(numbers, space) else {
        return Ok(());
    };
    some.push(numbers[at])?;
    Ok(())
}

/// The numbers of those of these namespaces that have one.
pub(crate) fn numbers_in(
    alloc: Global,
    numbers: &[(SpaceId, u64)],
    spaces: &[SpaceId],
) -> Result<Vec<(SpaceId, u64)>, Fault>
    requires rising { IsTrue (rises space_in numbers.now) }
    requires spaces { IsTrue (rises (λ k. k) spaces.now) }
    ensures some { IfOk result (λ some. some.items ≡ filter (λ r. among spaces.now (space_in r)) numbers.now) }
    ensures memory { IsOkUnless result Fault.NoMemory }
{
    let mut some = Vec::with_capacity(alloc, spaces.len())?;
    'spaces: for space in spaces {
        push_number(&mut some, numbers, *space)?;
    }
    Ok(some)
}

/// Replaces the number of a namespace by its new one, if it has one.
pub(crate) fn put_number(all: &mut Vec<(SpaceId, u64)>, row: (SpaceId, u64))
    requires rising { IsTrue (rises space_in all.old.items) }
    ensures rising { IsTrue (rises space_in all.new.items) }
    ensures rows { (n : ℕ) → row_at space_in n all.new.items ≡ merged all.old.items (row ∷ []) n }
{
    let Some(at) = place_among(all, row.0) else {
        return;
    };
    all[at] = row;
}

/// Replaces the numbers of namespaces by new ones. One that had none gets none.
pub(crate) fn put_numbers(all: &mut Vec<(SpaceId, u64)>, changed: &[(SpaceId, u64)])
    requires rising { IsTrue (rises space_in all.old.items) }
    requires changed { IsTrue (rises space_in changed.now) }
    ensures rising { IsTrue (rises space_in all.new.items) }
    ensures rows { (n : ℕ) → row_at space_in n all.new.items ≡ merged all.old.items changed.now n }
{
    'rows: for row in changed {
        put_number(all, *row);
    }
}
