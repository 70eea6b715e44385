//! What changes from one world to another one, namespace by namespace.
ghost use Rattle.std.specs.Prelude.{◌≡◌, ◌++◌, IfOk, OnOk, IsOkUnless};
ghost use Rattle.std.specs.List.{filter};
ghost use Rattle.mt_propagate.specs.World.{world_view};
ghost use Rattle.mt_propagate.specs.WellFormed.{IsWellFormed};
ghost use Rattle.mt_what_if.specs.Difference.{rows_if_there, between_text, difference_text, changes_between, changes_elsewhere};

use crate::known_space::KnownSpace;
use crate::numbers::Numbers;
use crate::space::push_space;
use mt_info::table::{Table, table_of};
use mt_mounts::mount::SpaceId;
use mt_propagate::world::World;
use mt_skel::fault::Fault;

/// The table of a namespace, which has no row where there is no such namespace.
pub(crate) fn rows_if_there(world: &World, space: SpaceId) -> Result<Table, Fault>
    requires { IsWellFormed (world_view world.now) }
    ensures table { IfOk result (λ table. table ≡ rows_if_there (world_view world.now) space) }
    ensures memory { IsOkUnless result Fault.NoMemory }
{
    if world.forest.root(space).is_none() {
        return Ok(Table::new(Vec::new(world.forest.allocator())));
    }
    let table = table_of(world, space)?;
    Ok(table)
}

/// Appends what changes in a namespace.
fn push_between(
    text: &mut Vec<u8>,
    numbers: Numbers,
    before: &World,
    after: &World,
    space: &KnownSpace,
) -> Result<(), Fault>
    requires before { IsWellFormed (world_view before.now) }
    requires after { IsWellFormed (world_view after.now) }
    ensures text { OnOk result (text.new.items ≡ text.old.items ++ between_text numbers (world_view before.now) (world_view after.now) space.now) }
    ensures memory { IsOkUnless result Fault.NoMemory }
{
    let first = rows_if_there(before, space.number)?;
    let second = rows_if_there(after, space.number)?;
    push_space(
        text,
        numbers,
        &after.peers,
        space,
        first.rows(),
        second.rows(),
    )?;
    Ok(())
}

/// Appends what changes from one world to another one in each of these namespaces, in their order: a line with the name of each
/// that changes, and below it lines of its mounts. Refused as `NoMemory` alone.
#[tactic(auto, unfolding(crate::specs::Difference::difference_text))]
pub fn push_difference(
    text: &mut Vec<u8>,
    numbers: Numbers,
    before: &World,
    after: &World,
    spaces: &[KnownSpace],
) -> Result<(), Fault>
    requires before { IsWellFormed (world_view before.now) }
    requires after { IsWellFormed (world_view after.now) }
    ensures text { OnOk result (text.new.items ≡ text.old.items ++ difference_text numbers (world_view before.now) (world_view after.now) spaces.now) }
    ensures memory { IsOkUnless result Fault.NoMemory }
{
    'spaces: for space in spaces {
        push_between(text, numbers, before, after, space)?;
    }
    Ok(())
}

/// Whether the table of a namespace changes.
fn changes_between(before: &World, after: &World, space: SpaceId) -> Result<bool, Fault>
    requires before { IsWellFormed (world_view before.now) }
    requires after { IsWellFormed (world_view after.now) }
    ensures changes { IfOk result (λ changes. changes ≡ changes_between (world_view before.now) (world_view after.now) space) }
    ensures memory { IsOkUnless result Fault.NoMemory }
{
    let first = rows_if_there(before, space)?;
    let second = rows_if_there(after, space)?;
    Ok(!first.same(&second))
}

/// Whether a namespace that no line names was there before, and changes.
fn changes_elsewhere(before: &World, after: &World, space: &KnownSpace) -> Result<bool, Fault>
    requires before { IsWellFormed (world_view before.now) }
    requires after { IsWellFormed (world_view after.now) }
    ensures changes { IfOk result (λ changes. changes ≡ changes_elsewhere (world_view before.now) (world_view after.now) space.now) }
    ensures memory { IsOkUnless result Fault.NoMemory }
{
    if !space.is_unnamed() {
        return Ok(false);
    }
    changes_between(before, after, space.number)
}

/// Those of these namespaces that were there before, that no line names, and that change. Refused as `NoMemory` alone.
pub(crate) fn changed_elsewhere(
    before: &World,
    after: &World,
    spaces: &[KnownSpace],
) -> Result<Vec<KnownSpace>, Fault>
    requires before { IsWellFormed (world_view before.now) }
    requires after { IsWellFormed (world_view after.now) }
    ensures changed { IfOk result (λ changed. changed.items ≡ filter (changes_elsewhere (world_view before.now) (world_view after.now)) spaces.now) }
    ensures memory { IsOkUnless result Fault.NoMemory }
{
    let mut changed = Vec::new(before.forest.allocator());
    'spaces: for space in spaces {
        if changes_elsewhere(before, after, space)? {
            changed.push(space.copy()?)?;
        }
    }
    Ok(changed)
}
