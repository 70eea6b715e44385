//! What changes from one world to another one, as JSON.
ghost use Rattle.std.specs.Prelude.{◌≡◌, ◌++◌, OnOk, IsOkUnless};
ghost use Rattle.mt_propagate.specs.World.{world_view};
ghost use Rattle.mt_propagate.specs.WellFormed.{IsWellFormed};
ghost use Rattle.mt_what_if.specs.Told.{table_events, events_between, events_text};

use crate::difference::rows_if_there;
use crate::known_space::KnownSpace;
use mt_events::change::change;
use mt_events::mirror::Mirror;
use mt_events::post::Post;
use mt_info::table::Table;
use mt_mounts::mount::SpaceId;
use mt_propagate::world::World;
use mt_render::telling::{Telling, told_as};
use mt_skel::fault::Fault;

/// Appends the objects of what changes from one table of a namespace to another one.
fn push_events(
    text: &mut Vec<u8>,
    space: SpaceId,
    name: &[u8],
    before: Table,
    after: &Table,
) -> Result<(), Fault>
    ensures text { OnOk result (text.new.items ≡ text.old.items ++ table_events space name.now before after.now) }
    ensures memory { IsOkUnless result Fault.NoMemory }
{
    let alloc = *text.allocator();
    let Some(delta) = change(alloc, &before, after)? else {
        return Ok(());
    };
    let post = Post::telling(space, 1, delta);
    let mirror = Mirror::new(space, 0, before);
    text.extend_from_slice(&told_as(alloc, Telling::Json, &mirror, &post, name)?)?;
    Ok(())
}

/// Appends the objects of what changes in a namespace.
fn push_events_between(
    text: &mut Vec<u8>,
    before: &World,
    after: &World,
    space: &KnownSpace,
) -> Result<(), Fault>
    requires before { IsWellFormed (world_view before.now) }
    requires after { IsWellFormed (world_view after.now) }
    ensures text { OnOk result (text.new.items ≡ text.old.items ++ events_between (world_view before.now) (world_view after.now) space.now) }
    ensures memory { IsOkUnless result Fault.NoMemory }
{
    let first = rows_if_there(before, space.number)?;
    let second = rows_if_there(after, space.number)?;
    push_events(text, space.number, &space.name, first, &second)
}

/// Appends what changes from one world to another one in each of these namespaces, in their order: an object a line for each
/// mount, as posts of a server are told. Refused as `NoMemory` alone.
#[tactic(auto, unfolding(crate::specs::Told::events_text))]
pub fn push_events_text(
    text: &mut Vec<u8>,
    before: &World,
    after: &World,
    spaces: &[KnownSpace],
) -> Result<(), Fault>
    requires before { IsWellFormed (world_view before.now) }
    requires after { IsWellFormed (world_view after.now) }
    ensures text { OnOk result (text.new.items ≡ text.old.items ++ events_text (world_view before.now) (world_view after.now) spaces.now) }
    ensures memory { IsOkUnless result Fault.NoMemory }
{
    'spaces: for space in spaces {
        push_events_between(text, before, after, space)?;
    }
    Ok(())
}
