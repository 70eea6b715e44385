//! What tells two rows of a mount apart before either of them is made.
ghost use Rattle.std.specs.Prelude.{◌≡◌, false, Some, IsTrue};
ghost use Rattle.mt_mounts.specs.declared.mount.Mount.{Mount as AnyMount};
ghost use Rattle.mt_mounts.specs.Forest.{mount_at};
ghost use Rattle.mt_propagate.specs.World.{world_view};
ghost use Rattle.mt_info.specs.Table.{row_of};
ghost use Rattle.mt_info.specs.SameRow.{row_eq, state_eq, is_alike, is_other};

use crate::same::{same_attrs, same_flag, same_group};
use mt_mounts::mount::{Mount, MountId};
use mt_peers::state::State;
use mt_propagate::world::{World, state_of};

/// Whether two states have the same group and master, and are both unbindable or both not.
fn same_state(left: State, right: State) -> bool
    ensures { result ≡ state_eq left right }
{
    same_group(left.group, right.group)
        && same_group(left.master, right.master)
        && same_flag(left.unbindable, right.unbindable)
}

/// Whether a mount of one world and one of another have the same attributes and the same state.
fn is_alike(before: &World, after: &World, old: &Mount, new: &Mount) -> bool
    ensures { result ≡ is_alike (world_view before.now) (world_view after.now) old.now new.now }
{
    same_attrs(old.attrs, new.attrs)
        && same_state(state_of(before, old.id), state_of(after, new.id))
}

/// Whether a mount that is in both worlds has different attributes or states in them, so that its rows differ, without
/// making these rows. If this is false, they may still differ. Takes no memory.
pub fn is_other(before: &World, after: &World, id: MountId) -> bool
    ensures other { result ≡ is_other (world_view before.now) (world_view after.now) id }
    ensures rows { IsTrue result → (m n : AnyMount) → mount_at before.now.forest.mounts id ≡ Some m → mount_at after.now.forest.mounts id ≡ Some n → row_eq (row_of (world_view before.now) m) (row_of (world_view after.now) n) ≡ false }
{
    let Some(old) = before.forest.get(id) else {
        return false;
    };
    let Some(new) = after.forest.get(id) else {
        return false;
    };
    !is_alike(before, after, &old, &new)
}
