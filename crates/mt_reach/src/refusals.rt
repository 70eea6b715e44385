//! The mounts for which a command is refused: each list is empty exactly where the refusal does not hold.
ghost use Rattle.std.specs.Prelude.{◌≡◌, IfOk, IsOkUnless, IsTrue};
ghost use Rattle.mt_reach.specs.Tree.{seen_children, in_tree};
ghost use Rattle.mt_reach.specs.Refusals.{shared_parent, is_unbindable_in, unbindable_inside, way_below, into_itself, is_below_in, tree_below, off_root, at_root_place, left_outside};

use crate::row::{SeenDirectory, SeenRow};
use crate::rows::SeenRows;
use crate::upward::{Step, Upward};
use mt_mounts::mount::MountId;
use mt_skel::fault::Fault;

/// Why an unmount of a mount is `Busy`: the mounts that stand on it, by rising ID (umount(2), EBUSY). Refused as `NoMemory`
/// alone.
pub fn standing_on(rows: &SeenRows, id: MountId) -> Result<Vec<MountId>, Fault>
    ensures children { IfOk result (λ ids. ids.items ≡ seen_children rows.now id) }
    ensures memory { IsOkUnless result Fault.NoMemory }
{
    let mut ids = Vec::new(rows.allocator());
    let Some(parent) = rows.get(id) else {
        return Ok(ids);
    };
    'rows: for row in rows.rows() {
        if row.stands_on(parent) {
            ids.push(row.id)?;
        }
    }
    Ok(ids)
}

/// Why a move of a mount, or a pivot to it, is refused as `SharedParent`: the mount that it stands on, where that is in a peer
/// group. Takes no memory.
pub fn shared_parent(rows: &SeenRows, id: MountId) -> Option<MountId>
    ensures { result ≡ shared_parent rows.now id }
{
    let parent = rows.parent_of(id)?;
    match rows.group_of(parent) {
        Some(_group) => Some(parent),
        None => None,
    }
}

/// Whether a mount is unbindable, and in the tree of the goal. Refused as `NoMemory` alone.
#[tactic(auto, unfolding(crate::specs::Refusals::is_unbindable_in))]
fn is_unbindable_in(upward: &mut Upward<'_>, row: &SeenRow) -> Result<bool, Fault>
    requires { upward.old.step ≡ Step.ToParent }
    ensures inside { IfOk result (λ is. is ≡ is_unbindable_in upward.old.rows upward.old.goal row.now) }
    ensures kept { upward.new ≡ upward.old }
    ensures memory { IsOkUnless result Fault.NoMemory }
{
    if !row.unbindable {
        return Ok(false);
    }
    upward.is_met(row.id)
}

/// Why a move of a mount onto another is refused as `UnbindableInside`: the unbindable mounts of its tree, by rising ID, where the
/// other is in a peer group. Refused as `NoMemory` alone.
pub fn unbindable_inside(rows: &SeenRows, id: MountId, onto: MountId) -> Result<Vec<MountId>, Fault>
    ensures inside { IfOk result (λ ids. ids.items ≡ unbindable_inside rows.now id onto) }
    ensures memory { IsOkUnless result Fault.NoMemory }
{
    let mut ids = Vec::new(rows.allocator());
    if rows.group_of(onto).is_none() {
        return Ok(ids);
    }
    let mut upward = Upward::new(rows, Step::ToParent, id);
    'rows: for row in rows.rows() {
        if is_unbindable_in(&mut upward, row)? {
            ids.push(row.id)?;
        }
    }
    Ok(ids)
}

/// Whether a mount is in the tree of another; then puts into `way` the mounts from it up to the other, which is not among them.
/// Refused as `NoMemory` alone.
fn go_up(rows: &SeenRows, id: MountId, from: MountId, way: &mut Vec<MountId>) -> Result<bool, Fault>
    ensures met { IfOk result (λ met. met ≡ in_tree rows.now id from) }
    ensures way { IfOk result (λ met. IsTrue met → way.new.items ≡ way_below rows.now id from) }
    ensures memory { IsOkUnless result Fault.NoMemory }
{
    way.clear();
    let mut here = from;
    'up: for _step in 0..=rows.len() {
        if here == id {
            return Ok(true);
        }
        way.push(here)?;
        let Some(parent) = rows.parent_of(here) else {
            return Ok(false);
        };
        here = parent;
    }
    Ok(false)
}

/// Why a move of a mount onto another is refused as `IntoItself`: the mounts from it down to the other one, where that stands
/// below it or is the same (mount(2), MS_MOVE). Refused as `NoMemory` alone.
pub fn into_itself(rows: &SeenRows, id: MountId, onto: MountId) -> Result<Vec<MountId>, Fault>
    ensures into { IfOk result (λ ids. ids.items ≡ into_itself rows.now id onto) }
    ensures memory { IsOkUnless result Fault.NoMemory }
{
    let mut way = Vec::new(rows.allocator());
    if !go_up(rows, id, onto, &mut way)? {
        return Ok(Vec::new(rows.allocator()));
    }
    way.push(id)?;
    way.reverse();
    Ok(way)
}

/// Whether a mount stands on the goal, at whatever height. Refused as `NoMemory` alone.
#[tactic(auto, unfolding(crate::specs::Refusals::is_below_in))]
fn is_below_in(upward: &mut Upward<'_>, row: &SeenRow) -> Result<bool, Fault>
    requires { upward.old.step ≡ Step.ToParent }
    ensures inside { IfOk result (λ is. is ≡ is_below_in upward.old.rows upward.old.goal row.now) }
    ensures kept { upward.new ≡ upward.old }
    ensures memory { IsOkUnless result Fault.NoMemory }
{
    if row.id == upward.goal() {
        return Ok(false);
    }
    upward.is_met(row.id)
}

/// The mounts that stand on a mount, at whatever height, by rising ID. Refused as `NoMemory` alone.
pub fn tree_below(rows: &SeenRows, id: MountId) -> Result<Vec<MountId>, Fault>
    ensures below { IfOk result (λ ids. ids.items ≡ tree_below rows.now id) }
    ensures memory { IsOkUnless result Fault.NoMemory }
{
    let mut ids = Vec::new(rows.allocator());
    let mut upward = Upward::new(rows, Step::ToParent, id);
    'rows: for row in rows.rows() {
        if is_below_in(&mut upward, row)? {
            ids.push(row.id)?;
        }
    }
    Ok(ids)
}

/// Why a path that ends in a directory of a mount names none, `NotMountRoot`: the mount, where the directory is not the one at its
/// root (umount2(2), EINVAL). Takes no memory.
pub fn off_root(rows: &SeenRows, id: MountId, directory: &SeenDirectory) -> Option<MountId>
    ensures { result ≡ off_root rows.now id directory.now }
{
    let row = rows.get(id)?;
    if row.root.is_same(directory) {
        None
    } else {
        Some(id)
    }
}

/// Why a path that ends in a directory of a mount is refused as `RootPlace`: the mount, where it is the root mount of its
/// namespace, and the directory the one at its root. Takes no memory.
pub fn at_root_place(rows: &SeenRows, id: MountId, directory: &SeenDirectory) -> Option<MountId>
    ensures { result ≡ at_root_place rows.now id directory.now }
{
    let row = rows.get(id)?;
    if rows.parent_row(row).is_none() && row.root.is_same(directory) {
        Some(id)
    } else {
        None
    }
}

/// Why a pivot to a mount is refused as `IntoItself`, where the old root would stand on another one: that one and the new root,
/// where the first is not in the tree of the second (pivot_root(2), EINVAL). Refused as `NoMemory` alone.
pub fn left_outside(rows: &SeenRows, new: MountId, onto: MountId) -> Result<Vec<MountId>, Fault>
    ensures outside { IfOk result (λ ids. ids.items ≡ left_outside rows.now new onto) }
    ensures memory { IsOkUnless result Fault.NoMemory }
{
    let mut ids = Vec::new(rows.allocator());
    let mut upward = Upward::new(rows, Step::ToParent, new);
    if upward.is_met(onto)? {
        return Ok(ids);
    }
    ids.push(onto)?;
    ids.push(new)?;
    Ok(ids)
}
