//! What is judged before a command is done: what will be locked, or the first refusal up to those of locks.
ghost use Rattle.std.specs.Prelude.{◌≡◌, ◌≢◌, ◌<◌, ◌^◌, IfOk, IfErr, IsOkUnless, Ok, Err};
ghost use Rattle.mt_propagate.specs.World.{world_view};
ghost use Rattle.mt_propagate.specs.WellFormed.{IsWellFormed};
ghost use Rattle.mt_guard.specs.Judging.{mount_judged, bind_judged, move_judged, pivot_judged, unmount_judged, detach_judged, change_judged, open_judged, attach_judged};
ghost use Rattle.mt_book.specs.Step.{judged};

use crate::command::Command;
use mt_guard::copying::{copy_locks, open_locks};
use mt_guard::leaving::{detach_locks, unmount_locks};
use mt_guard::placing::{attach_locks, bind_locks, mount_locks, move_locks};
use mt_guard::standing::{change_locks, pivot_locks, same_locks};
use mt_locks::locks::Locks;
use mt_mounts::mount::SpaceId;
use mt_propagate::world::World;
use mt_setattr::change::{Change, SetWords};
use mt_skel::fault::Fault;
use mt_skel::names::Names;

/// Before a filesystem is mounted.
fn judge_mount(world: &World, space: SpaceId, path: &Names, set: &SetWords) -> Result<Locks, Fault>
    requires numbers { world.now.next_mount < 2 ^ 63 }
    ensures done { IfOk result (λ locks. mount_judged (world_view world.now) space path.now set.now ≡ Ok locks) }
    ensures memory { IsOkUnless result Fault.NoMemory }
{
    let locks = mount_locks(world, space, path.to_vec()?.as_slice(), set)?;
    Ok(locks)
}

/// Before mounts are bound.
fn judge_bind(
    world: &World,
    space: SpaceId,
    src: &Names,
    dst: &Names,
    recursive: bool,
) -> Result<Locks, Fault>
    requires well_formed { IsWellFormed (world_view world.now) }
    requires numbers { world.now.next_mount < 2 ^ 63 }
    ensures done { IfOk result (λ locks. bind_judged (world_view world.now) space recursive src.now dst.now ≡ Ok locks) }
    ensures refused { IfErr result (λ fault. fault ≢ Fault.NoMemory → bind_judged (world_view world.now) space recursive src.now dst.now ≡ Err fault) }
{
    let (src, dst) = (src.to_vec()?, dst.to_vec()?);
    let locks = bind_locks(world, space, recursive, src.as_slice(), dst.as_slice())?;
    Ok(locks)
}

/// Before a mount is moved.
fn judge_move(world: &World, space: SpaceId, src: &Names, dst: &Names) -> Result<Locks, Fault>
    requires well_formed { IsWellFormed (world_view world.now) }
    requires numbers { world.now.next_mount < 2 ^ 63 }
    ensures done { IfOk result (λ locks. move_judged (world_view world.now) space src.now dst.now ≡ Ok locks) }
    ensures refused { IfErr result (λ fault. fault ≢ Fault.NoMemory → move_judged (world_view world.now) space src.now dst.now ≡ Err fault) }
{
    let (src, dst) = (src.to_vec()?, dst.to_vec()?);
    let locks = move_locks(world, space, src.as_slice(), dst.as_slice())?;
    Ok(locks)
}

/// Before a mount becomes the root mount.
fn judge_pivot(world: &World, space: SpaceId, new: &Names, old: &Names) -> Result<Locks, Fault>
    ensures done { IfOk result (λ locks. pivot_judged (world_view world.now) space new.now old.now ≡ Ok locks) }
    ensures refused { IfErr result (λ fault. fault ≢ Fault.NoMemory → pivot_judged (world_view world.now) space new.now old.now ≡ Err fault) }
{
    let (new, old) = (new.to_vec()?, old.to_vec()?);
    let locks = pivot_locks(world, space, new.as_slice(), old.as_slice())?;
    Ok(locks)
}

/// Before a mount is unmounted.
fn judge_unmount(world: &World, space: SpaceId, path: &Names) -> Result<Locks, Fault>
    ensures done { IfOk result (λ locks. unmount_judged (world_view world.now) space path.now ≡ Ok locks) }
    ensures refused { IfErr result (λ fault. fault ≢ Fault.NoMemory → unmount_judged (world_view world.now) space path.now ≡ Err fault) }
{
    let locks = unmount_locks(world, space, path.to_vec()?.as_slice())?;
    Ok(locks)
}

/// Before a mount is detached.
fn judge_detach(world: &World, space: SpaceId, path: &Names) -> Result<Locks, Fault>
    ensures done { IfOk result (λ locks. detach_judged (world_view world.now) space path.now ≡ Ok locks) }
    ensures refused { IfErr result (λ fault. fault ≢ Fault.NoMemory → detach_judged (world_view world.now) space path.now ≡ Err fault) }
{
    let locks = detach_locks(world, space, path.to_vec()?.as_slice())?;
    Ok(locks)
}

/// Before attributes are changed.
fn judge_change(
    world: &World,
    space: SpaceId,
    path: &Names,
    change: &Change,
) -> Result<Locks, Fault>
    ensures done { IfOk result (λ locks. change_judged (world_view world.now) space path.now change.now ≡ Ok locks) }
    ensures refused { IfErr result (λ fault. fault ≢ Fault.NoMemory → change_judged (world_view world.now) space path.now change.now ≡ Err fault) }
{
    let locks = change_locks(world, space, path.to_vec()?.as_slice(), change)?;
    Ok(locks)
}

/// Before a tree is opened.
fn judge_open(world: &World, space: SpaceId, path: &Names, recursive: bool) -> Result<Locks, Fault>
    requires well_formed { IsWellFormed (world_view world.now) }
    requires numbers { world.now.next_mount < 2 ^ 63 }
    ensures done { IfOk result (λ locks. open_judged (world_view world.now) space path.now recursive ≡ Ok locks) }
    ensures refused { IfErr result (λ fault. fault ≢ Fault.NoMemory → open_judged (world_view world.now) space path.now recursive ≡ Err fault) }
{
    let locks = open_locks(world, space, path.to_vec()?.as_slice(), recursive)?;
    Ok(locks)
}

/// Before a tree is attached.
fn judge_attach(world: &World, tree: SpaceId, space: SpaceId, path: &Names) -> Result<Locks, Fault>
    requires numbers { world.now.next_mount < 2 ^ 63 }
    ensures done { IfOk result (λ locks. attach_judged (world_view world.now) tree space path.now ≡ Ok locks) }
    ensures memory { IsOkUnless result Fault.NoMemory }
{
    let locks = attach_locks(world, tree, space, path.to_vec()?.as_slice())?;
    Ok(locks)
}

/// What will be locked once a command is done, or a refusal: the first one up to those of locks.
pub(crate) fn judged(world: &World, command: &Command) -> Result<Locks, Fault>
    requires well_formed { IsWellFormed (world_view world.now) }
    requires numbers { world.now.next_mount < 2 ^ 63 }
    ensures done { IfOk result (λ locks. judged (world_view world.now) command.now ≡ Ok locks) }
    ensures refused { IfErr result (λ fault. fault ≢ Fault.NoMemory → judged (world_view world.now) command.now ≡ Err fault) }
{
    match command {
        Command::Room { .. } => same_locks(world),
        Command::MakeFs { .. } => same_locks(world),
        Command::MakeDir { .. } => same_locks(world),
        Command::NewSpace { .. } => same_locks(world),
        Command::CopySpace { space, privilege } => copy_locks(world, *space, privilege.locks()),
        Command::DropSpace { .. } => same_locks(world),
        Command::Mount { space, path, .. } => judge_mount(world, *space, path, &SetWords::new()),
        Command::MountWith {
            space,
            path,
            set,
            ..
        } => judge_mount(world, *space, path, set),
        Command::Bind {
            space,
            src,
            dst,
            recursive,
        } => judge_bind(world, *space, src, dst, *recursive),
        Command::Move { space, src, dst } => judge_move(world, *space, src, dst),
        Command::Pivot { space, new, old } => judge_pivot(world, *space, new, old),
        Command::Unmount { space, path } => judge_unmount(world, *space, path),
        Command::Detach { space, path } => judge_detach(world, *space, path),
        Command::SetAttr {
            space,
            path,
            change,
        } => judge_change(world, *space, path, change),
        Command::OpenTree {
            space,
            path,
            recursive,
        } => judge_open(world, *space, path, *recursive),
        Command::NewTree { .. } => same_locks(world),
        Command::MoveTree { tree, space, path } => judge_attach(world, *tree, *space, path),
    }
}
