//! The peer groups and masters of mounts.
ghost use Rattle.std.specs.Prelude.{◌≡◌, ◌⊎◌, ℕ, ◌<◌, ◌≤◌, false, true, length, map, slice_get, Some, None, IfOk, IfSome, OnOk, OnErr, IsOkUnless, IsTrue};
ghost use Rattle.mt_mounts.specs.declared.mount.Mount.{Mount as MountOf};
ghost use Rattle.mt_mounts.specs.Forest.{mount_at};
ghost use Rattle.mt_peers.specs.Peers.{has_member};
ghost use Rattle.mt_propagate.specs.World.{world_view, private, state_of};
ghost use Rattle.mt_propagate.specs.WellFormed.{IsWellFormed, fs_at};
ghost use Rattle.mt_world.specs.Kept.{keeps_row};
ghost use Rattle.mt_world.specs.States.{HasMember, MayHave, with_joined, AreThere, ArePrivate, AreJoined, IsSameButStates, waits_if_kept};

use crate::misfit::Misfit;
use crate::order::{Tie, order_of, push_if};
use crate::row::TableRow;
use mt_mounts::mount::MountId;
use mt_peers::state::{GroupId, State};
use mt_propagate::world::{World, state_of};
use mt_skel::fault::Fault;
use mt_skel::skel::FsId;
use std::alloc::Global;

/// The filesystem that a mount shows, or 0 where it is not there.
pub(crate) fn fs_at(world: &World, id: MountId) -> FsId
    requires { IsWellFormed (world_view world.now) }
    ensures { (m : MountOf) → mount_at world.now.forest.mounts id ≡ Some m → result ≡ fs_at (world_view world.now) id }
{
    match world.forest.get(id) {
        Some(mount) => world.skel.fs_of(mount.root),
        None => 0,
    }
}

/// Whether both are one peer group, or none.
fn is_same(one: Option<GroupId>, other: Option<GroupId>) -> bool
    ensures { result ≡ true → one ≡ other }
{
    match (one, other) {
        (Some(here), Some(there)) => here == there,
        (None, None) => true,
        _ => false,
    }
}

/// Why a mount does not show a filesystem, if it does not.
fn why_elsewhere(world: &World, id: MountId, fs: FsId) -> Option<Misfit>
    requires { IsWellFormed (world_view world.now) }
    ensures { result ≡ None → (m : MountOf) → mount_at world.now.forest.mounts id ≡ Some m → fs_at (world_view world.now) id ≡ fs }
{
    let shown = fs_at(world, id);
    if shown == fs {
        return None;
    }
    Some(Misfit::OtherFilesystem)
}

/// Why a mount that shows a filesystem cannot be in a peer group with a master, if it cannot.
fn why_ungrouped(world: &World, fs: FsId, group: GroupId, master: Option<GroupId>) -> Option<Misfit>
    requires { IsWellFormed (world_view world.now) }
    ensures { result ≡ None → (has_member world.now.peers.peers group ≡ false) ⊎ ((m : HasMember (world_view world.now) group fs) × (m.state.master ≡ master)) }
{
    let member = world.peers.first_member(group)?;
    let state = state_of(world, member);
    if !is_same(state.master, master) {
        return Some(Misfit::OtherMaster);
    }
    why_elsewhere(world, member, fs)
}

/// Why a mount that shows a filesystem cannot have a master, if it cannot.
fn why_masterless(world: &World, fs: FsId, master: GroupId) -> Option<Misfit>
    requires { IsWellFormed (world_view world.now) }
    ensures { result ≡ None → HasMember (world_view world.now) master fs }
{
    let Some(member) = world.peers.first_member(master) else {
        return Some(Misfit::NoMaster);
    };
    why_elsewhere(world, member, fs)
}

/// Why a mount cannot be unbindable and have this group and master, if it cannot.
fn why_not_alone(state: &State) -> Option<Misfit>
    ensures { result ≡ None → IsTrue state.now.unbindable → (state.now.group ≡ None) × (state.now.master ≡ None) }
{
    if state.unbindable && (state.group.is_some() || state.master.is_some()) {
        return Some(Misfit::Unbindable);
    }
    None
}

/// Why a mount that shows a filesystem cannot be in the group of a state, if it cannot.
fn why_not_in_group(world: &World, fs: FsId, state: &State) -> Option<Misfit>
    requires { IsWellFormed (world_view world.now) }
    ensures { result ≡ None → (g : ℕ) → state.now.group ≡ Some g → (g < world.now.peers.next) × ((has_member world.now.peers.peers g ≡ false) ⊎ ((m : HasMember (world_view world.now) g fs) × (m.state.master ≡ state.now.master))) }
{
    let group = state.group?;
    if group >= world.peers.next_group() {
        return Some(Misfit::NoNumber);
    }
    why_ungrouped(world, fs, group, state.master)
}

/// Why a mount that shows a filesystem cannot have the master of a state, if it cannot.
fn why_not_led(world: &World, fs: FsId, state: &State) -> Option<Misfit>
    requires { IsWellFormed (world_view world.now) }
    ensures { result ≡ None → (g : ℕ) → state.now.master ≡ Some g → HasMember (world_view world.now) g fs }
{
    let master = state.master?;
    why_masterless(world, fs, master)
}

/// Why a private mount cannot have a state, if it cannot: the first reason there is.
fn why_unjoined(world: &World, id: MountId, state: &State) -> Option<Misfit>
    requires well_formed { IsWellFormed (world_view world.now) }
    requires there { (m : MountOf) × (mount_at world.now.forest.mounts id ≡ Some m) }
    ensures { result ≡ None → MayHave (world_view world.now) id state.now }
{
    let fs = fs_at(world, id);
    if let Some(why) = why_not_alone(state) {
        return Some(why);
    }
    if let Some(why) = why_not_in_group(world, fs, state) {
        return Some(why);
    }
    why_not_led(world, fs, state)
}

/// Gives a private mount this state, or says why it stays private.
pub(crate) fn join(world: &mut World, id: MountId, state: State) -> Result<Option<Misfit>, Fault>
    requires well_formed { IsWellFormed (world_view world.old) }
    requires there { (m : MountOf) × (mount_at world.old.forest.mounts id ≡ Some m) }
    requires private { state_of (world_view world.old) id ≡ private }
    ensures kept { IsWellFormed (world_view world.new) }
    ensures joined { IfOk result (λ why. why ≡ None → world_view world.new ≡ with_joined (world_view world.old) id state) }
    ensures refused { IfOk result (λ why. IfSome why (λ _. world_view world.new ≡ world_view world.old)) }
    ensures unchanged { OnErr result (world_view world.new ≡ world_view world.old) }
    ensures memory { IsOkUnless result Fault.NoMemory }
{
    if let Some(why) = why_unjoined(world, id, &state) {
        return Ok(Some(why));
    }
    world.peers.reserve(1)?;
    world.peers.set_state(id, state);
    Ok(None)
}

/// Gives the mount of the row of a number its state, unless it was given one, and notes why it stays private if it does. Whether it waits
/// for a master.
fn try_join(
    world: &mut World,
    rows: &[TableRow],
    left: &[Option<Misfit>],
    number: usize,
    lone: &mut Vec<Option<Misfit>>,
) -> Result<bool, Fault>
    requires joined { AreJoined (world_view world.old) rows.now left.now lone.old.items }
    ensures kept { IsWellFormed (world_view world.new) }
    ensures joined { OnOk result (AreJoined (world_view world.new) rows.now left.now lone.new.items) }
    ensures same { IsSameButStates (world_view world.old) (world_view world.new) }
    ensures memory { IsOkUnless result Fault.NoMemory }
{
    let (Some(row), Some(None)) = (rows.get(number), left.get(number)) else {
        return Ok(false);
    };
    let Some(Some(Misfit::NoMaster)) = lone.get(number) else {
        return Ok(false);
    };
    join_row(world, rows, left, number, row, lone)
}

/// Whether a mount waits for its master, which is private for this reason, or is not.
fn waits_for_master(why: Option<Misfit>) -> bool {
    matches!(why, Some(Misfit::NoMaster))
}

/// Gives the mount of the row of a number its state, or notes why it stays private. Whether it waits for a master.
fn join_row(
    world: &mut World,
    rows: &[TableRow],
    left: &[Option<Misfit>],
    number: usize,
    row: &TableRow,
    lone: &mut Vec<Option<Misfit>>,
) -> Result<bool, Fault>
    requires joined { AreJoined (world_view world.old) rows.now left.now lone.old.items }
    requires here { slice_get rows.now number ≡ Some row.now }
    requires kept { keeps_row left.now number }
    requires waits { slice_get lone.old.items number ≡ Some (Some Misfit.NoMaster) }
    ensures kept { IsWellFormed (world_view world.new) }
    ensures joined { OnOk result (AreJoined (world_view world.new) rows.now left.now lone.new.items) }
    ensures same { IsSameButStates (world_view world.old) (world_view world.new) }
    ensures memory { IsOkUnless result Fault.NoMemory }
{
    let why = join(world, row.id, row.state)?;
    lone[number] = why;
    Ok(waits_for_master(why))
}

/// Gives the mounts of rows their states in turn, notes why some stay private, and answers the rows that wait for a master.
fn round(
    alloc: Global,
    world: &mut World,
    rows: &[TableRow],
    left: &[Option<Misfit>],
    waiting: &[usize],
    lone: &mut Vec<Option<Misfit>>,
) -> Result<Vec<usize>, Fault>
    requires joined { AreJoined (world_view world.old) rows.now left.now lone.old.items }
    ensures kept { IsWellFormed (world_view world.new) }
    ensures joined { OnOk result (AreJoined (world_view world.new) rows.now left.now lone.new.items) }
    ensures same { IsSameButStates (world_view world.old) (world_view world.new) }
    ensures fewer { IfOk result (λ later. length later.items ≤ length waiting.now) }
    ensures memory { IsOkUnless result Fault.NoMemory }
{
    let mut later = Vec::new(alloc);
    'turns: for number in waiting {
        let waits = try_join(world, rows, left, *number, lone)?;
        push_if(&mut later, waits, *number)?;
    }
    Ok(later)
}

/// How the peer groups of rows have masters.
fn ties_of(alloc: Global, rows: &[TableRow]) -> Result<Vec<Tie>, Fault>
    ensures memory { IsOkUnless result Fault.NoMemory }
{
    let mut ties = Vec::new(alloc);
    for row in rows {
        ties.push(Tie {
            name: row.state.group,
            below: row.state.master,
        })?;
    }
    Ok(ties)
}

/// Why the mounts of rows are private before any has a state: those of the rows that are kept wait for a master.
fn all_lone(alloc: Global, left: &[Option<Misfit>]) -> Result<Vec<Option<Misfit>>, Fault>
    ensures lone { IfOk result (λ lone. lone.items ≡ map waits_if_kept left.now) }
    ensures memory { IsOkUnless result Fault.NoMemory }
{
    let mut lone = Vec::with_capacity(alloc, left.len())?;
    'rows: for why in left {
        lone.push(waits_if_kept(*why))?;
    }
    Ok(lone)
}

/// Why the mount of a row is private before any has a state, if the row is kept, which is left out for this reason, or is not.
fn waits_if_kept(left: Option<Misfit>) -> Option<Misfit>
    ensures { result ≡ waits_if_kept left }
{
    match left {
        Some(_) => None,
        None => Some(Misfit::NoMaster),
    }
}

/// Gives the mounts of the rows that are kept their states, and answers why some stay private.
pub(crate) fn join_rows(
    alloc: Global,
    world: &mut World,
    rows: &[TableRow],
    left: &[Option<Misfit>],
) -> Result<Vec<Option<Misfit>>, Fault>
    requires well_formed { IsWellFormed (world_view world.old) }
    requires sized { length left.now ≡ length rows.now }
    requires there { AreThere (world_view world.old) rows.now left.now }
    requires private { ArePrivate (world_view world.old) rows.now left.now }
    ensures kept { IsWellFormed (world_view world.new) }
    ensures joined { IfOk result (λ lone. AreJoined (world_view world.new) rows.now left.now lone.items) }
    ensures same { IsSameButStates (world_view world.old) (world_view world.new) }
    ensures memory { IsOkUnless result Fault.NoMemory }
{
    let ties = ties_of(alloc, rows)?;
    let mut waiting = order_of(alloc, ties.as_slice())?;
    let mut lone = all_lone(alloc, left)?;
    'rounds: loop {
        let later = round(alloc, world, rows, left, waiting.as_slice(), &mut lone)?;
        if later.len() >= waiting.len() {
            return Ok(lone);
        }
        waiting = later;
    }
}
