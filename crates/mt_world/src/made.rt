//! The world of tables.
ghost use Rattle.std.specs.Prelude.{◌≡◌, ◌<◌, ◌≤◌, IfOk, OnOk, IsOkUnless, IsTrue};
ghost use Rattle.mt_skel.specs.Skeleton.{empty_skeleton};
ghost use Rattle.mt_propagate.specs.World.{world_view};
ghost use Rattle.mt_propagate.specs.WellFormed.{IsWellFormed};
ghost use Rattle.mt_world.specs.Kept.{HaveNumbers};
ghost use Rattle.mt_world.specs.Made.{HasNoMounts, IsMade, KeepsPlain, room_or_one};
ghost use Rattle.mt_world.specs.Rows.{is_numbered, is_group};

use crate::directory::add_filesystems;
use crate::grown::grow;
use crate::hidden::hide_masters;
use crate::joined::join_rows;
use crate::misfit::Misfit;
use crate::row::TableRow;
use mt_peers::state::GroupId;
use mt_propagate::world::World;
use mt_skel::fault::Fault;
use std::alloc::Global;

/// A world that was made of rows.
pub struct Made {
    /// The world.
    pub world: World,
    /// Why each row is left out, in the order of the rows: those of which this is `None` are kept.
    pub left: Vec<Option<Misfit>>,
    /// Why the mount of each row that is kept is private though the row tells a peer group or a master, in the same order:
    /// those of which this is `None` have the state that they tell.
    pub private: Vec<Option<Misfit>>,
}

impl Drop for Made {
    fn drop(self) {
        let Made {
            world: _world,
            left: _left,
            private: _private,
        } = self;
    }
}

/// Leaves out the numbers of a peer group and those below it.
#[tactic(auto, using(crate::proofs::RaisedLaws::bare_raised))]
fn pass_group(world: &mut World, group: Option<GroupId>)
    requires bare { HasNoMounts (world_view world.old) }
    requires numbered { IsTrue (is_group group) }
    ensures bare { HasNoMounts (world_view world.new) }
    ensures mounts { world.new.next_mount ≡ world.old.next_mount }
    ensures spaces { world.new.next_space ≡ world.old.next_space }
    ensures skel { world.new.skel ≡ world.old.skel }
{
    let Some(number) = group else {
        return;
    };
    world.peers.number_from(number + 1);
}

/// Has the next numbers of a world above those of a row, if they can be those of a mount and a namespace.
#[tactic(auto, using(crate::proofs::RaisedLaws::bare_raised))]
fn pass_row(world: &mut World, row: &TableRow)
    requires bare { HasNoMounts (world_view world.old) }
    ensures bare { HasNoMounts (world_view world.new) }
    ensures numbered { IsTrue (is_numbered row.now) → (row.now.id < world.new.next_mount) × (row.now.space < world.new.next_space) }
    ensures mounts { world.old.next_mount ≤ world.new.next_mount }
    ensures spaces { world.old.next_space ≤ world.new.next_space }
    ensures skel { world.new.skel ≡ world.old.skel }
{
    if !row.is_numbered() {
        return;
    }
    world.next_mount = world.next_mount.max(row.id + 1);
    world.next_space = world.next_space.max(row.space + 1);
    pass_group(world, row.state.group);
    pass_group(world, row.state.master);
}

/// Has the next numbers of a world above those of rows.
fn pass_rows(world: &mut World, rows: &[TableRow])
    requires bare { HasNoMounts (world_view world.old) }
    ensures bare { HasNoMounts (world_view world.new) }
    ensures numbers { HaveNumbers (world_view world.new) rows.now }
    ensures skel { world.new.skel ≡ world.old.skel }
{
    'rows: for row in rows {
        pass_row(world, row);
    }
}

/// Gives a world without filesystems another room; one of 1 if there is no such room.
fn give_room(world: &mut World, room: usize)
    requires bare { HasNoMounts (world_view world.old) }
    requires empty { world.old.skel ≡ empty_skeleton }
    ensures bare { HasNoMounts (world_view world.new) }
    ensures room { world.new.skel.room ≡ room_or_one room }
{
    let _given = world.skel.give_room(room);
}

/// The world of tables: each row that fits has its mount there, with its own ID, in the namespace of the number of its table.
///
/// Rows are of mounts that stand on those of other rows, and of root mounts, which stand at `/` and on no mount of their table. What does
/// not fit is left out, and told with its reason. Peer groups and masters have their own numbers; a mount of which the state does
/// not fit is private, and told. A master that no row is in gets a mount in one more namespace, behind those of all tables.
///
/// The world has this room, or one of 1 where there is no such room. Refused as `NoMemory` alone.
pub fn world_of(alloc: Global, rows: &[TableRow], room: usize) -> Result<Made, Fault>
    ensures well_formed { IfOk result (λ made. IsWellFormed (world_view made.world)) }
    ensures made { IfOk result (λ made. IsMade (world_view made.world) rows.now made.left.items made.private.items) }
    ensures plain { IfOk result (λ made. KeepsPlain (world_view made.world) rows.now made.left.items) }
    ensures room { IfOk result (λ made. made.world.skel.room ≡ room_or_one room) }
    ensures memory { IsOkUnless result Fault.NoMemory }
{
    let mut world = World::new(alloc);
    give_room(&mut world, room);
    let (left, private) = fill(alloc, &mut world, rows)?;
    Ok(Made {
        world,
        left,
        private,
    })
}

/// Why rows are left out, and why the mounts of others are private.
type Reasons = (Vec<Option<Misfit>>, Vec<Option<Misfit>>);

/// Adds the mounts of rows to an empty world, with their states.
#[tactic(auto, using(crate::proofs::RaisedLaws::bare_grown))]
fn fill(alloc: Global, world: &mut World, rows: &[TableRow]) -> Result<Reasons, Fault>
    requires bare { HasNoMounts (world_view world.old) }
    ensures made { IfOk result (λ reasons. IsMade (world_view world.new) rows.now reasons.0.items reasons.1.items) }
    ensures room { OnOk result (world.new.skel.room ≡ world.old.skel.room) }
    ensures memory { IsOkUnless result Fault.NoMemory }
{
    pass_rows(world, rows);
    add_filesystems(&mut world.skel, rows)?;
    let left = grow(alloc, world, rows)?;
    hide_masters(alloc, world, rows, left.as_slice())?;
    let private = join_rows(alloc, world, rows, left.as_slice())?;
    Ok((left, private))
}
