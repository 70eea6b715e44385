//! Receivers as a scan of all mounts finds them, which is slow but easy to trust, beside those that the engine finds.
ghost use Rattle.std.specs.Prelude.{◌≡◌};
ghost use Rattle.mt_propagate.specs.World.{world_view};
ghost use Rattle.mt_propagate.specs.Touched.{since_view};
ghost use Rattle.mt_propagate.specs.WellFormed.{IsWellFormed};

use crate::fixture::commands_of;
use mt_book::command::Command;
use mt_book::step::step;
use mt_mounts::mount::{Mount, MountId, Place};
use mt_peers::looks::Looks;
use mt_peers::peers::Peers;
use mt_peers::state::{GroupId, State};
use mt_propagate::receivers::{receivers, receivers_counted};
use mt_propagate::world::World;
use mt_skel::fault::Fault;
use mt_skel::list::is_among;
use std::alloc::Global;
use std::test::Fail;

/// No session below makes this many directories.
const MOST_DIRECTORIES: u64 = 16;

/// Two namespaces, each of which receives what is mounted in the other; a namespace that is a slave of another.
const NAMESPACES: &[u8] =
    b"mkfs a tmpfs none\nmkfs d ext4 /dev/x\nmkdir a /m\nnewns a\nsetattr 1 / prop=shared\ncopyns 1\nmount 1 d /m\nmkdir a /n\nsetattr 2 / prop=slave\nmount 2 d /m\nmount 1 d /n";

/// A receiver whose root does not hold the directory, and one after it that does.
const WITHOUT_DIRECTORY: &[u8] =
    b"mkfs h tmpfs none\nmkfs a ext4 /dev/x\nmkfs d xfs /dev/y\nmkdir h /w\nmkdir h /v\nmkdir h /n\nmkdir h /f\nmkdir a /x\nmkdir a /t\nnewns h\nmount 1 a /w\nsetattr 1 /w prop=shared\nbind 1 /w /v\nsetattr 1 /v prop=slave\nsetattr 1 /v prop=shared\nbind 1 /v/x /n\nbind 1 /v /f\nsetattr 1 /f prop=slave\numount 1 /v\nmount 1 d /w/t";

/// A tree with an unbindable mount is copied.
const UNBINDABLE: &[u8] =
    b"mkfs a tmpfs none\nmkfs d ext4 /dev/x\nmkdir a /m\nnewns a\nmkdir a /s\nmkdir a /t\nmkdir d /u\nmkdir d /v\nmount 1 d /s\nmount 1 d /s/u\nmount 1 d /s/v\nmount 1 a /s/u/v\nsetattr 1 /s/u prop=unbindable\nrbind 1 /s /t\nbind 1 /s/u /m";

/// A shared tree is copied into itself.
const INTO_ITSELF: &[u8] =
    b"mkfs a tmpfs none\nmkfs d ext4 /dev/x\nmkdir a /m\nnewns a\nsetattr 1 / prop=shared\nmkdir a /s\nmount 1 d /m\nrbind 1 / /s\nmount 1 d /s";

/// A mount that may not move, since its parent is shared.
const SHARED_PARENT: &[u8] =
    b"mkfs a tmpfs none\nmkfs d ext4 /dev/x\nmkdir a /m\nnewns a\nsetattr 1 / prop=shared\nmkdir a /t\nmount 1 d /m\nmove 1 /m /t";

/// Moves, of which most are refused.
const MOVES: &[u8] =
    b"mkfs a tmpfs none\nmkfs d ext4 /dev/x\nmkdir a /m\nnewns a\nmkdir a /s\nmkdir a /t\nmkdir d /u\nmount 1 d /s\nmove 1 /s /s\nmove 1 /s /s/u\nmove 1 /s/u /t\nmove 1 / /t\nmount 1 a /t\nsetattr 1 /t prop=shared\nsetattr 1 /s prop=unbindable\nmove 1 /s /t/m\nmove 1 /s /m";

/// Unmounts in three namespaces, of which one keeps its mount.
const UNMOUNTS: &[u8] =
    b"mkfs a tmpfs none\nmkfs d ext4 /dev/x\nmkdir a /m\nnewns a\nsetattr 1 / prop=shared\nmkdir d /u\ncopyns 1\ncopyns 1\nmount 1 d /m\nsetattr 3 /m prop=private\nmount 3 a /m/u\numount 3 /m\numount 1 /m";

/// A mount that receives from its own parent.
const OWN_PARENT: &[u8] =
    b"mkfs a tmpfs none\nmkfs d ext4 /dev/x\nmkdir a /m\nnewns a\nsetattr 1 / prop=shared\nmkdir a /b\nbind 1 /b /b\nmount 1 d /b\numount 1 /b";

/// A mount that slides down when the one under it goes.
const SLIDE: &[u8] =
    b"mkfs a tmpfs none\nmkfs d ext4 /dev/x\nmkdir a /m\nnewns a\nsetattr 1 / prop=shared\ncopyns 1\nsetattr 2 / prop=slave\nmount 2 d /m\nmount 1 d /m\numount 1 /m";

/// Three namespaces in one peer group, and a fourth beside them, which fills the world.
const FULL_WORLD: &[u8] =
    b"mkfs a tmpfs none\nmkfs d ext4 /dev/x\nmkdir a /m\nnewns a\nsetattr 1 / prop=shared\ncopyns 1\ncopyns 1\nnewns a";

/// Doubles the mounts of the fourth namespace.
const DOUBLING: &[u8] = b"rbind 4 / /m\nmount 4 d /m";

/// How often they are doubled, up to the limit and once more.
const DOUBLINGS: u32 = 12;

/// Whether a group is among those that were found.
fn is_found(found: &[GroupId], group: Option<GroupId>) -> bool {
    match group {
        Some(group) => is_among(found, group),
        None => false,
    }
}

/// Adds the group of a mount, if its master was found but it was not.
fn join_found(found: &mut Vec<GroupId>, peers: &Peers, state: State) -> Result<(), Fault> {
    let Some(group) = state.group else {
        return Ok(());
    };
    if is_found(found, peers.master_of(group)) && !is_among(found, group) {
        found.push(group)?;
    }
    Ok(())
}

/// Adds the groups of these mounts whose masters were found.
fn join_all_found(
    found: &mut Vec<GroupId>,
    peers: &Peers,
    states: &[(MountId, State)],
) -> Result<(), Fault> {
    for state in states {
        join_found(found, peers, state.1)?;
    }
    Ok(())
}

/// The groups that receive what happens in a group: repeated as often as there are mounts, those whose master does.
fn reached(
    peers: &Peers,
    states: &[(MountId, State)],
    group: GroupId,
) -> Result<Vec<GroupId>, Fault> {
    let mut found = Vec::new(peers.allocator());
    found.push(group)?;
    'passes: for _pass in 0..states.len() {
        join_all_found(&mut found, peers, states)?;
    }
    Ok(found)
}

/// Whether a mount receives what happens at a place, given the groups that do.
fn is_receiver(world: &World, place: Place, found: &[GroupId], mount: &Mount) -> bool {
    if mount.id == place.mount {
        return false;
    }
    let Some(state) = world.peers.state(mount.id) else {
        return false;
    };
    (is_found(found, state.group) || is_found(found, state.master))
        && world.skel.holds(mount.root, place.dir)
}

/// The receivers of a place, rising, found by a scan of all mounts.
fn scanned(world: &World, place: Place) -> Result<Vec<MountId>, Fault> {
    let mut ids = Vec::new(world.peers.allocator());
    let Some(state) = world.peers.state(place.mount) else {
        return Ok(ids);
    };
    let Some(group) = state.group else {
        return Ok(ids);
    };
    let states = world.peers.states()?;
    let found = reached(&world.peers, &states, group)?;
    let mounts = world.forest.mounts()?;
    for mount in &mounts {
        if is_receiver(world, place, &found, mount) {
            ids.push(mount.id)?;
        }
    }
    Ok(ids)
}

/// Whether both find the same receivers of a place.
fn is_agreed(world: &World, place: Place) -> Result<bool, Fault> {
    let expected = scanned(world, place)?;
    let found = receivers(world, place)?;
    Ok(found.as_slice() == expected.as_slice())
}

/// Whether both find the same receivers of every directory of a mount.
fn is_agreed_at(world: &World, mount: MountId) -> Result<bool, Fault> {
    for dir in 0..MOST_DIRECTORIES {
        let place = Place { mount, dir };
        if !is_agreed(world, place)? {
            return Ok(false);
        }
    }
    Ok(true)
}

/// Whether both find the same receivers of every directory of every mount.
fn is_agreed_everywhere(world: &World) -> Result<bool, Fault> {
    let mounts = world.forest.ids()?;
    for mount in &mounts {
        if !is_agreed_at(world, *mount)? {
            return Ok(false);
        }
    }
    Ok(true)
}

/// Does a command, whether it is refused or not. Refused as `NoMemory`, even if no number is left.
pub(crate) fn do_one(world: &mut World, command: &Command) -> Result<(), Fault>
    requires well_formed { IsWellFormed (world_view world.old) }
    ensures kept { IsWellFormed (world_view world.new) }
    ensures since { since_view world.new ≡ since_view world.old }
{
    let most = 1u64 << 62;
    if world.next_mount > most || world.next_space > most || world.peers.next_group() > most {
        return Err(Fault::NoMemory);
    }
    match step(world, command) {
        Err(Fault::NoMemory) => Err(Fault::NoMemory),
        _ => Ok(()),
    }
}

/// Does commands one after another.
pub(crate) fn do_all(world: &mut World, commands: &[Command]) -> Result<(), Fault>
    requires well_formed { IsWellFormed (world_view world.old) }
    ensures kept { IsWellFormed (world_view world.new) }
{
    'commands: for command in commands {
        do_one(world, command)?;
    }
    Ok(())
}

/// The receivers of the root of namespace 1, and how many mounts were looked at for them.
fn counted_at_root(world: &World) -> Result<(usize, u64), Fault> {
    let Some(mount) = world.forest.root(1) else {
        return Err(Fault::NoNamespace);
    };
    let mut looks = Looks::new();
    let ids = receivers_counted(world, Place { mount, dir: 0 }, &mut looks)?;
    Ok((ids.len(), looks.count()))
}

/// The same in a world that is as full as it can be.
fn counted_in_full_world(alloc: Global) -> Result<(usize, u64), Fault> {
    let commands = commands_of(alloc, FULL_WORLD)?;
    let doubling = commands_of(alloc, DOUBLING)?;
    let mut world = World::new(alloc);
    do_all(&mut world, &commands)?;
    'doublings: for _doubling in 0..DOUBLINGS {
        do_all(&mut world, &doubling)?;
    }
    counted_at_root(&world)
}

/// Whether both find the same receivers after each of these commands.
fn is_agreed_after_all(world: &mut World, commands: &[Command]) -> Result<bool, Fault>
    requires well_formed { IsWellFormed (world_view world.old) }
{
    'commands: for command in commands {
        do_one(world, command)?;
        if !is_agreed_everywhere(world)? {
            return Ok(false);
        }
    }
    Ok(true)
}

/// Whether both find the same receivers after each command of these lines.
fn is_agreed_in(alloc: Global, lines: &[u8]) -> Result<bool, Fault> {
    let commands = commands_of(alloc, lines)?;
    let mut world = World::new(alloc);
    is_agreed_after_all(&mut world, &commands)
}

#[test]
fn receivers_cost_no_look_at_other_mounts(rt: HostRuntime) -> Result<(), Fail> {
    let (found, looks) = counted_in_full_world(rt.alloc())?;
    assert!(rt; found == 2);
    assert!(rt; looks <= 5);
    Ok(())
}

#[test]
fn receivers_are_those_of_a_scan(rt: HostRuntime) -> Result<(), Fail> {
    for lines in [
        NAMESPACES,
        WITHOUT_DIRECTORY,
        UNBINDABLE,
        INTO_ITSELF,
        SHARED_PARENT,
        MOVES,
        UNMOUNTS,
        OWN_PARENT,
        SLIDE,
    ] {
        let agreed = is_agreed_in(rt.alloc(), lines)?;
        assert!(rt; agreed);
    }
    Ok(())
}
