//! The nearest group upwards at which copies stand.
ghost use Rattle.std.specs.Prelude.{◌≡◌, ◌<◌, ◌≤◌, Some, length, IfOk, OnOk, IsOkUnless};
ghost use Rattle.std.specs.List.{find};
ghost use Rattle.mt_peers.specs.Masters.{groups_up, master_of};
ghost use Rattle.mt_peers.specs.Ways.{IsAbove};
ghost use Rattle.mt_propagate.specs.Planned.{stands};
ghost use Rattle.mt_propagate.specs.Nearest.{known_above, IsFound, IsStep, IsNearest};

use crate::groups::{Standing, stands};
use crate::world::World;
use indexmap::IndexMap;
use mt_peers::state::GroupId;
use mt_skel::fault::Fault;

/// A group on a chain of masters.
#[derive(Clone, Copy)]
pub(crate) struct Above {
    /// The group, or `None` after the end of the chain.
    pub(crate) up: Option<GroupId>,
    /// How many steps up it is.
    pub(crate) steps: usize,
}

/// What is known above a group: what was found there, or its master.
fn known_above(world: &World, found: &IndexMap<GroupId, Above>, group: GroupId) -> Above
    ensures { result ≡ known_above world.now.peers.peers found.now group }
{
    match found.get(&group).copied() {
        Some(above) => above,
        None => Above {
            up: world.peers.master_of(group),
            steps: 1,
        },
    }
}

/// What is known above a group at which no copies stand.
fn step_up(
    world: &World,
    standing: &Standing,
    found: &IndexMap<GroupId, Above>,
    group: GroupId,
) -> Option<Above>
    requires found { IsFound (stands standing.now) world.now.peers.peers found.now }
    ensures { IsStep (stands standing.now) world.now.peers.peers group result }
{
    if stands(standing, group) {
        return None;
    }
    Some(known_above(world, found, group))
}

/// The first group at which copies stand from a group upwards, or else where the chain ends, or more steps up than there
/// are mounts.
fn reached(
    world: &World,
    standing: &Standing,
    found: &IndexMap<GroupId, Above>,
    group: GroupId,
) -> Above
    requires found { IsFound (stands standing.now) world.now.peers.peers found.now }
    ensures { IsNearest (stands standing.now) world.now.peers.peers group result }
{
    // Its proof needs that the mounts can be counted.
    let _alloc = world.peers.allocator();
    let most = world.peers.len();
    let mut here = Above {
        up: Some(group),
        steps: 0,
    };
    'chain: while let Some(passed) = here.up {
        if most < here.steps {
            return here;
        }
        let Some(next) = step_up(world, standing, found, passed) else {
            return here;
        };
        here = Above {
            up: next.up,
            steps: here.steps + next.steps,
        };
    }
    here
}

/// Keeps where the way up from a group ended, for each group that was passed on it.
fn keep_passed(
    world: &World,
    standing: &Standing,
    found: &mut IndexMap<GroupId, Above>,
    group: GroupId,
    end: Above,
) -> Result<(), Fault>
    requires found { IsFound (stands standing.now) world.now.peers.peers found.old }
    requires within { end.steps ≤ length world.now.peers.peers }
    requires end { IsAbove (stands standing.now) (master_of world.now.peers.peers) (Some group) end.up end.steps }
    ensures found { OnOk result (IsFound (stands standing.now) world.now.peers.peers found.new) }
    ensures memory { IsOkUnless result Fault.NoMemory }
{
    let mut here = group;
    let mut rest = end.steps;
    'passed: while 0 < rest {
        let known = known_above(world, found, here);
        if rest <= known.steps {
            return Ok(());
        }
        let above = Above {
            up: end.up,
            steps: rest,
        };
        found.insert(here, above)?;
        let Some(up) = known.up else {
            return Ok(());
        };
        rest -= known.steps;
        here = up;
    }
    Ok(())
}

/// The nearest group at which copies stand, from a group upwards. What is found above the groups that are passed is
/// kept, so that no search goes over them again.
pub(crate) fn nearest_from(
    world: &World,
    standing: &Standing,
    found: &mut IndexMap<GroupId, Above>,
    group: GroupId,
) -> Result<Option<GroupId>, Fault>
    requires found { IsFound (stands standing.now) world.now.peers.peers found.old }
    ensures nearest { IfOk result (λ nearest. nearest ≡ find (stands standing.now) (groups_up world.now.peers.peers group)) }
    ensures found { OnOk result (IsFound (stands standing.now) world.now.peers.peers found.new) }
    ensures memory { IsOkUnless result Fault.NoMemory }
{
    if stands(standing, group) {
        return Ok(Some(group));
    }
    let end = reached(world, standing, found, group);
    if world.peers.len() < end.steps {
        return Ok(None);
    }
    keep_passed(world, standing, found, group, end)?;
    Ok(end.up)
}
