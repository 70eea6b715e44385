//! The copies of a new mount: where they come, by which groups, and whether a path leads to them.
ghost use Rattle.std.specs.Prelude.{◌≡◌, length, drop, IfOk, IsOkUnless};
ghost use Rattle.std.specs.List.{take_while};
ghost use Rattle.std.specs.Option.{option_to_list};
ghost use Rattle.mt_questions.specs.Copies.{spot_on, are_peers, way_of, masters_above, is_on_way, masters_below, leads_to, sight_at, sight_of, copy_on};

use mt_mounts::mount::{MountId, SpaceId};
use mt_peers::state::GroupId;
use mt_reach::path::Path;
use mt_reach::reason::{gets_at, groups_above};
use mt_reach::row::{SeenDirectory, SeenRow};
use mt_reach::rows::SeenRows;
use mt_reach::sight::{Front, front_of, point_on};
use mt_reach::walking::{root_row, walk_rows};
use mt_skel::fault::Fault;
use std::alloc::Global;
use std::marker::Model;

/// Where a mount that is made in a directory stands on a mount that shows it.
#[derive(Drop)]
pub struct Spot {
    /// The namespace.
    pub space: SpaceId,
    /// The mount on which it stands.
    pub mount: MountId,
    /// Its own mount point.
    pub point: Path,
}

/// How a mount gets what happens in a group.
#[derive(Clone, Copy)]
pub enum Way {
    /// It is in the group.
    Peer,
    /// It is a slave of the group, or below one, by masters that have members in the tables.
    Masters,
    /// A master has no member in the tables, and other mounts tell what is above that.
    Told,
}

/// What a path leads to that is the mount point of a copy.
#[derive(Clone, Copy)]
pub enum Sight {
    /// The copy.
    Seen,
    /// Nothing: the table has no root mount.
    NoRoot,
    /// The root mount: the copy stands on the root of the namespace.
    AtRoot,
    /// The copy that came to this mount.
    BehindCopy(MountId),
    /// This mount.
    Behind(MountId),
}

/// The copy of a new mount that comes to another mount.
#[derive(Drop)]
pub struct ReachedMount {
    /// Where it stands.
    pub spot: Spot,
    /// How its mount gets what happens in the group.
    pub way: Way,
    /// The masters of its mount upwards, as far as the group, which is not among them.
    pub between: Vec<GroupId>,
    /// Whether a path leads to it.
    pub sight: Sight,
    /// Whether a path leads to the mount on which it stands, so that the mount can be made private.
    pub stops: bool,
}

impl Model for ReachedMount {
    ghost use Rattle.mt_questions.specs.Copies.{ReachedView};

    ghost Value = { ReachedView };

    ghost view = { λ c. record { spot = c.spot; way = c.way; between = c.between.items; sight = c.sight; stops = c.stops } };
}

/// Where a mount made in a directory stands on a mount that shows it. Refused as `NoMemory` alone.
pub fn spot_on(directory: &SeenDirectory, row: &SeenRow) -> Result<Spot, Fault>
    ensures spot { IfOk result (λ spot. spot ≡ spot_on directory.now row.now) }
    ensures memory { IsOkUnless result Fault.NoMemory }
{
    let point = point_on(row, directory)?;
    Ok(Spot {
        space: row.space,
        mount: row.id,
        point,
    })
}

/// Whether two mounts are peers.
fn are_peers(place: &SeenRow, row: &SeenRow) -> bool
    ensures { result ≡ are_peers place.now row.now }
{
    match place.group {
        Some(group) => row.group == Some(group),
        None => false,
    }
}

/// How a mount gets what happens at another one. Refused as `NoMemory` alone.
fn way_of(rows: &SeenRows, place: &SeenRow, row: &SeenRow) -> Result<Way, Fault>
    ensures way { IfOk result (λ way. way ≡ way_of rows.now place.now row.now) }
    ensures memory { IsOkUnless result Fault.NoMemory }
{
    if are_peers(place, row) {
        return Ok(Way::Peer);
    }
    if gets_at(rows, place, row)? {
        return Ok(Way::Masters);
    }
    Ok(Way::Told)
}

/// How many groups a mount is in: one or none.
fn own_count(row: &SeenRow) -> usize
    ensures { result ≡ length (option_to_list row.now.group) }
{
    match row.group {
        Some(_) => 1,
        None => 0,
    }
}

/// Groups but for so many at the beginning. Refused as `NoMemory` alone.
fn without_first(alloc: Global, groups: &[GroupId], skipped: usize) -> Result<Vec<GroupId>, Fault>
    ensures rest { IfOk result (λ rest. rest.items ≡ drop skipped groups.now) }
    ensures memory { IsOkUnless result Fault.NoMemory }
{
    if skipped >= groups.len() {
        return Ok(Vec::new(alloc));
    }
    Ok(groups[skipped..].to_vec(alloc)?)
}

/// The masters of a mount upwards. Refused as `NoMemory` alone.
pub(crate) fn masters_above(
    alloc: Global,
    rows: &SeenRows,
    row: &SeenRow,
) -> Result<Vec<GroupId>, Fault>
    ensures masters { IfOk result (λ groups. groups.items ≡ masters_above rows.now row.now) }
    ensures memory { IsOkUnless result Fault.NoMemory }
{
    let groups = groups_above(rows, row)?;
    without_first(alloc, groups.as_slice(), own_count(row))
}

/// Whether a group is another one than that at which the way ends.
#[tactic(auto, unfolding(crate::specs::Copies::is_on_way))]
fn is_on_way(end: Option<GroupId>, group: GroupId) -> bool
    ensures { result ≡ is_on_way end group }
{
    end != Some(group)
}

/// Those of some groups that come before the one of a mount. Refused as `NoMemory` alone.
fn groups_before(
    alloc: Global,
    groups: &[GroupId],
    end: Option<GroupId>,
) -> Result<Vec<GroupId>, Fault>
    ensures before { IfOk result (λ before. before.items ≡ take_while (is_on_way end) groups.now) }
    ensures memory { IsOkUnless result Fault.NoMemory }
{
    let mut before = Vec::new(alloc);
    'groups: for group in groups {
        if !is_on_way(end, *group) {
            return Ok(before);
        }
        before.push(*group)?;
    }
    Ok(before)
}

/// The masters of a mount upwards, below the group of another one. Refused as `NoMemory` alone.
fn masters_below(
    alloc: Global,
    rows: &SeenRows,
    place: &SeenRow,
    row: &SeenRow,
) -> Result<Vec<GroupId>, Fault>
    ensures masters { IfOk result (λ groups. groups.items ≡ masters_below rows.now place.now row.now) }
    ensures memory { IsOkUnless result Fault.NoMemory }
{
    let masters = masters_above(alloc, rows, row)?;
    groups_before(alloc, masters.as_slice(), place.group)
}

/// Whether a walk of a path in the namespace of a mount ends on that mount. Refused as `NoMemory` alone.
pub fn leads_to(rows: &SeenRows, row: &SeenRow, path: &Path) -> Result<bool, Fault>
    ensures leads { IfOk result (λ leads. leads ≡ leads_to rows.now row.now path.now) }
    ensures memory { IsOkUnless result Fault.NoMemory }
{
    let Some(root) = root_row(rows, row.space) else {
        return Ok(false);
    };
    let end = walk_rows(rows, root, path)?;
    Ok(end.id == row.id)
}

/// What is seen at the mount point of the copy that comes to a mount, where a walk of it ends so.
fn sight_at(row: &SeenRow, front: Front<'_>) -> Sight
    ensures { result ≡ sight_at row.now (record { row = front.entry.row.now; is_copy = front.entry.is_copy }) }
{
    if !front.is_copy {
        return Sight::Behind(front.row.id);
    }
    if front.row.id == row.id {
        Sight::Seen
    } else {
        Sight::BehindCopy(front.row.id)
    }
}

/// Whether a path leads to the copy on a mount once copies stand in this directory of the mounts with these IDs. Refused as
/// `NoMemory` alone.
fn sight_of(
    rows: &SeenRows,
    directory: &SeenDirectory,
    ids: &[MountId],
    row: &SeenRow,
) -> Result<Sight, Fault>
    ensures sight { IfOk result (λ sight. sight ≡ sight_of rows.now directory.now ids.now row.now) }
    ensures memory { IsOkUnless result Fault.NoMemory }
{
    let point = point_on(row, directory)?;
    if point.is_root() {
        return Ok(Sight::AtRoot);
    }
    let Some(root) = root_row(rows, row.space) else {
        return Ok(Sight::NoRoot);
    };
    let front = front_of(rows, directory, ids, root, &point)?;
    Ok(sight_at(row, front))
}

/// The copy that comes to the mount `row` of what is made in this directory of the mount `place`, where copies come to the mounts
/// with these IDs. Refused as `NoMemory` alone.
#[tactic(auto, unfolding(crate::specs::Copies::copy_on))]
pub fn copy_on(
    alloc: Global,
    rows: &SeenRows,
    place: &SeenRow,
    directory: &SeenDirectory,
    ids: &[MountId],
    row: &SeenRow,
) -> Result<ReachedMount, Fault>
    ensures copy { IfOk result (λ copy. copy ≡ copy_on rows.now place.now directory.now ids.now row.now) }
    ensures memory { IsOkUnless result Fault.NoMemory }
{
    Ok(ReachedMount {
        spot: spot_on(directory, row)?,
        way: way_of(rows, place, row)?,
        between: masters_below(alloc, rows, place, row)?,
        sight: sight_of(rows, directory, ids, row)?,
        stops: leads_to(rows, row, &row.point)?,
    })
}
