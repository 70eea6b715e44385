//! Where a mount comes from, and what takes it away.
ghost use Rattle.std.specs.Prelude.{◌≡◌, ◌==◌, not, IfOk, IsOkUnless};
ghost use Rattle.std.specs.List.{filter};
ghost use Rattle.mt_questions.specs.Origin.{other_members, origin_at, origin_of};

use crate::copies::masters_above;
use mt_mounts::mount::{MountId, SpaceId};
use mt_peers::state::GroupId;
use mt_reach::origin::{members_of, takers_of};
use mt_reach::path::Path;
use mt_reach::row::{SeenDirectory, SeenRow};
use mt_reach::rows::SeenRows;
use mt_reach::walking::{directory_at, end_of};
use mt_skel::fault::Fault;
use std::alloc::Global;
use std::marker::Model;

/// Where the mount at a path comes from.
#[derive(Drop)]
pub struct MountOrigin {
    /// The namespace of the path.
    pub space: SpaceId,
    /// The path.
    pub path: Path,
    /// The mount on which its walk ends.
    pub mount: MountId,
    /// The directory where it ends.
    pub directory: SeenDirectory,
    /// Whether that is the root of the mount, so that the path names the mount.
    pub is_mount: bool,
    /// The other members of its peer group.
    pub peers: Vec<MountId>,
    /// The groups of its masters upwards.
    pub masters: Vec<GroupId>,
    /// Whether it stands on no mount of its table.
    pub is_root: bool,
    /// The mounts whose unmount takes it away.
    pub takers: Vec<MountId>,
}

impl Model for MountOrigin {
    ghost use Rattle.mt_questions.specs.Origin.{OriginView};

    ghost Value = { OriginView };

    ghost view = { λ o. record {
      space = o.space;
      path = o.path;
      mount = o.mount;
      directory = o.directory;
      is_mount = o.is_mount;
      peers = o.peers.items;
      masters = o.masters.items;
      is_root = o.is_root;
      takers = o.takers.items;
    } };
}

/// All IDs but one. Refused as `NoMemory` alone.
fn ids_but(alloc: Global, ids: &[MountId], one: MountId) -> Result<Vec<MountId>, Fault>
    ensures others { IfOk result (λ others. others.items ≡ filter (λ i. not (i == one)) ids.now) }
    ensures memory { IsOkUnless result Fault.NoMemory }
{
    let mut others = Vec::new(alloc);
    'ids: for id in ids {
        if *id != one {
            others.push(*id)?;
        }
    }
    Ok(others)
}

/// The other members of the group of a mount. Refused as `NoMemory` alone.
fn other_members(alloc: Global, rows: &SeenRows, row: &SeenRow) -> Result<Vec<MountId>, Fault>
    ensures peers { IfOk result (λ peers. peers.items ≡ other_members rows.now row.now) }
    ensures memory { IsOkUnless result Fault.NoMemory }
{
    let Some(group) = row.group else {
        return Ok(Vec::new(alloc));
    };
    let members = members_of(rows, group)?;
    ids_but(alloc, members.as_slice(), row.id)
}

/// The answer where a path of a namespace ends on this mount. Refused as `NoMemory` alone.
fn origin_at(
    alloc: Global,
    rows: &SeenRows,
    space: SpaceId,
    path: &Path,
    row: &SeenRow,
) -> Result<MountOrigin, Fault>
    ensures origin { IfOk result (λ origin. origin ≡ origin_at rows.now space path.now row.now) }
    ensures memory { IsOkUnless result Fault.NoMemory }
{
    Ok(MountOrigin {
        space,
        path: path.copy()?,
        mount: row.id,
        directory: directory_at(row, path)?,
        is_mount: path.is_same(&row.point),
        peers: other_members(alloc, rows, row)?,
        masters: masters_above(alloc, rows, row)?,
        is_root: rows.parent_row(row).is_none(),
        takers: takers_of(rows, row)?,
    })
}

/// Where the mount at a path of a namespace comes from, and what takes it away; `None` where the table has no root mount. Refused as
/// `NoMemory` alone.
pub fn origin_of(
    alloc: Global,
    rows: &SeenRows,
    space: SpaceId,
    path: &Path,
) -> Result<Option<MountOrigin>, Fault>
    ensures origin { IfOk result (λ answer. answer ≡ origin_of rows.now space path.now) }
    ensures memory { IsOkUnless result Fault.NoMemory }
{
    let Some(row) = end_of(rows, space, path)? else {
        return Ok(None);
    };
    let answer = origin_at(alloc, rows, space, path, row)?;
    Ok(Some(answer))
}
