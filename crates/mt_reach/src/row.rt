//! What a table tells of one mount.
ghost use Rattle.std.specs.Prelude.{◌≡◌, IfOk, IsOkUnless};
ghost use Rattle.mt_reach.specs.Rows.{device_eq, is_same_directory, is_within, shows};
ghost use Rattle.mt_reach.specs.Seen.{seen_row};
ghost use Rattle.mt_reach.specs.Tree.{stands_on_row};
ghost use Rattle.mt_reach.specs.Reasons.{overlaps};

use crate::path::Path;
use crate::text::SeenText;
use mt_info::row::Row;
use mt_mounts::mount::{MountId, SpaceId};
use mt_peers::state::GroupId;
use mt_skel::fault::Fault;
use std::alloc::Global;

/// A device: that of a filesystem.
#[derive(Clone, Copy)]
pub struct Device {
    pub major: u64,
    pub minor: u64,
}

/// A directory, as tables tell it.
#[derive(Drop)]
pub struct SeenDirectory {
    /// The filesystem that it is in.
    pub device: Device,
    /// Whether its first name is no name in the root of that filesystem, but says what is shown: a directory that was
    /// deleted, or what has no directory, as a namespace.
    pub unlinked: bool,
    /// The names that lead to it.
    pub path: Path,
}

/// What a table tells of one mount.
#[derive(Drop)]
pub struct SeenRow {
    /// The number of the table, from 1: that of the mount's namespace among those that were read.
    pub space: SpaceId,
    /// The number of the mount. No two mounts of a machine have the same, whatever their namespaces.
    pub id: MountId,
    /// The number of the mount that it stands on. A root mount tells its own, or that of a mount which its table has not.
    pub parent: MountId,
    /// The directory that it shows at its root.
    pub root: SeenDirectory,
    /// Where it stands, seen from the root of its namespace.
    pub point: Path,
    /// The peer group that it is in.
    pub group: Option<GroupId>,
    /// The peer group that it gets from.
    pub master: Option<GroupId>,
    /// The nearest peer group above it that has a member in its namespace, where its master has none there.
    pub via: Option<GroupId>,
    /// Whether a bind of it is refused.
    pub unbindable: bool,
    /// The type of its filesystem.
    pub kind: SeenText,
    /// The source of its filesystem.
    pub source: SeenText,
}

/// Whether these are one device.
fn is_same_device(left: Device, right: Device) -> bool
    ensures { result ≡ device_eq left right }
{
    left.major == right.major && left.minor == right.minor
}

impl SeenDirectory {
    /// An equal directory. Refused as `NoMemory` alone.
    pub fn copy(&self) -> Result<SeenDirectory, Fault>
        ensures copy { IfOk result (λ directory. directory ≡ self.now) }
        ensures memory { IsOkUnless result Fault.NoMemory }
    {
        Ok(SeenDirectory {
            device: self.device,
            unlinked: self.unlinked,
            path: self.path.copy()?,
        })
    }

    /// Whether one of two directories is the other one, or in it. A directory that was deleted counts as one in the root of its
    /// filesystem.
    pub fn overlaps(&self, other: &SeenDirectory) -> bool
        ensures { result ≡ overlaps self.now other.now }
    {
        is_same_device(self.device, other.device)
            && (self.path.starts_with(&other.path) || other.path.starts_with(&self.path))
    }

    /// Whether this directory is the other one.
    pub fn is_same(&self, other: &SeenDirectory) -> bool
        ensures { result ≡ is_same_directory self.now other.now }
    {
        is_same_device(self.device, other.device)
            && self.unlinked == other.unlinked
            && self.path.is_same(&other.path)
    }

    /// Whether this directory is the other one, or below it.
    pub fn is_within(&self, outer: &SeenDirectory) -> bool
        ensures { result ≡ is_within outer.now self.now }
    {
        is_same_device(outer.device, self.device)
            && outer.unlinked == self.unlinked
            && self.path.starts_with(&outer.path)
    }
}

impl SeenRow {
    /// What the table of the number `space` tells of a mount of a server, whose filesystems have the major number 0.
    /// Refused as `NoMemory` alone.
    pub fn of(space: SpaceId, row: &Row, alloc: Global) -> Result<SeenRow, Fault>
        ensures row { IfOk result (λ seen. seen ≡ seen_row space row.now) }
        ensures memory { IsOkUnless result Fault.NoMemory }
    {
        Ok(SeenRow {
            space,
            id: row.id,
            parent: row.parent,
            root: SeenDirectory {
                device: Device {
                    major: 0,
                    minor: row.minor,
                },
                unlinked: false,
                path: Path::of(&row.root, alloc)?,
            },
            point: Path::of(&row.point, alloc)?,
            group: row.shared,
            master: row.master,
            via: row.via,
            unbindable: row.unbindable,
            kind: SeenText::of(alloc, row.kind.bytes())?,
            source: SeenText::of(alloc, row.source.bytes())?,
        })
    }

    /// Whether the mount shows a directory: it is the one at its root, or below that.
    pub fn shows(&self, directory: &SeenDirectory) -> bool
        ensures { result ≡ shows self.now directory.now }
    {
        directory.is_within(&self.root)
    }

    /// Whether the mount stands on another one: it tells that as its parent, both are of one namespace, and its mount point is
    /// the other's, or below that.
    pub fn stands_on(&self, parent: &SeenRow) -> bool
        ensures { result ≡ stands_on_row parent.now self.now }
    {
        self.parent == parent.id
            && self.id != parent.id
            && self.space == parent.space
            && self.point.starts_with(&parent.point)
    }
}
