//! The mounts that still show a filesystem or a directory, and so pin it.
ghost use Rattle.std.specs.Prelude.{◌≡◌, map, length, IfOk, IsOkUnless};
ghost use Rattle.std.specs.List.{filter};
ghost use Rattle.mt_reach.specs.Tree.{seen_children};
ghost use Rattle.mt_questions.specs.Holders.{other_than, front_id, holder_of, is_source, is_on, shows_part_of, holders_by};

use crate::table::SeenTables;
use mt_mounts::mount::MountId;
use mt_reach::origin::takers_of;
use mt_reach::refusals::standing_on;
use mt_reach::row::{Device, SeenDirectory, SeenRow};
use mt_reach::rows::SeenRows;
use mt_reach::walking::mount_in_front;
use mt_skel::fault::Fault;
use std::alloc::Global;
use std::marker::Model;

/// A mount that pins what it shows.
#[derive(Drop)]
pub struct Holder {
    /// The mount.
    pub mount: MountId,
    /// The mount to which the path leads that is its mount point, if that is another one.
    pub front: Option<MountId>,
    /// How many mounts stand on it.
    pub standing: usize,
    /// The mounts whose unmount takes it away.
    pub takers: Vec<MountId>,
}

impl Model for Holder {
    ghost use Rattle.mt_questions.specs.Holders.{HolderView};

    ghost Value = { HolderView };

    ghost view = { λ h. record { mount = h.mount; front = h.front; standing = h.standing; takers = h.takers.items } };
}

/// The second mount, if it is another one than the first.
fn other_than(row: &SeenRow, front: &SeenRow) -> Option<MountId>
    ensures { result ≡ other_than row.now front.now }
{
    if front.id == row.id {
        None
    } else {
        Some(front.id)
    }
}

/// What is in front of a mount. Refused as `NoMemory` alone.
fn front_id(rows: &SeenRows, row: &SeenRow) -> Result<Option<MountId>, Fault>
    ensures front { IfOk result (λ front. front ≡ front_id rows.now row.now) }
    ensures memory { IsOkUnless result Fault.NoMemory }
{
    match mount_in_front(rows, row)? {
        Some(front) => Ok(other_than(row, front)),
        None => Ok(None),
    }
}

/// How many mounts stand on one. Refused as `NoMemory` alone.
fn standing(rows: &SeenRows, row: &SeenRow) -> Result<usize, Fault>
    ensures count { IfOk result (λ count. count ≡ length (seen_children rows.now row.now.id)) }
    ensures memory { IsOkUnless result Fault.NoMemory }
{
    let ids = standing_on(rows, row.id)?;
    Ok(ids.len())
}

/// A mount as one that pins what it shows. Refused as `NoMemory` alone.
fn holder_of(rows: &SeenRows, row: &SeenRow) -> Result<Holder, Fault>
    ensures holder { IfOk result (λ holder. holder ≡ holder_of rows.now row.now) }
    ensures memory { IsOkUnless result Fault.NoMemory }
{
    Ok(Holder {
        mount: row.id,
        front: front_id(rows, row)?,
        standing: standing(rows, row)?,
        takers: takers_of(rows, row)?,
    })
}

/// Those of some mounts, in their order. Refused as `NoMemory` alone.
fn holders_among_source(
    alloc: Global,
    rows: &SeenRows,
    all: &[&SeenRow],
    source: &[u8],
) -> Result<Vec<Holder>, Fault>
    ensures holders { IfOk result (λ holders. holders.items ≡ map (holder_of rows.now) (filter (is_source source.now) (map (λ row. row.now) all.now))) }
    ensures memory { IsOkUnless result Fault.NoMemory }
{
    let mut holders = Vec::new(alloc);
    'all: for row in all {
        if row.source.bytes() == source {
            holders.push(holder_of(rows, row)?)?;
        }
    }
    Ok(holders)
}

/// The mounts of a source, those of each namespace together. Refused as `NoMemory` alone.
pub fn holders_of_source(
    alloc: Global,
    tables: &SeenTables,
    source: &[u8],
) -> Result<Vec<Holder>, Fault>
    ensures holders { IfOk result (λ holders. holders.items ≡ holders_by tables.now (is_source source.now)) }
    ensures memory { IsOkUnless result Fault.NoMemory }
{
    let all = tables.rows_by_space(alloc)?;
    holders_among_source(alloc, &tables.rows, all.as_slice(), source)
}

/// Whether a mount is of a filesystem.
fn is_on(device: Device, row: &SeenRow) -> bool
    ensures { result ≡ is_on device row.now }
{
    row.root.device.major == device.major && row.root.device.minor == device.minor
}

/// Those of some mounts, in their order. Refused as `NoMemory` alone.
fn holders_among_device(
    alloc: Global,
    rows: &SeenRows,
    all: &[&SeenRow],
    device: Device,
) -> Result<Vec<Holder>, Fault>
    ensures holders { IfOk result (λ holders. holders.items ≡ map (holder_of rows.now) (filter (is_on device) (map (λ row. row.now) all.now))) }
    ensures memory { IsOkUnless result Fault.NoMemory }
{
    let mut holders = Vec::new(alloc);
    'all: for row in all {
        if is_on(device, row) {
            holders.push(holder_of(rows, row)?)?;
        }
    }
    Ok(holders)
}

/// The mounts of a filesystem, those of each namespace together. Refused as `NoMemory` alone.
pub fn holders_of_device(
    alloc: Global,
    tables: &SeenTables,
    device: Device,
) -> Result<Vec<Holder>, Fault>
    ensures holders { IfOk result (λ holders. holders.items ≡ holders_by tables.now (is_on device)) }
    ensures memory { IsOkUnless result Fault.NoMemory }
{
    let all = tables.rows_by_space(alloc)?;
    holders_among_device(alloc, &tables.rows, all.as_slice(), device)
}

/// Those of some mounts, in their order. Refused as `NoMemory` alone.
fn holders_among_directory(
    alloc: Global,
    rows: &SeenRows,
    all: &[&SeenRow],
    directory: &SeenDirectory,
) -> Result<Vec<Holder>, Fault>
    ensures holders { IfOk result (λ holders. holders.items ≡ map (holder_of rows.now) (filter (shows_part_of directory.now) (map (λ row. row.now) all.now))) }
    ensures memory { IsOkUnless result Fault.NoMemory }
{
    let mut holders = Vec::new(alloc);
    'all: for row in all {
        if row.root.overlaps(directory) {
            holders.push(holder_of(rows, row)?)?;
        }
    }
    Ok(holders)
}

/// The mounts that show a directory, or something in it, those of each namespace together. Refused as `NoMemory` alone.
pub fn holders_of_directory(
    alloc: Global,
    tables: &SeenTables,
    directory: &SeenDirectory,
) -> Result<Vec<Holder>, Fault>
    ensures holders { IfOk result (λ holders. holders.items ≡ holders_by tables.now (shows_part_of directory.now)) }
    ensures memory { IsOkUnless result Fault.NoMemory }
{
    let all = tables.rows_by_space(alloc)?;
    holders_among_directory(alloc, &tables.rows, all.as_slice(), directory)
}
