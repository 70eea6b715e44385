//! A row of a table: what is told of one mount.
ghost use Rattle.std.specs.Prelude.{◌≡◌, IfOk};
ghost use Rattle.mt_world.specs.Rows.{device_text, row_told, is_numbered, is_low_number, is_group, is_at_root};

use mt_info::print::push_number;
use mt_info::row::Row;
use mt_mounts::mount::{Attrs, MountId, SpaceId};
use mt_peers::state::{GroupId, State};
use mt_skel::fault::Fault;
use mt_skel::name::Label;
use mt_skel::names::Names;
use std::alloc::Global;

/// The greatest number that a mount, a namespace or a peer group of a row can have, 2^62 - 1: those of what comes later are
/// above it, and find room in 64 bits.
pub(crate) const MOST_NUMBER: u64 = 4_611_686_018_427_387_903;

/// What a table tells of one mount (proc_pid_mountinfo(5)), and of which table it is.
#[derive(Drop)]
pub struct TableRow {
    /// The number of its table, from 1: that of the namespace that the table is of.
    pub space: SpaceId,
    /// The number of the mount, from 1.
    pub id: MountId,
    /// The number of the mount that it stands on; of a root mount, its own or one that its table does not have.
    pub parent: MountId,
    /// The filesystem that it shows: rows with one device show one filesystem.
    pub device: Label,
    /// The directory of the filesystem that it shows at its root.
    pub root: Names,
    /// Where it stands, seen from the root of its namespace.
    pub point: Names,
    /// Its attributes.
    pub attrs: Attrs,
    /// Its peer group and its master, or that it is unbindable.
    pub state: State,
    /// The type of its filesystem.
    pub kind: Label,
    /// The source of its filesystem.
    pub source: Label,
}

/// The label of a device of a world, as the lines of its tables print it: `0:` and the number of the filesystem.
fn device_label(alloc: Global, minor: u64) -> Result<Label, Fault>
    ensures { IfOk result (λ label. label ≡ device_text minor) }
{
    let mut text = Vec::new(alloc);
    text.extend_from_slice(b"0:")?;
    push_number(&mut text, minor)?;
    match Label::new(text) {
        Ok(label) => Ok(label),
        Err(_none) => Err(Fault::BadLine),
    }
}

impl TableRow {
    /// What a row of the table of a world tells, as one of the table of a number.
    pub fn of(alloc: Global, space: SpaceId, row: &Row) -> Result<TableRow, Fault>
        ensures { IfOk result (λ told. told ≡ row_told space row.now) }
    {
        Ok(TableRow {
            space,
            id: row.id,
            parent: row.parent,
            device: device_label(alloc, row.minor)?,
            root: row.root.copy()?,
            point: row.point.copy()?,
            attrs: row.attrs,
            state: State {
                group: row.shared,
                master: row.master,
                unbindable: row.unbindable,
            },
            kind: row.kind.copy()?,
            source: row.source.copy()?,
        })
    }

    /// Whether its numbers can be those of a mount, a namespace and peer groups.
    pub(crate) fn is_numbered(&self) -> bool
        ensures { result ≡ is_numbered self.now }
    {
        is_low_number(self.id)
            && is_low_number(self.space)
            && is_group(self.state.group)
            && is_group(self.state.master)
    }

    /// Whether its mount stands at the root of its namespace.
    pub(crate) fn is_at_root(&self) -> bool
        ensures { result ≡ is_at_root self.now }
    {
        self.point.text().is_empty()
    }
}

/// Whether a mount or a namespace can have a number.
fn is_low_number(number: u64) -> bool
    ensures { result ≡ is_low_number number }
{
    number > 0 && number <= MOST_NUMBER
}

/// Whether a peer group can have a number, if one is told.
fn is_group(group: Option<GroupId>) -> bool
    ensures { result ≡ is_group group }
{
    match group {
        Some(number) => number <= MOST_NUMBER,
        None => true,
    }
}
