//! The mounts of one namespace.
ghost use Rattle.std.specs.Prelude.{◌≡◌, ◌≢◌, ◌↔◌, IsSome, IfSome, false, true, IfErr, IfOk, IsOkUnless, IsTrue, MatchOption, Err, Some, None};
ghost use Rattle.std.specs.Option.{option_map_or};
ghost use Rattle.mt_skel.specs.Keyed.{rises, row_at};
ghost use Rattle.mt_skel.specs.Skeleton.{is_directory, directory};
ghost use Rattle.mt_mounts.specs.declared.mount.Place.{Place as PlaceOf};
ghost use Rattle.mt_mounts.specs.Forest.{mount_at};
ghost use Rattle.mt_propagate.specs.World.{world_view, is_space};
ghost use Rattle.mt_propagate.specs.Named.{mount_or_unknown};
ghost use Rattle.mt_propagate.specs.WellFormed.{IsWellFormed};
ghost use Rattle.mt_info.specs.Table.{row_id, table_of, row_of};
ghost use Rattle.mt_info.specs.SameRow.{rows_eq};

use crate::findings::Findings;
use crate::row::Row;
use mt_mounts::mount::{Mount, MountId, SpaceId};
use mt_propagate::world::{World, state_of};
use mt_skel::fault::Fault;
use mt_skel::list::is_above;
use mt_skel::names::Names;
use mt_skel::skel::Dir;
use std::alloc::Global;
use std::marker::Model;

/// The rows of the mounts of one namespace, by rising ID.
#[derive(Drop)]
pub struct Table {
    rows: Vec<Row>,
}

impl Model for Table {
    ghost use Rattle.std.specs.Prelude.{List, IsTrue};
    ghost use Rattle.mt_skel.specs.Keyed.{rises};
    ghost use Rattle.mt_info.specs.declared.row.Row.{Row};
    ghost use Rattle.mt_info.specs.Table.{row_id};

    ghost Value = { List Row };

    ghost view = { λ t. t.rows.items };

    ghost invariant = { λ t. IsTrue (rises row_id t.rows.items) };
}

impl Table {
    /// The table of these rows, or `None` exactly where their IDs do not strictly rise. Takes no memory.
    pub fn from_rows(rows: Vec<Row>) -> Option<Table>
        ensures rising { IsSome result ↔ IsTrue (rises row_id rows.items) }
        ensures table { IfSome result (λ table. table ≡ rows.items) }
    {
        if is_rising(rows.as_slice()) {
            Some(Table { rows })
        } else {
            None
        }
    }

    /// The table of these rows. Their IDs strictly rise, and so this is not refused. Takes no memory.
    pub fn new(rows: Vec<Row>) -> Table
        requires rising { IsTrue (rises row_id rows.items) }
        ensures table { result ≡ rows.items }
    {
        Table { rows }
    }

    /// The rows, by rising ID.
    pub fn rows(&self) -> &[Row]
        ensures rows { result.now ≡ self.now }
        ensures rising { IsTrue (rises row_id self.now) }
    {
        self.rows.as_slice()
    }

    /// The allocator of the rows.
    pub fn allocator(&self) -> Global {
        *self.rows.allocator()
    }

    /// Whether two tables have equal rows. Takes no memory.
    pub fn same(&self, other: &Table) -> bool
        ensures { result ≡ rows_eq self.now other.now }
    {
        same_rows(&self.rows, &other.rows)
    }
}

/// Whether the IDs of rows strictly rise.
fn is_rising(rows: &[Row]) -> bool
    ensures { result ≡ rises row_id rows.now }
{
    let mut last = None;
    'rows: for row in rows {
        if !is_above(last, row.id) {
            return false;
        }
        last = Some(row.id);
    }
    true
}

/// The row with this ID among rows of which the IDs strictly rise, found by halving the list; `None` if there is none.
/// Takes no memory.
pub fn find_row(rows: &[Row], id: MountId) -> Option<&Row>
    requires { IsTrue (rises row_id rows.now) }
    ensures { MatchOption result (row_at row_id id rows.now ≡ None) (λ row. row_at row_id id rows.now ≡ Some row.now) }
{
    match rows.binary_search_by_key(&id, |row| row.id) {
        Ok(at) => Some(&rows[at]),
        Err(_) => None,
    }
}

/// Whether two lists have equal rows.
fn same_rows(left: &[Row], right: &[Row]) -> bool
    ensures { result ≡ rows_eq left.now right.now }
{
    let mut others = right.iter();
    for here in left {
        let Some(there) = others.next() else {
            return false;
        };
        if !here.same(there) {
            return false;
        }
    }
    others.next().is_none()
}

/// The table of a namespace.
///
/// Refused as `NoNamespace` if there is no such namespace, and otherwise only as `NoMemory`.
pub fn table_of(world: &World, space: SpaceId) -> Result<Table, Fault>
    requires well_formed { IsWellFormed (world_view world.now) }
    ensures table { IfOk result (λ table. (is_space (world_view world.now) space ≡ true) × (table ≡ table_of (world_view world.now) space)) }
    ensures absent { is_space (world_view world.now) space ≡ false → result ≡ Err Fault.NoNamespace }
    ensures refused { IfErr result (λ fault. fault ≢ Fault.NoMemory → (fault ≡ Fault.NoNamespace) × (is_space (world_view world.now) space ≡ false)) }
{
    if world.forest.root(space).is_none() {
        return Err(Fault::NoNamespace);
    }
    table_or_empty(world, space)
}

/// The table of a namespace, which is empty if there is no such namespace.
fn table_or_empty(world: &World, space: SpaceId) -> Result<Table, Fault>
    requires well_formed { IsWellFormed (world_view world.now) }
    ensures table { IfOk result (λ table. table ≡ table_of (world_view world.now) space) }
    ensures memory { IsOkUnless result Fault.NoMemory }
{
    let mounts = world.forest.mounts_in(space)?;
    let mut rows = Vec::new(world.forest.allocator());
    let mut seen = Findings::new(world);
    for mount in &mounts {
        rows.push(row_of_mount(&mut seen, mount)?)?;
    }
    Ok(Table { rows })
}

/// The row of the mount with this ID, which is there.
pub fn row_of(world: &World, id: MountId) -> Result<Row, Fault>
    requires well_formed { IsWellFormed (world_view world.now) }
    requires there { IsSome (mount_at world.now.forest.mounts id) }
    ensures row { IfOk result (λ row. row ≡ row_of (world_view world.now) (mount_or_unknown (world_view world.now) id)) }
    ensures memory { IsOkUnless result Fault.NoMemory }
{
    row_seen(&mut Findings::new(world), id)
}

/// What [`row_of`] answers for a mount, for callers that ask for several rows of one world: what is found of its groups
/// and of the mounts above it is kept from row to row.
pub fn row_seen(seen: &mut Findings<'_>, id: MountId) -> Result<Row, Fault>
    requires well_formed { IsWellFormed (world_view seen.old) }
    requires there { IsSome (mount_at seen.old.forest.mounts id) }
    ensures row { IfOk result (λ row. row ≡ row_of (world_view seen.old) (mount_or_unknown (world_view seen.old) id)) }
    ensures kept { seen.new ≡ seen.old }
    ensures memory { IsOkUnless result Fault.NoMemory }
{
    let mount = seen.world().forest.get(id).unwrap();
    row_of_mount(seen, &mount)
}

/// The row of a mount of the world.
fn row_of_mount(seen: &mut Findings<'_>, mount: &Mount) -> Result<Row, Fault>
    requires well_formed { IsWellFormed (world_view seen.old) }
    requires there { mount_at seen.old.forest.mounts mount.now.id ≡ Some mount.now }
    ensures row { IfOk result (λ row. row ≡ row_of (world_view seen.old) mount.now) }
    ensures kept { seen.new ≡ seen.old }
    ensures memory { IsOkUnless result Fault.NoMemory }
{
    let world = seen.world();
    let minor = world.skel.fs_of(mount.root);
    let state = state_of(world, mount.id);
    Ok(Row {
        id: mount.id,
        parent: parent_or_itself(mount),
        minor,
        root: path_to(world, mount.root)?,
        point: seen.point(mount)?,
        attrs: mount.attrs,
        shared: state.group,
        master: state.master,
        via: seen.from_group(mount.id, &state)?,
        unbindable: state.unbindable,
        kind: world.skel.kind(minor).copy()?,
        source: world.skel.source(minor).copy()?,
    })
}

/// The mount that a mount stands on; the mount itself if it is the root mount of its namespace.
pub(crate) fn parent_or_itself(mount: &Mount) -> MountId
    ensures { result ≡ option_map_or (λ (p : PlaceOf). p.mount) mount.now.place mount.now.id }
{
    match mount.place {
        Some(place) => place.mount,
        None => mount.id,
    }
}

/// The path from the root of its filesystem down to a directory.
fn path_to(world: &World, dir: Dir) -> Result<Names, Fault>
    requires { IsTrue (is_directory world.now.skel dir) }
    ensures path { IfOk result (λ path. path ≡ (directory world.now.skel dir).path) }
    ensures memory { IsOkUnless result Fault.NoMemory }
{
    let root = Names::root(world.forest.allocator());
    let path = world.skel.add_path(root, dir, world.skel.depth(dir))?;
    path.copy()
}
