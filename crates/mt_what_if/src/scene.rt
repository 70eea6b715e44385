//! The world of tables, on which lines are tried.
ghost use Rattle.std.specs.Prelude.{◌≡◌, [], not, map, IfOk, IsOkUnless};
ghost use Rattle.std.specs.List.{filter};
ghost use Rattle.mt_propagate.specs.World.{world_view};
ghost use Rattle.mt_propagate.specs.WellFormed.{IsWellFormed};
ghost use Rattle.mt_what_if.specs.Gathered.{rows_gathered};
ghost use Rattle.mt_world.specs.Locked.{all_may_be_locked};
ghost use Rattle.mt_what_if.specs.Scenes.{called_from, foreign_from, IsWorldOfTables};

use crate::gathered::{Gathered, Missed, RowPlace, gather};
use crate::known_space::KnownSpace;
use crate::trial::Trial;
use mt_mounts::mount::SpaceId;
use mt_propagate::world::World;
use mt_questions::table::NamedTable;
use mt_skel::fault::Fault;
use mt_skel::name::Label;
use mt_world::locked::lock_foreign;
use mt_world::made::{Made, world_of};
use mt_world::misfit::Misfit;
use mt_world::row::TableRow;
use std::alloc::{AllocError, Global};

/// The world of tables, on which lines are tried.
pub struct Scene {
    /// The world, and what was tried on it.
    pub trial: Trial,
}

impl Drop for Scene {
    fn drop(self) {
        let Scene { trial: _trial } = self;
    }
}

/// The world of tables, and what it has not of them.
pub struct Begun {
    /// The world of the tables, on which no line was tried yet.
    pub scene: Scene,
    /// The namespaces of the tables.
    pub names: Vec<KnownSpace>,
    /// The rows that the world has not as they are told.
    pub missed: Vec<Missed>,
    /// The foreign namespaces in which nothing is locked, since no table tells what is.
    pub lockless: Vec<SpaceId>,
}

impl Drop for Begun {
    fn drop(self) {
        let Begun {
            scene: _scene,
            names: _names,
            missed: _missed,
            lockless: _lockless,
        } = self;
    }
}

/// Adds the rows for which there is a reason, each with its own.
fn push_missed(
    missed: &mut Vec<Missed>,
    origins: &[RowPlace],
    whys: &[Option<Misfit>],
    is_private: bool,
) -> Result<(), AllocError> {
    for (origin, why) in origins.iter().zip(whys) {
        if why.is_some() {
            missed.push(Missed {
                origin: *origin,
                why: *why,
                is_private,
            })?;
        }
    }
    Ok(())
}

/// The devices of rows, by which the filesystems of their world are known.
fn devices_of(alloc: Global, rows: &[TableRow]) -> Result<Vec<Label>, Fault>
    ensures devices { IfOk result (λ devices. devices.items ≡ map (λ row. row.device) rows.now) }
    ensures memory { IsOkUnless result Fault.NoMemory }
{
    let mut devices = Vec::new(alloc);
    'rows: for row in rows {
        devices.push(row.device.copy()?)?;
    }
    Ok(devices)
}

/// The names of tables, by their numbers from 1.
fn names_of(alloc: Global, tables: &[NamedTable]) -> Result<Vec<KnownSpace>, AllocError>
    ensures { IfOk result (λ spaces. spaces.items ≡ called_from 1 tables.now) }
{
    let mut spaces = Vec::new(alloc);
    'tables: for (table, named) in tables.iter().enumerate() {
        spaces.push(KnownSpace::new(alloc, table as u64 + 1, &named.name)?)?;
    }
    Ok(spaces)
}

/// The numbers of the tables of foreign namespaces.
fn foreign_of(alloc: Global, tables: &[NamedTable]) -> Result<Vec<SpaceId>, AllocError>
    ensures { IfOk result (λ foreign. foreign.items ≡ foreign_from 1 tables.now) }
{
    let mut foreign = Vec::new(alloc);
    'tables: for (table, named) in tables.iter().enumerate() {
        if named.is_foreign {
            foreign.push(table as u64 + 1)?;
        }
    }
    Ok(foreign)
}

/// The scene of the world of tables, of which these are the rows.
fn scene_of(alloc: Global, rows: &[TableRow], world: &World) -> Result<Scene, Fault>
    requires { IsWellFormed (world_view world.now) }
    ensures trial { IfOk result (λ scene. scene.trial ≡ record { start = world_view world.now; commands = []; names = map (λ row. row.device) rows.now; given = []; refused = [] }) }
    ensures memory { IsOkUnless result Fault.NoMemory }
{
    let names = devices_of(alloc, rows)?;
    Ok(Scene {
        trial: Trial::new(alloc, world, names)?,
    })
}

/// The rows that the world of tables has not as they are told.
fn missed_of(alloc: Global, gathered: &Gathered, made: &Made) -> Result<Vec<Missed>, AllocError> {
    let mut missed = Vec::from_slice(alloc, &gathered.missed)?;
    let origins = gathered.origins.as_slice();
    push_missed(&mut missed, origins, &made.left, false)?;
    push_missed(&mut missed, origins, &made.private, true)?;
    Ok(missed)
}

/// The world of these tables, on which no line was tried yet, and which rows it has not as they are told. The namespaces have the
/// numbers of their tables, from 1, and the mounts and peer groups their own.
///
/// In a foreign namespace all places and attributes are locked, if the first table has a row of each of its mounts, by mount
/// point, root and device, and none of them is in a peer group (mount_namespaces(7), restrictions on mount namespaces; that
/// such mounts came with a copy of the first namespace is this project's rule). The other foreign ones are answered as
/// `lockless`. The world has this room, 1 to 256. Refused as `NoMemory` alone.
pub fn begin(alloc: Global, tables: &[NamedTable], room: usize) -> Result<Begun, Fault>
    ensures begun { IfOk result (λ begun. IsWorldOfTables (rows_gathered 1 tables.now) (foreign_from 1 tables.now) begun.scene.trial) }
    ensures names { IfOk result (λ begun. begun.names.items ≡ called_from 1 tables.now) }
    ensures lockless { IfOk result (λ begun. begun.lockless.items ≡ filter (λ n. not (all_may_be_locked (rows_gathered 1 tables.now) n)) (foreign_from 1 tables.now)) }
    ensures memory { IsOkUnless result Fault.NoMemory }
{
    let gathered = gather(alloc, tables)?;
    let mut made = world_of(alloc, &gathered.rows, room)?;
    let missed = missed_of(alloc, &gathered, &made)?;
    let names = names_of(alloc, tables)?;
    let foreign = foreign_of(alloc, tables)?;
    let lockless = lock_foreign(alloc, &mut made.world, &gathered.rows, &foreign)?;
    let scene = scene_of(alloc, &gathered.rows, &made.world)?;
    Ok(Begun {
        scene,
        names,
        missed,
        lockless,
    })
}
