//! Where a mount made at a path comes.
ghost use Rattle.std.specs.Prelude.{◌≡◌, ◌∷◌, map, IfOk, IsOkUnless};
ghost use Rattle.std.specs.List.{filter, list_any};
ghost use Rattle.mt_reach.specs.Rows.{seen_id};
ghost use Rattle.mt_questions.specs.Copies.{copy_on};
ghost use Rattle.mt_questions.specs.Remedies.{apart_on, open_rows};
ghost use Rattle.mt_questions.specs.Reach.{untold_on, of_fate, copied_ids, shows_in, is_without, number_of_space, tells_first, missing_at, missing_in, reach_among, reach_of, comes_elsewhere};

use crate::copies::{ReachedMount, Spot, copy_on, spot_on};
use crate::fate::{Fate, with_fate};
use crate::remedy::{ApartMount, apart_on, open_rows};
use crate::table::{NamedSpace, SeenTables};
use mt_mounts::mount::{MountId, SpaceId};
use mt_peers::state::GroupId;
use mt_reach::missing::missing_groups;
use mt_reach::path::Path;
use mt_reach::row::{SeenDirectory, SeenRow};
use mt_reach::rows::SeenRows;
use mt_reach::walking::{directory_at, end_of};
use mt_skel::fault::Fault;
use std::alloc::Global;
use std::marker::Model;

/// A mount of which the tables do not tell whether a copy comes to it.
#[derive(Drop)]
pub struct Untold {
    /// Where the copy would stand.
    pub spot: Spot,
    /// The groups above the mount that have no member in the tables.
    pub missing: Vec<GroupId>,
}

impl Model for Untold {
    ghost use Rattle.mt_questions.specs.Reach.{UntoldView};

    ghost Value = { UntoldView };

    ghost view = { λ u. record { spot = u.spot; missing = u.missing.items } };
}

/// Where a mount made at a path comes, and where not.
#[derive(Drop)]
pub struct ReachAnswer {
    /// The namespace of the path.
    pub space: SpaceId,
    /// The path.
    pub path: Path,
    /// The mount on which its walk ends, on which the new one stands.
    pub mount: MountId,
    /// The directory where it ends.
    pub directory: SeenDirectory,
    /// The copies that come to other mounts.
    pub copies: Vec<ReachedMount>,
    /// The mounts of which it is not told whether a copy comes to them.
    pub untold: Vec<Untold>,
    /// The other mounts that show the directory.
    pub apart: Vec<ApartMount>,
    /// The mounts that get what happens there, and do not show the directory.
    pub passes: Vec<MountId>,
    /// The namespaces in which no mount shows the directory.
    pub without: Vec<SpaceId>,
    /// The groups that mounts tell as their masters, and that have no member in the tables.
    pub missing: Vec<GroupId>,
}

impl Model for ReachAnswer {
    ghost use Rattle.mt_questions.specs.Reach.{ReachView};

    ghost Value = { ReachView };

    ghost view = { λ r. record {
      space = r.space;
      path = r.path;
      mount = r.mount;
      directory = r.directory;
      copies = r.copies.items;
      untold = r.untold.items;
      apart = r.apart.items;
      passes = r.passes.items;
      without = r.without.items;
      missing = r.missing.items;
    } };
}

impl ReachAnswer {
    /// Whether a copy comes to another mount, or may come, as far as the tables tell: not where the mount itself is refused, at the
    /// root of a namespace.
    pub fn comes_elsewhere(&self) -> bool
        ensures { result ≡ comes_elsewhere self.now }
    {
        !self.path.is_root() && !(self.copies.is_empty() && self.untold.is_empty())
    }
}

/// The IDs of mounts. Refused as `NoMemory` alone.
fn ids_of(alloc: Global, rows: &[&SeenRow]) -> Result<Vec<MountId>, Fault>
    ensures ids { IfOk result (λ ids. ids.items ≡ map seen_id (map (λ row. row.now) rows.now)) }
    ensures memory { IsOkUnless result Fault.NoMemory }
{
    let mut ids = Vec::new(alloc);
    'rows: for row in rows {
        ids.push(row.id)?;
    }
    Ok(ids)
}

/// The copies that come to these mounts. Refused as `NoMemory` alone.
fn copies_on(
    alloc: Global,
    rows: &SeenRows,
    place: &SeenRow,
    directory: &SeenDirectory,
    ids: &[MountId],
    found: &[&SeenRow],
) -> Result<Vec<ReachedMount>, Fault>
    ensures copies { IfOk result (λ copies. copies.items ≡ map (copy_on rows.now place.now directory.now ids.now) (map (λ row. row.now) found.now)) }
    ensures memory { IsOkUnless result Fault.NoMemory }
{
    let mut copies = Vec::new(alloc);
    'found: for row in found {
        copies.push(copy_on(alloc, rows, place, directory, ids, row)?)?;
    }
    Ok(copies)
}

/// The IDs of the place and of the mounts to which copies come. Refused as `NoMemory` alone.
fn copied_ids(alloc: Global, place: &SeenRow, found: &[&SeenRow]) -> Result<Vec<MountId>, Fault>
    ensures ids { IfOk result (λ ids. ids.items ≡ place.now.id ∷ map seen_id (map (λ row. row.now) found.now)) }
    ensures memory { IsOkUnless result Fault.NoMemory }
{
    let mut ids = Vec::new(alloc);
    ids.push(place.id)?;
    'found: for row in found {
        ids.push(row.id)?;
    }
    Ok(ids)
}

/// The copies of what is made in this directory of a mount. Refused as `NoMemory` alone.
fn copies_of(
    alloc: Global,
    rows: &SeenRows,
    place: &SeenRow,
    directory: &SeenDirectory,
    all: &[&SeenRow],
) -> Result<Vec<ReachedMount>, Fault>
    ensures found { IfOk result (λ found. found.items ≡ map (copy_on rows.now place.now directory.now (copied_ids rows.now place.now directory.now (map (λ row. row.now) all.now))) (of_fate rows.now place.now directory.now Fate.Comes (map (λ row. row.now) all.now))) }
    ensures memory { IsOkUnless result Fault.NoMemory }
{
    let found = with_fate(alloc, rows, place, directory, Fate::Comes, all)?;
    let ids = copied_ids(alloc, place, found.as_slice())?;
    copies_on(
        alloc,
        rows,
        place,
        directory,
        ids.as_slice(),
        found.as_slice(),
    )
}

/// A mount of which the rows do not tell whether a copy comes to it. Refused as `NoMemory` alone.
#[tactic(auto, unfolding(crate::specs::Reach::untold_on))]
fn untold_on(rows: &SeenRows, directory: &SeenDirectory, row: &SeenRow) -> Result<Untold, Fault>
    ensures untold { IfOk result (λ untold. untold ≡ untold_on rows.now directory.now row.now) }
    ensures memory { IsOkUnless result Fault.NoMemory }
{
    Ok(Untold {
        spot: spot_on(directory, row)?,
        missing: missing_groups(rows, row)?,
    })
}

/// Such of these mounts. Refused as `NoMemory` alone.
fn untold_on_all(
    alloc: Global,
    rows: &SeenRows,
    directory: &SeenDirectory,
    found: &[&SeenRow],
) -> Result<Vec<Untold>, Fault>
    ensures untold { IfOk result (λ untold. untold.items ≡ map (untold_on rows.now directory.now) (map (λ row. row.now) found.now)) }
    ensures memory { IsOkUnless result Fault.NoMemory }
{
    let mut untold = Vec::new(alloc);
    'found: for row in found {
        untold.push(untold_on(rows, directory, row)?)?;
    }
    Ok(untold)
}

/// The mounts of which it is not told whether a copy comes to them. Refused as `NoMemory` alone.
fn untold_of(
    alloc: Global,
    rows: &SeenRows,
    place: &SeenRow,
    directory: &SeenDirectory,
    all: &[&SeenRow],
) -> Result<Vec<Untold>, Fault>
    ensures found { IfOk result (λ found. found.items ≡ map (untold_on rows.now directory.now) (of_fate rows.now place.now directory.now Fate.MayCome (map (λ row. row.now) all.now))) }
    ensures memory { IsOkUnless result Fault.NoMemory }
{
    let found = with_fate(alloc, rows, place, directory, Fate::MayCome, all)?;
    untold_on_all(alloc, rows, directory, found.as_slice())
}

/// Such of these mounts, given those where a mount can be made in the directory. Refused as `NoMemory` alone.
fn apart_on_all(
    alloc: Global,
    rows: &SeenRows,
    opens: &[&SeenRow],
    place: &SeenRow,
    directory: &SeenDirectory,
    found: &[&SeenRow],
) -> Result<Vec<ApartMount>, Fault>
    ensures apart { IfOk result (λ apart. apart.items ≡ map (apart_on rows.now (map (λ row. row.now) opens.now) place.now directory.now) (map (λ row. row.now) found.now)) }
    ensures memory { IsOkUnless result Fault.NoMemory }
{
    let mut apart = Vec::new(alloc);
    'found: for row in found {
        apart.push(apart_on(rows, opens, place, directory, row)?)?;
    }
    Ok(apart)
}

/// The mounts that show the directory, and to which nothing comes. Refused as `NoMemory` alone.
fn apart_of(
    alloc: Global,
    rows: &SeenRows,
    place: &SeenRow,
    directory: &SeenDirectory,
    all: &[&SeenRow],
) -> Result<Vec<ApartMount>, Fault>
    ensures found { IfOk result (λ found. found.items ≡ map (apart_on rows.now (open_rows rows.now directory.now (map (λ row. row.now) all.now)) place.now directory.now) (of_fate rows.now place.now directory.now Fate.Stays (map (λ row. row.now) all.now))) }
    ensures memory { IsOkUnless result Fault.NoMemory }
{
    let found = with_fate(alloc, rows, place, directory, Fate::Stays, all)?;
    let opens = open_rows(alloc, rows, directory, all)?;
    apart_on_all(
        alloc,
        rows,
        opens.as_slice(),
        place,
        directory,
        found.as_slice(),
    )
}

/// The mounts that get what happens there, and do not show the directory. Refused as `NoMemory` alone.
fn passes_of(
    alloc: Global,
    rows: &SeenRows,
    place: &SeenRow,
    directory: &SeenDirectory,
    all: &[&SeenRow],
) -> Result<Vec<MountId>, Fault>
    ensures found { IfOk result (λ found. found.items ≡ map seen_id (of_fate rows.now place.now directory.now Fate.Passes (map (λ row. row.now) all.now))) }
    ensures memory { IsOkUnless result Fault.NoMemory }
{
    let found = with_fate(alloc, rows, place, directory, Fate::Passes, all)?;
    ids_of(alloc, found.as_slice())
}

/// Whether a mount of a namespace shows the directory.
fn is_shown_in(rows: &SeenRows, directory: &SeenDirectory, space: SpaceId) -> bool
    ensures { result ≡ list_any (shows_in directory.now space) rows.now }
{
    'rows: for row in rows.rows() {
        if row.space == space && row.shows(directory) {
            return true;
        }
    }
    false
}

/// The namespaces in which no mount shows the directory. Refused as `NoMemory` alone.
fn spaces_without(
    alloc: Global,
    rows: &SeenRows,
    directory: &SeenDirectory,
    names: &[NamedSpace],
) -> Result<Vec<SpaceId>, Fault>
    ensures without { IfOk result (λ without. without.items ≡ map number_of_space (filter (is_without rows.now directory.now) names.now)) }
    ensures memory { IsOkUnless result Fault.NoMemory }
{
    let mut without = Vec::new(alloc);
    'names: for name in names {
        if !is_shown_in(rows, directory, name.space) {
            without.push(name.space)?;
        }
    }
    Ok(without)
}

/// Whether a mount is the first that tells this master. Takes no memory.
fn tells_first(rows: &SeenRows, row: &SeenRow, master: GroupId) -> bool
    ensures { result ≡ tells_first rows.now row.now master }
{
    'rows: for other in rows.rows() {
        if other.master == Some(master) {
            return other.id == row.id;
        }
    }
    false
}

/// The master of a mount, if it has no member, and no mount with a lower ID tells it. Takes no memory.
fn missing_at(rows: &SeenRows, row: &SeenRow) -> Option<GroupId>
    ensures { result ≡ missing_at rows.now row.now }
{
    let master = row.master?;
    if !rows.has_member(master) && tells_first(rows, row, master) {
        Some(master)
    } else {
        None
    }
}

/// The groups without a member, each once. Refused as `NoMemory` alone.
pub fn missing_in(alloc: Global, rows: &SeenRows) -> Result<Vec<GroupId>, Fault>
    ensures missing { IfOk result (λ missing. missing.items ≡ missing_in rows.now) }
    ensures memory { IsOkUnless result Fault.NoMemory }
{
    let mut missing = Vec::new(alloc);
    'rows: for row in rows.rows() {
        if let Some(master) = missing_at(rows, row) {
            missing.push(master)?;
        }
    }
    Ok(missing)
}

/// The answer where a path of a namespace ends in this directory of the mount `place`. Refused as `NoMemory` alone.
fn reach_among(
    alloc: Global,
    tables: &SeenTables,
    space: SpaceId,
    path: &Path,
    place: &SeenRow,
    directory: SeenDirectory,
    all: &[&SeenRow],
) -> Result<ReachAnswer, Fault>
    ensures reach { IfOk result (λ reach. reach ≡ reach_among tables.now space path.now place.now directory (map (λ row. row.now) all.now)) }
    ensures memory { IsOkUnless result Fault.NoMemory }
{
    let rows = &tables.rows;
    Ok(ReachAnswer {
        space,
        path: path.copy()?,
        mount: place.id,
        copies: copies_of(alloc, rows, place, &directory, all)?,
        untold: untold_of(alloc, rows, place, &directory, all)?,
        apart: apart_of(alloc, rows, place, &directory, all)?,
        passes: passes_of(alloc, rows, place, &directory, all)?,
        without: spaces_without(alloc, rows, &directory, tables.names.as_slice())?,
        missing: missing_in(alloc, rows)?,
        directory,
    })
}

/// Where a mount made at a path of a namespace comes; `None` where its table has no root mount, so that no path leads anywhere.
/// Every directory is taken to be there. Refused as `NoMemory` alone.
pub fn reach_of(
    alloc: Global,
    tables: &SeenTables,
    space: SpaceId,
    path: &Path,
) -> Result<Option<ReachAnswer>, Fault>
    ensures reach { IfOk result (λ answer. answer ≡ reach_of tables.now space path.now) }
    ensures memory { IsOkUnless result Fault.NoMemory }
{
    let Some(place) = end_of(&tables.rows, space, path)? else {
        return Ok(None);
    };
    let directory = directory_at(place, path)?;
    let all = tables.rows_by_space(alloc)?;
    let answer = reach_among(alloc, tables, space, path, place, directory, all.as_slice())?;
    Ok(Some(answer))
}
