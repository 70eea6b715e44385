//! What becomes of each mount where one is made at a place.
ghost use Rattle.std.specs.Prelude.{◌≡◌, map, IfOk, IsOkUnless};
ghost use Rattle.std.specs.List.{filter};
ghost use Rattle.mt_questions.specs.Fates.{gets_from_group, fate_as, fate_of, fate_eq, has_fate};

use mt_peers::state::GroupId;
use mt_reach::missing::{Gets, gets_as_told};
use mt_reach::reason::gets_at;
use mt_reach::row::{SeenDirectory, SeenRow};
use mt_reach::rows::SeenRows;
use mt_skel::fault::Fault;
use std::alloc::Global;

/// What becomes of a mount where one is made in a directory of another.
#[derive(Clone, Copy, PartialEq, Eq)]
pub enum Fate {
    /// The new mount stands on it.
    Stands,
    /// A copy of the new mount comes to it: it shows the directory, and gets what happens there.
    Comes,
    /// It shows the directory, and whether it gets what happens there is not told by these tables.
    MayCome,
    /// It shows the directory, and does not get what happens there.
    Stays,
    /// It gets what happens there, and does not show the directory.
    Passes,
    /// It has nothing to do with it.
    Apart,
}

/// Whether a mount gets what happens in a group, as far as rows tell; it does not where there is none. Refused as `NoMemory` alone.
fn gets_from_group(rows: &SeenRows, group: Option<GroupId>, row: &SeenRow) -> Result<Gets, Fault>
    ensures gets { IfOk result (λ gets. gets ≡ gets_from_group rows.now group row.now) }
    ensures memory { IsOkUnless result Fault.NoMemory }
{
    match group {
        Some(group) => gets_as_told(rows, group, row),
        None => Ok(Gets::No),
    }
}

/// What becomes of a mount that shows the directory.
fn fate_as(gets: Gets) -> Fate
    ensures { result ≡ fate_as gets }
{
    match gets {
        Gets::Yes => Fate::Comes,
        Gets::Unknown => Fate::MayCome,
        Gets::No => Fate::Stays,
    }
}

/// What becomes of a mount where one is made in this directory of the mount `place`. Refused as `NoMemory` alone.
pub fn fate_of(
    rows: &SeenRows,
    place: &SeenRow,
    directory: &SeenDirectory,
    row: &SeenRow,
) -> Result<Fate, Fault>
    ensures fate { IfOk result (λ fate. fate ≡ fate_of rows.now place.now directory.now row.now) }
    ensures memory { IsOkUnless result Fault.NoMemory }
{
    if place.id == row.id {
        return Ok(Fate::Stands);
    }
    if row.shows(directory) {
        let gets = gets_from_group(rows, place.group, row)?;
        return Ok(fate_as(gets));
    }
    if gets_at(rows, place, row)? {
        return Ok(Fate::Passes);
    }
    Ok(Fate::Apart)
}

/// Whether two are one.
fn is_fate(left: Fate, right: Fate) -> bool
    ensures { result ≡ fate_eq left right }
{
    left == right
}

/// Whether a mount has this fate. Refused as `NoMemory` alone.
fn has_fate(
    rows: &SeenRows,
    place: &SeenRow,
    directory: &SeenDirectory,
    fate: Fate,
    row: &SeenRow,
) -> Result<bool, Fault>
    ensures has { IfOk result (λ has. has ≡ has_fate rows.now place.now directory.now fate row.now) }
    ensures memory { IsOkUnless result Fault.NoMemory }
{
    let found = fate_of(rows, place, directory, row)?;
    Ok(is_fate(found, fate))
}

/// Those of some mounts that have this fate, in their order. Refused as `NoMemory` alone.
pub fn with_fate<'a>(
    alloc: Global,
    rows: &SeenRows,
    place: &SeenRow,
    directory: &SeenDirectory,
    fate: Fate,
    all: &[&'a SeenRow],
) -> Result<Vec<&'a SeenRow>, Fault>
    ensures found { IfOk result (λ found. map (λ row. row.now) found.items ≡ filter (has_fate rows.now place.now directory.now fate) (map (λ row. row.now) all.now)) }
    ensures memory { IsOkUnless result Fault.NoMemory }
{
    let mut found = Vec::new(alloc);
    'all: for row in all {
        if has_fate(rows, place, directory, fate, row)? {
            found.push(*row)?;
        }
    }
    Ok(found)
}
