//! The mount of one row.
ghost use Rattle.std.specs.Prelude.{◌≡◌, ◌≢◌, ◌<◌, Some, None, option_copied, IfOk, IfErr, IfSome, OnErr, IsOkUnless, IsTrue, MatchOption};
ghost use Rattle.mt_skel.specs.Skeleton.{IsSkeleton};
ghost use Rattle.mt_propagate.specs.World.{world_view};
ghost use Rattle.mt_world.specs.Leaves.{IsSound, IsGrown, HasMore, HasSameNumbers};
ghost use Rattle.mt_world.specs.Places.{place_path, IsOn, IsWhyNone, IsPlaceOn, IsWhyUnplaced, StandsOn, IsMountOf, IsWhyUnmade, IsWhyNotPut, IsPut, HasSameMounts};
ghost use Rattle.mt_world.specs.declared.row.TableRow.{TableRow as RowOf};
ghost use Rattle.mt_world.specs.Rows.{is_numbered};

use crate::directory::make_directory;
use crate::fit::why_unfit;
use crate::leaf::add_leaf;
use crate::misfit::Misfit;
use crate::row::TableRow;
use mt_mounts::mount::{Mount, Place};
use mt_propagate::world::World;
use mt_skel::fault::Fault;
use mt_skel::name::{Label, Name};
use mt_skel::skel::{Dir, Skel};

/// The most names from the root of a filesystem down to a directory.
const MOST_DEPTH: usize = 32;

/// A directory, or why there is none.
type Found = Result<Dir, Misfit>;

/// The directory of this path on a device, which is made where it is not there, or why it cannot be.
fn directory_of(skel: &mut Skel, device: &Label, path: &[Name]) -> Result<Found, Fault>
    requires skeleton { IsSkeleton skel.old }
    ensures skeleton { IsSkeleton skel.new }
    ensures grown { HasMore skel.old skel.new }
    ensures made { IfOk result (λ found. IfOk found (λ dir. IsOn skel.new device.now path.now dir)) }
    ensures why { IfOk result (λ found. IfErr found (λ why. IsWhyNone skel.new device.now path.now why)) }
    ensures memory { IsOkUnless result Fault.NoMemory }
{
    let Some(fs) = skel.fs(device) else {
        return Ok(Err(Misfit::NoRoom));
    };
    if path.len() > MOST_DEPTH {
        return Ok(Err(Misfit::TooDeep));
    }
    match make_directory(skel, device, fs, path)? {
        Some(dir) => Ok(Ok(dir)),
        None => Ok(Err(Misfit::NoRoom)),
    }
}

/// The path of the directory on which the mount of a row stands, in the filesystem of its parent; `None` where it does not stand below
/// that. Refused as `NoMemory` alone.
fn place_path(row: &TableRow, above: &TableRow) -> Result<Option<Vec<Name>>, Fault>
    ensures path { IfOk result (λ found. MatchOption found (place_path row.now above.now ≡ None) (λ path. place_path row.now above.now ≡ Some path.items)) }
    ensures memory { IsOkUnless result Fault.NoMemory }
{
    let point = row.point.to_vec()?;
    let front = above.point.to_vec()?;
    let Some(names) = point.as_slice().strip_prefix(front.as_slice()) else {
        return Ok(None);
    };
    let mut path = above.root.to_vec()?;
    for name in names {
        path.push(name.copy()?)?;
    }
    Ok(Some(path))
}

/// The place of the mount of a row on that of another one, of which the directory is made where it is not there; or why it has none.
fn place_on(
    skel: &mut Skel,
    row: &TableRow,
    above: &TableRow,
) -> Result<Result<Place, Misfit>, Fault>
    requires skeleton { IsSkeleton skel.old }
    ensures skeleton { IsSkeleton skel.new }
    ensures grown { HasMore skel.old skel.new }
    ensures placed { IfOk result (λ found. IfOk found (λ place. IsPlaceOn skel.new row.now above.now place)) }
    ensures why { IfOk result (λ found. IfErr found (λ why. IsWhyUnplaced skel.new row.now above.now why)) }
    ensures memory { IsOkUnless result Fault.NoMemory }
{
    let Some(path) = place_path(row, above)? else {
        return Ok(Err(Misfit::Elsewhere));
    };
    match directory_of(skel, &above.device, path.as_slice())? {
        Ok(dir) => Ok(Ok(Place {
            mount: above.id,
            dir,
        })),
        Err(why) => Ok(Err(why)),
    }
}

/// The place of the mount of a row on that of another one, or none without one; or why it has none where it should have one.
fn place_of(
    skel: &mut Skel,
    row: &TableRow,
    above: Option<&TableRow>,
) -> Result<Result<Option<Place>, Misfit>, Fault>
    requires skeleton { IsSkeleton skel.old }
    ensures skeleton { IsSkeleton skel.new }
    ensures grown { HasMore skel.old skel.new }
    ensures stands { IfOk result (λ found. IfOk found (λ place. StandsOn skel.new row.now (option_copied above.entry) place)) }
    ensures why { IfOk result (λ found. IfErr found (λ why. (on : RowOf) × (option_copied above.entry ≡ Some on) × IsWhyUnplaced skel.new row.now on why)) }
    ensures memory { IsOkUnless result Fault.NoMemory }
{
    let Some(above) = above else {
        return Ok(Ok(None));
    };
    match place_on(skel, row, above)? {
        Ok(place) => Ok(Ok(Some(place))),
        Err(why) => Ok(Err(why)),
    }
}

/// The directory that the mount of a row shows, which is made where it is not there; or why there is none.
fn root_of(skel: &mut Skel, row: &TableRow) -> Result<Found, Fault>
    requires skeleton { IsSkeleton skel.old }
    ensures skeleton { IsSkeleton skel.new }
    ensures grown { HasMore skel.old skel.new }
    ensures made { IfOk result (λ found. IfOk found (λ root. IsOn skel.new row.now.device row.now.root root)) }
    ensures why { IfOk result (λ found. IfErr found (λ why. IsWhyNone skel.new row.now.device row.now.root why)) }
    ensures memory { IsOkUnless result Fault.NoMemory }
{
    let path = row.root.to_vec()?;
    directory_of(skel, &row.device, path.as_slice())
}

/// The mount that a row tells, on that of another one or, without one, as the root mount of its namespace; or why there is none. Its
/// directories are made where they are not there.
fn mount_of(
    skel: &mut Skel,
    row: &TableRow,
    above: Option<&TableRow>,
) -> Result<Result<Mount, Misfit>, Fault>
    requires skeleton { IsSkeleton skel.old }
    ensures skeleton { IsSkeleton skel.new }
    ensures grown { HasMore skel.old skel.new }
    ensures made { IfOk result (λ found. IfOk found (λ mount. IsMountOf skel.new row.now (option_copied above.entry) mount)) }
    ensures why { IfOk result (λ found. IfErr found (λ why. IsWhyUnmade skel.new row.now (option_copied above.entry) why)) }
    ensures memory { IsOkUnless result Fault.NoMemory }
{
    if !row.is_numbered() {
        return Ok(Err(Misfit::NoNumber));
    }
    let place = match place_of(skel, row, above)? {
        Ok(place) => place,
        Err(why) => return Ok(Err(why)),
    };
    match root_of(skel, row)? {
        Ok(root) => Ok(Ok(Mount {
            id: row.id,
            space: row.space,
            place,
            root,
            attrs: row.attrs,
        })),
        Err(why) => Ok(Err(why)),
    }
}

/// Adds the mount that a row tells, private, on that of another row, or as the root mount of its namespace; or says why
/// it cannot be.
#[tactic(auto, using(crate::proofs::PutLaws::skel_grown, crate::proofs::PutLaws::skel_numbers, crate::proofs::PutLaws::skel_mounts))]
pub fn put_row(
    world: &mut World,
    row: &TableRow,
    above: Option<&TableRow>,
) -> Result<Option<Misfit>, Fault>
    requires sound { IsSound (world_view world.old) }
    requires numbers { IsTrue (is_numbered row.now) → (row.now.id < world.old.next_mount) × (row.now.space < world.old.next_space) }
    ensures sound { IsSound (world_view world.new) }
    ensures grown { IsGrown (world_view world.old) (world_view world.new) }
    ensures same { HasSameNumbers (world_view world.old) (world_view world.new) }
    ensures put { IfOk result (λ why. why ≡ None → IsPut (world_view world.old) (world_view world.new) row.now (option_copied above.entry)) }
    ensures why { IfOk result (λ why. IfSome why (λ why. IsWhyNotPut (world_view world.new) row.now (option_copied above.entry) why)) }
    ensures refused { IfOk result (λ why. why ≢ None → HasSameMounts (world_view world.old) (world_view world.new)) }
    ensures unchanged { OnErr result (HasSameMounts (world_view world.old) (world_view world.new)) }
    ensures memory { IsOkUnless result Fault.NoMemory }
{
    let mount = match mount_of(&mut world.skel, row, above)? {
        Ok(mount) => mount,
        Err(why) => return Ok(Some(why)),
    };
    if let Some(why) = why_unfit(world, &mount) {
        return Ok(Some(why));
    }
    add_leaf(world, mount)?;
    Ok(None)
}
