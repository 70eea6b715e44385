//! The filesystems and directories that rows tell.
ghost use Rattle.std.specs.Prelude.{◌≡◌, ◌≢◌, Some, None, slice_get, IfOk, IfSome, OnOk, IsOkUnless, IsTrue};
ghost use Rattle.mt_skel.specs.Skeleton.{IsSkeleton, fs_named, is_filesystem};
ghost use Rattle.mt_info.specs.Laws.{Grows};
ghost use Rattle.mt_world.specs.Kept.{IsNamed, HaveFilesystems};
ghost use Rattle.mt_world.specs.Leaves.{HasMore};
ghost use Rattle.mt_world.specs.Places.{IsFull};

use crate::row::TableRow;
use mt_skel::fault::Fault;
use mt_skel::name::{Label, Name};
use mt_skel::skel::{Dir, FsId, Skel};

/// Passes over a refusal, but for want of memory.
fn but_memory(fault: Fault) -> Result<(), Fault>
    ensures other { OnOk result (fault ≢ Fault.NoMemory) }
    ensures memory { IsOkUnless result Fault.NoMemory }
{
    match fault {
        Fault::NoMemory => Err(fault),
        _ => Ok(()),
    }
}

/// Adds the filesystem that a row tells, which is called as its device is, unless there is one or no room. Refused as
/// `NoMemory` alone.
pub(crate) fn add_filesystem(skel: &mut Skel, row: &TableRow) -> Result<(), Fault>
    requires skeleton { IsSkeleton skel.old }
    ensures skeleton { IsSkeleton skel.new }
    ensures grown { Grows skel.old skel.new }
    ensures room { skel.new.room ≡ skel.old.room }
    ensures named { OnOk result (IsNamed skel.new row.now.device) }
    ensures memory { IsOkUnless result Fault.NoMemory }
{
    if skel.fs(&row.device).is_some() {
        return Ok(());
    }
    match skel.add_fs(row.device.copy()?, row.kind.copy()?, row.source.copy()?) {
        Ok(_fs) => Ok(()),
        Err(fault) => but_memory(fault),
    }
}

/// Adds the filesystems that rows tell, as many as there is room for.
pub(crate) fn add_filesystems(skel: &mut Skel, rows: &[TableRow]) -> Result<(), Fault>
    requires skeleton { IsSkeleton skel.old }
    ensures skeleton { IsSkeleton skel.new }
    ensures grown { Grows skel.old skel.new }
    ensures room { skel.new.room ≡ skel.old.room }
    ensures named { OnOk result (HaveFilesystems skel.new rows.now) }
    ensures memory { IsOkUnless result Fault.NoMemory }
{
    'rows: for row in rows {
        add_filesystem(skel, row)?;
    }
    Ok(())
}

/// The directory of this path in the filesystem of a name and a number, which is made, with those above it, where it is not
/// there; `None` where there is no room for it. Refused as `NoMemory` alone.
#[tactic(auto, using(crate::proofs::DirectoryLaws::still_there))]
pub(crate) fn make_directory(
    skel: &mut Skel,
    device: &Label,
    fs: FsId,
    path: &[Name],
) -> Result<Option<Dir>, Fault>
    requires skeleton { IsSkeleton skel.old }
    requires named { fs_named skel.old device.now ≡ Some fs }
    requires there { IsTrue (is_filesystem skel.old fs) }
    ensures skeleton { IsSkeleton skel.new }
    ensures grown { HasMore skel.old skel.new }
    ensures made { IfOk result (λ found. IfSome found (λ dir. slice_get skel.new.directories dir ≡ Some (record { fs = fs; path = path.now }))) }
    ensures full { IfOk result (λ found. found ≡ None → IsFull skel.new path.now) }
    ensures memory { IsOkUnless result Fault.NoMemory }
{
    let Some((name, above)) = path.split_last() else {
        return Ok(Some(skel.root(fs)));
    };
    let Some(parent) = make_directory(skel, device, fs, above)? else {
        return Ok(None);
    };
    if let Some(dir) = skel.child(parent, name) {
        return Ok(Some(dir));
    }
    match skel.add_dir(device, path) {
        Ok(dir) => Ok(Some(dir)),
        Err(fault) => {
            but_memory(fault)?;
            Ok(None)
        }
    }
}
