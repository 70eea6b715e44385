//! The mounts to which a mount made at a place comes.
ghost use Rattle.std.specs.Prelude.{◌≡◌, IfOk, IsOkUnless};
ghost use Rattle.mt_reach.specs.Reached.{row_gets, is_reached, reached};

use crate::row::{SeenDirectory, SeenRow};
use crate::rows::SeenRows;
use crate::upward::{Step, Upward};
use mt_mounts::mount::MountId;
use mt_skel::fault::Fault;

/// Whether a mount gets what happens in the group that is the goal of these ways. Refused as `NoMemory` alone.
#[tactic(auto, using(crate::proofs::MeetLaws::leads_reaches))]
pub(crate) fn gets(upward: &mut Upward<'_>, row: &SeenRow) -> Result<bool, Fault>
    requires { upward.old.step ≡ Step.ToMaster }
    ensures gets { IfOk result (λ gets. gets ≡ row_gets upward.old.rows upward.old.goal row.now) }
    ensures kept { upward.new ≡ upward.old }
    ensures memory { IsOkUnless result Fault.NoMemory }
{
    if row.group == Some(upward.goal()) {
        return Ok(true);
    }
    match row.master {
        Some(master) => upward.is_met(master),
        None => Ok(false),
    }
}

/// Whether a mount made in a directory of a mount with this ID, whose group is the goal, comes to this one. Refused as
/// `NoMemory` alone.
fn is_reached(
    upward: &mut Upward<'_>,
    id: MountId,
    directory: &SeenDirectory,
    row: &SeenRow,
) -> Result<bool, Fault>
    requires { upward.old.step ≡ Step.ToMaster }
    ensures reached { IfOk result (λ is. is ≡ is_reached upward.old.rows id directory.now upward.old.goal row.now) }
    ensures kept { upward.new ≡ upward.old }
    ensures memory { IsOkUnless result Fault.NoMemory }
{
    if id == row.id || !row.shows(directory) {
        return Ok(false);
    }
    gets(upward, row)
}

/// The mounts to which a mount made in a directory of a mount comes, beside that place itself, by rising ID: all others that get
/// what happens in its peer group, by masters that have members among the rows, and show the directory. None where it is in no
/// group. Rows do not tell which namespaces are detached trees: to those no mount comes. Where a master has no member, [`gets_as_told`](crate::missing::gets_as_told) says what the rows tell of a mount. Refused
/// as `NoMemory` alone.
pub fn reached(
    rows: &SeenRows,
    id: MountId,
    directory: &SeenDirectory,
) -> Result<Vec<MountId>, Fault>
    ensures reached { IfOk result (λ ids. ids.items ≡ reached rows.now id directory.now) }
    ensures memory { IsOkUnless result Fault.NoMemory }
{
    let mut ids = Vec::new(rows.allocator());
    let Some(group) = rows.group_of(id) else {
        return Ok(ids);
    };
    let mut upward = Upward::new(rows, Step::ToMaster, group);
    'rows: for row in rows.rows() {
        if is_reached(&mut upward, id, directory, row)? {
            ids.push(row.id)?;
        }
    }
    Ok(ids)
}
