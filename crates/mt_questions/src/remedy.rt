//! What helps where a mount does not come to another one that shows the directory.
//!
//! No command makes a mount that is there receive what it does not receive yet. What helps is to make the mount elsewhere, or to
//! make one of the two anew from the other.
ghost use Rattle.std.specs.Prelude.{◌≡◌, ◌&&◌, not, map, option_copied, IfOk, IsOkUnless};
ghost use Rattle.std.specs.List.{find};
ghost use Rattle.mt_skel.specs.Keyed.{among};
ghost use Rattle.mt_reach.specs.Reasons.{gets_at, takers_of};
ghost use Rattle.mt_reach.specs.Sight.{point_on};
ghost use Rattle.mt_questions.specs.Copies.{leads_to};
ghost use Rattle.mt_questions.specs.Remedies.{can_mount_on, open_rows, serves_both, in_the_way, comes_here, made_elsewhere, can_join, bears_none, can_go, can_bind, joined_by, join_from, join_of, apart_on};

use crate::copies::{Spot, leads_to, spot_on};
use mt_mounts::mount::MountId;
use mt_reach::origin::takers_of;
use mt_reach::reason::{WhyNot, gets_at, reason_why};
use mt_reach::refusals::standing_on;
use mt_reach::row::{SeenDirectory, SeenRow};
use mt_reach::rows::SeenRows;
use mt_reach::sight::point_on;
use mt_reach::walking::end_of;
use mt_skel::fault::Fault;
use mt_skel::list::is_among;
use std::alloc::Global;

/// Where else a mount could be made.
#[derive(Clone, Copy)]
pub enum Elsewhere {
    /// In the directory on this mount: then it comes to both, and stands on one of them if that is the mount.
    Both(MountId),
    /// In the directory on this mount: then it comes to the other one, and stands on that if that is the mount.
    Alone(MountId),
    /// No path leads to the directory on the other mount: this one is in front.
    InFront(MountId),
    /// The table has no root mount.
    Nowhere,
}

/// How one of two mounts is made anew from the other.
#[derive(Clone, Copy)]
pub enum Joining {
    /// Both receive from one mount already, or one from the other.
    Unneeded,
    /// By an unmount and a bind.
    Bind,
    /// In the same namespace, where it takes more than that.
    Anew,
    /// By a new start of what runs in its namespace.
    Again,
}

/// How two mounts come to be joined.
#[derive(Clone, Copy)]
pub struct Join {
    /// The one from which the other is made anew.
    pub from: MountId,
    /// The other one.
    pub to: MountId,
    /// Whether the first has to be made shared before.
    pub shares: bool,
    /// How the other is made anew.
    pub how: Joining,
}

/// A mount that shows the directory, and to which nothing comes.
#[derive(Drop)]
pub struct ApartMount {
    /// Where a mount in the directory would stand on it.
    pub spot: Spot,
    /// Why nothing comes.
    pub why: WhyNot,
    /// Where else the mount could be made.
    pub elsewhere: Elsewhere,
    /// How the two mounts would be joined.
    pub join: Join,
}

/// Whether a mount can be made in the directory on a mount. Refused as `NoMemory` alone.
fn can_mount_on(rows: &SeenRows, directory: &SeenDirectory, row: &SeenRow) -> Result<bool, Fault>
    ensures opens { IfOk result (λ is. is ≡ can_mount_on rows.now directory.now row.now) }
    ensures memory { IsOkUnless result Fault.NoMemory }
{
    if !row.shows(directory) {
        return Ok(false);
    }
    let point = point_on(row, directory)?;
    if point.is_root() {
        return Ok(false);
    }
    leads_to(rows, row, &point)
}

/// Those of some mounts where a mount can be made in the directory, in their order. Refused as `NoMemory` alone.
pub fn open_rows<'a>(
    alloc: Global,
    rows: &SeenRows,
    directory: &SeenDirectory,
    all: &[&'a SeenRow],
) -> Result<Vec<&'a SeenRow>, Fault>
    ensures opens { IfOk result (λ found. map (λ row. row.now) found.items ≡ open_rows rows.now directory.now (map (λ row. row.now) all.now)) }
    ensures memory { IsOkUnless result Fault.NoMemory }
{
    let mut open = Vec::new(alloc);
    'all: for row in all {
        if can_mount_on(rows, directory, row)? {
            open.push(*row)?;
        }
    }
    Ok(open)
}

/// Whether what is made at a mount comes to both of two others. Refused as `NoMemory` alone.
fn serves_both(
    rows: &SeenRows,
    place: &SeenRow,
    row: &SeenRow,
    source: &SeenRow,
) -> Result<bool, Fault>
    ensures serves { IfOk result (λ serves. serves ≡ serves_both rows.now place.now row.now source.now) }
    ensures memory { IsOkUnless result Fault.NoMemory }
{
    if !gets_at(rows, source, place)? {
        return Ok(false);
    }
    gets_at(rows, source, row)
}

/// The first of some mounts from which what is made there comes to both of two others. Refused as `NoMemory` alone.
fn first_for_both<'a>(
    rows: &SeenRows,
    opens: &[&'a SeenRow],
    place: &SeenRow,
    row: &SeenRow,
) -> Result<Option<&'a SeenRow>, Fault>
    ensures first { IfOk result (λ first. option_copied first ≡ find (serves_both rows.now place.now row.now) (map (λ row. row.now) opens.now)) }
    ensures memory { IsOkUnless result Fault.NoMemory }
{
    'opens: for open in opens {
        if serves_both(rows, place, row, open)? {
            return Ok(Some(*open));
        }
    }
    Ok(None)
}

/// The first of some mounts from which what is made there comes to another one. Refused as `NoMemory` alone.
fn first_for<'a>(
    rows: &SeenRows,
    opens: &[&'a SeenRow],
    row: &SeenRow,
) -> Result<Option<&'a SeenRow>, Fault>
    ensures first { IfOk result (λ first. option_copied first ≡ find (λ m. gets_at rows.now m row.now) (map (λ row. row.now) opens.now)) }
    ensures memory { IsOkUnless result Fault.NoMemory }
{
    'opens: for open in opens {
        if gets_at(rows, open, row)? {
            return Ok(Some(*open));
        }
    }
    Ok(None)
}

/// Where a path ends instead of at a mount. Refused as `NoMemory` alone.
fn in_the_way(rows: &SeenRows, directory: &SeenDirectory, row: &SeenRow) -> Result<Elsewhere, Fault>
    ensures front { IfOk result (λ front. front ≡ in_the_way rows.now directory.now row.now) }
    ensures memory { IsOkUnless result Fault.NoMemory }
{
    let point = point_on(row, directory)?;
    match end_of(rows, row.space, &point)? {
        Some(front) => Ok(Elsewhere::InFront(front.id)),
        None => Ok(Elsewhere::Nowhere),
    }
}

/// A place from which what is made there comes to a mount, or stands on it. Refused as `NoMemory` alone.
fn comes_here(
    rows: &SeenRows,
    opens: &[&SeenRow],
    directory: &SeenDirectory,
    row: &SeenRow,
) -> Result<Elsewhere, Fault>
    ensures comes_here { IfOk result (λ found. found ≡ comes_here rows.now (map (λ row. row.now) opens.now) directory.now row.now) }
    ensures memory { IsOkUnless result Fault.NoMemory }
{
    if can_mount_on(rows, directory, row)? {
        return Ok(Elsewhere::Alone(row.id));
    }
    match first_for(rows, opens, row)? {
        Some(source) => Ok(Elsewhere::Alone(source.id)),
        None => in_the_way(rows, directory, row),
    }
}

/// Whether what is made at the second mount comes to the first, and can be made there. Refused as `NoMemory` alone.
fn serves_back(
    rows: &SeenRows,
    place: &SeenRow,
    directory: &SeenDirectory,
    row: &SeenRow,
) -> Result<bool, Fault>
    ensures serves { IfOk result (λ serves. serves ≡ gets_at rows.now row.now place.now && can_mount_on rows.now directory.now row.now) }
    ensures memory { IsOkUnless result Fault.NoMemory }
{
    if !gets_at(rows, row, place)? {
        return Ok(false);
    }
    can_mount_on(rows, directory, row)
}

/// A place from which what is made there comes to both mounts, and else one from which it comes to the second. Refused as
/// `NoMemory` alone.
fn made_elsewhere(
    rows: &SeenRows,
    opens: &[&SeenRow],
    place: &SeenRow,
    directory: &SeenDirectory,
    row: &SeenRow,
) -> Result<Elsewhere, Fault>
    ensures found { IfOk result (λ found. found ≡ made_elsewhere rows.now (map (λ row. row.now) opens.now) place.now directory.now row.now) }
    ensures memory { IsOkUnless result Fault.NoMemory }
{
    if serves_back(rows, place, directory, row)? {
        return Ok(Elsewhere::Both(row.id));
    }
    match first_for_both(rows, opens, place, row)? {
        Some(source) => Ok(Elsewhere::Both(source.id)),
        None => comes_here(rows, opens, directory, row),
    }
}

/// Whether mounts that are apart for this reason can be joined.
fn can_join(why: WhyNot) -> bool
    ensures { result ≡ can_join why }
{
    match why {
        WhyNot::StartsInSlave | WhyNot::Siblings(_) => false,
        WhyNot::SourcePrivate
        | WhyNot::SourceUnbindable
        | WhyNot::OnlySlave
        | WhyNot::Private
        | WhyNot::Unbindable
        | WhyNot::OtherGroup => true,
    }
}

/// Whether nothing stands on a mount. Refused as `NoMemory` alone.
fn bears_none(rows: &SeenRows, id: MountId) -> Result<bool, Fault>
    ensures bare { IfOk result (λ bare. bare ≡ bears_none rows.now id) }
    ensures memory { IsOkUnless result Fault.NoMemory }
{
    let ids = standing_on(rows, id)?;
    Ok(ids.len() == 0)
}

/// Whether an unmount of the second mount leaves the first. Refused as `NoMemory` alone.
fn leaves(rows: &SeenRows, from: &SeenRow, to: &SeenRow) -> Result<bool, Fault>
    ensures leaves { IfOk result (λ leaves. leaves ≡ not (among (takers_of rows.now from.now) to.now.id)) }
    ensures memory { IsOkUnless result Fault.NoMemory }
{
    let takers = takers_of(rows, from)?;
    Ok(!is_among(takers.as_slice(), to.id))
}

/// Whether a path leads to the directory of the second mount on the first. Refused as `NoMemory` alone.
fn leads_to_root(rows: &SeenRows, from: &SeenRow, to: &SeenRow) -> Result<bool, Fault>
    ensures leads { IfOk result (λ leads. leads ≡ leads_to rows.now from.now (point_on from.now to.now.root)) }
    ensures memory { IsOkUnless result Fault.NoMemory }
{
    let point = point_on(from, &to.root)?;
    leads_to(rows, from, &point)
}

/// Whether a mount can be unmounted by its path. Refused as `NoMemory` alone.
fn can_go(rows: &SeenRows, row: &SeenRow) -> Result<bool, Fault>
    ensures can { IfOk result (λ can. can ≡ can_go rows.now row.now) }
    ensures memory { IsOkUnless result Fault.NoMemory }
{
    if rows.parent_row(row).is_none() {
        return Ok(false);
    }
    if !bears_none(rows, row.id)? {
        return Ok(false);
    }
    leads_to(rows, row, &row.point)
}

/// Whether the second mount can be unmounted and made anew by a bind from the first. Refused as `NoMemory` alone.
fn can_bind(rows: &SeenRows, from: &SeenRow, to: &SeenRow) -> Result<bool, Fault>
    ensures can { IfOk result (λ can. can ≡ can_bind rows.now from.now to.now) }
    ensures memory { IsOkUnless result Fault.NoMemory }
{
    if !leads_to(rows, from, &from.point)? {
        return Ok(false);
    }
    if !can_go(rows, to)? {
        return Ok(false);
    }
    if !leaves(rows, from, to)? {
        return Ok(false);
    }
    leads_to_root(rows, from, to)
}

/// How the second mount is made anew from the first. Refused as `NoMemory` alone.
fn joined_by(rows: &SeenRows, from: &SeenRow, to: &SeenRow) -> Result<Joining, Fault>
    ensures how { IfOk result (λ how. how ≡ joined_by rows.now from.now to.now) }
    ensures memory { IsOkUnless result Fault.NoMemory }
{
    if from.space != to.space {
        return Ok(Joining::Again);
    }
    if can_bind(rows, from, to)? {
        return Ok(Joining::Bind);
    }
    Ok(Joining::Anew)
}

/// How the second mount comes to be joined to the first. Refused as `NoMemory` alone.
fn join_from(rows: &SeenRows, from: &SeenRow, to: &SeenRow) -> Result<Join, Fault>
    ensures join { IfOk result (λ join. join ≡ join_from rows.now from.now to.now) }
    ensures memory { IsOkUnless result Fault.NoMemory }
{
    let how = joined_by(rows, from, to)?;
    Ok(Join {
        from: from.id,
        to: to.id,
        shares: from.group.is_none(),
        how,
    })
}

/// How the two mounts come to be joined, which are apart for this reason. Refused as `NoMemory` alone.
fn join_of(rows: &SeenRows, why: WhyNot, place: &SeenRow, row: &SeenRow) -> Result<Join, Fault>
    ensures join { IfOk result (λ join. join ≡ join_of rows.now why place.now row.now) }
    ensures memory { IsOkUnless result Fault.NoMemory }
{
    if !can_join(why) {
        return Ok(Join {
            from: place.id,
            to: row.id,
            shares: false,
            how: Joining::Unneeded,
        });
    }
    if row.root.path.starts_with(&place.root.path) {
        join_from(rows, place, row)
    } else {
        join_from(rows, row, place)
    }
}

/// A mount to which nothing comes of what is made in this directory of the mount `place`, and what helps. Refused as `NoMemory`
/// alone.
#[tactic(auto, unfolding(crate::specs::Remedies::apart_on))]
pub fn apart_on(
    rows: &SeenRows,
    opens: &[&SeenRow],
    place: &SeenRow,
    directory: &SeenDirectory,
    row: &SeenRow,
) -> Result<ApartMount, Fault>
    ensures apart { IfOk result (λ apart. apart ≡ apart_on rows.now (map (λ row. row.now) opens.now) place.now directory.now row.now) }
    ensures memory { IsOkUnless result Fault.NoMemory }
{
    let why = reason_why(rows, place, row)?;
    Ok(ApartMount {
        spot: spot_on(directory, row)?,
        why,
        elsewhere: made_elsewhere(rows, opens, place, directory, row)?,
        join: join_of(rows, why, place, row)?,
    })
}
