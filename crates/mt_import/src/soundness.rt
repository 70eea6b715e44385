//! Whether what is planned of tables is what they tell: a script is made only if it is.
ghost use Rattle.std.specs.Prelude.{◌≡◌, ◌==◌, ◌++◌, suc, map, IfOk, OnOk};
ghost use Rattle.std.specs.List.{flat_map, list_all};
ghost use Rattle.mt_import.specs.Plans.{has_own_number, first_rows, are_numbered, level_of, is_apart, stand_on_made, is_well_ordered, rows_made_from, rows_made, is_number, is_same, count_members, has_slave, is_group_of, is_grouped, are_grouped, is_sound, is_founded, comes_first};

use crate::groups::{Group, Groups};
use crate::host_mount::HostMount;
use crate::locking::is_lockable;
use crate::mount::Mount;
use crate::space::{Space, Way, is_made};
use crate::writer::{Allocated, Done};
use std::alloc::Global;

/// Whether a number is the next one after another.
fn is_next(number: usize, before: usize) -> bool
    ensures { result ≡ (number == suc before) }
{
    number > before && number - before == 1
}

/// Whether a namespace has the number that it has to have, where these are the rows of the first table: with locks the next one
/// after that with which its mounts are made, and otherwise the same.
fn has_own_number(first: &[HostMount], space: &Space<'_>) -> bool
    ensures { result ≡ has_own_number first.now space.now }
{
    if is_lockable(first, space) {
        is_next(space.number, space.original)
    } else {
        space.number == space.original
    }
}

/// The rows of the first table.
fn first_rows<'s>(spaces: &'s [Space<'_>]) -> &'s [HostMount]
    ensures { result.now ≡ first_rows spaces.now }
{
    match spaces {
        [] => &[],
        [space, ..] => space.tree.rows(),
    }
}

/// Whether tables are numbered as they come, from 1, and their namespaces are, where these are the rows of the first table.
fn are_numbered(first: &[HostMount], spaces: &[Space<'_>]) -> bool
    ensures { result ≡ are_numbered first.now 1 0 spaces.now }
{
    let mut last = 0_usize;
    'spaces: for (before, space) in spaces.iter().enumerate() {
        let tree = &space.tree;
        if tree.table != before + 1
            || !is_next(space.original, last)
            || !has_own_number(first, space)
        {
            return false;
        }
        if space.is_shown() {
            last = space.number;
        }
    }
    true
}

/// Whether a mount is made only if what it stands on is.
fn is_founded(ways: &[Way], number: usize, above: usize) -> bool
    ensures { result ≡ is_founded ways.now number above }
{
    !is_made(ways, number) || is_made(ways, above)
}

/// The level of the mount of a number.
fn level_of(mounts: &[Mount<'_>], number: usize) -> usize
    ensures { result ≡ level_of mounts.now number }
{
    match mounts.get(number) {
        Some(mount) => mount.level,
        None => 0,
    }
}

/// Whether the mount of a number is made apart.
fn is_apart(ways: &[Way], number: usize) -> bool
    ensures { result ≡ is_apart ways.now number }
{
    match ways.get(number) {
        Some(way) => way.apart,
        None => false,
    }
}

/// Whether what a mount of a level stands on is made apart before it, where that has to be.
fn comes_first(
    mounts: &[Mount<'_>],
    ways: &[Way],
    number: usize,
    level: usize,
    above: usize,
) -> bool
    ensures { result ≡ comes_first mounts.now ways.now number level above }
{
    !is_made(ways, number)
        || level_of(mounts, above) == 0
        || level <= level_of(mounts, above)
        || is_apart(ways, above)
}

/// Whether each of these mounts stands on one that is made, and comes after that.
fn stand_on_made(mounts: &[Mount<'_>], ways: &[Way]) -> bool
    ensures { result ≡ stand_on_made mounts.now ways.now 0 mounts.now }
{
    'mounts: for (number, mount) in mounts.iter().enumerate() {
        if !is_founded(ways, number, mount.above)
            || !comes_first(mounts, ways, number, mount.level, mount.above)
        {
            return false;
        }
    }
    true
}

/// Whether the mounts of each table do.
fn are_well_ordered(spaces: &[Space<'_>]) -> bool
    ensures { result ≡ list_all is_well_ordered spaces.now }
{
    'spaces: for space in spaces {
        if !stand_on_made(space.tree.mounts(), space.ways.as_slice()) {
            return false;
        }
    }
    true
}

/// Appends the rows of those mounts that are made.
fn push_rows<'a>(rows: &mut Vec<&'a HostMount>, mounts: &[Mount<'a>], ways: &[Way]) -> Done
    ensures { OnOk result (map (λ row. row.now) rows.new.items ≡ map (λ row. row.now) rows.old.items ++ rows_made_from ways.now 0 mounts.now) }
{
    'mounts: for (number, mount) in mounts.iter().enumerate() {
        if is_made(ways, number) {
            rows.push(mount.row)?;
        }
    }
    Ok(())
}

/// The rows of all mounts that are made.
fn rows_of<'a>(alloc: Global, spaces: &[Space<'a>]) -> Allocated<Vec<&'a HostMount>>
    ensures { IfOk result (λ rows. map (λ row. row.now) rows.items ≡ flat_map rows_made spaces.now) }
{
    let mut rows = Vec::new(alloc);
    'spaces: for space in spaces {
        push_rows(&mut rows, space.tree.mounts(), space.ways.as_slice())?;
    }
    Ok(rows)
}

/// Whether this number is told.
fn is_number(told: Option<u64>, number: u64) -> bool
    ensures { result ≡ is_number told number }
{
    match told {
        Some(told) => told == number,
        None => false,
    }
}

/// Whether both numbers are told and are the same, or neither is told.
fn is_same(one: Option<u64>, other: Option<u64>) -> bool
    ensures { result ≡ is_same one other }
{
    match (one, other) {
        (None, None) => true,
        (Some(one), Some(other)) => one == other,
        _ => false,
    }
}

/// How many of these rows are members of a group.
fn count_members(rows: &[&HostMount], group: u64) -> usize
    ensures { result ≡ count_members (map (λ row. row.now) rows.now) group }
{
    let mut count = 0_usize;
    'rows: for row in rows {
        if is_number(row.shared, group) {
            count += 1;
        }
    }
    count
}

/// Whether one of these rows is a slave of a group.
fn has_slave(rows: &[&HostMount], group: u64) -> bool
    ensures { result ≡ has_slave (map (λ row. row.now) rows.now) group }
{
    'rows: for row in rows {
        if is_number(row.master, group) {
            return true;
        }
    }
    false
}

/// Whether a group of a number is that of a row, one of these.
fn is_group_of(group: &Group<'_>, rows: &[&HostMount], row: &HostMount, number: u64) -> bool
    ensures { result ≡ is_group_of group.now (map (λ row. row.now) rows.now) row.now number }
{
    is_same(group.master, row.master)
        && group.device == row.device.as_slice()
        && group.members == count_members(rows, number) as u64
        && (group.is_needed || !has_slave(rows, number))
}

/// Whether a row, one of these, is in its group, if it tells one.
fn is_grouped(groups: &Groups<'_>, rows: &[&HostMount], row: &HostMount) -> bool
    ensures { result ≡ is_grouped groups.now.all (map (λ row. row.now) rows.now) row.now }
{
    let Some(number) = row.shared else {
        return true;
    };
    match groups.get(number) {
        Some(group) => is_group_of(&group, rows, row, number),
        None => false,
    }
}

/// Whether all these rows are in their groups.
fn are_grouped(groups: &Groups<'_>, rows: &[&HostMount]) -> bool
    ensures { result ≡ are_grouped groups.now.all (map (λ row. row.now) rows.now) }
{
    'rows: for row in rows {
        if !is_grouped(groups, rows, row) {
            return false;
        }
    }
    true
}

/// Whether what is planned of tables is what they tell.
pub(crate) fn is_sound(alloc: Global, groups: &Groups<'_>, spaces: &[Space<'_>]) -> Allocated<bool>
    ensures { IfOk result (λ is. is ≡ is_sound groups.now.all spaces.now) }
{
    let rows = rows_of(alloc, spaces)?;
    Ok(
        are_numbered(first_rows(spaces), spaces)
            && are_well_ordered(spaces)
            && are_grouped(groups, rows.as_slice()),
    )
}
