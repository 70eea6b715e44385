//! Which mounts are made together: those that agree on their peer groups, and stand on others that are made.
//!
//! At first all are tried, and those that do not agree are left out, again and again, until all others agree. Of those
//! that were left out because of one that is now gone too, some can be made after all: they are brought back.

use crate::groups::Groups;
use crate::host_mount::HostMount;
use crate::mount::Mount;
use crate::path::STAGE;
use crate::reason::{Reason, Why};
use crate::tree::Tree;
use crate::writer::{Allocated, Done};
use std::alloc::Global;

/// The most bytes of a directory that is shown at the root of a namespace and of the stages below it, so that a path of
/// the server can have them together with the number of a group and the names of two stages.
const MOST_AT_ROOT: usize = 4_066;

/// How often mounts are brought back at most, as many at a time as there are.
const MOST_TRIES: usize = 128;

/// A mount of the trees, which is made unless it is left out.
#[derive(Clone, Copy)]
pub(crate) struct Candidate<'t, 'a> {
    /// Its number among those of all trees, one tree after another.
    number: usize,
    /// The number of its table.
    pub(crate) table: usize,
    /// Whether its namespace is foreign.
    pub(crate) is_foreign: bool,
    /// Its row.
    pub(crate) row: &'a HostMount,
    /// The mount.
    pub(crate) mount: &'t Mount<'a>,
    /// What it stands on, the root mount on itself.
    pub(crate) below: &'t Mount<'a>,
    /// The number of what it stands on.
    above: usize,
}

impl<'t, 'a> Candidate<'t, 'a> {
    /// Whether it is the root mount of its table.
    pub(crate) fn is_root(&self) -> bool {
        self.above == self.number
    }

    /// Whether others get what is mounted on what it stands on, at the root of the namespace, where no path leads to them.
    fn stands_on_peer(&self, groups: &Groups<'_>) -> bool {
        let (mount, below) = (self.mount, self.below);
        let row = below.row;
        mount.level == 0 && groups.receiving(row.shared).is_some()
    }

    /// Whether others get what is mounted on it, at the root of the namespace above others, and the path of what comes to them
    /// would be too long.
    fn is_long_at_root(&self, groups: &Groups<'_>) -> bool {
        let (mount, row) = (self.mount, self.row);
        let stages = mount.base.saturating_mul(STAGE.len());
        mount.level == 0
            && mount.base > 0
            && mount.root.len().saturating_add(stages) > MOST_AT_ROOT
            && groups.receiving(row.shared).is_some()
    }
}

/// Adds the mounts of a tree.
fn add_tree<'t, 'a>(all: &mut Vec<Candidate<'t, 'a>>, tree: &'t Tree<'a>) -> Done {
    let (before, mounts) = (all.len(), tree.mounts());
    for mount in mounts {
        if let Some(below) = mounts.get(mount.above) {
            all.push(Candidate {
                number: all.len(),
                table: tree.table,
                is_foreign: tree.is_foreign(),
                row: mount.row,
                mount,
                below,
                above: before.saturating_add(mount.above),
            })?;
        }
    }
    Ok(())
}

/// The mounts of the trees.
pub(crate) fn candidates_of<'t, 'a>(
    alloc: Global,
    trees: &'t [Tree<'a>],
) -> Allocated<Vec<Candidate<'t, 'a>>> {
    let mut all = Vec::new(alloc);
    for tree in trees {
        add_tree(&mut all, tree)?;
    }
    Ok(all)
}

/// The peer groups of mounts. A member is staged of one in which a mount is on whose root another one stands, elsewhere than at
/// the root of the namespace.
fn groups_of<'a>(alloc: Global, made: &[Candidate<'_, 'a>]) -> Allocated<Groups<'a>> {
    let mut groups = Groups::new(alloc);
    for candidate in made {
        groups.add(candidate.row, candidate.table)?;
    }
    for candidate in made {
        let (mount, below) = (candidate.mount, candidate.below);
        let row = below.row;
        if let (true, Some(group)) = (mount.stands_on_root(below), row.shared) {
            groups.stage(group);
        }
    }
    groups.settle(alloc)?;
    Ok(groups)
}

/// Whether the mount of a number is made.
fn is_made(left: &[Why], number: usize) -> bool {
    matches!(left.get(number), Some(None))
}

/// Notes why the mount of a number is left out, or that it is made.
fn note_why(left: &mut [Why], number: usize, why: Why) {
    if let Some(place) = left.get_mut(number) {
        *place = why;
    }
}

/// Why a mount is left out, given the others, if it is: because what it stands on is, because of its groups, or at the
/// root of the namespace.
fn why_left(groups: &Groups<'_>, candidate: &Candidate<'_, '_>, left: &[Why]) -> Why {
    if let Some(why) = groups.why_groupless(candidate.row, candidate.table) {
        return Some(why);
    }
    if candidate.is_root() {
        return None;
    }
    if !is_made(left, candidate.above) {
        return Some(Reason::ParentLeftOut);
    }
    if candidate.stands_on_peer(groups) {
        return Some(Reason::AtRoot);
    }
    if candidate.is_long_at_root(groups) {
        return Some(Reason::LongAtRoot);
    }
    None
}

/// Why a mount that is left out is, given the others: as noted, unless it disagrees with these, or stands on none.
fn why_out(
    groups: &Groups<'_>,
    candidate: &Candidate<'_, '_>,
    left: &[Why],
    why: Reason,
) -> Reason {
    match why {
        Reason::NoRoom => why,
        _ if !groups.may_add(candidate.row) => Reason::NoSuchGroups,
        _ if !candidate.is_root() && !is_made(left, candidate.above) => Reason::ParentLeftOut,
        Reason::ParentLeftOut => Reason::NoSuchGroups,
        _ => why,
    }
}

/// A choice of the mounts that are made.
#[derive(Drop)]
pub(crate) struct Choice<'t, 'a> {
    /// Why mounts are left out, by their numbers: those for which this is `None` are made.
    pub(crate) left: Vec<Why>,
    /// The others.
    pub(crate) made: Vec<Candidate<'t, 'a>>,
    /// Their peer groups.
    pub(crate) groups: Groups<'a>,
}

impl<'t, 'a> Choice<'t, 'a> {
    /// The choice of those of these mounts for which no reason is given.
    fn of(alloc: Global, all: &[Candidate<'t, 'a>], left: &[Why]) -> Allocated<Choice<'t, 'a>> {
        let left = Vec::from_slice(alloc, left)?;
        let mut made = Vec::from_slice(alloc, all)?;
        made.retain(|candidate| is_made(left.as_slice(), candidate.number));
        let groups = groups_of(alloc, made.as_slice())?;
        Ok(Choice { left, made, groups })
    }

    /// Notes why mounts cannot be made together with the others, and answers whether there are any
    /// such.
    fn judge(&mut self) -> bool {
        let mut is_refused = false;
        for candidate in self.made.iter() {
            let why = why_left(&self.groups, candidate, self.left.as_slice());
            note_why(self.left.as_mut_slice(), candidate.number, why);
            is_refused = is_refused || why.is_some();
        }
        is_refused
    }

    /// Which of these mounts may come back to those that are made: none of them disagrees with these, and each stands
    /// on one that is made or comes back.
    fn returning(
        &self,
        alloc: Global,
        all: &[Candidate<'t, 'a>],
    ) -> Allocated<Vec<Candidate<'t, 'a>>> {
        let mut left = Vec::from_slice(alloc, self.left.as_slice())?;
        let mut returning = Vec::new(alloc);
        for candidate in all {
            if may_return(&self.groups, candidate, left.as_slice()) {
                note_why(left.as_mut_slice(), candidate.number, None);
                returning.push(*candidate)?;
            }
        }
        Ok(returning)
    }

    /// The choice with some more mounts, and whether they are refused because one that is made would then disagree with
    /// the others.
    fn with(
        &self,
        alloc: Global,
        all: &[Candidate<'t, 'a>],
        some: &[Candidate<'t, 'a>],
    ) -> Allocated<(Choice<'t, 'a>, bool)> {
        let mut left = Vec::from_slice(alloc, self.left.as_slice())?;
        for candidate in some {
            note_why(left.as_mut_slice(), candidate.number, None);
        }
        let mut choice = Choice::of(alloc, all, left.as_slice())?;
        let is_refused = choice.judge();
        Ok((choice, is_refused))
    }

    /// The choice with mounts that were left out because of others that are gone: all of them, or else those of each
    /// half.
    fn with_returning(self, alloc: Global, all: &[Candidate<'t, 'a>]) -> Allocated<Choice<'t, 'a>> {
        let others = self.returning(alloc, all)?;
        let (mut choice, mut parts) = (self, Vec::new(alloc));
        parts.push((0_usize, others.len()))?;
        for _try in 0..MOST_TRIES {
            let Some((start, end)) = parts.pop() else {
                break;
            };
            let some = others.get(start..end).unwrap_or(&[]);
            let some = choice.returning(alloc, some)?;
            let (more, is_refused) = choice.with(alloc, all, some.as_slice())?;
            if !is_refused {
                choice = more;
            } else if let [one] = some.as_slice() {
                choice.note_alone(&more, one.number);
            } else {
                let middle = start.saturating_add(end.saturating_sub(start) / 2);
                parts.push((middle, end))?;
                parts.push((start, middle))?;
            }
        }
        Ok(choice)
    }

    /// Notes why a mount cannot come back, by the choice with only this one added.
    fn note_alone(&mut self, more: &Choice<'_, '_>, number: usize) {
        let why = match more.left.get(number) {
            Some(Some(why)) => *why,
            _ => Reason::NoSuchGroups,
        };
        note_why(self.left.as_mut_slice(), number, Some(why));
    }

    /// Says why the mounts that are left out are, given those that are made.
    fn settle(&mut self, all: &[Candidate<'_, '_>]) {
        for candidate in all {
            if let Some(Some(why)) = self.left.get(candidate.number).copied() {
                let why = why_out(&self.groups, candidate, self.left.as_slice(), why);
                note_why(self.left.as_mut_slice(), candidate.number, Some(why));
            }
        }
    }
}

/// Whether a mount that is left out may come back to those that are made.
fn may_return(groups: &Groups<'_>, candidate: &Candidate<'_, '_>, left: &[Why]) -> bool {
    let is_out = match left.get(candidate.number) {
        Some(Some(why)) => !matches!(why, Reason::NoRoom),
        _ => false,
    };
    is_out
        && (candidate.is_root() || is_made(left, candidate.above))
        && groups.may_add(candidate.row)
}

/// Chooses which of the first mounts are made, this many at most: the others have no room.
pub(crate) fn choose<'t, 'a>(
    alloc: Global,
    all: &[Candidate<'t, 'a>],
    most: usize,
) -> Allocated<Choice<'t, 'a>> {
    let mut left: Vec<Why> = vec![in alloc; None; all.len().min(most)]?;
    left.resize(all.len(), Some(Reason::NoRoom))?;
    let mut choice = Choice::of(alloc, all, left.as_slice())?;
    let mut is_refused = choice.judge();
    if !is_refused {
        return Ok(choice);
    }
    for _round in 0..all.len() {
        if !is_refused {
            break;
        }
        choice = Choice::of(alloc, all, choice.left.as_slice())?;
        is_refused = choice.judge();
    }
    let mut choice = choice.with_returning(alloc, all)?;
    choice.settle(all);
    Ok(choice)
}
