//! Which mounts of the trees are made, and what they need: those that agree on their peer groups, as many as a server
//! has room for, and the least room that such a server has.
ghost use Rattle.std.specs.Prelude.{◌<◌};

use crate::choice::{Candidate, Choice, candidates_of, choose};
use crate::front::slots_of;
use crate::groups::{Groups, Staged};
use crate::host_mount::HostMount;
use crate::path::below_root;
use crate::reason::{Reason, Why};
use crate::tree::{Refused, Tree};
use crate::writer::{Allocated, Done};
use std::alloc::Global;
use std::collections::{BTreeMap, BTreeSet};

/// The most mounts of a server whose room is 1, those of all namespaces.
const MOST_MOUNTS: usize = 4_096;

/// The most directories of a server whose room is 1, including the roots of filesystems.
const MOST_DIRECTORIES: usize = 16_384;

/// The most filesystems of a server whose room is 1.
const MOST_FILESYSTEMS: usize = 256;

/// The most namespaces of a server whose room is 1.
const MOST_SPACES: usize = 64;

/// The most mounts of any server.
const MOST_OF_ALL: usize = 1_048_576;

/// By how many halvings the most mounts of any server come to one, and to none.
const HALVINGS: usize = 21;

/// Which mounts are made, and what they need.
pub(crate) struct Plan<'a> {
    pub(crate) alloc: Global,
    /// Why mounts are left out, by their numbers: those for which this is `None` are made.
    pub(crate) left: Vec<Why>,
    /// The peer groups of the others.
    pub(crate) groups: Groups<'a>,
    /// Their filesystems, by their devices: which row told each first, of which table.
    pub(crate) filesystems: BTreeMap<&'a [u8], (usize, &'a HostMount)>,
    /// The rows that have another type or source than the first one of their device, each with its table.
    pub(crate) others: Vec<(usize, &'a HostMount)>,
    /// The devices of filesystems of which directories are bound without a group.
    pub(crate) plains: BTreeSet<&'a [u8]>,
    /// The groups of which a member is staged.
    pub(crate) staged: Staged,
    /// The directories, each after its filesystem.
    pub(crate) directories: BTreeSet<Vec<u8>>,
    /// The least room of a server in which all of this is made, from 1.
    pub(crate) room: usize,
}

impl<'a> Drop for Plan<'a> {
    fn drop(self) {
        let Plan {
            alloc: _alloc,
            left: _left,
            groups: _groups,
            filesystems: _filesystems,
            others: _others,
            plains: _plains,
            staged: _staged,
            directories: _directories,
            room: _room,
        } = self;
    }
}

impl<'a> Plan<'a> {
    /// What is needed if this many mounts are made, from the first on.
    fn of(alloc: Global, all: &[Candidate<'_, 'a>], most: usize) -> Allocated<Plan<'a>> {
        let Choice { left, made, groups } = choose(alloc, all, most)?;
        let staged = groups.staged(alloc)?;
        let directories = slots_of(alloc, &staged)?;
        let mut plan = Plan {
            alloc,
            left,
            groups,
            filesystems: BTreeMap::new(alloc),
            others: Vec::new(alloc),
            plains: BTreeSet::new(alloc),
            staged,
            directories,
            room: 1,
        };
        for candidate in made.iter() {
            plan.add(candidate)?;
        }
        plan.room = plan.least_room(made.as_slice())?;
        Ok(plan)
    }

    /// Refuses mounts of the trees that are left out in whose place another row stands.
    pub(crate) fn refuse(&self, trees: &[Tree<'a>], refused: &mut Refused) -> Done {
        let mut rest = self.left.as_slice();
        for tree in trees {
            let (here, others) = rest.split_at(tree.mounts().len().min(rest.len()));
            rest = others;
            let wanted = wanted_places(self.alloc, tree)?;
            for (mount, left) in tree.mounts().iter().zip(here) {
                if let (Some(why), true) = (left, wanted.contains(&place_of(mount.row))) {
                    refuse_one(refused, (tree.table, mount.number), *why)?;
                }
            }
        }
        Ok(())
    }

    /// Whether a group is staged of which no table has a member.
    pub(crate) fn has_unseen(&self) -> bool {
        self.staged
            .iter()
            .any(|(_, group)| !self.groups.is_seen(*group))
    }

    /// How many mounts, at most, receive what is mounted on one of a staged group, if there are this many stages.
    fn most_receivers(&self, made: &[Candidate<'_, '_>], stages: usize) -> Allocated<usize> {
        let (mut counts, groups) = (BTreeMap::new(self.alloc), &self.groups);
        for candidate in made {
            let row = candidate.row;
            let source = groups.source_of(row.shared, row.master);
            groups.count_up(&mut counts, source, 1)?;
        }
        for staged in self.staged.iter() {
            groups.count_up(&mut counts, Some(staged.1), stages)?;
        }
        Ok(counts.values().copied().max().unwrap_or(0))
    }

    /// How many mounts there are at a time, at most: those that are made, those that are staged, and three for each
    /// that receives what is mounted on one of a group: a mount that isolates its place, and what spares it. Only the
    /// first namespace has what is staged, or beside it the copy that is being made. For a moment a foreign namespace is
    /// there twice.
    fn mounts_at_once(&self, made: &[Candidate<'_, '_>]) -> Allocated<usize> {
        let roots = made.iter().filter(|candidate| candidate.is_root()).count();
        let stages = if roots > 1 || self.has_unseen() { 2 } else { 1 };
        let isolated = self.most_receivers(made, stages)?.saturating_add(1);
        let staged = self
            .staged
            .len()
            .saturating_add(self.plains.len())
            .saturating_add(4);
        Ok(
            made.len()
                .saturating_add(staged.saturating_mul(stages))
                .saturating_add(isolated.saturating_mul(3))
                .saturating_add(most_foreign(made)),
        )
    }

    /// How many namespaces there are at a time, at most: those of the tables, the one that keeps masters, and for a moment a
    /// foreign one twice.
    fn spaces_at_once(&self, made: &[Candidate<'_, '_>]) -> usize {
        let roots = made.iter().filter(|candidate| candidate.is_root()).count();
        let keeping = if self.has_unseen() { 1 } else { 0 };
        let foreign = if made.iter().any(|candidate| candidate.is_foreign) {
            1
        } else {
            0
        };
        roots.saturating_add(keeping).saturating_add(foreign)
    }

    /// The least room of a server that holds the filesystems and directories, and these mounts with their namespaces.
    fn least_room(&self, made: &[Candidate<'_, '_>]) -> Allocated<usize> {
        let filesystems = self.filesystems.len().saturating_add(1);
        let directories = self.directories.len().saturating_add(filesystems);
        let mounts = self.mounts_at_once(made)?;
        Ok(
            room_for(filesystems, MOST_FILESYSTEMS)
                .max(room_for(directories, MOST_DIRECTORIES))
                .max(room_for(mounts, MOST_MOUNTS))
                .max(room_for(self.spaces_at_once(made), MOST_SPACES)),
        )
    }
}

/// The least room for so many, of which there are these in a room of 1.
fn room_for(count: usize, each: usize) -> usize
    requires { 0 < each }
{
    count.div_ceil(each).max(1)
}

/// How many mounts a foreign namespace has at most.
fn most_foreign(made: &[Candidate<'_, '_>]) -> usize {
    let (mut table, mut count, mut most) = (0_usize, 0_usize, 0_usize);
    for candidate in made {
        if candidate.table != table {
            table = candidate.table;
            count = 0;
        }
        if candidate.is_foreign {
            count = count.saturating_add(1);
            most = most.max(count);
        }
    }
    most
}

/// Where the row of a table stands: on which mount, and at which path.
fn place_of(row: &HostMount) -> (u64, &[u8]) {
    (row.parent, below_root(row.point.as_slice()))
}

/// Where the rows of a table stand that are left out because others stand there.
fn wanted_places<'a>(alloc: Global, tree: &Tree<'a>) -> Allocated<BTreeSet<(u64, &'a [u8])>> {
    let mut wanted = BTreeSet::new(alloc);
    for (row, left) in tree.rows().iter().zip(tree.left.as_slice()) {
        if let Some(Reason::SamePlace) = left {
            wanted.insert(place_of(row))?;
        }
    }
    Ok(wanted)
}

/// Refuses a row for a reason of its own: not for want of room, nor because of what it stands on.
fn refuse_one(refused: &mut Refused, row: (usize, usize), why: Reason) -> Done {
    if !matches!(why, Reason::NoRoom | Reason::ParentLeftOut) {
        refused.insert(row, why)?;
    }
    Ok(())
}

/// How many mounts a server of this room holds, from the first on: each step tries half as many more.
fn fitting(alloc: Global, all: &[Candidate<'_, '_>], room: usize) -> Allocated<usize> {
    let (mut count, mut step) = (0_usize, MOST_OF_ALL);
    for _halving in 0..HALVINGS {
        let more = count.saturating_add(step);
        if more <= all.len() && Plan::of(alloc, all, more)?.room <= room {
            count = more;
        }
        step /= 2;
    }
    Ok(count)
}

/// What is needed if as many mounts are made, from the first on, as a server of this room holds.
pub(crate) fn plan_with_room<'a>(
    alloc: Global,
    trees: &[Tree<'a>],
    room: usize,
) -> Allocated<Plan<'a>> {
    let all = candidates_of(alloc, trees)?;
    let plan = Plan::of(alloc, all.as_slice(), all.len())?;
    if plan.room <= room {
        return Ok(plan);
    }
    let most = fitting(alloc, all.as_slice(), room)?;
    Plan::of(alloc, all.as_slice(), most)
}
