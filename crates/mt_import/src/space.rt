//! A table with what a script makes of it, and how its mounts come to their places: which are made apart, and where hooks would
//! be in their way.
ghost use Rattle.std.specs.Prelude.{◌≡◌, map, IfOk};
ghost use Rattle.mt_import.specs.Telling.{is_made, is_shown, has_locks, has_unknown_locks};
ghost use Rattle.mt_import.specs.Turns.{hooked_by};

use crate::groups::Groups;
use crate::host_mount::HostMount;
use crate::locking::is_lockable;
use crate::mount::Mount;
use crate::path::{STAGE, path_behind};
use crate::plan::Plan;
use crate::reason::Why;
use crate::site::Site;
use crate::tree::Tree;
use crate::writer::Allocated;
use std::alloc::Global;

/// How a mount comes to its place, if it is made.
#[derive(Drop)]
pub(crate) struct Way {
    /// Why it is left out, if it is.
    pub(crate) left: Why,
    /// Whether it is made apart, with all that stands on it, and moved.
    pub(crate) apart: bool,
    /// The paths at which the hook that isolates its place is taken away first.
    pub(crate) others: Vec<Vec<u8>>,
}

/// Whether the mount of a number is made.
pub(crate) fn is_made(ways: &[Way], number: usize) -> bool
    ensures { result ≡ is_made ways.now number }
{
    match ways.get(number) {
        Some(way) => way.left.is_none(),
        None => false,
    }
}

/// The group of what a mount stands on, if others receive what is mounted there.
#[tactic(auto, unfolding(crate::specs::Turns::hooked_by))]
pub(crate) fn hooked_by(groups: &Groups<'_>, mounts: &[Mount<'_>], mount: &Mount<'_>) -> Option<u64>
    ensures { result ≡ hooked_by groups.now.all mounts.now mount.now }
{
    let Some(parent) = mounts.get(mount.above) else {
        return None;
    };
    let row = parent.row;
    groups.receiving(row.shared)
}

/// Where a hook would hide the place of a mount that is stacked on another: the names from the mount below the stack to
/// that place.
fn names_to_hiding<'m, 'a>(
    groups: &Groups<'_>,
    mounts: &'m [Mount<'a>],
    mount: &'m Mount<'a>,
    group: u64,
) -> Option<&'m [u8]> {
    let lowest = mounts.get(mount.lowest)?;
    let below = mounts.get(lowest.above)?;
    let hook = mount.place.as_slice();
    if !groups.gets_from(below.row, group) {
        return None;
    }
    if path_behind(lowest.place.as_slice(), hook)?.is_empty() {
        return None;
    }
    let names = path_behind(hook, below.root)?;
    let is_root = below.level == 0 && below.base == 0 && names.is_empty();
    if is_root { None } else { Some(names) }
}

impl<'s, 'a> Site<'s, 'a> {
    /// How the mount of a number gets to its place, if it is not left out: apart if another one stands on it, not at
    /// its root, in which case the next one in the order does, or if the hook for it would reach what it is bound from.
    /// The hook is taken away where it would hide the place, and where it covers the mount itself.
    fn way_of(
        self,
        mounts: &[Mount<'_>],
        number: usize,
        mount: &Mount<'_>,
        left: Why,
    ) -> Allocated<Way> {
        let next = mounts.get(number.saturating_add(1));
        let has_others = next.is_some_and(|other| other.level > mount.level);
        let mut way = Way {
            left,
            apart: has_others,
            others: Vec::new(self.alloc),
        };
        let Some(group) = hooked_by(self.groups, mounts, mount) else {
            return Ok(way);
        };
        if let Some(names) = names_to_hiding(self.groups, mounts, mount, group) {
            way.others.push(self.path_from(mount, names)?)?;
        }
        let Some(above) = path_behind(mount.root, mount.place.as_slice()) else {
            return Ok(way);
        };
        if self.groups.gets_from(mount.row, group) {
            way.apart = true;
            if above.is_empty() {
                way.others.push(self.apart_path(mount)?)?;
            }
        }
        Ok(way)
    }

    /// How the mounts of a tree come to their places, or why they are left out.
    fn ways_of(self, mounts: &[Mount<'_>], left: &[Why]) -> Allocated<Vec<Way>> {
        let (mut ways, mut others) = (Vec::new(self.alloc), left.iter());
        for (number, mount) in mounts.iter().enumerate() {
            let Some(left) = others.next() else {
                break;
            };
            ways.push(self.way_of(mounts, number, mount, *left)?)?;
        }
        Ok(ways)
    }
}

/// A table, and the namespace that is made of it.
#[derive(Drop)]
pub(crate) struct Space<'a> {
    /// The number of the namespace in which its mounts are made, if the root mount is: otherwise that of the next one.
    pub(crate) original: usize,
    /// The number of its own namespace: the same, or with locks that of a copy.
    pub(crate) number: usize,
    /// The mounts of the table.
    pub(crate) tree: Tree<'a>,
    /// How they come to their places.
    pub(crate) ways: Vec<Way>,
}

impl<'a> Space<'a> {
    /// Whether the root mount is made.
    pub(crate) fn is_shown(&self) -> bool
        ensures { result ≡ is_shown self.now }
    {
        is_made(self.ways.as_slice(), 0)
    }

    /// Whether it is made with locks.
    pub(crate) fn has_locks(&self) -> bool
        ensures { result ≡ has_locks self.now }
    {
        self.original < self.number
    }

    /// Whether something is locked in it, and nothing tells what.
    pub(crate) fn has_unknown_locks(&self) -> bool
        ensures { result ≡ has_unknown_locks self.now }
    {
        self.tree.is_foreign() && self.is_shown() && !self.has_locks()
    }

    /// The number of the last namespace that is there once this one is made, if it is made, after the one of a number.
    pub(crate) fn last_number(&self, before: usize) -> usize {
        if self.is_shown() { self.number } else { before }
    }
}

/// The rows of the first of the trees.
fn first_rows<'a>(trees: &[Tree<'a>]) -> &'a [HostMount] {
    match trees {
        [] => &[],
        [tree, ..] => tree.rows(),
    }
}

/// A table, and the namespace that is made of it after the one of a number, where these are the rows of the first table: with locks it has
/// the second number after that.
fn space_after<'a>(last: usize, first: &[HostMount], tree: Tree<'a>, ways: Vec<Way>) -> Space<'a>
    ensures { result.tree ≡ tree.entry }
{
    let original = last.saturating_add(1);
    let mut space = Space {
        original,
        number: original,
        tree,
        ways,
    };
    if is_lockable(first, &space) {
        space.number = original.saturating_add(1);
    }
    space
}

/// The tables with what is planned to be made of them.
pub(crate) fn spaces_of<'a>(
    alloc: Global,
    trees: Vec<Tree<'a>>,
    plan: &Plan<'a>,
) -> Allocated<Vec<Space<'a>>>
    ensures told { IfOk result (λ spaces. map (λ space. space.tree.told) spaces.items ≡ map (λ tree. tree.told) trees.entry.items) }
{
    let site = Site {
        alloc,
        groups: &plan.groups,
        space: b"",
        stage: STAGE,
    };
    let mut spaces: Vec<Space<'a>> = Vec::new(alloc);
    let (mut rest, first) = (plan.left.as_slice(), first_rows(trees.as_slice()));
    let mut last = 0_usize;
    'trees: for tree in trees {
        let (here, others) = rest.split_at(tree.mounts().len().min(rest.len()));
        rest = others;
        let ways = site.ways_of(tree.mounts(), here)?;
        let space = space_after(last, first, tree, ways);
        last = space.last_number(last);
        spaces.push(space)?;
    }
    Ok(spaces)
}
