//! The peer groups that the rows of all tables name.
ghost use Rattle.std.specs.Prelude.{◌≡◌};
ghost use Rattle.std.specs.BTreeMap.{get};
ghost use Rattle.std.specs.Iterator.{at_most};
ghost use Rattle.std.specs.Ordering.{nat_cmp};
ghost use Rattle.mt_import.specs.Groups.{is_staged, receiving, lone_group, source_group, number_here};

use crate::host_mount::HostMount;
use crate::writer::{Allocated, Done};
use std::alloc::Global;
use std::collections::{BTreeMap, BTreeSet};

/// The longest row of groups of which mounts are made, each group the master of the one before.
pub(crate) const MOST_CHAIN: usize = 65;

/// What rows tell of a peer group.
#[derive(Clone, Copy)]
pub(crate) struct Group<'a> {
    /// The number of its master group, if it has one.
    pub(crate) master: Option<u64>,
    /// The device of its mounts.
    pub(crate) device: &'a [u8],
    /// How many rows are members.
    pub(crate) members: u64,
    /// Whether a member is staged in any case: a row has the group as its master, or as the group from which it
    /// receives, or a member has another mount on its root.
    pub(crate) is_needed: bool,
    /// The number that the server gives it, once that is known.
    pub(crate) here: u64,
}

impl<'a> Group<'a> {
    /// Whether a member of it is staged, from which others are bound: it has another member or slaves, or needs it besides.
    pub(crate) fn is_staged(&self) -> bool
        ensures { result ≡ is_staged self.now }
    {
        self.is_needed || self.members > 1
    }
}

/// The groups of which a member is staged, each after the count of those above it, including
/// itself.
pub(crate) type Staged = BTreeSet<(usize, u64)>;

/// Counts of groups, by their numbers.
pub(crate) type Counts = BTreeMap<u64, usize>;

/// The groups that rows name, by their numbers.
#[derive(Drop)]
pub(crate) struct Groups<'a> {
    pub(crate) all: BTreeMap<u64, Group<'a>>,
    /// In which tables a group has a member.
    pub(crate) inside: BTreeSet<(u64, usize)>,
    /// From which group slaves of a group receive by way of it.
    pub(crate) beyond: BTreeSet<(u64, u64)>,
}

/// A group and those above it, one after another, as far as they are followed.
#[derive(Drop)]
pub(crate) struct Upwards<'g, 'a> {
    groups: &'g Groups<'a>,
    next: Option<u64>,
    left: usize,
}

impl<'g, 'a> Iterator for Upwards<'g, 'a> {
    type Item = u64;

    ghost remaining = { λ s. at_most s.left };

    fn next(&mut self) -> Option<u64> {
        if self.left == 0 {
            return None;
        }
        self.left -= 1;
        let number = self.next?;
        self.next = self.groups.above(number);
        Some(number)
    }
}

impl<'a> Groups<'a> {
    /// No groups, as no rows name any.
    pub(crate) fn new(alloc: Global) -> Groups<'a> {
        Groups {
            all: BTreeMap::new(alloc),
            inside: BTreeSet::new(alloc),
            beyond: BTreeSet::new(alloc),
        }
    }

    /// A group, if a row named it.
    pub(crate) fn get(&self, number: u64) -> Option<Group<'a>>
        ensures { result ≡ get nat_cmp self.now.all number }
    {
        self.all.get(&number).copied()
    }

    /// The group above one, if one is.
    pub(crate) fn above(&self, number: u64) -> Option<u64> {
        self.get(number).and_then(|group| group.master)
    }

    /// A group, if there is one, and those above it: at most one more than those of which mounts are made.
    pub(crate) fn upwards(&self, first: Option<u64>) -> Upwards<'_, 'a> {
        Upwards {
            groups: self,
            next: first,
            left: MOST_CHAIN + 1,
        }
    }

    /// Counts this many more for a group, if for one, and for each above it.
    pub(crate) fn count_up(&self, counts: &mut Counts, first: Option<u64>, count: usize) -> Done {
        for number in self.upwards(first) {
            let old = counts.get(&number).copied().unwrap_or(0);
            counts.insert(number, old.saturating_add(count))?;
        }
        Ok(())
    }

    /// Whether a group is this one, or has it above itself.
    pub(crate) fn leads_to(&self, first: Option<u64>, group: u64) -> bool {
        self.upwards(first).any(|number| number == group)
    }

    /// How many groups are above one, including itself; `MOST_CHAIN` plus 1 if there are more.
    pub(crate) fn height(&self, first: Option<u64>) -> usize {
        self.upwards(first).count()
    }

    /// The group of a mount, if it is in one and others receive what is mounted on it.
    #[tactic(auto, unfolding(crate::specs::Groups::receiving))]
    pub(crate) fn receiving(&self, shared: Option<u64>) -> Option<u64>
        ensures { result ≡ receiving self.now.all shared }
    {
        let group = self.get(shared?)?;
        if group.is_staged() { shared } else { None }
    }

    /// The group of a mount that is alone in it, so that no other receives what is mounted on it.
    #[tactic(auto, unfolding(crate::specs::Groups::lone_group))]
    pub(crate) fn lone_group(&self, shared: Option<u64>) -> Option<u64>
        ensures { result ≡ lone_group self.now.all shared }
    {
        if self.receiving(shared).is_some() {
            None
        } else {
            shared
        }
    }

    /// The group from whose staged member a mount is bound, if from one: its own, or its master.
    pub(crate) fn source_of(&self, shared: Option<u64>, master: Option<u64>) -> Option<u64>
        ensures { result ≡ source_group self.now.all shared master }
    {
        self.receiving(shared).or(master)
    }

    /// The number that the server gives a group, or 0.
    pub(crate) fn here(&self, number: u64) -> u64
        ensures { result ≡ number_here self.now.all number }
    {
        self.get(number).map_or(0, |group| group.here)
    }

    /// Notes the numbers that the server gives groups.
    pub(crate) fn number(&mut self, named: &[(u64, u64)]) {
        for (number, here) in named {
            if let Some(group) = self.all.get_mut(number) {
                group.here = *here;
            }
        }
    }

    /// Whether a mount receives what is mounted on one of a group: it is in this group, or in one that has it above.
    pub(crate) fn gets_from(&self, row: &HostMount, group: u64) -> bool {
        self.leads_to(row.shared.or(row.master), group)
    }

    /// Whether a row is a member of a group.
    pub(crate) fn is_seen(&self, number: u64) -> bool {
        self.get(number).is_some_and(|group| group.members > 0)
    }

    /// Notes that a member of a group is staged, if rows name the group.
    pub(crate) fn stage(&mut self, number: u64) {
        if let Some(group) = self.all.get_mut(&number) {
            group.is_needed = true;
        }
    }

    /// The groups of which a member is staged, those above others first.
    pub(crate) fn staged(&self, alloc: Global) -> Allocated<Staged> {
        let mut staged = BTreeSet::new(alloc);
        for (number, group) in self.all.iter() {
            if group.is_staged() {
                staged.insert((self.height(Some(*number)), *number))?;
            }
        }
        Ok(staged)
    }
}
