//! What the rows of all tables tell of peer groups, put together; and whether they agree.

use crate::groups::{Group, Groups, MOST_CHAIN};
use crate::host_mount::HostMount;
use crate::reason::{Reason, Why};
use crate::writer::Done;
use std::alloc::Global;
use std::collections::BTreeSet;

/// Whether a mount can be in peer groups as its row tells: only a mount in no group is unbindable, and only a slave
/// receives from a group above its master, which is another group (proc_pid_mountinfo(5), optional fields).
fn is_possible(row: &HostMount) -> bool {
    let is_alone = row.shared.is_none() && row.master.is_none();
    (is_alone || !row.unbindable) && (row.via.is_none() || row.via != row.master)
}

impl<'a> Groups<'a> {
    /// Whether a group is new, or is of a device.
    fn may_be_of(&self, number: Option<u64>, device: &[u8]) -> bool {
        number
            .and_then(|number| self.get(number))
            .is_none_or(|group| group.device == device)
    }

    /// Whether a mount may be a member of a group: the others have its master, and the group does not end up above
    /// itself.
    fn may_join(&self, row: &HostMount, number: u64) -> bool {
        let has_master = self
            .get(number)
            .is_none_or(|group| group.members == 0 || group.master == row.master);
        has_master && !self.leads_to(row.master, number) && !self.leads_to(row.via, number)
    }

    /// Whether what a row tells of groups agrees with what others told.
    pub(crate) fn may_add(&self, row: &HostMount) -> bool {
        let device = row.device.as_slice();
        is_possible(row)
            && self.may_be_of(row.shared, device)
            && self.may_be_of(row.master, device)
            && self.may_be_of(row.via, device)
            && row.shared.is_none_or(|number| self.may_join(row, number))
            && row
                .master
                .is_none_or(|number| !self.leads_to(row.via, number))
    }

    /// Whether the groups are as the row of a table tells them. A slave receives from the nearest group at or above its
    /// master that has a member in the table, which is told unless it is the master (proc_pid_mountinfo(5),
    /// `propagate_from`).
    fn agrees(&self, row: &HostMount, table: usize) -> bool {
        let nearest = self
            .upwards(row.master)
            .find(|number| self.inside.contains(&(*number, table)));
        let told = if nearest == row.master { None } else { nearest };
        told == row.via && self.may_add(row) && row.shared.is_none_or(|number| self.is_seen(number))
    }

    /// Why the mount of a row of a table cannot be made because of its peer groups, if it cannot.
    pub(crate) fn why_groupless(&self, row: &HostMount, table: usize) -> Why {
        if self.height(row.shared.or(row.master)) > MOST_CHAIN {
            return Some(Reason::TooLow);
        }
        if !self.agrees(row, table) {
            return Some(Reason::NoSuchGroups);
        }
        None
    }

    /// Adds a group that a row names: as that of its mount, or as one from which others come, which has a member
    /// staged.
    fn add_group(&mut self, number: u64, row: &'a HostMount, is_member: bool) -> Done {
        let new = Group {
            master: None,
            device: row.device.as_slice(),
            members: 0,
            is_needed: false,
            here: 0,
        };
        let group = self.all.entry(number)?.or_insert(new);
        if is_member {
            group.members = group.members.saturating_add(1);
            group.master = row.master;
        } else {
            group.is_needed = true;
        }
        Ok(())
    }

    /// Adds what the row of a table tells, unless that disagrees with what earlier ones told.
    pub(crate) fn add(&mut self, row: &'a HostMount, table: usize) -> Done {
        if !self.may_add(row) {
            return Ok(());
        }
        if let Some(number) = row.shared {
            self.add_group(number, row, true)?;
            self.inside.insert((number, table))?;
        }
        let Some(number) = row.master else {
            return Ok(());
        };
        self.add_group(number, row, false)?;
        if let Some(above) = row.via {
            self.add_group(above, row, false)?;
            self.beyond.insert((number, above))?;
        }
        Ok(())
    }

    /// Gives a group another master, or none.
    fn set_master(&mut self, number: u64, master: Option<u64>) {
        if let Some(group) = self.all.get_mut(&number) {
            group.master = master;
        }
    }

    /// Puts a group above another one, at the end of those above it, if no row is a member of the group at that end.
    /// Answers whether it is above afterwards.
    fn join(&mut self, low: u64, high: u64) -> bool {
        if self.leads_to(Some(low), high) {
            return true;
        }
        let top = self.upwards(Some(low)).last().unwrap_or(low);
        if self.is_seen(top) || self.leads_to(Some(high), low) || self.leads_to(Some(high), top) {
            return false;
        }
        self.set_master(top, Some(high));
        true
    }

    /// Puts a group above one of which no row is a member: above everything that is above that one, or else between the
    /// two.
    fn bring_above(&mut self, low: u64, high: u64) {
        if self.is_seen(low) || self.join(low, high) {
            return;
        }
        let Some(first) = self.above(low) else {
            return;
        };
        self.set_master(low, None);
        let is_between = !self.leads_to(Some(high), low) && self.join(high, first);
        self.set_master(low, Some(if is_between { high } else { first }));
    }

    /// Finds out what is above the groups of which no row is a member, by what their slaves tell, the lowest groups first.
    pub(crate) fn settle(&mut self, alloc: Global) -> Done {
        let mut pairs = BTreeSet::new(alloc);
        for pair in self.beyond.iter() {
            let (low, high) = *pair;
            let below_top = MOST_CHAIN.saturating_sub(self.height(Some(high)));
            pairs.insert((low, below_top, high))?;
        }
        for pair in pairs.iter() {
            let (low, _, high) = *pair;
            self.bring_above(low, high);
        }
        Ok(())
    }
}
