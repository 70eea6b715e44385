//! The numbers that a server gives the peer groups that a script makes: each new group gets the next number, from 1.
//!
//! A group is made when a mount in none is made shared, and when a mount is put on a member of a group: it is then in a
//! new group, and so are its copies at each group below that has a mount that shows the place.
ghost use Rattle.std.specs.Prelude.{◌≡◌, OnOk};

use crate::groups::Groups;
use crate::mount::Mount;
use crate::path::path_behind;
use crate::script::Script;
use crate::writer::Done;

/// The peer groups that a script makes.
#[derive(Drop)]
pub(crate) struct Numbers {
    /// How many there are.
    pub(crate) count: u64,
    /// The groups of tables among them, each with its number here.
    pub(crate) named: Vec<(u64, u64)>,
    /// The masters that these have, each with the directory that the slave shows.
    pub(crate) masters: Vec<(u64, Vec<u8>)>,
}

impl Script {
    /// Counts the peer group of the tables that its next lines make, of a mount that shows a directory.
    pub(crate) fn count_group(&mut self, groups: &Groups<'_>, group: u64, root: &[u8]) -> Done
        ensures { OnOk result (self.new ≡ self.old) }
    {
        self.numbers.count = self.numbers.count.saturating_add(1);
        self.numbers.named.push((group, self.numbers.count))?;
        if let Some(master) = groups.above(group) {
            let root = Vec::from_slice(self.alloc(), root)?;
            self.numbers.masters.push((master, root))?;
        }
        Ok(())
    }

    /// Counts the groups of mounts that are put this many times at a place on a member of a group.
    pub(crate) fn count_mounts(&mut self, groups: &Groups<'_>, group: u64, place: &[u8], times: u64)
        ensures { self.new ≡ self.old }
    {
        let mut made = 1_u64;
        for (master, root) in self.numbers.masters.iter() {
            let shown = path_behind(place, root.as_slice());
            if shown.is_some() && groups.leads_to(Some(*master), group) {
                made = made.saturating_add(1);
            }
        }
        self.numbers.count = self
            .numbers
            .count
            .saturating_add(made.saturating_mul(times));
    }

    /// Counts the groups of a hook for a mount on a member of a group, which is taken away at this many paths, each
    /// time by one more mount on all others. The one that covers the mount itself is the only one of its group if the
    /// mount is.
    pub(crate) fn count_hook(
        &mut self,
        groups: &Groups<'_>,
        group: u64,
        mount: &Mount<'_>,
        paths: usize,
    )
        ensures { self.new ≡ self.old }
    {
        let (row, place) = (mount.row, mount.place.as_slice());
        self.count_mounts(groups, group, place, (paths as u64).saturating_add(1));
        let is_covered = mount.root == place && groups.gets_from(row, group);
        if is_covered && groups.lone_group(row.shared).is_some() {
            self.numbers.count = self.numbers.count.saturating_sub(1);
        }
    }
}
