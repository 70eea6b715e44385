//! The mounts that a change chooses.
ghost use Rattle.std.specs.Prelude.{◌≡◌, IsTrue};
ghost use Rattle.std.specs.List.Sorted.{IsNonDecreasing};
ghost use Rattle.mt_skel.specs.Keyed.{among};

use mt_mounts::mount::MountId;
use mt_skel::list::is_among;
use std::marker::Model;

/// The IDs of mounts that a change chooses. One is found by halving if none is below the one before it, and otherwise
/// by a scan.
#[derive(Drop)]
pub(crate) struct Chosen<'a> {
    ids: &'a [MountId],
    sorted: bool,
}

impl<'a> Model for Chosen<'a> {
    ghost use Rattle.std.specs.Prelude.{ℕ, List, IsTrue};
    ghost use Rattle.std.specs.List.Sorted.{IsNonDecreasing};

    ghost Value = { List ℕ };

    ghost view = { λ c. c.ids.now };

    ghost invariant = { λ c. IsTrue c.sorted → IsNonDecreasing c.ids.now };
}

/// Whether an ID is one of these, found by halving them.
fn is_halved(ids: &[MountId], id: MountId) -> bool
    requires { IsNonDecreasing ids.now }
    ensures { result ≡ among ids.now id }
{
    match ids.binary_search(&id) {
        Ok(_) => true,
        Err(_) => false,
    }
}

impl<'a> Chosen<'a> {
    /// These IDs.
    pub(crate) fn new(ids: &'a [MountId]) -> Self
        ensures { result ≡ ids.now }
    {
        let sorted = ids.is_sorted();
        Chosen { ids, sorted }
    }

    /// Whether it is known that none of them is below the one before it.
    pub(crate) fn is_sorted(&self) -> bool
        ensures { IsTrue result → IsNonDecreasing self.now }
    {
        self.sorted
    }

    /// Whether an ID is one of these.
    pub(crate) fn has(&self, id: MountId) -> bool
        ensures { result ≡ among self.now id }
    {
        if self.sorted {
            return is_halved(self.ids, id);
        }
        is_among(self.ids, id)
    }
}
