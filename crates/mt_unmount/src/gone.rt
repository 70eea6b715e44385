//! The mounts that go, or that may go.
ghost use Rattle.std.specs.Prelude.{◌≡◌, ◌&&◌, ℕ, not, IsTrue};
ghost use Rattle.mt_skel.specs.Keyed.{among, rises};

use mt_mounts::mount::MountId;
use std::marker::Model;

/// Mounts that go, or that may go, by rising ID. Whether a mount is one of them is found by halving.
#[derive(Drop)]
pub(crate) struct Gone {
    ids: Vec<MountId>,
}

impl Model for Gone {
    ghost use Rattle.std.specs.Prelude.{ℕ, List};
    ghost use Rattle.std.specs.List.Sorted.{IsStrictlyIncreasing};

    ghost Value = { List ℕ };

    ghost view = { λ g. g.ids.items };

    ghost invariant = { λ g. IsStrictlyIncreasing g.ids.items };
}

impl Gone {
    /// These mounts, which may be in any order.
    pub(crate) fn new(ids: Vec<MountId>) -> Self
        ensures rising { IsTrue (rises (λ k. k) result) }
        ensures same { (j : ℕ) → among result j ≡ among ids.items j }
    {
        let mut ids = ids;
        ids.sort_unstable();
        ids.dedup();
        Gone { ids }
    }

    /// Those of them that are not among the others.
    pub(crate) fn without(self, others: &Gone) -> Self
        requires rising { IsTrue (rises (λ k. k) self) }
        ensures rising { IsTrue (rises (λ k. k) result) }
        ensures same { (j : ℕ) → among result j ≡ (among self j && not (among others.now j)) }
    {
        let mut ids = self.ids;
        ids.retain(|id| !others.has(*id));
        Gone { ids }
    }

    /// Their IDs, rising.
    pub(crate) fn ids(&self) -> &[MountId]
        ensures { result.now ≡ self.now }
    {
        &self.ids
    }

    /// Whether this mount is one of them.
    pub(crate) fn has(&self, id: MountId) -> bool
        ensures { result ≡ among self.now id }
    {
        self.ids.binary_search(&id).is_ok()
    }
}
