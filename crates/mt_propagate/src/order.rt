//! IDs in an order in which one is found by halving.
ghost use Rattle.std.specs.Prelude.{◌≡◌, ◌<◌, ◌^◌, length, nat_eq, IsTrue};
ghost use Rattle.std.specs.List.{list_any, position_or_len};
ghost use Rattle.std.specs.List.Sorted.{IsNonDecreasing};

use mt_mounts::mount::MountId;
use std::marker::Model;

/// IDs in some order. One is found by halving if none is below the one before it.
pub(crate) struct Order {
    ids: Vec<MountId>,
    sorted: bool,
}

impl Drop for Order {
    fn drop(self) {
        let Order {
            ids: _ids,
            sorted: _sorted,
        } = self;
    }
}

impl Model for Order {
    ghost use Rattle.std.specs.Prelude.{ℕ, List, IsTrue};
    ghost use Rattle.std.specs.List.Sorted.{IsNonDecreasing};

    ghost Value = { List ℕ };

    ghost view = { λ o. o.ids.items };

    ghost invariant = { λ o. IsTrue o.sorted → IsNonDecreasing o.ids.items };
}

/// The index of the first of these IDs that is the one looked for, or how many there are.
fn first_index(ids: &[MountId], id: MountId) -> usize
    ensures { result ≡ position_or_len (nat_eq id) ids.now }
{
    let mut index = 0;
    'ids: for other in ids {
        if id == *other {
            return index;
        }
        index += 1;
    }
    index
}

/// The same by halving.
fn halved_index(ids: &[MountId], id: MountId) -> usize
    requires { IsNonDecreasing ids.now }
    ensures { result ≡ position_or_len (nat_eq id) ids.now }
{
    let at = ids.partition_point(|other| *other < id);
    if at < ids.len() && id == ids[at] {
        return at;
    }
    ids.len()
}

impl Order {
    /// These IDs.
    pub(crate) fn new(ids: Vec<MountId>) -> Self
        ensures { result ≡ ids.items }
    {
        let sorted = ids.is_sorted();
        Order { ids, sorted }
    }

    /// How many there are.
    pub(crate) fn len(&self) -> usize
        ensures len { result ≡ length self.now }
        ensures small { length self.now < 2 ^ 63 }
    {
        self.ids.len()
    }

    /// The index of the first one that is the one looked for, or how many there are.
    pub(crate) fn index_of(&self, id: MountId) -> usize
        ensures index { result ≡ position_or_len (nat_eq id) self.now }
        ensures small { result < 2 ^ 63 }
    {
        if self.sorted {
            return halved_index(&self.ids, id);
        }
        first_index(&self.ids, id)
    }

    /// Whether one of them is the one looked for.
    pub(crate) fn has(&self, id: MountId) -> bool
        ensures { result ≡ list_any (nat_eq id) self.now }
    {
        self.index_of(id) < self.len()
    }
}
