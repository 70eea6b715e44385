//! The keys whose groups are new, with the number of each.
ghost use Rattle.std.specs.Prelude.{◌≡◌, ◌+◌, ◌<◌, ◌^◌, ◌∷◌, ◌++◌, [], cond, length, OnOk, IsOkUnless};
ghost use Rattle.std.specs.List.{list_any, position_or_len};
ghost use Rattle.mt_skel.specs.Keyed.{numbered};
ghost use Rattle.mt_propagate.specs.Groups.{key_eq};
ghost use Rattle.mt_propagate.specs.Keys.{key_view};

use indexmap::IndexSet;
use mt_mounts::mount::MountId;
use mt_peers::state::GroupId;
use mt_skel::fault::Fault;
use std::alloc::Global;
use std::marker::Model;

/// The copies of one source mount at the mounts of one group, which are peers of each other.
#[derive(Clone, Copy, PartialEq, Eq, Hash)]
pub(crate) struct Key {
    pub(crate) group: GroupId,
    pub(crate) source: MountId,
}

/// The keys whose groups are new, in the order of first need, by which their groups are numbered.
///
/// A key is found in the time of one look-up in a hash table, however many there are.
pub(crate) struct NewKeys {
    keys: IndexSet<Key>,
}

impl Model for NewKeys {
    ghost use Rattle.std.specs.Prelude.{List};
    ghost use Rattle.mt_propagate.specs.Groups.{GroupKey};

    ghost Value = { List GroupKey };

    ghost use Rattle.mt_propagate.specs.Keys.{keys_of};

    ghost view = { λ k. keys_of k.keys.keys };
}

impl Drop for NewKeys {
    fn drop(self) {
        let NewKeys { keys: _keys } = self;
    }
}

impl NewKeys {
    /// No keys. Their memory will come from `alloc`.
    pub(crate) fn new(alloc: Global) -> Self
        ensures { result ≡ [] }
    {
        NewKeys {
            keys: IndexSet::new(alloc),
        }
    }

    /// How many there are.
    pub(crate) fn len(&self) -> usize
        ensures len { result ≡ length self.now }
        ensures small { length self.now < 2 ^ 63 }
    {
        self.keys.len()
    }

    /// Adds a key, unless it is there.
    pub(crate) fn add(&mut self, key: Key) -> Result<(), Fault>
        ensures added { OnOk result (self.new ≡ cond (list_any (λ l. key_eq l (key_view key)) self.old) self.old (self.old ++ key_view key ∷ [])) }
        ensures memory { IsOkUnless result Fault.NoMemory }
    {
        self.keys.insert(key)?;
        Ok(())
    }

    /// The index of a key, or how many there are.
    fn index_of(&self, key: Key) -> usize
        ensures index { result ≡ position_or_len (key_eq (key_view key)) self.now }
    {
        match self.keys.get_index_of(&key) {
            Some(index) => index,
            None => self.keys.len(),
        }
    }

    /// The number of a key's group, if the first of these keys gets the number `next`. That of a
    /// key that is not there comes after all of theirs.
    pub(crate) fn number(&self, next: GroupId, key: Key) -> GroupId
        requires { next + length self.now < 2 ^ 64 }
        ensures { result ≡ numbered key_eq next self.now (key_view key) }
    {
        next + self.index_of(key) as u64
    }
}
