//! The IDs of what was changed.
ghost use Rattle.std.specs.Prelude.{◌≡◌, ◌+◌, ◌<◌, ◌≤◌, [], ◌∷◌, ◌++◌, OnOk, IsOkUnless};

use mt_skel::fault::Fault;
use std::alloc::Global;
use std::marker::Model;

/// The IDs that were noted since the log was last emptied, in the order in which they came. One that was noted twice is
/// there twice.
#[derive(Drop)]
pub struct Log {
    noted: Vec<u64>,
}

impl Model for Log {
    ghost use Rattle.std.specs.Prelude.{◌-◌, vec_capacity, vec_len};
    ghost use Rattle.mt_lists.specs.Log.{LogView};

    ghost Value = { LogView };

    ghost view = { λ l. record { ids = l.noted.items; room = vec_capacity l.noted - vec_len l.noted } };
}

impl Log {
    /// No IDs. Their memory will come from `alloc`.
    pub fn new(alloc: Global) -> Self
        ensures { result ≡ record { ids = []; room = 0 } }
    {
        Log {
            noted: Vec::new(alloc),
        }
    }

    /// Makes room for this many more IDs, and changes none.
    pub fn reserve(&mut self, additional: usize) -> Result<(), Fault>
        ensures room { OnOk result (additional ≤ self.new.room) }
        ensures memory { IsOkUnless result Fault.NoMemory }
        ensures keeps { self.old.room ≤ self.new.room }
        ensures ids { self.new.ids ≡ self.old.ids }
    {
        self.noted.reserve(additional)?;
        Ok(())
    }

    /// Notes an ID, for which [`reserve`](Log::reserve) has made room.
    pub fn add(&mut self, id: u64)
        requires room { 0 < self.old.room }
        ensures ids { self.new.ids ≡ self.old.ids ++ id ∷ [] }
        ensures room { self.old.room ≤ self.new.room + 1 }
    {
        self.noted.push(id).unwrap();
    }

    /// Forgets all IDs. The room that they took is kept.
    pub fn clear(&mut self)
        ensures ids { self.new.ids ≡ [] }
        ensures room { self.old.room ≤ self.new.room }
    {
        self.noted.clear();
    }

    /// The IDs that were noted.
    pub fn ids(&self) -> &[u64]
        ensures { result.now ≡ self.now.ids }
    {
        self.noted.as_slice()
    }
}
