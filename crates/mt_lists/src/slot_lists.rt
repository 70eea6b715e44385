//! Lists of IDs, one for each number, linked by the slots of the IDs.
ghost use Rattle.std.specs.Prelude.{◌≡◌, ◌+◌, ◌<◌, ◌≤◌, [], length, slice_get, slice_set, None, Some, OnOk, OnErr, IfOk, IsOkUnless, IsTrue};
ghost use Rattle.std.specs.Option.{option_and_then, option_map_or};
ghost use Rattle.mt_skel.specs.Keyed.{put, rises};
ghost use Rattle.mt_lists.specs.Lists.{listed_id, listed_number, ids, without_row, first, next_of};
ghost use Rattle.mt_lists.specs.SlotLists.{id_in, lengthened, LeadsTo};

use crate::ties::{Tie, Ties, after_of};
use crate::tops::{Top, top_of};
use crate::tying::{tie, untie};
use indexmap::IndexMap;
use mt_skel::fault::Fault;
use std::alloc::Global;
use std::marker::Model;

/// IDs that have a number each, in slots that the caller chooses. The IDs of one number form a list, by rising ID.
///
/// It is made to stand beside a slab whose values have an ID and may have a number: the key of a value is the slot of its
/// ID. What follows a slot in a list is found in no more time than a read takes; the first slot of a number, and each
/// change, take one look-up in a hash table. An ID that comes among IDs of its number takes more, as with
/// [`Lists`](crate::lists::Lists).
pub struct SlotLists {
    ties: Vec<Option<Tie>>,
    tops: IndexMap<u64, Top>,
}

impl Model for SlotLists {
    ghost use Rattle.indexmap.specs.IndexMap.{spare};
    ghost use Rattle.mt_lists.specs.SlotLists.{SlotListsView};

    ghost Value = { SlotListsView };

    ghost use Rattle.mt_lists.specs.Slots.{tie_in, ids_in, rows_in};
    ghost use Rattle.mt_lists.specs.Ties.{IsTied};

    ghost view = { λ s. record { rows = rows_in s.ties.items; slots = ids_in s.ties.items; room = spare s.tops } };

    ghost invariant = { λ s. IsTied (tie_in s.ties.items) (rows_in s.ties.items) s.tops };
}

impl Drop for SlotLists {
    fn drop(self) {
        let SlotLists {
            ties: _ties,
            tops: _tops,
        } = self;
    }
}

impl SlotLists {
    /// No rows and no slots. Their memory will come from `alloc`.
    pub fn new(alloc: Global) -> Self
        ensures rows { result.rows ≡ [] }
        ensures slots { result.slots ≡ [] }
    {
        SlotLists {
            ties: Vec::new(alloc),
            tops: IndexMap::new(alloc),
        }
    }

    /// The same rows in the same slots.
    pub fn copy(&self) -> Result<SlotLists, Fault>
        ensures rows { IfOk result (λ lists. lists.rows ≡ self.now.rows) }
        ensures slots { IfOk result (λ lists. lists.slots ≡ self.now.slots) }
        ensures memory { IsOkUnless result Fault.NoMemory }
    {
        Ok(SlotLists {
            ties: Vec::from_slice(*self.ties.allocator(), &self.ties)?,
            tops: self.tops.clone()?,
        })
    }

    /// Makes at least this many slots, the new ones free, and room for this many more IDs, and changes no row.
    pub fn reserve(&mut self, width: usize, additional: usize) -> Result<(), Fault>
        ensures slots { OnOk result (self.new.slots ≡ lengthened width self.old.slots) }
        ensures room { OnOk result (additional ≤ self.new.room) }
        ensures memory { IsOkUnless result Fault.NoMemory }
        ensures unchanged { OnErr result (self.new.slots ≡ self.old.slots) }
        ensures keeps { self.old.room ≤ self.new.room }
        ensures rows { self.new.rows ≡ self.old.rows }
    {
        self.tops.reserve(additional)?;
        self.ties.resize(self.ties.len().max(width), None)?;
        Ok(())
    }

    /// How many more IDs there can be without more memory.
    pub fn room(&self) -> usize
        ensures { result ≡ self.now.room }
    {
        self.tops.capacity() - self.tops.len()
    }

    /// The ID in a slot, or `None` where the slot is free or not there.
    pub fn id(&self, slot: usize) -> Option<u64>
        ensures { result ≡ id_in self.now.slots slot }
    {
        Some(self.ties.tie(slot)?.id)
    }

    /// The slot of the lowest ID of this number, or `None` where no ID has it.
    pub fn first(&self, number: u64) -> Option<usize>
        ensures first { LeadsTo (id_in self.now.slots) result (first (ids self.now.rows number)) }
        ensures rising { IsTrue (rises listed_id self.now.rows) }
    {
        Some(top_of(&self.tops, number)?.top.first)
    }

    /// The slot of the next higher ID of the same number, or `None` where this slot has none or the last.
    pub fn after(&self, slot: usize) -> Option<usize>
        ensures { LeadsTo (id_in self.now.slots) result (option_and_then (next_of self.now.rows) (id_in self.now.slots slot)) }
    {
        after_of(&self.ties, slot)
    }

    /// How many IDs have this number.
    pub fn count(&self, number: u64) -> usize
        ensures { result ≡ length (ids self.now.rows number) }
    {
        match top_of(&self.tops, number) {
            Some(found) => found.top.count,
            None => 0,
        }
    }

    /// The IDs of this number, rising, in memory of `alloc`.
    pub fn ids(&self, alloc: Global, number: u64) -> Result<Vec<u64>, Fault>
        ensures ids { IfOk result (λ found. found.items ≡ ids self.now.rows number) }
        ensures memory { IsOkUnless result Fault.NoMemory }
    {
        let mut found = Vec::with_capacity(alloc, self.count(number))?;
        let mut here = self.first(number);
        'list: while let Some(slot) = here {
            // Each slot of the list has an ID.
            let Some(id) = self.id(slot) else {
                return Ok(found);
            };
            found.push(id)?;
            here = self.after(slot);
        }
        Ok(found)
    }

    /// Puts an ID that is not there, with its number, into a slot that is free. [`reserve`](SlotLists::reserve) has made room
    /// for it.
    pub fn insert(&mut self, slot: usize, id: u64, number: u64)
        requires room { 0 < self.old.room }
        requires free { slice_get self.old.slots slot ≡ Some None }
        requires absent { listed_number self.old.rows id ≡ None }
        ensures rows { self.new.rows ≡ put listed_id (record { id = id; number = number }) self.old.rows }
        ensures slots { self.new.slots ≡ slice_set self.old.slots slot (Some id) }
        ensures room { self.old.room ≤ self.new.room + 1 }
    {
        // The proof needs that the slots can be counted.
        let _ties = self.ties.as_slice();
        tie(&mut self.ties, &mut self.tops, slot, id, number);
    }

    /// Takes the ID in a slot, if there is one, away.
    pub fn remove(&mut self, slot: usize)
        ensures rows { self.new.rows ≡ option_map_or (λ i. without_row i self.old.rows) (id_in self.old.slots slot) self.old.rows }
        ensures slots { self.new.slots ≡ slice_set self.old.slots slot None }
        ensures room { self.old.room ≤ self.new.room }
    {
        untie(&mut self.ties, &mut self.tops, slot);
    }
}
