//! Lists of IDs, one for each number.
ghost use Rattle.std.specs.Prelude.{◌≡◌, ◌+◌, ◌<◌, ◌≤◌, [], length, None, OnOk, IfOk, IsTrue, IsOkUnless};
ghost use Rattle.mt_skel.specs.Keyed.{put, rises};
ghost use Rattle.mt_lists.specs.Lists.{listed_id, listed_number, ids, without_row, with_number, first, next_of};

use crate::entries::Entry;
use crate::ties::{Ties, after_of};
use crate::tops::{Top, top_of};
use crate::tying::{tie, untie};
use indexmap::IndexMap;
use mt_skel::fault::Fault;
use std::alloc::Global;
use std::marker::Model;

/// IDs that have a number each. The IDs of one number form a list, by rising ID.
///
/// A look-up takes the time of one look-up in a hash table, and a change that of a few: one for the ID, one for the
/// list of its number and one for each neighbour there. An ID that comes among IDs of its number takes more: a new ID
/// above all others is put after them at once, and the place of any other is sought upwards from the ID that came last
/// into their list, if that is still there and below, and otherwise from the end. So IDs that come in rising order pass
/// each of those that are there once.
pub struct Lists {
    entries: IndexMap<usize, Entry>,
    tops: IndexMap<u64, Top>,
}

impl Model for Lists {
    ghost use Rattle.std.specs.Prelude.{min};
    ghost use Rattle.indexmap.specs.IndexMap.{spare};
    ghost use Rattle.mt_lists.specs.Lists.{ListsView};

    ghost Value = { ListsView };

    ghost use Rattle.mt_lists.specs.Tables.{ties_of, rows_of};
    ghost use Rattle.mt_lists.specs.Ties.{IsTied};

    ghost view = { λ s. record { rows = rows_of s.entries; room = min (spare s.entries) (spare s.tops) } };

    ghost invariant = { λ s. IsTied (ties_of s.entries) (rows_of s.entries) s.tops };
}

impl Drop for Lists {
    fn drop(self) {
        let Lists {
            entries: _entries,
            tops: _tops,
        } = self;
    }
}

impl Lists {
    /// No rows. Their memory will come from `alloc`.
    pub fn new(alloc: Global) -> Self
        ensures { result.rows ≡ [] }
    {
        Lists {
            entries: IndexMap::new(alloc),
            tops: IndexMap::new(alloc),
        }
    }

    /// The same rows.
    pub fn copy(&self) -> Result<Lists, Fault>
        ensures copy { IfOk result (λ lists. lists.rows ≡ self.now.rows) }
        ensures memory { IsOkUnless result Fault.NoMemory }
    {
        Ok(Lists {
            entries: self.entries.clone()?,
            tops: self.tops.clone()?,
        })
    }

    /// Makes room for this many more rows, and changes none.
    pub fn reserve(&mut self, additional: usize) -> Result<(), Fault>
        ensures room { OnOk result (additional ≤ self.new.room) }
        ensures memory { IsOkUnless result Fault.NoMemory }
        ensures keeps { self.old.room ≤ self.new.room }
        ensures rows { self.new.rows ≡ self.old.rows }
    {
        self.entries.reserve(additional)?;
        self.tops.reserve(additional)?;
        Ok(())
    }

    /// How many more rows there can be without more memory.
    pub fn room(&self) -> usize
        ensures { result ≡ self.now.room }
    {
        let entries = self.entries.capacity() - self.entries.len();
        let tops = self.tops.capacity() - self.tops.len();
        entries.min(tops)
    }

    /// How many rows there are.
    pub fn len(&self) -> usize
        ensures len { result ≡ length self.now.rows }
        ensures rising { IsTrue (rises listed_id self.now.rows) }
    {
        self.entries.len()
    }

    /// The number of this ID, or `None` if it is not there.
    pub fn number(&self, id: u64) -> Option<u64>
        ensures number { result ≡ listed_number self.now.rows id }
        ensures rising { IsTrue (rises listed_id self.now.rows) }
    {
        let tie = self.entries.tie(id as usize)?;
        Some(tie.number)
    }

    /// The lowest ID of this number, or `None` if no ID has it.
    pub fn first(&self, number: u64) -> Option<u64>
        ensures first { result ≡ first (ids self.now.rows number) }
        ensures rising { IsTrue (rises listed_id self.now.rows) }
    {
        Some(top_of(&self.tops, number)?.top.first as u64)
    }

    /// The next higher ID of the same number, or `None` if this ID is not there or is the last.
    pub fn after(&self, id: u64) -> Option<u64>
        ensures { result ≡ next_of self.now.rows id }
    {
        Some(after_of(&self.entries, id as usize)? as u64)
    }

    /// How many IDs have this number.
    pub fn count(&self, number: u64) -> usize
        ensures { result ≡ length (ids self.now.rows number) }
    {
        match top_of(&self.tops, number) {
            Some(found) => found.top.count,
            None => 0,
        }
    }

    /// The IDs of this number, rising, in memory of `alloc`.
    pub fn ids(&self, alloc: Global, number: u64) -> Result<Vec<u64>, Fault>
        ensures ids { IfOk result (λ found. found.items ≡ ids self.now.rows number) }
        ensures memory { IsOkUnless result Fault.NoMemory }
    {
        let mut found = Vec::with_capacity(alloc, self.count(number))?;
        let mut here = self.first(number);
        'list: while let Some(id) = here {
            found.push(id)?;
            here = self.after(id);
        }
        Ok(found)
    }

    /// Gives a number to an ID that is not there. [`reserve`](Lists::reserve) has made room for it.
    pub fn insert(&mut self, id: u64, number: u64)
        requires room { 0 < self.old.room }
        requires absent { listed_number self.old.rows id ≡ None }
        ensures rows { self.new.rows ≡ put listed_id (record { id = id; number = number }) self.old.rows }
        ensures room { self.old.room ≤ self.new.room + 1 }
    {
        // The proof needs that the IDs can be counted.
        let _len = self.entries.len();
        tie(&mut self.entries, &mut self.tops, id as usize, id, number);
    }

    /// Takes this ID away, if it is there.
    pub fn remove(&mut self, id: u64)
        ensures rows { self.new.rows ≡ without_row id self.old.rows }
        ensures room { self.old.room ≤ self.new.room }
    {
        untie(&mut self.entries, &mut self.tops, id as usize);
    }

    /// Gives a number, or none, to an ID that is not there. Room for one row is needed even for
    /// none.
    pub fn enter(&mut self, id: u64, number: Option<u64>)
        requires room { 0 < self.old.room }
        requires absent { listed_number self.old.rows id ≡ None }
        ensures rows { self.new.rows ≡ with_number id number self.old.rows }
        ensures room { self.old.room ≤ self.new.room + 1 }
    {
        if let Some(number) = number {
            self.insert(id, number);
        }
    }

    /// Gives this ID this number, or none, whether it is there or not. Room for one row is needed even if the ID is
    /// there.
    pub fn set(&mut self, id: u64, number: Option<u64>)
        requires room { 0 < self.old.room }
        ensures rows { self.new.rows ≡ with_number id number self.old.rows }
        ensures room { self.old.room ≤ self.new.room + 1 }
    {
        let old = self.number(id);
        if old == number {
            return;
        }
        let Some(_) = old else {
            return self.enter(id, number);
        };
        self.remove(id);
        self.enter(id, number);
    }
}
