//! Ties in a table by ID: the place of an ID is the ID itself.

use crate::ties::{Tie, Ties};
use indexmap::IndexMap;

/// The number of an ID, and the IDs before and after it in the list of that number.
#[derive(Clone, Copy)]
pub(crate) struct Entry {
    pub(crate) number: u64,
    pub(crate) before: Option<usize>,
    pub(crate) after: Option<usize>,
}

impl Ties for IndexMap<usize, Entry> {
    ghost use Rattle.std.specs.Prelude.{◌≡◌, []};
    ghost use Rattle.indexmap.specs.IndexMap.{spare};
    ghost use Rattle.mt_lists.specs.Tables.{ties_of, rows_of};

    ghost ties = { ties_of };

    ghost rows = { rows_of };

    ghost slots = { λ m. [] };

    ghost can_have = { λ m place id. place ≡ id };

    ghost room = { spare };

    fn tie(&self, place: usize) -> Option<Tie> {
        let entry = self.get(&place)?;
        Some(Tie {
            id: place as u64,
            number: entry.number,
            before: entry.before,
            after: entry.after,
        })
    }

    fn id(&self, place: usize) -> u64 {
        place as u64
    }

    fn set_before(&mut self, place: Option<usize>, before: Option<usize>) {
        if let Some(place) = place {
            if let Some(entry) = self.get_mut(&place) {
                entry.before = before;
            }
        }
    }

    fn set_after(&mut self, place: Option<usize>, after: Option<usize>) {
        if let Some(place) = place {
            if let Some(entry) = self.get_mut(&place) {
                entry.after = after;
            }
        }
    }

    fn put(&mut self, place: usize, tie: Tie) {
        let entry = Entry {
            number: tie.number,
            before: tie.before,
            after: tie.after,
        };
        self.insert(place, entry).unwrap();
    }

    fn take(&mut self, place: usize) -> Option<Tie> {
        let entry = self.swap_remove(&place)?;
        Some(Tie {
            id: place as u64,
            number: entry.number,
            before: entry.before,
            after: entry.after,
        })
    }
}
