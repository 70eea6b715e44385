//! Ties in slots, which the caller chooses.

use crate::ties::{Tie, Ties};

impl Ties for Vec<Option<Tie>> {
    ghost use Rattle.std.specs.Prelude.{◌≡◌, Some, None, slice_get};
    ghost use Rattle.mt_lists.specs.Slots.{tie_in, ids_in, rows_in};

    ghost ties = { λ s. tie_in s.items };

    ghost rows = { λ s. rows_in s.items };

    ghost slots = { λ s. ids_in s.items };

    ghost can_have = { λ s place id. slice_get s.items place ≡ Some None };

    ghost room = { λ s. 1 };

    fn tie(&self, place: usize) -> Option<Tie> {
        match self.get(place) {
            Some(tie) => *tie,
            None => None,
        }
    }

    fn id(&self, place: usize) -> u64 {
        match self.get(place) {
            Some(Some(tie)) => tie.id,
            _ => 0,
        }
    }

    fn set_before(&mut self, place: Option<usize>, before: Option<usize>) {
        if let Some(place) = place {
            if let Some(tie) = self.tie(place) {
                self[place] = Some(Tie { before, ..tie });
            }
        }
    }

    fn set_after(&mut self, place: Option<usize>, after: Option<usize>) {
        if let Some(place) = place {
            if let Some(tie) = self.tie(place) {
                self[place] = Some(Tie { after, ..tie });
            }
        }
    }

    fn put(&mut self, place: usize, tie: Tie) {
        self[place] = Some(tie);
    }

    fn take(&mut self, place: usize) -> Option<Tie> {
        let tie = self.tie(place)?;
        self[place] = None;
        Some(tie)
    }
}
