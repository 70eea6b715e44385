//! Ties: an ID, its number, and the places of its neighbours in the list of that number; and the places that have ties.
ghost use Rattle.std.specs.Prelude.{◌≡◌};
ghost use Rattle.std.specs.Option.{option_and_then};

/// An ID, its number, and the places before and after its own in the list of that number.
#[derive(Clone, Copy)]
pub(crate) struct Tie {
    pub(crate) id: u64,
    pub(crate) number: u64,
    pub(crate) before: Option<usize>,
    pub(crate) after: Option<usize>,
}

/// Places, each of which has a tie or none.
pub(crate) trait Ties {
    ghost use Rattle.std.specs.Prelude.{◌≡◌, ℕ, ◌+◌, ◌<◌, ◌≤◌, cond, List, Option, Some, None, nat_eq, slice_set};
    ghost use Rattle.std.specs.Option.{option_map_or};
    ghost use Rattle.mt_skel.specs.Keyed.{row_at, put};
    ghost use Rattle.mt_lists.specs.declared.ties.Tie.{Tie};
    ghost use Rattle.mt_lists.specs.Lists.{ListRow, listed_id, without_row};
    ghost use Rattle.mt_lists.specs.Ties.{id_at, tied_row, given_tie, with_before, with_after, AreApart};

    /// The tie at each place.
    ghost ties: { Self → ℕ → Option Tie };

    /// The rows of all ties, by rising ID.
    ghost rows: { Self → List ListRow };

    /// The ID in each slot, where places are slots.
    ghost slots: { Self → List (Option ℕ) };

    /// Whether a place is there, without a tie, and an ID can stand there.
    ghost can_have: { Self → ℕ → ℕ → Type 0 };

    /// How many ties may come with no more memory, at least.
    ghost room: { Self → ℕ };

    /// The tie at a place.
    fn tie(&self, place: usize) -> Option<Tie>
        ensures { result ≡ ties self.now place };

    /// The ID at a place that has one.
    fn id(&self, place: usize) -> u64
        ensures { (i : ℕ) → id_at (ties self.now) place ≡ Some i → result ≡ i };

    /// Writes which place stands before this one, where this one is some place that has a tie.
    fn set_before(&mut self, place: Option<usize>, before: Option<usize>)
        ensures ties { (k : ℕ) → ties self.new k ≡ given_tie place (with_before before) (ties self.old) k }
        ensures rows { rows self.new ≡ rows self.old }
        ensures slots { slots self.new ≡ slots self.old }
        ensures room { room self.old ≤ room self.new };

    /// Writes which place stands after this one, where this one is some place that has a tie.
    fn set_after(&mut self, place: Option<usize>, after: Option<usize>)
        ensures ties { (k : ℕ) → ties self.new k ≡ given_tie place (with_after after) (ties self.old) k }
        ensures rows { rows self.new ≡ rows self.old }
        ensures slots { slots self.new ≡ slots self.old }
        ensures room { room self.old ≤ room self.new };

    /// Puts a tie at a place that has none.
    fn put(&mut self, place: usize, tie: Tie)
        requires place { can_have self.old place tie.id }
        requires absent { row_at listed_id tie.id (rows self.old) ≡ None }
        requires room { 0 < room self.old }
        ensures ties { (k : ℕ) → ties self.new k ≡ cond (nat_eq place k) (Some tie) (ties self.old k) }
        ensures rows { rows self.new ≡ put listed_id (tied_row tie) (rows self.old) }
        ensures slots { slots self.new ≡ slice_set (slots self.old) place (Some tie.id) }
        ensures room { room self.old ≤ room self.new + 1 };

    /// Takes the tie at a place away, if there is one.
    fn take(&mut self, place: usize) -> Option<Tie>
        requires apart { AreApart (ties self.old) }
        ensures tie { result ≡ ties self.old place }
        ensures ties { (k : ℕ) → ties self.new k ≡ cond (nat_eq place k) None (ties self.old k) }
        ensures rows { rows self.new ≡ option_map_or (λ t. without_row t.id (rows self.old)) (ties self.old place) (rows self.old) }
        ensures slots { slots self.new ≡ slice_set (slots self.old) place None }
        ensures room { room self.old ≤ room self.new };
}

/// The place before this one in the list of its number.
pub(crate) fn before_of<T: Ties>(ties: &T, place: usize) -> Option<usize>
    ensures { result ≡ option_and_then (λ t. t.before) (T.ties ties.now place) }
{
    let tie = ties.tie(place)?;
    tie.before
}

/// The place after this one in the list of its number.
pub(crate) fn after_of<T: Ties>(ties: &T, place: usize) -> Option<usize>
    ensures { result ≡ option_and_then (λ t. t.after) (T.ties ties.now place) }
{
    let tie = ties.tie(place)?;
    tie.after
}
