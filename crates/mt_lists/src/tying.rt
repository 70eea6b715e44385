//! An ID comes into the list of its number, and goes out of it: what is written at the places and in the table of numbers.
ghost use Rattle.std.specs.Prelude.{◌≡◌, ℕ, ◌+◌, ◌<◌, ◌≤◌, ◌^◌, length, true, slice_set, Some, None, IsTrue, is_some, nat_eq};
ghost use Rattle.std.specs.Option.{option_map, option_map_or};
ghost use Rattle.indexmap.specs.IndexMap.{get, spare};
ghost use Rattle.mt_skel.specs.Keyed.{row_at, put, among};
ghost use Rattle.mt_lists.specs.Lists.{listed_id, ids, above, without_row};
ghost use Rattle.mt_lists.specs.Neighbours.{below, last_of};
ghost use Rattle.mt_lists.specs.SlotLists.{LeadsTo};
ghost use Rattle.mt_lists.specs.Ties.{id_at, IsTied, IsBelow};

use crate::ties::{Tie, Ties, after_of, before_of};
use crate::tops::{FoundTop, Top, grown, put_top, set_top, shrunk, top_of};
use indexmap::IndexMap;

/// The last place of a list whose ID is below this one, sought from the last place of the list.
fn sought_down<T: Ties>(ties: &T, tops: &IndexMap<u64, Top>, id: u64, last: usize) -> Option<usize>
    requires tied { IsTied (T.ties ties.now) (T.rows ties.now) tops.now }
    requires there { IsTrue (is_some (id_at (T.ties ties.now) last)) }
    ensures { (n : ℕ) → id_at (T.ties ties.now) last ≡ last_of (ids (T.rows ties.now) n) → LeadsTo (id_at (T.ties ties.now)) result (below id (ids (T.rows ties.now) n)) }
{
    let mut here = Some(last);
    'walk: while let Some(place) = here {
        if ties.id(place) < id {
            return here;
        }
        here = before_of(ties, place);
    }
    here
}

/// The last place whose ID is below this one in the list of a place whose ID is, sought from there upwards.
fn sought_up<T: Ties>(ties: &T, tops: &IndexMap<u64, Top>, id: u64, start: usize) -> usize
    requires tied { IsTied (T.ties ties.now) (T.rows ties.now) tops.now }
    requires below { IsBelow (T.ties ties.now) id start }
    ensures { (n i : ℕ) → id_at (T.ties ties.now) start ≡ Some i → IsTrue (among (ids (T.rows ties.now) n) i) → LeadsTo (id_at (T.ties ties.now)) (Some result) (below id (ids (T.rows ties.now) n)) }
{
    let mut here = start;
    'walk: while let Some(next) = after_of(ties, here) {
        if id <= ties.id(next) {
            return here;
        }
        here = next;
    }
    here
}

/// Whether the place that came most recently into the list of a number still has a tie of it, and its ID is below this one.
fn recent_below<T: Ties>(
    ties: &T,
    tops: &IndexMap<u64, Top>,
    recent: usize,
    id: u64,
    number: u64,
) -> bool
    requires tied { IsTied (T.ties ties.now) (T.rows ties.now) tops.now }
    ensures below { result ≡ true → IsBelow (T.ties ties.now) id recent }
    ensures among { (i : ℕ) → result ≡ true → id_at (T.ties ties.now) recent ≡ Some i → IsTrue (among (ids (T.rows ties.now) number) i) }
{
    match ties.tie(recent) {
        Some(tie) => tie.number == number && tie.id < id,
        None => false,
    }
}

/// The place of the last of a number's IDs below this one, where the top of its list was found: the last of the list, or
/// sought from the one that came most recently, where that is below, and otherwise from the end.
fn place_for<T: Ties>(
    ties: &T,
    tops: &IndexMap<u64, Top>,
    found: Option<FoundTop>,
    id: u64,
    number: u64,
) -> Option<usize>
    requires tied { IsTied (T.ties ties.now) (T.rows ties.now) tops.now }
    requires found { option_map (λ f. f.top) found ≡ get nat_eq tops.now number }
    ensures { LeadsTo (id_at (T.ties ties.now)) result (below id (ids (T.rows ties.now) number)) }
{
    let top = found?.top;
    if ties.id(top.last) < id {
        return Some(top.last);
    }
    if recent_below(ties, tops, top.recent, id, number) {
        return Some(sought_up(ties, tops, id, top.recent));
    }
    sought_down(ties, tops, id, top.last)
}

/// The place of the first of a number's IDs above this one, which is not there, where the top of its list was found and the
/// place of the last ID below it is known.
fn follower<T: Ties>(
    ties: &T,
    tops: &IndexMap<u64, Top>,
    found: Option<FoundTop>,
    id: u64,
    number: u64,
    before: Option<usize>,
) -> Option<usize>
    requires tied { IsTied (T.ties ties.now) (T.rows ties.now) tops.now }
    requires found { option_map (λ f. f.top) found ≡ get nat_eq tops.now number }
    requires absent { row_at listed_id id (T.rows ties.now) ≡ None }
    requires before { LeadsTo (id_at (T.ties ties.now)) before (below id (ids (T.rows ties.now) number)) }
    ensures { LeadsTo (id_at (T.ties ties.now)) result (above id (ids (T.rows ties.now) number)) }
{
    let top = found?.top;
    match before {
        None => Some(top.first),
        Some(other) if other == top.last => None,
        Some(other) => after_of(ties, other),
    }
}

/// Puts an ID that is not there at a place that is free, and into the list of a number.
pub(crate) fn tie<T: Ties>(
    ties: &mut T,
    tops: &mut IndexMap<u64, Top>,
    place: usize,
    id: u64,
    number: u64,
)
    requires tied { IsTied (T.ties ties.old) (T.rows ties.old) tops.old }
    requires place { T.can_have ties.old place id }
    requires free { T.ties ties.old place ≡ None }
    requires absent { row_at listed_id id (T.rows ties.old) ≡ None }
    requires ties_room { 0 < T.room ties.old }
    requires tops_room { 0 < spare tops.old }
    requires few { length (T.rows ties.old) < 2 ^ 63 }
    ensures tied { IsTied (T.ties ties.new) (T.rows ties.new) tops.new }
    ensures rows { T.rows ties.new ≡ put listed_id (record { id = id; number = number }) (T.rows ties.old) }
    ensures slots { T.slots ties.new ≡ slice_set (T.slots ties.old) place (Some id) }
    ensures ties_room { T.room ties.old ≤ T.room ties.new + 1 }
    ensures tops_room { spare tops.old ≤ spare tops.new + 1 }
{
    let found = top_of(tops, number);
    let before = place_for(ties, tops, found, id, number);
    let after = follower(ties, tops, found, id, number, before);
    let top = grown(place, before, after, found);
    put_top(tops, number, found, top);
    let tie = Tie {
        id,
        number,
        before,
        after,
    };
    ties.put(place, tie);
    ties.set_after(before, Some(place));
    ties.set_before(after, Some(place));
}

/// Takes the ID at a place, if there is one, away from there and out of the list of its number.
pub(crate) fn untie<T: Ties>(ties: &mut T, tops: &mut IndexMap<u64, Top>, place: usize)
    requires tied { IsTied (T.ties ties.old) (T.rows ties.old) tops.old }
    ensures tied { IsTied (T.ties ties.new) (T.rows ties.new) tops.new }
    ensures rows { T.rows ties.new ≡ option_map_or (λ i. without_row i (T.rows ties.old)) (id_at (T.ties ties.old) place) (T.rows ties.old) }
    ensures slots { T.slots ties.new ≡ slice_set (T.slots ties.old) place None }
    ensures ties_room { T.room ties.old ≤ T.room ties.new }
    ensures tops_room { spare tops.old ≤ spare tops.new }
{
    if let Some(tie) = ties.take(place) {
        if let Some(found) = top_of(tops, tie.number) {
            let top = shrunk(place, tie.before, tie.after, found.top);
            set_top(tops, tie.number, found, top);
            ties.set_after(tie.before, tie.after);
            ties.set_before(tie.after, tie.before);
        }
    }
}
