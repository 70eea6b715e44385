//! The table of numbers: the ends and the length of the list of each by their places, and which place came last into it.
ghost use Rattle.std.specs.Prelude.{◌≡◌, ℕ, ◌+◌, ◌<◌, ◌≤◌, ◌^◌, cond, slice_get, Some, nat_eq, IfSome};
ghost use Rattle.std.specs.Option.{option_map};
ghost use Rattle.indexmap.specs.IndexMap.{get, spare};
ghost use Rattle.mt_lists.specs.Ties.{grown_top, shrunk_top};

use indexmap::IndexMap;

/// The first and the last place of the list of one number, and how many there are.
#[derive(Clone, Copy)]
pub(crate) struct Top {
    pub(crate) first: usize,
    pub(crate) last: usize,
    pub(crate) count: usize,
    /// The place that came into it most recently. It may have left since.
    pub(crate) recent: usize,
}

/// A top, and its index in the table.
#[derive(Clone, Copy)]
pub(crate) struct FoundTop {
    pub(crate) at: usize,
    pub(crate) top: Top,
}

/// The top of the list of this number, in one look.
pub(crate) fn top_of(tops: &IndexMap<u64, Top>, number: u64) -> Option<FoundTop>
    ensures top { option_map (λ f. f.top) result ≡ get nat_eq tops.now number }
    ensures there { IfSome result (λ f. slice_get tops.now.entries f.at ≡ Some (number, f.top)) }
{
    let (at, _, top) = tops.get_full(&number)?;
    Some(FoundTop { at, top: *top })
}

/// The top of a list once this place, which was not in it, is, between these.
pub(crate) fn grown(
    place: usize,
    before: Option<usize>,
    after: Option<usize>,
    found: Option<FoundTop>,
) -> Top
    requires small { IfSome found (λ f. f.top.count < 2 ^ 63) }
    ensures { result ≡ grown_top place before after (option_map (λ f. f.top) found) }
{
    match found {
        None => Top {
            first: place,
            last: place,
            count: 1,
            recent: place,
        },
        Some(found) => Top {
            first: if before.is_none() {
                place
            } else {
                found.top.first
            },
            last: if after.is_none() {
                place
            } else {
                found.top.last
            },
            count: found.top.count + 1,
            recent: place,
        },
    }
}

/// The top of a list once it has lost this place, which was between these; none where it is empty.
pub(crate) fn shrunk(
    place: usize,
    before: Option<usize>,
    after: Option<usize>,
    top: Top,
) -> Option<Top>
    requires some { 0 < top.count }
    ensures { result ≡ shrunk_top place before after top }
{
    if top.count == 1 {
        return None;
    }
    Some(Top {
        first: if top.first == place {
            after.unwrap_or(place)
        } else {
            top.first
        },
        last: if top.last == place {
            before.unwrap_or(place)
        } else {
            top.last
        },
        count: top.count - 1,
        recent: top.recent,
    })
}

/// Writes the top at the index where one was found.
fn write(tops: &mut IndexMap<u64, Top>, number: u64, found: FoundTop, top: Top)
    requires there { slice_get tops.old.entries found.at ≡ Some (number, found.top) }
    ensures top { (k : ℕ) → get nat_eq tops.new k ≡ cond (nat_eq number k) (Some top) (get nat_eq tops.old k) }
    ensures room { spare tops.old ≤ spare tops.new }
{
    if let Some(here) = tops.get_index_mut(found.at) {
        *here = top;
    }
}

/// Gives this number, whose top was found if there is one, another top.
pub(crate) fn put_top(tops: &mut IndexMap<u64, Top>, number: u64, found: Option<FoundTop>, top: Top)
    requires there { IfSome found (λ f. slice_get tops.old.entries f.at ≡ Some (number, f.top)) }
    requires room { 0 < spare tops.old }
    ensures top { (k : ℕ) → get nat_eq tops.new k ≡ cond (nat_eq number k) (Some top) (get nat_eq tops.old k) }
    ensures room { spare tops.old ≤ spare tops.new + 1 }
{
    match found {
        None => {
            tops.insert(number, top).unwrap();
        }
        Some(found) => write(tops, number, found, top),
    }
}

/// Gives this number, whose top was found, another top or none.
pub(crate) fn set_top(tops: &mut IndexMap<u64, Top>, number: u64, found: FoundTop, top: Option<Top>)
    requires there { slice_get tops.old.entries found.at ≡ Some (number, found.top) }
    ensures top { (k : ℕ) → get nat_eq tops.new k ≡ cond (nat_eq number k) top (get nat_eq tops.old k) }
    ensures room { spare tops.old ≤ spare tops.new }
{
    match top {
        None => {
            tops.swap_remove_index(found.at);
        }
        Some(top) => write(tops, number, found, top),
    }
}
