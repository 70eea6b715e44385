//! The watchers of a floor, by rising key.
ghost use Rattle.std.specs.Prelude.{◌≡◌, ◌==◌, ◌<◌, ◌≤◌, ◌+◌, ◌^◌, not, cond, nat_le, map, drop, length, set, slice_get, IfSome, Some};
ghost use Rattle.std.specs.List.{position_from, filter};
ghost use Rattle.std.specs.Option.{option_map};
ghost use Rattle.std.specs.Arc.{arc_value};
ghost use Rattle.mt_floor.specs.Watcher.{Due};
ghost use Rattle.mt_floor.specs.Rows.{FloorRowView, with_post, lagged, row_after_stop, next_taken};

use crate::due::{DuePost, drop_due};
use crate::row::FloorRow;
use crate::watch::WatchKey;
use mt_events::post::Post;
use std::collections::VecDeque;
use std::sync::Arc;

/// The index of the watcher of a key.
pub(crate) fn place_of(rows: &[FloorRow], key: WatchKey) -> Option<usize>
    ensures value { result ≡ position_from (λ (r : FloorRowView). r.key == key) 0 rows.now }
    ensures within { IfSome result (λ place. place < length rows.now) }
{
    rows.iter().position(|row| row.key() == key)
}

/// The watcher at this place is sent nothing more, since its queue is full.
pub(crate) fn lag_at(rows: &mut Vec<FloorRow>, place: usize)
    requires { place < length rows.old.items }
    ensures { (row : FloorRowView) → slice_get rows.old.items place ≡ Some row → rows.new.items ≡ set rows.old.items place (lagged row) }
{
    let row = &mut rows[place];
    row.lag();
}

/// The watcher at this place is sent a post.
pub(crate) fn push_at(rows: &mut Vec<FloorRow>, place: usize, post: Arc<Post>)
    requires place { place < length rows.old.items }
    requires room { IfSome (slice_get rows.old.items place) (λ row. 0 < row.room) }
    ensures { (row : FloorRowView) → slice_get rows.old.items place ≡ Some row → rows.new.items ≡ set rows.old.items place (with_post row (arc_value post)) }
{
    let row = &mut rows[place];
    row.push(post);
}

/// Sends the first due post to the watcher at this place, the one with the key to which it is due. If its queue holds
/// this many posts, it lags, and nothing is due to it any more. Answers whether it lags. Takes no memory.
pub(crate) fn post_at(
    rows: &mut Vec<FloorRow>,
    place: usize,
    due: &mut VecDeque<DuePost>,
    key: WatchKey,
    capacity: usize,
) -> bool
    requires place { place < length rows.old.items }
    requires room { IfSome (slice_get rows.old.items place) (λ row. capacity ≤ length row.waiting + row.room) }
    ensures full { (row : FloorRowView) → slice_get rows.old.items place ≡ Some row → result ≡ nat_le capacity (length row.waiting) }
    ensures rows { (row : FloorRowView) (d : Due) → slice_get rows.old.items place ≡ Some row → slice_get due.old.items 0 ≡ Some d → rows.new.items ≡ set rows.old.items place (cond result (lagged row) (with_post row d.post)) }
    ensures due { due.new.items ≡ cond result (filter (λ e. not (e.key == key)) due.old.items) (drop 1 due.old.items) }
{
    if rows[place].is_full(capacity) {
        lag_at(rows, place);
        drop_due(due, key);
        return true;
    }
    if let Some(first) = due.pop_front() {
        push_at(rows, place, first.into_post());
    }
    false
}

/// The watcher at this place gives away the next post that was sent to it, if there is one.
pub(crate) fn take_at(rows: &mut Vec<FloorRow>, place: usize) -> Option<Arc<Post>>
    requires place { place < length rows.old.items }
    requires count { IfSome (slice_get rows.old.items place) (λ row. row.taken + 1 < 2 ^ 64) }
    ensures rows { (row : FloorRowView) → slice_get rows.old.items place ≡ Some row → rows.new.items ≡ set rows.old.items place (next_taken row.waiting row) }
    ensures post { (row : FloorRowView) → slice_get rows.old.items place ≡ Some row → option_map (λ p. arc_value p) result ≡ slice_get row.waiting 0 }
    ensures length { length rows.new.items ≡ length rows.old.items }
{
    let row = &mut rows[place];
    row.take()
}

/// All watchers are sent nothing more, since the server has stopped.
pub(crate) fn end_all(rows: &mut Vec<FloorRow>)
    ensures { rows.new.items ≡ map row_after_stop rows.old.items }
{
    for row in rows.iter_mut() {
        row.end();
    }
}
