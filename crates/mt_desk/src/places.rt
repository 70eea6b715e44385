//! The places of a desk: at each a line that is not in use, or the row of a watcher.
ghost use Rattle.std.specs.Prelude.{◌≡◌, [], ◌∷◌, map, slice_get, vec_capacity, true, false, Some, IfSome, IfNone};
ghost use Rattle.std.specs.List.{list_any, AllByRecursion};
ghost use Rattle.mt_desk.specs.Places.{IsParked, IsPlace, IsParkedAt, OpensAt, MeetsAt, ClosesAt, ended_slot};
ghost use Rattle.mt_desk.specs.Sending.{slot_follows, slot_hears, AreDue, SendsAt, SendsAll};
ghost use Rattle.mt_desk.specs.declared.places.Slot.{Slot};

use crate::due::DuePost;
use crate::row::PlacedRow;
use mt_events::opening::{Opening, Scope};
use mt_events::post::Post;
use mt_events::shared::SharedPosts;
use mt_floor::watch::{Meeting, WatchKey};
use mt_queue::Item;
use mt_queue::line::{Line, has_no_receiver};
use mt_queue::receiver::Receiver;
use std::mem;
use std::sync::Wait;

/// What stands at a place. It is away only while it is changed.
#[derive(Drop)]
pub(crate) enum Slot {
    Parked(Line),
    Used(PlacedRow),
    Away,
}

impl Slot {
    /// Whether a line is not in use.
    fn is_parked(&self) -> bool
        ensures yes { result ≡ true → IsParked self.now }
        ensures no { result ≡ false → IsParked self.now → ⊥ }
    {
        match self {
            Slot::Parked(_) => true,
            Slot::Used(_) => false,
            Slot::Away => false,
        }
    }

    /// Whether a post is due to the row here.
    pub(crate) fn follows(&self, post: &Post) -> bool
        ensures { result ≡ slot_follows post.now self.now }
    {
        match self {
            Slot::Used(row) => row.follows(post),
            Slot::Parked(_) => false,
            Slot::Away => false,
        }
    }

    /// Whether the row here is open.
    fn hears(&self) -> bool
        ensures { result ≡ slot_hears self.now }
    {
        match self {
            Slot::Used(row) => row.hears(),
            Slot::Parked(_) => false,
            Slot::Away => false,
        }
    }

    /// The row here is sent nothing any more.
    fn end(&mut self)
        ensures { self.new ≡ ended_slot self.old }
    {
        match self {
            Slot::Used(row) => row.end(),
            Slot::Parked(_) => (),
            Slot::Away => (),
        }
    }
}

/// The first place with a line that is not in use.
pub(crate) fn parked_place(slots: &[Slot]) -> Option<usize>
    ensures some { IfSome result (λ place. (s : Slot) × (slice_get slots.now place ≡ Some s) × IsParked s) }
    ensures none { IfNone result (AllByRecursion (λ s. IsParked s → ⊥) slots.now) }
{
    slots.iter().position(|slot| slot.is_parked())
}

/// Whether a row at one of these places is open, so that somebody asks for posts.
pub(crate) fn is_heard(slots: &[Slot]) -> bool
    ensures { result ≡ list_any slot_hears slots.now }
{
    'slots: for slot in slots {
        if slot.hears() {
            return true;
        }
    }
    false
}

/// The line at this place, which is not in use, gets the row of a watcher that begins; the watcher's half is answered.
/// `left` has room for as many posts as the line may hold.
pub(crate) fn open_at(
    slots: &mut Vec<Slot>,
    place: usize,
    key: WatchKey,
    scope: Scope,
    since: usize,
    opening: Opening,
    left: Vec<Item>,
) -> Receiver
    requires parked { IsParkedAt slots.old.items place (vec_capacity left) }
    requires empty { left.items ≡ [] }
    ensures { OpensAt key scope since opening slots.old.items place slots.new.items result }
{
    let slot = &mut slots[place];
    let Slot::Parked(line) = mem::replace(slot, Slot::Away) else {
        unreachable!()
    };
    let (row, half) = PlacedRow::new(line, key, scope, since, opening, left);
    *slot = Slot::Used(row);
    half
}

/// The row at this place meets its watcher.
pub(crate) fn meet_at(slots: &mut Vec<Slot>, place: usize, half: &mut Receiver) -> Meeting
    requires { IsPlace slots.old.items place half.old.line }
    ensures { MeetsAt slots.old.items place half.old slots.new.items half.new result }
{
    match &mut slots[place] {
        Slot::Used(row) => row.meet(half),
        Slot::Parked(line) => {
            has_no_receiver(line, half);
            unreachable!()
        }
        Slot::Away => unreachable!(),
    }
}

/// The row at this place goes, and its line is parked. What was sent and not taken is answered.
pub(crate) fn close_at<R: Wait>(
    rt: &R,
    slots: &mut Vec<Slot>,
    place: usize,
    mut half: Receiver,
) -> SharedPosts
    requires { IsPlace slots.old.items place half.line }
    ensures { ClosesAt slots.old.items place half slots.new.items result }
{
    let slot = &mut slots[place];
    match mem::replace(slot, Slot::Away) {
        Slot::Used(row) => {
            let (line, posts) = row.close(rt, half);
            *slot = Slot::Parked(line);
            posts
        }
        Slot::Parked(mut line) => {
            has_no_receiver(&mut line, &mut half);
            unreachable!()
        }
        Slot::Away => unreachable!(),
    }
}

/// Sends a post to the row that it is due to.
fn send_at<R: Wait>(rt: &R, slots: &mut Vec<Slot>, due: DuePost)
    requires { AreDue slots.old.items (due ∷ []) }
    ensures { SendsAt due slots.old.items slots.new.items }
{
    let (place, post) = due.into_parts();
    let Slot::Used(row) = &mut slots[place] else {
        unreachable!()
    };
    row.send(rt, post);
}

/// Sends all that is due, one post after another. A row that lags gets nothing of what is left.
pub(crate) fn send_all<R: Wait>(rt: &R, slots: &mut Vec<Slot>, due: Vec<DuePost>)
    requires { AreDue slots.old.items due.items }
    ensures { SendsAll due.items slots.old.items slots.new.items }
{
    'due: for next in due {
        send_at(rt, slots, next);
    }
}

/// All rows are sent nothing any more, since the server has stopped.
pub(crate) fn end_all(slots: &mut Vec<Slot>)
    ensures { slots.new.items ≡ map ended_slot slots.old.items }
{
    'slots: for slot in slots.iter_mut() {
        slot.end();
    }
}
