//! The row of a watcher: what a desk keeps of it.
ghost use Rattle.std.specs.Prelude.{◌≡◌, ◌≤◌, ◌++◌, List, [], ◌∷◌, length, vec_capacity};
ghost use Rattle.std.specs.Arc.{arc_value};
ghost use Rattle.mt_events.specs.Posts.{PostView};
ghost use Rattle.mt_queue.specs.PassViews.{Item};
ghost use Rattle.mt_desk.specs.Calls.{in_time_after};
ghost use Rattle.mt_desk.specs.Rows.{IsBegunRow, MeetsRow, ClosesRow, SendsRow, MayBeSent, desk_row_follows, ended_row};
ghost use Rattle.mt_floor.specs.Watcher.{is_open};

use mt_events::opening::{Opening, Scope};
use mt_events::post::Post;
use mt_events::shared::SharedPosts;
use mt_floor::watch::{Meeting, Phase, WatchKey};
use mt_queue::Item;
use mt_queue::line::Line;
use mt_queue::meeting::{finish, meet};
use mt_queue::receiver::Receiver;
use mt_queue::sender::Sender;
use mt_queue::tail::Tail;
use std::marker::{Brand, Model};
use std::sync::{Arc, Wait};

/// A watcher's row. `met_in_time` is how many posts it had taken at its last meeting, but stays what it was when the row
/// began to lag; `left` has room for what its close will answer.
#[derive(Drop)]
pub(crate) struct PlacedRow {
    key: WatchKey,
    scope: Scope,
    since: usize,
    sender: Sender,
    met_in_time: u64,
    phase: Phase,
    left: Vec<Item>,
}

impl Model for PlacedRow {
    ghost use Rattle.std.specs.Prelude.{vec_capacity};
    ghost use Rattle.mt_desk.specs.Rows.{PlacedRowView, row_view, HasSender};

    ghost Value = { PlacedRowView };

    ghost view = { λ r. row_view r.key r.scope r.since r.sender r.met_in_time r.phase };

    ghost invariant = { λ r. HasSender r.key r.sender r.left.items (vec_capacity r.left) };
}

/// Tells the number of an opening.
trait Tagged {
    ghost use Rattle.std.specs.Prelude.{ℕ};

    ghost tag: { ℕ };
}

impl Tagged for Brand {
    ghost tag = { 0 };
}

/// A line's two halves, for a watcher of this key that found this.
fn open_line<K: Tagged>(line: Line, opening: Opening, _key: WatchKey) -> (Sender, Receiver)
    requires { _key ≡ K.tag }
    ensures sender { result.0 ≡ record { line = line.line; opening = opening; tag = _key; capacity = line.capacity; sent = []; met = 0 } }
    ensures receiver { result.1 ≡ record { line = line.line; opening = opening; tag = _key; taken = []; told = 0 } }
{
    line.open(opening)
}

/// What was taken in time, once a row was met.
fn in_time_after(phase: Phase, before: u64, taken: u64) -> u64
    ensures { result ≡ in_time_after phase before taken }
{
    match phase {
        Phase::Open | Phase::Ended => taken,
        Phase::Lagged => before,
    }
}

/// Takes what is left, into a list with room for it; and the line.
fn drain<R: Wait>(rt: &R, mut tail: Tail, mut left: Vec<Item>) -> (Line, SharedPosts)
    requires left { (rest : List PostView) × (tail.sent ≡ tail.taken ++ rest) × (length rest ≤ vec_capacity left) }
    requires empty { left.items ≡ [] }
    ensures line { result.0 ≡ record { line = tail.line; capacity = tail.capacity } }
    ensures posts { tail.sent ≡ tail.taken ++ result.1 }
{
    'left: for _ in rt.forever() {
        match tail.next(rt) {
            Some(post) => left.push_reserved(post),
            None => return (tail.line(), SharedPosts::new(left)),
        }
    }
    unreachable!()
}

impl PlacedRow {
    /// The row of a watcher that begins on this line, and the watcher's half. `left` has room for as many posts as the
    /// line may hold.
    pub(crate) fn new(
        line: Line,
        key: WatchKey,
        scope: Scope,
        since: usize,
        opening: Opening,
        left: Vec<Item>,
    ) -> (PlacedRow, Receiver)
        requires empty { left.items ≡ [] }
        requires room { line.capacity ≤ vec_capacity left }
        ensures { IsBegunRow key scope since opening line result.0 result.1 }
    {
        let (sender, half) = open_line::<Brand>(line, opening, key);
        let row = PlacedRow {
            key,
            scope,
            since,
            sender,
            met_in_time: 0,
            phase: Phase::Open,
            left,
        };
        (row, half)
    }

    /// The row and its watcher learn how far the other is.
    pub(crate) fn meet(&mut self, half: &mut Receiver) -> Meeting
        requires { self.old.line ≡ half.old.line }
        ensures { MeetsRow self.old half.old self.new half.new result }
    {
        let (posted, taken) = meet(&mut self.sender, half);
        self.met_in_time = in_time_after(self.phase, self.met_in_time, taken);
        Meeting {
            posted,
            taken,
            state: self.phase,
        }
    }

    /// The line, and what was sent and not taken.
    pub(crate) fn close<R: Wait>(self, rt: &R, half: Receiver) -> (Line, SharedPosts)
        requires { self.line ≡ half.line }
        ensures { ClosesRow self half result.0 result.1 }
    {
        let PlacedRow { sender, left, .. } = self;
        drain(rt, finish(sender, half), left)
    }

    /// Whether it is open, so that its watcher asks for posts.
    pub(crate) fn hears(&self) -> bool
        ensures { result ≡ is_open self.now.row.phase }
    {
        matches!(self.phase, Phase::Open)
    }

    /// Whether a post is due to it.
    pub(crate) fn follows(&self, post: &Post) -> bool
        ensures { result ≡ desk_row_follows post.now self.now.row }
    {
        self.phase.follows(self.scope, post)
    }

    /// Sends a post if the row is open; where its queue is full, it lags.
    pub(crate) fn send<R: Wait>(&mut self, rt: &R, post: Item)
        requires { MayBeSent self.old.row (arc_value post ∷ []) }
        ensures { SendsRow self.old (arc_value post) self.new }
    {
        if matches!(self.phase, Phase::Open) && self.sender.push(rt, post).is_err() {
            self.phase = Phase::Lagged;
        }
    }

    /// Sends it nothing any more, since the server has stopped.
    pub(crate) fn end(&mut self)
        ensures { self.new ≡ ended_row self.old }
    {
        self.phase.end();
    }
}
