//! What a floor keeps of a watcher.
ghost use Rattle.std.specs.Prelude.{◌≡◌, ◌+◌, ◌<◌, ◌^◌, nat_le, length, slice_get, IfOk, IsOkUnless, MatchOption, Some, None};
ghost use Rattle.std.specs.List.{list_any};
ghost use Rattle.std.specs.Option.{option_map};
ghost use Rattle.std.specs.Arc.{arc_value};
ghost use Rattle.mt_floor.specs.Watcher.{is_open};
ghost use Rattle.mt_floor.specs.Rows.{FloorRowView, new_floor_row, with_post, lagged, row_after_stop, next_taken, row_follows};

use crate::watch::{Meeting, Phase, WatchKey};
use mt_events::opening::Scope;
use mt_events::post::Post;
use mt_events::shared::SharedPosts;
use mt_skel::fault::Fault;
use std::alloc::Global;
use std::collections::VecDeque;
use std::marker::Model;
use std::sync::Arc;

/// A watcher: how many commands were accepted before it began, how many posts it has taken, and those that were
/// sent and not taken. There is room for as many posts as its queue may hold.
#[derive(Drop)]
pub(crate) struct FloorRow {
    key: WatchKey,
    scope: Scope,
    since: usize,
    taken: u64,
    queue: VecDeque<Arc<Post>>,
    phase: Phase,
}

impl Model for FloorRow {
    ghost use Rattle.std.specs.Prelude.{◌-◌, map};
    ghost use Rattle.std.specs.VecDeque.{deque_capacity, deque_len};
    ghost use Rattle.std.specs.Arc.{arc_value};
    ghost use Rattle.mt_floor.specs.Rows.{FloorRowView};

    ghost Value = { FloorRowView };

    ghost view = { λ r. record { key = r.key; scope = r.scope; since = r.since; taken = r.taken; waiting = map (λ p. arc_value p) r.queue.items; room = deque_capacity r.queue - deque_len r.queue; phase = r.phase } };
}

impl FloorRow {
    /// A watcher that begins now, with room for this many posts.
    pub(crate) fn new(
        alloc: Global,
        key: WatchKey,
        scope: Scope,
        since: usize,
        capacity: usize,
    ) -> Result<FloorRow, Fault>
        ensures row { IfOk result (λ row. row ≡ new_floor_row key scope since capacity) }
        ensures memory { IsOkUnless result Fault.NoMemory }
    {
        let queue = VecDeque::with_capacity(alloc, capacity)?;
        Ok(FloorRow {
            key,
            scope,
            since,
            taken: 0,
            queue,
            phase: Phase::Open,
        })
    }

    /// The key.
    pub(crate) fn key(&self) -> WatchKey
        ensures { result ≡ self.now.key }
    {
        self.key
    }

    /// Whether posts are still sent to it.
    pub(crate) fn phase(&self) -> Phase
        ensures { result ≡ self.now.phase }
    {
        self.phase
    }

    /// Whether a post is due to it.
    pub(crate) fn follows(&self, post: &Post) -> bool
        ensures { result ≡ row_follows post.now self.now }
    {
        self.phase.follows(self.scope, post)
    }

    /// Whether its queue holds this many posts.
    pub(crate) fn is_full(&self, capacity: usize) -> bool
        ensures { result ≡ nat_le capacity (length self.now.waiting) }
    {
        capacity <= self.queue.len()
    }

    /// How many posts were sent and not taken.
    pub(crate) fn waiting_count(&self) -> usize
        ensures { result ≡ length self.now.waiting }
    {
        self.queue.len()
    }

    /// One of the posts that were sent and not taken; the next one has index 0.
    pub(crate) fn waiting_post(&self, index: usize) -> Option<&Post>
        ensures { MatchOption result (slice_get self.now.waiting index ≡ None) (λ post. slice_get self.now.waiting index ≡ Some post.now) }
    {
        let post = self.queue.get(index)?;
        Some(post)
    }

    /// Sends it a post. Takes no memory.
    pub(crate) fn push(&mut self, post: Arc<Post>)
        requires { 0 < self.old.room }
        ensures { self.new ≡ with_post self.old (arc_value post) }
    {
        self.queue.push_back_reserved(post);
    }

    /// Sends it nothing more, since its queue is full.
    pub(crate) fn lag(&mut self)
        ensures { self.new ≡ lagged self.old }
    {
        self.phase = Phase::Lagged;
    }

    /// Sends it nothing more, since the server has stopped.
    pub(crate) fn end(&mut self)
        ensures { self.new ≡ row_after_stop self.old }
    {
        self.phase.end();
    }

    /// Gives away the next post that was sent, if there is one.
    pub(crate) fn take(&mut self) -> Option<Arc<Post>>
        requires { self.old.taken + 1 < 2 ^ 64 }
        ensures row { self.new ≡ next_taken self.old.waiting self.old }
        ensures post { option_map (λ p. arc_value p) result ≡ slice_get self.old.waiting 0 }
    {
        let post = self.queue.pop_front()?;
        self.taken += 1;
        Some(post)
    }

    /// How far it is.
    pub(crate) fn meeting(&self) -> Meeting
        requires { self.now.taken + length self.now.waiting < 2 ^ 64 }
        ensures { result ≡ record { posted = self.now.taken + length self.now.waiting; taken = self.now.taken; state = self.now.phase } }
    {
        Meeting {
            posted: self.taken + self.queue.len() as u64,
            taken: self.taken,
            state: self.phase,
        }
    }

    /// The posts that were sent and not taken. Takes no memory.
    pub(crate) fn into_posts(self) -> SharedPosts
        ensures { result ≡ self.waiting }
    {
        SharedPosts::new(self.queue.into_vec())
    }
}

/// Whether a watcher among these is open, so that somebody asks for posts.
pub(crate) fn is_heard(rows: &[FloorRow]) -> bool
    ensures { result ≡ list_any (λ (r : FloorRowView). is_open r.phase) rows.now }
{
    'rows: for row in rows {
        if matches!(row.phase, Phase::Open) {
            return true;
        }
    }
    false
}
