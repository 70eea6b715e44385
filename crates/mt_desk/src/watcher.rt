//! Watchers, which take from their own queues without the lock.
ghost use Rattle.std.specs.Prelude.{◌≡◌, ◌≤◌, [], ◌∷◌, ◌++◌, length, IfSome, IfNone};
ghost use Rattle.std.specs.Arc.{arc_value};
ghost use Rattle.mt_events.specs.Following.{IsRun};

use crate::lines::Naming;
use mt_events::opening::Opening;
use mt_events::post::Post;
use mt_floor::watch::WatchKey;
use mt_queue::receiver::Receiver;
use std::marker::{Model, PhantomData};
use std::sync::{Arc, Wait};

/// A watcher of the desk of this name. `Desk::close` ends it.
#[derive(Drop)]
pub struct Watcher<J: Naming> {
    pub(crate) key: WatchKey,
    pub(crate) place: usize,
    pub(crate) half: Receiver,
    pub(crate) of: PhantomData<J>,
}

impl<J: Naming> Model for Watcher<J> {
    ghost use Rattle.mt_desk.specs.Calls.{WatcherView};
    ghost use Rattle.mt_desk.specs.Places.{IsWatcher};

    ghost Value = { WatcherView };

    ghost view = { λ w. record { key = w.key; place = w.place; half = w.half } };

    ghost invariant = { λ w. IsWatcher J.lines w.key w.place w.half };
}

impl<J: Naming> Watcher<J> {
    /// What it found when it began: the number and the table of each namespace that it follows.
    pub fn opening(&self) -> &Opening
        ensures { result.now ≡ self.now.half.opening }
    {
        self.half.opening()
    }

    /// Takes the next post that was sent to it. All that it took is, from the opening on, posts of the namespaces that
    /// it follows, with numbers that go up by one.
    ///
    /// `None` where none was waiting at one moment of the call, and so not before as many posts were taken as the last
    /// meeting said were sent; nothing has changed then. Takes no memory. It may wait for a step of the thread that
    /// sends, and after 2^64 - 1 posts it waits for ever.
    pub fn take<R: Wait>(&mut self, rt: &R) -> Option<Arc<Post>>
        ensures some { IfSome result (λ x. self.new ≡ record self.old { half = record self.old.half { taken = self.old.half.taken ++ arc_value x ∷ [] } }) }
        ensures none { IfNone result ((self.new ≡ self.old) × (self.old.half.told ≤ length self.old.half.taken)) }
        ensures run { IsRun self.new.half.opening self.new.half.taken }
    {
        self.half.pop(rt)
    }
}
