//! The half of a line that takes.
ghost use Rattle.std.specs.Prelude.{◌≡◌, ◌≤◌, [], ◌∷◌, ◌++◌, length, IfSome, IfNone};
ghost use Rattle.std.specs.Arc.{arc_value};
ghost use Rattle.crossbeam_queue.specs.Passes.{view, IsSamePass};
ghost use Rattle.mt_events.specs.Following.{IsRun};
ghost use Rattle.mt_queue.specs.Kept.{IsTaking};

use crate::rule::{Item, Pop, Queue, QueuePass};
use mt_events::opening::Opening;
use std::marker::Model;
use std::sync::{Arc, Wait};

/// The half of a line that takes. It belongs to one thread, and keeps what the watcher found.
#[derive(Drop)]
pub struct Receiver {
    pub(crate) queue: Arc<Queue>,
    pub(crate) pass: QueuePass,
    pub(crate) opening: Opening,
    pub(crate) count: u64,
}

impl Model for Receiver {
    ghost use Rattle.std.specs.Arc.{arc_value};
    ghost use Rattle.mt_queue.specs.Halves.{ReceiverView};
    ghost use Rattle.mt_queue.specs.Kept.{IsReceiver, receiver_view};

    ghost Value = { ReceiverView };

    ghost view = { λ r. receiver_view r.pass };

    ghost invariant = { λ r. IsReceiver (arc_value r.queue) r.pass r.opening r.count };
}

impl Receiver {
    /// What the watcher found when the line was opened.
    pub fn opening(&self) -> &Opening
        ensures { result.now ≡ self.now.opening }
    {
        &self.opening
    }

    /// Takes the next post that was sent. What was taken since the opening are posts of the namespaces that the opening
    /// names, with numbers that go up by one.
    ///
    /// `None` comes only once as many posts were taken as the last meeting said were sent, and changes nothing; no
    /// clause says what the line holds at any moment. Takes no memory. It may wait for a step of the sender, and after
    /// 2^64 - 1 posts it waits forever.
    pub fn pop<R: Wait>(&mut self, rt: &R) -> Option<Item>
        ensures some { IfSome result (λ x. self.new ≡ record self.old { taken = self.old.taken ++ arc_value x ∷ [] }) }
        ensures none { IfNone result ((self.new ≡ self.old) × (self.old.told ≤ length self.old.taken)) }
        ensures run { IsRun self.new.opening self.new.taken }
    {
        if self.count == u64::MAX {
            for _ in rt.forever() {}
        }
        let post = pop_on(rt, &self.queue, &mut self.pass, &self.opening)?;
        self.count += 1;
        Some(post)
    }
}

/// The step of the queue that `pop` is.
fn pop_on<R: Wait>(rt: &R, queue: &Queue, pass: &mut QueuePass, _opening: &Opening) -> Option<Item>
    requires { IsTaking queue.now pass.old _opening.now }
    ensures pass { IsTaking queue.now pass.new _opening.now × IsSamePass pass.old pass.new }
    ensures some { IfSome result (λ x. view pass.new ≡ record (view pass.old) { taken = (view pass.old).taken ++ arc_value x ∷ [] }) }
    ensures none { IfNone result ((view pass.new ≡ view pass.old) × ((view pass.old).told ≤ length (view pass.old).taken)) }
{
    match queue.pop_as::<Pop, R>(rt, pass) {
        Some(post) => Some(post),
        None => None,
    }
}
