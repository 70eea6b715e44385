//! The half of a line that sends.
ghost use Rattle.std.specs.Prelude.{◌≡◌, ◌+◌, ◌≤◌, [], ◌∷◌, ◌++◌, length, OnOk, IfErr};
ghost use Rattle.std.specs.Arc.{arc_value};
ghost use Rattle.crossbeam_queue.specs.Passes.{view, IsSamePass};
ghost use Rattle.mt_events.specs.Following.{IsRun};
ghost use Rattle.mt_queue.specs.Kept.{IsSending};

use crate::rule::{Item, Push, Queue, QueuePass};
use std::marker::Model;
use std::sync::{Arc, Wait};

/// The half of a line that sends. It belongs to one thread.
#[derive(Drop)]
pub struct Sender {
    pub(crate) queue: Arc<Queue>,
    pub(crate) pass: QueuePass,
    pub(crate) count: u64,
}

impl Model for Sender {
    ghost use Rattle.std.specs.Arc.{arc_value};
    ghost use Rattle.mt_queue.specs.Halves.{SenderView};
    ghost use Rattle.mt_queue.specs.Kept.{IsSender, sender_view};

    ghost Value = { SenderView };

    ghost view = { λ s. sender_view s.pass };

    ghost invariant = { λ s. IsSender (arc_value s.queue) s.pass s.count };
}

/// A post was not sent, and is given back.
#[derive(Drop)]
pub struct Full {
    /// The post that was not sent.
    pub post: Item,
}

impl Sender {
    /// Sends a post: it is the next one that the receiver takes after those that were sent before. The posts, including
    /// this one, are of the namespaces that the opening names, and have numbers that go up by one from there.
    ///
    /// `Full` gives the post back, and nothing was sent. It comes only once the posts sent exceed those that the last
    /// meeting said were taken by as many as the line may hold; no clause says what the line holds at any moment. Takes
    /// no memory. It may wait for a step of the receiver, and after 2^64 - 1 posts it waits forever.
    pub fn push<R: Wait>(&mut self, rt: &R, post: Item) -> Result<(), Full>
        requires { IsRun self.old.opening (self.old.sent ++ arc_value post ∷ []) }
        ensures ok { OnOk result (self.new ≡ record self.old { sent = self.old.sent ++ arc_value post ∷ [] }) }
        ensures full { IfErr result (λ e. (arc_value e.post ≡ arc_value post) × (self.new ≡ self.old) × (self.old.met + self.old.capacity ≤ length self.old.sent)) }
    {
        if self.count == u64::MAX {
            for _ in rt.forever() {}
        }
        push_on(rt, &self.queue, &mut self.pass, post)?;
        self.count += 1;
        Ok(())
    }
}

/// The step of the queue that `push` is.
fn push_on<R: Wait>(rt: &R, queue: &Queue, pass: &mut QueuePass, post: Item) -> Result<(), Full>
    requires pass { IsSending queue.now pass.old }
    requires run { IsRun (view pass.old).opening.opening ((view pass.old).sent ++ arc_value post ∷ []) }
    ensures pass { IsSending queue.now pass.new × IsSamePass pass.old pass.new }
    ensures ok { OnOk result (view pass.new ≡ record (view pass.old) { sent = (view pass.old).sent ++ arc_value post ∷ [] }) }
    ensures full { IfErr result (λ e. (arc_value e.post ≡ arc_value post) × (view pass.new ≡ view pass.old) × ((view pass.old).met + (view pass.old).capacity ≤ length (view pass.old).sent)) }
{
    match queue.push_as::<Push, R>(rt, pass, post) {
        Ok(()) => Ok(()),
        Err(post) => Err(Full { post }),
    }
}
