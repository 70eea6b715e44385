//! What is left to be taken once a line's halves were put together.
ghost use Rattle.std.specs.Prelude.{◌≡◌, List, [], ◌∷◌, ◌++◌, IfSome, IfNone};
ghost use Rattle.std.specs.Arc.{arc_value};
ghost use Rattle.crossbeam_queue.specs.Passes.{view, IsSamePass};
ghost use Rattle.mt_events.specs.Posts.{PostView};
ghost use Rattle.mt_queue.specs.Kept.{IsLeft};
ghost use Rattle.mt_queue.specs.Steps.{IsPoppedLeft};

use crate::line::Line;
use crate::rule::{Item, PopLeft, Queue, QueuePass};
use std::marker::Model;
use std::sync::{Arc, Wait};

/// A line whose halves were put together. Posts may be left in it.
#[derive(Drop)]
pub struct Tail {
    pub(crate) sends: Arc<Queue>,
    pub(crate) takes: Arc<Queue>,
    pub(crate) pass: QueuePass,
}

impl Model for Tail {
    ghost use Rattle.std.specs.Arc.{arc_value};
    ghost use Rattle.mt_queue.specs.Halves.{TailView};
    ghost use Rattle.mt_queue.specs.Kept.{IsLeft, tail_view};

    ghost Value = { TailView };

    ghost view = { λ t. tail_view (arc_value t.sends) t.pass };

    ghost invariant = { λ t. IsLeft (arc_value t.sends) (arc_value t.takes) t.pass };
}

impl Tail {
    /// Takes the next post that was sent. `None` exactly once all are taken, which changes nothing. Takes no memory.
    pub fn next<R: Wait>(&mut self, rt: &R) -> Option<Item>
        ensures some { IfSome result (λ x. (self.new ≡ record self.old { taken = self.old.taken ++ arc_value x ∷ [] }) × ((rest : List PostView) × (self.old.sent ≡ (self.old.taken ++ arc_value x ∷ []) ++ rest))) }
        ensures none { IfNone result ((self.new ≡ self.old) × (self.old.sent ≡ self.old.taken)) }
    {
        next_on(rt, &self.sends, &mut self.pass)
    }

    /// The line, to be opened again. `next` gave `None`: everything that was sent is taken. Takes no memory.
    pub fn line(self) -> Line
        requires { self.sent ≡ self.taken }
        ensures { result ≡ record { line = self.line; capacity = self.capacity } }
    {
        let Tail { sends, takes, pass } = self;
        Line { sends, takes, pass }
    }
}

/// The step of the queue that `next` is.
fn next_on<R: Wait>(rt: &R, queue: &Queue, pass: &mut QueuePass) -> Option<Item>
    requires { IsLeft queue.now queue.now pass.old }
    ensures pass { IsLeft queue.now queue.now pass.new × IsSamePass pass.old pass.new }
    ensures some { IfSome result (λ x. IsPoppedLeft (view pass.old) x (view pass.new)) }
    ensures none { IfNone result ((view pass.new ≡ view pass.old) × ((view pass.old).sent ≡ (view pass.old).taken)) }
{
    match queue.pop_as::<PopLeft, R>(rt, pass) {
        Some(post) => Some(post),
        None => None,
    }
}
