//! Lines that are not in use.
ghost use Rattle.std.specs.Prelude.{◌≡◌, ℕ, ◌<◌, ◌≤◌, true, [], IfOk, IsOkUnless};
ghost use Rattle.crossbeam_queue.specs.Passes.{view, IsPassOf, IsSamePass};
ghost use Rattle.mt_queue.specs.Openings.{tagged};
ghost use Rattle.mt_queue.specs.PassViews.{whole, sending, taking};
ghost use Rattle.mt_queue.specs.Kept.{IsTaking};

use crate::receiver::Receiver;
use crate::rule::{Contradiction, HandOver, Opened, Queue, QueuePass, Reopen, TwoReceivers};
use crate::sender::Sender;
use mt_events::opening::Opening;
use mt_skel::fault::Fault;
use std::alloc::Global;
use std::marker::{Brand, Model};
use std::sync::Arc;

/// A line that is not in use. Its queue is empty.
#[derive(Drop)]
pub struct Line {
    pub(crate) sends: Arc<Queue>,
    pub(crate) takes: Arc<Queue>,
    pub(crate) pass: QueuePass,
}

impl Model for Line {
    ghost use Rattle.std.specs.Arc.{arc_value};
    ghost use Rattle.mt_queue.specs.Halves.{LineView};
    ghost use Rattle.mt_queue.specs.Kept.{IsIdle, line_view};

    ghost Value = { LineView };

    ghost view = { λ l. line_view (arc_value l.sends) l.pass };

    ghost invariant = { λ l. IsIdle (arc_value l.sends) (arc_value l.takes) l.pass };
}

/// Makes a line for `capacity` posts, 1 to 16,384.
///
/// Everything that the line ever needs is made here: no other call of this crate takes memory.
pub fn make_line(alloc: Global, capacity: usize) -> Result<Line, Fault>
    requires { (0 < capacity) × (capacity ≤ 16384) }
    ensures line { IfOk result (λ l. l.capacity ≡ capacity) }
    ensures memory { IsOkUnless result Fault.NoMemory }
{
    let (queue, pass) = Queue::ruled(alloc, capacity)?;
    let sends = Arc::new(alloc, queue)?;
    let takes = Arc::try_clone(&sends)?;
    Ok(Line { sends, takes, pass })
}

impl Line {
    /// The line's two halves, for a watcher that found this. Nothing is sent or taken yet. Takes no memory.
    ///
    /// `tag` is a number that both halves show to contracts, so that a caller can tell the openings of one line apart.
    pub fn open(self, opening: Opening) -> (Sender, Receiver)
        ghost tag: { ℕ }
        ensures sender { result.0 ≡ record { line = self.line; opening = opening; tag = tag; capacity = self.capacity; sent = []; met = 0 } }
        ensures receiver { result.1 ≡ record { line = self.line; opening = opening; tag = tag; taken = []; told = 0 } }
    {
        let Line {
            sends,
            takes,
            mut pass,
        } = self;
        let capacity = sends.capacity();
        let other = reopen::<Brand>(&sends, &mut pass, &opening, capacity);
        let sender = Sender {
            queue: sends,
            pass,
            count: 0,
        };
        let receiver = Receiver {
            queue: takes,
            pass: other,
            opening,
            count: 0,
        };
        (sender, receiver)
    }
}

/// Both lists begin anew under this opening: the pass becomes the sender's, and the receiver's is answered.
fn reopen<N: Opened>(
    queue: &Queue,
    pass: &mut QueuePass,
    _opening: &Opening,
    _capacity: usize,
) -> QueuePass
    requires queue { IsPassOf queue.now pass.old }
    requires view { ((view pass.old).pushes ≡ true) × ((view pass.old).pops ≡ true) × ((view pass.old).sent ≡ (view pass.old).taken) }
    requires name { (_opening.now ≡ N.opening) × (_capacity ≡ N.capacity) }
    ensures queue { IsSamePass pass.old pass.new × IsPassOf queue.now result }
    ensures sender { view pass.new ≡ sending (whole (tagged _opening.now N.tag) _capacity) }
    ensures receiver { view result ≡ taking (whole (tagged _opening.now N.tag) _capacity) }
{
    queue.another::<Reopen<N>>(pass)
}

/// A line that is not in use has no receiver, so nobody can ever call this. A caller whose types do not say to which
/// line a receiver belongs calls it in the branch where both seem to be there, which shows that this branch is never
/// reached.
pub fn has_no_receiver(line: &mut Line, receiver: &mut Receiver)
    requires { line.old.line ≡ receiver.old.line }
    ensures { ⊥ }
{
    clash(
        &line.sends,
        &mut line.pass,
        &mut receiver.pass,
        &receiver.opening,
    );
}

/// What would follow if a queue had two passes that may pop.
fn clash(queue: &Queue, pass: &mut QueuePass, other: &mut QueuePass, _opening: &Opening)
    requires line { IsPassOf queue.now pass.old × ((view pass.old).pops ≡ true) }
    requires receiver { IsTaking queue.now other.old _opening.now }
    ensures { ⊥ }
{
    let moved = queue.another::<HandOver>(other);
    queue.absorb::<TwoReceivers>(pass, moved);
    queue.learn_as::<Contradiction>(pass);
}
