//! The two halves of a line together: a meeting, and the end of an opening.
ghost use Rattle.std.specs.Prelude.{◌≡◌, length};
ghost use Rattle.crossbeam_queue.specs.Passes.{view};
ghost use Rattle.mt_queue.specs.Halves.{AreOneLine, IsMeeting};
ghost use Rattle.mt_queue.specs.Kept.{IsSending, IsTaking, IsLeft, sender_view, receiver_view, tail_view};

use crate::receiver::Receiver;
use crate::rule::{Apart, Balance, HandOver, Queue, QueuePass, Together};
use crate::sender::Sender;
use crate::tail::Tail;
use mt_events::opening::Opening;

/// How many posts were sent since the opening, and how many of them were taken. Both halves belong to one line. Each
/// half remembers how far the other is. Takes no memory, and waits for nothing.
pub fn meet(sender: &mut Sender, receiver: &mut Receiver) -> (u64, u64)
    requires { AreOneLine sender.old receiver.old }
    ensures counts { (result.0 ≡ length sender.old.sent) × (result.1 ≡ length receiver.old.taken) }
    ensures met { IsMeeting sender.old receiver.old }
    ensures sender { sender.new ≡ record sender.old { met = length receiver.old.taken } }
    ensures receiver { receiver.new ≡ record receiver.old { told = length sender.old.sent } }
{
    let counts = (sender.count, receiver.count);
    meet_on(
        &sender.queue,
        &mut sender.pass,
        &mut receiver.pass,
        &receiver.opening,
    );
    counts
}

/// The steps of the queue that a meeting is: the passes are joined, and split again.
fn meet_on(queue: &Queue, pass: &mut QueuePass, other: &mut QueuePass, _opening: &Opening)
    requires sender { IsSending queue.now pass.old }
    requires receiver { IsTaking queue.now other.old _opening.now }
    ensures sender { IsSending queue.now pass.new }
    ensures receiver { IsTaking queue.now other.new _opening.now }
    ensures met { IsMeeting (sender_view pass.old) (receiver_view other.old) }
    ensures sent { sender_view pass.new ≡ record (sender_view pass.old) { met = length (view other.old).taken } }
    ensures taken { receiver_view other.new ≡ record (receiver_view other.old) { told = length (view pass.old).sent } }
{
    let moved = queue.another::<HandOver>(other);
    queue.absorb::<Together>(pass, moved);
    queue.learn_as::<Balance>(pass);
    *other = queue.another::<Apart>(pass);
}

/// Puts both halves together at the end of an opening. Both belong to one line. What was not taken can be taken from
/// the answer. Takes no memory, and waits for nothing.
pub fn finish(sender: Sender, receiver: Receiver) -> Tail
    requires { AreOneLine sender receiver }
    ensures met { IsMeeting sender receiver }
    ensures tail { result ≡ record { line = sender.line; capacity = sender.capacity; sent = sender.sent; taken = receiver.taken } }
{
    let Sender {
        queue: sends,
        mut pass,
        count: _,
    } = sender;
    let Receiver {
        queue: takes,
        pass: other,
        opening,
        count: _,
    } = receiver;
    finish_on(&sends, &mut pass, other, &opening);
    Tail { sends, takes, pass }
}

/// The step of the queue that `finish` is: the passes are joined.
fn finish_on(queue: &Queue, pass: &mut QueuePass, other: QueuePass, _opening: &Opening)
    requires sender { IsSending queue.now pass.old }
    requires receiver { IsTaking queue.now other _opening.now }
    ensures tail { IsLeft queue.now queue.now pass.new }
    ensures met { IsMeeting (sender_view pass.old) (receiver_view other) }
    ensures left { tail_view queue.now pass.new ≡ record { line = pass.old.table_id; capacity = (view pass.old).capacity; sent = (view pass.old).sent; taken = (view other).taken } }
{
    queue.absorb::<Together>(pass, other);
    queue.learn_as::<Balance>(pass);
}
