//! The rule of a line's queue, and the kinds of step that keep it.
//!
//! A queue of `crossbeam_queue` is changed by two threads at once, so no thread can say what it holds. A thread can say
//! only what it did itself, and a rule ties that to what the queue holds (`specs/Rule.antt`). A `Pass` is what a thread
//! has for that: a value without bytes, which stands for what the thread knows of the queue (`PassView`). Only the
//! thread's own steps change it. Each step is one atomic step of the queue, and its proof shows that the rule holds
//! after it if it held before, whatever the other thread did in between (`proofs/`).
//!
//! | Kind of step | Here | What it does, and what it teaches |
//! |---|---|---|
//! | make | `InOrder` | The first pass may push and pop. Nothing was sent or taken. |
//! | split | `Reopen`, `Apart` | One pass may push from then on, and one may pop. At an opening both lists become empty and both passes name the new opening; after a meeting the lists stay, and each pass keeps in mind how long the other's is. |
//! | push | `Push` | What was sent grows by the post, at its end. |
//! | push refused as full | `Push` | Nothing changes. More was sent than the last meeting said was taken, by the capacity at least. |
//! | pop | `Pop`, `PopLeft` | What was taken grows by the front, and is still a run from the opening. |
//! | pop of none | `Pop` | Nothing changes. As much was taken at least as the last meeting said was sent. |
//! | pop of none after a join | `PopLeft` | Nothing changes. All that was sent is taken. |
//! | join | `Together` | One pass may push and pop, and knows both lists: what was sent is what was taken and then what the queue holds. |
//!
//! Two helpers change no list: `HandOver` moves what a pass knows to a new pass, since a join uses the other pass up,
//! and `Balance` looks at the queue after a join. `TwoReceivers` and `Contradiction` are never done: they show that
//! two passes that may pop are not of one queue.

use crossbeam_queue::protocol::{Join, Lesson, Outcome, Protocol, Split};
use crossbeam_queue::{Pass, RuledArrayQueue};
use mt_events::opening::Opening;
use mt_events::post::Post;
use std::collections::LinkedList;
use std::marker::{Brand, PhantomData};
use std::sync::Arc;

/// What a line's queue holds: posts that other lines hold too.
pub type Item = Arc<Post>;

/// An opening, and the number that its caller gave it, which tells it from the line's other openings. No value of it
/// is made.
pub(crate) struct TaggedOpening {
    pub(crate) opening: Opening,
    pub(crate) tag: u64,
}

/// What a pass knows. No value of it is made.
pub(crate) struct PassView {
    /// Whether it may push.
    pub(crate) pushes: bool,
    /// Whether it may pop.
    pub(crate) pops: bool,
    /// The opening, if it may push.
    pub(crate) opening: TaggedOpening,
    /// The opening, if it may pop. These are two fields, so that a join can show that they are equal.
    pub(crate) heard: TaggedOpening,
    /// How many posts the queue may hold, if it may push.
    pub(crate) capacity: u64,
    /// The posts that were pushed since the opening, if it may push.
    pub(crate) sent: LinkedList<Post>,
    /// The posts that were popped since the opening, if it may pop.
    pub(crate) taken: LinkedList<Post>,
    /// If it may push: at least this many posts were popped, as the last meeting told.
    pub(crate) met: u64,
    /// If it may pop: at least this many posts were pushed, as the last meeting told.
    pub(crate) told: u64,
}

/// Names the opening and the capacity of a split, which takes no other argument than its type.
pub(crate) trait Opened {
    ghost use Rattle.mt_events.specs.declared.opening.Opening.{Opening};
    ghost use Rattle.std.specs.Prelude.{ℕ};

    ghost opening: { Opening };

    ghost tag: { ℕ };

    ghost capacity: { ℕ };
}

impl Opened for Brand {
    ghost use Rattle.mt_queue.specs.Openings.{no_opening};

    ghost opening = { no_opening.opening };

    ghost tag = { no_opening.tag };

    ghost capacity = { 0 };
}

/// The rule: what was sent is what was taken, followed by what the queue holds. A new queue's pass may push and pop,
/// and knows that nothing was sent.
pub(crate) struct InOrder;

impl Protocol<Item, PassView> for InOrder {
    ghost use Rattle.mt_queue.specs.Openings.{no_opening};
    ghost use Rattle.mt_queue.specs.PassViews.{whole};
    ghost use Rattle.mt_queue.specs.Rule.{KeepsRule};

    ghost holds = { KeepsRule };

    ghost first = { whole no_opening 0 };
}

/// A queue under the rule.
pub(crate) type Queue = RuledArrayQueue<Item, PassView, InOrder>;

/// A pass of such a queue.
pub(crate) type QueuePass = Pass<Item, PassView>;

/// A push, and a push that is refused as full.
pub(crate) struct Push;

impl Outcome<Item, PassView> for Push {
    ghost use Rattle.mt_queue.specs.Steps.{IsPushed};

    ghost then = { IsPushed };
}

impl Lesson<Item, PassView> for Push {
    ghost use Rattle.mt_queue.specs.Steps.{IsFilled};

    ghost fact = { IsFilled };
}

/// A pop by the receiver, and a pop of none.
pub(crate) struct Pop;

impl Outcome<Item, PassView> for Pop {
    ghost use Rattle.mt_queue.specs.Steps.{IsPopped};

    ghost then = { IsPopped };
}

impl Lesson<Item, PassView> for Pop {
    ghost use Rattle.mt_queue.specs.Steps.{IsDrained};

    ghost fact = { IsDrained };
}

/// A pop by the pass that knows both lists, and a pop of none.
pub(crate) struct PopLeft;

impl Outcome<Item, PassView> for PopLeft {
    ghost use Rattle.mt_queue.specs.Steps.{IsPoppedLeft};

    ghost then = { IsPoppedLeft };
}

impl Lesson<Item, PassView> for PopLeft {
    ghost use Rattle.mt_queue.specs.Steps.{IsBalanced};

    ghost fact = { IsBalanced };
}

/// The split at an opening: both lists begin anew.
pub(crate) struct Reopen<N: Opened>(PhantomData<N>);

impl<N: Opened> Split<PassView> for Reopen<N> {
    ghost use Rattle.mt_queue.specs.Openings.{tagged};
    ghost use Rattle.mt_queue.specs.PassViews.{whole, sending, taking};

    ghost left = { λ v. sending (whole (tagged N.opening N.tag) N.capacity) };

    ghost right = { λ v. taking (whole (tagged N.opening N.tag) N.capacity) };
}

/// The split after a meeting: into the sender's pass and the receiver's, each of which knows how far the other is.
pub(crate) struct Apart;

impl Split<PassView> for Apart {
    ghost use Rattle.mt_queue.specs.PassViews.{sending, taking};

    ghost left = { sending };

    ghost right = { taking };
}

/// What a pass knows goes to a new pass. A join uses up the pass that it takes in, and a meeting has the receiver's
/// pass only by `&mut`.
pub(crate) struct HandOver;

impl Split<PassView> for HandOver {
    ghost use Rattle.mt_queue.specs.PassViews.{spent};

    ghost left = { λ v. spent };

    ghost right = { λ v. v };
}

/// The join of the sender's pass and the receiver's.
pub(crate) struct Together;

impl Join<PassView> for Together {
    ghost use Rattle.mt_queue.specs.PassViews.{joined, spent};

    ghost both = { joined };

    ghost spent = { spent };
}

/// What the joined pass knows: both lists, and what the queue holds between them.
pub(crate) struct Balance;

impl Lesson<Item, PassView> for Balance {
    ghost use Rattle.mt_queue.specs.Steps.{IsBalanced};

    ghost fact = { IsBalanced };
}

/// The join of two passes that may both pop: no queue has two, so this is never done.
pub(crate) struct TwoReceivers;

impl Join<PassView> for TwoReceivers {
    ghost use Rattle.mt_queue.specs.PassViews.{impossible, spent};

    ghost both = { λ v w. impossible };

    ghost spent = { spent };
}

/// What follows if a queue seems to have two passes that pop: anything.
pub(crate) struct Contradiction;

impl Lesson<Item, PassView> for Contradiction {
    ghost fact = { λ v items. ⊥ };
}
