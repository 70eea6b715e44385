//! The rule of a history, and the steps that keep it.
//!
//! The queue holds nothing. It is there for its passes: values with no bytes, each of which stands for what its owner knows of the history.
use crate::act::LogEntry;
use crossbeam_queue::protocol::{Join, Lesson, Protocol, Split};
use crossbeam_queue::{Pass, RuledArrayQueue};
use std::collections::LinkedList;
use std::marker::{Brand, PhantomData};

/// What a pass knows. No value of it is made.
pub(crate) struct PassView {
    /// Whether it knows the history.
    pub(crate) knows: bool,
    /// The history.
    pub(crate) all: LinkedList<LogEntry>,
    /// The number of the next session.
    pub(crate) next: u64,
    /// Whether it is a session's.
    pub(crate) calls: bool,
    /// The session's number.
    pub(crate) by: u64,
    /// The beginning of the history that it has seen.
    pub(crate) seen: LinkedList<LogEntry>,
    /// Whether it is another session's too.
    pub(crate) pairs: bool,
    /// That session's number.
    pub(crate) other: u64,
    /// The beginning of the history that that session has seen.
    pub(crate) beside: LinkedList<LogEntry>,
}

/// Names the acts of a step.
pub(crate) trait Added {
    ghost use Rattle.std.specs.Prelude.{List};
    ghost use Rattle.mt_desk.specs.declared.act.Act.{Act};

    ghost more: { List Act };
}

impl Added for Brand {
    ghost use Rattle.std.specs.Prelude.{[]};

    ghost more = { [] };
}

pub(crate) struct OneHistory;

impl Protocol<u64, PassView> for OneHistory {
    ghost use Rattle.std.specs.Prelude.{[]};
    ghost use Rattle.mt_desk.specs.HistoryViews.{keeper};
    ghost use Rattle.mt_desk.specs.HistoryRule.{KeepsHistory};

    ghost holds = { KeepsHistory };

    ghost first = { keeper [] 0 };
}

pub(crate) type Queue = RuledArrayQueue<u64, PassView, OneHistory>;

pub(crate) type QueuePass = Pass<u64, PassView>;

/// A new session.
pub(crate) struct Admit;

impl Split<PassView> for Admit {
    ghost use Rattle.std.specs.Prelude.{◌+◌};
    ghost use Rattle.mt_desk.specs.HistoryViews.{keeper, caller};

    ghost left = { λ v. keeper v.all (v.next + 1) };

    ghost right = { λ v. caller v.next v.all };
}

/// What a pass knows goes to a new pass.
pub(crate) struct HandOver;

impl Split<PassView> for HandOver {
    ghost use Rattle.mt_desk.specs.HistoryViews.{used_up};

    ghost left = { λ v. used_up };

    ghost right = { λ v. v };
}

/// A session meets the desk.
pub(crate) struct Together;

impl Join<PassView> for Together {
    ghost use Rattle.mt_desk.specs.HistoryViews.{both, used_up};

    ghost both = { λ v w. both v.all v.next w.by w.seen };

    ghost spent = { used_up };
}

/// What both know together.
pub(crate) struct Facts;

impl Lesson<u64, PassView> for Facts {
    ghost use Rattle.mt_desk.specs.Entries.{IsSeen};

    ghost fact = { λ v items. IsSeen v.by v.seen v.all };
}

/// The session's acts join the history, and the two part.
pub(crate) struct Adds<N: Added>(PhantomData<N>);

impl<N: Added> Split<PassView> for Adds<N> {
    ghost use Rattle.std.specs.Prelude.{◌++◌};
    ghost use Rattle.mt_desk.specs.Entries.{entries};
    ghost use Rattle.mt_desk.specs.HistoryViews.{keeper, caller};

    ghost left = { λ v. keeper (v.all ++ entries v.by N.more) v.next };

    ghost right = { λ v. caller v.by (v.all ++ entries v.by N.more) };
}

/// A session meets another one.
pub(crate) struct Beside;

impl Join<PassView> for Beside {
    ghost use Rattle.mt_desk.specs.HistoryViews.{pair, used_up};

    ghost both = { λ v w. pair v.by v.seen w.by w.seen };

    ghost spent = { used_up };
}

/// Two sessions have two numbers.
pub(crate) struct Differ;

impl Lesson<u64, PassView> for Differ {
    ghost use Rattle.std.specs.Prelude.{◌≢◌};

    ghost fact = { λ v items. v.by ≢ v.other };
}

/// The two sessions part.
pub(crate) struct Part;

impl Split<PassView> for Part {
    ghost use Rattle.mt_desk.specs.HistoryViews.{caller};

    ghost left = { λ v. caller v.by v.seen };

    ghost right = { λ v. caller v.other v.beside };
}

/// A new session's number is nobody's.
pub(crate) struct Fresh;

impl Lesson<u64, PassView> for Fresh {
    ghost use Rattle.std.specs.Prelude.{◌≡◌, []};
    ghost use Rattle.mt_desk.specs.Entries.{acts_by};

    ghost fact = { λ v items. acts_by v.next v.all ≡ [] };
}
