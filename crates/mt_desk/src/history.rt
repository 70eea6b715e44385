//! The history that lies under the lock, and what a session knows of it.
ghost use Rattle.std.specs.Prelude.{◌≡◌, ◌≢◌, ◌++◌, [], ◌∷◌, IfOk, IsOkUnless};
ghost use Rattle.crossbeam_queue.specs.Passes.{view, IsSamePass, IsPassOf};
ghost use Rattle.mt_desk.specs.declared.act.Act.TheVariants.{Apply, Stop};
ghost use Rattle.mt_desk.specs.Entries.{entry, entries, acts_by, IsSeen};
ghost use Rattle.mt_desk.specs.HistoryViews.{caller};
ghost use Rattle.mt_desk.specs.KeptHistory.{IsKeeping};

use crate::history_rule::{
    Added, Adds, Admit, Beside, Differ, Facts, Fresh, HandOver, Part, Queue, QueuePass, Together,
};
use mt_book::command::Command;
use mt_skel::fault::Fault;
use std::alloc::Global;
use std::marker::{Brand, Model};

/// The history, for one lock. Contracts see which it is, and its entries.
#[derive(Drop)]
pub struct History {
    queue: Queue,
    pass: QueuePass,
}

impl Model for History {
    ghost use Rattle.mt_desk.specs.Entries.{HistoryView};
    ghost use Rattle.mt_desk.specs.KeptHistory.{IsKeeping, history_view};

    ghost Value = { HistoryView };

    ghost view = { λ h. history_view h.pass };

    ghost invariant = { λ h. IsKeeping h.queue h.pass };
}

/// What a session knows of the history. It has no bytes, and it is the only one of its number.
#[derive(Drop)]
pub struct Witness {
    pass: QueuePass,
}

impl Model for Witness {
    ghost use Rattle.mt_desk.specs.Entries.{WitnessView};
    ghost use Rattle.mt_desk.specs.KeptHistory.{IsCalling, witness_view};

    ghost Value = { WitnessView };

    ghost view = { λ w. witness_view w.pass };

    ghost invariant = { λ w. IsCalling w.pass };
}

impl History {
    /// A history of nothing. Refused as `NoMemory` alone.
    pub fn new(alloc: Global) -> Result<History, Fault>
        ensures empty { IfOk result (λ h. h.log ≡ []) }
        ensures memory { IsOkUnless result Fault.NoMemory }
    {
        let (queue, pass) = Queue::ruled(alloc, 1)?;
        Ok(History { queue, pass })
    }

    /// A new session, which has seen the history as it is. No entry has its number.
    pub fn admit(&mut self) -> Witness
        ensures history { self.new ≡ self.old }
        ensures seen { (result.seen ≡ self.old.log) × (result.table ≡ self.old.table) }
        ensures fresh { acts_by result.by self.old.log ≡ [] }
    {
        let pass = admit_on(&self.queue, &mut self.pass);
        Witness { pass }
    }

    /// A session sees the history as it is. All that the session did is in what it had seen.
    pub fn look(&mut self, witness: &mut Witness)
        requires { witness.old.table ≡ self.old.table }
        ensures history { self.new ≡ self.old }
        ensures witness { witness.new ≡ record witness.old { seen = self.old.log } }
        ensures seen { IsSeen witness.old.by witness.old.seen self.old.log }
    {
        note_on::<Brand>(&self.queue, &mut self.pass, &mut witness.pass);
    }

    /// Two sessions have two numbers.
    pub fn tell_apart(&self, one: &mut Witness, other: &mut Witness)
        requires one { one.old.table ≡ self.now.table }
        requires other { other.old.table ≡ self.now.table }
        ensures same { (one.new ≡ one.old) × (other.new ≡ other.old) }
        ensures differ { one.old.by ≢ other.old.by }
    {
        tell_apart_on(&self.queue, &mut one.pass, &mut other.pass);
    }

    /// A session's command joins the history. Until then all that the session did is in what it had seen.
    pub fn apply(&mut self, witness: &mut Witness, command: &Command)
        requires { witness.old.table ≡ self.old.table }
        ensures history { self.new ≡ record self.old { log = self.old.log ++ entry witness.old.by (Apply command.now) ∷ [] } }
        ensures witness { witness.new ≡ record witness.old { seen = self.old.log ++ entry witness.old.by (Apply command.now) ∷ [] } }
        ensures seen { IsSeen witness.old.by witness.old.seen self.old.log }
    {
        note_command_on::<Brand>(&self.queue, &mut self.pass, &mut witness.pass, command);
    }

    /// A session's stop joins the history. Until then all that the session did is in what it had seen.
    pub fn stop(&mut self, witness: &mut Witness)
        requires { witness.old.table ≡ self.old.table }
        ensures history { self.new ≡ record self.old { log = self.old.log ++ entry witness.old.by Stop ∷ [] } }
        ensures witness { witness.new ≡ record witness.old { seen = self.old.log ++ entry witness.old.by Stop ∷ [] } }
        ensures seen { IsSeen witness.old.by witness.old.seen self.old.log }
    {
        note_on::<Brand>(&self.queue, &mut self.pass, &mut witness.pass);
    }
}

/// The steps that `admit` is: the desk's pass looks, and a pass is split off.
fn admit_on(queue: &Queue, pass: &mut QueuePass) -> QueuePass
    requires { IsKeeping queue.now pass.old }
    ensures kept { IsKeeping queue.now pass.new × IsSamePass pass.old pass.new }
    ensures all { (view pass.new).all ≡ (view pass.old).all }
    ensures own { IsPassOf queue.now result }
    ensures caller { view result ≡ caller (view pass.old).next (view pass.old).all }
    ensures fresh { acts_by (view result).by (view pass.old).all ≡ [] }
{
    queue.learn_as::<Fresh>(pass);
    queue.another::<Admit>(pass)
}

/// The steps that `look`, `apply` and `stop` are: the passes are joined, look, and are split again.
fn note_on<N: Added>(queue: &Queue, pass: &mut QueuePass, other: &mut QueuePass)
    requires keeper { IsKeeping queue.now pass.old }
    requires own { IsPassOf queue.now other.old }
    requires caller { view other.old ≡ caller (view other.old).by (view other.old).seen }
    ensures kept { IsKeeping queue.now pass.new × IsSamePass pass.old pass.new }
    ensures all { (view pass.new).all ≡ (view pass.old).all ++ entries (view other.old).by N.more }
    ensures own { IsPassOf queue.now other.new }
    ensures caller { view other.new ≡ caller (view other.old).by ((view pass.old).all ++ entries (view other.old).by N.more) }
    ensures seen { IsSeen (view other.old).by (view other.old).seen (view pass.old).all }
{
    let moved = queue.another::<HandOver>(other);
    queue.absorb::<Together>(pass, moved);
    queue.learn_as::<Facts>(pass);
    *other = queue.another::<Adds<N>>(pass);
}

/// The steps that `tell_apart` is: the passes are joined, look, and are split again.
fn tell_apart_on(queue: &Queue, pass: &mut QueuePass, other: &mut QueuePass)
    requires own { IsPassOf queue.now pass.old × IsPassOf queue.now other.old }
    requires caller { view pass.old ≡ caller (view pass.old).by (view pass.old).seen }
    requires beside { view other.old ≡ caller (view other.old).by (view other.old).seen }
    ensures own { IsPassOf queue.now pass.new × IsPassOf queue.now other.new }
    ensures same { (view pass.new ≡ view pass.old) × (view other.new ≡ view other.old) }
    ensures differ { (view pass.old).by ≢ (view other.old).by }
{
    let moved = queue.another::<HandOver>(other);
    queue.absorb::<Beside>(pass, moved);
    queue.learn_as::<Differ>(pass);
    *other = queue.another::<Part>(pass);
}

/// The same of a command, which names the act.
fn note_command_on<N: Added>(
    queue: &Queue,
    pass: &mut QueuePass,
    other: &mut QueuePass,
    _command: &Command,
)
    requires name { N.more ≡ Apply _command.now ∷ [] }
    requires keeper { IsKeeping queue.now pass.old }
    requires own { IsPassOf queue.now other.old }
    requires caller { view other.old ≡ caller (view other.old).by (view other.old).seen }
    ensures kept { IsKeeping queue.now pass.new × IsSamePass pass.old pass.new }
    ensures all { (view pass.new).all ≡ (view pass.old).all ++ entry (view other.old).by (Apply _command.now) ∷ [] }
    ensures own { IsPassOf queue.now other.new }
    ensures caller { view other.new ≡ caller (view other.old).by ((view pass.old).all ++ entry (view other.old).by (Apply _command.now) ∷ []) }
    ensures seen { IsSeen (view other.old).by (view other.old).seen (view pass.old).all }
{
    note_on::<N>(queue, pass, other);
}
