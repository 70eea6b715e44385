//! A desk: the book, the rows of its watchers, and the history of who did what, for one lock.
ghost use Rattle.std.specs.Prelude.{◌≡◌, ◌≢◌, ◌++◌, ◌∷◌, [], IsOk, IfOk, IfErr, OnOk, OnErr, Ok, Err};
ghost use Rattle.mt_floor.specs.Schedule.{empty_floor, floor_step};
ghost use Rattle.mt_floor.specs.declared.event.Event.TheVariants.{Apply, Open, Stop};
ghost use Rattle.mt_floor.specs.declared.event.Answer.TheVariants.{Opened, Halted};
ghost use Rattle.mt_desk.specs.declared.act.Act.TheVariants as act;
ghost use Rattle.mt_desk.specs.Entries.{entry, acts_by, IsSeen};
ghost use Rattle.mt_desk.specs.Desk.{IsDesk, floor_of_desk, with_watcher, halted_desk};
ghost use Rattle.mt_desk.specs.Calls.{IsApplied, IsMet, IsClosed};
ghost use Rattle.mt_desk.specs.Headline.{Meet, Close, IsScheduledBy};
ghost use Rattle.mt_desk.specs.Held.{IsLogged};

use crate::board::Board;
use crate::history::History;
use crate::lines::{Host, Lines, Naming};
use crate::watcher::Watcher;
use mt_book::book::Book;
use mt_book::command::{Command, Reply};
use mt_events::opening::Scope;
use mt_events::shared::SharedPosts;
use mt_floor::watch::Meeting;
use mt_skel::fault::Fault;
use std::marker::{Model, PhantomData};
use std::sync::Wait;

/// A desk with its history, for one lock.
#[derive(Drop)]
pub struct Desk<J: Naming> {
    board: Board<J>,
    history: History,
}

impl<J: Naming> Model for Desk<J> {
    ghost use Rattle.mt_desk.specs.Held.{HeldView, IsHeld};

    ghost Value = { HeldView };

    ghost view = { λ d. record { desk = d.board; log = d.history.log } };

    ghost invariant = { λ d. IsHeld J.history d.board d.history };
}

/// What a session knows of the history of the desk of a name. It has no bytes, and it is the only one of its number.
#[derive(Drop)]
pub struct DeskWitness<J: Naming> {
    own: crate::history::Witness,
    of: PhantomData<J>,
}

impl<J: Naming> Model for DeskWitness<J> {
    ghost use Rattle.std.specs.Prelude.{◌≡◌};
    ghost use Rattle.mt_desk.specs.Entries.{WitnessView};

    ghost Value = { WitnessView };

    ghost view = { λ w. w.own };

    ghost invariant = { λ w. w.own.table ≡ J.history };
}

impl<J: Naming> Desk<J> {
    /// A desk with nothing done, on the lines that its name tells. Takes no memory.
    pub fn new(lines: Lines) -> Desk<J>
        requires lines { lines.lines ≡ J.lines }
        requires history { lines.history ≡ J.history }
        ensures floor { floor_of_desk result.desk ≡ empty_floor lines.capacity }
        ensures rows { result.desk.rows ≡ [] }
        ensures log { result.log ≡ [] }
    {
        let (board, history) = Board::<J>::new(lines);
        Desk { board, history }
    }

    /// The accepted commands, and what they have led to.
    pub fn book(&self) -> &Book
        ensures journal { result.now.journal ≡ self.now.desk.journal }

        // What is always true of a desk.
        ensures kept { IsDesk self.now.desk }
        ensures told { IsLogged self.now.desk self.now.log }
    {
        self.board.book()
    }

    /// Lets a new session in, which has seen the history as it is. No entry has its number. Takes no memory.
    pub fn admit(&mut self, _host: &Host<J>) -> DeskWitness<J>
        ensures desk { self.new ≡ self.old }
        ensures seen { result.seen ≡ self.old.log }
        ensures fresh { acts_by result.by self.old.log ≡ [] }
    {
        let own = self.history.admit();
        DeskWitness {
            own,
            of: PhantomData,
        }
    }

    /// A session sees the history as it is. All that the session did is in what it had seen.
    pub fn look(&mut self, witness: &mut DeskWitness<J>)
        ensures desk { self.new ≡ self.old }

        // What is always true of a desk.
        ensures told { IsLogged self.old.desk self.old.log }
        ensures witness { witness.new ≡ record witness.old { seen = self.old.log } }
        ensures seen { IsSeen witness.old.by witness.old.seen self.old.log }
    {
        self.history.look(&mut witness.own);
    }

    /// Two sessions have two numbers.
    pub fn tell_apart(&self, one: &mut DeskWitness<J>, other: &mut DeskWitness<J>)
        ensures same { (one.new ≡ one.old) × (other.new ≡ other.old) }
        ensures differ { one.old.by ≢ other.old.by }
    {
        self.history.tell_apart(&mut one.own, &mut other.own);
    }

    /// Applies a session's command, and sends its posts to the watchers that follow them; one whose queue is full lags, and is
    /// sent nothing any more. `meet` tells each watcher how far it is. Once, and at the end of the history, which the
    /// session has then seen; where it is refused, the history stays.
    ///
    /// Refused, with nothing changed, as `Stopped` after a stop, as `JournalFull` after 1,048,576 accepted commands,
    /// else with the first of the command's own refusals that holds, and as `NoMemory`. It may wait for a step of a
    /// watcher that takes.
    pub fn apply<R: Wait>(
        &mut self,
        rt: &R,
        witness: &mut DeskWitness<J>,
        command: &Command,
    ) -> Result<Reply, Fault>
        ensures done { IfOk result (λ reply. IsApplied self.old.desk command.now reply self.new.desk) }
        ensures refused { IfErr result (λ fault. fault ≢ Fault.NoMemory → floor_step (floor_of_desk self.old.desk) (Apply command.now) ≡ (floor_of_desk self.old.desk, Err fault)) }
        ensures unchanged { OnErr result (self.new ≡ self.old) }
        ensures log { OnOk result (self.new.log ≡ self.old.log ++ entry witness.old.by (act.Apply command.now) ∷ []) }
        ensures witness { witness.new ≡ record witness.old { seen = self.new.log } }
        ensures seen { IsSeen witness.old.by witness.old.seen self.old.log }
    {
        match self.board.apply(rt, command) {
            Ok(reply) => {
                self.history.apply(&mut witness.own, command);
                Ok(reply)
            }
            Err(fault) => {
                self.history.look(&mut witness.own);
                Err(fault)
            }
        }
    }

    /// Begins a watcher, which finds what the book shows now.
    ///
    /// Refused, with nothing changed, as `NoNamespace` where its one namespace is not there, as `TooManyWatchers` where
    /// there are 64 watchers, those that lag or have ended too, or all keys were given out, as `Stopped` after a stop,
    /// and as `NoMemory`.
    pub fn open(&mut self, scope: Scope) -> Result<Watcher<J>, Fault>
        ensures done { IfOk result (λ w. floor_step (floor_of_desk self.old.desk) (Open scope) ≡ (floor_of_desk self.new.desk, Ok (Opened w.key w.half.opening))) }
        ensures desk { IfOk result (λ w. self.new ≡ record self.old { desk = with_watcher self.old.desk scope }) }
        ensures key { IfOk result (λ w. w.key ≡ self.old.desk.next_key) }
        ensures begins { IfOk result (λ w. w.half.taken ≡ []) }
        ensures refused { IfErr result (λ fault. fault ≢ Fault.NoMemory → floor_step (floor_of_desk self.old.desk) (Open scope) ≡ (floor_of_desk self.old.desk, Err fault)) }
        ensures unchanged { OnErr result (self.new ≡ self.old) }
    {
        self.board.open(scope)
    }

    /// How many posts were sent to a watcher, how many of them it has taken, and whether it is still posted to. The
    /// watcher's row and its half each keep in mind how far the other is. Not refused: a watcher of this desk's name has
    /// its row here until its close. Takes no memory, and waits for nothing.
    ///
    /// Whatever was called on the desk since it was new, the posts that the watcher has taken are a prefix of those posted
    /// for the namespaces it follows since its opening, each once and in order, and applied to its opening tables they
    /// give each namespace's table as of its last taken number (`headline`).
    pub fn meet(&mut self, watcher: &mut Watcher<J>) -> Result<Meeting, Fault>
        ensures ok { IsOk result }
        ensures met { IfOk result (λ m. IsMet self.old.desk watcher.old m self.new.desk watcher.new) }
        ensures headline { IfOk result (λ m. IsScheduledBy (Meet watcher.old m watcher.new) self.new.desk) }
        ensures log { self.new.log ≡ self.old.log }
    {
        self.board.meet(watcher)
    }

    /// Ends a watcher, and answers what was sent to it and not taken. Not refused: a watcher of this desk's name has
    /// its row here; a refusal would hand it back. Takes no memory. It may wait, as each call on a queue may.
    ///
    /// What is said of a watcher at a `meet` holds here, also of what it has taken and what is answered, together: that is
    /// all that was posted to it (`headline`).
    pub fn close<R: Wait>(
        &mut self,
        rt: &R,
        watcher: Watcher<J>,
    ) -> Result<SharedPosts, (Watcher<J>, Fault)>
        ensures ok { IsOk result }
        ensures closed { IfOk result (λ posts. IsClosed self.old.desk watcher posts self.new.desk) }
        ensures headline { IfOk result (λ posts. IsScheduledBy (Close watcher posts) self.new.desk) }
        ensures log { self.new.log ≡ self.old.log }
    {
        self.board.close(rt, watcher)
    }

    /// Whether the desk is stopped.
    pub fn is_stopped(&self) -> bool
        ensures { result ≡ self.now.desk.stopped }
    {
        self.board.is_stopped()
    }

    /// Stops the desk for a session: no command and no watcher after that, and no watcher is sent anything. The stop stands
    /// at the end of the history, which the session has then seen. Takes no memory.
    pub fn stop(&mut self, witness: &mut DeskWitness<J>)
        ensures floor { floor_step (floor_of_desk self.old.desk) Stop ≡ (floor_of_desk self.new.desk, Ok Halted) }
        ensures desk { self.new.desk ≡ halted_desk self.old.desk }
        ensures log { self.new.log ≡ self.old.log ++ entry witness.old.by act.Stop ∷ [] }
        ensures witness { witness.new ≡ record witness.old { seen = self.new.log } }
        ensures seen { IsSeen witness.old.by witness.old.seen self.old.log }
    {
        self.board.stop();
        self.history.stop(&mut witness.own);
    }
}
