//! The book and the rows of its watchers, without the history that tells who did what.
ghost use Rattle.std.specs.Prelude.{◌≡◌, ◌≢◌, ◌==◌, ◌++◌, ◌∷◌, not, false, vec_capacity, [], IsOk, IfOk, IfErr, OnOk, OnErr, Ok, Err};
ghost use Rattle.std.specs.List.{filter};
ghost use Rattle.mt_floor.specs.Schedule.{empty_floor, floor_step, opening_refusal};
ghost use Rattle.mt_floor.specs.declared.event.Event.TheVariants.{Apply, Open, Stop};
ghost use Rattle.mt_floor.specs.declared.event.Answer.TheVariants.{Opened, Halted};
ghost use Rattle.mt_desk.specs.Desk.{IsDesk, floor_of_desk, with_watcher, halted_desk};
ghost use Rattle.mt_desk.specs.Calls.{IsApplied, IsMet, IsClosed};
ghost use Rattle.mt_desk.specs.Headline.{Meet, Close, IsScheduledBy};

use crate::due::due_of;
use crate::history::History;
use crate::lines::{Lines, Naming};
use crate::places::{Slot, close_at, end_all, is_heard, meet_at, open_at, parked_place, send_all};
use crate::watcher::Watcher;
use mt_book::book::Book;
use mt_book::command::{Command, Reply};
use mt_events::opening::Scope;
use mt_events::shared::SharedPosts;
use mt_floor::finding::{found, opening_refusal};
use mt_floor::watch::{Meeting, WatchKey};
use mt_skel::fault::Fault;
use std::alloc::Global;
use std::marker::{Model, PhantomData};
use std::sync::Wait;

/// The book and the rows of its watchers. `order` has the places that are in use, by rising key.
#[derive(Drop)]
pub struct Board<J: Naming> {
    capacity: usize,
    book: Book,
    last_key: WatchKey,
    stopped: bool,
    slots: Vec<Slot>,
    order: Vec<usize>,
    alloc: Global,
    of: PhantomData<J>,
}

impl<J: Naming> Model for Board<J> {
    ghost use Rattle.std.specs.Prelude.{vec_capacity};
    ghost use Rattle.mt_desk.specs.Desk.{DeskView};
    ghost use Rattle.mt_desk.specs.Places.{desk_of, IsKeptDesk};

    ghost Value = { DeskView };

    ghost view = { λ d. desk_of d.capacity d.book.journal d.last_key d.stopped d.slots.items d.order.items };

    ghost invariant = { λ d. IsKeptDesk J.lines (desk_of d.capacity d.book.journal d.last_key d.stopped d.slots.items d.order.items) d.slots.items d.order.items (vec_capacity d.order) };
}

impl<J: Naming> Board<J> {
    /// A desk with nothing done, on the lines that its name tells. Takes no memory.
    pub(crate) fn new(lines: Lines) -> (Board<J>, History)
        requires { lines.lines ≡ J.lines }
        ensures floor { floor_of_desk result.0 ≡ empty_floor lines.capacity }
        ensures rows { result.0.rows ≡ [] }
        ensures nothing { (result.0.journal ≡ []) × (result.0.stopped ≡ false) }
        ensures history { (result.1.table ≡ lines.history) × (result.1.log ≡ []) }
    {
        let Lines {
            slots,
            order,
            capacity,
            alloc,
            history,
        } = lines;
        let board = Board {
            capacity,
            book: Book::new(alloc),
            last_key: 0,
            stopped: false,
            slots,
            order,
            alloc,
            of: PhantomData,
        };
        (board, history)
    }

    /// The accepted commands, and what they have led to.
    pub(crate) fn book(&self) -> &Book
        ensures journal { result.now.journal ≡ self.now.journal }

        // What is always true of a desk.
        ensures kept { IsDesk self.now }
    {
        &self.book
    }

    /// Applies a command, and sends its posts to the watchers that follow them; one whose queue is full lags, and is
    /// sent nothing any more. `meet` tells each watcher how far it is.
    ///
    /// Refused, with nothing changed, as `Stopped` after a stop, as `JournalFull` after 1,048,576 accepted commands,
    /// else with the first of the command's own refusals that holds, and as `NoMemory`. It may wait for a step of a
    /// watcher that takes.
    pub(crate) fn apply<R: Wait>(&mut self, rt: &R, command: &Command) -> Result<Reply, Fault>
        ensures done { IfOk result (λ reply. IsApplied self.old command.now reply self.new) }
        ensures journal { OnOk result (self.new.journal ≡ self.old.journal ++ command.now ∷ []) }
        ensures stopped { self.new.stopped ≡ self.old.stopped }
        ensures refused { IfErr result (λ fault. fault ≢ Fault.NoMemory → floor_step (floor_of_desk self.old) (Apply command.now) ≡ (floor_of_desk self.old, Err fault)) }
        ensures unchanged { OnErr result (self.new ≡ self.old) }
    {
        if self.stopped {
            return Err(Fault::Stopped);
        }
        let prepared = self.book.prepare(command, is_heard(&self.slots))?;
        let due = due_of(self.alloc, prepared.posts(), &self.slots, &self.order)?;
        let (reply, _) = self.book.commit(prepared);
        send_all(rt, &mut self.slots, due);
        Ok(reply)
    }

    /// Why no watcher of this scope begins.
    fn refuses(&self, scope: Scope) -> Option<Fault>
        ensures { result ≡ opening_refusal (floor_of_desk self.now) scope }
    {
        opening_refusal(
            &self.book,
            scope,
            self.order.len(),
            self.last_key,
            self.stopped,
        )
    }

    /// Begins a watcher, which finds what the book shows now.
    ///
    /// Refused, with nothing changed, as `NoNamespace` where its one namespace is not there, as `TooManyWatchers` where
    /// there are 64 watchers, those that lag or have ended too, or all keys were given out, as `Stopped` after a stop,
    /// and as `NoMemory`.
    pub(crate) fn open(&mut self, scope: Scope) -> Result<Watcher<J>, Fault>
        ensures done { IfOk result (λ w. floor_step (floor_of_desk self.old) (Open scope) ≡ (floor_of_desk self.new, Ok (Opened w.key w.half.opening))) }
        ensures desk { IfOk result (λ w. self.new ≡ with_watcher self.old scope) }
        ensures key { IfOk result (λ w. w.key ≡ self.old.next_key) }
        ensures begins { IfOk result (λ w. w.half.taken ≡ []) }
        ensures same { (self.new.journal ≡ self.old.journal) × (self.new.stopped ≡ self.old.stopped) }
        ensures refused { IfErr result (λ fault. fault ≢ Fault.NoMemory → floor_step (floor_of_desk self.old) (Open scope) ≡ (floor_of_desk self.old, Err fault)) }
        ensures unchanged { OnErr result (self.new ≡ self.old) }
    {
        if let Some(fault) = self.refuses(scope) {
            return Err(fault);
        }
        let opening = found(self.alloc, &self.book, scope)?;
        let left = Vec::with_capacity(self.alloc, self.capacity)?;
        let Some(place) = parked_place(&self.slots) else {
            unreachable!()
        };
        let key = self.last_key + 1;
        let since = self.book.journal().len();
        let half = open_at(&mut self.slots, place, key, scope, since, opening, left);
        self.order.push_reserved(place);
        self.last_key = key;
        Ok(Watcher {
            key,
            place,
            half,
            of: PhantomData,
        })
    }

    /// How many posts were sent to a watcher, how many of them it has taken, and whether it is still posted to. The
    /// watcher's row and its half each keep in mind how far the other is. Not refused: a watcher of this desk's name has
    /// its row here until its close. Takes no memory, and waits for nothing.
    ///
    /// Whatever was called on the desk since it was new, the posts that the watcher has taken are a prefix of those posted
    /// for the namespaces it follows since its opening, each once and in order, and applied to its opening tables they
    /// give each namespace's table as of its last taken number (`headline`).
    pub(crate) fn meet(&mut self, watcher: &mut Watcher<J>) -> Result<Meeting, Fault>
        ensures ok { IsOk result }
        ensures met { IfOk result (λ m. IsMet self.old watcher.old m self.new watcher.new) }
        ensures headline { IfOk result (λ m. IsScheduledBy (Meet watcher.old m watcher.new) self.new) }
        ensures same { (self.new.journal ≡ self.old.journal) × (self.new.stopped ≡ self.old.stopped) }
    {
        let meeting = meet_at(&mut self.slots, watcher.place, &mut watcher.half);
        Ok(meeting)
    }

    /// Ends a watcher, and answers what was sent to it and not taken. Not refused: a watcher of this desk's name has
    /// its row here; a refusal would hand it back. Takes no memory. It may wait, as each call on a queue may.
    ///
    /// What is said of a watcher at a `meet` holds here, also of what it has taken and what is answered, together: that is
    /// all that was posted to it (`headline`).
    pub(crate) fn close<R: Wait>(
        &mut self,
        rt: &R,
        watcher: Watcher<J>,
    ) -> Result<SharedPosts, (Watcher<J>, Fault)>
        ensures ok { IsOk result }
        ensures closed { IfOk result (λ posts. IsClosed self.old watcher posts self.new) }
        ensures headline { IfOk result (λ posts. IsScheduledBy (Close watcher posts) self.new) }
        ensures same { (self.new.journal ≡ self.old.journal) × (self.new.stopped ≡ self.old.stopped) }
    {
        let Watcher {
            key: _,
            place,
            half,
            of: _,
        } = watcher;
        let posts = close_at(rt, &mut self.slots, place, half);
        drop_place(&mut self.order, place);
        Ok(posts)
    }

    /// Whether the desk is stopped.
    pub(crate) fn is_stopped(&self) -> bool
        ensures { result ≡ self.now.stopped }
    {
        self.stopped
    }

    /// Stops the desk: no command and no watcher after that, and no watcher is sent anything. A second stop changes
    /// nothing. Takes no memory.
    pub(crate) fn stop(&mut self)
        ensures floor { floor_step (floor_of_desk self.old) Stop ≡ (floor_of_desk self.new, Ok Halted) }
        ensures desk { self.new ≡ halted_desk self.old }
    {
        self.stopped = true;
        end_all(&mut self.slots);
    }
}

/// Takes one place out of the order.
fn drop_place(order: &mut Vec<usize>, place: usize)
    ensures items { order.new.items ≡ filter (λ k. not (k == place)) order.old.items }
    ensures room { vec_capacity order.new ≡ vec_capacity order.old }
{
    order.retain(|other| *other != place);
}
