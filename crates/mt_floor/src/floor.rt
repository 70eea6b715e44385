//! The book, its watchers, and the posts that are due to them.
ghost use Rattle.std.specs.Prelude.{◌≡◌, ◌≢◌, ◌-◌, ◌<◌, ◌≤◌, IfOk, IfErr, OnErr, MatchOption, Some, None, Ok, Err, [], true, length, slice_get};
ghost use Rattle.mt_floor.specs.Headline.{HeadlineHolds};
ghost use Rattle.mt_floor.specs.Schedule.{empty_floor, floor_step, run, settled, waiting, is_put_off, opening_refusal, nothing_left, takes_memory, done_events, done_answers};

use crate::due::{DuePost, due_of, first_key};
use crate::event::{Answer, Event};
use crate::finding::{found, opening_refusal};
use crate::row::{FloorRow, is_heard};
use crate::rows::{end_all, place_of, post_at, take_at};
use crate::watch::{Phase, WatchKey};
use mt_book::book::Book;
use mt_book::command::Command;
use mt_events::opening::Scope;
use mt_events::post::Post;
use mt_events::shared::SharedPost;
use mt_skel::fault::Fault;
use std::alloc::Global;
use std::collections::VecDeque;
use std::marker::Model;

/// The book, its watchers, and the posts that are due to them.
///
/// An accepted command makes its posts due to the open watchers that follow them. `PostNext` sends them, one post to
/// one watcher, in the order of posts and then of keys; until all are sent, no other command is applied and no
/// watcher begins, is met or ends.
#[derive(Drop)]
pub struct Floor {
    capacity: usize,
    book: Book,
    last_key: WatchKey,
    stopped: bool,
    rows: Vec<FloorRow>,
    due: VecDeque<DuePost>,
    alloc: Global,
}

impl Model for Floor {
    ghost use Rattle.mt_floor.specs.Schedule.{FloorView};
    ghost use Rattle.mt_floor.specs.Rows.{floor_of, IsKeptFloor};

    ghost Value = { FloorView };

    ghost view = { λ f. floor_of f.capacity f.book.journal f.last_key f.stopped f.rows.items f.due.items };

    ghost invariant = { λ f. IsKeptFloor f.capacity f.book.journal f.last_key f.stopped f.rows.items f.due.items };
}

/// The answer if nothing is left to be taken: `Took(None)` for an open watcher, or why there will be no more.
fn nothing_left(phase: Phase) -> Result<Answer, Fault>
    ensures { result ≡ nothing_left phase }
{
    match phase {
        Phase::Open => Ok(Answer::Took(None)),
        Phase::Lagged => Err(Fault::Lagged),
        Phase::Ended => Err(Fault::Stopped),
    }
}

impl Floor {
    /// A floor on which nothing was done. The queue of each watcher may hold this many posts, 1 to 16,384. Memory will
    /// come from `alloc`, and none is taken yet.
    pub fn new(alloc: Global, capacity: usize) -> Floor
        requires { (0 < capacity) × (capacity ≤ 16384) }
        ensures { result ≡ empty_floor capacity }
    {
        Floor {
            capacity,
            book: Book::new(alloc),
            last_key: 0,
            stopped: false,
            rows: Vec::new(alloc),
            due: VecDeque::new(alloc),
            alloc,
        }
    }

    /// The accepted commands, and what they have led to.
    pub fn book(&self) -> &Book
        ensures { result.now.journal ≡ self.now.journal }
    {
        &self.book
    }

    /// How many posts were sent to a watcher and not taken: none if the key has no watcher.
    pub fn waiting_count(&self, key: WatchKey) -> usize
        ensures { result ≡ length (waiting self.now key) }
    {
        let Some(place) = place_of(&self.rows, key) else {
            return 0;
        };
        self.rows[place].waiting_count()
    }

    /// One of the posts that were sent to a watcher and not taken; the next one has index 0.
    pub fn waiting_post(&self, key: WatchKey, index: usize) -> Option<&Post>
        ensures { MatchOption result (slice_get (waiting self.now key) index ≡ None) (λ post. slice_get (waiting self.now key) index ≡ Some post.now) }
    {
        let Some(place) = place_of(&self.rows, key) else {
            return None;
        };
        self.rows[place].waiting_post(index)
    }

    /// Whether an event is put off, since a post is due.
    fn puts_off(&self, event: &Event) -> bool
        ensures { result ≡ is_put_off self.now.due event.now }
    {
        match event {
            Event::PostNext | Event::Take(_) => false,
            Event::Apply(_) | Event::Open(_) | Event::Meet(_) | Event::Close(_) | Event::Stop => {
                !self.due.is_empty()
            }
        }
    }

    /// Applies a command; its posts are then due to the open watchers that follow them. Refused as `Stopped`, as the
    /// book refuses it, and as `NoMemory`.
    fn apply_idle(&mut self, command: &Command) -> Result<Answer, Fault>
        requires idle { self.old.due ≡ [] }
        ensures done { IfOk result (λ answer. floor_step self.old (Event.Apply command.now) ≡ (self.new, Ok answer)) }
        ensures refused { IfErr result (λ fault. fault ≢ Fault.NoMemory → floor_step self.old (Event.Apply command.now) ≡ (self.new, Err fault)) }
        ensures unchanged { OnErr result (self.new ≡ self.old) }
    {
        if self.stopped {
            return Err(Fault::Stopped);
        }
        let prepared = self.book.prepare(command, is_heard(&self.rows))?;
        let due = due_of(self.alloc, prepared.posts(), &self.rows)?;
        let (reply, _) = self.book.commit(prepared);
        self.due = due;
        Ok(Answer::Replied(reply))
    }

    /// Sends the first due post to the first watcher to which it is due.
    fn post_next(&mut self) -> Answer
        ensures done { floor_step self.old Event.PostNext ≡ (self.new, Ok result) }
        ensures fewer { length self.new.due ≤ length self.old.due - 1 }
        ensures settled { settled self.new ≡ settled self.old }
    {
        let Some(key) = first_key(&self.due) else {
            return Answer::NotNow;
        };
        let Some(place) = place_of(&self.rows, key) else {
            return Answer::NotNow;
        };
        let lagged = post_at(&mut self.rows, place, &mut self.due, key, self.capacity);
        Answer::Posted {
            watcher: key,
            lagged,
        }
    }

    /// Why no watcher of this scope begins.
    fn refuses(&self, scope: Scope) -> Option<Fault>
        ensures { result ≡ opening_refusal self.now scope }
    {
        opening_refusal(
            &self.book,
            scope,
            self.rows.len(),
            self.last_key,
            self.stopped,
        )
    }

    /// Begins a watcher. Refused as `NoNamespace`, as `TooManyWatchers`, as `Stopped`, and as `NoMemory`.
    fn open(&mut self, scope: Scope) -> Result<Answer, Fault>
        requires idle { self.old.due ≡ [] }
        ensures done { IfOk result (λ answer. floor_step self.old (Event.Open scope) ≡ (self.new, Ok answer)) }
        ensures refused { IfErr result (λ fault. fault ≢ Fault.NoMemory → floor_step self.old (Event.Open scope) ≡ (self.new, Err fault)) }
        ensures unchanged { OnErr result (self.new ≡ self.old) }
    {
        if let Some(fault) = self.refuses(scope) {
            return Err(fault);
        }
        self.rows.reserve(1)?;
        let key = self.last_key + 1;
        let since = self.book.journal().len();
        let row = FloorRow::new(self.alloc, key, scope, since, self.capacity)?;
        let opening = found(self.alloc, &self.book, scope)?;
        self.rows.push(row).unwrap();
        self.last_key = key;
        Ok(Answer::Opened { key, opening })
    }

    /// Takes the next post of a watcher.
    fn take(&mut self, key: WatchKey) -> Result<Answer, Fault>
        ensures done { floor_step self.old (Event.Take key) ≡ (self.new, result) }
        ensures memory { IfErr result (λ fault. fault ≢ Fault.NoMemory) }
    {
        let Some(place) = place_of(&self.rows, key) else {
            return Err(Fault::NoWatcher);
        };
        match take_at(&mut self.rows, place) {
            Some(post) => Ok(Answer::Took(Some(SharedPost::new(post)))),
            None => nothing_left(self.rows[place].phase()),
        }
    }

    /// How far a watcher is.
    fn meet(&self, key: WatchKey) -> Result<Answer, Fault>
        requires idle { self.now.due ≡ [] }
        ensures done { floor_step self.now (Event.Meet key) ≡ (self.now, result) }
        ensures memory { IfErr result (λ fault. fault ≢ Fault.NoMemory) }
    {
        let Some(place) = place_of(&self.rows, key) else {
            return Err(Fault::NoWatcher);
        };
        Ok(Answer::Met(self.rows[place].meeting()))
    }

    /// Ends a watcher, and answers what it has not taken.
    fn close(&mut self, key: WatchKey) -> Result<Answer, Fault>
        requires idle { self.old.due ≡ [] }
        ensures done { floor_step self.old (Event.Close key) ≡ (self.new, result) }
        ensures memory { IfErr result (λ fault. fault ≢ Fault.NoMemory) }
    {
        let Some(place) = place_of(&self.rows, key) else {
            return Err(Fault::NoWatcher);
        };
        let row = self.rows.remove(place);
        Ok(Answer::Closed(row.into_posts()))
    }

    /// Stops the floor.
    fn stop(&mut self) -> Answer
        requires idle { self.old.due ≡ [] }
        ensures { floor_step self.old Event.Stop ≡ (self.new, Ok result) }
    {
        self.stopped = true;
        end_all(&mut self.rows);
        Answer::Halted
    }

    /// The event `Apply` of a command that is lent, done or refused as [`step`](Floor::step) does or refuses it, so
    /// that a command that the caller has need not be copied. If a post is due, the answer is `NotNow`.
    pub fn apply(&mut self, command: &Command) -> Result<Answer, Fault>
        ensures done { IfOk result (λ answer. floor_step self.old (Event.Apply command.now) ≡ (self.new, Ok answer)) }
        ensures refused { IfErr result (λ fault. fault ≢ Fault.NoMemory → floor_step self.old (Event.Apply command.now) ≡ (self.new, Err fault)) }
        ensures unchanged { OnErr result (self.new ≡ self.old) }
    {
        if !self.due.is_empty() {
            return Ok(Answer::NotNow);
        }
        self.apply_idle(command)
    }

    /// Does what an event says. If a post is due, each event except `PostNext` and `Take` is answered `NotNow`, before
    /// any refusal, and so is `PostNext` if none is due; then nothing has changed.
    ///
    /// Refused, with nothing changed:
    ///
    /// - `Apply` as `Stopped` after a stop, as `JournalFull` after 1,048,576 accepted commands, otherwise with the
    ///   first of the command's own refusals that holds, and as `NoMemory`;
    /// - `Open` as `NoNamespace` if its one namespace is not there, as `TooManyWatchers` if there are 64 watchers or
    ///   all keys were given out, as `Stopped` after a stop, and as `NoMemory`;
    /// - `Take`, `Meet` and `Close` as `NoWatcher` if the key has no watcher;
    /// - `Take` from an empty queue as `Lagged` or as `Stopped`, if the watcher lags or was ended by a stop.
    ///
    /// `PostNext`, `Take`, `Meet`, `Close` and `Stop` take no memory.
    pub fn step(&mut self, event: Event) -> Result<Answer, Fault>
        ensures done { IfOk result (λ answer. floor_step self.old event ≡ (self.new, Ok answer)) }
        ensures refused { IfErr result (λ fault. fault ≢ Fault.NoMemory → floor_step self.old event ≡ (self.new, Err fault)) }
        ensures memory { IfErr result (λ fault. fault ≡ Fault.NoMemory → takes_memory event ≡ true) }
        ensures unchanged { OnErr result (self.new ≡ self.old) }
    {
        if self.puts_off(&event) {
            return Ok(Answer::NotNow);
        }
        match event {
            Event::Apply(command) => self.apply_idle(&command),
            Event::PostNext => Ok(self.post_next()),
            Event::Open(scope) => self.open(scope),
            Event::Take(key) => self.take(key),
            Event::Meet(key) => self.meet(key),
            Event::Close(key) => self.close(key),
            Event::Stop => Ok(self.stop()),
        }
    }

    /// Sends the posts that are due, one after another, as `PostNext` does. Takes no memory.
    pub fn settle(&mut self)
        ensures settled { self.new ≡ settled self.old }
        ensures idle { self.new.due ≡ [] }
    {
        'posts: while !self.due.is_empty() {
            self.post_next();
        }
    }

    /// Does events one after another, and answers each as `step` does, including those that it refuses. The answers and
    /// the floor are those of the events without those that found no memory, which were not done. The call itself is
    /// refused only where there is no room for the answers.
    ///
    /// The events that a watcher has taken are a prefix of those posted for the namespaces it follows since its
    /// opening, each once and in order, none posted after its close or lag; applied to its opening tables they give
    /// each namespace's table as of its last taken number (`headline`). This holds for every watcher that began on this
    /// floor, in this call or before it, whatever was done on it since it was new.
    pub fn run(&mut self, events: Vec<Event>) -> Result<Vec<Result<Answer, Fault>>, Fault>
        ensures schedule { IfOk result (λ answers. run self.old (done_events events.items answers.items) ≡ (self.new, done_answers events.items answers.items)) }
        ensures headline { IfOk result (λ answers. HeadlineHolds self.old (done_events events.items answers.items) (done_answers events.items answers.items) self.new) }
        ensures each { IfOk result (λ answers. length answers.items ≡ length events.items) }
        ensures memory { IfErr result (λ fault. fault ≡ Fault.NoMemory) }
        ensures unchanged { OnErr result (self.new ≡ self.old) }
    {
        let mut answers = Vec::with_capacity(self.alloc, events.len())?;
        'events: for event in events {
            let answer = self.step(event);
            answers.push(answer).unwrap();
        }
        Ok(answers)
    }
}
