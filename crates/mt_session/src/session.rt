//! What a session does for a request.
ghost use Rattle.std.specs.Prelude.{◌≡◌, length, flat_map, IfOk, IfErr, OnOk, OnErr, IsOkUnless, None, Some, []};
ghost use Rattle.std.specs.Option.{ForSome};
ghost use Rattle.std.specs.Prelude.{IsSome};
ghost use Rattle.mt_events.specs.Posts.{post_text};
ghost use Rattle.mt_floor.specs.Schedule.{floor_step, settled};
ghost use Rattle.mt_events.specs.Texts.{count_text, lines_of_posts, followed_text};
ghost use Rattle.mt_session.specs.Answers.{reply_text};
ghost use Rattle.mt_session.specs.Serving.{reply_in, begun_in, phase_in};
ghost use Rattle.mt_session.specs.Requests.{session_state, session_at, answer_to, state_to, left, begun, replied_text, opened_text, by_phase, rest_text, taken_text, end_of_followed, closed_text, taken, next_posts, IsUndone};

use crate::queries::{asked, told_refusal};
use crate::text::Text;
use mt_book::command::{Command, Reply};
use mt_events::opening::{Opening, Scope};
use mt_events::texts::PrintedPosts;
use mt_floor::event::{Answer, Event};
use mt_floor::floor::Floor;
use mt_floor::watch::{Phase, WatchKey};
use mt_requests::request::Request;
use mt_skel::fault::Fault;
use std::alloc::Global;
use std::marker::Model;

/// A session on a floor: the key of its watcher, if it has one.
#[derive(Drop)]
pub struct Session {
    watcher: Option<WatchKey>,
    alloc: Global,
}

impl Model for Session {
    ghost use Rattle.std.specs.Prelude.{ℕ, Option};

    ghost Value = { Option ℕ };

    ghost view = { λ s. s.watcher };
}

/// What a command is answered that was not refused.
fn told_reply(answer: Answer) -> Text
    requires { IsSome (reply_in answer) }
    ensures { ForSome (reply_in answer) (λ reply. result ≡ reply_text reply) }
{
    match answer {
        Answer::Replied(reply) => Text::reply(reply),
        _ => unreachable!(),
    }
}

/// Applies a command, and sends its posts to the watchers.
fn run(floor: &mut Floor, command: &Command) -> Result<Text, Fault>
    requires idle { floor.old.due ≡ [] }
    ensures ok { IfOk result (λ text. (text ≡ replied_text floor.old command.now) × (floor.new ≡ settled (floor_step floor.old (Event.Apply command.now)).0)) }
    ensures memory { IfErr result (λ fault. (fault ≡ Fault.NoMemory) × (floor.new ≡ floor.old)) }
    ensures idle { floor.new.due ≡ [] }
{
    let text = match floor.apply(command) {
        Ok(answer) => told_reply(answer),
        Err(fault) => told_refusal(fault)?,
    };
    floor.settle();
    Ok(text)
}

/// The reply when the queue is empty after `told` posts: their count, or why no more will come. Takes no memory.
pub(crate) fn phase_text(told: u64, phase: Phase) -> Text
    ensures { result ≡ by_phase (count_text told) phase }
{
    match phase {
        Phase::Open => Text::reply(Reply::Number(told)),
        Phase::Lagged => Text::refusal(Fault::Lagged),
        Phase::Ended => Text::refusal(Fault::Stopped),
    }
}

/// The same, by how far a floor says that the watcher is.
fn rest_of(told: u64, met: Answer) -> Text
    requires { IsSome (phase_in met) }
    ensures { ForSome (phase_in met) (λ phase. result ≡ by_phase (count_text told) phase) }
{
    match met {
        Answer::Met(meeting) => phase_text(told, meeting.state),
        _ => unreachable!(),
    }
}

/// The reply when the queue is empty after `told` posts, by what a meeting tells of the watcher.
fn rest(floor: &mut Floor, key: WatchKey, told: u64) -> Text
    requires idle { floor.old.due ≡ [] }
    ensures text { result ≡ rest_text (count_text told) floor.old key }
    ensures floor { floor.new ≡ floor.old }
{
    match floor.step(Event::Meet(key)) {
        Ok(met) => rest_of(told, met),
        Err(fault) => Text::refusal(fault),
    }
}

/// The next posts of a watcher as they are sent to a client, so many of them.
fn print_next(
    alloc: Global,
    floor: &Floor,
    key: WatchKey,
    count: usize,
) -> Result<PrintedPosts, Fault>
    ensures text { IfOk result (λ printed. printed.text.items ≡ flat_map post_text (next_posts floor.now key count)) }
    ensures lines { IfOk result (λ printed. printed.lines ≡ lines_of_posts (next_posts floor.now key count)) }
    ensures memory { IfErr result (λ fault. fault ≡ Fault.NoMemory) }
{
    let mut printed = PrintedPosts::new(alloc);
    'posts: for index in 0..count {
        let Some(post) = floor.waiting_post(key, index) else {
            return Ok(printed);
        };
        printed.push(post)?;
    }
    Ok(printed)
}

/// Takes so many posts of a watcher, which were told.
fn take_told(floor: &mut Floor, key: WatchKey, count: usize)
    requires idle { floor.old.due ≡ [] }
    ensures floor { floor.new ≡ taken floor.old key count }
    ensures idle { floor.new.due ≡ [] }
{
    'posts: for _index in 0..count {
        let _ = floor.step(Event::Take(key));
    }
}

/// Takes up to so many posts of a watcher. They are printed first, so that none is lost for want of memory.
fn take(alloc: Global, floor: &mut Floor, key: WatchKey, most: u64) -> Result<Text, Fault>
    requires idle { floor.old.due ≡ [] }
    ensures ok { IfOk result (λ text. (text ≡ taken_text floor.old key (next_posts floor.old key most)) × (floor.new ≡ taken floor.old key (length (next_posts floor.old key most)))) }
    ensures memory { IfErr result (λ fault. (fault ≡ Fault.NoMemory) × (floor.new ≡ floor.old)) }
    ensures idle { floor.new.due ≡ [] }
{
    let count = floor.waiting_count(key).min(most as usize);
    if count == 0 {
        return Ok(rest(floor, key, 0));
    }
    let printed = print_next(alloc, floor, key, count)?;
    let text = Text::counted(alloc, printed.lines, &printed.text)?;
    take_told(floor, key, count);
    Ok(text)
}

/// How a client is told of the end of posts that it followed, of which there were so many.
fn end_of_followed(floor: &mut Floor, key: WatchKey, most: u64, told: u64) -> Text
    requires idle { floor.old.due ≡ [] }
    ensures text { result ≡ end_of_followed floor.old key most told }
    ensures floor { floor.new ≡ floor.old }
{
    if told == most {
        Text::reply(Reply::Number(told))
    } else {
        rest(floor, key, told)
    }
}

/// Takes the posts of a watcher that are there, up to so many, as they are followed.
fn follow(alloc: Global, floor: &mut Floor, key: WatchKey, most: u64) -> Result<Text, Fault>
    requires idle { floor.old.due ≡ [] }
    ensures ok { IfOk result (λ text. (text ≡ followed_text (next_posts floor.old key most) (end_of_followed floor.old key most (length (next_posts floor.old key most)))) × (floor.new ≡ taken floor.old key (length (next_posts floor.old key most)))) }
    ensures memory { IfErr result (λ fault. (fault ≡ Fault.NoMemory) × (floor.new ≡ floor.old)) }
    ensures idle { floor.new.due ≡ [] }
{
    let count = floor.waiting_count(key).min(most as usize);
    let mut printed = print_next(alloc, floor, key, count)?;
    let end = end_of_followed(floor, key, most, count as u64);
    printed.text.extend_from_slice(end.bytes())?;
    take_told(floor, key, count);
    Ok(Text::lines(printed.text))
}

/// Stops the floor.
fn stop(floor: &mut Floor)
    requires idle { floor.old.due ≡ [] }
    ensures floor { floor.new ≡ (floor_step floor.old Event.Stop).0 }
    ensures idle { floor.new.due ≡ [] }
{
    let _ = floor.step(Event::Stop);
}

/// Closes a watcher, and tells what it has not taken.
fn close(alloc: Global, floor: &mut Floor, key: WatchKey) -> Result<Text, Fault>
    requires idle { floor.old.due ≡ [] }
    ensures ok { IfOk result (λ text. (text ≡ closed_text floor.old key) × (floor.new ≡ (floor_step floor.old (Event.Close key)).0)) }
    ensures memory { IfErr result (λ fault. (fault ≡ Fault.NoMemory) × (floor.new ≡ floor.old)) }
    ensures idle { floor.new.due ≡ [] }
{
    let count = floor.waiting_count(key);
    let printed = print_next(alloc, floor, key, count)?;
    let text = Text::counted(alloc, printed.lines, &printed.text)?;
    match floor.step(Event::Close(key)) {
        Ok(_) => Ok(text),
        Err(fault) => Ok(Text::refusal(fault)),
    }
}

/// The watcher that has begun, by this answer, and what it found.
fn begun_by(answer: Answer) -> (WatchKey, Opening)
    requires { IsSome (begun_in answer) }
    ensures { begun_in answer ≡ Some result }
{
    match answer {
        Answer::Opened { key, opening } => (key, opening),
        _ => unreachable!(),
    }
}

impl Session {
    /// A session with no watcher. Memory for its answers will come from `alloc`.
    pub fn new(alloc: Global) -> Session
        ensures { result ≡ None }
    {
        Session {
            watcher: None,
            alloc,
        }
    }

    /// Where memory for its answers comes from.
    pub(crate) fn alloc(&self) -> Global {
        self.alloc
    }

    /// Begins a watcher, and tells what it finds. Where there is no memory to tell it, the watcher is closed again.
    fn watch(&mut self, floor: &mut Floor, scope: Scope) -> Result<Text, Fault>
        requires none { self.old ≡ None }
        requires idle { floor.old.due ≡ [] }
        ensures ok { IfOk result (λ text. (text ≡ opened_text floor.old scope) × (session_state floor.new self.new ≡ begun floor.old scope)) }
        ensures memory { IfErr result (λ fault. (fault ≡ Fault.NoMemory) × IsUndone (session_state floor.old self.old) (Request.Watch scope) (session_state floor.new self.new)) }
        ensures idle { floor.new.due ≡ [] }
    {
        let answer = match floor.step(Event::Open(scope)) {
            Ok(answer) => answer,
            Err(fault) => return told_refusal(fault),
        };
        let (key, opening) = begun_by(answer);
        match Text::opening(self.alloc, &opening) {
            Ok(text) => {
                self.watcher = Some(key);
                Ok(text)
            }
            Err(fault) => {
                let _ = floor.step(Event::Close(key));
                Err(fault)
            }
        }
    }

    /// Does a request, and answers the lines that are sent for it, those of a refusal too: `no` and its name. Before it
    /// and after a command the posts that are due are sent to their watchers.
    ///
    /// `watch` is refused as `WatcherOpen` where the session has a watcher, else as the floor refuses it; `take`,
    /// `follow` and `close` as `NoWatcher` where it has none. `take` and `follow` tell the posts that are there, up to
    /// as many as are asked for; where `take` finds none, and where `follow` finds fewer, a watcher that lags is told
    /// `no Lagged`, and one that a stop has ended `no Stopped`.
    ///
    /// Want of memory is the only refusal here. Then nothing has changed, but that a watcher may have begun that could
    /// not be told what it found, and was closed again.
    #[tactic(auto, unfolding(crate::specs::Requests::answer_to, crate::specs::Requests::state_to))]
    pub fn turn(&mut self, floor: &mut Floor, request: &Request) -> Result<Text, Fault>
        ensures text { IfOk result (λ text. text ≡ answer_to (session_at floor.old self.old) request.now) }
        ensures state { OnOk result (session_state floor.new self.new ≡ state_to (session_at floor.old self.old) request.now) }
        ensures memory { IsOkUnless result Fault.NoMemory }
        ensures undone { OnErr result (IsUndone (session_at floor.old self.old) request.now (session_state floor.new self.new)) }
        ensures idle { floor.new.due ≡ [] }
    {
        floor.settle();
        match (request, self.watcher) {
            (Request::Run(command), _) => run(floor, command),
            (Request::Ask(query), _) => asked(self.alloc, floor.book(), query),
            (Request::Watch(scope), None) => self.watch(floor, *scope),
            (Request::Watch(_), Some(_)) => Ok(Text::refusal(Fault::WatcherOpen)),
            (Request::Take(most), Some(key)) => take(self.alloc, floor, key, *most),
            (Request::Follow(most), Some(key)) => follow(self.alloc, floor, key, *most),
            (Request::Close, Some(key)) => {
                let text = close(self.alloc, floor, key)?;
                self.watcher = None;
                Ok(text)
            }
            (Request::Take(_) | Request::Follow(_) | Request::Close, None) => {
                Ok(Text::refusal(Fault::NoWatcher))
            }
            (Request::Quit, _) => Ok(Text::reply(Reply::Done)),
            (Request::Stop, _) => {
                stop(floor);
                Ok(Text::reply(Reply::Done))
            }
        }
    }

    /// Closes the session's watcher, if it has one, and sends the posts that are due. Takes no memory.
    pub fn leave(&mut self, floor: &mut Floor)
        ensures state { session_state floor.new self.new ≡ left (session_at floor.old self.old) }
        ensures none { self.new ≡ None }
        ensures idle { floor.new.due ≡ [] }
    {
        floor.settle();
        if let Some(key) = self.watcher {
            let _ = floor.step(Event::Close(key));
            self.watcher = None;
        }
    }
}
