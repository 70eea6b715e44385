//! What a session in a thread of its own does for a request.
ghost use Rattle.std.specs.Prelude.{◌≡◌, ◌≢◌, ◌≤◌, ◌++◌, List, length, map, true, IfOk, IfErr, OnOk, OnErr, IsOkUnless, IsSome, Err, None, Some};
ghost use Rattle.std.specs.Option.{ForSome};
ghost use Rattle.std.specs.Arc.{arc_value};
ghost use Rattle.mt_events.specs.Posts.{PostView};
ghost use Rattle.mt_events.specs.Following.{IsRun};
ghost use Rattle.mt_desk.specs.Entries.{entries, IsSeen};
ghost use Rattle.mt_desk.specs.Calls.{WatcherView, IsMet, IsClosed};
ghost use Rattle.mt_desk.specs.Desk.{IsDesk, floor_of_desk};
ghost use Rattle.mt_desk.specs.Headline.{Meet, Close, IsScheduledBy};
ghost use Rattle.mt_events.specs.Texts.{posts_text};
ghost use Rattle.mt_session.specs.Requests.{answer_to, replied_text, opened_text, closed_text};
ghost use Rattle.mt_session.specs.SharedSession.{new_session};
ghost use Rattle.mt_session.specs.SharedTurns.{IsAtDesk, acts_at, floor_seen, found_state, is_under_lock, with_taken_posts, IsCommanded, IsBegun, IsDoneBy, IsUndoneBy, HasTaken, KeepsWatcher, HasPopped, HasEnded};

use crate::queries::{asked, told_refusal};
use crate::text::Text;
use mt_book::command::{Command, Reply};
use mt_desk::desk::{Desk, DeskWitness};
use mt_desk::lines::Naming;
use mt_desk::watcher::Watcher;
use mt_events::opening::Scope;
use mt_events::post::Post;
use mt_events::shared::SharedPosts;
use mt_events::texts::PrintedPosts;
use mt_floor::watch::Meeting;
use mt_requests::request::Request;
use mt_skel::fault::Fault;
use std::alloc::Global;
use std::marker::Model;
use std::sync::{Arc, Wait};

/// A session at the desk of a name: its watcher, if it has one, and what it knows of the history of the desk.
#[derive(Drop)]
pub struct SharedSession<J: Naming> {
    watcher: Option<Watcher<J>>,
    witness: DeskWitness<J>,
    alloc: Global,
}

impl<J: Naming> Model for SharedSession<J> {
    ghost use Rattle.mt_session.specs.SharedTurns.{SharedView};
    ghost use Rattle.mt_session.specs.Taking.{IsRunning};

    ghost Value = { SharedView };

    ghost view = { λ s. record { own = s.watcher; sight = s.witness } };

    ghost invariant = { λ s. IsRunning s.watcher };
}

/// Applies a command, and answers its reply or refusal. Refused as `NoMemory` alone, with nothing changed.
fn run<J: Naming, R: Wait>(
    rt: &R,
    desk: &mut Desk<J>,
    witness: &mut DeskWitness<J>,
    command: &Command,
) -> Result<Text, Fault>
    ensures text { IfOk result (λ text. text ≡ replied_text (floor_of_desk desk.old.desk) command.now) }
    ensures done { OnOk result (IsCommanded desk.old.desk command.now desk.new.desk) }
    ensures log { OnOk result (desk.new.log ≡ desk.old.log ++ entries witness.old.by (acts_at desk.old.desk (Request.Run command.now))) }
    ensures memory { IsOkUnless result Fault.NoMemory }
    ensures unchanged { OnErr result (desk.new ≡ desk.old) }
    ensures sight { witness.new ≡ record witness.old { seen = desk.new.log } }
    ensures sees { IsSeen witness.old.by witness.old.seen desk.old.log }
{
    match desk.apply(rt, witness, command) {
        Ok(reply) => Ok(Text::reply(reply)),
        Err(fault) => told_refusal(fault),
    }
}

/// How far a watcher of the desk is.
fn met<J: Naming>(desk: &mut Desk<J>, watcher: &mut Watcher<J>) -> Meeting
    ensures met { IsMet desk.old.desk watcher.old result desk.new.desk watcher.new }
    ensures log { desk.new.log ≡ desk.old.log }
    ensures headline { IsScheduledBy (Meet watcher.old result watcher.new) desk.new.desk }
{
    match desk.meet(watcher) {
        Ok(meeting) => meeting,
        Err(_) => unreachable!(),
    }
}

/// Ends a watcher of the desk, and answers what was sent to it and not taken.
fn closed<J: Naming, R: Wait>(rt: &R, desk: &mut Desk<J>, watcher: Watcher<J>) -> SharedPosts
    ensures closed { IsClosed desk.old.desk watcher result desk.new.desk }
    ensures log { desk.new.log ≡ desk.old.log }
    ensures headline { IsScheduledBy (Close watcher result) desk.new.desk }
{
    match desk.close(rt, watcher) {
        Ok(posts) => posts,
        Err(_) => unreachable!(),
    }
}

/// Posts after how many lines they are. Refused as `NoMemory` alone.
pub(crate) fn told(alloc: Global, posts: &[Arc<Post>]) -> Result<Text, Fault>
    ensures text { IfOk result (λ text. text ≡ posts_text (map (λ p. arc_value p) posts.now)) }
    ensures memory { IsOkUnless result Fault.NoMemory }
{
    let mut printed = PrintedPosts::new(alloc);
    'posts: for post in posts {
        printed.push(post)?;
    }
    Ok(Text::counted(alloc, printed.lines, &printed.text)?)
}

/// Ends a watcher of the desk, and tells what was sent to it and not taken. Refused as `NoMemory` alone: then the watcher
/// has ended too, and that is lost.
fn told_end<J: Naming, R: Wait>(
    rt: &R,
    alloc: Global,
    desk: &mut Desk<J>,
    watcher: Watcher<J>,
) -> Result<Text, Fault>
    ensures text { IfOk result (λ text. text ≡ closed_text (floor_seen desk.old.desk (Some watcher)) watcher.key) }
    ensures closed { (posts : List PostView) × IsClosed desk.old.desk watcher posts desk.new.desk × IsScheduledBy (Close watcher posts) desk.new.desk }
    ensures log { desk.new.log ≡ desk.old.log }
    ensures memory { IsOkUnless result Fault.NoMemory }
{
    let posts = closed(rt, desk, watcher);
    told(alloc, posts.as_slice())
}

/// Takes up to so many posts of a watcher, and prints them. Refused as `NoMemory` alone, where those that were taken are
/// lost.
fn taken<J: Naming, R: Wait>(
    rt: &R,
    alloc: Global,
    watcher: &mut Watcher<J>,
    most: u64,
) -> Result<PrintedPosts, Fault>
    requires { IsRun watcher.old.half.opening watcher.old.half.taken }
    ensures popped { IfOk result (λ printed. HasPopped watcher.old most printed (Some watcher.new)) }
    ensures taken { (posts : List PostView) × (watcher.new ≡ with_taken_posts watcher.old posts) × (length posts ≤ most) }
    ensures memory { IsOkUnless result Fault.NoMemory }
    ensures run { IsRun watcher.new.half.opening watcher.new.half.taken }
{
    let mut printed = PrintedPosts::new(alloc);
    'posts: for _count in 0..most {
        let Some(post) = watcher.take(rt) else {
            return Ok(printed);
        };
        printed.push(&post)?;
    }
    Ok(printed)
}

impl<J: Naming> SharedSession<J> {
    /// A session with no watcher, which has seen of the history what its witness has. Memory for its answers will come from
    /// `alloc`.
    pub fn new(alloc: Global, witness: DeskWitness<J>) -> SharedSession<J>
        ensures { result ≡ new_session witness }
    {
        SharedSession {
            watcher: None,
            witness,
            alloc,
        }
    }

    /// What a session with no watcher has seen of the history.
    pub fn into_witness(self) -> DeskWitness<J>
        requires { self.own ≡ None }
        ensures { result ≡ self.sight }
    {
        let SharedSession {
            watcher: _,
            witness,
            alloc: _,
        } = self;
        witness
    }

    /// Begins a watcher, and tells what it finds. Where there is no memory to tell it, the watcher is closed again.
    fn begin<R: Wait>(&mut self, rt: &R, desk: &mut Desk<J>, scope: Scope) -> Result<Text, Fault>
        requires none { self.old.own ≡ None }
        requires desk { IsDesk desk.old.desk }
        ensures text { IfOk result (λ text. text ≡ opened_text (floor_of_desk desk.old.desk) scope) }
        ensures begun { OnOk result (IsBegun desk.old.desk scope desk.new.desk self.new.own) }
        ensures memory { IsOkUnless result Fault.NoMemory }
        ensures undone { OnErr result (IsUndoneBy desk.old.desk None (Request.Watch scope) desk.new.desk self.new.own) }
        ensures log { desk.new.log ≡ desk.old.log }
        ensures sight { self.new.sight ≡ self.old.sight }
    {
        let watcher = match desk.open(scope) {
            Ok(watcher) => watcher,
            Err(fault) => return told_refusal(fault),
        };
        match Text::opening(self.alloc, watcher.opening()) {
            Ok(text) => {
                self.watcher = Some(watcher);
                Ok(text)
            }
            Err(fault) => {
                let _ = closed(rt, desk, watcher);
                Err(fault)
            }
        }
    }

    /// Begins a watcher where the session has none.
    #[tactic(auto, unfolding(crate::specs::Requests::answer_to))]
    fn watch<R: Wait>(&mut self, rt: &R, desk: &mut Desk<J>, scope: Scope) -> Result<Text, Fault>
        requires { IsDesk desk.old.desk }
        ensures text { IfOk result (λ text. text ≡ answer_to (found_state desk.old.desk self.old.own) (Request.Watch scope)) }
        ensures done { OnOk result (IsDoneBy desk.old.desk self.old.own (Request.Watch scope) desk.new.desk self.new.own) }
        ensures memory { IsOkUnless result Fault.NoMemory }
        ensures undone { OnErr result (IsUndoneBy desk.old.desk self.old.own (Request.Watch scope) desk.new.desk self.new.own) }
        ensures log { desk.new.log ≡ desk.old.log }
        ensures sight { self.new.sight ≡ self.old.sight }
    {
        if self.watcher.is_some() {
            return Ok(Text::refusal(Fault::WatcherOpen));
        }
        self.begin(rt, desk, scope)
    }

    /// Closes the session's watcher, if it has one, and tells what it has not taken.
    #[tactic(auto, unfolding(crate::specs::Requests::answer_to))]
    fn close<R: Wait>(&mut self, rt: &R, desk: &mut Desk<J>) -> Result<Text, Fault>
        ensures text { IfOk result (λ text. text ≡ answer_to (found_state desk.old.desk self.old.own) Request.Close) }
        ensures done { OnOk result (IsDoneBy desk.old.desk self.old.own Request.Close desk.new.desk self.new.own) }
        ensures memory { IsOkUnless result Fault.NoMemory }
        ensures undone { OnErr result (IsUndoneBy desk.old.desk self.old.own Request.Close desk.new.desk self.new.own) }
        ensures log { desk.new.log ≡ desk.old.log }
        ensures sight { self.new.sight ≡ self.old.sight }
    {
        match self.watcher.take() {
            Some(watcher) => told_end(rt, self.alloc, desk, watcher),
            None => Ok(Text::refusal(Fault::NoWatcher)),
        }
    }

    /// Does a request while the desk is held, any but `take` and `follow`, and answers the lines that are sent for it,
    /// those of a refusal too: `no` and its name. A command that is accepted, and a stop, stand in the history then, once
    /// and as this session's; else the history stays.
    ///
    /// `watch` is refused as `WatcherOpen` where the session has a watcher, else as the desk refuses it; `close` as
    /// `NoWatcher` where it has none.
    ///
    /// Want of memory is the only refusal here. Then nothing has changed; but a watcher that has begun and could not be
    /// told what it found is closed again, and `close` has closed the watcher, whose posts are lost. It may wait for a
    /// step of a watcher that takes.
    #[tactic(auto, unfolding(crate::specs::Requests::answer_to))]
    pub fn locked<R: Wait>(
        &mut self,
        rt: &R,
        desk: &mut Desk<J>,
        request: &Request,
    ) -> Result<Text, Fault>
        requires { is_under_lock request.now ≡ true }
        ensures text { IfOk result (λ text. text ≡ answer_to (found_state desk.old.desk self.old.own) request.now) }
        ensures done { OnOk result (IsDoneBy desk.old.desk self.old.own request.now desk.new.desk self.new.own) }
        ensures log { OnOk result (desk.new.log ≡ desk.old.log ++ entries self.old.sight.by (acts_at desk.old.desk request.now)) }
        ensures memory { IsOkUnless result Fault.NoMemory }
        ensures undone { OnErr result (IsUndoneBy desk.old.desk self.old.own request.now desk.new.desk self.new.own) }
        ensures unlogged { OnErr result (desk.new.log ≡ desk.old.log) }

        // The session has seen the history as it is then; before, a beginning that had all that it did.
        ensures sight { self.new.sight ≡ record self.old.sight { seen = desk.new.log } }
        ensures kept { IsAtDesk self.old.sight desk.old.desk desk.old.log }
    {
        let _held = desk.book();
        desk.look(&mut self.witness);
        match request {
            Request::Run(command) => run(rt, desk, &mut self.witness, command),
            Request::Ask(query) => asked(self.alloc, desk.book(), query),
            Request::Watch(scope) => self.watch(rt, desk, *scope),
            Request::Close => self.close(rt, desk),
            Request::Quit => Ok(Text::reply(Reply::Done)),
            Request::Stop => {
                desk.stop(&mut self.witness);
                Ok(Text::reply(Reply::Done))
            }
            Request::Take(_) | Request::Follow(_) => unreachable!(),
        }
    }

    /// Takes up to so many posts of the session's watcher, without the desk, and prints them.
    ///
    /// Refused as `NoWatcher` where the session has none, with nothing changed, and as `NoMemory`, where the posts that
    /// were taken are lost. It may wait for a step of the thread that sends.
    pub fn pops<R: Wait>(&mut self, rt: &R, most: u64) -> Result<PrintedPosts, Fault>
        ensures popped { IfOk result (λ printed. ForSome self.old.own (λ (w : WatcherView). HasPopped w most printed self.new.own)) }
        ensures watched { OnOk result (IsSome self.old.own) }
        ensures refused { IfErr result (λ fault. fault ≢ Fault.NoMemory → (fault ≡ Fault.NoWatcher) × (self.old.own ≡ None) × (self.new.own ≡ None)) }
        ensures lost { result ≡ Err Fault.NoMemory → ForSome self.old.own (λ (w : WatcherView). (posts : List PostView) × (w' : WatcherView) × HasTaken w posts w' × (self.new.own ≡ Some w') × (length posts ≤ most)) }
        ensures refuses { self.old.own ≡ None → result ≡ Err Fault.NoWatcher }
        ensures watcher { KeepsWatcher self.old.own self.new.own }
        ensures sight { self.new.sight ≡ self.old.sight }

        // What is always true of the session's watcher.
        ensures running { ForSome self.old.own (λ (w : WatcherView). IsRun w.half.opening w.half.taken) }
    {
        let Some(watcher) = &mut self.watcher else {
            return Err(Fault::NoWatcher);
        };
        taken(rt, self.alloc, watcher, most)
    }

    /// How many posts were sent to the session's watcher, how many of them it has taken, and whether it is still posted
    /// to; none where the session has no watcher. Takes no memory, and waits for nothing.
    pub fn meet(&mut self, desk: &mut Desk<J>) -> Option<Meeting>
        ensures none { self.old.own ≡ None → (result ≡ None) × (self.new.own ≡ None) × (desk.new ≡ desk.old) }
        ensures met { ForSome self.old.own (λ (w : WatcherView). (m : Meeting) × (w' : WatcherView) × IsMet desk.old.desk w m desk.new.desk w' × (result ≡ Some m) × (self.new.own ≡ Some w') × IsScheduledBy (Meet w m w') desk.new.desk) }
        ensures log { desk.new.log ≡ desk.old.log }

        // The session has seen the history as it is then; before, a beginning that had all that it did.
        ensures sight { self.new.sight ≡ record self.old.sight { seen = desk.old.log } }
        ensures kept { IsAtDesk self.old.sight desk.old.desk desk.old.log }
    {
        let _book = desk.book();
        desk.look(&mut self.witness);
        match &mut self.watcher {
            Some(watcher) => Some(met(desk, watcher)),
            None => None,
        }
    }

    /// Ends the session's watcher, if it has one, and hands out what was sent to it and not taken. Takes no memory. It may
    /// wait, as each call on a queue may.
    pub fn end<R: Wait>(&mut self, rt: &R, desk: &mut Desk<J>) -> Option<SharedPosts>
        ensures none { self.new.own ≡ None }
        ensures ended { HasEnded desk.old.desk self.old.own result desk.new.desk }
        ensures log { desk.new.log ≡ desk.old.log }

        // The session has seen the history as it is then; before, a beginning that had all that it did.
        ensures sight { self.new.sight ≡ record self.old.sight { seen = desk.old.log } }
        ensures kept { IsAtDesk self.old.sight desk.old.desk desk.old.log }
    {
        let _book = desk.book();
        desk.look(&mut self.witness);
        match self.watcher.take() {
            Some(watcher) => Some(closed(rt, desk, watcher)),
            None => None,
        }
    }
}
