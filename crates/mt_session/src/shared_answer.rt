//! How a session in a thread of its own answers a request. An answer is pieces, one after another, and no stream is known here.
ghost use Rattle.std.specs.Prelude.{◌≡◌, ◌≢◌, ◌++◌, ◌<◌, ◌⊎◌, [], Option, true, Ok, None, Some};
ghost use Rattle.std.specs.Option.{ForSome};
ghost use Rattle.mt_skel.specs.declared.fault.Fault.TheVariants.{NoMemory, NoWatcher};
ghost use Rattle.mt_events.specs.Following.{IsRun};
ghost use Rattle.mt_events.specs.Texts.{count_text, posts_text};
ghost use Rattle.mt_desk.specs.Calls.{WatcherView};
ghost use Rattle.mt_requests.specs.declared.request.Request.TheVariants.{Take, Close};
ghost use Rattle.mt_session.specs.declared.serving.End.TheVariants.{Memory};
ghost use Rattle.mt_session.specs.Answers.{refusal};
ghost use Rattle.mt_session.specs.SharedTurns.{is_under_lock, SeesOn};
ghost use Rattle.mt_session.specs.SharedSession.{HasLeft};
ghost use Rattle.mt_session.specs.Session.{ends_by};
ghost use Rattle.mt_session.specs.SharedServing.{HasMet, HasEndedAt, IsPortion, EndsWith, IsPiece};

use crate::bell::Bell;
use crate::doorkeeper::Doorkeeper;
use crate::gate::Gate;
use crate::serving::End;
use crate::session::phase_text;
use crate::shared_session::{SharedSession, told};
use crate::text::Text;
use mt_desk::desk::Desk;
use mt_desk::lines::Naming;
use mt_events::shared::SharedPosts;
use mt_events::texts::PrintedPosts;
use mt_floor::watch::{Meeting, Phase};
use mt_requests::request::Request;
use mt_skel::fault::Fault;
use std::alloc::Global;
use std::sync::{Mutex, Wait};
use std::time::Clock;

/// What a session shares with the others, and what is its own for all its requests.
#[derive(Drop)]
pub struct Shared<'a, J: Naming, G: Gate, K: Doorkeeper, R> {
    /// What it waits by.
    pub rt: &'a R,
    /// The desk, which is held while a request is done.
    pub desk: &'a Mutex<Desk<J>>,
    /// Where a session that follows rests.
    pub bell: &'a Bell,
    /// What is called at moments of the session.
    pub gate: &'a G,
    /// Who hears of a stop.
    pub doorkeeper: &'a K,
    /// The session's number.
    pub number: u64,
    /// What memory for answers comes from.
    pub alloc: Global,
}

/// A piece of an answer.
pub(crate) struct Piece {
    /// Its lines. None where the session has rested: then it finds out whether its client is still there.
    pub(crate) text: Option<Text>,
    /// Whether the lines tell posts.
    pub(crate) tells: bool,
    /// What comes behind it.
    pub(crate) then: Then,
}

/// What comes behind a piece of an answer.
#[derive(Clone, Copy)]
pub(crate) enum Then {
    /// More pieces. So many posts are told with this one.
    More(u64),
    /// Nothing, and so the session ends by the answer, if it does.
    Over(Option<End>),
}

// Written out, as for Text.
impl Drop for Piece {
    fn drop(self) {
        let Piece {
            text: _text,
            tells: _tells,
            then: _then,
        } = self;
    }
}

impl Piece {
    /// The last piece of an answer.
    pub(crate) fn last(text: Text, end: Option<End>) -> Piece
        ensures { EndsWith text end result.text result.then }
    {
        Piece {
            text: Some(text),
            tells: false,
            then: Then::Over(end),
        }
    }

    /// Why a request that takes posts is refused. Where memory was wanting, posts are lost, with which the session ends.
    pub(crate) fn refusal(fault: Fault) -> Piece
        ensures lost { fault ≡ Fault.NoMemory → EndsWith (refusal NoMemory) (Some Memory) result.text result.then }
        ensures others { fault ≢ Fault.NoMemory → EndsWith (refusal fault) None result.text result.then }
    {
        if fault == Fault::NoMemory {
            Piece::last(Text::refusal(Fault::NoMemory), Some(End::Memory))
        } else {
            Piece::last(Text::refusal(fault), None)
        }
    }
}

/// What is told of a watcher that has ended: what was sent to it and not taken.
fn told_end(alloc: Global, ended: Option<SharedPosts>) -> Piece
    ensures none { ended ≡ None → EndsWith (refusal NoWatcher) None result.text result.then }
    ensures some { ForSome ended (λ posts. EndsWith (posts_text posts) None result.text result.then ⊎ EndsWith (refusal NoMemory) (Some Memory) result.text result.then) }
{
    let Some(posts) = ended else {
        return Piece::last(Text::refusal(Fault::NoWatcher), None);
    };
    match told(alloc, posts.as_slice()) {
        Ok(text) => Piece::last(text, None),
        Err(_) => Piece::refusal(Fault::NoMemory),
    }
}

/// What a session finds that takes posts.
#[derive(Drop)]
pub(crate) enum Portion {
    /// Posts, at least one.
    Posts(PrintedPosts),
    /// None wait, and the watcher is so far.
    Empty(Phase),
}

/// The answer to a `take` that took these posts.
fn took_posts(alloc: Global, printed: &PrintedPosts) -> Piece
    ensures { EndsWith (count_text printed.now.lines ++ printed.now.text.items) None result.text result.then ⊎ EndsWith (refusal NoMemory) (Some Memory) result.text result.then }
{
    match Text::counted(alloc, printed.lines, &printed.text) {
        Ok(text) => Piece {
            text: Some(text),
            tells: true,
            then: Then::Over(None),
        },
        Err(_) => Piece::refusal(Fault::NoMemory),
    }
}

impl<'a, J: Naming, G: Gate, K: Doorkeeper, R: Wait + Clock> Shared<'a, J, G, K, R> {
    /// Meets the desk while it is held.
    fn meet(&self, session: &mut SharedSession<J>) -> Option<Meeting>
        ensures met { HasMet session.old.own result session.new.own session.new.sight.seen }
        ensures sight { SeesOn session.old.sight session.new.sight }
    {
        self.bell.turns().begin(self.rt);
        let mut desk = self.desk.lock(self.rt);
        let met = session.meet(&mut *desk);
        drop(desk);
        self.bell.turns().end(self.rt);
        met
    }

    /// Ends the session's watcher, if it has one, while the desk is held, and hands out what was sent to it and not taken.
    fn end_watcher(&self, session: &mut SharedSession<J>) -> Option<SharedPosts>
        ensures none { session.new.own ≡ None }
        ensures ended { HasEndedAt session.old result session.new.sight }
    {
        self.bell.turns().begin(self.rt);
        let mut desk = self.desk.lock(self.rt);
        let posts = session.end(self.rt, &mut *desk);
        drop(desk);
        self.bell.turns().end(self.rt);
        posts
    }

    /// Closes the session's watcher, if it has one, at the desk after so much of the history as the session has seen then. The
    /// desk is held until it is closed, and not while posts are let go.
    pub fn leave(&self, session: &mut SharedSession<J>)
        ensures none { session.new.own ≡ None }
        ensures left { HasLeft session.old.own session.new.sight.seen }
        ensures sight { SeesOn session.old.sight session.new.sight }
    {
        let _posts = self.end_watcher(session);
    }

    /// Closes the session's watcher: the answer to a `close`, a single piece. The desk is held until the watcher is closed, and
    /// not while its posts are printed.
    pub(crate) fn answer_close(&self, session: &mut SharedSession<J>) -> Piece
        ensures { IsPiece session.old Close [] result.text result.then session.new }
    {
        let ended = self.end_watcher(session);
        told_end(self.alloc, ended)
    }

    /// Does a request while the desk is held, any but `take`, `follow` and `close`, by which the session ends so, if it
    /// does: its answer, a single piece. Whoever rests is woken by it, and the doorkeeper hears of a stop.
    pub(crate) fn answer_locked(
        &self,
        session: &mut SharedSession<J>,
        request: &Request,
        wakes: bool,
        end: Option<End>,
    ) -> Piece
        requires lock { is_under_lock request.now ≡ true }
        requires other { request.now ≢ Request.Close }
        requires end { end ≡ ends_by (Ok request.now) }
        ensures { IsPiece session.old request.now [] result.text result.then session.new }
    {
        self.bell.turns().begin(self.rt);
        let mut desk = self.desk.lock(self.rt);
        let answer = session.locked(self.rt, &mut *desk, request);
        if wakes && answer.is_ok() {
            self.gate.in_lock(self.rt, self.number);
        }
        drop(desk);
        self.bell.turns().end(self.rt);
        self.announce(wakes, end);
        match answer {
            Ok(text) => Piece::last(text, end),
            Err(_) => Piece::last(Text::refusal(Fault::NoMemory), None),
        }
    }

    /// Tells whom it concerns that a request was done: those that rest, and the doorkeeper of a stop.
    fn announce(&self, wakes: bool, end: Option<End>) {
        if wakes {
            self.bell.ring(self.rt);
        }
        if end == Some(End::Stop) {
            self.doorkeeper.close(self.rt);
        }
    }

    /// Takes up to so many posts, of which none waited at first: the session meets the desk, and takes again if some have
    /// come. Refused as `NoWatcher` where it has none, and as `NoMemory`, where the posts that were taken are lost.
    fn take_met(&self, session: &mut SharedSession<J>, most: u64) -> Result<Portion, Fault>
        requires some { 0 < most }
        requires running { ForSome session.old.own (λ (w : WatcherView). IsRun w.half.opening w.half.taken) }
        ensures portion { IsPortion session.old.own most result session.new.own session.new.sight.seen }
        ensures sight { SeesOn session.old.sight session.new.sight }
    {
        let Some(meeting) = self.meet(session) else {
            return Err(Fault::NoWatcher);
        };
        if meeting.posted > meeting.taken {
            let posts = session.pops(self.rt, most)?;
            return Ok(Portion::Posts(posts));
        }
        Ok(Portion::Empty(meeting.state))
    }

    /// Takes up to so many posts. Refused as `NoWatcher` where the session has none, and as `NoMemory`, where the posts that
    /// were taken are lost.
    pub(crate) fn take_posts(
        &self,
        session: &mut SharedSession<J>,
        most: u64,
    ) -> Result<Portion, Fault>
        requires { 0 < most }
        ensures portion { IsPortion session.old.own most result session.new.own session.new.sight.seen }
        ensures sight { SeesOn session.old.sight session.new.sight }
    {
        let printed = session.pops(self.rt, most)?;
        if printed.posts == 0 {
            return self.take_met(session, most);
        }
        Ok(Portion::Posts(printed))
    }

    /// Takes up to so many posts: the answer to a `take`, a single piece.
    pub(crate) fn answer_take(&self, session: &mut SharedSession<J>, most: u64) -> Piece
        requires { 0 < most }
        ensures { IsPiece session.old (Take most) [] result.text result.then session.new }
    {
        match self.take_posts(session, most) {
            Ok(Portion::Posts(printed)) => took_posts(self.alloc, &printed),
            Ok(Portion::Empty(phase)) => Piece::last(phase_text(0, phase), None),
            Err(fault) => Piece::refusal(fault),
        }
    }
}
