//! How a session in a thread of its own follows posts, piece by piece.
ghost use Rattle.std.specs.Prelude.{◌≡◌, ◌≢◌, ◌<◌, ◌≤◌, List, ℕ, None, Some};
ghost use Rattle.mt_events.specs.Texts.{count_text};
ghost use Rattle.mt_requests.specs.declared.request.Request.TheVariants.{Follow};
ghost use Rattle.mt_session.specs.Requests.{by_phase};
ghost use Rattle.mt_session.specs.SharedTurns.{SharedView};
ghost use Rattle.mt_session.specs.SharedServing.{EndsWith, IsSoFar, IsPiece};

use crate::doorkeeper::Doorkeeper;
use crate::gate::Gate;
use crate::session::phase_text;
use crate::shared_answer::{Piece, Portion, Shared, Then};
use crate::shared_session::SharedSession;
use crate::text::Text;
use mt_book::command::Reply;
use mt_desk::lines::Naming;
use mt_events::texts::PrintedPosts;
use mt_floor::watch::Phase;
use std::sync::Wait;
use std::time::Clock;

/// How many posts of a `follow` are sent at once at most.
const MOST_AT_ONCE: u64 = 64;

/// Posts, with which so many are told.
fn tell(printed: PrintedPosts, told: u64) -> Piece
    ensures text { result.text ≡ Some printed.text.items }
    ensures then { result.then ≡ Then.More told }
{
    Piece {
        text: Some(Text::lines(printed.text)),
        tells: true,
        then: Then::More(told),
    }
}

impl<'a, J: Naming, G: Gate, K: Doorkeeper, R: Wait + Clock> Shared<'a, J, G, K, R> {
    /// What comes next where none wait: the session rests, or tells why there will be no more.
    fn pause(&self, told: u64, phase: Phase) -> Piece
        ensures rest { phase ≡ Phase.Open → (result.text ≡ None) × (result.then ≡ Then.More told) }
        ensures over { phase ≢ Phase.Open → EndsWith (by_phase (count_text told) phase) None result.text result.then }
    {
        if phase != Phase::Open {
            return Piece::last(phase_text(told, phase), None);
        }
        self.bell.rest(self.rt);
        Piece {
            text: None,
            tells: false,
            then: Then::More(told),
        }
    }

    /// The next piece of the answer to a `follow` of so many posts, of which so many were told.
    pub(crate) fn follow(&self, session: &mut SharedSession<J>, most: u64, told: u64) -> Piece
        requires some { 0 < most }
        requires within { told ≤ most }
        ensures { (s : SharedView) (out : List ℕ) → IsSoFar s (Follow most) out told session.old → IsPiece s (Follow most) out result.text result.then session.new }
    {
        if told == most {
            return Piece::last(Text::reply(Reply::Number(told)), None);
        }
        match self.take_posts(session, (most - told).min(MOST_AT_ONCE)) {
            Ok(Portion::Posts(printed)) => {
                let told = told + printed.posts;
                tell(printed, told)
            }
            Ok(Portion::Empty(phase)) => self.pause(told, phase),
            Err(fault) => Piece::refusal(fault),
        }
    }
}
