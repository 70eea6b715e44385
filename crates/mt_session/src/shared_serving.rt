//! A session in a thread of its own: lines in, answers out, at a desk that others share.
ghost use Rattle.std.specs.Prelude.{◌≡◌, ◌<◌, ◌≤◌, ◌⊎◌, ℕ, List, [], take, unwrap_or, Option, true, IsTrue, IfErr, OnOk, OnErr, Ok, None, Some};
ghost use Rattle.std.specs.Io.KnownBytes.{Appends};
ghost use Rattle.mt_lines.specs.Reading.{known_left, failed_calls, last_faults, limit_of, fault_of};
ghost use Rattle.mt_lines.specs.Stream.{HasFailed, IsInterrupted};
ghost use Rattle.mt_requests.specs.Requests.{request_of, HasRightCount};
ghost use Rattle.mt_session.specs.Session.{line_limit, IsReadEnd, IsReadEndRun, IsCutCause, IsCutRun};
ghost use Rattle.mt_session.specs.Answering.{is_by_answer};
ghost use Rattle.mt_session.specs.SharedTurns.{SharedView};
ghost use Rattle.mt_session.specs.SharedSession.{ServedShared};
ghost use Rattle.mt_session.specs.SharedServing.{IsSoFar, IsPiece, IsWithin, IsCutPiece, ServesAsked};

use crate::answering::{Answers, answer_with, serve_lines};
use crate::doorkeeper::Doorkeeper;
use crate::gate::Gate;
use crate::serving::End;
use crate::shared_answer::{Piece, Shared, Then};
use crate::shared_session::SharedSession;
use crate::text::Text;
use crate::wants::{Wants, wants_of};
use mt_desk::lines::Naming;
use mt_lines::line::LineReader;
use mt_lines::stream::{Cut, Input, Output, find_reader, send};
use mt_requests::request::{Request, read_request};
use std::sync::Wait;
use std::time::Clock;

/// Sends a piece of an answer, or finds out whether the client is still there where it has no text.
fn send_piece<O: Output>(writer: &mut O, text: &Option<Text>) -> Result<(), Cut>
    ensures whole { OnOk result (Appends (O.contents writer.old) (O.contents writer.new) (unwrap_or text.now [])) }
    ensures cut { IfErr result (λ cut. Appends (O.contents writer.old) (O.contents writer.new) (take cut.sent (unwrap_or text.now []))) }
    ensures within { IfErr result (λ cut. IsCutPiece cut.sent text.now) }
    ensures cause { OnErr result (IsTrue O.counts → O.failed writer.old < O.failed writer.new) }
    ensures counted { IsTrue O.counts → O.failed writer.old ≤ O.failed writer.new }
    ensures faults { OnErr result (IsTrue O.counts → O.faults writer.old ≡ [] → HasFailed (O.faults writer.new) ⊎ IsInterrupted (O.faults writer.new)) }
    ensures served { OnOk result (IsTrue O.counts → O.faults writer.old ≡ [] → O.faults writer.new ≡ []) }
{
    match text {
        Some(text) => send(writer, text.bytes()),
        None => find_reader(writer),
    }
}

impl<'a, J: Naming, G: Gate, K: Doorkeeper, R: Wait + Clock> Shared<'a, J, G, K, R> {
    /// The next piece of the answer to a request, of which so many posts were told.
    fn next_piece(&self, session: &mut SharedSession<J>, request: &Request, told: u64) -> Piece
        requires count { HasRightCount request.now }
        requires within { IsWithin request.now told }
        ensures { (s : SharedView) (out : List ℕ) → IsSoFar s request.now out told session.old → IsPiece s request.now out result.text result.then session.new }
    {
        match wants_of(request) {
            Wants::Desk { wakes, end } => self.answer_locked(session, request, wakes, end),
            Wants::Waiting(most) => self.answer_take(session, most),
            Wants::Coming(most) => self.follow(session, most, told),
            Wants::Left => self.answer_close(session),
        }
    }

    /// Tests can hold a session where the answer to a request ends that was done.
    fn hold(&self, piece: &Piece) {
        if matches!(piece.then, Then::Over(_)) {
            self.gate.before_answer(self.rt, self.number);
        }
    }

    /// Serves a request: how the session ends by it, if it does.
    fn serve_request<O: Output>(
        &self,
        session: &mut SharedSession<J>,
        writer: &mut O,
        request: &Request,
    ) -> Option<End>
        requires { HasRightCount request.now }
        ensures served { ServesAsked session.old (Ok request.now) (O.contents writer.old) (O.contents writer.new) result session.new }
        ensures cut { IsTrue O.counts → IsCutCause result (O.failed writer.old) (O.failed writer.new) }
        ensures cut_run { IsTrue O.counts → O.faults writer.old ≡ [] → IsCutRun result (O.faults writer.new) }
    {
        let mut told = 0u64;
        'pieces: for _piece in self.rt.forever() {
            let piece = self.next_piece(session, request, told);
            self.hold(&piece);
            if let Err(cut) = send_piece(writer, &piece.text) {
                return Some(End::Cut(cut));
            }
            if piece.tells {
                self.gate.taken(self.rt, self.number);
            }
            match piece.then {
                Then::More(count) => told = count,
                Then::Over(end) => return end,
            }
        }
        unreachable!()
    }

    /// Answers a line that was read whole: how the session ends by it, if it does.
    fn answer_line<O: Output>(
        &self,
        session: &mut SharedSession<J>,
        writer: &mut O,
        line: &[u8],
    ) -> Option<End>
        ensures answered { ServesAsked session.old (request_of line.now) (O.contents writer.old) (O.contents writer.new) result session.new }
        ensures end { is_by_answer result ≡ true }
        ensures cut { IsTrue O.counts → IsCutCause result (O.failed writer.old) (O.failed writer.new) }
        ensures cut_run { IsTrue O.counts → O.faults writer.old ≡ [] → IsCutRun result (O.faults writer.new) }
    {
        match read_request(self.alloc, line) {
            Ok(request) => self.serve_request(session, writer, &request),
            Err(fault) => answer_with(writer, &Text::refusal(fault), None),
        }
    }
}

/// A session in a thread of its own is answered at the desk, which others share.
impl<'a, J: Naming, G: Gate, K: Doorkeeper, R: Wait + Clock> Answers for Shared<'a, J, G, K, R> {
    ghost use Rattle.std.specs.Prelude.{⊤};
    ghost use Rattle.mt_session.specs.SharedServing.{OnDesk};

    type Session = SharedSession<J>;

    ghost is_ready = { λ s. ⊤ };

    ghost answers = { OnDesk };

    fn answer<W: Output>(
        &mut self,
        session: &mut SharedSession<J>,
        writer: &mut W,
        line: &[u8],
    ) -> Option<End> {
        self.answer_line(session, writer, line)
    }
}

/// Serves the lines that a reader has left, one answer each, at a desk that other sessions share, until the session ends,
/// and then closes its watcher.
///
/// The reader has met no fault, and its lines are of at most `LINE_LIMIT` bytes (serving.rt). It is lent, so that its
/// caller knows of its last calls: where it has ended the session, its last call failed, and none came after that. Each line
/// is answered before the next one is read (`serve_next` of answering.rt), and all of them that the reader had read whole at a fault.
/// This is said of the bytes that are known of a stream: of one in memory, and of a stream over one.
///
/// The desk is held while a request is done, and not while the session reads, writes, rests, or prints the posts that it
/// takes or a `close` hands out; sessions have it in the order in which they asked for it. `take` and `follow` take
/// posts without it, and hold it to meet it where they find none. `follow` rests at the bell where none wait, and ends
/// once it has as many as were asked for, where its watcher lags or a stop has ended it, and where the client has gone.
/// A command and a stop ring the bell, and the doorkeeper hears of a stop. Where posts were taken and there is no memory to tell them, the session says so
/// and ends. A session serves 16,777,216 lines at most. At a fault of the writer all earlier answers are out whole, and of
/// the last one a part; what the end says of it are the bytes of its last piece, for the answer to a `follow` goes out in
/// pieces of at most 64 posts.
///
/// The session is lent: it has no watcher, neither before nor after that, and has seen a beginning of the one history of
/// the desk. Each line but `take` and `follow` is answered as at the desk after a beginning of the history. That has all
/// that the session had seen before, and what the session then did comes next in it. A `take` or `follow` that finds no post
/// met the desk, and the session's end closed its watcher there, after as much of the history as the session had then seen.
/// So its acts in the history are those of its lines, once each and in order (`shared_sessions_act` of laws.rt).
///
/// Whatever the other sessions do, what its watcher has taken after each line is in order, and gives the tables
/// (`shared_sessions_follow` of laws.rt).
pub fn serve_shared<J, I, O, G, K, R>(
    shared: Shared<'_, J, G, K, R>,
    session: &mut SharedSession<J>,
    lines: &mut LineReader<I>,
    writer: &mut O,
) -> End
where
    J: Naming,
    I: Input + Drop,
    O: Output,
    G: Gate,
    K: Doorkeeper,
    R: Wait + Clock,
    requires none { session.old.own ≡ None }
    requires fresh { fault_of lines.old ≡ None }
    requires limit { limit_of lines.old ≡ line_limit }
    ensures served { ServedShared (known_left lines.old) (known_left lines.new) (O.contents writer.old) (O.contents writer.new) result session.old.sight session.new.sight }
    ensures none { session.new.own ≡ None }

    // A fault of the reader ends it only where the reader's last call failed, and 1,000 interruptions
    // only where so many calls were interrupted in succession. At every other end the reader's last
    // call had not failed.
    ensures read { IsTrue I.counts → IsReadEnd (Some result) (failed_calls lines.old) (failed_calls lines.new) }
    ensures read_run { IsTrue I.counts → last_faults lines.old ≡ [] → IsReadEndRun (Some result) (last_faults lines.new) }

    // It is cut only where the writer's last call failed, or so many were interrupted in succession.
    ensures cut { IsTrue O.counts → IsCutCause (Some result) (O.failed writer.old) (O.failed writer.new) }
    ensures cut_run { IsTrue O.counts → O.faults writer.old ≡ [] → IsCutRun (Some result) (O.faults writer.new) }
{
    let mut shared = shared;
    let end = serve_lines(&mut shared, session, lines, writer);
    shared.leave(session);
    end
}
