//! A plain session: lines in, answers out.
ghost use Rattle.std.specs.Prelude.{◌≡◌, ◌≢◌, true, IsTrue, None, Some, Ok, []};
ghost use Rattle.mt_session.specs.Requests.{session_state, session_at};
ghost use Rattle.mt_lines.specs.Reading.{known_left, failed_calls, last_faults, limit_of, fault_of};
ghost use Rattle.mt_session.specs.Session.{ends_by, Served, line_limit, IsReadEnd, IsReadEndRun, IsCutCause, IsCutRun};
ghost use Rattle.mt_session.specs.Headline.{TranscriptHolds};
ghost use Rattle.mt_session.specs.Answering.{is_by_answer};
ghost use Rattle.mt_session.specs.Serving.{OnFloor};

use crate::answering::{Answers, answer_with, serve_lines};
use crate::session::Session;
use crate::text::Text;
use mt_floor::floor::Floor;
use mt_lines::line::{LineReader, ReadFault};
use mt_lines::stream::{Cut, Input, Output};
use mt_requests::request::{Request, read_request};
use std::alloc::Global;

/// Why a session ended.
#[derive(Clone, Copy, Debug, PartialEq, Eq)]
pub enum End {
    /// A line asked for it.
    Quit,
    /// A line asked for it, and has stopped the server.
    Stop,
    /// The input ended.
    Input,
    /// The reader failed.
    Read(ReadFault),
    /// The writer failed, and so many bytes of an answer went out.
    Cut(Cut),
    /// There was no memory to tell posts that were taken, and so the session has ended.
    Memory,
    /// As many lines were served as a session serves.
    Spent,
}

/// The longest line of a session, in bytes before its line end.
pub const LINE_LIMIT: u32 = 8192;

/// How a request ends its session, if it does.
pub(crate) fn end_of(request: &Request) -> Option<End>
    ensures { result ≡ ends_by (Ok request.now) }
{
    match request {
        Request::Quit => Some(End::Quit),
        Request::Stop => Some(End::Stop),
        Request::Run(_)
        | Request::Ask(_)
        | Request::Watch(_)
        | Request::Take(_)
        | Request::Follow(_)
        | Request::Close => None,
    }
}

/// Answers a line that was read whole, and sends the answer: how the session ends by it, if it does.
fn answer_line<W: Output>(
    session: &mut Session,
    floor: &mut Floor,
    writer: &mut W,
    line: &[u8],
) -> Option<End>
    requires idle { floor.old.due ≡ [] }
    ensures answered { OnFloor (floor.old, session.old) line.now (W.contents writer.old) (W.contents writer.new) result (floor.new, session.new) }
    ensures idle { floor.new.due ≡ [] }
    ensures end { is_by_answer result ≡ true }
    ensures cut { IsTrue W.counts → IsCutCause result (W.failed writer.old) (W.failed writer.new) }
    ensures cut_run { IsTrue W.counts → W.faults writer.old ≡ [] → IsCutRun result (W.faults writer.new) }
{
    let request = match read_request(session.alloc(), line) {
        Ok(request) => request,
        Err(fault) => return answer_with(writer, &Text::refusal(fault), None),
    };
    match session.turn(floor, &request) {
        Ok(text) => answer_with(writer, &text, end_of(&request)),
        Err(fault) => answer_with(writer, &Text::refusal(fault), None),
    }
}

/// A plain session is answered on a floor on which nothing is due.
impl Answers for Floor {
    ghost use Rattle.std.specs.Prelude.{◌≡◌, []};
    ghost use Rattle.mt_floor.specs.Schedule.{FloorView};
    ghost use Rattle.mt_session.specs.Serving.{OnFloor};

    type Session = Session;

    ghost is_ready = { λ (s : FloorView). s.due ≡ [] };

    ghost answers = { OnFloor };

    fn answer<W: Output>(
        &mut self,
        session: &mut Session,
        writer: &mut W,
        line: &[u8],
    ) -> Option<End> {
        answer_line(session, self, writer, line)
    }
}

/// Serves the lines that a reader has left, one answer each, until the session ends, and then closes its watcher.
///
/// The reader has met no fault, and its lines are of at most [`LINE_LIMIT`] bytes. It is lent, so that
/// its caller knows of its last calls: where it has ended the session, its last call failed, and none
/// came after that. A session serves 16,777,216 lines at most. What is written is the text of the
/// lines that were read, however they were cut, each answered before the next is read (`serve_next` of answering.rt); at a fault
/// of the reader all lines that it had read whole are answered; at a fault of the writer all earlier answers are out
/// whole, and of the last as many bytes as the end says, fewer than it has; nothing is written after it.
///
/// This is said of the bytes that are known of a stream: of one in memory, and of a stream of the standard library
/// over one ([`mt_lines::stream::Reading`]). Of a system's stream nobody knows them.
///
/// The lines are a schedule of the floor. So the posts that they tell of a watcher, by `take`, `follow` and `close`, are
/// a prefix of those posted for the namespaces it follows since its opening, each once and in order; and applied to the
/// opening that `watch` told, they give each namespace's table as of its last told number (`headline`).
pub fn serve_plain<R: Input + Drop, W: Output>(
    alloc: Global,
    lines: &mut LineReader<R>,
    writer: &mut W,
    floor: &mut Floor,
) -> End
    requires fresh { fault_of lines.old ≡ None }
    requires limit { limit_of lines.old ≡ line_limit }
    ensures served { Served (known_left lines.old) (known_left lines.new) (session_at floor.old None) (session_state floor.new None) (W.contents writer.old) (W.contents writer.new) result }
    ensures headline { TranscriptHolds (known_left lines.old) (known_left lines.new) floor.old floor.new (W.contents writer.old) (W.contents writer.new) result }
    ensures idle { floor.new.due ≡ [] }
    ensures memory { result ≢ End.Memory }

    // A fault of the reader ends it only where the reader's last call failed, and 1,000 interruptions
    // only where so many calls were interrupted in succession. At every other end the reader's last
    // call had not failed.
    ensures read { IsTrue R.counts → IsReadEnd (Some result) (failed_calls lines.old) (failed_calls lines.new) }
    ensures read_run { IsTrue R.counts → last_faults lines.old ≡ [] → IsReadEndRun (Some result) (last_faults lines.new) }

    // It is cut only where the writer's last call failed, or so many were interrupted in succession.
    ensures cut { IsTrue W.counts → IsCutCause (Some result) (W.failed writer.old) (W.failed writer.new) }
    ensures cut_run { IsTrue W.counts → W.faults writer.old ≡ [] → IsCutRun (Some result) (W.faults writer.new) }
{
    floor.settle();
    let mut session = Session::new(alloc);
    let end = serve_lines(floor, &mut session, lines, writer);
    session.leave(floor);
    end
}
