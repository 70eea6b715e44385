//! The lines of a session, whoever answers them.
ghost use Rattle.std.specs.Prelude.{◌≡◌, true, IsTrue, None, Some, []};
ghost use Rattle.std.specs.Option.{ForSome};
ghost use Rattle.mt_lines.specs.Reading.{known_left, failed_calls, last_faults, limit_of, fault_of};
ghost use Rattle.mt_session.specs.Session.{line_limit, IsReadEnd, IsReadEndRun, IsCutCause, IsCutRun};
ghost use Rattle.mt_session.specs.Answering.{ends_whole, is_by_answer, IsSent, AnswersLine, ServesNext, ServesAll};

use crate::serving::End;
use crate::text::Text;
use mt_lines::line::{Line, LineReader};
use mt_lines::stream::{Input, Output, send};
use mt_skel::fault::Fault;

/// The most lines that a session serves.
const MOST_LINES: u32 = 16_777_216;

/// Where the lines of sessions are answered.
///
/// `answers` says how a whole line is answered: by what place and session were, the line, what was sent before it and is
/// sent after it, how the session ends by it, if it does, and what place and session are then.
pub trait Answers {
    ghost use Rattle.std.specs.Prelude.{ℕ, List, Option};
    ghost use Rattle.mt_session.specs.declared.serving.End.{End};

    /// A session there.
    type Session;

    ghost is_ready: { Self → Type 0 };

    ghost answers: { Self × Self.Session → List ℕ → Option (List ℕ) → Option (List ℕ) → Option End → Self × Self.Session → Type 0 };

    /// Answers a line: how the session ends by it, if it does.
    fn answer<W: Output>(
        &mut self,
        session: &mut Self::Session,
        writer: &mut W,
        line: &[u8],
    ) -> Option<End>
        requires { is_ready self.old }
        ensures answered { answers (self.old, session.old) line.now (W.contents writer.old) (W.contents writer.new) result (self.new, session.new) }
        ensures ready { is_ready self.new }
        ensures end { is_by_answer result ≡ true }
        ensures cut { IsTrue W.counts → IsCutCause result (W.failed writer.old) (W.failed writer.new) }
        ensures cut_run { IsTrue W.counts → W.faults writer.old ≡ [] → IsCutRun result (W.faults writer.new) };
}

/// Sends an answer: how the session ends by it, if it does.
pub(crate) fn answer_with<W: Output>(writer: &mut W, text: &Text, end: Option<End>) -> Option<End>
    requires { ForSome end (λ e. ends_whole e ≡ true) }
    ensures sent { IsSent (W.contents writer.old) (W.contents writer.new) text.now end result }
    ensures end { is_by_answer result ≡ true }
    ensures cut { IsTrue W.counts → IsCutCause result (W.failed writer.old) (W.failed writer.new) }
    ensures cut_run { IsTrue W.counts → W.faults writer.old ≡ [] → IsCutRun result (W.faults writer.new) }
{
    match send(writer, text.bytes()) {
        Ok(()) => end,
        Err(cut) => Some(End::Cut(cut)),
    }
}

/// Answers what a reader says of a line: how the session ends by it, if it does.
fn serve_line<A: Answers, W: Output>(
    place: &mut A,
    session: &mut A::Session,
    writer: &mut W,
    line: Line,
    bytes: &[u8],
) -> Option<End>
    requires { A.is_ready place.old }
    ensures answered { AnswersLine A.answers line bytes.now (place.old, session.old) (W.contents writer.old) (W.contents writer.new) result (place.new, session.new) }
    ensures ready { A.is_ready place.new }
    ensures end { is_by_answer result ≡ true }
    ensures cut { IsTrue W.counts → IsCutCause result (W.failed writer.old) (W.failed writer.new) }
    ensures cut_run { IsTrue W.counts → W.faults writer.old ≡ [] → IsCutRun result (W.faults writer.new) }
{
    match line {
        Line::Text => place.answer(session, writer, bytes),
        Line::TooLong => answer_with(writer, &Text::refusal(Fault::TooLong), None),
        Line::Unended => { answer_with(writer, &Text::refusal(Fault::BadLine), Some(End::Input)) }
        Line::End => Some(End::Input),
    }
}

/// Serves one line: how the session ends by it, or by what came in its place, if it does.
///
/// One line leaves the reader, and its whole answer goes to the writer, before the next one is read (`served`). At the end
/// of the input, and at a fault of the reader, nothing is written; of a fault the reader has lost no whole line. Where the
/// session goes on, the reader has met no fault. Each session is a loop of this call.
pub fn serve_next<A: Answers, I: Input + Drop, W: Output>(
    place: &mut A,
    session: &mut A::Session,
    lines: &mut LineReader<I>,
    writer: &mut W,
) -> Option<End>
    requires ready { A.is_ready place.old }
    requires fresh { fault_of lines.old ≡ None }
    requires limit { limit_of lines.old ≡ line_limit }
    ensures served { ServesNext A.answers (known_left lines.old) (place.old, session.old) (W.contents writer.old) result (known_left lines.new) (place.new, session.new) (W.contents writer.new) }
    ensures ready { A.is_ready place.new }
    ensures fresh { result ≡ None → fault_of lines.new ≡ None }
    ensures limit { limit_of lines.new ≡ line_limit }
    ensures read { IsTrue I.counts → IsReadEnd result (failed_calls lines.old) (failed_calls lines.new) }
    ensures read_run { IsTrue I.counts → last_faults lines.old ≡ [] → IsReadEndRun result (last_faults lines.new) }
    ensures cut { IsTrue W.counts → IsCutCause result (W.failed writer.old) (W.failed writer.new) }
    ensures cut_run { IsTrue W.counts → W.faults writer.old ≡ [] → IsCutRun result (W.faults writer.new) }
{
    let line = match lines.next() {
        Ok(line) => line,
        Err(fault) => return Some(End::Read(fault)),
    };
    serve_line(place, session, writer, line, lines.line())
}

/// Serves lines until the session ends: how it does.
pub(crate) fn serve_lines<A: Answers, I: Input + Drop, W: Output>(
    place: &mut A,
    session: &mut A::Session,
    lines: &mut LineReader<I>,
    writer: &mut W,
) -> End
    requires ready { A.is_ready place.old }
    requires fresh { fault_of lines.old ≡ None }
    requires limit { limit_of lines.old ≡ line_limit }
    ensures served { ServesAll A.answers (known_left lines.old) (place.old, session.old) (W.contents writer.old) result (known_left lines.new) (place.new, session.new) (W.contents writer.new) }
    ensures ready { A.is_ready place.new }
    ensures read { IsTrue I.counts → IsReadEnd (Some result) (failed_calls lines.old) (failed_calls lines.new) }
    ensures read_run { IsTrue I.counts → last_faults lines.old ≡ [] → IsReadEndRun (Some result) (last_faults lines.new) }
    ensures cut { IsTrue W.counts → IsCutCause (Some result) (W.failed writer.old) (W.failed writer.new) }
    ensures cut_run { IsTrue W.counts → W.faults writer.old ≡ [] → IsCutRun (Some result) (W.faults writer.new) }
{
    'lines: for _count in 0..MOST_LINES {
        if let Some(end) = serve_next(place, session, lines, writer) {
            return end;
        }
    }
    End::Spent
}
