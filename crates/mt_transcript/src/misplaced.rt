//! Lines that do not stand where they may.
ghost use Rattle.std.specs.Prelude.{◌≡◌, ◌||◌, [], ◌∷◌, map, IfOk};
ghost use Rattle.mt_transcript.specs.Lines.{line_viewed};
ghost use Rattle.mt_transcript.specs.Misplaced.{sentence_of, is_sent, takes_answer, said_above, unended, first_so, arguments_wrongs, sent_wrongs, answer_wrongs, wrongs, why_not, misplaced_in};
ghost use Rattle.mt_transcript.specs.Sent.{ends_input};

use crate::lines::{LineKind, TranscriptLine};
use crate::queue::queue_of;
use crate::room::room_written;
use crate::sent::{bytes_sent, ends_input};
use std::alloc::{AllocError, Global};

/// Why a line may not stand where it does.
#[derive(Clone, Copy, PartialEq, Eq, Debug)]
pub enum Why {
    /// It is the last one, and has no line end.
    Unended,
    /// It is empty.
    Empty,
    /// It begins as an input line, and is none.
    Unread,
    /// It is an input line behind one that ends the input.
    Behind,
    /// It is an answer, and stands below no input line.
    Lost,
    /// It has other arguments than a session takes.
    Arguments,
    /// It has arguments, and does not stand right above the first input line.
    Place,
}

/// A line that may not stand where it does.
#[derive(Clone, Copy, PartialEq, Eq, Debug)]
pub struct Misplaced {
    /// Its number, from 1.
    pub number: u64,
    /// Why it may not.
    pub why: Why,
}

/// What the lines above one say of it.
#[derive(Clone, Copy)]
pub(crate) struct Above {
    /// Whether an answer may stand below the last of them.
    takes_answer: bool,
    /// Whether one of them is sent.
    is_sent: bool,
    /// Whether one of them ends the input.
    ends: bool,
}

impl Why {
    /// What is wrong, in words.
    pub fn sentence(self) -> &'static str
        ensures { result.now ≡ sentence_of self }
    {
        match self {
            Why::Unended => "the last line has no end",
            Why::Empty => "an empty line",
            Why::Unread => "no input line: it is > TEXT, >. TEXT, or >* TEXT with {N WORD}",
            Why::Behind => "an input line behind one without end",
            Why::Lost => "an answer below no input line",
            Why::Arguments =>
                "no arguments of a session: they are --queue N, from 1 to 16384, or --room N, from 1 to 256",
            Why::Place => "arguments that are not right above the first input line",
        }
    }
}

/// Whether an answer may stand right below a line.
fn takes_answer(kind: LineKind) -> bool
    ensures { result ≡ takes_answer kind }
{
    matches!(kind, LineKind::Sent | LineKind::Answer)
}

/// A reason, if it is so.
fn if_so(why: Why, is_so: bool) -> Option<Why>
    ensures { result ≡ first_so ((why, is_so) ∷ []) }
{
    if is_so { Some(why) } else { None }
}

/// Why what stands behind the last line end may not.
fn unended(text: &[u8]) -> Option<Why>
    ensures { result ≡ unended text.now }
{
    match text {
        [] => None,
        [_first, ..] => Some(Why::Unended),
    }
}

/// What no lines say of the first one.
fn nothing_above() -> Above
    ensures { result ≡ said_above [] }
{
    Above {
        takes_answer: false,
        is_sent: false,
        ends: false,
    }
}

impl Above {
    /// What the lines up to this one say of the next.
    fn with_line(self, line: TranscriptLine<'_>) -> Above
        ensures { result ≡ record { takes_answer = takes_answer line.entry.kind; is_sent = self.is_sent || is_sent line.entry.kind; ends = self.ends || ends_input line.entry.text.now } }
    {
        Above {
            takes_answer: takes_answer(line.kind),
            is_sent: self.is_sent || line.kind == LineKind::Sent,
            ends: self.ends || ends_input(line.text),
        }
    }

    /// Why arguments may not stand here, right above a line of this kind.
    fn arguments_why(self, text: &[u8], below: LineKind) -> Option<Why>
        ensures { result ≡ first_so (arguments_wrongs text.now self below) }
    {
        if queue_of(text).is_none() && room_written(text).is_none() {
            return Some(Why::Arguments);
        }
        if_so(Why::Place, self.is_sent || below != LineKind::Sent)
    }

    /// Why an input line may not stand here.
    fn sent_why(self, alloc: Global, text: &[u8]) -> Result<Option<Why>, AllocError>
        ensures { IfOk result (λ why. why ≡ first_so (sent_wrongs text.now self)) }
    {
        if self.ends {
            return Ok(Some(Why::Behind));
        }
        let sent = bytes_sent(alloc, text)?;
        Ok(if_so(Why::Unread, sent.is_none()))
    }

    /// Why a line of an answer may not stand here.
    fn answer_why(self) -> Option<Why>
        ensures { result ≡ first_so (answer_wrongs self) }
    {
        if_so(Why::Lost, !self.takes_answer)
    }

    /// Why a line may not stand here, right above one of this kind.
    fn line_why(
        self,
        alloc: Global,
        line: TranscriptLine<'_>,
        below: LineKind,
    ) -> Result<Option<Why>, AllocError>
        ensures { IfOk result (λ why. why ≡ first_so (wrongs line.entry.kind line.entry.text.now self below)) }
    {
        match line.kind {
            LineKind::Nothing => Ok(Some(Why::Empty)),
            LineKind::Comment => Ok(None),
            LineKind::Arguments => Ok(self.arguments_why(line.text, below)),
            LineKind::Sent => self.sent_why(alloc, line.text),
            LineKind::Answer => Ok(self.answer_why()),
        }
    }

    /// Why a line may not stand here, right above these.
    fn why_not(
        self,
        alloc: Global,
        line: TranscriptLine<'_>,
        below: &[TranscriptLine<'_>],
    ) -> Result<Option<Why>, AllocError>
        ensures { IfOk result (λ why. why ≡ why_not self (line_viewed line.entry ∷ map line_viewed below.now)) }
    {
        match below {
            [] => Ok(unended(line.text)),
            [next, ..] => self.line_why(alloc, line, next.kind),
        }
    }
}

/// The first of the lines of a transcript that does not stand where it may, and why: of these the last one is what stands behind the
/// last line end. Fails for want of memory alone.
pub fn misplaced_in(
    alloc: Global,
    lines: &[TranscriptLine<'_>],
) -> Result<Option<Misplaced>, AllocError>
    ensures { IfOk result (λ misplaced. misplaced ≡ misplaced_in (map line_viewed lines.now)) }
{
    let mut above = nothing_above();
    'lines: for (place, line) in lines.iter().enumerate() {
        let misfit = above.why_not(alloc, *line, &lines[place + 1..])?;
        if let Some(why) = misfit {
            return Ok(Some(Misplaced {
                number: place as u64 + 1,
                why,
            }));
        }
        above = above.with_line(*line);
    }
    Ok(None)
}
