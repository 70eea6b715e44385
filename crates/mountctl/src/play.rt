//! `play`: a transcript, line by line, in a session of its own.
ghost use Rattle.std.specs.Prelude.{◌≡◌, ◌<◌, ◌≤◌, [], IfOk};
ghost use Rattle.std.specs.Option.{option_map};
ghost use Rattle.mt_transcript.specs.Queue.{most_queued};
ghost use Rattle.mountctl.specs.Played.{sent_while, IsSentAnswered, IsPlayed};

use crate::PROGRAM;
use crate::fault::Fault;
use crate::messages::NAME;
use crate::own_session::{Answered, answer_sent, new_floor};
use crate::room::{FIRST_ROOM, queue_in_room};
use crate::screen::{is_at_terminal, standard_output};
use crate::tables::TableFault;
use crate::task::WordFault;
use mt_client::relay::print_text;
use mt_floor::floor::Floor;
use mt_lines::line::LineReader;
use mt_lines::stream::{Input, Output, Reading};
use mt_session::session::Session;
use mt_terminal::message::Shown;
use mt_transcript::lines::{LineKind, TranscriptLine, transcript_lines};
use mt_transcript::misplaced::{Misplaced, misplaced_in};
use mt_transcript::queue::queue_in;
use mt_transcript::room::room_in;
use mt_transcript::sent::bytes_sent;
use mt_transcript::told::{alike_text, answer_told, played_text};
use std::alloc::{AllocError, Global};
use std::fs::File;
use std::io::Read;
use std::process::ExitCode;

/// How long a line may be by which whoever plays goes on.
const KEYS: u32 = 4_096;

/// The word that stands for standard input.
const STANDARD: &str = "-";

/// What has come of a line that was played.
#[derive(Clone, Copy)]
struct Played {
    /// Whether it was answered as it is told.
    is_alike: bool,
    /// Whether the session goes on.
    goes_on: bool,
}

/// What has come of lines: how many were sent, and how many of them answered as they are told.
#[derive(Clone, Copy)]
struct Count {
    alike: u64,
    sent: u64,
    /// Whether the session goes on.
    goes_on: bool,
}

impl Count {
    /// Before any line.
    fn new() -> Count {
        Count {
            alike: 0,
            sent: 0,
            goes_on: true,
        }
    }

    /// With one more line that was sent.
    fn with(self, played: Played) -> Count {
        let alike = if played.is_alike { 1 } else { 0 };
        Count {
            alike: self.alike.saturating_add(alike),
            sent: self.sent.saturating_add(1),
            goes_on: played.goes_on,
        }
    }
}

/// Waits until a line comes, where it `waits`.
fn wait_for_key<K: Input + Drop>(keys: &mut LineReader<K>, waits: bool) {
    if waits {
        let _line = keys.next();
    }
}

/// Prints a line.
fn print_line<O: Output>(out: &mut O, line: &[u8]) -> Result<(), Fault> {
    print_text(out, line)?;
    print_text(out, b"\n")?;
    Ok(())
}

/// What an input line sends, if it is one, and the session goes on.
fn sent_while(alloc: Global, line: &[u8], goes_on: bool) -> Result<Option<Vec<u8>>, AllocError>
    ensures { IfOk result (λ sent. option_map (λ x. x.items) sent ≡ sent_while line.now goes_on) }
{
    if !goes_on {
        return Ok(None);
    }
    bytes_sent(alloc, line)
}

/// Sends a session what an input line sends, if it is one, and the session goes on: its answer, and whether it goes on then.
fn answer_line(
    alloc: Global,
    floor: &mut Floor,
    session: &mut Session,
    line: &[u8],
    goes_on: bool,
) -> Result<Answered, Fault>
    requires idle { floor.old.due ≡ [] }
    ensures answered { IfOk result (λ answered. IsSentAnswered (sent_while line.now goes_on) goes_on (floor.old, session.old) answered.answer.items answered.goes_on (floor.new, session.new)) }
    ensures idle { floor.new.due ≡ [] }
{
    let sent = sent_while(alloc, line, goes_on)?;
    match sent {
        Some(sent) => answer_sent(alloc, floor, session, sent.as_slice()),
        None => Ok(Answered {
            answer: Vec::new(alloc),
            goes_on,
        }),
    }
}

/// Plays a line that is sent, below which this answer is told: what has come of it.
fn play_sent<O: Output>(
    alloc: Global,
    floor: &mut Floor,
    session: &mut Session,
    goes_on: bool,
    line: &[u8],
    told: &[u8],
    out: &mut O,
) -> Result<Played, Fault>
    requires idle { floor.old.due ≡ [] }
    ensures played { IfOk result (λ played. IsPlayed line.now told.now goes_on (floor.old, session.old) (O.contents out.old) played (floor.new, session.new) (O.contents out.new)) }
    ensures idle { floor.new.due ≡ [] }
{
    let answered = answer_line(alloc, floor, session, line, goes_on)?;
    let text = played_text(alloc, line, answered.answer.as_slice(), told)?;
    print_text(out, text.as_slice())?;
    Ok(Played {
        is_alike: answered.answer.as_slice() == told,
        goes_on: answered.goes_on,
    })
}

/// Plays a line, below which these stand: what has come of those before, and of it.
fn play_line<O: Output>(
    alloc: Global,
    floor: &mut Floor,
    session: &mut Session,
    before: Count,
    line: TranscriptLine<'_>,
    below: &[TranscriptLine<'_>],
    out: &mut O,
) -> Result<Count, Fault>
    requires idle { floor.old.due ≡ [] }
    ensures idle { floor.new.due ≡ [] }
{
    match line.kind {
        LineKind::Comment | LineKind::Arguments => {
            print_line(out, line.text)?;
            Ok(before)
        }
        LineKind::Nothing | LineKind::Answer => Ok(before),
        LineKind::Sent => {
            let told = answer_told(alloc, below)?;
            let played = play_sent(
                alloc,
                floor,
                session,
                before.goes_on,
                line.text,
                told.as_slice(),
                out,
            )?;
            Ok(before.with(played))
        }
    }
}

/// How many of these lines are sent.
fn count_sent(lines: &[TranscriptLine<'_>]) -> u64 {
    lines
        .iter()
        .filter(|line| line.kind == LineKind::Sent)
        .count() as u64
}

/// Plays the lines of a transcript: what has come of them. Behind each line that is sent, but for the last one, it waits for a key
/// where it `waits`.
fn play_lines<K: Input + Drop, O: Output>(
    alloc: Global,
    floor: &mut Floor,
    session: &mut Session,
    lines: &[TranscriptLine<'_>],
    keys: &mut LineReader<K>,
    waits: bool,
    out: &mut O,
) -> Result<Count, Fault>
    requires idle { floor.old.due ≡ [] }
    ensures idle { floor.new.due ≡ [] }
{
    let all = count_sent(lines);
    let mut count = Count::new();
    'lines: for (place, line) in lines.iter().enumerate() {
        count = play_line(
            alloc,
            floor,
            session,
            count,
            *line,
            &lines[place + 1..],
            out,
        )?;
        let is_followed = line.kind == LineKind::Sent && count.sent < all;
        wait_for_key(keys, waits && is_followed);
    }
    Ok(count)
}

/// The room of the server in a transcript.
fn room_of(lines: &[TranscriptLine<'_>]) -> usize {
    match room_in(lines) {
        Some(room) => room as usize,
        None => FIRST_ROOM,
    }
}

/// How many posts the queue of a watcher holds in a transcript.
fn posts_of(lines: &[TranscriptLine<'_>]) -> usize
    ensures { (0 < result) × (result ≤ most_queued) }
{
    match queue_in(lines) {
        Some(posts) => posts as usize,
        None => queue_in_room(room_of(lines)),
    }
}

/// Plays a transcript in a session of its own, and prints how many lines were answered as they are told: whether all were.
fn play_transcript<K: Input + Drop, O: Output>(
    alloc: Global,
    lines: &[TranscriptLine<'_>],
    keys: &mut LineReader<K>,
    waits: bool,
    out: &mut O,
) -> Result<bool, Fault> {
    let mut floor = new_floor(alloc, posts_of(lines), room_of(lines))?;
    let mut session = Session::new(alloc);
    let count = play_lines(alloc, &mut floor, &mut session, lines, keys, waits, out)?;
    let ending = alike_text(alloc, count.alike, count.sent)?;
    print_text(out, ending.as_slice())?;
    Ok(count.alike == count.sent)
}

/// All of a file, or of standard input.
fn read_all(rt: &HostRuntime, path: &str) -> Result<Vec<u8>, TableFault> {
    let mut text = Vec::new(rt.alloc());
    if path == STANDARD {
        let _count = rt.reader().read_to_end(&mut text)?;
    } else {
        let _count = File::open(rt, path)?.read_to_end(&mut text)?;
    }
    Ok(text)
}

/// Plays the lines of a transcript on standard output: whether all were answered as they are told. Where standard input and output are
/// a terminal, and the transcript is not read there, it waits for a key behind each line.
fn play_on(rt: &HostRuntime, path: &str, lines: &[TranscriptLine<'_>]) -> Result<bool, Fault> {
    let mut keys = LineReader::new(rt.alloc(), Reading::new(rt.reader()), KEYS)?;
    let waits = path != STANDARD && is_at_terminal(rt);
    let mut out = standard_output(rt);
    play_transcript(rt.alloc(), lines, &mut keys, waits, &mut out)
}

/// Says which line of a file does not stand where it may, and why.
fn tell_misfit(rt: &HostRuntime, path: &str, misplaced: Misplaced) -> ExitCode {
    let path = Shown(path.as_bytes());
    let (number, sentence) = (misplaced.number, misplaced.why.sentence());
    let _ = eprintln!(rt; "{NAME}: {path}: line {number}: {sentence}");
    ExitCode::from(2)
}

/// Plays the transcript that a text is, or says why it is none.
fn play_text(rt: &HostRuntime, path: &str, text: &[u8]) -> Result<ExitCode, Fault> {
    let lines = transcript_lines(rt.alloc(), text)?;
    if let Some(misplaced) = misplaced_in(rt.alloc(), lines.as_slice())? {
        return Ok(tell_misfit(rt, path, misplaced));
    }
    if play_on(rt, path, lines.as_slice())? {
        Ok(ExitCode::SUCCESS)
    } else {
        Ok(ExitCode::from(1))
    }
}

/// Plays the transcript of a file, or of standard input: what the words behind `play` ask for.
pub(crate) fn run_play(rt: &HostRuntime, words: &[&str]) -> ExitCode {
    let [path] = words else {
        return PROGRAM.refuse(rt, WordFault::Play.message());
    };
    let text = match read_all(rt, path) {
        Ok(text) => text,
        Err(TableFault::NoMemory) => return PROGRAM.fail(rt, Fault::NoMemory.message()),
        Err(fault) => {
            let path = Shown(path.as_bytes());
            let _ = eprintln!(rt; "{NAME}: {path}: {fault}");
            return ExitCode::from(2);
        }
    };
    match play_text(rt, path, text.as_slice()) {
        Ok(status) => status,
        Err(fault) => PROGRAM.fail(rt, fault.message()),
    }
}
