//! `page`, with a server and without one.

use crate::connection::{connected, status_of};
use crate::fault::Fault;
use crate::kept::Kept;
use crate::messages::NAME;
use crate::own_session::{answers_to, new_floor};
use crate::page::{PageData, Unplayed, play, takes_among};
use crate::played::{Played, PlayedFault, read_played};
use crate::quiet::Quiet;
use crate::room::{FIRST_ROOM, room_among};
use crate::save::save;
use crate::screen::standard_output;
use crate::script::SCRIPT_LIMIT;
use crate::task::WordFault;
use crate::{LINE_LIMIT, PROGRAM};
use mt_client::relay::print_text;
use mt_lines::line::LineReader;
use mt_lines::stream::{Reading, Writing};
use mt_render::page_data::Step;
use mt_render::page_template::{BEFORE, BEHIND};
use mt_skel::skel::MOST_ROOM;
use mt_terminal::message::Shown;
use std::alloc::{AllocError, Global};
use std::os::unix::net::UnixStream;
use std::process::ExitCode;

/// The word that asks for what a server has accepted.
pub(crate) const JOURNAL: &str = "--journal";

/// How many posts the queue of a watcher holds, the most that one may.
const QUEUE: usize = 16_384;

/// What takes the posts behind a line.
const TAKE: &[u8] = b"take 1024\n";

/// Appends the line of a step, with so many takes behind it, unless it has its answer.
fn push_request(requests: &mut Vec<u8>, step: &Step, takes: usize) -> Result<(), AllocError> {
    if !step.answer.is_empty() {
        return Ok(());
    }
    requests.extend_from_slice(step.line.as_slice())?;
    requests.push(b'\n')?;
    for _take in 0..takes {
        requests.extend_from_slice(TAKE)?;
    }
    Ok(())
}

/// All that is asked for the page of a session, as lines: its lines are known, and nobody else makes posts.
fn requests_of(alloc: Global, steps: &[Step]) -> Result<Vec<u8>, AllocError> {
    let mut requests = Vec::from_slice(alloc, b"watch all\n")?;
    for (place, step) in steps.iter().enumerate() {
        push_request(&mut requests, step, takes_among(place))?;
    }
    requests.extend_from_slice(TAKE)?;
    Ok(requests)
}

/// The data of a session's page, which a new server of its own answers, of this room.
fn play_alone(
    rt: &HostRuntime,
    session: Played,
    title: &[u8],
    room: usize,
) -> Result<PageData, Unplayed> {
    let alloc = rt.alloc();
    let requests = requests_of(alloc, session.steps.as_slice())?;
    let mut floor = new_floor(alloc, QUEUE, room)?;
    let answers = answers_to(alloc, &mut floor, requests.as_slice())?;
    let mut lines = LineReader::new(alloc, Reading::new(answers.text()), LINE_LIMIT)?;
    play(alloc, session, title, &mut lines, &mut Quiet)
}

/// The data of a session's page, which a server answers over a connection.
fn play_over(
    rt: &HostRuntime,
    stream: &UnixStream,
    session: Played,
    title: &[u8],
) -> Result<PageData, Unplayed> {
    let alloc = rt.alloc();
    let mut lines = LineReader::new(alloc, Reading::new(stream), LINE_LIMIT)?;
    let mut writer = Writing::new(stream);
    play(alloc, session, title, &mut lines, &mut writer)
}

/// The session of a text, of which no line is for a watcher.
fn read_text(alloc: Global, text: &[u8]) -> Result<Played, Unplayed> {
    let mut input = LineReader::new(alloc, Reading::new(text), SCRIPT_LIMIT)?;
    match read_played(alloc, &mut input) {
        Ok(played) => Ok(played),
        Err(PlayedFault::Failed(fault)) => Err(Unplayed::Failed(fault)),
        Err(PlayedFault::Watcher(_)) => Err(Unplayed::Failed(Fault::Connection)),
    }
}

/// The data of the page of a session, which a new server of its own answers: one of the greatest room, since all of it was
/// accepted before.
pub(crate) fn play_text(rt: &HostRuntime, text: &[u8], title: &str) -> Result<PageData, Unplayed> {
    let session = read_text(rt.alloc(), text)?;
    play_alone(rt, session, title.as_bytes(), MOST_ROOM)
}

/// The session of the commands that a server has accepted, as it tells them over a connection.
fn read_journal(rt: &HostRuntime, stream: &UnixStream) -> Result<Played, Unplayed> {
    let alloc = rt.alloc();
    let mut lines = LineReader::new(alloc, Reading::new(stream), LINE_LIMIT)?;
    let mut writer = Writing::new(stream);
    let mut saved = Kept::new(alloc);
    if let Some(refusal) = save(alloc, &mut lines, &mut writer, &mut saved)? {
        return Err(Unplayed::Refused(refusal));
    }
    read_text(alloc, saved.text())
}

/// The data of the page of a server's journal, which a new server of its own answers: one of the greatest room, since all
/// of it was accepted.
fn play_journal(rt: &HostRuntime, stream: &UnixStream, title: &[u8]) -> Result<PageData, Unplayed> {
    let session = read_journal(rt, stream)?;
    play_alone(rt, session, title, MOST_ROOM)
}

/// Prints the page of these data.
pub(crate) fn print_page(rt: &HostRuntime, data: &PageData) -> Result<bool, Fault> {
    let mut out = standard_output(rt);
    print_text(&mut out, BEFORE.as_bytes())?;
    print_text(&mut out, data.opening.as_slice())?;
    print_text(&mut out, data.steps.as_slice())?;
    print_text(&mut out, BEHIND.as_bytes())?;
    Ok(true)
}

/// Prints a page, or says why there is none, and answers the status. `socket` is that of the server, or the program's name.
pub(crate) fn end_page(
    rt: &HostRuntime,
    socket: &str,
    played: Result<PageData, Unplayed>,
) -> ExitCode {
    match played {
        Ok(data) => status_of(rt, socket, print_page(rt, &data)),
        Err(Unplayed::Failed(fault)) => status_of(rt, socket, Err(fault)),
        Err(Unplayed::Lost) => status_of(rt, socket, Err(Fault::Lost)),
        Err(Unplayed::Refused(refusal)) => {
            let refusal = Shown(refusal.text().trim_ascii_end());
            let _ = eprintln!(rt; "{NAME}: {refusal}");
            ExitCode::from(1)
        }
    }
}

/// Reads the session on standard input, or says why not, and answers the status.
fn read_session(rt: &HostRuntime) -> Result<Played, ExitCode> {
    let alloc = rt.alloc();
    let Ok(mut input) = LineReader::new(alloc, Reading::new(rt.reader()), SCRIPT_LIMIT) else {
        return Err(PROGRAM.fail(rt, Fault::NoMemory.message()));
    };
    match read_played(alloc, &mut input) {
        Ok(played) => Ok(played),
        Err(PlayedFault::Watcher(number)) => {
            let _ = eprintln!(rt; "{NAME}: line {number}: a page has a watcher of its own");
            Err(ExitCode::from(2))
        }
        Err(PlayedFault::Failed(fault)) => Err(PROGRAM.fail(rt, fault.message())),
    }
}

/// Plays the session on standard input, over a connection to a socket or without one in a server of this room, and prints
/// its page, or says why not.
fn make_page(
    rt: &HostRuntime,
    socket: Option<&str>,
    title: &str,
    room: usize,
    wait: u64,
) -> Result<ExitCode, ExitCode> {
    let session = read_session(rt)?;
    match socket {
        Some(socket) => {
            let stream = connected(rt, socket, wait)?;
            Ok(end_page(
                rt,
                socket,
                play_over(rt, &stream, session, title.as_bytes()),
            ))
        }
        None => Ok(end_page(rt, NAME, play_alone(rt, session, title.as_bytes(), room))),
    }
}

/// Prints the page of what a server at a socket has accepted, or says why not.
fn make_journal_page(
    rt: &HostRuntime,
    socket: &str,
    title: &str,
    wait: u64,
) -> Result<ExitCode, ExitCode> {
    let stream = connected(rt, socket, wait)?;
    Ok(end_page(rt, socket, play_journal(rt, &stream, title.as_bytes())))
}

/// The words without `--journal`, where it stands first or last among them. None where it does not.
fn without_journal<'a, 'w>(words: &'w [&'a str]) -> Option<&'w [&'a str]> {
    match words {
        [others @ .., JOURNAL] | [JOURNAL, others @ ..] => Some(others),
        _ => None,
    }
}

/// The title that words are, or none.
fn title_of<'a>(words: &[&'a str]) -> Option<&'a str> {
    match words {
        [] => Some(""),
        [title] => Some(*title),
        _ => None,
    }
}

/// Prints the page of the session on standard input: the lines are sent to the server at a socket, or where none is given
/// to a new one of their own, of which words may say the room. With `--journal` the session is what the server at the
/// socket has accepted. The other words are the title, or none.
pub(crate) fn run_page(
    rt: &HostRuntime,
    socket: Option<&str>,
    words: &[&str],
    wait: u64,
) -> ExitCode {
    let said = match room_among(rt.alloc(), words) {
        Ok(said) => said,
        Err(fault) => return fault.tell(rt),
    };
    let words = said.words.as_slice();
    let journal = without_journal(words);
    let Some(title) = title_of(journal.unwrap_or(words)) else {
        return PROGRAM.refuse(rt, WordFault::Page.message());
    };
    let made = match (journal, socket, said.room) {
        (Some(_), Some(socket), None) => make_journal_page(rt, socket, title, wait),
        (None, Some(socket), None) => make_page(rt, Some(socket), title, FIRST_ROOM, wait),
        (None, None, room) => make_page(rt, None, title, room.unwrap_or(FIRST_ROOM), wait),
        _ => return PROGRAM.refuse(rt, WordFault::Page.message()),
    };
    match made {
        Ok(status) => status,
        Err(status) => status,
    }
}
