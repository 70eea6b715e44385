//! `trace`: what each call that strace has written did in the namespaces of tables.

use crate::PROGRAM;
use crate::fault::Fault;
use crate::kept::Kept;
use crate::messages::NAME;
use crate::page_task::{end_page, play_text, print_page};
use crate::screen::{print_out, standard_output};
use crate::tables::TableFault;
use crate::task::{WordFault, parted};
use crate::trace_ends::push_ends;
use crate::trace_words::{TraceLack, TraceWords, words_in};
use crate::trace_world::{TraceWorld, world_of_script, world_of_tables};
use mt_lines::line::ReadFault;
use mt_lines::stream::{Input, Output, Reading, send};
use mt_lines::words::Pieces;
use mt_render::wording::push_shown;
use mt_skel::fault::Fault as Refusal;
use mt_strace::unread::Unread;
use mt_terminal::message::Shown;
use mt_trace::account::TraceForm;
use mt_trace::ahead::{Feed, TraceLine};
use mt_trace::call_name::call_list;
use mt_trace::lines_played::Trouble;
use mt_trace::opening::TraceStart;
use mt_trace::player::Player;
use std::alloc::AllocError;
use std::fs;
use std::fs::File;
use std::io::ErrorKind;
use std::process::ExitCode;

/// The most lines of a trace.
const MOST_LINES: u64 = u64::MAX;

/// The most bytes that a line of a trace may have where it is looked for its end.
const LINE_LIMIT: u32 = 65_537;

/// The status where a line is none, or a call was not played as the kernel did it.
const TROUBLED: u8 = 1;

/// The longest part of a call without an end that is told.
const MOST_TOLD: usize = 100;

/// Why a trace is not played to its end.
#[derive(Clone, Copy)]
enum Unplayed {
    /// Its file cannot be opened.
    Open(ErrorKind),
    /// It cannot be read, or what is told of it cannot be printed.
    Failed(Fault),
}

impl From<Fault> for Unplayed {
    fn from(fault: Fault) -> Unplayed {
        Unplayed::Failed(fault)
    }
}

/// Says what is wrong with a line.
fn tell_trouble(rt: &HostRuntime, number: u64, trouble: &Trouble) {
    match trouble {
        Trouble::Unread(why) => {
            let why = why.text();
            let _ = eprintln!(rt; "{NAME}: line {number}: {why}");
        }
        Trouble::Unbegun => {
            let _ = eprintln!(rt; "{NAME}: line {number}: the end of a call that has not begun");
        }
        Trouble::Lost(text) => {
            let call = Shown(shortened(text.bytes()));
            let _ = eprintln!(rt; "{NAME}: line {number}: a call before has no end: {call}");
        }
    }
}

/// The front of a long text.
fn shortened(text: &[u8]) -> &[u8] {
    text.get(..MOST_TOLD).unwrap_or(text)
}

/// Says that a line was not read at all.
fn tell_unread(rt: &HostRuntime, number: u64, why: &str) {
    let _ = eprintln!(rt; "{NAME}: line {number}: {why}");
}

/// Plays one line, and prints what is told of it.
fn play_line<R: Input + Drop, O: Output>(
    rt: &HostRuntime,
    player: &mut Player,
    number: u64,
    line: &TraceLine,
    feed: &mut Feed<R>,
    out: &mut O,
) -> Result<(), Fault> {
    let mut text = Vec::new(rt.alloc());
    match line {
        TraceLine::Text(bytes) => {
            if let Some(trouble) = player.play_line(number, bytes, feed, &mut text)? {
                tell_trouble(rt, number, &trouble);
            }
        }
        TraceLine::TooLong => {
            player.note_bad();
            tell_unread(rt, number, Unread::TooLong.text());
        }
        TraceLine::Unended => {
            player.note_bad();
            tell_unread(rt, number, "the last line has no end");
        }
    }
    print(out, &text)
}

/// Prints a text, if there is one.
fn print<O: Output>(out: &mut O, text: &[u8]) -> Result<(), Fault> {
    if text.is_empty() {
        return Ok(());
    }
    match send(out, text) {
        Ok(()) => Ok(()),
        Err(_) => Err(Fault::Output),
    }
}

/// Plays all lines of an input.
fn play_lines<R: Input + Drop, O: Output>(
    rt: &HostRuntime,
    player: &mut Player,
    feed: &mut Feed<R>,
    out: &mut O,
) -> Result<(), Fault> {
    for before in 0..MOST_LINES {
        match feed.take() {
            Ok(Some(line)) => play_line(rt, player, before.saturating_add(1), &line, feed, out)?,
            Ok(None) => return Ok(()),
            Err(ReadFault::Endless) => {
                player.note_bad();
                tell_unread(
                    rt,
                    before.saturating_add(1),
                    "no line end within a mebibyte: no text, and the reading ends",
                );
                return Ok(());
            }
            Err(fault) => return Err(Fault::of_input(fault)),
        }
    }
    Ok(())
}

/// Says which calls have begun and have no end.
fn tell_unfinished(rt: &HostRuntime, player: &mut Player) {
    for _call in 0..MOST_LINES {
        let Some((process, text)) = player.take_unfinished() else {
            return;
        };
        let call = Shown(shortened(text.bytes()));
        let _ = eprintln!(rt; "{NAME}: process {process}: unfinished at the end: {call}");
    }
}

/// Appends the last line: what was counted.
fn push_tally(text: &mut Vec<u8>, player: &Player, form: TraceForm) -> Result<(), AllocError> {
    let tally = player.tally();
    let mut line = Vec::new(*text.allocator());
    match form {
        TraceForm::Words => tally.push_words(&mut line)?,
        TraceForm::Json => tally.push_object(&mut line)?,
        TraceForm::Script => {
            line.extend_from_slice(b"# ")?;
            tally.push_words(&mut line)?;
        }
    }
    push_shown(text, &line)
}

/// Appends the tables at the end; in a script as comments.
fn push_tables(text: &mut Vec<u8>, player: &Player, form: TraceForm) -> Result<(), Fault> {
    let mut ends = Vec::new(*text.allocator());
    if push_ends(&mut ends, player).is_err() {
        return Err(Fault::NoMemory);
    }
    let front: &[u8] = if form == TraceForm::Script {
        b"# "
    } else {
        b""
    };
    for line in Pieces::new(b'\n', &ends) {
        if !line.is_empty() {
            text.extend_from_slice(front)?;
            text.extend_from_slice(line)?;
            text.push(b'\n')?;
        }
    }
    Ok(())
}

/// The form that words ask for.
fn form_of(words: &TraceWords<'_>) -> TraceForm {
    if words.script || words.page {
        TraceForm::Script
    } else if words.json {
        TraceForm::Json
    } else {
        TraceForm::Words
    }
}

/// Plays an input, and prints what is told of it: the status.
fn play_input<R: Input + Drop, O: Output>(
    rt: &HostRuntime,
    player: &mut Player,
    words: &TraceWords<'_>,
    input: R,
    script: &[u8],
    out: &mut O,
) -> Result<ExitCode, Fault> {
    let mut feed = Feed::new(rt.alloc(), input, LINE_LIMIT)?;
    print(out, script)?;
    play_lines(rt, player, &mut feed, out)?;
    tell_unfinished(rt, player);
    let mut text = Vec::new(rt.alloc());
    push_tally(&mut text, player, form_of(words))?;
    if words.ends {
        push_tables(&mut text, player, form_of(words))?;
    }
    print(out, &text)?;
    let tally = player.tally();
    if tally.bad > 0 || tally.differing > 0 {
        return Ok(ExitCode::from(TROUBLED));
    }
    Ok(ExitCode::SUCCESS)
}

/// Gives a player the symbolic links of a file: on each line a path, a tab, and what it leads to.
fn give_links(player: &mut Player, text: &[u8]) -> Result<(), Refusal> {
    for line in Pieces::new(b'\n', text) {
        let mut words = Pieces::new(b'\t', line);
        if let (Some(path), Some(target), None) = (words.next(), words.next(), words.next()) {
            player.give_link(path, target)?;
        }
    }
    Ok(())
}

/// A player of a world, which knows what words tell besides.
fn player_of(
    rt: &HostRuntime,
    all: &TraceWorld,
    words: &TraceWords<'_>,
) -> Result<Player, ExitCode> {
    let opening = TraceStart {
        world: &all.world,
        filesystems: &all.filesystems,
        spaces: &all.spaces,
    };
    let mut player = match Player::new(rt.alloc(), opening, form_of(words), words.leaks) {
        Ok(player) => player,
        Err(Refusal::NoMemory) => return Err(PROGRAM.fail(rt, Fault::NoMemory.message())),
        Err(_) => return Err(PROGRAM.refuse(rt, "the first table has no root mount")),
    };
    for (space, told) in &words.known {
        if player.know_space(*told, *space).is_err() {
            return Err(PROGRAM.fail(rt, Fault::NoMemory.message()));
        }
    }
    let Some(path) = words.links else {
        return Ok(player);
    };
    match fs::read(rt, path) {
        Ok(text) => match give_links(&mut player, &text) {
            Ok(()) => Ok(player),
            Err(_) => Err(PROGRAM.fail(rt, Fault::NoMemory.message())),
        },
        Err(error) => Err(unread(rt, path, error.kind())),
    }
}

/// Says that a file cannot be read, and answers the status.
fn unread(rt: &HostRuntime, path: &str, kind: ErrorKind) -> ExitCode {
    let (path, why) = (Shown(path.as_bytes()), TableFault::Open(kind));
    let _ = eprintln!(rt; "{NAME}: {path}: {why}");
    ExitCode::from(2)
}

/// Plays the file of a trace, and prints what is told of it: the status, or why it is not played.
fn play_file<O: Output>(
    rt: &HostRuntime,
    player: &mut Player,
    words: &TraceWords<'_>,
    script: &[u8],
    out: &mut O,
) -> Result<ExitCode, Unplayed> {
    if words.log == "-" {
        let input = Reading::new(rt.reader());
        return Ok(play_input(rt, player, words, input, script, out)?);
    }
    match File::open(rt, words.log) {
        Ok(file) => Ok(play_input(rt, player, words, Reading::new(file), script, out)?),
        Err(error) => Err(Unplayed::Open(error.kind())),
    }
}

/// Says why a trace is not played, and answers the status.
fn tell_unplayed(rt: &HostRuntime, words: &TraceWords<'_>, why: Unplayed) -> ExitCode {
    match why {
        Unplayed::Open(kind) => unread(rt, words.log, kind),
        Unplayed::Failed(fault) => PROGRAM.fail(rt, fault.message()),
    }
}

/// Plays a trace as lines of a session, and prints the page that plays these: the status.
fn play_page(
    rt: &HostRuntime,
    player: &mut Player,
    words: &TraceWords<'_>,
    script: &[u8],
) -> Result<ExitCode, ExitCode> {
    let mut session = Kept::new(rt.alloc());
    let status = match play_file(rt, player, words, script, &mut session) {
        Ok(status) => status,
        // The session is kept in memory.
        Err(Unplayed::Failed(Fault::Output)) => {
            return Err(PROGRAM.fail(rt, Fault::NoMemory.message()));
        }
        Err(why) => return Err(tell_unplayed(rt, words, why)),
    };
    let title = if words.log == "-" { "" } else { words.log };
    match play_text(rt, session.text(), title) {
        Ok(data) => match print_page(rt, &data) {
            Ok(_) => Ok(status),
            Err(fault) => Err(PROGRAM.fail(rt, fault.message())),
        },
        Err(why) => Err(end_page(rt, NAME, Err(why))),
    }
}

/// Plays the trace that words name.
fn play_trace(rt: &HostRuntime, words: &TraceWords<'_>) -> Result<ExitCode, ExitCode> {
    let all = match form_of(words) {
        TraceForm::Script => world_of_script(rt, words.tables.as_slice())?,
        TraceForm::Words | TraceForm::Json => world_of_tables(rt, words.tables.as_slice())?,
    };
    let mut player = player_of(rt, &all, words)?;
    let script = all.script.as_slice();
    if words.page {
        return play_page(rt, &mut player, words, script);
    }
    let mut out = standard_output(rt);
    match play_file(rt, &mut player, words, script, &mut out) {
        Ok(status) => Ok(status),
        Err(why) => Err(tell_unplayed(rt, words, why)),
    }
}

/// Prints the names of the calls that are followed.
fn print_calls(rt: &HostRuntime) -> ExitCode {
    match call_list(rt.alloc()) {
        Ok(mut text) => match text.push(b'\n') {
            Ok(()) => print_out(rt, &text, 0),
            Err(_) => PROGRAM.fail(rt, Fault::NoMemory.message()),
        },
        Err(_) => PROGRAM.fail(rt, Fault::NoMemory.message()),
    }
}

/// Does what words ask for behind `trace`.
pub(crate) fn run_trace(rt: &HostRuntime, words: &[&str]) -> ExitCode {
    if let ["--calls"] = words {
        return print_calls(rt);
    }
    let Some((front, [log])) = parted(words) else {
        return PROGRAM.refuse(rt, WordFault::Trace.message());
    };
    let words = match words_in(rt.alloc(), front, log) {
        Ok(words) => words,
        Err(TraceLack::NoMemory) => return PROGRAM.fail(rt, Fault::NoMemory.message()),
        Err(lack) => return PROGRAM.refuse(rt, lack.message()),
    };
    match play_trace(rt, &words) {
        Ok(status) => status,
        Err(status) => status,
    }
}
