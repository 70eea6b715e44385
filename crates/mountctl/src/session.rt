//! `session`: lines of standard input, answered by a new server in the program's own memory; at a terminal behind a prompt.
ghost use Rattle.std.specs.Prelude.{◌≡◌, []};

use crate::fault::Fault;
use crate::help::{session_page, tell_no_page};
use crate::kept::Kept;
use crate::lines::tell_bad;
use crate::messages::NAME;
use crate::own_session::{Answered, answer_sent, answers_to, new_floor};
use crate::part::{Part, draw_part};
use crate::quiet::Quiet;
use crate::refusals::{refusal_in, tell_reason_of};
use crate::room::{FIRST_ROOM, queue_in_room, room_among};
use crate::screen::{is_at_terminal, standard_output};
use crate::script::{SCRIPT_LIMIT, is_comment};
use crate::task::{Task, WordFault, part_words, task_of};
use crate::what_if::line_of;
use crate::{LINE_LIMIT, PROGRAM};
use mt_client::picture::draw;
use mt_client::relay::print_text;
use mt_events::opening::Scope;
use mt_floor::floor::Floor;
use mt_info::print::push_number;
use mt_lines::line::{Line, LineReader};
use mt_lines::stream::{Input, Output, Reading};
use mt_lines::words::Pieces;
use mt_render::drawing::Drawing;
use mt_session::session::Session;
use std::alloc::Global;
use std::io::Eprint;
use std::process::ExitCode;

/// What stands in front of a line at a terminal.
const PROMPT: &[u8] = b"> ";

/// The most lines of a session.
const MOST_LINES: u64 = u64::MAX;

/// How often what is asked for a reason grows at most.
const MOST_TRIES: u64 = 16;

/// What the requests are for a drawing of these namespaces.
fn requests_of_scope(alloc: Global, scope: Scope) -> Result<Vec<u8>, Fault> {
    let mut requests = Vec::from_slice(alloc, b"watch ")?;
    match scope {
        Scope::All => requests.extend_from_slice(b"all")?,
        Scope::One(space) => push_number(&mut requests, space)?,
    }
    requests.push(b'\n')?;
    Ok(requests)
}

/// What the requests are for a drawing of the part of a namespace.
fn requests_of_part(alloc: Global, space: &str, path: &str) -> Result<Vec<u8>, Fault> {
    let mut requests = line_of(alloc, &["find", space, path])?;
    requests.extend_from_slice(b"\n")?;
    requests.extend_from_slice(line_of(alloc, &["show", space])?.as_slice())?;
    requests.extend_from_slice(b"\n")?;
    Ok(requests)
}

/// Draws the mounts of these namespaces.
fn draw_scope<O: Output>(
    alloc: Global,
    floor: &mut Floor,
    scope: Scope,
    drawing: Drawing,
    out: &mut O,
) -> Result<(), Fault>
    requires idle { floor.old.due ≡ [] }
    ensures idle { floor.new.due ≡ [] }
{
    let requests = requests_of_scope(alloc, scope)?;
    let answers = answers_to(alloc, floor, requests.as_slice())?;
    let mut lines = LineReader::new(alloc, Reading::new(answers.text()), LINE_LIMIT)?;
    let _drawn = draw(alloc, &mut lines, &mut Quiet, scope, drawing, &[], out)?;
    Ok(())
}

/// Draws the part of a namespace to which a path leads.
fn draw_below<E: Eprint, O: Output>(
    rt: &E,
    alloc: Global,
    floor: &mut Floor,
    part: Part<'_, '_>,
    out: &mut O,
) -> Result<(), Fault>
    requires idle { floor.old.due ≡ [] }
    ensures idle { floor.new.due ≡ [] }
{
    let requests = requests_of_part(alloc, part.space, part.path)?;
    let answers = answers_to(alloc, floor, requests.as_slice())?;
    let mut lines = LineReader::new(alloc, Reading::new(answers.text()), LINE_LIMIT)?;
    let _drawn = draw_part(rt, alloc, part, &mut lines, &mut Quiet, out)?;
    Ok(())
}

/// Draws what words ask for, of which the first is `tree`, or says why it does not.
fn draw_words<E: Eprint, O: Output>(
    rt: &E,
    alloc: Global,
    floor: &mut Floor,
    words: &[&str],
    out: &mut O,
) -> Result<(), Fault>
    requires idle { floor.old.due ≡ [] }
    ensures idle { floor.new.due ≡ [] }
{
    match (task_of(words), part_words(words)) {
        (Ok(Task::Draw { scope, drawing }), _) => draw_scope(alloc, floor, scope, drawing, out),
        (Ok(Task::DrawPart { drawing }), Some((space, path))) => {
            let part = Part {
                drawing,
                space,
                path,
                names: &[],
            };
            draw_below(rt, alloc, floor, part, out)
        }
        _ => {
            let said = WordFault::Tree.message();
            let _ = eprintln!(rt; "{NAME}: {said}");
            Ok(())
        }
    }
}

/// Says why a line is refused, where that is known. What has to be asked for that is known once it is asked: the answers to all that
/// was asked so far are there, and where they are not enough it is asked again.
fn tell_why<E: Eprint>(
    rt: &E,
    alloc: Global,
    floor: &mut Floor,
    line: &[u8],
    refusal: &[u8],
) -> Result<(), Fault>
    requires idle { floor.old.due ≡ [] }
    ensures idle { floor.new.due ≡ [] }
{
    let Some(refusal) = refusal_in(refusal) else {
        return Ok(());
    };
    let mut requests = Vec::new(alloc);
    'tries: for _try in 0..MOST_TRIES {
        let answers = answers_to(alloc, floor, requests.as_slice())?;
        let mut lines = LineReader::new(alloc, Reading::new(answers.text()), LINE_LIMIT)?;
        let mut asked = Kept::new(alloc);
        match tell_reason_of(rt, alloc, None, line, refusal, &mut lines, &mut asked) {
            Ok(()) => return Ok(()),
            Err(Fault::Connection) if asked.text().len() > requests.len() => {
                requests = asked.into_text();
            }
            Err(fault) => return Err(fault),
        }
    }
    Ok(())
}

/// Sends a line, prints its answer, and says why it is refused, if it is: whether the session goes on.
fn ask<E: Eprint, O: Output>(
    rt: &E,
    alloc: Global,
    floor: &mut Floor,
    session: &mut Session,
    line: &[u8],
    out: &mut O,
) -> Result<bool, Fault>
    requires idle { floor.old.due ≡ [] }
    ensures idle { floor.new.due ≡ [] }
{
    let mut sent = Vec::from_slice(alloc, line)?;
    sent.push(b'\n')?;
    let Answered { answer, goes_on } = answer_sent(alloc, floor, session, sent.as_slice())?;
    print_text(out, answer.as_slice())?;
    if answer.as_slice() == b"no BadLine\n".as_slice() {
        tell_bad(rt, alloc, None, line)?;
    }
    let first = Pieces::new(b'\n', answer.as_slice()).next().unwrap_or(&[]);
    tell_why(rt, alloc, floor, line, first)?;
    Ok(goes_on)
}

/// The words of a line, if they are text.
fn words_of<'a>(alloc: Global, line: &'a [u8]) -> Result<Vec<&'a str>, Fault> {
    let mut words = Vec::new(alloc);
    if let Ok(text) = str::from_utf8(line) {
        for word in text.split(' ') {
            words.push(word)?;
        }
    }
    Ok(words)
}

/// Prints a page of help, or says that there is none.
fn tell_help<E: Eprint, O: Output>(
    rt: &E,
    alloc: Global,
    words: &[&str],
    out: &mut O,
) -> Result<(), Fault> {
    match session_page(alloc, words)? {
        Some(page) => Ok(print_text(out, page.as_slice())?),
        None => Ok(tell_no_page(rt, alloc, words)?),
    }
}

/// Does what a line asks for: whether the session goes on.
fn do_line<E: Eprint, O: Output>(
    rt: &E,
    alloc: Global,
    floor: &mut Floor,
    session: &mut Session,
    line: &[u8],
    out: &mut O,
) -> Result<bool, Fault>
    requires idle { floor.old.due ≡ [] }
    ensures idle { floor.new.due ≡ [] }
{
    if is_comment(line) {
        return Ok(true);
    }
    let words = words_of(alloc, line)?;
    match words.as_slice() {
        ["help", behind @ ..] => {
            tell_help(rt, alloc, behind, out)?;
            Ok(true)
        }
        ["tree", ..] => {
            draw_words(rt, alloc, floor, words.as_slice(), out)?;
            Ok(true)
        }
        _ => ask(rt, alloc, floor, session, line, out),
    }
}

/// Ends the line of a prompt, if there is one.
fn end_prompt<O: Output>(prompt: &[u8], out: &mut O) -> Result<(), Fault> {
    if !prompt.is_empty() {
        print_text(out, b"\n")?;
    }
    Ok(())
}

/// Does what the next line asks for, in front of which the prompt stands: whether the session goes on.
fn do_next<E: Eprint, I: Input + Drop, O: Output>(
    rt: &E,
    alloc: Global,
    floor: &mut Floor,
    session: &mut Session,
    prompt: &[u8],
    input: &mut LineReader<I>,
    out: &mut O,
) -> Result<bool, Fault>
    requires idle { floor.old.due ≡ [] }
    ensures idle { floor.new.due ≡ [] }
{
    match input.next() {
        Ok(Line::Text) => do_line(rt, alloc, floor, session, input.line(), out),
        Ok(Line::TooLong) => {
            print_text(out, b"no TooLong\n")?;
            Ok(true)
        }
        Ok(Line::Unended) => {
            print_text(out, b"no BadLine\n")?;
            Ok(false)
        }
        Ok(Line::End) => {
            end_prompt(prompt, out)?;
            Ok(false)
        }
        Err(fault) => Err(Fault::of_input(fault)),
    }
}

/// Does what lines ask for in a new server of this room, up to one that ends the session, and prints the prompt in front of
/// each.
fn do_lines<E: Eprint, I: Input + Drop, O: Output>(
    rt: &E,
    alloc: Global,
    room: usize,
    prompt: &[u8],
    input: &mut LineReader<I>,
    out: &mut O,
) -> Result<(), Fault> {
    let mut floor = new_floor(alloc, queue_in_room(room), room)?;
    let mut session = Session::new(alloc);
    'lines: for _line in 0..MOST_LINES {
        print_text(out, prompt)?;
        if !do_next(rt, alloc, &mut floor, &mut session, prompt, input, out)? {
            return Ok(());
        }
    }
    Ok(())
}

/// Has a session with whoever writes to standard input, in a new server of this room.
fn have_session(rt: &HostRuntime, room: usize) -> Result<(), Fault> {
    let alloc = rt.alloc();
    let prompt = if is_at_terminal(rt) { PROMPT } else { b"" };
    let mut input = LineReader::new(alloc, Reading::new(rt.reader()), SCRIPT_LIMIT)?;
    let mut out = standard_output(rt);
    do_lines(rt, alloc, room, prompt, &mut input, &mut out)
}

/// Has a session with whoever writes to standard input: what `session` asks for, behind which nothing but a room is said.
pub(crate) fn run_session(rt: &HostRuntime, words: &[&str]) -> ExitCode {
    let said = match room_among(rt.alloc(), words) {
        Ok(said) => said,
        Err(fault) => return fault.tell(rt),
    };
    if !said.words.is_empty() {
        return PROGRAM.refuse(rt, WordFault::Session.message());
    }
    match have_session(rt, said.room.unwrap_or(FIRST_ROOM)) {
        Ok(()) => ExitCode::SUCCESS,
        Err(fault) => PROGRAM.fail(rt, fault.message()),
    }
}
