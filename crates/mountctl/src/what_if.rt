//! `what-if`: what a line changes in the namespaces of tables, which a new server makes for it.
ghost use Rattle.std.specs.Prelude.{◌≡◌, None, OnOk};
ghost use Rattle.mt_lines.specs.Reading.{fault_of};

use crate::connection::{connected, status_of};
use crate::fault::Fault;
use crate::lines::{tell_bad, tell_refused_line};
use crate::messages::{NAME, tell_left_out, tell_lockless};
use crate::newness::{Begun, begin_script};
use crate::provide::provide;
use crate::quiet::Quiet;
use crate::room::{FIRST_ROOM, room_among};
use crate::screen::standard_output;
use crate::script::{SCRIPT_LIMIT, run_script};
use crate::sources::TableFile;
use crate::tables::{named_files, script_of_files};
use crate::task::{WordFault, parted};
use crate::{LINE_LIMIT, PROGRAM};
use mt_client::ask::ask_line;
use mt_client::effects::tell_effects;
use mt_client::named::{NamedTelling, SpaceName};
use mt_client::request::request_line;
use mt_import::script::Script;
use mt_lines::line::LineReader;
use mt_lines::stream::{Input, Output, Reading, Writing};
use mt_lines::words::{Pieces, number, words};
use mt_render::telling::Telling;
use mt_skel::skel::MOST_ROOM;
use mt_terminal::message::Shown;
use std::alloc::{AllocError, Global};
use std::io::Eprint;
use std::os::unix::net::UnixStream;
use std::process::ExitCode;

/// How often posts are asked for at most.
const MOST_TAKES: u64 = u64::MAX;

/// What comes of a question.
#[derive(Clone, Copy)]
pub(crate) enum Effects {
    /// The answer to the line was printed: whether it is `ok`.
    Told(bool),
    /// The server had accepted something before.
    NotNew,
    /// The answer to the line was printed, and all that it changes was told; but others changed something too.
    Shared,
    /// The answer to the line was printed, and not all that it changes was told.
    Lost,
}

/// Which table a comment of a script says is which namespace, by their numbers.
pub(crate) fn numbers_in(comment: &[u8]) -> Option<(u64, u64)> {
    let mut words = words(comment.strip_prefix(b"# table ")?);
    let (Some(table), Some(is), Some(namespace), Some(space), None) = (
        words.next(),
        words.next(),
        words.next(),
        words.next(),
        words.next(),
    ) else {
        return None;
    };
    if is != b"is".as_slice() || namespace != b"namespace".as_slice() {
        return None;
    }
    Some((number(table)?, number(space)?))
}

/// The file of the table of a number.
fn file_of(files: &[TableFile], table: u64) -> Option<&TableFile> {
    let mut left = table;
    for file in files {
        left = left.checked_sub(1)?;
        if left == 0 {
            return Some(file);
        }
    }
    None
}

/// The name of the namespace that a comment tells of: the file of its table.
fn name_in<'a>(files: &'a [TableFile], comment: &[u8]) -> Option<SpaceName<'a>> {
    let (table, space) = numbers_in(comment)?;
    let file = file_of(files, table)?;
    Some(SpaceName {
        space,
        name: file.path.as_str().as_bytes(),
    })
}

/// The names of the namespaces of a script of the tables of files. Says which mounts are left out, and where locks are not known.
fn names_of<'a, E: Eprint>(
    rt: &E,
    alloc: Global,
    script: &[u8],
    files: &'a [TableFile],
) -> Result<Vec<SpaceName<'a>>, Fault> {
    let mut names = Vec::new(alloc);
    for line in Pieces::new(b'\n', script) {
        tell_left_out(rt, line);
        tell_lockless(rt, line);
        if let Some(name) = name_in(files, line) {
            names.push(name)?;
        }
    }
    Ok(names)
}

/// The line of these words, each with its escapes. Fails for want of memory alone.
pub(crate) fn line_of(alloc: Global, words: &[&str]) -> Result<Vec<u8>, AllocError> {
    let mut line = Vec::new(alloc);
    for word in words {
        line.push(word.as_bytes())?;
    }
    request_line(alloc, line.as_slice())
}

/// Sends a line that comes before the last one: whether it is accepted. A refusal is told, with the line and its number.
fn prepare<E: Eprint, R: Input + Drop, W: Output>(
    rt: &E,
    alloc: Global,
    number: u64,
    words: &[&str],
    lines: &mut LineReader<R>,
    writer: &mut W,
) -> Result<bool, Fault>
    requires fresh { fault_of lines.old ≡ None }
    ensures fresh { OnOk result (fault_of lines.new ≡ None) }
{
    let line = line_of(alloc, words)?;
    if ask_line(alloc, lines, writer, line.as_slice(), &mut Quiet)? {
        return Ok(true);
    }
    tell_refused_line(rt, alloc, number, line.as_slice(), lines, writer)?;
    Ok(false)
}

/// Sends all lines but the last one, of which the words are answered, or None where one is refused. Words have `--` between
/// lines.
fn prepare_all<'a, E: Eprint, R: Input + Drop, W: Output>(
    rt: &E,
    alloc: Global,
    words: &[&'a str],
    lines: &mut LineReader<R>,
    writer: &mut W,
) -> Result<Option<Vec<&'a str>>, Fault>
    requires fresh { fault_of lines.old ≡ None }
    ensures fresh { OnOk result (fault_of lines.new ≡ None) }
{
    let mut line = Vec::new(alloc);
    let mut number = 1u64;
    'words: for word in words {
        if *word != "--" {
            line.push(*word)?;
            continue;
        }
        if !prepare(rt, alloc, number, line.as_slice(), lines, writer)? {
            return Ok(None);
        }
        line = Vec::new(alloc);
        number = number.saturating_add(1);
    }
    Ok(Some(line))
}

/// What a watcher has behind the posts that were told.
#[derive(Clone, Copy)]
enum Behind {
    /// Nothing: no post is left.
    Nothing,
    /// Posts that others made, which were taken and not told.
    Others,
    /// Posts are missing: the queue of the watcher was full when one came, or they could not be taken.
    Missing,
}

/// Takes the posts of a watcher until none is left, and tells none: what it had.
fn take_all<R: Input + Drop, W: Output>(
    alloc: Global,
    lines: &mut LineReader<R>,
    writer: &mut W,
) -> Result<Behind, Fault>
    requires fresh { fault_of lines.old ≡ None }
{
    let mut behind = Behind::Nothing;
    'takes: for _take in 0..MOST_TAKES {
        if !ask_line(alloc, lines, writer, b"take 1024", &mut Quiet)? {
            if lines.line() == b"no Stopped".as_slice() {
                return Ok(behind);
            }
            return Ok(Behind::Missing);
        }
        if lines.line() == b"ok 0".as_slice() {
            return Ok(behind);
        }
        behind = Behind::Others;
    }
    Ok(behind)
}

/// Sends a line, and tells its answer and what it changes in the namespaces of these names.
fn tell_line<R: Input + Drop, W: Output, O: Output>(
    alloc: Global,
    names: &[SpaceName<'_>],
    line: &[u8],
    lines: &mut LineReader<R>,
    writer: &mut W,
    out: &mut O,
) -> Result<Effects, Fault>
    requires fresh { fault_of lines.old ≡ None }
{
    let named = NamedTelling {
        telling: Telling::Words,
        names,
    };
    if !tell_effects(alloc, lines, writer, line, &named, out)? {
        return Ok(Effects::Told(false));
    }
    match take_all(alloc, lines, writer)? {
        Behind::Nothing => Ok(Effects::Told(true)),
        Behind::Others => Ok(Effects::Shared),
        Behind::Missing => Ok(Effects::Lost),
    }
}

/// Sends the script of the tables of files to a new server, and then lines, of which the last one's answer and changes are
/// told. Words have `--` between lines.
pub(crate) fn tell_what_if<E: Eprint, R: Input + Drop, W: Output, O: Output>(
    rt: &E,
    alloc: Global,
    script: &[u8],
    files: &[TableFile],
    words: &[&str],
    lines: &mut LineReader<R>,
    writer: &mut W,
    out: &mut O,
) -> Result<Effects, Fault>
    requires fresh { fault_of lines.old ≡ None }
{
    let (done, rest) = match begin_script(rt, alloc, script, lines, writer, out)? {
        Begun::New(done, rest) => (done, rest),
        Begun::Used => return Ok(Effects::NotNew),
        Begun::Refused => return Ok(Effects::Told(false)),
    };
    let names = names_of(rt, alloc, script, files)?;
    let mut input = LineReader::new(alloc, Reading::new(rest), SCRIPT_LIMIT)?;
    if !run_script(rt, alloc, true, done, &mut input, lines, writer, &mut Quiet)? {
        return Ok(Effects::Told(false));
    }
    let Some(words) = prepare_all(rt, alloc, words, lines, writer)? else {
        return Ok(Effects::Told(false));
    };
    provide(alloc, script, words.as_slice(), lines, writer)?;
    let line = line_of(alloc, words.as_slice())?;
    tell_bad(rt, alloc, None, line.as_slice())?;
    tell_line(alloc, names.as_slice(), line.as_slice(), lines, writer, out)
}

/// Asks a new server over a connection what lines change in the namespaces of a script.
fn ask_what_if(
    rt: &HostRuntime,
    stream: &UnixStream,
    script: &Script,
    files: &[TableFile],
    words: &[&str],
) -> Result<Effects, Fault> {
    let alloc = rt.alloc();
    let mut out = standard_output(rt);
    let mut lines = LineReader::new(alloc, Reading::new(stream), LINE_LIMIT)?;
    let mut writer = Writing::new(stream);
    tell_what_if(
        rt,
        alloc,
        script.text(),
        files,
        words,
        &mut lines,
        &mut writer,
        &mut out,
    )
}

/// Says which room a server has to have, if that is not the one of every server.
fn tell_room(rt: &HostRuntime, room: usize) {
    if room > FIRST_ROOM {
        let _ = eprintln!(rt; "{NAME}: the tables take a server with --room {room}, or more");
    }
}

/// Reads the tables of files, has a new server make their namespaces, sends it lines, and tells what the last one changes,
/// or says why not: what the words behind `what-if` ask for.
fn answer_what_if(
    rt: &HostRuntime,
    socket: &str,
    named: &[&str],
    lines: &[&str],
    wait: u64,
) -> Result<ExitCode, ExitCode> {
    let said = match room_among(rt.alloc(), named) {
        Ok(said) => said,
        Err(fault) => return Err(fault.tell(rt)),
    };
    let files = named_files(rt, said.words.as_slice(), WordFault::WhatIf)?;
    let import = script_of_files(rt, files.as_slice(), said.room.unwrap_or(MOST_ROOM))?;
    tell_room(rt, import.room);
    let stream = connected(rt, socket, wait)?;
    match ask_what_if(rt, &stream, &import.script, files.as_slice(), lines) {
        Ok(Effects::Told(told)) => Ok(status_of(rt, socket, Ok(told))),
        Ok(Effects::NotNew) => {
            let socket = Shown(socket.as_bytes());
            let _ = eprintln!(rt; "{NAME}: {socket}: not a new server");
            Ok(ExitCode::from(1))
        }
        Ok(Effects::Shared) => {
            let socket = Shown(socket.as_bytes());
            let _ = eprintln!(rt; "{NAME}: {socket}: others made changes");
            Ok(ExitCode::from(PROGRAM.failed))
        }
        Ok(Effects::Lost) => Ok(status_of(rt, socket, Err(Fault::Lost))),
        Err(fault) => Ok(status_of(rt, socket, Err(fault))),
    }
}

/// Does what words ask for of which the first is `what-if`.
pub(crate) fn run_what_if(rt: &HostRuntime, socket: &str, words: &[&str], wait: u64) -> ExitCode {
    let [_, behind @ ..] = words else {
        return PROGRAM.refuse(rt, WordFault::WhatIf.message());
    };
    let Some((named, lines)) = parted(behind) else {
        return PROGRAM.refuse(rt, WordFault::WhatIf.message());
    };
    match answer_what_if(rt, socket, named, lines, wait) {
        Ok(status) => status,
        Err(status) => status,
    }
}
