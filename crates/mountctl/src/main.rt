//! `mountctl`: a client of the mount server.
#![tactic(auto)]

ghost use Rattle.std.specs.Prelude.{◌≡◌, None};
ghost use Rattle.mt_lines.specs.Reading.{fault_of};

mod arguments;
mod asked;
mod client_words;
mod connection;
mod explain;
mod fault;
mod foretold;
mod foretold_options;
mod foretold_page;
mod found;
mod help;
mod import;
mod kept;
mod limits;
mod lines;
mod machine;
mod marked;
mod messages;
mod missed;
mod missing;
mod namespaces;
mod naming;
mod newness;
mod options;
mod own_session;
mod page;
mod page_task;
mod part;
mod play;
mod played;
mod process_tables;
mod processes;
mod provide;
mod questions;
mod quiet;
mod refusals;
mod room;
mod save;
mod screen;
mod script;
mod server_tables;
mod session;
mod sources;
mod spaces;
mod tables;
mod task;
mod trace;
mod trace_ends;
mod trace_words;
mod trace_world;
mod what_if;

use crate::arguments::{Lack, Manner, manner_of, parser, socket_of, usage, words_of};
use crate::asked::{answer_question, asked_by};
use crate::connection::{connected, status_of};
use crate::explain::explain;
use crate::fault::Fault;
use crate::foretold::run_foretold;
use crate::found::find_place;
use crate::help::{has_page, run_help, word_of_help};
use crate::import::{ImportFault, ROW_LIMIT, import};
use crate::lines::run_line;
use crate::machine::import_machine;
use crate::marked::Marked;
use crate::messages::NAME;
use crate::naming::named_words;
use crate::page_task::{JOURNAL, run_page};
use crate::part::{Part, draw_part};
use crate::play::run_play;
use crate::questions::{Question, form_of_words, run_question};
use crate::quiet::Quiet;
use crate::room::room_among;
use crate::save::print_saved;
use crate::screen::standard_output;
use crate::script::{SCRIPT_LIMIT, run_script};
use crate::session::run_session;
use crate::spaces::list_spaces;
use crate::tables::import_files;
use crate::task::{Task, WordFault, found_words, part_words, task_of};
use crate::trace::run_trace;
use crate::what_if::{line_of, run_what_if};
use clap::{ArgMatches, Error};
use mt_arguments::program::{Program, read_arguments};
use mt_client::mirror::mirror;
use mt_client::named::NamedTelling;
use mt_client::picture::draw;
use mt_client::telling::tell;
use mt_lines::line::LineReader;
use mt_lines::stream::{Input, Output, Reading, Writing};
use mt_render::named::SpaceName;
use mt_skel::skel::MOST_ROOM;
use std::alloc::AllocError;
use std::io;
use std::os::unix::net::UnixStream;
use std::process::ExitCode;

/// The program, as it speaks of itself.
pub(crate) const PROGRAM: Program = Program {
    name: NAME,
    failed: 3,
};

/// The word that asks for a page.
const PAGE: &str = "page";

/// The word that asks for help.
const HELP: &str = "help";

/// The longest line of an answer, in bytes before its line end.
pub(crate) const LINE_LIMIT: u32 = 134_217_728;

/// The refusal that ends the posts of a watcher of which the queue was full when one came.
const LAGGED: &[u8] = b"no Lagged";

/// What a task is asked with: words, and names of namespaces.
#[derive(Clone, Copy)]
struct TaskWords<'w, 'a> {
    words: &'w [&'w str],
    names: &'w [SpaceName<'a>],
}

/// Sends a line of these words, or a script, and prints the answers to an output: whether each was `ok`.
fn run_lines<R: Input + Drop, W: Output, O: Output>(
    rt: &HostRuntime,
    task: Task,
    words: &[&str],
    strict: bool,
    lines: &mut LineReader<R>,
    writer: &mut W,
    out: &mut O,
) -> Result<bool, Fault>
    requires fresh { fault_of lines.old ≡ None }
{
    let alloc = rt.alloc();
    if matches!(task, Task::Script) {
        let mut input = LineReader::new(alloc, Reading::new(rt.reader()), SCRIPT_LIMIT)?;
        return run_script(rt, alloc, strict, 0, &mut input, lines, writer, out);
    }
    let line = line_of(alloc, words)?;
    run_line(rt, alloc, line.as_slice(), lines, writer, out)
}

/// What comes of a monitor that this refusal has ended: it is none of the answers that are `ok`.
fn end_of_told(refusal: &[u8]) -> Result<bool, Fault> {
    if refusal == LAGGED {
        Err(Fault::Lost)
    } else {
        Ok(false)
    }
}

/// Does a task and prints to an output: whether each answer was `ok`.
fn run_on<R: Input + Drop, W: Output, O: Output>(
    rt: &HostRuntime,
    task: Task,
    asked: TaskWords<'_, '_>,
    strict: bool,
    lines: &mut LineReader<R>,
    writer: &mut W,
    out: &mut O,
) -> Result<bool, Fault>
    requires fresh { fault_of lines.old ≡ None }
{
    let alloc = rt.alloc();
    let TaskWords { words, names } = asked;
    match task {
        Task::Ask | Task::Script => run_lines(rt, task, words, strict, lines, writer, out),
        Task::Mirror { space, count } => Ok(mirror(alloc, lines, writer, space, count, out)?),
        Task::Draw { scope, drawing } => {
            Ok(draw(alloc, lines, writer, scope, drawing, names, out)?)
        }
        Task::DrawPart { drawing } => match part_words(words) {
            Some((space, path)) => {
                let part = Part {
                    drawing,
                    space,
                    path,
                    names,
                };
                draw_part(rt, alloc, part, lines, writer, out)
            }
            None => Ok(false),
        },
        Task::Tell { scope, marks } => {
            let named = NamedTelling {
                telling: marks.telling,
                names,
            };
            tell(alloc, lines, writer, scope, &named, out)?;
            end_of_told(lines.line())
        }
        Task::Find => match found_words(words) {
            Some((space, path)) => find_place(rt, alloc, space, path, lines, writer, out),
            None => Ok(false),
        },
        Task::List { telling } => list_spaces(alloc, telling, names, lines, writer, out),
        Task::Save => print_saved(alloc, lines, writer, out),
        Task::WhatIf | Task::Page => Ok(false),
        Task::Question(question) => match asked_by(question, words) {
            Some(asked) => {
                let (form, _) = form_of_words(words);
                answer_question(alloc, form, question, asked, lines, writer, out)
            }
            None => Ok(false),
        },
    }
}

/// Does a task over a connection: whether each answer was `ok`.
fn run_task(
    rt: &HostRuntime,
    stream: &UnixStream,
    task: Task,
    asked: TaskWords<'_, '_>,
    manner: Manner,
) -> Result<bool, Fault> {
    let alloc = rt.alloc();
    let mut out = standard_output(rt);
    let mut lines = LineReader::new(alloc, Reading::new(stream), LINE_LIMIT)?;
    let mut writer = Writing::new(stream);
    let strict = manner.strict;
    if manner.quiet && matches!(task, Task::Ask | Task::Script) {
        return run_on(rt, task, asked, strict, &mut lines, &mut writer, &mut Quiet);
    }
    match task.marks() {
        Some(marks) => {
            let mut out = Marked::new(rt, alloc, marks, out);
            match run_on(rt, task, asked, strict, &mut lines, &mut writer, &mut out) {
                Ok(told) => Ok(told),
                Err(fault) => Err(out.fault(fault)),
            }
        }
        None => run_on(rt, task, asked, strict, &mut lines, &mut writer, &mut out),
    }
}

/// Connects to a socket and does what the words ask for.
fn run_asked(rt: &HostRuntime, socket: &str, asked: TaskWords<'_, '_>, manner: Manner) -> ExitCode {
    let task = match task_of(asked.words) {
        Ok(Task::WhatIf) => return run_what_if(rt, socket, asked.words, manner.wait),
        Ok(Task::Page) => {
            return run_page(
                rt,
                Some(socket),
                asked.words.get(1..).unwrap_or(&[]),
                manner.wait,
            );
        }
        Ok(task) => task,
        Err(fault) => return PROGRAM.refuse(rt, fault.message()),
    };
    match connected(rt, socket, manner.wait) {
        Ok(stream) => status_of(rt, socket, run_task(rt, &stream, task, asked, manner)),
        Err(status) => status,
    }
}

/// The same with the words and the names among them apart.
fn run_words(
    rt: &HostRuntime,
    socket: &str,
    words: &[&str],
    manner: Manner,
) -> Result<ExitCode, AllocError> {
    let Some(named) = named_words(rt.alloc(), words)? else {
        return Ok(PROGRAM.refuse(rt, WordFault::Name.message()));
    };
    let asked = TaskWords {
        words: named.words.as_slice(),
        names: named.names.as_slice(),
    };
    Ok(run_asked(rt, socket, asked, manner))
}

/// Imports the mountinfo on standard input for a server of this room or a lesser one.
fn import_input(rt: &HostRuntime, room: usize) -> Result<(), ImportFault> {
    let alloc = rt.alloc();
    let mut input = LineReader::new(alloc, Reading::new(rt.reader()), ROW_LIMIT)?;
    let mut out = standard_output(rt);
    import(alloc, room, &mut input, &mut out)
}

/// Imports the mountinfo on standard input, or says why it does not.
fn run_import(rt: &HostRuntime, room: usize) -> ExitCode {
    match import_input(rt, room) {
        Ok(()) => ExitCode::SUCCESS,
        Err(ImportFault::Row(number)) => {
            let _ = eprintln!(rt; "{NAME}: line {number} is no row of a mountinfo");
            ExitCode::from(1)
        }
        Err(ImportFault::Run(fault)) => PROGRAM.fail(rt, fault.message()),
    }
}

/// Does what words ask for behind `import`: those of files or processes, `--all`, or none. Without a room the least one is
/// chosen that has room for all.
fn run_import_words(rt: &HostRuntime, words: &[&str]) -> ExitCode {
    let said = match room_among(rt.alloc(), words) {
        Ok(said) => said,
        Err(fault) => return fault.tell(rt),
    };
    let room = said.room.unwrap_or(MOST_ROOM);
    match said.words.as_slice() {
        [] => run_import(rt, room),
        ["--all"] => import_machine(rt, room),
        words => import_files(rt, words, room),
    }
}

/// Does what arguments ask for that are taken apart.
fn run_matches(rt: &HostRuntime, matches: &ArgMatches<'_>) -> Result<ExitCode, AllocError> {
    let first = matches.get_str("SOCKET");
    let behind = matches.get_strs("WORD").unwrap_or(&[]);
    if first == Some(PAGE) && !behind.contains(&JOURNAL) {
        return Ok(run_page(rt, None, behind, 0));
    }
    if first == Some(HELP) {
        return Ok(run_help(rt, behind));
    }
    let words = words_of(rt, first, behind)?;
    if let Some(word) = word_of_help(words.as_slice()) {
        return Ok(run_help(rt, &[word]));
    }
    if words.is_empty() {
        return Ok(PROGRAM.refuse(rt, Lack::Word.message()));
    }
    match socket_of(rt, first)? {
        Ok(socket) => run_words(rt, socket.as_str(), words.as_slice(), manner_of(matches)),
        Err(Lack::NoMemory) => Ok(PROGRAM.fail(rt, Lack::NoMemory.message())),
        Err(lack) => Ok(PROGRAM.refuse(rt, lack.message())),
    }
}

/// Reads the arguments and does what they ask for.
fn run_arguments(rt: &HostRuntime, arguments: &[&str]) -> Result<ExitCode, Error> {
    let usage = usage(rt.alloc())?;
    let matches = parser(rt.alloc(), usage.as_str())?.try_get_matches_from(arguments)?;
    Ok(run_matches(rt, &matches)?)
}

/// Does what the arguments ask for, where they are those of a request to a server, or says why not.
fn run_or_explain(rt: &HostRuntime, words: &[&str]) -> ExitCode {
    match run_arguments(rt, words) {
        Ok(code) => code,
        Err(error) => PROGRAM.explain(rt, &error),
    }
}

/// Does what the arguments ask for.
fn run(rt: &HostRuntime) -> io::Result<ExitCode> {
    let arguments = read_arguments(rt)?;
    let words = PROGRAM.words(rt.alloc(), arguments.as_slice())?;
    let code = match words.as_slice() {
        [_, word, "-h" | "--help"] if has_page(word) => run_help(rt, &[*word]),
        [_, "help", words @ ..] => run_help(rt, words),
        [_, "import", words @ ..] => run_import_words(rt, words),
        [_, "what-if", words @ ..] => run_foretold(rt, words),
        [_, "trace", words @ ..] => run_trace(rt, words),
        [_, "explain", words @ ..] => explain(rt, words),
        [_, "play", words @ ..] => run_play(rt, words),
        [_, "session", words @ ..] => run_session(rt, words),
        [_, "reach", words @ ..] if words.contains(&"--") => {
            run_question(rt, Question::Reach, words)
        }
        [_, "origin", words @ ..] if words.contains(&"--") => {
            run_question(rt, Question::Origin, words)
        }
        [_, "holders", words @ ..] if words.contains(&"--") => {
            run_question(rt, Question::Holders, words)
        }
        words => run_or_explain(rt, words),
    };
    Ok(code)
}

fn main(rt: HostRuntime) -> ExitCode {
    match run(&rt) {
        Ok(code) => code,
        Err(error) => PROGRAM.explain_unread(&rt, &error),
    }
}
