//! `what-if` without a server: what lines would change in the namespaces of tables.

use crate::PROGRAM;
use crate::fault::Fault;
use crate::foretold_options::{Options, options_of};
use crate::foretold_page::print_foretold_page;
use crate::messages::{NAME, tell_reason, tell_refused};
use crate::missed::{tell_lockless_tables, tell_missed};
use crate::namespaces::{Namespaces, named_tables};
use crate::screen::standard_output;
use crate::script::{SCRIPT_LIMIT, is_comment};
use crate::task::{WordFault, parted};
use mt_forms::nearest::meant_by;
use mt_forms::slip::Slip;
use mt_forms::split::{joined_words, split_line};
use mt_help::finding::reason_of;
use mt_lines::line::{Line, LineReader};
use mt_lines::stream::{Reading, send};
use mt_lines::words::Pieces;
use mt_skel::fault::Fault as Refusal;
use mt_skel::skel::MOST_ROOM;
use mt_terminal::message::Shown;
use mt_what_if::asked::{AskedLine, SpaceWord, WrongLine, read_asked};
use mt_what_if::foretelling::{Foretold, Question, foretell};
use mt_what_if::scene::{Scene, begin};
use mt_what_if::steps::foretell_steps;
use mt_what_if::trying::Outcome;
use std::alloc::{AllocError, AllocFailed, Global};
use std::process::ExitCode;

/// The status where something changes in a namespace that no line names.
const LEAKS: u8 = 4;

/// The most lines of standard input.
const MOST_LINES: u64 = u64::MAX;

/// Why lines are not there.
#[derive(Clone, Copy)]
enum Lack {
    /// A line of standard input has a quote that is not closed.
    Quote(u64),
    /// There is none, or one has no words.
    Words,
    /// Standard input cannot be read.
    Run(Fault),
}

impl From<AllocError> for Lack {
    fn from(_error: AllocError) -> Lack {
        Lack::Run(Fault::NoMemory)
    }
}

impl<T: Drop> From<AllocFailed<T>> for Lack {
    fn from(_error: AllocFailed<T>) -> Lack {
        Lack::Run(Fault::NoMemory)
    }
}

/// Adds the words of a line of standard input, if it has any.
fn push_input_line(
    alloc: Global,
    lines: &mut Vec<Vec<u8>>,
    line: &[u8],
    number: u64,
) -> Result<(), Lack> {
    if is_comment(line) {
        return Ok(());
    }
    match split_line(alloc, line)? {
        Some(words) => {
            if !words.is_empty() {
                lines.push(words)?;
            }
            Ok(())
        }
        None => Err(Lack::Quote(number)),
    }
}

/// Adds the lines of standard input.
fn push_input(rt: &HostRuntime, lines: &mut Vec<Vec<u8>>) -> Result<(), Lack> {
    let alloc = rt.alloc();
    let mut input = LineReader::new(alloc, Reading::new(rt.reader()), SCRIPT_LIMIT)?;
    'lines: for before in 0..MOST_LINES {
        match input.next() {
            Ok(Line::Text) => push_input_line(alloc, lines, input.line(), before + 1)?,
            Ok(Line::End) => return Ok(()),
            Ok(Line::TooLong | Line::Unended) => return Err(Lack::Run(Fault::Input)),
            Err(fault) => return Err(Lack::Run(Fault::of_input(fault))),
        }
    }
    Ok(())
}

/// Adds a line of these words, or where they are a dash those of standard input.
fn push_line(rt: &HostRuntime, lines: &mut Vec<Vec<u8>>, words: &[&str]) -> Result<(), Lack> {
    match words {
        [] => Err(Lack::Words),
        ["-"] => push_input(rt, lines),
        words => {
            lines.push(joined_words(rt.alloc(), words)?)?;
            Ok(())
        }
    }
}

/// The lines of words that have `--` between two lines: the words of each, with a zero byte between two.
fn lines_of(rt: &HostRuntime, words: &[&str]) -> Result<Vec<Vec<u8>>, Lack> {
    let alloc = rt.alloc();
    let mut lines = Vec::new(alloc);
    let mut line = Vec::new(alloc);
    for word in words {
        if *word == "--" {
            push_line(rt, &mut lines, line.as_slice())?;
            line = Vec::new(alloc);
        } else {
            line.push(*word)?;
        }
    }
    push_line(rt, &mut lines, line.as_slice())?;
    if lines.is_empty() {
        return Err(Lack::Words);
    }
    Ok(lines)
}

/// Says why lines are not there, and answers the status.
fn tell_lack(rt: &HostRuntime, lack: Lack) -> ExitCode {
    match lack {
        Lack::Words => PROGRAM.refuse(rt, WordFault::Question.message()),
        Lack::Run(fault) => PROGRAM.fail(rt, fault.message()),
        Lack::Quote(number) => {
            let _ = eprintln!(rt; "{NAME}: line {number}: a quote is not closed");
            ExitCode::from(2)
        }
    }
}

/// The words of a line with spaces between them.
fn plain_line(alloc: Global, words: &[u8]) -> Result<Vec<u8>, AllocError> {
    let mut line = Vec::new(alloc);
    let mut pieces = Pieces::new(0, words);
    if let Some(first) = pieces.next() {
        line.extend_from_slice(first)?;
    }
    for word in pieces {
        line.extend_from_slice(b" ")?;
        line.extend_from_slice(word)?;
    }
    Ok(line)
}

/// Says which slip a line has, and the word that was meant.
fn tell_slip(
    rt: &HostRuntime,
    number: u64,
    line: &[u8],
    slip: &Slip<'_>,
) -> Result<(), AllocError> {
    let line = Shown(line);
    match meant_by(rt.alloc(), slip)? {
        Some(word) => {
            let word = Shown(word);
            let _ = eprintln!(rt; "{NAME}: line {number}: {line}: {slip}: is it {word}?");
        }
        None => {
            let _ = eprintln!(rt; "{NAME}: line {number}: {line}: {slip}");
        }
    }
    Ok(())
}

/// Says what is wrong with a line.
fn tell_wrong(
    rt: &HostRuntime,
    number: u64,
    words: &[u8],
    wrong: &WrongLine<'_>,
) -> Result<(), AllocError> {
    let line = plain_line(rt.alloc(), words)?;
    match wrong {
        WrongLine::Slip(slip) => tell_slip(rt, number, line.as_slice(), slip),
        WrongLine::NoSpace(word) => {
            let (line, word) = (Shown(line.as_slice()), Shown(word.bytes()));
            let _ = eprintln!(rt; "{NAME}: line {number}: {line}: no one table is called {word}");
            Ok(())
        }
        WrongLine::Refused { line: own, fault } => {
            tell_refused(rt, number, line.as_slice(), fault.name());
            if let Some(reason) = reason_of(rt.alloc(), own.as_slice())? {
                tell_reason(rt, Some(number), reason);
            }
            Ok(())
        }
        WrongLine::NoMemory => Err(AllocError),
    }
}

/// Reads all lines, or says what is wrong with the first one that is, and answers the status.
fn read_all<'a>(
    rt: &HostRuntime,
    names: &[SpaceWord],
    scene: &Scene,
    lines: &'a [Vec<u8>],
) -> Result<Vec<AskedLine<'a>>, ExitCode> {
    let mut asked = Vec::new(rt.alloc());
    let mut number = 0u64;
    for line in lines {
        number = number.saturating_add(1);
        match read_asked(rt.alloc(), names, scene, line.as_slice()) {
            Ok(line) => {
                if asked.push(line).is_err() {
                    return Err(PROGRAM.fail(rt, Fault::NoMemory.message()));
                }
            }
            Err(wrong) => {
                return Err(match tell_wrong(rt, number, line.as_slice(), &wrong) {
                    Ok(()) => ExitCode::from(2),
                    Err(_) => PROGRAM.fail(rt, Fault::NoMemory.message()),
                });
            }
        }
    }
    Ok(asked)
}

/// The status of an answer: what came of the last line, and whether something changes in a namespace that no line names.
fn status_of_answer(outcome: Outcome, leaks: bool, options: Options) -> ExitCode {
    if matches!(outcome, Outcome::Refused(_)) {
        ExitCode::from(1)
    } else if leaks && options.fails {
        ExitCode::from(LEAKS)
    } else {
        ExitCode::SUCCESS
    }
}

/// Says that a line meets a limit of the room, if it was refused for that; a greater one may do.
fn tell_room_met(rt: &HostRuntime, outcome: Outcome, room: usize) {
    if matches!(outcome, Outcome::Refused(Refusal::TooMany)) && room < MOST_ROOM {
        let _ = eprintln!(rt;
            "{NAME}: a limit is met with --room {room}; {MOST_ROOM} is the greatest"
        );
    }
}

/// Prints an answer.
fn print_answer(rt: &HostRuntime, answer: &Foretold, options: Options) -> ExitCode {
    let mut out = standard_output(rt);
    tell_room_met(rt, answer.outcome, options.room);
    match send(&mut out, answer.text.as_slice()) {
        Ok(()) => status_of_answer(answer.outcome, answer.leaks, options),
        Err(_) => PROGRAM.fail(rt, Fault::Output.message()),
    }
}

/// Prints what lines change in the namespaces of tables as a page, on which each is a step.
fn answer_by_page(
    rt: &HostRuntime,
    scene: &mut Scene,
    question: &Question<'_, '_>,
    options: Options,
) -> ExitCode {
    let Ok(page) = foretell_steps(rt.alloc(), scene, question) else {
        return PROGRAM.fail(rt, Fault::NoMemory.message());
    };
    let status = status_of_answer(page.outcome, page.leaks, options);
    tell_room_met(rt, page.outcome, options.room);
    match print_foretold_page(rt, page) {
        Ok(()) => status,
        Err(fault) => PROGRAM.fail(rt, fault.message()),
    }
}

/// Prints what lines change in the namespaces of tables, in words, as JSON, or as a page.
fn answer_lines(
    rt: &HostRuntime,
    scene: &mut Scene,
    question: &Question<'_, '_>,
    options: Options,
) -> ExitCode {
    if options.page {
        return answer_by_page(rt, scene, question, options);
    }
    match foretell(rt.alloc(), scene, question) {
        Ok(answer) => print_answer(rt, &answer, options),
        Err(_) => PROGRAM.fail(rt, Fault::NoMemory.message()),
    }
}

/// Asks what lines change in the namespaces of tables.
fn ask(
    rt: &HostRuntime,
    names: &Namespaces,
    lines: &[Vec<u8>],
    options: Options,
) -> Result<ExitCode, ExitCode> {
    let alloc = rt.alloc();
    let Ok(mut begun) = begin(alloc, names.tables(), options.room) else {
        return Err(PROGRAM.fail(rt, Fault::NoMemory.message()));
    };
    tell_missed(rt, names, begun.missed.as_slice());
    tell_lockless_tables(rt, names, begun.lockless.as_slice());
    let Ok(words) = names.space_words(alloc) else {
        return Err(PROGRAM.fail(rt, Fault::NoMemory.message()));
    };
    let asked = read_all(rt, &words, &begun.scene, lines)?;
    let question = Question {
        tables: names.tables(),
        names: &begun.names,
        lines: &asked,
        manner: options.manner(asked.len()),
    };
    Ok(answer_lines(rt, &mut begun.scene, &question, options))
}

/// Answers what lines would change in the namespaces of tables: what the words behind `what-if` ask for.
fn answer_question(rt: &HostRuntime, words: &[&str]) -> Result<ExitCode, ExitCode> {
    let Some((front, behind)) = parted(words) else {
        return Err(PROGRAM.refuse(rt, WordFault::Question.message()));
    };
    let (named, options) = match options_of(rt.alloc(), front) {
        Ok(said) => said,
        Err(fault) => return Err(fault.tell(rt)),
    };
    if options.page && options.json {
        return Err(PROGRAM.refuse(rt, WordFault::Form.message()));
    }
    let names = named_tables(rt, named.as_slice(), WordFault::Question)?;
    match lines_of(rt, behind) {
        Ok(lines) => ask(rt, &names, lines.as_slice(), options),
        Err(lack) => Err(tell_lack(rt, lack)),
    }
}

/// Does what words ask for behind `what-if`, where no socket stands in front of it.
pub(crate) fn run_foretold(rt: &HostRuntime, words: &[&str]) -> ExitCode {
    match answer_question(rt, words) {
        Ok(status) => status,
        Err(status) => status,
    }
}
