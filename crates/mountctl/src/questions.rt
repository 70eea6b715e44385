//! `reach`, `origin` and `holders`: questions about tables of mounts, which need no server.

use crate::PROGRAM;
use crate::fault::Fault;
use crate::messages::NAME;
use crate::namespaces::{Namespaces, named_tables};
use crate::screen::print_out;
use crate::task::{WordFault, parted};
use mt_questions::holders::{Holder, holders_of_device, holders_of_directory, holders_of_source};
use mt_questions::holders_text::{directory_title, holders_text};
use mt_questions::misfit::{LineAt, SeeingFault};
use mt_questions::origin::origin_of;
use mt_questions::origin_json::{holders_json, origin_json};
use mt_questions::origin_text::origin_text;
use mt_questions::reach::reach_of;
use mt_questions::reach_json::reach_json;
use mt_questions::reach_text::reach_text;
use mt_questions::seeing::{device_of_word, path_of_word, seen_tables, text_in};
use mt_questions::table::{NamedTable, SeenTables};
use mt_reach::path::Path;
use mt_reach::walking::{directory_at, end_of};
use mt_skel::fault::Fault as Refusal;
use mt_terminal::message::Shown;
use std::alloc::Global;
use std::process::ExitCode;

/// Says which lines are of one mount.
fn tell_twice(rt: &HostRuntime, tables: &[NamedTable], id: u64) {
    let _ = eprintln!(rt; "{NAME}: several lines are of mount {id}:");
    for table in tables {
        for (index, row) in table.rows.iter().enumerate() {
            if row.id == id {
                let name = Shown(table.name.as_slice());
                let _ = eprintln!(rt; "  {name}: line {}", index.saturating_add(1));
            }
        }
    }
}

/// Says which line tells no row.
fn tell_unread(rt: &HostRuntime, tables: &[NamedTable], at: LineAt) {
    if let Some(table) = tables.get(at.table.saturating_sub(1)) {
        let (name, line) = (Shown(table.name.as_slice()), at.line);
        let _ = eprintln!(rt;
            "{NAME}: {name}: line {line} has a path or a device that cannot be read"
        );
    }
}

/// Says that the rows of tables cannot be put together, and answers the status.
fn tell_unseen(rt: &HostRuntime, tables: &[NamedTable], fault: SeeingFault) -> ExitCode {
    match fault {
        SeeingFault::NoMemory => return PROGRAM.fail(rt, Fault::NoMemory.message()),
        SeeingFault::Unread(at) => tell_unread(rt, tables, at),
        SeeingFault::Twice(id) => tell_twice(rt, tables, id),
    }
    ExitCode::from(2)
}

/// The rows of tables, or the status, where it is said why there are none.
fn seen_of(rt: &HostRuntime, all: &Namespaces) -> Result<SeenTables, ExitCode> {
    match seen_tables(rt.alloc(), all.tables()) {
        Ok(seen) => Ok(seen),
        Err(fault) => Err(tell_unseen(rt, all.tables(), fault)),
    }
}

/// The number of a namespace, or the status.
fn space_of(rt: &HostRuntime, all: &Namespaces, word: &str) -> Result<u64, ExitCode> {
    match all.space_named(word.as_bytes()) {
        Some(space) => Ok(space),
        None => {
            let word = Shown(word.as_bytes());
            let _ = eprintln!(rt;
                "{NAME}: {word}: none of the tables, nor one of several of this name"
            );
            Err(ExitCode::from(2))
        }
    }
}

/// The path of a word, or the status.
fn path_of(rt: &HostRuntime, word: &str) -> Result<Path, ExitCode> {
    match path_of_word(rt.alloc(), word.as_bytes()) {
        Ok(Some(path)) => Ok(path),
        Ok(None) => {
            let word = Shown(word.as_bytes());
            let _ = eprintln!(rt;
                "{NAME}: {word}: no path that begins with a slash, or one with a backslash that begins no escape"
            );
            Err(ExitCode::from(2))
        }
        Err(_) => Err(PROGRAM.fail(rt, Fault::NoMemory.message())),
    }
}

/// A question about tables.
#[derive(Clone, Copy)]
pub(crate) enum Question {
    /// Where a mount made there comes.
    Reach,
    /// Where the mount there comes from.
    Origin,
    /// What pins what is there.
    Holders,
}

impl Question {
    /// The fault of words that are not those of this question.
    pub(crate) fn fault(self) -> WordFault {
        match self {
            Question::Reach => WordFault::Reach,
            Question::Origin => WordFault::Origin,
            Question::Holders => WordFault::Holders,
        }
    }
}

/// How an answer is told.
#[derive(Clone, Copy)]
pub(crate) enum AnswerForm {
    /// In lines.
    Lines,
    /// As JSON, an object in a line.
    Json,
}

/// How the answer to words is told, and the words without the option that says it, which is the last one.
pub(crate) fn form_of_words<'a, 'b>(words: &'a [&'b str]) -> (AnswerForm, &'a [&'b str]) {
    match words {
        [front @ .., "--json"] => (AnswerForm::Json, front),
        words => (AnswerForm::Lines, words),
    }
}

/// An answer: its text, and whether it is one of status 0.
#[derive(Drop)]
pub(crate) struct Answer {
    pub(crate) text: Vec<u8>,
    pub(crate) holds: bool,
}

/// Where a mount made at a path comes: it holds where it comes, or may come, to another mount.
fn reach_answer(
    alloc: Global,
    form: AnswerForm,
    seen: &SeenTables,
    space: u64,
    path: &Path,
) -> Result<Option<Answer>, Refusal> {
    let Some(answer) = reach_of(alloc, seen, space, path)? else {
        return Ok(None);
    };
    let text = match form {
        AnswerForm::Lines => reach_text(alloc, seen, &answer)?,
        AnswerForm::Json => reach_json(alloc, seen, &answer)?,
    };
    let holds = answer.comes_elsewhere();
    Ok(Some(Answer { text, holds }))
}

/// Where the mount at a path comes from, and what takes it away: it holds where the path names a mount.
fn origin_answer(
    alloc: Global,
    form: AnswerForm,
    seen: &SeenTables,
    space: u64,
    path: &Path,
) -> Result<Option<Answer>, Refusal> {
    let Some(answer) = origin_of(alloc, &seen.rows, space, path)? else {
        return Ok(None);
    };
    let text = match form {
        AnswerForm::Lines => origin_text(alloc, seen, &answer)?,
        AnswerForm::Json => origin_json(alloc, seen, &answer)?,
    };
    let holds = answer.is_mount;
    Ok(Some(Answer { text, holds }))
}

/// Mounts that pin something, under a title: it holds where there is one.
fn holders_answer(
    alloc: Global,
    form: AnswerForm,
    seen: &SeenTables,
    title: &[u8],
    holders: &[Holder],
) -> Result<Answer, Refusal> {
    let text = match form {
        AnswerForm::Lines => holders_text(alloc, seen, title, holders)?,
        AnswerForm::Json => holders_json(alloc, title, holders)?,
    };
    let holds = !holders.is_empty();
    Ok(Answer { text, holds })
}

/// Which mounts pin what is at a path.
fn directory_answer(
    alloc: Global,
    form: AnswerForm,
    seen: &SeenTables,
    space: u64,
    path: &Path,
) -> Result<Option<Answer>, Refusal> {
    let Some(place) = end_of(&seen.rows, space, path)? else {
        return Ok(None);
    };
    let directory = directory_at(place, path)?;
    let holders = holders_of_directory(alloc, seen, &directory)?;
    let title = directory_title(alloc, seen, space, path, place, &directory)?;
    let answer = holders_answer(alloc, form, seen, title.as_slice(), holders.as_slice())?;
    Ok(Some(answer))
}

/// Which mounts pin a filesystem, by its device or its source.
pub(crate) fn filesystem_answer(
    alloc: Global,
    form: AnswerForm,
    seen: &SeenTables,
    word: &str,
) -> Result<Answer, Refusal> {
    let bytes = word.as_bytes();
    let holders = match device_of_word(bytes) {
        Some(device) => holders_of_device(alloc, seen, device)?,
        None => holders_of_source(alloc, seen, text_in(alloc, bytes)?.bytes())?,
    };
    holders_answer(alloc, form, seen, bytes, holders.as_slice())
}

/// The answer to a question about a path; None where the table of the namespace has no root mount.
pub(crate) fn path_answer(
    alloc: Global,
    form: AnswerForm,
    question: Question,
    seen: &SeenTables,
    space: u64,
    path: &Path,
) -> Result<Option<Answer>, Refusal> {
    match question {
        Question::Reach => reach_answer(alloc, form, seen, space, path),
        Question::Origin => origin_answer(alloc, form, seen, space, path),
        Question::Holders => directory_answer(alloc, form, seen, space, path),
    }
}

/// Prints an answer: the status.
fn print_answer(rt: &HostRuntime, answered: Result<Option<Answer>, Refusal>) -> ExitCode {
    match answered {
        Ok(Some(answer)) => {
            print_out(
                rt,
                answer.text.as_slice(),
                if answer.holds { 0u8 } else { 1u8 },
            )
        }
        Ok(None) => {
            let _ = eprintln!(rt; "{NAME}: the table has no root mount, so no path leads anywhere");
            ExitCode::from(2)
        }
        Err(_) => PROGRAM.fail(rt, Fault::NoMemory.message()),
    }
}

/// Answers a question about a path, of the tables that words name.
fn ask_path(
    rt: &HostRuntime,
    form: AnswerForm,
    question: Question,
    tables: &[&str],
    space: &str,
    path: &str,
) -> Result<ExitCode, ExitCode> {
    let path = path_of(rt, path)?;
    let all = named_tables(rt, tables, question.fault())?;
    let space = space_of(rt, &all, space)?;
    let seen = seen_of(rt, &all)?;
    Ok(print_answer(
        rt,
        path_answer(rt.alloc(), form, question, &seen, space, &path),
    ))
}

/// Answers what pins a filesystem, of the tables that words name.
fn ask_filesystem(
    rt: &HostRuntime,
    form: AnswerForm,
    tables: &[&str],
    word: &str,
) -> Result<ExitCode, ExitCode> {
    let all = named_tables(rt, tables, WordFault::Holders)?;
    let seen = seen_of(rt, &all)?;
    let answered = match filesystem_answer(rt.alloc(), form, &seen, word) {
        Ok(answer) => Ok(Some(answer)),
        Err(fault) => Err(fault),
    };
    Ok(print_answer(rt, answered))
}

/// Answers the question of the words behind its name.
pub(crate) fn run_question(rt: &HostRuntime, question: Question, words: &[&str]) -> ExitCode {
    let (form, words) = form_of_words(words);
    let asked = match (question, parted(words)) {
        (_, Some((tables, [space, path]))) => ask_path(rt, form, question, tables, space, path),
        (Question::Holders, Some((tables, [word]))) => ask_filesystem(rt, form, tables, word),
        _ => return PROGRAM.refuse(rt, question.fault().message()),
    };
    match asked {
        Ok(status) => status,
        Err(status) => status,
    }
}
