//! `reach`, `origin` and `holders` of a server: of the tables that a watcher of all namespaces finds.
ghost use Rattle.std.specs.Prelude.{◌≡◌, None};
ghost use Rattle.mt_lines.specs.Reading.{fault_of};

use crate::fault::Fault;
use crate::kept::{Kept, ask_kept};
use crate::questions::{
    Answer, AnswerForm, Question, filesystem_answer, form_of_words, path_answer,
};
use crate::server_tables::{rows_of, watched_tables};
use crate::what_if::line_of;
use mt_client::relay::print_text;
use mt_events::mirror::Mirror;
use mt_info::print::push_number;
use mt_lines::line::LineReader;
use mt_lines::stream::{Input, Output};
use mt_lines::words::number;
use mt_mounts::mount::SpaceId;
use mt_questions::seeing::{gathered, path_of_word};
use mt_questions::table::{NamedSpace, SeenTables};
use mt_reach::text::SeenText;
use mt_skel::fault::Fault as Refusal;
use std::alloc::Global;

/// What the words behind the socket ask about the tables of a server.
#[derive(Clone, Copy)]
pub(crate) enum Asked<'a> {
    /// A path of a namespace.
    At(&'a str, &'a str),
    /// A filesystem, by its source or its device.
    Of(&'a str),
}

/// What words ask about, if they are those of this question.
pub(crate) fn asked_by<'a>(question: Question, words: &[&'a str]) -> Option<Asked<'a>> {
    let (_, asked) = form_of_words(words);
    match (question, asked) {
        (_, [_, space, path]) => Some(Asked::At(space, path)),
        (Question::Holders, [_, word]) => Some(Asked::Of(word)),
        _ => None,
    }
}

/// A namespace, which is called by its number.
fn numbered(alloc: Global, space: SpaceId) -> Result<NamedSpace, Fault> {
    let mut name = Vec::new(alloc);
    push_number(&mut name, space)?;
    Ok(NamedSpace {
        space,
        name: SeenText::new(name),
    })
}

/// The namespaces of tables.
fn names_of(alloc: Global, tables: &[Mirror]) -> Result<Vec<NamedSpace>, Fault> {
    let mut names = Vec::new(alloc);
    for table in tables {
        names.push(numbered(alloc, table.space())?)?;
    }
    Ok(names)
}

/// The rows of all tables of a server, and its namespaces.
fn seen_of(alloc: Global, tables: &[Mirror]) -> Result<SeenTables, Fault> {
    let names = names_of(alloc, tables)?;
    match gathered(alloc, rows_of(alloc, tables)?) {
        Ok(Some(rows)) => Ok(SeenTables {
            rows,
            names,
            complete: true,
        }),
        Ok(None) => Err(Fault::Connection),
        Err(fault) => Err(Fault::of_line(fault)),
    }
}

/// The answer of tables.
fn answer_of(
    alloc: Global,
    form: AnswerForm,
    question: Question,
    asked: Asked<'_>,
    seen: &SeenTables,
) -> Result<Answer, Refusal> {
    match asked {
        Asked::Of(word) => filesystem_answer(alloc, form, seen, word),
        Asked::At(space, path) => {
            let (Some(space), Some(path)) = (
                number(space.as_bytes()),
                path_of_word(alloc, path.as_bytes())?,
            ) else {
                return Err(Refusal::BadLine);
            };
            match path_answer(alloc, form, question, seen, space, &path)? {
                Some(answer) => Ok(answer),
                None => Err(Refusal::BadLine),
            }
        }
    }
}

/// Prints the answer to a question: whether it holds. Where the path is not there, the refusal of the server is printed, and it does
/// not hold.
pub(crate) fn answer_question<R: Input + Drop, W: Output, O: Output>(
    alloc: Global,
    form: AnswerForm,
    question: Question,
    asked: Asked<'_>,
    lines: &mut LineReader<R>,
    writer: &mut W,
    out: &mut O,
) -> Result<bool, Fault>
    requires fresh { fault_of lines.old ≡ None }
{
    if let Asked::At(space, path) = asked {
        let line = line_of(alloc, &["find", space, path])?;
        let mut place = Kept::new(alloc);
        if !ask_kept(alloc, lines, writer, line.as_slice(), &mut place)? {
            print_text(out, place.text())?;
            return Ok(false);
        }
    }
    let Some(tables) = watched_tables(alloc, lines, writer, out)? else {
        return Ok(false);
    };
    let seen = seen_of(alloc, tables.as_slice())?;
    match answer_of(alloc, form, question, asked, &seen) {
        Ok(answer) => {
            print_text(out, answer.text.as_slice())?;
            Ok(answer.holds)
        }
        Err(fault) => Err(Fault::of_line(fault)),
    }
}
