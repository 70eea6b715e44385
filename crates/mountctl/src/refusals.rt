//! Why a command is refused, by the rows that the server tells behind the refusal.
ghost use Rattle.std.specs.Prelude.{◌≡◌, None, OnOk};
ghost use Rattle.mt_lines.specs.Reading.{fault_of};

use crate::fault::Fault;
use crate::limits::tell_limit;
use crate::messages::tell_lines;
use crate::missing::{Missing, missing_in};
use crate::quiet::Quiet;
use crate::server_tables::{push_rows, rows_of, shown_table, watched_tables};
use mt_book::command::Command;
use mt_client::ask::ask_line;
use mt_lines::line::LineReader;
use mt_lines::stream::{Input, Output};
use mt_mounts::mount::SpaceId;
use mt_protocol::refusal::refusal_named;
use mt_reach::row::SeenRow;
use mt_reach::rows::SeenRows;
use mt_refused::asked::{asked_space, asked_tree};
use mt_refused::missing::missing_text;
use mt_refused::text::refused_text;
use mt_refused::titles::Titles;
use mt_requests::request::{Query, Request, read_request};
use mt_skel::fault::Fault as Refusal;
use std::alloc::Global;
use std::io::Eprint;

/// The refusal that an answer is, if it is one.
pub(crate) fn refusal_in(answer: &[u8]) -> Option<Refusal> {
    refusal_named(answer.strip_prefix(b"no ")?)
}

/// Which rows a reason is found by.
#[derive(Clone, Copy)]
enum Question {
    /// None.
    Nothing,
    /// Those of the command's namespace.
    Own,
    /// Those of all namespaces, as where a tree of one goes to another.
    All,
}

/// Which rows the reason of a refusal is found by, if there are any.
fn question_of(refusal: Refusal, command: &Command) -> Option<Question> {
    match refusal {
        Refusal::BadAttr => Some(Question::Nothing),
        Refusal::SharedParent | Refusal::NoNamespace => Some(Question::All),
        Refusal::IntoItself | Refusal::UnbindableInside if asked_tree(command).is_some() => {
            Some(Question::All)
        }
        Refusal::NoEntry
        | Refusal::NotMountRoot
        | Refusal::RootPlace
        | Refusal::Unbindable
        | Refusal::IntoItself
        | Refusal::UnbindableInside
        | Refusal::Busy
        | Refusal::Locked
        | Refusal::LockedInside
        | Refusal::LockedAttr => Some(Question::Own),
        _ => None,
    }
}

/// The command of a line; of a question for a path the one that is refused as that would be, where nothing is there. None
/// where the line is neither.
fn command_of(alloc: Global, line: &[u8], refusal: Refusal) -> Result<Option<Command>, Fault> {
    match (read_request(alloc, line), refusal) {
        (Ok(Request::Run(command)), _) => Ok(Some(command)),
        (Ok(Request::Ask(Query::Find { space, path })), Refusal::NoEntry) => {
            Ok(Some(Command::Unmount { space, path }))
        }
        (Err(Refusal::NoMemory), _) => Err(Fault::NoMemory),
        _ => Ok(None),
    }
}

/// The rows of all namespaces, or none where the server tells them not, as where the session has a watcher already.
fn all_rows<R: Input + Drop, W: Output>(
    alloc: Global,
    lines: &mut LineReader<R>,
    writer: &mut W,
) -> Result<Option<Vec<SeenRow>>, Fault>
    requires fresh { fault_of lines.old ≡ None }
    ensures fresh { OnOk result (fault_of lines.new ≡ None) }
{
    let Some(tables) = watched_tables(alloc, lines, writer, &mut Quiet)? else {
        return Ok(None);
    };
    let _closed = ask_line(alloc, lines, writer, b"close", &mut Quiet)?;
    let rows = rows_of(alloc, tables.as_slice())?;
    Ok(Some(rows))
}

/// The rows of one namespace, or none where it is gone.
fn own_rows<R: Input + Drop, W: Output>(
    alloc: Global,
    space: SpaceId,
    lines: &mut LineReader<R>,
    writer: &mut W,
) -> Result<Vec<SeenRow>, Fault>
    requires fresh { fault_of lines.old ≡ None }
    ensures fresh { OnOk result (fault_of lines.new ≡ None) }
{
    let table = shown_table(alloc, space, lines, writer)?;
    let mut rows = Vec::new(alloc);
    push_rows(alloc, &mut rows, space, &table)?;
    Ok(rows)
}

/// The rows that a question asks for; those of the command's own namespace where all are not to be had.
fn asked_rows<R: Input + Drop, W: Output>(
    alloc: Global,
    question: Question,
    space: Option<SpaceId>,
    lines: &mut LineReader<R>,
    writer: &mut W,
) -> Result<Vec<SeenRow>, Fault>
    requires fresh { fault_of lines.old ≡ None }
    ensures fresh { OnOk result (fault_of lines.new ≡ None) }
{
    if matches!(question, Question::All) {
        if let Some(rows) = all_rows(alloc, lines, writer)? {
            return Ok(rows);
        }
    }
    match (question, space) {
        (Question::Nothing, _) | (_, None) => Ok(Vec::new(alloc)),
        (_, Some(space)) => own_rows(alloc, space, lines, writer),
    }
}

/// What is told of a command that is refused, by these rows and by which path is not there; nothing where they are none of
/// one machine.
fn text_by_rows(
    alloc: Global,
    rows: Vec<SeenRow>,
    command: &Command,
    refusal: Refusal,
    missing: Option<Missing>,
) -> Result<Option<Vec<u8>>, Refusal> {
    let mut rows = rows;
    rows.sort_unstable_by_key(|row| row.id);
    let Some(rows) = SeenRows::new(alloc, rows)? else {
        return Ok(None);
    };
    let titles = Titles::new(Vec::new(alloc), u64::MAX, u64::MAX);
    match missing {
        Some(Missing { which, there }) => {
            missing_text(alloc, &rows, &titles, command, which, there)
        }
        None => refused_text(alloc, &rows, &titles, command, refusal),
    }
}

/// Which path of a command is not there, where it was refused for that.
fn missing_path<R: Input + Drop, W: Output>(
    alloc: Global,
    command: &Command,
    refusal: Refusal,
    lines: &mut LineReader<R>,
    writer: &mut W,
) -> Result<Option<Missing>, Fault>
    requires fresh { fault_of lines.old ≡ None }
    ensures fresh { OnOk result (fault_of lines.new ≡ None) }
{
    match (refusal, asked_space(command)) {
        (Refusal::NoEntry, Some(space)) => missing_in(alloc, space, command, lines, writer),
        _ => Ok(None),
    }
}

/// Says of a refused line what is in the way and what would change that, if the rows say it; with the number of the line
/// where it is one of a script; where a limit is met, which one, and the room that would do. What others changed behind the
/// refusal may leave nothing to say.
pub(crate) fn tell_reason_of<E: Eprint, R: Input + Drop, W: Output>(
    rt: &E,
    alloc: Global,
    number: Option<u64>,
    line: &[u8],
    refusal: Refusal,
    lines: &mut LineReader<R>,
    writer: &mut W,
) -> Result<(), Fault>
    requires fresh { fault_of lines.old ≡ None }
    ensures fresh { OnOk result (fault_of lines.new ≡ None) }
{
    let Some(command) = command_of(alloc, line, refusal)? else {
        return Ok(());
    };
    if matches!(refusal, Refusal::TooMany) {
        return tell_limit(rt, alloc, number, &command, lines, writer);
    }
    let Some(question) = question_of(refusal, &command) else {
        return Ok(());
    };
    let missing = missing_path(alloc, &command, refusal, lines, writer)?;
    let rows = asked_rows(alloc, question, asked_space(&command), lines, writer)?;
    match text_by_rows(alloc, rows, &command, refusal, missing) {
        Ok(Some(text)) => tell_lines(rt, number, text.as_slice()),
        Ok(None) => {}
        Err(fault) => return Err(Fault::of_line(fault)),
    }
    Ok(())
}
