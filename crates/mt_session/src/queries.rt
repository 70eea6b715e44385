//! What a book shows, and why it shows nothing.
ghost use Rattle.std.specs.Prelude.{◌≡◌, ◌≢◌, take, drop, IfOk, IfErr};
ghost use Rattle.mt_book.specs.Step.{after};
ghost use Rattle.mt_book.specs.Book.{found_at};
ghost use Rattle.mt_session.specs.Answers.{refusal, shown_text, locks_text, found_text, commands_said, commands_from, listed_text, query_text};

use crate::text::Text;
use mt_book::book::Book;
use mt_book::command::Command;
use mt_events::texts::push_heading;
use mt_info::lock_line::push_lock_lines;
use mt_requests::print::push_commands;
use mt_requests::request::Query;
use mt_skel::fault::Fault;
use mt_skel::names::Names;
use std::alloc::Global;

/// The lines that show a namespace's table.
fn show(alloc: Global, book: &Book, space: u64) -> Result<Text, Fault>
    ensures ok { IfOk result (λ text. text ≡ shown_text book.now.journal space) }
    ensures memory { IfErr result (λ fault. fault ≡ Fault.NoMemory) }
{
    let number = match book.number(space) {
        Ok(number) => number,
        Err(fault) => return Ok(Text::refusal(fault)),
    };
    let mut lines = Vec::new(alloc);
    push_heading(&mut lines, book.row_count(space) as u64, number)?;
    book.push_table(&mut lines, space)?;
    Ok(Text::lines(lines))
}

/// The line of a refusal. Want of memory is handed on.
pub(crate) fn told_refusal(fault: Fault) -> Result<Text, Fault>
    ensures ok { IfOk result (λ text. (text ≡ refusal fault) × (fault ≢ Fault.NoMemory)) }
    ensures memory { IfErr result (λ other. (other ≡ Fault.NoMemory) × (fault ≡ Fault.NoMemory)) }
{
    match fault {
        Fault::NoMemory => Err(Fault::NoMemory),
        _ => Ok(Text::refusal(fault)),
    }
}

/// The line that says where a path ends.
fn find(alloc: Global, book: &Book, space: u64, path: &Names) -> Result<Text, Fault>
    ensures ok { IfOk result (λ text. text ≡ found_text (found_at (after book.now.journal) space path.now)) }
    ensures memory { IfErr result (λ fault. fault ≡ Fault.NoMemory) }
{
    let names = path.to_vec()?;
    match book.find(space, names.as_slice()) {
        Ok((mount, names)) => Ok(Text::place(alloc, mount, &names)?),
        Err(Fault::NoMemory) => Err(Fault::NoMemory),
        Err(fault) => Ok(Text::refusal(fault)),
    }
}

/// The lines that tell what is locked in a namespace.
fn locks(alloc: Global, book: &Book, space: u64) -> Result<Text, Fault>
    ensures ok { IfOk result (λ text. text ≡ locks_text book.now.journal space) }
    ensures memory { IfErr result (λ fault. fault ≡ Fault.NoMemory) }
{
    let rows = match book.locks(space) {
        Ok(rows) => rows,
        Err(fault) => return told_refusal(fault),
    };
    let mut lines = Vec::new(alloc);
    push_lock_lines(&mut lines, &rows)?;
    Ok(Text::counted(alloc, rows.len() as u64, &lines)?)
}

/// The first commands, this many at most.
fn first_commands(commands: &[Command], most: usize) -> &[Command]
    ensures { result.now ≡ take most commands.now }
{
    if commands.len() > most {
        &commands[..most]
    } else {
        commands
    }
}

/// The commands behind the first ones, which are this many.
fn commands_behind(commands: &[Command], count: usize) -> &[Command]
    ensures { result.now ≡ drop count commands.now }
{
    if commands.len() <= count {
        &[]
    } else {
        &commands[count..]
    }
}

/// The commands that are listed: all but one at the beginning that gives room, for which no line asks.
fn commands_said(commands: &[Command]) -> &[Command]
    ensures { result.now ≡ commands_said commands.now }
{
    let Some((first, later)) = commands.split_first() else {
        return commands;
    };
    if first.gives_room() { later } else { commands }
}

/// The commands from the one of a number on, up to so many. The first has number 1.
fn commands_from(commands: &[Command], from: u64, most: u64) -> &[Command]
    ensures { result.now ≡ commands_from from most commands.now }
{
    let later = commands_behind(commands, from.saturating_sub(1) as usize);
    first_commands(later, most as usize)
}

/// The lines that list accepted commands, but for one that gives room.
fn list_commands(alloc: Global, book: &Book, from: u64, most: u64) -> Result<Text, Fault>
    ensures ok { IfOk result (λ text. text ≡ listed_text (commands_from from most (commands_said book.now.journal))) }
    ensures memory { IfErr result (λ fault. fault ≡ Fault.NoMemory) }
{
    let commands = commands_from(commands_said(book.journal()), from, most);
    let mut lines = Vec::new(alloc);
    push_commands(&mut lines, commands)?;
    Ok(Text::counted(alloc, commands.len() as u64, &lines)?)
}

/// What a query is answered.
pub(crate) fn asked(alloc: Global, book: &Book, query: &Query) -> Result<Text, Fault>
    ensures ok { IfOk result (λ text. text ≡ query_text book.now.journal query.now) }
    ensures memory { IfErr result (λ fault. fault ≡ Fault.NoMemory) }
{
    match query {
        Query::Show(space) => show(alloc, book, *space),
        Query::Locks(space) => locks(alloc, book, *space),
        Query::Find { space, path } => find(alloc, book, *space, path),
        Query::Journal { from, most } => list_commands(alloc, book, *from, *most),
    }
}
