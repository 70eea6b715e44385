//! What the tests share: lines of commands, what a book answers to them, and commands done at a desk.
use mt_book::book::Book;
use mt_book::command::{Command, Reply};
use mt_desk::desk::{Desk, DeskWitness};
use mt_desk::lines::Naming;
use mt_events::print::push_post;
use mt_events::shared::SharedPosts;
use mt_lines::words::Pieces;
use mt_requests::request::{Request, read_request};
use mt_session::text::Text;
use mt_skel::fault::Fault;
use std::alloc::Global;
use std::sync::Wait;

/// The command that a line says.
pub(crate) fn command_of(alloc: Global, line: &[u8]) -> Result<Command, Fault> {
    match read_request(alloc, line)? {
        Request::Run(command) => Ok(command),
        _ => Err(Fault::BadLine),
    }
}

/// The commands that lines say.
pub(crate) fn commands_of(alloc: Global, lines: &[u8]) -> Result<Vec<Command>, Fault> {
    let mut commands = Vec::new(alloc);
    for line in Pieces::new(b'\n', lines) {
        commands.push(command_of(alloc, line)?)?;
    }
    Ok(commands)
}

/// Does a session's commands at a desk, one after another: whether all were done.
pub(crate) fn are_done<J: Naming, R: Wait>(
    rt: &R,
    desk: &mut Desk<J>,
    witness: &mut DeskWitness<J>,
    commands: &[Command],
) -> bool {
    'commands: for command in commands {
        if desk.apply(rt, witness, command).is_err() {
            return false;
        }
    }
    true
}

/// Appends the texts of posts.
pub(crate) fn push_posts(text: &mut Vec<u8>, posts: &SharedPosts) -> Result<(), Fault> {
    for post in posts.as_slice() {
        push_post(text, post)?;
    }
    Ok(())
}

/// Appends the line of an answer, and the texts of its posts.
pub(crate) fn push_answer(
    text: &mut Vec<u8>,
    answer: &Result<(Reply, SharedPosts), Fault>,
) -> Result<(), Fault> {
    match answer {
        Ok((reply, posts)) => {
            text.extend_from_slice(Text::reply(*reply).bytes())?;
            push_posts(text, posts)
        }
        Err(fault) => {
            text.extend_from_slice(Text::refusal(*fault).bytes())?;
            Ok(())
        }
    }
}

/// Appends a command's line, its answer and its posts.
fn push_turn(alloc: Global, text: &mut Vec<u8>, book: &mut Book, line: &[u8]) -> Result<(), Fault> {
    let command = command_of(alloc, line)?;
    text.extend_from_slice(b"> ")?;
    text.extend_from_slice(line)?;
    text.extend_from_slice(b"\n")?;
    let answer = book.apply(&command);
    push_answer(text, &answer)
}

/// What a book answers and posts to the commands of a text, each a line after `> `: their lines, and below each line
/// its answer and its posts. Other lines of the text are not read.
pub(crate) fn played(alloc: Global, book: &mut Book, text: &[u8]) -> Result<Vec<u8>, Fault> {
    let mut told = Vec::new(alloc);
    for line in Pieces::new(b'\n', text) {
        if let [b'>', b' ', command @ ..] = line {
            push_turn(alloc, &mut told, book, command)?;
        }
    }
    Ok(told)
}
