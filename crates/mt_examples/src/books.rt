//! Commands with all that a book answers to them: the answer that a session sends, and the posts that it does not.
use crate::fixture::{command_of, commands_of, played, push_answer};
use mt_book::book::Book;
use mt_book::command::{Command, Reply};
use mt_skel::fault::Fault;
use std::alloc::Global;
use std::test::Fail;

/// Two filesystems, a directory and a namespace, and a command that is refused.
const START: &[u8] = b"mkfs a tmpfs none
mkfs d ext4 /dev/x
mkdir a /m
newns a
newns q";

/// What these are answered, and their posts.
const STARTED: &[u8] = b"ok 1
ok 2
ok
ok 1
event 1 1 1
= 1 1 0:1 / / rw,relatime - tmpfs none rw
no NoFilesystem
";

/// A mount in a namespace whose root mount is shared, once that was copied.
const COPIED: &[u8] = b"> setattr 1 / prop=shared
ok
event 1 2 1
= 1 1 0:1 / / rw,relatime shared:1 - tmpfs none rw
> copyns 1
ok 2
event 2 1 1
= 2 2 0:1 / / rw,relatime shared:1 - tmpfs none rw
> mount 1 d /m
ok 3
event 1 3 1
= 3 1 0:2 / /m rw,relatime shared:2 - ext4 /dev/x rw
event 2 2 1
= 4 2 0:2 / /m rw,relatime shared:2 - ext4 /dev/x rw
";

/// A mount that is done after it was prepared and dropped.
const MOUNTED: &[u8] = b"> mount 1 d /m
ok 2
event 1 2 1
= 2 1 0:2 / /m rw,relatime - ext4 /dev/x rw
";

/// What commands are answered, and their posts.
fn answers(alloc: Global, book: &mut Book, commands: &[Command]) -> Result<Vec<u8>, Fault> {
    let mut text = Vec::new(alloc);
    let answers = book.run(commands)?;
    for answer in &answers {
        push_answer(&mut text, answer)?;
    }
    Ok(text)
}

/// Whether a book has nothing in it and does the commands of the start.
fn is_started(alloc: Global, book: &mut Book) -> Result<bool, Fault> {
    let commands = commands_of(alloc, START)?;
    let text = answers(alloc, book, &commands)?;
    Ok(text.as_slice() == STARTED)
}

/// Whether a book that has done the start answers the commands of a text, and posts, as the text says.
fn is_played_behind_start(alloc: Global, book: &mut Book, text: &[u8]) -> Result<bool, Fault> {
    let started = is_started(alloc, book)?;
    let told = played(alloc, book, text)?;
    Ok(started && told.as_slice() == text)
}

#[test]
fn commands_run_one_after_another(rt: HostRuntime) -> Result<(), Fail> {
    let mut book = Book::new(rt.alloc());
    let started = is_started(rt.alloc(), &mut book)?;
    assert!(rt; started);
    Ok(())
}

/// Prepares a command and drops it: how many posts it would have had.
fn dropped(alloc: Global, book: &mut Book, line: &[u8]) -> Result<usize, Fault> {
    let command = command_of(alloc, line)?;
    let prepared = book.prepare(&command, true)?;
    Ok(prepared.posts().len())
}

/// Whether a command that is prepared and dropped is not done.
fn is_dropped(alloc: Global, book: &mut Book, line: &[u8]) -> Result<bool, Fault> {
    let before = book.journal().len();
    let posts = dropped(alloc, book, line)?;
    Ok(posts == 1 && book.journal().len() == before)
}

/// Whether it can be done later all the same.
fn is_done_later(alloc: Global, book: &mut Book) -> Result<bool, Fault> {
    let started = is_started(alloc, book)?;
    let kept = is_dropped(alloc, book, b"mount 1 d /m")?;
    let told = played(alloc, book, MOUNTED)?;
    Ok(started && kept && told.as_slice() == MOUNTED)
}

#[test]
fn prepared_commands_may_be_dropped(rt: HostRuntime) -> Result<(), Fail> {
    let mut book = Book::new(rt.alloc());
    let good = is_done_later(rt.alloc(), &mut book)?;
    assert!(rt; good);
    Ok(())
}

/// Shows a command that was prepared, though another one was refused after it.
fn shown_behind(book: &mut Book, first: &Command, refused: &Command) -> Result<Reply, Fault> {
    let prepared = book.prepare(first, true)?;
    let _ = book.prepare(refused, true);
    let (reply, _) = book.commit(prepared);
    Ok(reply)
}

/// Whether it is done all the same.
fn is_shown_behind(alloc: Global, book: &mut Book) -> Result<bool, Fault> {
    let started = is_started(alloc, book)?;
    let first = command_of(alloc, b"mount 1 d /m")?;
    let refused = command_of(alloc, b"newns q")?;
    let reply = shown_behind(book, &first, &refused)?;
    let number = book.number(1)?;
    Ok(started && reply == Reply::Number(2) && number == 2)
}

#[test]
fn prepared_commands_outlast_refused_ones(rt: HostRuntime) -> Result<(), Fail> {
    let mut book = Book::new(rt.alloc());
    let good = is_shown_behind(rt.alloc(), &mut book)?;
    assert!(rt; good);
    Ok(())
}

/// Whether a book tells of two namespaces, once the first was copied.
fn has_spaces(alloc: Global, book: &mut Book) -> Result<bool, Fault> {
    let copied = is_played_behind_start(alloc, book, COPIED)?;
    let spaces = book.spaces()?;
    Ok(copied && spaces.as_slice() == [1, 2].as_slice())
}

#[test]
fn namespaces_are_listed(rt: HostRuntime) -> Result<(), Fail> {
    let mut book = Book::new(rt.alloc());
    let good = has_spaces(rt.alloc(), &mut book)?;
    assert!(rt; good);
    Ok(())
}
