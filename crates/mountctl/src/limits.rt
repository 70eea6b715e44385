//! Which limit a command meets that is refused for one, and which room would do.
ghost use Rattle.std.specs.Prelude.{◌≡◌, ◌<◌, None, OnOk};
ghost use Rattle.mt_lines.specs.Reading.{fault_of};

use crate::fault::Fault;
use crate::messages::NAME;
use crate::quiet::Quiet;
use crate::server_tables::watched_tables;
use mt_book::command::Command;
use mt_client::ask::ask_line;
use mt_lines::line::LineReader;
use mt_lines::stream::{Input, Output};
use mt_skel::skel::MOST_ROOM;
use std::alloc::Global;
use std::fmt;
use std::fmt::{Display, Formatter};
use std::io::Eprint;

/// The most names from a root down, whatever the room is.
const MOST_DEPTH: usize = 32;

/// The most mounts of a server whose room is 1.
const MOST_MOUNTS: usize = 4_096;

/// The most namespaces of a server whose room is 1.
const MOST_SPACES: usize = 64;

/// A limit of a server.
#[derive(Clone, Copy)]
enum Limit {
    /// Of the filesystems, or of the directories, of which the root of each is one.
    Filesystems,
    /// Of the directories.
    Directories,
    /// Of the names from a root down.
    Depth,
    /// Of the namespaces, of which there are so many.
    Spaces(usize),
    /// Of the mounts, of which there are so many.
    Mounts(usize),
}

impl Display for Limit {
    fn fmt<W: fmt::Write>(&self, f: &mut Formatter<W>) -> fmt::Result {
        match self {
            Limit::Filesystems => f.write_str(
                "there is no room for one more filesystem and its root: a server has 256 filesystems and 16384 directories times its --room",
            ),
            Limit::Directories => f.write_str(
                "there is no room for one more directory: a server has 16384 times its --room",
            ),
            Limit::Depth => f.write_str("a path has at most 32 names, whatever the --room is"),
            Limit::Spaces(spaces) => match next_room(*spaces, MOST_SPACES) {
                Some(room) => write!(
                    f,
                    "there are {spaces} namespaces, and no room for one more: --room {room} has it"
                ),
                None => write!(
                    f,
                    "there are {spaces} namespaces, the most that there can be"
                ),
            },
            Limit::Mounts(mounts) => match next_room(*mounts, MOST_MOUNTS) {
                Some(room) => write!(
                    f,
                    "there are {mounts} mounts, and no room for all that the line adds: --room {room}, or more, has it"
                ),
                None => write!(
                    f,
                    "there are {mounts} mounts, and no server has room for all that the line adds"
                ),
            },
        }
    }
}

/// The least room that has more than the one in which so many just fit, of which there are these in a room of 1; none where
/// that is the greatest one.
fn next_room(count: usize, each: usize) -> Option<usize>
    requires { 0 < each }
{
    let room = count.div_ceil(each).max(1);
    if room < MOST_ROOM {
        Some(room + 1)
    } else {
        None
    }
}

/// How many namespaces and mounts a server has.
#[derive(Clone, Copy)]
struct Counts {
    spaces: usize,
    mounts: usize,
}

impl Counts {
    /// Whether a room has no namespace left, and mounts.
    fn fills_spaces(self) -> bool {
        let room = self.spaces / MOST_SPACES;
        room > 0
            && self.spaces == room.saturating_mul(MOST_SPACES)
            && self.mounts < room.saturating_mul(MOST_MOUNTS)
    }
}

/// Whether a command makes a namespace, which may be a detached tree.
fn makes_space(command: &Command) -> bool {
    matches!(
        command,
        Command::NewSpace { .. }
            | Command::CopySpace { .. }
            | Command::OpenTree { .. }
            | Command::NewTree { .. }
    )
}

/// The limit that a command meets where there are so many namespaces and mounts. Refused as `NoMemory` alone.
fn limit_met(command: &Command, counts: Counts) -> Result<Limit, Fault> {
    match command {
        Command::MakeFs { .. } => Ok(Limit::Filesystems),
        Command::MakeDir { path, .. } => {
            let Ok(names) = path.to_vec() else {
                return Err(Fault::NoMemory);
            };
            if names.len() > MOST_DEPTH {
                Ok(Limit::Depth)
            } else {
                Ok(Limit::Directories)
            }
        }
        _ if makes_space(command) && counts.fills_spaces() => Ok(Limit::Spaces(counts.spaces)),
        _ => Ok(Limit::Mounts(counts.mounts)),
    }
}

/// How many namespaces and mounts a server has, or none where it does not tell its tables, as where the session has a
/// watcher already.
fn counts_of<R: Input + Drop, W: Output>(
    alloc: Global,
    lines: &mut LineReader<R>,
    writer: &mut W,
) -> Result<Option<Counts>, Fault>
    requires fresh { fault_of lines.old ≡ None }
    ensures fresh { OnOk result (fault_of lines.new ≡ None) }
{
    let Some(tables) = watched_tables(alloc, lines, writer, &mut Quiet)? else {
        return Ok(None);
    };
    let _closed = ask_line(alloc, lines, writer, b"close", &mut Quiet)?;
    let mut mounts = 0usize;
    for table in tables.iter() {
        mounts = mounts.saturating_add(table.table().rows().len());
    }
    Ok(Some(Counts {
        spaces: tables.len(),
        mounts,
    }))
}

/// Says of a command that was refused for a limit which one it met, and which room would do, by what the server shows; with
/// the number of its line where it is one of a script.
pub(crate) fn tell_limit<E: Eprint, R: Input + Drop, W: Output>(
    rt: &E,
    alloc: Global,
    number: Option<u64>,
    command: &Command,
    lines: &mut LineReader<R>,
    writer: &mut W,
) -> Result<(), Fault>
    requires fresh { fault_of lines.old ≡ None }
    ensures fresh { OnOk result (fault_of lines.new ≡ None) }
{
    let Some(counts) = counts_of(alloc, lines, writer)? else {
        return Ok(());
    };
    let limit = limit_met(command, counts)?;
    match number {
        Some(number) => {
            let _ = eprintln!(rt; "{NAME}: line {number}: TooMany: {limit}");
        }
        None => {
            let _ = eprintln!(rt; "{NAME}: TooMany: {limit}");
        }
    }
    Ok(())
}
