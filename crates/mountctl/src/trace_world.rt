//! The world that a trace is played on.
ghost use Rattle.std.specs.Prelude.{IfOk};
ghost use Rattle.mt_propagate.specs.World.{world_view};
ghost use Rattle.mt_propagate.specs.WellFormed.{IsWellFormed};

use crate::PROGRAM;
use crate::fault::Fault;
use crate::import::script_text;
use crate::missed::{tell_lockless_tables, tell_missed};
use crate::namespaces::named_tables;
use crate::script::is_comment;
use crate::sources::TableFile;
use crate::tables::{named_files, script_of_files};
use crate::task::WordFault;
use crate::what_if::numbers_in;
use mt_book::attempt::try_step;
use mt_book::command::Command;
use mt_import::import::Import;
use mt_lines::words::Pieces;
use mt_propagate::world::World;
use mt_requests::request::{Request, read_request};
use mt_skel::fault::Fault as Refusal;
use mt_skel::name::Label;
use mt_skel::skel::MOST_ROOM;
use mt_trace::opening::GivenSpace;
use mt_what_if::scene::begin;
use std::alloc::{AllocError, Global};
use std::marker::Model;
use std::process::ExitCode;

/// The world that a trace is played on, and what is known of it.
pub(crate) struct TraceWorld {
    /// The world.
    pub(crate) world: World,
    /// The names of its filesystems.
    pub(crate) filesystems: Vec<Label>,
    /// The namespaces of the tables.
    pub(crate) spaces: Vec<GivenSpace>,
    /// The lines that make it in a new server; none where they were not asked for.
    pub(crate) script: Vec<u8>,
}

impl Model for TraceWorld {
    ghost use Rattle.mt_propagate.specs.World.{WorldView, world_view};
    ghost use Rattle.mt_propagate.specs.WellFormed.{IsWellFormed};

    ghost Value = { WorldView };

    ghost view = { λ t. world_view t.world };

    ghost invariant = { λ t. IsWellFormed (world_view t.world) };
}

impl Drop for TraceWorld {
    fn drop(self) {
        let TraceWorld {
            world: _world,
            filesystems: _filesystems,
            spaces: _spaces,
            script: _script,
        } = self;
    }
}

/// Says that there is no memory.
fn no_memory(rt: &HostRuntime) -> ExitCode {
    PROGRAM.fail(rt, Fault::NoMemory.message())
}

/// Copies of labels.
fn copies(alloc: Global, labels: &[Label]) -> Result<Vec<Label>, AllocError> {
    let mut all = Vec::new(alloc);
    for label in labels {
        all.push(label.clone()?)?;
    }
    Ok(all)
}

/// A name with a hyphen in the place of each space: a line of a change has it as one word.
fn joined_name(alloc: Global, name: &[u8]) -> Result<Vec<u8>, AllocError> {
    let mut joined = Vec::new(alloc);
    for byte in name {
        joined.push(if *byte == b' ' { b'-' } else { *byte })?;
    }
    Ok(joined)
}

/// The world of the tables that words name, with their own numbers.
pub(crate) fn world_of_tables(rt: &HostRuntime, words: &[&str]) -> Result<TraceWorld, ExitCode> {
    let names = named_tables(rt, words, WordFault::Trace)?;
    let alloc = rt.alloc();
    let Ok(begun) = begin(alloc, names.tables(), MOST_ROOM) else {
        return Err(no_memory(rt));
    };
    tell_missed(rt, &names, begun.missed.as_slice());
    tell_lockless_tables(rt, &names, begun.lockless.as_slice());
    let mut spaces = Vec::new(alloc);
    let mut number = 0u64;
    for table in names.tables() {
        number = number.saturating_add(1);
        let Ok(name) = joined_name(alloc, table.name.as_slice()) else {
            return Err(no_memory(rt));
        };
        let given = GivenSpace {
            space: number,
            name,
            is_foreign: table.is_foreign,
        };
        if spaces.push(given).is_err() {
            return Err(no_memory(rt));
        }
    }
    let trial = &begun.scene.trial;
    let Ok(filesystems) = copies(alloc, trial.names()) else {
        return Err(no_memory(rt));
    };
    let Ok(world) = trial.start().copy() else {
        return Err(no_memory(rt));
    };
    Ok(TraceWorld {
        world,
        filesystems,
        spaces,
        script: Vec::new(alloc),
    })
}

/// Does the line of a script, and keeps the name of the filesystem that it makes.
fn do_line(
    alloc: Global,
    world: &mut World,
    names: &mut Vec<Label>,
    line: &[u8],
) -> Result<(), Refusal>
    requires { IsWellFormed (world_view world.old) }
    ensures { IsWellFormed (world_view world.new) }
{
    let Request::Run(command) = read_request(alloc, line)? else {
        return Ok(());
    };
    let _reply = try_step(world, &command)?;
    if let Command::MakeFs { name, .. } = &command {
        names.push(name.copy()?)?;
    }
    Ok(())
}

/// The namespace of a table of a file that a comment tells.
fn given_in(
    alloc: Global,
    files: &[TableFile],
    line: &[u8],
) -> Result<Option<GivenSpace>, AllocError> {
    let Some((table, space)) = numbers_in(line) else {
        return Ok(None);
    };
    let place = usize::try_from(table.saturating_sub(1)).unwrap_or(usize::MAX);
    let Some(file) = files.get(place) else {
        return Ok(None);
    };
    Ok(Some(GivenSpace {
        space,
        name: Vec::from_slice(alloc, file.path.as_str().as_bytes())?,
        is_foreign: false,
    }))
}

/// A new world of a room, as a server has it.
fn new_world(alloc: Global, room: usize) -> Result<World, Refusal>
    ensures { IfOk result (λ world. IsWellFormed (world_view world)) }
{
    let mut world = World::new(alloc);
    let _reply = try_step(&mut world, &Command::Room { room })?;
    Ok(world)
}

/// Does all lines of a script in a new world.
fn played(alloc: Global, import: &Import, files: &[TableFile]) -> Result<TraceWorld, Refusal> {
    let mut all = TraceWorld {
        world: new_world(alloc, import.room)?,
        filesystems: Vec::new(alloc),
        spaces: Vec::new(alloc),
        script: script_text(alloc, import)?,
    };
    for line in Pieces::new(b'\n', import.script.text()) {
        if let Some(given) = given_in(alloc, files, line)? {
            all.spaces.push(given)?;
        }
        if !is_comment(line) {
            do_line(alloc, &mut all.world, &mut all.filesystems, line)?;
        }
    }
    Ok(all)
}

/// The world that the script of an import of the tables makes, which words name.
pub(crate) fn world_of_script(rt: &HostRuntime, words: &[&str]) -> Result<TraceWorld, ExitCode> {
    let files = named_files(rt, words, WordFault::Trace)?;
    let import = script_of_files(rt, files.as_slice(), MOST_ROOM)?;
    match played(rt.alloc(), &import, files.as_slice()) {
        Ok(world) => Ok(world),
        Err(_) => Err(no_memory(rt)),
    }
}
