//! Filesystems and directories that lines need and no table tells of.
ghost use Rattle.std.specs.Prelude.{◌≡◌, ◌≢◌, None, Some, OnOk, IfOk, IfErr, IsOkUnless, IsTrue, MatchOption};
ghost use Rattle.std.specs.List.{find};
ghost use Rattle.mt_skel.specs.Skeleton.{directory, is_directory};
ghost use Rattle.mt_mounts.specs.Walk.{walk};
ghost use Rattle.mt_propagate.specs.World.{world_view};
ghost use Rattle.mt_propagate.specs.WellFormed.{IsWellFormed};
ghost use Rattle.mt_what_if.specs.Trials.{all_done, stopped};
ghost use Rattle.mt_what_if.specs.Provided.{filesystem_lacking, nested, goes_by_name, nested_in, nested_at, leads_somewhere, directories_lacking, filesystem_given, directories_given, filesystem_mounted, unknown_type, mounted_given, path_given, paths_given, command_given};

use crate::trial::{Trial, give_all};
use crate::walking::place_at;
use mt_book::command::Command;
use mt_mounts::mount::SpaceId;
use mt_propagate::world::World;
use mt_refused::asked::{Which, asked_path, asked_space};
use mt_skel::fault::Fault;
use mt_skel::name::{Label, Name};
use mt_skel::names::Names;
use mt_skel::skel::{Dir, FsId, Skel};
use std::alloc::Global;

/// The type of a filesystem that is made and of which no line says what type it has, as mount(8) writes it.
const UNKNOWN_TYPE: &[u8] = b"auto";

/// The type of a filesystem of which no line says what type it has.
pub(crate) fn unknown_type() -> &'static [u8]
    ensures { result.now ≡ unknown_type }
{
    UNKNOWN_TYPE
}

/// The command that makes the filesystem of a name, with this type and a source of its name, if none has that name.
fn filesystem_lacking(
    alloc: Global,
    skel: &Skel,
    name: &Label,
    kind: &Label,
) -> Result<Vec<Command>, Fault>
    ensures commands { IfOk result (λ commands. commands.items ≡ filesystem_lacking skel.now name.now kind.now) }
    ensures memory { IsOkUnless result Fault.NoMemory }
{
    let mut commands = Vec::new(alloc);
    if skel.fs(name).is_none() {
        commands.push(Command::MakeFs {
            name: name.copy()?,
            kind: kind.copy()?,
            source: name.copy()?,
        })?;
    }
    Ok(commands)
}

/// Whether a filesystem goes by a name.
fn goes_by_name(skel: &Skel, fs: FsId, name: &Label) -> bool
    ensures { result ≡ goes_by_name skel.now fs name.now }
{
    match skel.fs(name) {
        Some(found) => fs == found,
        None => false,
    }
}

/// The first of these names by which a filesystem goes.
fn name_of<'a>(skel: &Skel, known: &'a [Label], fs: FsId) -> Option<&'a Label>
    ensures { MatchOption result (find (goes_by_name skel.now fs) known.entry.now ≡ None) (λ name. find (goes_by_name skel.now fs) known.entry.now ≡ Some name.now) }
{
    'known: for name in known {
        if goes_by_name(skel, fs, name) {
            return Some(name);
        }
    }
    None
}

/// The commands that make directories of these names, each in the one before, from a path of a filesystem down.
fn nested(alloc: Global, fs: &Label, path: Names, names: &[Name]) -> Result<Vec<Command>, Fault>
    ensures commands { IfOk result (λ commands. commands.items ≡ nested fs.now path names.now) }
    ensures memory { IsOkUnless result Fault.NoMemory }
{
    let mut commands = Vec::new(alloc);
    let mut path = path;
    'names: for name in names {
        path = path.with(name)?;
        commands.push(Command::MakeDir {
            fs: fs.copy()?,
            path: path.copy()?,
        })?;
    }
    Ok(commands)
}

/// The path of a directory in its filesystem.
fn path_of(alloc: Global, skel: &Skel, dir: Dir) -> Result<Names, Fault>
    requires { IsTrue (is_directory skel.now dir) }
    ensures path { IfOk result (λ path. path ≡ (directory skel.now dir).path) }
    ensures memory { IsOkUnless result Fault.NoMemory }
{
    let path = skel.add_path(Names::root(alloc), dir, skel.depth(dir))?;
    Ok(path)
}

/// The commands that make directories of these names, each in the one before, in a directory; none, where its filesystem goes by
/// none of the known names.
fn nested_in(
    alloc: Global,
    known: &[Label],
    skel: &Skel,
    dir: Dir,
    names: &[Name],
) -> Result<Vec<Command>, Fault>
    requires { IsTrue (is_directory skel.now dir) }
    ensures commands { IfOk result (λ commands. commands.items ≡ nested_in known.now skel.now dir names.now) }
    ensures memory { IsOkUnless result Fault.NoMemory }
{
    let Some(fs) = name_of(skel, known, skel.fs_of(dir)) else {
        return Ok(Vec::new(alloc));
    };
    nested(alloc, fs, path_of(alloc, skel, dir)?, names)
}

/// The same, in the directory to which a path leads, if it leads to one.
fn nested_at(
    alloc: Global,
    known: &[Label],
    world: &World,
    space: SpaceId,
    front: &[Name],
    names: &[Name],
) -> Result<Vec<Command>, Fault>
    requires { IsWellFormed (world_view world.now) }
    ensures commands { IfOk result (λ commands. commands.items ≡ nested_at known.now world.now.skel (walk world.now.skel world.now.forest.mounts space front.now) names.now) }
    ensures memory { IsOkUnless result Fault.NoMemory }
{
    match place_at(world, space, front) {
        Some(place) => nested_in(alloc, known, &world.skel, place.dir, names),
        None => Ok(Vec::new(alloc)),
    }
}

/// Whether a path leads to a directory that is there.
fn leads_somewhere(world: &World, space: SpaceId, path: &[Name]) -> bool
    requires { IsWellFormed (world_view world.now) }
    ensures { result ≡ leads_somewhere (world_view world.now) space path.now }
{
    place_at(world, space, path).is_some()
}

/// The commands that make the directories of a path that are not there, each in the one before.
fn directories_lacking(
    alloc: Global,
    known: &[Label],
    world: &World,
    space: SpaceId,
    path: &[Name],
) -> Result<Vec<Command>, Fault>
    requires { IsWellFormed (world_view world.now) }
    ensures commands { IfOk result (λ commands. commands.items ≡ directories_lacking known.now (world_view world.now) space path.now) }
    ensures memory { IsOkUnless result Fault.NoMemory }
{
    'names: for (before, _name) in path.iter().enumerate() {
        if !leads_somewhere(world, space, &path[..before + 1]) {
            return nested_at(alloc, known, world, space, &path[..before], &path[before..]);
        }
    }
    Ok(Vec::new(alloc))
}

/// Gives a line the filesystem of a name, with this type and a source of its name, if none has that name. Refused as the command that
/// makes it, and as `NoMemory`.
#[tactic(auto, unfolding(crate::specs::Provided::filesystem_given))]
pub(crate) fn give_filesystem(
    trial: &mut Trial,
    alloc: Global,
    name: &Label,
    kind: &Label,
) -> Result<(), Fault>
    ensures start { trial.new.start ≡ trial.old.start }
    ensures done { OnOk result (filesystem_given trial.old name.now kind.now ≡ all_done trial.new) }
    ensures refused { IfErr result (λ fault. fault ≢ Fault.NoMemory → filesystem_given trial.old name.now kind.now ≡ stopped trial.new fault) }
{
    let lacking = filesystem_lacking(alloc, &trial.world().skel, name, kind)?;
    give_all(trial, &lacking)
}

/// Gives a line the directories of a path that are not there. Refused as the commands that make them, and as `NoMemory`.
#[tactic(auto, unfolding(crate::specs::Provided::directories_given))]
fn give_directories(
    trial: &mut Trial,
    alloc: Global,
    space: SpaceId,
    path: &Names,
) -> Result<(), Fault>
    ensures start { trial.new.start ≡ trial.old.start }
    ensures done { OnOk result (directories_given trial.old space path.now ≡ all_done trial.new) }
    ensures refused { IfErr result (λ fault. fault ≢ Fault.NoMemory → directories_given trial.old space path.now ≡ stopped trial.new fault) }
{
    let names = path.to_vec()?;
    let lacking = directories_lacking(alloc, trial.names(), trial.world(), space, &names)?;
    give_all(trial, &lacking)
}

/// The filesystem that a command mounts, if it mounts one.
fn filesystem_mounted(command: &Command) -> Option<&Label>
    ensures { MatchOption result (filesystem_mounted command.now ≡ None) (λ name. filesystem_mounted command.now ≡ Some name.now) }
{
    match command {
        Command::Mount { fs, .. } => Some(fs),
        Command::MountWith { fs, .. } => Some(fs),
        Command::NewTree { fs } => Some(fs),
        _ => None,
    }
}

/// Gives a command the filesystem that it mounts, if it mounts one and that is not there.
#[tactic(auto, unfolding(crate::specs::Provided::mounted_given))]
fn give_mounted(trial: &mut Trial, alloc: Global, command: &Command) -> Result<(), Fault>
    ensures start { trial.new.start ≡ trial.old.start }
    ensures done { OnOk result (mounted_given trial.old command.now ≡ all_done trial.new) }
    ensures refused { IfErr result (λ fault. fault ≢ Fault.NoMemory → mounted_given trial.old command.now ≡ stopped trial.new fault) }
{
    let Some(name) = filesystem_mounted(command) else {
        return Ok(());
    };
    let kind = Label::of(alloc, UNKNOWN_TYPE)?;
    give_filesystem(trial, alloc, name, &kind)
}

/// Gives a command the directories of one of its paths, if it has that, so far as they are not there.
#[tactic(auto, unfolding(crate::specs::Provided::path_given))]
fn give_path(trial: &mut Trial, alloc: Global, command: &Command, which: Which) -> Result<(), Fault>
    ensures start { trial.new.start ≡ trial.old.start }
    ensures done { OnOk result (path_given trial.old command.now which ≡ all_done trial.new) }
    ensures refused { IfErr result (λ fault. fault ≢ Fault.NoMemory → path_given trial.old command.now which ≡ stopped trial.new fault) }
{
    let Some(space) = asked_space(command) else {
        return Ok(());
    };
    let Some(path) = asked_path(command, which) else {
        return Ok(());
    };
    give_directories(trial, alloc, space, path)
}

/// Gives a command the directories of both of its paths, so far as they are not there.
#[tactic(auto, unfolding(crate::specs::Provided::paths_given))]
fn give_paths(trial: &mut Trial, alloc: Global, command: &Command) -> Result<(), Fault>
    ensures start { trial.new.start ≡ trial.old.start }
    ensures done { OnOk result (paths_given trial.old command.now ≡ all_done trial.new) }
    ensures refused { IfErr result (λ fault. fault ≢ Fault.NoMemory → paths_given trial.old command.now ≡ stopped trial.new fault) }
{
    give_path(trial, alloc, command, Which::First)?;
    give_path(trial, alloc, command, Which::Second)
}

/// Gives a command the filesystem that it mounts and the directories of its paths, so far as they are not there. Refused as the
/// commands that make them, and as `NoMemory`.
#[tactic(auto, unfolding(crate::specs::Provided::command_given))]
pub(crate) fn give_needed(trial: &mut Trial, alloc: Global, command: &Command) -> Result<(), Fault>
    ensures start { trial.new.start ≡ trial.old.start }
    ensures done { OnOk result (command_given trial.old command.now ≡ all_done trial.new) }
    ensures refused { IfErr result (λ fault. fault ≢ Fault.NoMemory → command_given trial.old command.now ≡ stopped trial.new fault) }
{
    give_mounted(trial, alloc, command)?;
    give_paths(trial, alloc, command)
}
