//! A line, tried on the world of tables.
ghost use Rattle.std.specs.Prelude.{◌≡◌, ◌≢◌, true, false, Ok, OnOk, IfOk, IfErr, IsOkUnless};
ghost use Rattle.mt_skel.specs.Names.{is_label};
ghost use Rattle.mt_requests.specs.Requests.{request_of};
ghost use Rattle.mt_what_if.specs.Scripts.{filesystem_in};
ghost use Rattle.mt_what_if.specs.Trials.{all_done, stopped};
ghost use Rattle.mt_what_if.specs.Tried.{command_run, request_run, line_run, script_run, later_run, scripts_run, named_given, source_given, IsScriptTried, IsLineWith, IsLineTried};

use crate::asked::{AskedLine, number_text};
use crate::provide::{give_filesystem, give_needed, unknown_type};
use crate::script::script_with;
use crate::sources::filesystem_of;
use crate::trial::{Trial, last_space};
use mt_book::command::Command;
use mt_forms::operation::Operation;
use mt_forms::script::later_session_lines;
use mt_lines::words::Pieces;
use mt_questions::table::NamedTable;
use mt_requests::request::{Request, read_request};
use mt_skel::fault::Fault;
use mt_skel::name::Label;
use std::alloc::Global;

/// What comes of a line that is tried.
#[derive(Clone, Copy, PartialEq, Eq, Debug)]
pub enum Outcome {
    /// It is done.
    Done,
    /// It is refused. What came before stands, also of this line.
    Refused(Fault),
}

/// Tries a command, which is given first what it needs and is not there.
#[tactic(auto, unfolding(crate::specs::Tried::command_run))]
fn try_command(trial: &mut Trial, alloc: Global, command: &Command) -> Result<(), Fault>
    ensures start { trial.new.start ≡ trial.old.start }
    ensures done { OnOk result (command_run trial.old command.now ≡ all_done trial.new) }
    ensures refused { IfErr result (λ fault. fault ≢ Fault.NoMemory → command_run trial.old command.now ≡ stopped trial.new fault) }
{
    give_needed(trial, alloc, command)?;
    trial.run(command)
}

/// Tries a request, which is refused as `BadLine` where it is no command.
fn try_request(trial: &mut Trial, alloc: Global, request: &Request) -> Result<(), Fault>
    ensures start { trial.new.start ≡ trial.old.start }
    ensures done { OnOk result (request_run trial.old (Ok request.now) ≡ all_done trial.new) }
    ensures refused { IfErr result (λ fault. fault ≢ Fault.NoMemory → request_run trial.old (Ok request.now) ≡ stopped trial.new fault) }
{
    match request {
        Request::Run(command) => try_command(trial, alloc, command),
        _ => Err(Fault::BadLine),
    }
}

/// Tries a line of a session that is not empty.
fn try_text(trial: &mut Trial, alloc: Global, line: &[u8]) -> Result<(), Fault>
    ensures start { trial.new.start ≡ trial.old.start }
    ensures done { OnOk result (request_run trial.old (request_of line.now) ≡ all_done trial.new) }
    ensures refused { IfErr result (λ fault. fault ≢ Fault.NoMemory → request_run trial.old (request_of line.now) ≡ stopped trial.new fault) }
{
    let request = read_request(alloc, line)?;
    try_request(trial, alloc, &request)
}

/// Tries a line of a session. An empty line does nothing.
#[tactic(auto, unfolding(crate::specs::Tried::line_run))]
fn try_session_line(trial: &mut Trial, alloc: Global, line: &[u8]) -> Result<(), Fault>
    ensures start { trial.new.start ≡ trial.old.start }
    ensures done { OnOk result (line_run trial.old line.now ≡ all_done trial.new) }
    ensures refused { IfErr result (λ fault. fault ≢ Fault.NoMemory → line_run trial.old line.now ≡ stopped trial.new fault) }
{
    match line {
        [] => Ok(()),
        [_first, ..] => try_text(trial, alloc, line),
    }
}

/// Tries the lines of a session in turn, up to one that is refused.
#[tactic(auto, unfolding(crate::specs::Tried::script_run))]
fn try_script(trial: &mut Trial, alloc: Global, script: &[u8]) -> Result<(), Fault>
    ensures start { trial.new.start ≡ trial.old.start }
    ensures done { OnOk result (script_run trial.old script.now ≡ all_done trial.new) }
    ensures refused { IfErr result (λ fault. fault ≢ Fault.NoMemory → script_run trial.old script.now ≡ stopped trial.new fault) }
{
    let mut lines = Pieces::new(b'\n', script);
    'lines: while let Some(line) = lines.next() {
        try_session_line(trial, alloc, line)?;
    }
    Ok(())
}

/// Tries the lines of a session that a line asks for once the last namespace is there.
#[tactic(auto, unfolding(crate::specs::Tried::later_run))]
fn try_later(trial: &mut Trial, alloc: Global, operation: &Operation<'_>) -> Result<(), Fault>
    ensures start { trial.new.start ≡ trial.old.start }
    ensures done { OnOk result (later_run trial.old operation.now ≡ all_done trial.new) }
    ensures refused { IfErr result (λ fault. fault ≢ Fault.NoMemory → later_run trial.old operation.now ≡ stopped trial.new fault) }
{
    let made = number_text(alloc, last_space(trial.world()))?;
    let script = later_session_lines(alloc, operation, &made)?;
    try_script(trial, alloc, &script)
}

/// Tries the lines of a session that a line asks for, and then those for the mounts of a namespace that it makes.
#[tactic(auto, unfolding(crate::specs::Tried::scripts_run))]
fn try_scripts(
    trial: &mut Trial,
    alloc: Global,
    operation: &Operation<'_>,
    script: &[u8],
) -> Result<(), Fault>
    ensures start { trial.new.start ≡ trial.old.start }
    ensures done { OnOk result (scripts_run trial.old operation.now script.now ≡ all_done trial.new) }
    ensures refused { IfErr result (λ fault. fault ≢ Fault.NoMemory → scripts_run trial.old operation.now script.now ≡ stopped trial.new fault) }
{
    try_script(trial, alloc, script)?;
    try_later(trial, alloc, operation)
}

/// The label of a word, which is refused as `TooLong` where it is none.
fn label_of(alloc: Global, word: &[u8]) -> Result<Label, Fault>
    ensures label { IfOk result (λ label. (is_label word.now ≡ true) × (label ≡ word.now)) }
    ensures refused { IfErr result (λ fault. fault ≢ Fault.NoMemory → (is_label word.now ≡ false) × (fault ≡ Fault.TooLong)) }
{
    match Label::new(Vec::from_slice(alloc, word)?) {
        Ok(label) => Ok(label),
        Err(_bytes) => Err(Fault::TooLong),
    }
}

/// Gives a line the filesystem of a name, of a type. Refused as `TooLong` where either is no label, as the command that makes the
/// filesystem, and as `NoMemory`.
fn give_named(trial: &mut Trial, alloc: Global, name: &[u8], kind: &[u8]) -> Result<(), Fault>
    ensures start { trial.new.start ≡ trial.old.start }
    ensures done { OnOk result (named_given trial.old name.now kind.now ≡ all_done trial.new) }
    ensures refused { IfErr result (λ fault. fault ≢ Fault.NoMemory → named_given trial.old name.now kind.now ≡ stopped trial.new fault) }
{
    let name = label_of(alloc, name)?;
    let kind = label_of(alloc, kind)?;
    give_filesystem(trial, alloc, &name, &kind)
}

/// Gives a line the filesystem that it mounts, if it mounts one: that of a name.
#[tactic(auto, unfolding(crate::specs::Tried::source_given))]
fn give_source(
    trial: &mut Trial,
    alloc: Global,
    operation: &Operation<'_>,
    filesystem: &[u8],
) -> Result<(), Fault>
    ensures start { trial.new.start ≡ trial.old.start }
    ensures done { OnOk result (source_given filesystem.now operation.now trial.old ≡ all_done trial.new) }
    ensures refused { IfErr result (λ fault. fault ≢ Fault.NoMemory → source_given filesystem.now operation.now trial.old ≡ stopped trial.new fault) }
{
    let Operation::Mount { kind, .. } = operation else {
        return Ok(());
    };
    let kind = match kind {
        Some(kind) => kind.bytes(),
        None => unknown_type(),
    };
    give_named(trial, alloc, filesystem, kind)
}

/// What the filesystem goes by that a line mounts; nothing where it mounts none.
fn filesystem_in(
    alloc: Global,
    tables: &[NamedTable],
    operation: &Operation<'_>,
) -> Result<Vec<u8>, Fault>
    ensures name { IfOk result (λ name. name.items ≡ filesystem_in operation.now tables.now) }
    ensures memory { IsOkUnless result Fault.NoMemory }
{
    match operation {
        Operation::Mount { source, .. } => {
            let bytes = filesystem_of(alloc, tables, source.bytes())?;
            Ok(Vec::from_slice(alloc, bytes)?)
        }
        _ => Ok(Vec::new(alloc)),
    }
}

/// Tries the lines of a session that a line asks for, given what the filesystem goes by that it mounts.
fn try_asked(
    trial: &mut Trial,
    alloc: Global,
    line: &AskedLine<'_>,
    filesystem: &[u8],
) -> Result<(), Fault>
    ensures start { trial.new.start ≡ trial.old.start }
    ensures done { OnOk result (IsScriptTried filesystem.now line.now trial.old (all_done trial.new)) }
    ensures refused { IfErr result (λ fault. fault ≢ Fault.NoMemory → IsScriptTried filesystem.now line.now trial.old (stopped trial.new fault)) }
{
    let script = script_with(alloc, trial.world(), line, filesystem)?;
    try_scripts(trial, alloc, &line.asked.operation, &script)
}

/// Tries a line, which is given first the filesystem that it mounts: that of a name.
fn try_with_filesystem(
    trial: &mut Trial,
    alloc: Global,
    line: &AskedLine<'_>,
    filesystem: &[u8],
) -> Result<(), Fault>
    ensures start { trial.new.start ≡ trial.old.start }
    ensures done { OnOk result (IsLineWith filesystem.now line.now trial.old (all_done trial.new)) }
    ensures refused { IfErr result (λ fault. fault ≢ Fault.NoMemory → IsLineWith filesystem.now line.now trial.old (stopped trial.new fault)) }
{
    give_source(trial, alloc, &line.asked.operation, filesystem)?;
    try_asked(trial, alloc, line, filesystem)
}

/// Tries a line: its commands in turn, each of which is given what it needs and is not there, up to one that is refused. Fails as
/// `NoMemory` alone.
pub(crate) fn try_line(
    trial: &mut Trial,
    alloc: Global,
    tables: &[NamedTable],
    line: &AskedLine<'_>,
) -> Result<Outcome, Fault>
    ensures start { trial.new.start ≡ trial.old.start }
    ensures tried { IfOk result (λ outcome. IsLineTried tables.now line.now trial.old (record { trial = trial.new; outcome = outcome })) }
    ensures memory { IsOkUnless result Fault.NoMemory }
{
    let filesystem = filesystem_in(alloc, tables, &line.asked.operation)?;
    match try_with_filesystem(trial, alloc, line, &filesystem) {
        Ok(()) => Ok(Outcome::Done),
        Err(Fault::NoMemory) => Err(Fault::NoMemory),
        Err(fault) => Ok(Outcome::Refused(fault)),
    }
}
