//! `page`: what a session does, as a page that plays it in a browser.
ghost use Rattle.std.specs.Prelude.{◌≡◌, None, OnOk, IsTrue};
ghost use Rattle.mt_skel.specs.Keyed.{rises};
ghost use Rattle.mt_lines.specs.Reading.{fault_of};
ghost use Rattle.mt_client.specs.Finding.{mirror_space};

use crate::fault::Fault;
use crate::kept::{Kept, ask_kept};
use crate::played::{Played, empty_step};
use mt_client::effects::tell_changes;
use mt_client::fault::ClientFault;
use mt_client::named::NamedTelling;
use mt_client::watch::watch;
use mt_events::mirror::Mirror;
use mt_events::opening::Scope;
use mt_lines::line::LineReader;
use mt_lines::stream::{Input, Output};
use mt_lines::words::Pieces;
use mt_protocol::refusal::{refusal_named, refusal_row};
use mt_render::page_data::{Step, opening_data, steps_data};
use mt_render::telling::Telling;
use std::alloc::{AllocError, AllocFailed, Global};

/// How often posts are asked for at most.
const MOST_TAKES: u64 = u64::MAX;

/// How many posts are taken at once.
const MOST_TAKEN: usize = 1_024;

/// How often posts are taken behind a line that comes where there are so many namespaces: it makes one more at most, and one
/// post of each.
pub(crate) fn takes_among(spaces: usize) -> usize {
    (spaces / MOST_TAKEN).saturating_add(1)
}

/// Why there is no page of a session.
#[derive(Drop)]
pub(crate) enum Unplayed {
    /// The run failed.
    Failed(Fault),
    /// The watcher was refused, with this line.
    Refused(Kept),
    /// Posts are missing.
    Lost,
}

impl From<Fault> for Unplayed {
    fn from(fault: Fault) -> Unplayed {
        Unplayed::Failed(fault)
    }
}

impl From<AllocError> for Unplayed {
    fn from(_error: AllocError) -> Unplayed {
        Unplayed::Failed(Fault::NoMemory)
    }
}

impl<T: Drop> From<AllocFailed<T>> for Unplayed {
    fn from(_error: AllocFailed<T>) -> Unplayed {
        Unplayed::Failed(Fault::NoMemory)
    }
}

impl From<ClientFault> for Unplayed {
    fn from(fault: ClientFault) -> Unplayed {
        match fault {
            // What is told goes into memory.
            ClientFault::Output => Unplayed::Failed(Fault::NoMemory),
            fault => Unplayed::Failed(Fault::from(fault)),
        }
    }
}

/// What a page reads: the tables that were there before, and what stands behind them.
#[derive(Drop)]
pub(crate) struct PageData {
    pub(crate) opening: Vec<u8>,
    pub(crate) steps: Vec<u8>,
}

/// What the refusal says that an answer is, if it is one.
fn reason_of(answer: &[u8]) -> &'static [u8] {
    let Some(name) = answer.strip_prefix(b"no ") else {
        return b"";
    };
    match refusal_named(name) {
        Some(refusal) => refusal_row(refusal).sentence.as_bytes(),
        None => b"",
    }
}

/// Sends a line, and answers the first line of its answer.
fn answer_to<R: Input + Drop, W: Output>(
    alloc: Global,
    line: &[u8],
    lines: &mut LineReader<R>,
    writer: &mut W,
) -> Result<Vec<u8>, Unplayed>
    requires fresh { fault_of lines.old ≡ None }
    ensures fresh { OnOk result (fault_of lines.new ≡ None) }
{
    let mut kept = Kept::new(alloc);
    let _told = ask_kept(alloc, lines, writer, line, &mut kept)?;
    let first = Pieces::new(b'\n', kept.text()).next().unwrap_or(&[]);
    Ok(Vec::from_slice(alloc, first)?)
}

/// Takes the posts that a watcher has, and answers the objects of what they tell.
fn take_changes<R: Input + Drop, W: Output>(
    alloc: Global,
    mirrors: &mut Vec<Mirror>,
    lines: &mut LineReader<R>,
    writer: &mut W,
) -> Result<Vec<u8>, Unplayed>
    requires fresh { fault_of lines.old ≡ None }
    requires rising { IsTrue (rises mirror_space mirrors.old.items) }
    ensures fresh { OnOk result (fault_of lines.new ≡ None) }
    ensures rising { OnOk result (IsTrue (rises mirror_space mirrors.new.items)) }
{
    let named = NamedTelling {
        telling: Telling::Json,
        names: &[],
    };
    let mut kept = Kept::new(alloc);
    if !tell_changes(alloc, lines, writer, &named, mirrors, &mut kept)? {
        return Err(Unplayed::Lost);
    }
    Ok(kept.into_text())
}

/// Takes posts so many times more, and answers the objects of what they tell behind these.
fn take_more<R: Input + Drop, W: Output>(
    alloc: Global,
    changes: Vec<u8>,
    count: usize,
    mirrors: &mut Vec<Mirror>,
    lines: &mut LineReader<R>,
    writer: &mut W,
) -> Result<Vec<u8>, Unplayed>
    requires fresh { fault_of lines.old ≡ None }
    requires rising { IsTrue (rises mirror_space mirrors.old.items) }
    ensures fresh { OnOk result (fault_of lines.new ≡ None) }
    ensures rising { OnOk result (IsTrue (rises mirror_space mirrors.new.items)) }
{
    let mut changes = changes;
    'takes: for _take in 0..count {
        let more = take_changes(alloc, mirrors, lines, writer)?;
        changes.extend_from_slice(more.as_slice())?;
    }
    Ok(changes)
}

/// A step with what the refusal says that its answer is, if it is one. Fails for want of memory alone.
pub(crate) fn step_with_reason(step: Step) -> Result<Step, AllocError> {
    let mut step = step;
    step.reason
        .extend_from_slice(reason_of(step.answer.as_slice()))?;
    Ok(step)
}

/// Sends the line of a step, and takes the posts behind it, so many times.
fn send_step<R: Input + Drop, W: Output>(
    alloc: Global,
    step: Step,
    takes: usize,
    mirrors: &mut Vec<Mirror>,
    lines: &mut LineReader<R>,
    writer: &mut W,
) -> Result<Step, Unplayed>
    requires fresh { fault_of lines.old ≡ None }
    requires rising { IsTrue (rises mirror_space mirrors.old.items) }
    ensures fresh { OnOk result (fault_of lines.new ≡ None) }
    ensures rising { OnOk result (IsTrue (rises mirror_space mirrors.new.items)) }
{
    let Step {
        line,
        reason,
        note,
        answer: _unknown,
        changes: _none,
    } = step;
    let answer = answer_to(alloc, line.as_slice(), lines, writer)?;
    let first = take_changes(alloc, mirrors, lines, writer)?;
    let changes = take_more(
        alloc,
        first,
        takes.saturating_sub(1),
        mirrors,
        lines,
        writer,
    )?;
    Ok(Step {
        line,
        answer,
        reason,
        note,
        changes,
    })
}

/// Plays a step. Its line is sent, unless it has its answer, and posts are taken behind it so many times.
fn play_step<R: Input + Drop, W: Output>(
    alloc: Global,
    step: Step,
    takes: usize,
    mirrors: &mut Vec<Mirror>,
    lines: &mut LineReader<R>,
    writer: &mut W,
) -> Result<Step, Unplayed>
    requires fresh { fault_of lines.old ≡ None }
    requires rising { IsTrue (rises mirror_space mirrors.old.items) }
    ensures fresh { OnOk result (fault_of lines.new ≡ None) }
    ensures rising { OnOk result (IsTrue (rises mirror_space mirrors.new.items)) }
{
    if !step.answer.is_empty() {
        return Ok(step_with_reason(step)?);
    }
    let sent = send_step(alloc, step, takes, mirrors, lines, writer)?;
    Ok(step_with_reason(sent)?)
}

/// Plays the steps of a session, one after another.
fn play_steps<R: Input + Drop, W: Output>(
    alloc: Global,
    steps: Vec<Step>,
    mirrors: &mut Vec<Mirror>,
    lines: &mut LineReader<R>,
    writer: &mut W,
) -> Result<Vec<Step>, Unplayed>
    requires fresh { fault_of lines.old ≡ None }
    requires rising { IsTrue (rises mirror_space mirrors.old.items) }
    ensures fresh { OnOk result (fault_of lines.new ≡ None) }
    ensures rising { OnOk result (IsTrue (rises mirror_space mirrors.new.items)) }
{
    let mut played = Vec::new(alloc);
    let mut spaces = mirrors.len();
    'steps: for step in steps {
        let takes = takes_among(spaces);
        played.push(play_step(alloc, step, takes, mirrors, lines, writer)?)?;
        spaces = spaces.saturating_add(1);
    }
    Ok(played)
}

/// Takes posts until none is left, and answers the objects of what they tell. Others have made them; but where some are
/// missing, that is said here at last.
fn take_rest<R: Input + Drop, W: Output>(
    alloc: Global,
    mirrors: &mut Vec<Mirror>,
    lines: &mut LineReader<R>,
    writer: &mut W,
) -> Result<Vec<u8>, Unplayed>
    requires fresh { fault_of lines.old ≡ None }
    requires rising { IsTrue (rises mirror_space mirrors.old.items) }
{
    let mut rest = Vec::new(alloc);
    'takes: for _take in 0..MOST_TAKES {
        let changes = take_changes(alloc, mirrors, lines, writer)?;
        if changes.is_empty() {
            return Ok(rest);
        }
        rest.extend_from_slice(changes.as_slice())?;
    }
    Ok(rest)
}

/// A step without a line, of what is told or changed behind the last one.
fn last_step(alloc: Global, note: Vec<u8>, changes: Vec<u8>) -> Step {
    let mut step = empty_step(alloc);
    step.note = note;
    step.changes = changes;
    step
}

/// Plays a session: watches all namespaces, sends its lines, and takes what each has changed.
pub(crate) fn play<R: Input + Drop, W: Output>(
    alloc: Global,
    session: Played,
    title: &[u8],
    lines: &mut LineReader<R>,
    writer: &mut W,
) -> Result<PageData, Unplayed>
    requires fresh { fault_of lines.old ≡ None }
{
    let mut refusal = Kept::new(alloc);
    let Some(mut mirrors) = watch(alloc, lines, writer, Scope::All, &mut refusal)? else {
        return Err(Unplayed::Refused(refusal));
    };
    let opening = opening_data(alloc, mirrors.as_slice())?;
    let Played { steps, names, note } = session;
    let mut played = play_steps(alloc, steps, &mut mirrors, lines, writer)?;
    let rest = take_rest(alloc, &mut mirrors, lines, writer)?;
    if !note.is_empty() || !rest.is_empty() {
        played.push(last_step(alloc, note, rest))?;
    }
    let steps = steps_data(alloc, played.as_slice(), names.as_slice(), title)?;
    Ok(PageData { opening, steps })
}
