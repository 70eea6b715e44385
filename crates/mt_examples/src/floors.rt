//! Events one after another, in a way that no session does them: each answer of a schedule.
use crate::fixture::commands_of;
use mt_events::opening::Scope;
use mt_floor::event::{Answer, Event};
use mt_floor::floor::Floor;
use mt_skel::fault::Fault;
use std::alloc::Global;
use std::test::Fail;

/// Commands: the first gives no post, the second gives one, and the third is refused.
const COMMANDS: &[u8] = b"mkfs a tmpfs none
newns a
mkfs a x y";

/// What the schedule tells.
const TOLD: &[u8] = b"opened
replied
not now
none
replied
posted
took
no FilesystemExists
not now
none
met
closed
no NoWatcher
halted
";

/// A watcher that begins before the commands, is sent posts and takes after each, and is closed before a stop.
fn schedule(alloc: Global) -> Result<Vec<Event>, Fault> {
    let mut events = Vec::new(alloc);
    events.push(Event::Open(Scope::All))?;
    for command in commands_of(alloc, COMMANDS)? {
        events.push(Event::Apply(command))?;
        events.push(Event::PostNext)?;
        events.push(Event::Take(1))?;
    }
    events.push(Event::Meet(1))?;
    events.push(Event::Close(1))?;
    events.push(Event::Close(1))?;
    events.push(Event::Stop)?;
    Ok(events)
}

/// What an answer is.
fn kind(answer: &Answer) -> &'static [u8] {
    match answer {
        Answer::Replied(_) => b"replied",
        Answer::Posted { lagged: false, .. } => b"posted",
        Answer::Posted { lagged: true, .. } => b"lagged",
        Answer::Opened { .. } => b"opened",
        Answer::Took(Some(_)) => b"took",
        Answer::Took(None) => b"none",
        Answer::Met(_) => b"met",
        Answer::Closed(_) => b"closed",
        Answer::Halted => b"halted",
        Answer::NotNow => b"not now",
    }
}

/// Appends the line of an answer.
fn push_answer(text: &mut Vec<u8>, answer: &Result<Answer, Fault>) -> Result<(), Fault> {
    match answer {
        Ok(answer) => text.extend_from_slice(kind(answer))?,
        Err(fault) => {
            text.extend_from_slice(b"no ")?;
            text.extend_from_slice(fault.name())?;
        }
    }
    text.push(b'\n')?;
    Ok(())
}

/// Whether the schedule is answered as it should be.
fn is_told(alloc: Global) -> Result<bool, Fault> {
    let mut floor = Floor::new(alloc, 1);
    let mut text = Vec::new(alloc);
    for answer in &floor.run(schedule(alloc)?)? {
        push_answer(&mut text, answer)?;
    }
    Ok(text.as_slice() == TOLD)
}

#[test]
fn a_schedule_is_answered_in_order(rt: HostRuntime) -> Result<(), Fail> {
    assert!(rt; is_told(rt.alloc())?);
    Ok(())
}

/// How many of this many watchers begin on a floor, and why the next one does not.
fn begun(alloc: Global, watchers: usize) -> Result<(usize, Option<Fault>), Fault> {
    let mut floor = Floor::new(alloc, 1);
    for count in 0..watchers {
        match floor.step(Event::Open(Scope::All)) {
            Ok(_) => {}
            Err(Fault::NoMemory) => return Err(Fault::NoMemory),
            Err(fault) => return Ok((count, Some(fault))),
        }
    }
    Ok((watchers, None))
}

#[test]
fn sixty_four_watchers_begin_at_most(rt: HostRuntime) -> Result<(), Fail> {
    assert!(rt; begun(rt.alloc(), 64)? == (64, None));
    assert!(rt; begun(rt.alloc(), 65)? == (64, Some(Fault::TooManyWatchers)));
    Ok(())
}
