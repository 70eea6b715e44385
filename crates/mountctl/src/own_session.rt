//! A session of the program's own: with a new server in its memory, and no connection.
ghost use Rattle.std.specs.Prelude.{◌≡◌, ◌<◌, ◌≤◌, [], IfOk};
ghost use Rattle.std.specs.Option.{is_none};
ghost use Rattle.mountctl.specs.Played.{IsServedAlone};

use crate::fault::Fault;
use crate::kept::Kept;
use crate::room::FIRST_ROOM;
use mt_book::command::Command;
use mt_floor::floor::Floor;
use mt_lines::line::{LineReader, ReadFault};
use mt_lines::stream::Reading;
use mt_session::answering::serve_next;
use mt_session::serving::{End, LINE_LIMIT, serve_plain};
use mt_session::session::Session;
use std::alloc::Global;

/// The floor of a new server of this room, 1 to 256. The queue of each watcher holds this many posts, 1 to 16,384. Refused
/// as `NoMemory` alone.
pub(crate) fn new_floor(alloc: Global, queue: usize, room: usize) -> Result<Floor, Fault>
    requires { (0 < queue) × (queue ≤ 16384) }
    ensures idle { IfOk result (λ floor. floor.due ≡ []) }
{
    let mut floor = Floor::new(alloc, queue);
    if room != FIRST_ROOM && floor.apply(&Command::Room { room }).is_err() {
        return Err(Fault::NoMemory);
    }
    floor.settle();
    Ok(floor)
}

/// What came of a line that was sent.
#[derive(Drop)]
pub(crate) struct Answered {
    /// The answer.
    pub(crate) answer: Vec<u8>,
    /// Whether the session goes on.
    pub(crate) goes_on: bool,
}

/// Whether there was no memory where a session ended so.
fn lacks_memory(end: End) -> bool {
    matches!(
        end,
        End::Cut(_) | End::Read(ReadFault::NoMemory) | End::Memory
    )
}

/// Whether a session goes on after a line that brought this end, if it brought one. Refused as `NoMemory` alone.
fn goes_on_after(end: Option<End>) -> Result<bool, Fault>
    ensures { IfOk result (λ goes_on. goes_on ≡ is_none end) }
{
    let Some(end) = end else {
        return Ok(true);
    };
    if lacks_memory(end) {
        return Err(Fault::NoMemory);
    }
    Ok(false)
}

/// Sends a session one line: its answer, and whether the session goes on.
pub(crate) fn answer_sent(
    alloc: Global,
    floor: &mut Floor,
    session: &mut Session,
    sent: &[u8],
) -> Result<Answered, Fault>
    requires idle { floor.old.due ≡ [] }
    ensures answered { IfOk result (λ answered. IsServedAlone sent.now (floor.old, session.old) answered.answer.items answered.goes_on (floor.new, session.new)) }
    ensures idle { floor.new.due ≡ [] }
{
    let mut input = LineReader::new(alloc, Reading::new(sent), LINE_LIMIT)?;
    let mut answer = Kept::new(alloc);
    let end = serve_next(floor, session, &mut input, &mut answer);
    let goes_on = goes_on_after(end)?;
    Ok(Answered {
        answer: answer.into_text(),
        goes_on,
    })
}

/// The answers to requests, each a line, that another session at the same server sends, which ends with them.
pub(crate) fn answers_to(alloc: Global, floor: &mut Floor, requests: &[u8]) -> Result<Kept, Fault>
    ensures idle { floor.new.due ≡ [] }
{
    floor.settle();
    let mut input = LineReader::new(alloc, Reading::new(requests), LINE_LIMIT)?;
    let mut answers = Kept::new(alloc);
    if lacks_memory(serve_plain(alloc, &mut input, &mut answers, floor)) {
        return Err(Fault::NoMemory);
    }
    Ok(answers)
}
