//! The room of a server: by what its limits of filesystems, directories, namespaces and mounts are multiplied.
ghost use Rattle.std.specs.Prelude.{◌<◌, ◌≤◌};

use crate::PROGRAM;
use crate::fault::Fault;
use crate::task::WordFault;
use mt_lines::words::number;
use mt_skel::skel::MOST_ROOM;
use std::alloc::{AllocFailed, Global};
use std::process::ExitCode;

/// The room of a server that is not told another one.
pub(crate) const FIRST_ROOM: usize = 1;

/// The most namespaces of a server whose room is 1.
const SPACES: usize = 64;

/// How many posts the queue of a watcher holds at least, if nothing is said of it.
const LEAST_QUEUE: usize = 256;

/// How many posts the queue of a watcher holds at most.
const MOST_QUEUE: usize = 16_384;

/// The option that says a room.
const OPTION: &str = "--room";

/// Words, and the room that was said among them.
#[derive(Drop)]
pub(crate) struct RoomedWords<'a> {
    /// The other words.
    pub(crate) words: Vec<&'a str>,
    /// The room, 1 to 256, if one was said.
    pub(crate) room: Option<usize>,
}

/// Why words say no room.
#[derive(Clone, Copy)]
pub(crate) enum RoomFault {
    /// No number from 1 to 256 stands behind the option, or it is there twice.
    Word,
    /// There is no memory for the words.
    NoMemory,
}

impl<T: Drop> From<AllocFailed<T>> for RoomFault {
    fn from(_error: AllocFailed<T>) -> RoomFault {
        RoomFault::NoMemory
    }
}

impl RoomFault {
    /// Says why, and answers the status.
    pub(crate) fn tell(self, rt: &HostRuntime) -> ExitCode {
        match self {
            RoomFault::Word => PROGRAM.refuse(rt, WordFault::Room.message()),
            RoomFault::NoMemory => PROGRAM.fail(rt, Fault::NoMemory.message()),
        }
    }
}

/// How many posts the queue of a watcher holds in a server of this room, if nothing is said of it: 256, or as many as there
/// may be namespaces, if that is more.
pub(crate) fn queue_in_room(room: usize) -> usize
    ensures { (0 < result) × (result ≤ 16384) }
{
    SPACES.saturating_mul(room).clamp(LEAST_QUEUE, MOST_QUEUE)
}

/// The room that a word is, 1 to 256.
fn room_named(word: &str) -> Option<usize> {
    let room = number(word.as_bytes())? as usize;
    if FIRST_ROOM <= room && room <= MOST_ROOM {
        Some(room)
    } else {
        None
    }
}

/// The words without `--room N`, and the room that it says, if it is there.
pub(crate) fn room_among<'a>(
    alloc: Global,
    words: &[&'a str],
) -> Result<RoomedWords<'a>, RoomFault> {
    let mut others = Vec::new(alloc);
    let mut room = None;
    let mut is_said = false;
    for word in words {
        if is_said {
            room = Some(room_named(word).ok_or(RoomFault::Word)?);
            is_said = false;
        } else if *word == OPTION {
            if room.is_some() {
                return Err(RoomFault::Word);
            }
            is_said = true;
        } else {
            others.push(*word)?;
        }
    }
    if is_said {
        return Err(RoomFault::Word);
    }
    Ok(RoomedWords {
        words: others,
        room,
    })
}
