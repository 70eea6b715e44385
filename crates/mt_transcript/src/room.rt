//! Which room the arguments of a transcript say.
ghost use Rattle.std.specs.Prelude.{◌≡◌, map};
ghost use Rattle.mt_transcript.specs.Lines.{line_viewed};
ghost use Rattle.mt_transcript.specs.Room.{if_room, room_written, room_said, room_in, IsRoom};

use crate::lines::{LineKind, TranscriptLine};
use mt_lines::words::number;

/// The greatest room of a server.
const MOST_ROOM: u64 = 256;

/// A number, if it is that of a room.
fn if_room(room: u64) -> Option<u64>
    ensures exact { result ≡ if_room room }
    ensures bound { IsRoom result }
{
    if 0 < room && room <= MOST_ROOM {
        Some(room)
    } else {
        None
    }
}

/// The room of the server, if the arguments of a line say it.
pub fn room_written(line: &[u8]) -> Option<u64>
    ensures exact { result ≡ room_written line.now }
    ensures bound { IsRoom result }
{
    if_room(number(line.strip_prefix(b"$ --room ")?)?)
}

/// The room of the server, if a line has arguments that say it.
fn room_said(line: TranscriptLine<'_>) -> Option<u64>
    ensures exact { result ≡ room_said (line_viewed line.entry) }
    ensures bound { IsRoom result }
{
    if line.kind == LineKind::Arguments {
        room_written(line.text)
    } else {
        None
    }
}

/// The room of the server, if the lines of a transcript say it: from 1 to 256.
pub fn room_in(lines: &[TranscriptLine<'_>]) -> Option<u64>
    ensures exact { result ≡ room_in (map line_viewed lines.now) }
    ensures bound { IsRoom result }
{
    'lines: for line in lines {
        if let Some(room) = room_said(*line) {
            return Some(room);
        }
    }
    None
}
