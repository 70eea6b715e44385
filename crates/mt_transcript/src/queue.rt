//! What the arguments of a transcript say.
ghost use Rattle.std.specs.Prelude.{◌≡◌, map};
ghost use Rattle.mt_transcript.specs.Lines.{line_viewed};
ghost use Rattle.mt_transcript.specs.Queue.{if_within, queue_of, queue_said, queue_in, IsQueue};

use crate::lines::{LineKind, TranscriptLine};
use mt_lines::words::number;

/// The most posts of a queue.
const MOST_POSTS: u64 = 16_384;

/// The number of posts, if a queue may hold so many.
fn within(posts: u64) -> Option<u64>
    ensures exact { result ≡ if_within posts }
    ensures bound { IsQueue result }
{
    if 0 < posts && posts <= MOST_POSTS {
        Some(posts)
    } else {
        None
    }
}

/// How many posts the queue of a watcher holds, if the arguments of a line say it.
pub fn queue_of(line: &[u8]) -> Option<u64>
    ensures exact { result ≡ queue_of line.now }
    ensures bound { IsQueue result }
{
    within(number(line.strip_prefix(b"$ --queue ")?)?)
}

/// How many posts the queue of a watcher holds, if a line has arguments that say it.
fn queue_said(line: TranscriptLine<'_>) -> Option<u64>
    ensures exact { result ≡ queue_said (line_viewed line.entry) }
    ensures bound { IsQueue result }
{
    if line.kind == LineKind::Arguments {
        queue_of(line.text)
    } else {
        None
    }
}

/// How many posts the queue of a watcher holds, if the lines of a transcript say it: from 1 to 16,384.
pub fn queue_in(lines: &[TranscriptLine<'_>]) -> Option<u64>
    ensures exact { result ≡ queue_in (map line_viewed lines.now) }
    ensures bound { IsQueue result }
{
    'lines: for line in lines {
        if let Some(posts) = queue_said(*line) {
            return Some(posts);
        }
    }
    None
}
