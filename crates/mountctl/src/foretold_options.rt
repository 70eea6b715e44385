//! How `what-if` without a server is asked: the options in front of its lines.

use crate::room::{RoomFault, room_among};
use mt_render::telling::Telling;
use mt_skel::skel::MOST_ROOM;
use mt_what_if::foretelling::Manner;
use std::alloc::Global;

/// How a question is asked.
#[derive(Clone, Copy)]
pub(crate) struct Options {
    /// Whether it is told what each line changes.
    pub(crate) each: bool,
    /// Whether the answer is JSON.
    pub(crate) json: bool,
    /// Whether the answer is a page.
    pub(crate) page: bool,
    /// Whether a change in a namespace that no line names makes the status 4.
    pub(crate) fails: bool,
    /// To what room the world of the tables is held, 1 to 256.
    pub(crate) room: usize,
}

impl Options {
    /// How so many lines are answered: of one it is always told what it changes.
    pub(crate) fn manner(self, count: usize) -> Manner {
        Manner {
            telling: if self.json {
                Telling::Json
            } else {
                Telling::Words
            },
            each: self.each || count == 1,
        }
    }
}

/// The words in front of the lines, without options, and the options. Where no room is said, it is the greatest one.
pub(crate) fn options_of<'a>(
    alloc: Global,
    words: &[&'a str],
) -> Result<(Vec<&'a str>, Options), RoomFault> {
    let said = room_among(alloc, words)?;
    let mut others = Vec::new(alloc);
    let mut options = Options {
        each: false,
        json: false,
        page: false,
        fails: false,
        room: said.room.unwrap_or(MOST_ROOM),
    };
    for word in said.words.iter() {
        match *word {
            "--each" => options.each = true,
            "--json" => options.json = true,
            "--page" => options.page = true,
            "--fail-if-elsewhere" => options.fails = true,
            other => others.push(other)?,
        }
    }
    Ok((others, options))
}
