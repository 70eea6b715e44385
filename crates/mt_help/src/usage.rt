//! The usage of each line, as the help has it.

use mt_protocol::verb::Verb;

/// What stands in a text in front of a piece of it, or all where it has no such piece.
fn front_of<'a>(text: &'a [u8], piece: &[u8]) -> &'a [u8] {
    for place in 0..text.len() {
        let (front, rest) = text.split_at(place);
        if rest.starts_with(piece) {
            return front;
        }
    }
    text
}

/// The usage of the lines with a verb. Two have a comma between them, and the first is told.
pub(crate) fn usage_of(verb: Verb) -> &'static [u8] {
    front_of(verb.row().usage.as_bytes(), b", ")
}
