//! The page of each line of a session.
ghost use Rattle.std.specs.Prelude.{◌≡◌, IfOk};
ghost use Rattle.mt_help.specs.Lines.{answer_said, note_of, IsVerbPage};

use crate::page::{Usage, page_text};
use crate::refusals::said_by;
use mt_protocol::form::Form;
use mt_protocol::verb::Verb;
use std::alloc::{AllocError, Global};

/// What a line is answered that is not refused, in words.
pub fn answer_said(form: Form) -> &'static str
    ensures { result.now ≡ answer_said form }
{
    match form {
        Form::Done => "ok",
        Form::Number => "ok, and the number of what is made",
        Form::Place => "ok, the number of the mount, and the directory of its filesystem",
        Form::Table => "ok, the count of the rows and the number of the last change, and the rows",
        Form::Locks => "ok and a count of mounts, and of each its ID and what is locked of it",
        Form::Opening =>
            "ok and a count of lines, and as many: of each namespace a heading and its rows",
        Form::Posts => "ok and a count of posts, and their lines",
        Form::Commands => "ok and a count of commands, and the line of each",
        Form::Followed =>
            "the lines of posts as they come, and then ok and how many posts they are",
        Form::Never => "",
    }
}

/// What else a line with a verb may be refused as.
pub fn note_of(verb: Verb) -> &'static str
    ensures { result.now ≡ note_of verb }
{
    match verb {
        Verb::Quit | Verb::Stop => "A line of a wrong form is refused as BadLine or TooLong.",
        _ if verb.is_command() => {
            "A line of a wrong form is refused as BadLine, TooLong or BadPath, and any command may be as JournalFull, Stopped or NoMemory."
        }
        _ => {
            "A line of a wrong form is refused as BadLine, TooLong or BadPath, and any may be as NoMemory."
        }
    }
}

/// The page of the lines with a verb, where they are written in these ways. Fails for want of memory alone.
pub fn verb_page(alloc: Global, verb: Verb, usages: &[Usage]) -> Result<Vec<u8>, AllocError>
    ensures { IfOk result (λ text. IsVerbPage verb usages.now text.items) }
{
    let said = said_by(alloc, verb.refusals())?;
    page_text(
        alloc,
        usages,
        answer_said(verb.form()),
        verb.example(),
        said.as_slice(),
        note_of(verb),
    )
}
