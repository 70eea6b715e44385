//! What is told of a line that is tried.
ghost use Rattle.std.specs.Prelude.{◌≡◌, ◌++◌, ◌∷◌, codes, OnOk};
ghost use Rattle.std.specs.List.{flat_map};
ghost use Rattle.mt_lines.specs.Words.{pieces};
ghost use Rattle.mt_skel.specs.Fault.{name_of};
ghost use Rattle.mt_what_if.specs.LinesTold.{asked_words, there_line, taken_line, taken_piece, line_front, first_reason_line, later_reason_line, later_reason, reason_lines, refused_in_words, refused_as_object, refusal_told, outcome_text, is_told_in_words, is_told, tried_text};

use crate::json::{push_asked_object, push_reason_object, push_taken_object};
use crate::trying::Outcome;
use mt_info::print::push_number;
use mt_lines::words::{Pieces, Words};
use mt_render::stamp::refusal_line;
use mt_render::telling::Telling;
use mt_render::wording::push_shown;
use mt_skel::fault::Fault;
use std::alloc::AllocError;

/// What is told of a line besides its changes.
#[derive(Clone, Copy)]
pub(crate) struct Tried<'a> {
    /// In words, or as JSON.
    pub(crate) telling: Telling,
    /// Its number among the lines, from 1.
    pub(crate) number: u64,
    /// Its words, with a zero byte between two.
    pub(crate) words: &'a [u8],
    /// What is taken to be there for it, a line each.
    pub(crate) taken: &'a [u8],
    /// What comes of it.
    pub(crate) outcome: Outcome,
    /// What it changes.
    pub(crate) changes: &'a [u8],
    /// The lines that say why it is refused, if it is and they are known.
    pub(crate) reason: &'a [u8],
}

/// Appends words, each after a space.
fn push_later_words(line: &mut Vec<u8>, words: Words<'_>) -> Result<(), AllocError>
    ensures { OnOk result (line.new.items ≡ line.old.items ++ flat_map (λ word. 32 ∷ word) words.entry) }
{
    let mut words = words;
    'words: while let Some(word) = words.next() {
        line.push(b' ')?;
        line.extend_from_slice(word)?;
    }
    Ok(())
}

/// Appends words that have a zero byte between two, with spaces between them.
pub(crate) fn push_words(line: &mut Vec<u8>, words: &[u8]) -> Result<(), AllocError>
    ensures { OnOk result (line.new.items ≡ line.old.items ++ asked_words words.now) }
{
    let mut words = Pieces::new(0, words);
    if let Some(first) = words.next() {
        line.extend_from_slice(first)?;
    }
    push_later_words(line, words)
}

/// Appends a line of a thing that is taken to be there.
fn push_taken_line(text: &mut Vec<u8>, taken: &[u8]) -> Result<(), AllocError>
    ensures { OnOk result (text.new.items ≡ text.old.items ++ there_line taken.now) }
{
    text.extend_from_slice(b"    taken to be there: ")?;
    push_shown(text, taken)?;
    Ok(())
}

/// Appends a thing that is taken to be there, if it is one.
fn push_taken(text: &mut Vec<u8>, taken: &[u8]) -> Result<(), AllocError>
    ensures { OnOk result (text.new.items ≡ text.old.items ++ taken_line taken.now) }
{
    match taken {
        [] => Ok(()),
        [_first, ..] => push_taken_line(text, taken),
    }
}

/// Appends what is taken to be there, a line each.
fn push_all_taken(text: &mut Vec<u8>, taken: &[u8]) -> Result<(), AllocError>
    ensures { OnOk result (text.new.items ≡ text.old.items ++ flat_map taken_line (pieces 10 taken.now)) }
{
    let mut lines = Pieces::new(b'\n', taken);
    'lines: while let Some(line) = lines.next() {
        push_taken(text, line)?;
    }
    Ok(())
}

/// Appends the object of a thing that is taken to be there, if it is one.
fn push_taken_piece(text: &mut Vec<u8>, taken: &[u8]) -> Result<(), AllocError>
    ensures { OnOk result (text.new.items ≡ text.old.items ++ taken_piece taken.now) }
{
    match taken {
        [] => Ok(()),
        [_first, ..] => push_taken_object(text, taken),
    }
}

/// Appends what is taken to be there, an object each.
fn push_taken_objects(text: &mut Vec<u8>, taken: &[u8]) -> Result<(), AllocError>
    ensures { OnOk result (text.new.items ≡ text.old.items ++ flat_map taken_piece (pieces 10 taken.now)) }
{
    let mut lines = Pieces::new(b'\n', taken);
    'lines: while let Some(line) = lines.next() {
        push_taken_piece(text, line)?;
    }
    Ok(())
}

/// Appends what is told of a line in front of its changes, in words.
#[tactic(auto, unfolding(crate::specs::LinesTold::line_front))]
fn push_in_words(text: &mut Vec<u8>, tried: Tried<'_>) -> Result<(), AllocError>
    ensures { OnOk result (text.new.items ≡ text.old.items ++ line_front Telling.Words tried.entry.number tried.entry.words.now tried.entry.taken.now) }
{
    let mut line = Vec::new(*text.allocator());
    push_number(&mut line, tried.number)?;
    line.extend_from_slice(b" ")?;
    push_words(&mut line, tried.words)?;
    push_shown(text, &line)?;
    push_all_taken(text, tried.taken)
}

/// Appends what is told of a line in front of its changes, as JSON.
#[tactic(auto, unfolding(crate::specs::LinesTold::line_front))]
fn push_as_objects(text: &mut Vec<u8>, tried: Tried<'_>) -> Result<(), AllocError>
    ensures { OnOk result (text.new.items ≡ text.old.items ++ line_front Telling.Json tried.entry.number tried.entry.words.now tried.entry.taken.now) }
{
    let mut line = Vec::new(*text.allocator());
    push_words(&mut line, tried.words)?;
    push_asked_object(text, tried.number, &line)?;
    push_taken_objects(text, tried.taken)
}

/// Appends what is told of a line in front of its changes.
fn push_front(text: &mut Vec<u8>, tried: Tried<'_>) -> Result<(), AllocError>
    ensures { OnOk result (text.new.items ≡ text.old.items ++ line_front tried.entry.telling tried.entry.number tried.entry.words.now tried.entry.taken.now) }
{
    match tried.telling {
        Telling::Words => push_in_words(text, tried),
        Telling::Json => push_as_objects(text, tried),
    }
}

/// Appends the first line that says why a line is refused.
#[tactic(auto, unfolding(crate::specs::LinesTold::first_reason_line))]
fn push_first_reason(text: &mut Vec<u8>, reason: &[u8]) -> Result<(), AllocError>
    ensures { OnOk result (text.new.items ≡ text.old.items ++ first_reason_line reason.now) }
{
    let mut line = Vec::new(*text.allocator());
    line.extend_from_slice(b"  no ")?;
    line.extend_from_slice(reason)?;
    push_shown(text, &line)
}

/// Appends one of the lines behind it.
#[tactic(auto, unfolding(crate::specs::LinesTold::later_reason_line))]
fn push_later_line(text: &mut Vec<u8>, reason: &[u8]) -> Result<(), AllocError>
    ensures { OnOk result (text.new.items ≡ text.old.items ++ later_reason_line reason.now) }
{
    let mut line = Vec::new(*text.allocator());
    line.extend_from_slice(b"  ")?;
    line.extend_from_slice(reason)?;
    push_shown(text, &line)
}

/// The same, unless it is the end behind the last line.
fn push_later_reason(text: &mut Vec<u8>, reason: &[u8]) -> Result<(), AllocError>
    ensures { OnOk result (text.new.items ≡ text.old.items ++ later_reason reason.now) }
{
    match reason {
        [] => Ok(()),
        [_first, ..] => push_later_line(text, reason),
    }
}

/// Appends the lines behind the first one.
fn push_later_reasons(text: &mut Vec<u8>, lines: Pieces<'_>) -> Result<(), AllocError>
    ensures { OnOk result (text.new.items ≡ text.old.items ++ flat_map later_reason lines.entry) }
{
    let mut lines = lines;
    'lines: while let Some(line) = lines.next() {
        push_later_reason(text, line)?;
    }
    Ok(())
}

/// Appends the lines that say why a line is refused.
fn push_reason(text: &mut Vec<u8>, reason: &[u8]) -> Result<(), AllocError>
    ensures { OnOk result (text.new.items ≡ text.old.items ++ reason_lines (pieces 10 reason.now)) }
{
    let mut lines = Pieces::new(b'\n', reason);
    if let Some(first) = lines.next() {
        push_first_reason(text, first)?;
    }
    push_later_reasons(text, lines)
}

/// Appends the name of a refusal.
fn push_refusal(text: &mut Vec<u8>, fault: Fault) -> Result<(), AllocError>
    ensures { OnOk result (text.new.items ≡ text.old.items ++ (codes "  no " ++ name_of fault ++ codes "\n")) }
{
    text.extend_from_slice(b"  no ")?;
    text.extend_from_slice(fault.name())?;
    text.extend_from_slice(b"\n")
}

/// Appends why a line is refused, in words.
fn push_refused_words(text: &mut Vec<u8>, fault: Fault, reason: &[u8]) -> Result<(), AllocError>
    ensures { OnOk result (text.new.items ≡ text.old.items ++ refused_in_words fault reason.now) }
{
    match reason {
        [] => push_refusal(text, fault),
        [_first, ..] => push_reason(text, reason),
    }
}

/// Appends why a line is refused, as an object.
fn push_refused_object(text: &mut Vec<u8>, fault: Fault, reason: &[u8]) -> Result<(), AllocError>
    ensures { OnOk result (text.new.items ≡ text.old.items ++ refused_as_object fault reason.now) }
{
    match reason {
        [] => {
            let alloc = *text.allocator();
            text.extend_from_slice(&refusal_line(alloc, fault.name())?)
        }
        [_first, ..] => push_reason_object(text, fault.name(), reason),
    }
}

/// Appends why a line is refused.
fn push_refused(
    text: &mut Vec<u8>,
    telling: Telling,
    fault: Fault,
    reason: &[u8],
) -> Result<(), AllocError>
    ensures { OnOk result (text.new.items ≡ text.old.items ++ refusal_told telling fault reason.now) }
{
    match telling {
        Telling::Words => push_refused_words(text, fault, reason),
        Telling::Json => push_refused_object(text, fault, reason),
    }
}

/// Appends what comes of a line, if it is refused.
fn push_outcome(
    text: &mut Vec<u8>,
    telling: Telling,
    outcome: Outcome,
    reason: &[u8],
) -> Result<(), AllocError>
    ensures { OnOk result (text.new.items ≡ text.old.items ++ outcome_text telling outcome reason.now) }
{
    match outcome {
        Outcome::Done => Ok(()),
        Outcome::Refused(fault) => push_refused(text, telling, fault, reason),
    }
}

/// Whether there is something to tell of a line in words.
fn is_told_in_words(taken: &[u8], changes: &[u8], outcome: Outcome) -> bool
    ensures { result ≡ is_told_in_words taken.now changes.now outcome }
{
    match outcome {
        Outcome::Refused(_fault) => true,
        Outcome::Done => !(taken.is_empty() && changes.is_empty()),
    }
}

/// Whether something is told of a line.
fn is_told(telling: Telling, taken: &[u8], changes: &[u8], outcome: Outcome) -> bool
    ensures { result ≡ is_told telling taken.now changes.now outcome }
{
    match telling {
        Telling::Json => true,
        Telling::Words => is_told_in_words(taken, changes, outcome),
    }
}

/// Appends what is told of a line: the line, what is taken to be there for it, its changes, and why it is refused. Of a line of which
/// there is nothing to tell, nothing is told in words.
#[tactic(auto, unfolding(crate::specs::LinesTold::tried_text))]
pub(crate) fn push_tried(text: &mut Vec<u8>, tried: Tried<'_>) -> Result<(), AllocError>
    ensures { OnOk result (text.new.items ≡ text.old.items ++ tried_text tried.entry.telling tried.entry.number tried.entry.words.now tried.entry.taken.now tried.entry.outcome tried.entry.changes.now tried.entry.reason.now) }
{
    if !is_told(tried.telling, tried.taken, tried.changes, tried.outcome) {
        return Ok(());
    }
    push_front(text, tried)?;
    text.extend_from_slice(tried.changes)?;
    push_outcome(text, tried.telling, tried.outcome, tried.reason)
}
