//! The lines of the script, made of their words.
ghost use Rattle.std.specs.Prelude.{◌≡◌, ◌∷◌, ◌++◌, map, take, decimal, IfOk, OnOk};
ghost use Rattle.std.specs.List.{flat_map, join_with_byte};
ghost use Rattle.mt_import.specs.Script.{line_text, command_line, command_text, comment_text, table_comment, group_comment};

use crate::host_mount::HostMount;
use crate::script::Script;
use itoa::Buffer;
use std::alloc::{AllocError, AllocFailed, Global};

/// How many bytes of a row a comment tells.
const MOST_TOLD: usize = 8_000;

/// What a call answers that can fail only for want of memory.
pub(crate) type Allocated<T> = Result<T, AllocError>;

/// The same for a call that makes nothing.
pub(crate) type Done = Allocated<()>;

/// The same for one that makes a text.
pub(crate) type Text = Allocated<Vec<u8>>;

/// Why a part of a script is not made.
#[derive(Clone, Copy)]
pub(crate) enum Unmade {
    NoMemory,
    /// A line that should be a command is not one that the server reads, or what is planned is not what the tables
    /// tell.
    Refused,
}

impl From<AllocError> for Unmade {
    fn from(_error: AllocError) -> Unmade {
        Unmade::NoMemory
    }
}

impl<T: Drop> From<AllocFailed<T>> for Unmade {
    fn from(_error: AllocFailed<T>) -> Unmade {
        Unmade::NoMemory
    }
}

/// What a call that makes a part of a script answers.
pub(crate) type Written = Result<(), Unmade>;

/// Texts, one after the other.
pub(crate) fn joined(alloc: Global, texts: &[&[u8]]) -> Text
    ensures { IfOk result (λ all. all.items ≡ flat_map (λ text. text.now) texts.now) }
{
    let mut all = Vec::new(alloc);
    'texts: for text in texts {
        all.extend_from_slice(text)?;
    }
    Ok(all)
}

/// A text, and one after it.
pub(crate) fn one_behind(alloc: Global, first: &[u8], second: &[u8]) -> Text
    ensures { IfOk result (λ all. all.items ≡ first.now ++ second.now) }
{
    let mut all = Vec::from_slice(alloc, first)?;
    all.extend_from_slice(second)?;
    Ok(all)
}

/// A number in decimal digits.
pub(crate) fn digits_of(alloc: Global, number: u64) -> Text
    ensures { IfOk result (λ digits. digits.items ≡ decimal number) }
{
    let mut buffer = Buffer::new();
    Vec::from_slice(alloc, buffer.format(number).as_bytes())
}

/// Appends words, each preceded by a space.
fn push_words(line: &mut Vec<u8>, words: &[&[u8]]) -> Done
    ensures { OnOk result (line.new.items ≡ line.old.items ++ flat_map (λ word. 32 ∷ word.now) words.now) }
{
    'words: for word in words {
        line.extend_from_slice(b" ")?;
        line.extend_from_slice(word)?;
    }
    Ok(())
}

/// Words between single spaces.
pub(crate) fn spaced(alloc: Global, words: &[&[u8]]) -> Text
    ensures { IfOk result (λ line. line.items ≡ join_with_byte 32 (map (λ word. word.now) words.now)) }
{
    let mut line = Vec::new(alloc);
    let Some((first, others)) = words.split_first() else {
        return Ok(line);
    };
    line.extend_from_slice(first)?;
    push_words(&mut line, others)?;
    Ok(line)
}

/// Appends a line that should be a command, and is refused unless the server reads it as one.
#[tactic(auto, unfolding(crate::specs::Script::line_text, crate::specs::Script::command_line))]
pub(crate) fn push_command(script: &mut Script, line: &[u8]) -> Written
    ensures { OnOk result (script.new ≡ script.old ++ command_line line.now) }
{
    if !script.push(line)? {
        return Err(Unmade::Refused);
    }
    Ok(())
}

/// Appends the command of these words.
#[tactic(auto, unfolding(crate::specs::Script::command_text))]
pub(crate) fn command(script: &mut Script, words: &[&[u8]]) -> Written
    ensures { OnOk result (script.new ≡ script.old ++ command_text (map (λ word. word.now) words.now)) }
{
    let line = spaced(script.alloc(), words)?;
    push_command(script, line.as_slice())
}

/// The first bytes of a text, this many at most.
fn first_bytes(text: &[u8], most: usize) -> &[u8]
    ensures { result.now ≡ take most text.now }
{
    if text.len() <= most {
        text
    } else {
        &text[..most]
    }
}

/// Appends a comment of these texts.
pub(crate) fn comment(script: &mut Script, texts: &[&[u8]]) -> Done
    ensures { OnOk result (script.new ≡ script.old ++ line_text (flat_map (λ text. text.now) texts.now)) }
{
    let line = joined(script.alloc(), texts)?;
    let _said = script.push(line.as_slice())?;
    Ok(())
}

/// Appends a comment on a table, of two texts.
#[tactic(auto, unfolding(crate::specs::Script::table_comment))]
pub(crate) fn table_comment(script: &mut Script, table: usize, text: &[u8], last: &[u8]) -> Done
    ensures { OnOk result (script.new ≡ script.old ++ table_comment table text.now last.now) }
{
    let table = digits_of(script.alloc(), table as u64)?;
    comment(script, &[b"# table ", table.as_slice(), text, last])
}

/// Tells which group of the server stands for which one of the tables.
#[tactic(auto, unfolding(crate::specs::Script::group_comment))]
pub(crate) fn group_comment(script: &mut Script, there: u64, here: u64) -> Done
    ensures { OnOk result (script.new ≡ script.old ++ group_comment there here) }
{
    let there = digits_of(script.alloc(), there)?;
    let here = digits_of(script.alloc(), here)?;
    let (there, here) = (there.as_slice(), here.as_slice());
    comment(
        script,
        &[b"# shared:", there, b" of the tables is shared:", here],
    )?;
    Ok(())
}

/// Appends a comment on a mount of a table, with its row, of which as much is told as a line that is sent may hold.
#[tactic(auto, unfolding(crate::specs::Script::comment_text))]
pub(crate) fn note(script: &mut Script, table: usize, row: &HostMount, text: &[u8]) -> Done
    ensures { OnOk result (script.new ≡ script.old ++ comment_text table row.now text.now) }
{
    let number = digits_of(script.alloc(), row.id)?;
    let told = first_bytes(row.line.as_slice(), MOST_TOLD);
    let last = joined(
        script.alloc(),
        &[number.as_slice(), b" ", text, b": ", told],
    )?;
    table_comment(script, table, b": mount ", last.as_slice())
}
