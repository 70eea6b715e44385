//! The lines of requests.
ghost use Rattle.std.specs.Prelude.{◌≡◌, ◌++◌, ◌∷◌, map, IfOk, OnOk};
ghost use Rattle.std.specs.List.{flat_map};
ghost use Rattle.mt_skel.specs.Escapes.{escaped};
ghost use Rattle.mt_events.specs.Posts.{ended};
ghost use Rattle.mt_client.specs.Requests.{request_text, numbered_text};

use mt_info::print::push_number;
use mt_skel::escape::push_escaped;
use std::alloc::{AllocError, Global};

/// Appends a word with its escapes behind a space.
fn push_word(line: &mut Vec<u8>, word: &[u8]) -> Result<(), AllocError>
    ensures { OnOk result (line.new.items ≡ line.old.items ++ 32 ∷ escaped word.now) }
{
    line.push(b' ')?;
    push_escaped(line, word)?;
    Ok(())
}

/// Appends words with their escapes, each behind a space.
fn push_words(line: &mut Vec<u8>, words: &[&[u8]]) -> Result<(), AllocError>
    ensures { OnOk result (line.new.items ≡ line.old.items ++ flat_map (λ word. 32 ∷ escaped word.now) words.now) }
{
    'words: for word in words {
        push_word(line, word)?;
    }
    Ok(())
}

/// The line of a request, without its line end: its words, each with its escapes, between single spaces. Fails for
/// want of memory alone.
pub fn request_line(alloc: Global, words: &[&[u8]]) -> Result<Vec<u8>, AllocError>
    ensures { IfOk result (λ line. line.items ≡ request_text (map (λ word. word.now) words.now)) }
{
    let mut line = Vec::new(alloc);
    let Some((first, others)) = words.split_first() else {
        return Ok(line);
    };
    push_escaped(&mut line, first)?;
    push_words(&mut line, others)?;
    Ok(line)
}

/// The line of a request that is a word and a number, with its line end. Fails for want of memory alone.
pub(crate) fn numbered_line(
    alloc: Global,
    command: &[u8],
    number: u64,
) -> Result<Vec<u8>, AllocError>
    ensures { IfOk result (λ line. line.items ≡ ended (numbered_text command.now number)) }
{
    let mut line = Vec::new(alloc);
    line.extend_from_slice(command)?;
    line.extend_from_slice(b" ")?;
    push_number(&mut line, number)?;
    line.extend_from_slice(b"\n")?;
    Ok(line)
}

/// A line with its line end. Fails for want of memory alone.
pub(crate) fn ended_line(alloc: Global, line: &[u8]) -> Result<Vec<u8>, AllocError>
    ensures { IfOk result (λ text. text.items ≡ ended line.now) }
{
    let mut text = Vec::new(alloc);
    text.extend_from_slice(line)?;
    text.extend_from_slice(b"\n")?;
    Ok(text)
}
