//! Answers as a transcript tells them, and what is told where another one comes.
ghost use Rattle.std.specs.Prelude.{◌≡◌, ◌++◌, map, IfOk, OnOk};
ghost use Rattle.mt_transcript.specs.Lines.{line_viewed};
ghost use Rattle.mt_transcript.specs.Told.{answer_told, other_line, other_answer, other_text, told_beside, played_text, alike_text};

use crate::lines::{LineKind, TranscriptLine, line_with_end, push_line};
use itoa::Buffer;
use mt_lines::words::Pieces;
use std::alloc::{AllocError, Global};

/// The answer that the first of these lines tell: they stand below an input line. Fails for want of memory alone.
pub fn answer_told(alloc: Global, lines: &[TranscriptLine<'_>]) -> Result<Vec<u8>, AllocError>
    ensures { IfOk result (λ text. text.items ≡ answer_told (map line_viewed lines.now)) }
{
    let mut text = Vec::new(alloc);
    'lines: for line in lines {
        if line.kind != LineKind::Answer {
            return Ok(text);
        }
        push_line(&mut text, line.text)?;
    }
    Ok(text)
}

/// Appends a line of an answer that did not come, as a comment.
fn push_other(text: &mut Vec<u8>, line: &[u8]) -> Result<(), AllocError>
    ensures { OnOk result (text.new.items ≡ text.old.items ++ other_line line.now) }
{
    match line {
        [] => Ok(()),
        [_first, ..] => {
            text.extend_from_slice(b"# told: ")?;
            push_line(text, line)
        }
    }
}

/// The lines of an answer that did not come, as comments.
fn other_answer(alloc: Global, told: &[u8]) -> Result<Vec<u8>, AllocError>
    ensures { IfOk result (λ text. text.items ≡ other_answer told.now) }
{
    let mut text = Vec::new(alloc);
    let mut lines = Pieces::new(b'\n', told);
    'lines: while let Some(line) = lines.next() {
        push_other(&mut text, line)?;
    }
    Ok(text)
}

/// An answer that did not come, each line a comment, or that none is told.
fn other_text(alloc: Global, told: &[u8]) -> Result<Vec<u8>, AllocError>
    ensures { IfOk result (λ text. text.items ≡ other_text told.now) }
{
    match told {
        [] => Vec::from_slice(alloc, b"# told: no answer\n"),
        [_first, ..] => other_answer(alloc, told),
    }
}

/// What is told below an answer that came, where another one is told.
fn told_beside(alloc: Global, answer: &[u8], told: &[u8]) -> Result<Vec<u8>, AllocError>
    ensures { IfOk result (λ text. text.items ≡ told_beside answer.now told.now) }
{
    if answer == told {
        return Ok(Vec::new(alloc));
    }
    other_text(alloc, told)
}

/// What is printed of a line that is played: the line, the answer that came, and where another one is told, that one behind `# told: `.
/// Fails for want of memory alone.
pub fn played_text(
    alloc: Global,
    line: &[u8],
    answer: &[u8],
    told: &[u8],
) -> Result<Vec<u8>, AllocError>
    ensures { IfOk result (λ text. text.items ≡ played_text line.now answer.now told.now) }
{
    let beside = told_beside(alloc, answer, told)?;
    let mut text = line_with_end(alloc, line)?;
    text.extend_from_slice(answer)?;
    text.extend_from_slice(&beside)?;
    Ok(text)
}

/// How many lines of so many were answered as they are told, as a comment. Fails for want of memory alone.
pub fn alike_text(alloc: Global, alike: u64, count: u64) -> Result<Vec<u8>, AllocError>
    ensures { IfOk result (λ text. text.items ≡ alike_text alike count) }
{
    let mut text = Vec::from_slice(alloc, b"# as told: ")?;
    let mut buffer = Buffer::new();
    text.extend_from_slice(buffer.format(alike).as_bytes())?;
    text.extend_from_slice(b" of ")?;
    text.extend_from_slice(buffer.format(count).as_bytes())?;
    text.extend_from_slice(b" lines\n")?;
    Ok(text)
}
