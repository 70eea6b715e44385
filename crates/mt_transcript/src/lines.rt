//! The lines of a transcript.
ghost use Rattle.std.specs.Prelude.{◌≡◌, ◌++◌, map, OnOk, IfOk};
ghost use Rattle.mt_lines.specs.Words.{pieces};
ghost use Rattle.mt_transcript.specs.Lines.{kind_begun, line_kind, line_viewed, line_read, with_line_end};

use mt_lines::words::Pieces;
use std::alloc::{AllocError, Global};

/// What a line of a transcript is.
#[derive(Clone, Copy, PartialEq, Eq, Debug)]
pub enum LineKind {
    /// It is empty.
    Nothing,
    /// It begins with `#`, and is not sent.
    Comment,
    /// It begins with `$`, and has arguments of the program.
    Arguments,
    /// It begins with `>`, and is sent.
    Sent,
    /// A line of an answer.
    Answer,
}

/// A line of a transcript, and what it is.
#[derive(Clone, Copy)]
pub struct TranscriptLine<'a> {
    /// What it is.
    pub kind: LineKind,
    /// The line, without its line end.
    pub text: &'a [u8],
}

/// What a line is that begins with a byte.
fn kind_begun(byte: u8) -> LineKind
    ensures { result ≡ kind_begun byte }
{
    if byte == b'#' {
        LineKind::Comment
    } else if byte == b'$' {
        LineKind::Arguments
    } else if byte == b'>' {
        LineKind::Sent
    } else {
        LineKind::Answer
    }
}

/// What a line is.
pub fn line_kind(line: &[u8]) -> LineKind
    ensures { result ≡ line_kind line.now }
{
    match line {
        [] => LineKind::Nothing,
        [byte, ..] => kind_begun(*byte),
    }
}

/// The lines of a transcript, and behind them what stands behind the last line end: nothing, where the last line has one. Fails for
/// want of memory alone.
pub fn transcript_lines(alloc: Global, text: &[u8]) -> Result<Vec<TranscriptLine<'_>>, AllocError>
    ensures { IfOk result (λ lines. map line_viewed lines.items ≡ map line_read (pieces 10 text.entry.now)) }
{
    let mut lines = Vec::new(alloc);
    let mut pieces = Pieces::new(b'\n', text);
    'pieces: while let Some(text) = pieces.next() {
        lines.push(TranscriptLine {
            kind: line_kind(text),
            text,
        })?;
    }
    Ok(lines)
}

/// Appends a line and a line end.
pub(crate) fn push_line(text: &mut Vec<u8>, line: &[u8]) -> Result<(), AllocError>
    ensures { OnOk result (text.new.items ≡ text.old.items ++ with_line_end line.now) }
{
    text.extend_from_slice(line)?;
    text.push(b'\n')?;
    Ok(())
}

/// A line with a line end.
pub(crate) fn line_with_end(alloc: Global, line: &[u8]) -> Result<Vec<u8>, AllocError>
    ensures { IfOk result (λ text. text.items ≡ with_line_end line.now) }
{
    let mut text = Vec::new(alloc);
    push_line(&mut text, line)?;
    Ok(text)
}
