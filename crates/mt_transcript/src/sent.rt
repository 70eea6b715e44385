//! What an input line of a transcript sends.
ghost use Rattle.std.specs.Prelude.{◌≡◌, Some, IfOk};
ghost use Rattle.std.specs.Option.{option_map};
ghost use Rattle.mt_transcript.specs.Sent.{unless_empty, behind_mark, times_said, times, repeated_words, repeated_piece, both_texts, repeated_pieces, repeated, bytes_sent, ends_input};

use crate::lines::line_with_end;
use mt_lines::words::{Pieces, Words, number, words};
use std::alloc::{AllocError, Global};

/// How often a word is repeated at most.
const MOST_TIMES: u64 = 65_536;

/// A text, if it is not empty.
fn unless_empty(text: &[u8]) -> Option<&[u8]>
    ensures { option_map (λ x. x.now) result ≡ unless_empty text.entry.now }
{
    match text {
        [] => None,
        [_first, ..] => Some(text),
    }
}

/// The text behind a mark, if a line begins with it, and something stands there.
fn behind_mark<'a>(mark: &[u8], line: &'a [u8]) -> Option<&'a [u8]>
    ensures { option_map (λ x. x.now) result ≡ behind_mark mark.now line.entry.now }
{
    unless_empty(line.strip_prefix(mark)?)
}

/// How often a word is to be repeated, if these digits say it.
fn times_said(digits: &[u8]) -> Option<u64>
    ensures { result ≡ times_said digits.now }
{
    let count = number(digits)?;
    if 0 < count && count <= MOST_TIMES {
        Some(count)
    } else {
        None
    }
}

/// A word, so many times.
fn times(alloc: Global, count: u64, word: &[u8]) -> Result<Vec<u8>, AllocError>
    ensures { IfOk result (λ text. text.items ≡ times count word.now) }
{
    let mut text = Vec::new(alloc);
    'times: for _time in 0..count {
        text.extend_from_slice(word)?;
    }
    Ok(text)
}

/// What the words between braces stand for: a count, and a word that is not empty.
fn repeated_words(alloc: Global, inner: &mut Words<'_>) -> Result<Option<Vec<u8>>, AllocError>
    ensures { IfOk result (λ text. option_map (λ x. x.items) text ≡ repeated_words inner.old) }
{
    let (Some(digits), Some(word), None) = (inner.next(), inner.next(), inner.next()) else {
        return Ok(None);
    };
    match (times_said(digits), unless_empty(word)) {
        (Some(count), Some(word)) => Ok(Some(times(alloc, count, word)?)),
        _ => Ok(None),
    }
}

/// What a piece behind an opening brace stands for: what stands in front of its only closing brace, repeated, and what stands
/// behind that.
fn repeated_piece(alloc: Global, piece: &[u8]) -> Result<Option<Vec<u8>>, AllocError>
    ensures { IfOk result (λ text. option_map (λ x. x.items) text ≡ repeated_piece piece.now) }
{
    let mut parts = Pieces::new(b'}', piece);
    let (Some(inner), Some(rest), None) = (parts.next(), parts.next(), parts.next()) else {
        return Ok(None);
    };
    let Some(mut text) = repeated_words(alloc, &mut words(inner))? else {
        return Ok(None);
    };
    text.extend_from_slice(rest)?;
    Ok(Some(text))
}

/// What pieces stand for, each behind an opening brace.
fn repeated_pieces(
    alloc: Global,
    pieces: &mut Pieces<'_>,
    front: &[u8],
) -> Result<Option<Vec<u8>>, AllocError>
    ensures { IfOk result (λ text. option_map (λ x. x.items) text ≡ both_texts (Some front.now) (repeated_pieces pieces.old)) }
{
    let mut text = Vec::from_slice(alloc, front)?;
    'pieces: while let Some(piece) = pieces.next() {
        let Some(more) = repeated_piece(alloc, piece)? else {
            return Ok(None);
        };
        text.extend_from_slice(&more)?;
    }
    Ok(Some(text))
}

/// A text in which `{N WORD}` stands for a word that is written so many times, up to 65,536. None where it stands nowhere, or where
/// another brace does.
fn repeated(alloc: Global, text: &[u8]) -> Result<Option<Vec<u8>>, AllocError>
    ensures { IfOk result (λ all. option_map (λ x. x.items) all ≡ repeated text.now) }
{
    let mut pieces = Pieces::new(b'{', text);
    let Some(front) = pieces.next() else {
        return Ok(None);
    };
    if front.contains(&b'}') || pieces.peek().is_none() {
        return Ok(None);
    }
    repeated_pieces(alloc, &mut pieces, front)
}

/// What an input line sends, if it is one: `> TEXT` the text and a line end, `>` alone a line end; `>. TEXT` the text without one;
/// `>* TEXT` and `>*. TEXT` the same of a text in which `{N WORD}` stands for the word, written N times, up to 65,536. Fails for
/// want of memory alone.
#[tactic(auto, unfolding(crate::specs::Sent::bytes_sent))]
pub fn bytes_sent(alloc: Global, line: &[u8]) -> Result<Option<Vec<u8>>, AllocError>
    ensures { IfOk result (λ sent. option_map (λ x. x.items) sent ≡ bytes_sent line.now) }
{
    if line == b">".as_slice() {
        return Ok(Some(line_with_end(alloc, b"")?));
    }
    if let Some(text) = behind_mark(b"> ", line) {
        return Ok(Some(line_with_end(alloc, text)?));
    }
    if let Some(text) = behind_mark(b">. ", line) {
        return Ok(Some(Vec::from_slice(alloc, text)?));
    }
    if let Some(text) = behind_mark(b">* ", line) {
        return match repeated(alloc, text)? {
            Some(text) => Ok(Some(line_with_end(alloc, &text)?)),
            None => Ok(None),
        };
    }
    match behind_mark(b">*. ", line) {
        Some(text) => repeated(alloc, text),
        None => Ok(None),
    }
}

/// Whether an input line sends no line end, so that the input ends behind it.
pub fn ends_input(line: &[u8]) -> bool
    ensures { result ≡ ends_input line.now }
{
    behind_mark(b">. ", line).is_some() || behind_mark(b">*. ", line).is_some()
}
