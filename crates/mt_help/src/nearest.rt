//! The word that was meant: a verb, a refusal, an error of Linux, or one of others.

use mt_protocol::errno::ERRNOS;
use mt_protocol::refusal::REFUSALS;
use mt_protocol::verb::VERBS;
use std::alloc::{AllocError, Global};
use strsim::generic_levenshtein;

/// The most letters that are put in, left out or exchanged.
const MOST_EDITS: usize = 2;

/// The most letters of a word that is asked for.
const MOST_LETTERS: usize = 16;

/// A word that may be meant, and how many edits lead to it.
#[derive(Clone, Copy)]
struct Near {
    meant: &'static [u8],
    edits: usize,
}

/// A word that may be meant, if few edits lead to it.
fn near_to(alloc: Global, meant: &'static [u8], word: &[u8]) -> Result<Option<Near>, AllocError> {
    let edits = generic_levenshtein(alloc, word, meant)?;
    if edits > MOST_EDITS || edits >= word.len() {
        return Ok(None);
    }
    Ok(Some(Near { meant, edits }))
}

/// The nearer one of two; the first where both are as near.
fn nearer(first: Option<Near>, second: Option<Near>) -> Option<Near> {
    match (first, second) {
        (Some(one), Some(other)) if other.edits < one.edits => second,
        (Some(_), _) => first,
        (None, _) => second,
    }
}

/// The verb that is nearest to a word, if one is near: at most two letters are put in, left out or exchanged.
pub(crate) fn nearest_to(alloc: Global, word: &[u8]) -> Result<Option<&'static [u8]>, AllocError> {
    if word.len() > MOST_LETTERS {
        return Ok(None);
    }
    let mut nearest = None;
    for verb in &VERBS {
        nearest = nearer(nearest, near_to(alloc, verb.word(), word)?);
    }
    Ok(nearest.map(|near| near.meant))
}

/// The refusal whose name is nearest to a word, if one is near.
fn nearest_refusal(alloc: Global, word: &[u8]) -> Result<Option<Near>, AllocError> {
    let mut nearest = None;
    for refusal in REFUSALS {
        nearest = nearer(nearest, near_to(alloc, refusal.name(), word)?);
    }
    Ok(nearest)
}

/// The error of Linux whose name is nearest to a word, if one is near.
fn nearest_errno(alloc: Global, word: &[u8]) -> Result<Option<Near>, AllocError> {
    let mut nearest = None;
    for errno in ERRNOS {
        nearest = nearer(nearest, near_to(alloc, errno.name().as_bytes(), word)?);
    }
    Ok(nearest)
}

/// The name of a refusal or of an error of Linux that is nearest to a word, if one is near: at most two letters are put in,
/// left out or exchanged.
pub fn nearest_explained(alloc: Global, word: &[u8]) -> Result<Option<&'static [u8]>, AllocError> {
    if word.len() > MOST_LETTERS {
        return Ok(None);
    }
    let refusal = nearest_refusal(alloc, word)?;
    let nearest = nearer(refusal, nearest_errno(alloc, word)?);
    Ok(nearest.map(|near| near.meant))
}

/// The one of these words that is nearest to a word, if one is near: at most two letters are put in, left out or exchanged. Of those
/// that are as near it is the first. Fails for want of memory alone.
pub fn nearest_word(
    alloc: Global,
    words: &[&'static [u8]],
    word: &[u8],
) -> Result<Option<&'static [u8]>, AllocError> {
    if word.len() > MOST_LETTERS {
        return Ok(None);
    }
    let mut nearest = None;
    for meant in words {
        nearest = nearer(nearest, near_to(alloc, *meant, word)?);
    }
    Ok(nearest.map(|near| near.meant))
}
