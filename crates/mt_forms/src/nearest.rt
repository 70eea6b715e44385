//! The word that was meant.

use crate::command::{BEGINNINGS, BeginningRow};
use crate::slip::Slip;
use crate::table::{OptionRow, options_of};
use std::alloc::{AllocError, Global};
use strsim::generic_levenshtein;

/// The most letters that are put in, left out or exchanged.
const MOST_EDITS: usize = 2;

/// The most letters of a word that is asked for.
const MOST_LETTERS: usize = 24;

/// The nearest word so far, and how many edits lead to it.
#[derive(Drop)]
struct Nearest<'a> {
    word: &'a [u8],
    edits: usize,
    meant: Option<&'static [u8]>,
}

impl<'a> Nearest<'a> {
    /// No word is near so far. A word is near if it takes at most two edits, and fewer than it has letters.
    fn new(word: &'a [u8]) -> Nearest<'a> {
        Nearest {
            word,
            edits: word.len().min(MOST_EDITS + 1),
            meant: None,
        }
    }

    /// Looks at one more word that may be meant.
    fn look(&mut self, alloc: Global, meant: &'static [u8]) -> Result<(), AllocError> {
        let edits = generic_levenshtein(alloc, self.word, meant)?;
        if edits < self.edits {
            self.edits = edits;
            self.meant = Some(meant);
        }
        Ok(())
    }
}

/// The first word of a line that is nearest to a word.
fn nearest_beginning(
    alloc: Global,
    word: &[u8],
    rows: &[BeginningRow],
) -> Result<Option<&'static [u8]>, AllocError> {
    let mut nearest = Nearest::new(word);
    for row in rows {
        nearest.look(alloc, row.0)?;
    }
    Ok(nearest.meant)
}

/// The name of an option that is nearest to a word.
fn nearest_option(
    alloc: Global,
    word: &[u8],
    rows: &[OptionRow],
) -> Result<Option<&'static [u8]>, AllocError> {
    let mut nearest = Nearest::new(word);
    for row in rows {
        nearest.look(alloc, row.1)?;
    }
    Ok(nearest.meant)
}

/// The word that was meant where a line begins with none that is known, or a program has no option of a name, if one is
/// near: at most two letters are put in, left out or exchanged. The name of an option is without its dashes. Fails for want
/// of memory alone.
pub fn meant_by(alloc: Global, slip: &Slip<'_>) -> Result<Option<&'static [u8]>, AllocError> {
    match slip {
        Slip::Unknown { word } if word.bytes().len() <= MOST_LETTERS => {
            nearest_beginning(alloc, word.bytes(), &BEGINNINGS)
        }
        Slip::NoOption { tool, word } if word.bytes().len() <= MOST_LETTERS => {
            let Some(name) = word.bytes().strip_prefix(b"--") else {
                return Ok(None);
            };
            nearest_option(alloc, name, options_of(*tool))
        }
        _ => Ok(None),
    }
}
