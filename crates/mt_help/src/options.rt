//! What is wrong with an option of a `setattr` line, or with the attributes of a `mount` line.
ghost use Rattle.std.specs.Prelude.{◌≡◌, true, is_some, MatchOption};
ghost use Rattle.mt_requests.specs.Options.{set_words, clr_words};
ghost use Rattle.mt_help.specs.Reasons.{IsWrongSet, IsWrongClr, Judges};
ghost use Rattle.mt_protocol.specs.declared.argument.Argument.TheVariants.{Attributes, Setting};

use crate::reason::Reason;
use mt_lines::words::Pieces;
use mt_requests::options::{clr_words, kind_of, set_words};

/// What is wrong with the list of `set=`: its first word that cannot be set.
fn set_reason(list: &[u8]) -> Option<Reason<'_>>
    ensures { MatchOption result (is_some (set_words list.now) ≡ true) (λ reason. IsWrongSet list.now reason) }
{
    if set_words(list).is_some() {
        return None;
    }
    let mut words = Pieces::new(b',', list);
    'words: while let Some(word) = words.next() {
        if set_words(word).is_none() {
            return Some(Reason::SetWord { word });
        }
    }
    Some(Reason::SetWord { word: list })
}

/// What is wrong with the list of `clr=`: its first word that cannot be cleared.
fn clr_reason(list: &[u8]) -> Option<Reason<'_>>
    ensures { MatchOption result (is_some (clr_words list.now) ≡ true) (λ reason. IsWrongClr list.now reason) }
{
    if clr_words(list).is_some() {
        return None;
    }
    let mut words = Pieces::new(b',', list);
    'words: while let Some(word) = words.next() {
        if clr_words(word).is_none() {
            return Some(Reason::ClrWord { word });
        }
    }
    Some(Reason::ClrWord { word: list })
}

/// What is wrong with the attributes of a new mount.
pub(crate) fn attributes_reason(word: &[u8]) -> Option<Reason<'_>>
    ensures { Judges Attributes word.now result }
{
    match word.strip_prefix(b"set=") {
        Some(list) => set_reason(list),
        None => Some(Reason::NoAttributes { word }),
    }
}

/// What is wrong with an option, by itself.
pub(crate) fn option_reason(word: &[u8]) -> Option<Reason<'_>>
    ensures { Judges Setting word.now result }
{
    if word == b"rec".as_slice() {
        None
    } else if let Some(list) = word.strip_prefix(b"set=") {
        set_reason(list)
    } else if let Some(list) = word.strip_prefix(b"clr=") {
        clr_reason(list)
    } else if let Some(kind) = word.strip_prefix(b"prop=") {
        match kind_of(kind) {
            Some(_) => None,
            None => Some(Reason::Propagation { word: kind }),
        }
    } else {
        Some(Reason::NoOption { word })
    }
}
