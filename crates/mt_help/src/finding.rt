//! Why a line is bad.
ghost use Rattle.std.specs.Prelude.{◌≡◌, true, false, drop, is_some, IfOk, MatchOption};
ghost use Rattle.std.specs.List.{list_any};
ghost use Rattle.std.specs.Option.{ForSome};
ghost use Rattle.mt_lines.specs.Words.{words};
ghost use Rattle.mt_requests.specs.Requests.{text_length, request_of};
ghost use Rattle.mt_protocol.specs.declared.argument.Argument.TheVariants as arguments;
ghost use Rattle.mt_help.specs.Reasons.{is_refused_as_bad, is_empty_word, are_right, IsWrongText, Judges, IsToldOf, IsSo};

use crate::nearest::nearest_to;
use crate::options::{attributes_reason, option_reason};
use crate::reason::Reason;
use crate::usage::usage_of;
use mt_lines::words::{Words, number, words};
use mt_protocol::argument::Argument;
use mt_protocol::form::first_word;
use mt_protocol::verb::Verb;
use mt_requests::arguments::are_counted;
use mt_requests::request::read_request;
use mt_skel::escape::unescaped_len;
use mt_skel::fault::Fault;
use std::alloc::{AllocError, Global};

/// Whether a word of a line is empty.
fn has_empty_word(line: &[u8]) -> bool
    ensures { result ≡ list_any is_empty_word (words line.now) }
{
    let mut words = words(line);
    'words: while let Some(word) = words.next() {
        if word.is_empty() {
            return true;
        }
    }
    false
}

/// The words of a line behind its first one.
fn behind_first(line: &[u8]) -> Words<'_>
    ensures { result ≡ drop 1 (words line.entry.now) }
{
    let mut words = words(line);
    let _first = words.next();
    words
}

/// What is wrong with a text: a zero byte, or a backslash that begins no escape.
fn text_reason(word: &[u8]) -> Option<Reason<'_>>
    requires full { is_empty_word word.now ≡ false }
    ensures { MatchOption result (is_some (text_length word.now) ≡ true) (λ reason. IsWrongText word.now reason) }
{
    if word.contains(&0) {
        Some(Reason::Zero { word })
    } else if unescaped_len(word).is_none() {
        Some(Reason::Escape { word })
    } else {
        None
    }
}

/// What is wrong with the number of a namespace.
fn number_reason(word: &[u8]) -> Option<Reason<'_>>
    ensures { Judges arguments.Space word.now result }
{
    match number(word) {
        Some(_) => None,
        None => Some(Reason::Number { word }),
    }
}

/// What is wrong with the number of a namespace, for which `all` may stand.
fn scope_reason(word: &[u8]) -> Option<Reason<'_>>
    ensures { Judges arguments.Scope word.now result }
{
    if word == b"all".as_slice() {
        return None;
    }
    match number(word) {
        Some(_) => None,
        None => Some(Reason::Scope { word }),
    }
}

/// What is wrong with a count of posts, of at most so many.
fn count_reason(word: &[u8], most: u64) -> Option<Reason<'_>>
    ensures { Judges (arguments.Count most) word.now result }
{
    match number(word) {
        Some(count) if 0 < count && count <= most => None,
        _ => Some(Reason::Range { word, most }),
    }
}

/// What is wrong with a word that stands for `less`.
fn less_reason(word: &[u8]) -> Option<Reason<'_>>
    ensures { Judges arguments.Less word.now result }
{
    if word == b"less".as_slice() {
        None
    } else {
        Some(Reason::Less { word })
    }
}

/// What is wrong with a word that stands for `lock`.
fn lock_reason(word: &[u8]) -> Option<Reason<'_>>
    ensures { Judges arguments.Lock word.now result }
{
    if word == b"lock".as_slice() {
        None
    } else {
        Some(Reason::Lock { word })
    }
}

/// What is wrong with a word that stands for `rec`.
fn recursive_reason(word: &[u8]) -> Option<Reason<'_>>
    ensures { Judges arguments.Recursive word.now result }
{
    if word == b"rec".as_slice() {
        None
    } else {
        Some(Reason::Recursive { word })
    }
}

/// What is wrong with a word as an argument.
#[tactic(auto, using(crate::proofs::ReasonLaws::label_fine, crate::proofs::ReasonLaws::path_fine))]
fn word_reason(argument: Argument, word: &[u8]) -> Option<Reason<'_>>
    requires full { is_empty_word word.now ≡ false }
    ensures { Judges argument word.now result }
{
    match argument {
        Argument::Space => number_reason(word),
        Argument::Scope => scope_reason(word),
        Argument::Count(most) => count_reason(word, most),
        Argument::Label | Argument::Path => text_reason(word),
        Argument::Less => less_reason(word),
        Argument::Lock => lock_reason(word),
        Argument::Recursive => recursive_reason(word),
        Argument::Attributes => attributes_reason(word),
        Argument::Setting => option_reason(word),
    }
}

/// What is wrong with the first word that is not right as its argument.
fn words_reason<'a>(arguments: &'static [Argument], words: Words<'a>) -> Option<Reason<'a>>
    requires full { list_any is_empty_word words ≡ false }
    ensures { MatchOption result (are_right arguments.now words.entry ≡ true) (λ reason. IsToldOf reason arguments.now words.entry) }
{
    let mut arguments = arguments;
    let mut words = words;
    'words: while let Some(word) = words.next() {
        let Some((argument, later)) = arguments.split_first() else {
            return None;
        };
        let reason = word_reason(*argument, word);
        if reason.is_some() {
            return reason;
        }
        arguments = later;
    }
    None
}

/// What is wrong with a line that is bad.
fn reason_in(alloc: Global, line: &[u8]) -> Result<Reason<'_>, AllocError>
    requires bad { is_refused_as_bad (request_of line.now) ≡ true }
    ensures { IfOk result (λ reason. IsSo line.now reason) }
{
    if line.is_empty() {
        return Ok(Reason::Empty);
    }
    if has_empty_word(line) {
        return Ok(Reason::EmptyWord);
    }
    let word = first_word(line);
    let Some(verb) = Verb::of(word) else {
        let nearest = nearest_to(alloc, word)?;
        return Ok(Reason::Unknown { word, nearest });
    };
    let arguments = verb.arguments();
    if !are_counted(arguments, behind_first(line)) {
        return Ok(Reason::Count {
            usage: usage_of(verb),
        });
    }
    match words_reason(arguments, behind_first(line)) {
        Some(reason) => Ok(reason),
        None => Ok(Reason::Twice),
    }
}

/// What is wrong with a line, where it is refused as `BadLine`. Fails for want of memory alone.
///
/// Where several things are wrong, an empty word is told first, then a first word that no line begins with, then how many
/// words there are, and then the first word that is not right as its argument.
pub fn reason_of(alloc: Global, line: &[u8]) -> Result<Option<Reason<'_>>, AllocError>
    ensures told { IfOk result (λ reason. is_some reason ≡ is_refused_as_bad (request_of line.now)) }
    ensures so { IfOk result (λ reason. ForSome reason (IsSo line.now)) }
{
    match read_request(alloc, line) {
        Err(Fault::BadLine) => Ok(Some(reason_in(alloc, line)?)),
        Err(Fault::NoMemory) => Err(AllocError),
        _ => Ok(None),
    }
}
