//! The words behind the verb of a line, read by their arguments.
ghost use Rattle.std.specs.Prelude.{◌≡◌, drop, None};
ghost use Rattle.std.specs.List.{list_all};
ghost use Rattle.mt_protocol.specs.Verbs.{first_of, is_optional};
ghost use Rattle.mt_requests.specs.Requests.{prior_of_two, prior_fault, bad_unless, number_said, scope_of, scope_said, count_of, attributes_said, change_said, word_fault, word_faults, are_counted, words_fault, AreTexts};

use crate::label::label_fault;
use crate::options::{attributes_of, change_of, no_change};
use crate::path::path_fault;
use mt_events::opening::Scope;
use mt_lines::words::{Words, number};
use mt_protocol::argument::Argument;
use mt_setattr::change::{Change, SetWords};
use mt_skel::fault::Fault;

/// The fault of two words that is refused first.
fn prior_of_two(first: Option<Fault>, second: Option<Fault>) -> Option<Fault>
    ensures { result ≡ prior_of_two first second }
{
    match (first, second) {
        (Some(Fault::BadLine), _) => first,
        (_, Some(Fault::BadLine)) => second,
        (Some(Fault::TooLong), _) => first,
        (_, Some(Fault::TooLong)) => second,
        (Some(_), _) => first,
        (None, _) => second,
    }
}

/// A bad line, unless something is right.
fn bad_unless(right: bool) -> Option<Fault>
    ensures { result ≡ bad_unless right }
{
    if right { None } else { Some(Fault::BadLine) }
}

/// The number that a word says, where it is right as that of a namespace or as a count.
pub(crate) fn number_said(word: &[u8]) -> u64
    ensures { result ≡ number_said word.now }
{
    number(word).unwrap_or(0)
}

/// The namespaces that a word names: one by its number, or all by `all`.
fn scope_of(word: &[u8]) -> Option<Scope>
    ensures { result ≡ scope_of word.now }
{
    if word == b"all".as_slice() {
        return Some(Scope::All);
    }
    let space = number(word)?;
    Some(Scope::One(space))
}

/// The namespaces that a word names, where it is right as a scope.
pub(crate) fn scope_said(word: &[u8]) -> Scope
    ensures { result ≡ scope_said word.now }
{
    scope_of(word).unwrap_or(Scope::All)
}

/// How many posts a word asks for, of at most so many and at least one.
fn count_of(word: &[u8], most: u64) -> Option<u64>
    ensures { result ≡ count_of most word.now }
{
    let count = number(word)?;
    if 0 < count && count <= most {
        Some(count)
    } else {
        None
    }
}

/// The attributes of a new mount that a word says, where it is right as such.
pub(crate) fn attributes_said(word: &[u8]) -> SetWords
    ensures { result ≡ attributes_said word.now }
{
    attributes_of(word).unwrap_or(SetWords::new())
}

/// The change that words say, where they are right as the options of a `setattr` line.
pub(crate) fn change_said(options: &Words<'_>) -> Change
    ensures { result ≡ change_said options.now }
{
    change_of(options).unwrap_or(no_change())
}

/// Why a word cannot stand as an argument, if it cannot. Takes no memory. Options have no fault of their own: they are read
/// together.
pub fn word_fault(argument: Argument, word: &[u8]) -> Option<Fault>
    ensures { result ≡ word_fault argument word.now }
{
    match argument {
        Argument::Space => bad_unless(number(word).is_some()),
        Argument::Scope => bad_unless(scope_of(word).is_some()),
        Argument::Count(most) => bad_unless(count_of(word, most).is_some()),
        Argument::Label => label_fault(word),
        Argument::Path => path_fault(word),
        Argument::Less => bad_unless(word == b"less".as_slice()),
        Argument::Lock => bad_unless(word == b"lock".as_slice()),
        Argument::Recursive => bad_unless(word == b"rec".as_slice()),
        Argument::Attributes => bad_unless(attributes_of(word).is_some()),
        Argument::Setting => None,
    }
}

/// Whether all arguments may be left out.
fn are_optional(arguments: &[Argument]) -> bool
    ensures { result ≡ list_all is_optional arguments.now }
{
    arguments.iter().all(|argument| argument.is_optional())
}

/// Whether there is a word for each argument, but for those that may be left out, and none besides.
pub fn are_counted(arguments: &[Argument], words: Words<'_>) -> bool
    ensures { result ≡ are_counted arguments.now words.entry }
{
    let mut arguments = arguments;
    let mut words = words;
    'words: while let Some(_word) = words.next() {
        let Some((_argument, later)) = arguments.split_first() else {
            return false;
        };
        arguments = later;
    }
    are_optional(arguments)
}

/// The fault among those of words, each by its argument, that is refused first.
fn fault_among(arguments: &[Argument], words: Words<'_>) -> Option<Fault>
    ensures { result ≡ prior_fault (word_faults arguments.now words.entry) }
{
    let mut fault = None;
    let mut arguments = arguments;
    let mut words = words;
    'arguments: while let Some((argument, later)) = arguments.split_first() {
        if matches!(*argument, Argument::Setting) {
            return prior_of_two(fault, bad_unless(change_of(&words).is_some()));
        }
        let Some(word) = words.next() else {
            return fault;
        };
        fault = prior_of_two(fault, word_fault(*argument, word));
        arguments = later;
    }
    fault
}

/// Why the words behind a verb are refused, if they are. Takes no memory.
#[tactic(auto, using(crate::proofs::FaultLaws::fine_texts))]
pub(crate) fn words_fault(arguments: &[Argument], words: &Words<'_>) -> Option<Fault>
    ensures fault { result ≡ words_fault arguments.now words.now }
    ensures texts { result ≡ None → AreTexts arguments.now words.now }
{
    if !are_counted(arguments, words.again()) {
        return Some(Fault::BadLine);
    }
    fault_among(arguments, words.again())
}

/// Takes the first word, or an empty one where none is left.
pub(crate) fn next_word<'a>(words: &mut Words<'a>) -> &'a [u8]
    ensures word { result.now ≡ first_of words.old }
    ensures later { words.new ≡ drop 1 words.old }
{
    match words.next() {
        Some(word) => word,
        None => &[],
    }
}
