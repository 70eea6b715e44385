//! Lines, and what they ask for.
ghost use Rattle.std.specs.Prelude.{◌≡◌, Ok};
ghost use Rattle.mt_forms.specs.Lines.{may_name, are_space_and_path, are_attributes, are_mount_words, is_own_line, asked_without, asked_with, asked_by, by_beginning, over_space, asked_in, without_command, entered_from, by_first, behind_sudo, asked_of};

use crate::command::{Beginning, Tool, beginning_of};
use crate::given::{Given, nothing_given};
use crate::operation::{Asked, Operation};
use crate::operations::operation_by;
use crate::reading::given_of;
use crate::slip::Slip;
use crate::word::{Word, base_name, is_rooted};
use mt_lines::words::Words;

/// Whether a word may name a namespace or a filesystem in a line of a session: it is neither a path nor an option.
fn may_name(word: &[u8]) -> bool
    ensures { result ≡ may_name word.now }
{
    !is_rooted(word) && !word.starts_with(b"-")
}

/// Whether words are a namespace and a path.
fn are_space_and_path(words: Words<'_>) -> bool
    ensures { result ≡ are_space_and_path words.entry }
{
    let mut words = words;
    let (Some(space), Some(path), None) = (words.next(), words.next(), words.next()) else {
        return false;
    };
    may_name(space) && is_rooted(path)
}

/// Whether there are no words, or one with the attributes of a new mount.
fn are_attributes(words: Words<'_>) -> bool
    ensures { result ≡ are_attributes words.entry }
{
    let mut words = words;
    match (words.next(), words.next()) {
        (None, _) => true,
        (Some(word), None) => word.starts_with(b"set="),
        (Some(_), Some(_)) => false,
    }
}

/// Whether words are a namespace, a filesystem and a path, with attributes behind them or not.
fn are_mount_words(words: Words<'_>) -> bool
    ensures { result ≡ are_mount_words words.entry }
{
    let mut words = words;
    let (Some(space), Some(fs), Some(path)) = (words.next(), words.next(), words.next()) else {
        return false;
    };
    may_name(space) && may_name(fs) && is_rooted(path) && are_attributes(words)
}

/// Whether a line of a program is one of a session, which begins with the same word.
fn is_own_line(tool: Tool, words: Words<'_>) -> bool
    ensures { result ≡ is_own_line tool words.entry }
{
    match tool {
        Tool::Mount => are_mount_words(words),
        Tool::Umount => are_space_and_path(words),
        Tool::Unshare | Tool::Nsenter | Tool::PivotRoot => false,
    }
}

/// A form that is asked for, with nothing else.
fn asked_without<'a>(operation: Operation<'a>) -> Asked<'a>
    ensures { result ≡ asked_without operation.entry }
{
    Asked {
        space: None,
        operation,
        foreign: None,
        has_more_foreign: false,
        is_forced: false,
        has_command: false,
    }
}

/// What is wrong with what is given, the first thing. Where nothing is, it is that no line comes.
fn slip_of<'a>(given: Given<'a>) -> Slip<'a>
    ensures { result ≡ without_command given.entry }
{
    let mut given = given;
    given.slip.take().unwrap_or(Slip::NoLine)
}

/// A form that is asked for, with what else is given.
fn asked_with<'a>(given: Given<'a>, operation: Operation<'a>) -> Asked<'a>
    ensures { Ok result ≡ asked_with given.entry (Ok operation.entry) }
{
    Asked {
        space: given.space,
        operation,
        foreign: given.foreign,
        has_more_foreign: given.has_more_foreign,
        is_forced: given.is_forced,
        has_command: given.has_command,
    }
}

/// What a line of a program asks for, by what its words give.
fn asked_by<'a>(tool: Tool, given: Given<'a>) -> Result<Asked<'a>, Slip<'a>>
    ensures { result ≡ asked_by tool given.entry }
{
    if given.slip.is_some() {
        return Err(slip_of(given));
    }
    if given.waiting.is_some() {
        return Err(Slip::NoValue { tool });
    }
    match operation_by(tool, &given) {
        Ok(operation) => Ok(asked_with(given, operation)),
        Err(slip) => Err(slip),
    }
}

/// What a line asks for that has a first word and others, and what it is.
fn asked_by_beginning<'a>(
    beginning: Option<Beginning>,
    first: &'a [u8],
    words: Words<'a>,
) -> Result<Asked<'a>, Slip<'a>>
    ensures { result ≡ by_beginning beginning first.entry.now words.entry }
{
    let verb = Word::new(first);
    match beginning {
        Some(Beginning::Runs(tool)) => {
            if is_own_line(tool, words.again()) {
                return Ok(asked_without(Operation::Line { verb, words }));
            }
            asked_by(tool, given_of(tool, words))
        }
        Some(Beginning::Mkdir) => {
            if are_space_and_path(words.again()) {
                return Ok(asked_without(Operation::Line { verb, words }));
            }
            Ok(asked_without(Operation::Mkdir))
        }
        Some(Beginning::Line) => Ok(asked_without(Operation::Line { verb, words })),
        Some(Beginning::NoChange) => Err(Slip::NoChange { word: verb }),
        None => Err(Slip::Unknown { word: verb }),
    }
}

/// What is asked for, in a namespace. One that is named there itself counts.
fn over_space<'a>(
    space: Word<'a>,
    asked: Result<Asked<'a>, Slip<'a>>,
) -> Result<Asked<'a>, Slip<'a>>
    ensures { result ≡ over_space space.entry asked.entry }
{
    match asked {
        Ok(asked) => {
            if asked.space.is_some() {
                return Ok(asked);
            }
            Ok(Asked {
                space: Some(space),
                ..asked
            })
        }
        Err(slip) => Err(slip),
    }
}

/// What a command of nsenter(1) asks for, in the namespace that its options name. A namespace that the command itself
/// names counts.
fn asked_in_space<'a>(
    given: Given<'a>,
    command: &'a [u8],
    words: Words<'a>,
) -> Result<Asked<'a>, Slip<'a>>
    ensures { result ≡ asked_in given.entry command.entry.now words.entry }
{
    if given.slip.is_some() {
        return Err(slip_of(given));
    }
    if !given.has_mounts {
        return Err(Slip::NoMounts {
            tool: Tool::Nsenter,
        });
    }
    let Some(space) = given.space else {
        return Err(Slip::NoProcess);
    };
    let beginning = beginning_of(base_name(command));
    over_space(space, asked_by_beginning(beginning, command, words))
}

/// What the words after nsenter(1) ask for, those after what was read.
fn asked_entered<'a>(given: Given<'a>, words: Words<'a>) -> Result<Asked<'a>, Slip<'a>>
    ensures { result ≡ entered_from given.entry words.entry }
{
    let mut given = given;
    let mut words = words;
    'words: while let Some(word) = words.next() {
        if given.begins_command(word) {
            return asked_in_space(given, word, words);
        }
        given = given.with_word(Tool::Nsenter, word);
    }
    Err(slip_of(given))
}

/// What a line asks for that has a first word and others.
#[tactic(auto, unfolding(crate::specs::Lines::by_first))]
fn asked_by_first<'a>(first: &'a [u8], words: Words<'a>) -> Result<Asked<'a>, Slip<'a>>
    ensures { result ≡ by_first first.entry.now words.entry }
{
    match beginning_of(base_name(first)) {
        Some(Beginning::Runs(Tool::Nsenter)) => asked_entered(nothing_given(), words),
        beginning => asked_by_beginning(beginning, first, words),
    }
}

/// What a line after `sudo` asks for.
fn asked_behind_sudo<'a>(words: Words<'a>) -> Result<Asked<'a>, Slip<'a>>
    ensures { result ≡ behind_sudo words.entry }
{
    let mut words = words;
    match words.next() {
        Some(command) => asked_by_first(command, words),
        None => Err(Slip::Empty),
    }
}

/// What a line asks for, or what is wrong with it. `sudo` before the line is taken away. Takes no memory.
///
/// The first word is the name of a program, with or without directories before it, or begins a line of a session, which
/// stays as it is. Of several things that are wrong the first is told. Nothing is looked up: a target may be there or not.
pub fn read_line<'a>(words: Words<'a>) -> Result<Asked<'a>, Slip<'a>>
    ensures { result ≡ asked_of words.entry }
{
    let mut words = words;
    let Some(first) = words.next() else {
        return Err(Slip::Empty);
    };
    if first.is_empty() {
        return Err(Slip::Empty);
    }
    if base_name(first) == b"sudo".as_slice() {
        return asked_behind_sudo(words);
    }
    asked_by_first(first, words)
}
