//! Lines, read before any of them is tried.
ghost use Rattle.std.specs.Prelude.{◌≡◌, ◌++◌, false, true, Some, IfOk, IfErr, OnOk, decimal};
ghost use Rattle.std.specs.List.{flat_map};
ghost use Rattle.mt_lines.specs.Words.{pieces};
ghost use Rattle.mt_forms.specs.Scripts.{behind_word};
ghost use Rattle.mt_what_if.specs.Trials.{last_space};
ghost use Rattle.mt_what_if.specs.Asked.{new_place, space_listed, table_number, table_named, space_named, session_space, first_space, is_space_argument, first_names_space, begins_with_space, words_numbered, session_text, is_slip, IsFormLine, IsPlaced, IsAsked, IsSlip};
ghost use Rattle.mt_what_if.specs.declared.asked.WrongLine.TheVariants.{NoMemory};

use crate::scene::Scene;
use crate::trial::last_space;
use mt_forms::line::read_line;
use mt_forms::operation::{Asked, Operation};
use mt_forms::script::session_lines;
use mt_forms::slip::Slip;
use mt_forms::word::Word;
use mt_info::print::push_number;
use mt_lines::words::{Pieces, Words, number};
use mt_mounts::mount::SpaceId;
use mt_protocol::argument::Argument;
use mt_protocol::verb::Verb;
use mt_requests::request::{Request, read_request};
use mt_skel::escape::push_escaped;
use mt_skel::fault::Fault;
use std::alloc::{AllocError, Global};
use std::marker::Model;

/// A line that is read.
#[derive(Drop)]
pub struct AskedLine<'a> {
    /// Its words, with a zero byte between two.
    pub words: &'a [u8],
    /// What it asks for.
    pub asked: Asked<'a>,
    /// The number of the namespace in which it asks for that.
    pub space: SpaceId,
    /// If it is one of a session: the line with the number of its namespace.
    pub own: Vec<u8>,
}

/// What is wrong with a line.
#[derive(Drop)]
pub enum WrongLine<'a> {
    /// It has a slip.
    Slip(Slip<'a>),
    /// No table is called so.
    NoSpace(Word<'a>),
    /// A word of it cannot stand where it stands, so that a line of a session that it is, or asks for, is refused as `BadLine`,
    /// `TooLong` or `BadPath`.
    Refused { line: Vec<u8>, fault: Fault },
    /// There is no memory for it.
    NoMemory,
}

impl<'a> From<AllocError> for WrongLine<'a> {
    ghost from_gives = { λ _ wrong. wrong ≡ NoMemory };

    fn from(_error: AllocError) -> WrongLine<'a> {
        WrongLine::NoMemory
    }
}

/// A word that names a namespace.
#[derive(Drop)]
pub struct SpaceWord {
    /// The word.
    pub word: Vec<u8>,
    /// The number of the namespace, or `None` where the word could name several.
    pub space: Option<SpaceId>,
}

impl Model for SpaceWord {
    ghost use Rattle.mt_what_if.specs.Asked.{SpaceWordView};

    ghost Value = { SpaceWordView };

    ghost view = { λ w. record { word = w.word.items; space = w.space } };
}

/// The place after `new:`, of a namespace that lines make.
fn new_place(word: &[u8]) -> Option<u64>
    ensures { result ≡ new_place word.now }
{
    number(word.strip_prefix(b"new:")?)
}

/// What the first of these words that is this one names.
fn space_listed(names: &[SpaceWord], word: &[u8]) -> Option<Option<SpaceId>>
    ensures { result ≡ space_listed names.now word.now }
{
    'names: for name in names {
        if name.word.as_slice() == word {
            return Some(name.space);
        }
    }
    None
}

/// The number of a table that a word is, of so many.
fn table_number(last: SpaceId, word: &[u8]) -> Option<SpaceId>
    ensures { result ≡ table_number last word.now }
{
    let space = number(word)?;
    if 0 < space && space <= last {
        Some(space)
    } else {
        None
    }
}

/// The namespace of a table that a word names: by one of these words, or by the number of the table.
fn table_named(names: &[SpaceWord], last: SpaceId, word: &[u8]) -> Option<SpaceId>
    ensures { result ≡ table_named names.now last word.now }
{
    match space_listed(names, word) {
        Some(space) => space,
        None => table_number(last, word),
    }
}

/// The namespace that a word names: `new:1`, `new:2` and so on are those that lines make, in their order.
fn space_named(names: &[SpaceWord], last: SpaceId, word: &[u8]) -> Option<SpaceId>
    ensures { result ≡ space_named names.now last word.now }
{
    match new_place(word) {
        Some(place) => last.checked_add(place),
        None => table_named(names, last, word),
    }
}

/// Whether an argument is a namespace.
fn is_space_argument(argument: Argument) -> bool
    ensures { result ≡ is_space_argument argument }
{
    matches!(argument, Argument::Space)
}

/// Whether arguments begin with a namespace.
fn first_names_space(arguments: &[Argument]) -> bool
    ensures { result ≡ first_names_space arguments.now }
{
    match arguments {
        [] => false,
        [first, ..] => is_space_argument(*first),
    }
}

/// Whether the first word after a verb names a namespace.
fn begins_with_space(verb: &[u8]) -> bool
    ensures { result ≡ begins_with_space verb.now }
{
    match Verb::of(verb) {
        Some(verb) => first_names_space(verb.arguments()),
        None => false,
    }
}

/// Appends words, each after a space and with its escapes.
fn push_words(line: &mut Vec<u8>, words: Words<'_>) -> Result<(), AllocError>
    ensures { OnOk result (line.new.items ≡ line.old.items ++ flat_map behind_word words.entry) }
{
    let mut words = words;
    'words: while let Some(word) = words.next() {
        line.push(b' ')?;
        push_escaped(line, word)?;
    }
    Ok(())
}

/// Appends the words after a verb, with the number of the namespace in the place of the first one where that names it.
fn push_own_words(
    line: &mut Vec<u8>,
    has_space: bool,
    words: Words<'_>,
    space: SpaceId,
) -> Result<(), AllocError>
    ensures { OnOk result (line.new.items ≡ line.old.items ++ words_numbered has_space words.entry space) }
{
    let mut words = words;
    if has_space && words.next().is_some() {
        line.push(b' ')?;
        push_number(line, space)?;
    }
    push_words(line, words)
}

/// A line of a session with the number of its namespace.
fn own_line(
    alloc: Global,
    verb: &[u8],
    words: Words<'_>,
    space: SpaceId,
) -> Result<Vec<u8>, AllocError>
    ensures { IfOk result (λ line. line.items ≡ session_text verb.now words.entry space) }
{
    let mut line = Vec::new(alloc);
    push_escaped(&mut line, verb)?;
    push_own_words(&mut line, begins_with_space(verb), words, space)?;
    Ok(line)
}

/// The namespace of a line of a session: the one that its first word names, or else this one.
fn session_space<'a>(
    names: &[SpaceWord],
    last: SpaceId,
    verb: &[u8],
    words: Words<'a>,
    space: SpaceId,
) -> Result<SpaceId, WrongLine<'a>>
    ensures space { IfOk result (λ found. session_space names.now last verb.now words.entry space ≡ Some found) }
    ensures no_slip { IfErr result (λ why. is_slip why ≡ false) }
{
    let mut words = words;
    if !begins_with_space(verb) {
        return Ok(space);
    }
    let Some(word) = words.next() else {
        return Ok(space);
    };
    match space_named(names, last, word) {
        Some(named) => Ok(named),
        None => Err(WrongLine::NoSpace(Word::new(word))),
    }
}

/// Why a line of a session is none that changes something, if it is not.
fn line_fault(alloc: Global, line: &[u8]) -> Option<Fault> {
    match read_request(alloc, line) {
        Ok(Request::Run(_command)) => None,
        Ok(_request) => Some(Fault::BadLine),
        Err(fault) => Some(fault),
    }
}

/// Refuses a line of a session that is none that changes something.
fn check_line<'a>(alloc: Global, line: &[u8]) -> Result<(), WrongLine<'a>>
    ensures no_slip { IfErr result (λ why. is_slip why ≡ false) }
{
    match line_fault(alloc, line) {
        None => Ok(()),
        Some(Fault::NoMemory) => Err(WrongLine::NoMemory),
        Some(fault) => Err(WrongLine::Refused {
            line: Vec::from_slice(alloc, line)?,
            fault,
        }),
    }
}

/// Refuses a form if one of the lines that it asks for is none that changes something, whatever the filesystem and the options are.
fn check_form<'a>(
    alloc: Global,
    operation: &Operation<'_>,
    space: SpaceId,
) -> Result<(), WrongLine<'a>>
    ensures no_slip { IfErr result (λ why. is_slip why ≡ false) }
{
    let script = session_lines(alloc, operation, &number_text(alloc, space)?, b"fs", b"")?;
    let mut lines = Pieces::new(b'\n', &script);
    'lines: while let Some(line) = lines.next() {
        if !line.is_empty() {
            check_line(alloc, line)?;
        }
    }
    Ok(())
}

/// The number of a namespace as text.
pub(crate) fn number_text(alloc: Global, space: SpaceId) -> Result<Vec<u8>, AllocError>
    ensures { IfOk result (λ text. text.items ≡ decimal space) }
{
    let mut text = Vec::new(alloc);
    push_number(&mut text, space)?;
    Ok(text)
}

/// A line that is read, and is none of a session.
fn form_line<'a>(
    alloc: Global,
    words: &'a [u8],
    asked: Asked<'a>,
    space: SpaceId,
) -> Result<AskedLine<'a>, WrongLine<'a>>
    ensures line { IfOk result (λ line. IsFormLine words.entry.now asked.entry space line) }
    ensures no_slip { IfErr result (λ why. is_slip why ≡ false) }
{
    check_form(alloc, &asked.operation, space)?;
    Ok(AskedLine {
        words,
        asked,
        space,
        own: Vec::new(alloc),
    })
}

/// The namespace that a line asks in: the one that it names, or else the first one.
fn space_of<'a>(
    names: &[SpaceWord],
    last: SpaceId,
    named: &Option<Word<'a>>,
) -> Result<SpaceId, WrongLine<'a>>
    ensures space { IfOk result (λ space. first_space names.now last named.now ≡ Some space) }
    ensures no_slip { IfErr result (λ why. is_slip why ≡ false) }
{
    let Some(word) = named else {
        return Ok(1);
    };
    match space_named(names, last, word.bytes()) {
        Some(space) => Ok(space),
        None => Err(WrongLine::NoSpace(Word::new(word.bytes()))),
    }
}

/// A line of a session, read as one: its namespace, and the line with the number of that.
fn session_line<'a>(
    alloc: Global,
    names: &[SpaceWord],
    last: SpaceId,
    verb: &[u8],
    words: Words<'a>,
    space: SpaceId,
) -> Result<(SpaceId, Vec<u8>), WrongLine<'a>>
    ensures space { IfOk result (λ (found, line). session_space names.now last verb.now words.entry space ≡ Some found) }
    ensures line { IfOk result (λ (found, line). line.items ≡ session_text verb.now words.entry found) }
    ensures no_slip { IfErr result (λ why. is_slip why ≡ false) }
{
    let found = session_space(names, last, verb, words.again(), space)?;
    let own = own_line(alloc, verb, words, found)?;
    check_line(alloc, &own)?;
    Ok((found, own))
}

/// A line that asks for this.
fn placed_line<'a>(
    alloc: Global,
    names: &[SpaceWord],
    last: SpaceId,
    words: &'a [u8],
    asked: Asked<'a>,
) -> Result<AskedLine<'a>, WrongLine<'a>>
    ensures line { IfOk result (λ line. IsPlaced names.now last words.entry.now asked.entry line) }
    ensures no_slip { IfErr result (λ why. is_slip why ≡ false) }
{
    let space = space_of(names, last, &asked.space)?;
    let Operation::Line { verb, words: rest } = &asked.operation else {
        return form_line(alloc, words, asked, space);
    };
    let (space, own) = session_line(alloc, names, last, verb.bytes(), rest.again(), space)?;
    Ok(AskedLine {
        words,
        asked,
        space,
        own,
    })
}

/// Reads a line, of which the words have a zero byte between two. Nothing is tried. Of the words that name namespaces the first one
/// that a word is counts; a word that is none of them may be the number of a table, or `new:` and a number, for a namespace that
/// lines make.
///
/// Refused with its slip, if it has one; as `NoSpace` where it names a namespace that is none; as `Refused` where a word of it cannot
/// stand where it stands; and as `NoMemory`.
pub fn read_asked<'a>(
    alloc: Global,
    names: &[SpaceWord],
    scene: &Scene,
    words: &'a [u8],
) -> Result<AskedLine<'a>, WrongLine<'a>>
    ensures asked { IfOk result (λ line. IsAsked names.now (last_space scene.now.trial.start) words.entry.now line) }
    ensures slip { IfErr result (λ why. is_slip why ≡ true → IsSlip (pieces 0 words.entry.now) why) }
{
    match read_line(Pieces::new(0, words)) {
        Ok(asked) => placed_line(alloc, names, last_space(scene.trial.start()), words, asked),
        Err(slip) => Err(WrongLine::Slip(slip)),
    }
}
