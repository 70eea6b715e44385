//! The words behind `trace`.

use crate::task::WordFault;
use mt_lines::words::number;
use mt_trace::process_spaces::SpaceKind;
use mt_trace::told_path::{ToldPath, told_path};
use std::alloc::{AllocError, AllocFailed, Global};

/// How a trace is told, and what is known besides it.
#[derive(Drop)]
pub(crate) struct TraceWords<'a> {
    /// What names the tables: files, `--pid` and processes, or `--all`.
    pub(crate) tables: Vec<&'a str>,
    /// The file of the trace, or `-` for standard input.
    pub(crate) log: &'a str,
    /// Whether lines of a session are printed.
    pub(crate) script: bool,
    /// Whether objects are printed.
    pub(crate) json: bool,
    /// Whether a page is printed, which plays the lines of that session.
    pub(crate) page: bool,
    /// Whether only calls are told that change another namespace.
    pub(crate) leaks: bool,
    /// Whether the tables are printed behind the last call.
    pub(crate) ends: bool,
    /// The numbers of namespaces, each with what the system calls it.
    pub(crate) known: Vec<(u64, u64)>,
    /// The file of symbolic links, if one is named.
    pub(crate) links: Option<&'a str>,
}

/// Why the words are not those of a trace.
#[derive(Clone, Copy)]
pub(crate) enum TraceLack {
    /// They have another form.
    Words,
    /// A namespace is not given as `2=mnt:[4026532205]`.
    Namespace,
    /// Several forms of an answer are asked for.
    Forms,
    /// There is no memory for them.
    NoMemory,
}

impl TraceLack {
    /// What is said on standard error.
    pub(crate) fn message(self) -> &'static str {
        match self {
            TraceLack::Words => WordFault::Trace.message(),
            TraceLack::Namespace => "a namespace is given as --ns 2=mnt:[4026532205]",
            TraceLack::Forms => "trace prints --script, --json or --page",
            TraceLack::NoMemory => "out of memory",
        }
    }
}

impl From<AllocError> for TraceLack {
    fn from(_error: AllocError) -> TraceLack {
        TraceLack::NoMemory
    }
}

impl<T: Drop> From<AllocFailed<T>> for TraceLack {
    fn from(_error: AllocFailed<T>) -> TraceLack {
        TraceLack::NoMemory
    }
}

/// The namespace of a word, and what the system calls it: `2=mnt:[4026532205]`.
fn known_in(word: &str) -> Option<(u64, u64)> {
    let (space, told) = word.split_once('=')?;
    let space = number(space.as_bytes())?;
    match told_path(told.as_bytes()) {
        ToldPath::Space(SpaceKind::Mount, told) => Some((space, told)),
        _ => None,
    }
}

/// No words yet of a trace in this file.
fn begun(alloc: Global, log: &str) -> TraceWords<'_> {
    TraceWords {
        tables: Vec::new(alloc),
        log,
        script: false,
        json: false,
        page: false,
        leaks: false,
        ends: false,
        known: Vec::new(alloc),
        links: None,
    }
}

/// Takes one word in front of the trace. The word before it may be an option that has it as its value.
fn take_word<'a>(
    words: &mut TraceWords<'a>,
    option: Option<&'a str>,
    word: &'a str,
) -> Result<Option<&'a str>, TraceLack> {
    match option {
        Some("--ns") => {
            let Some(known) = known_in(word) else {
                return Err(TraceLack::Namespace);
            };
            words.known.push(known)?;
            return Ok(None);
        }
        Some(_links) => {
            words.links = Some(word);
            return Ok(None);
        }
        None => {}
    }
    match word {
        "--script" => words.script = true,
        "--json" => words.json = true,
        "--page" => words.page = true,
        "--leaks" => words.leaks = true,
        "--tables" => words.ends = true,
        "--ns" | "--links" => return Ok(Some(word)),
        table => words.tables.push(table)?,
    }
    Ok(None)
}

/// What words ask for: those in front of `--`, and the file behind it.
pub(crate) fn words_in<'a>(
    alloc: Global,
    front: &[&'a str],
    log: &'a str,
) -> Result<TraceWords<'a>, TraceLack> {
    let mut words = begun(alloc, log);
    let mut option = None;
    for word in front {
        option = take_word(&mut words, option, word)?;
    }
    if option.is_some() || words.tables.is_empty() {
        return Err(TraceLack::Words);
    }
    if (words.script && words.json) || (words.page && (words.script || words.json)) {
        return Err(TraceLack::Forms);
    }
    Ok(words)
}
