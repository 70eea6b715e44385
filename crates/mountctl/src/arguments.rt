//! What the arguments of a request to a server say.

use crate::client_words::{IN_PLACE_OF_LINES, IN_PLACE_OF_SOCKETS};
use crate::messages::NAME;
use crate::task::begins_words;
use clap::{Arg, ArgAction, ArgMatches, Command, Error, value_parser};
use mt_arguments::program::{OUT_OF_MEMORY, VERSION};
use mt_help::page::Usage;
use mt_protocol::help::lines;
use std::alloc::{AllocError, Global};
use std::env::VarError;
use std::io::ErrorKind;
use std::{env, fs};

/// The variable of the environment that names the socket where no argument does.
const SOCKET_VARIABLE: &str = "MOUNTD_SOCKET";

/// What the environment says, for the help.
const ENVIRONMENT: &str = "
Environment:
  MOUNTD_SOCKET            the socket of the server, where the first word is none: one that begins a line, or what may
                           stand in its place, is no socket (./show is), nor are letters that are no file's name";

/// The column of a line in which it is said what something does, and how long that is at most that stands in front of it there.
const COLUMN: usize = 27;

const WIDEST: usize = 25;

/// Appends so many spaces. Fails for want of memory alone.
fn push_spaces(text: &mut String, count: usize) -> Result<(), AllocError> {
    for _space in 0..count {
        text.push(' ')?;
    }
    Ok(())
}

/// Appends how something is written and what it does: beside that, or below where it is long. Fails for want of memory alone.
fn push_usage(text: &mut String, usage: Usage) -> Result<(), AllocError> {
    text.push_str("  ")?;
    text.push_str(usage.words)?;
    let mut width = usage.words.len().saturating_add(2);
    for line in usage.says.lines() {
        if width > WIDEST {
            text.push('\n')?;
            width = 0;
        }
        push_spaces(text, COLUMN.saturating_sub(width))?;
        text.push_str(line)?;
        width = COLUMN;
    }
    text.push('\n')
}

/// Appends a title, and how what stands below it is written. Fails for want of memory alone.
fn push_usages(text: &mut String, title: &str, usages: &[Usage]) -> Result<(), AllocError> {
    text.push_str(title)?;
    for usage in usages {
        push_usage(text, *usage)?;
    }
    Ok(())
}

/// The lines of a session, and what may stand in their place.
pub(crate) fn usage(alloc: Global) -> Result<String, AllocError> {
    let mut text = lines(alloc)?;
    push_usages(
        &mut text,
        "\n\nIn the place of WORD..:\n",
        &IN_PLACE_OF_LINES,
    )?;
    push_usages(
        &mut text,
        "\nIn the place of SOCKET WORD..:\n",
        &IN_PLACE_OF_SOCKETS,
    )?;
    text.push_str(ENVIRONMENT)?;
    Ok(text)
}

/// How lines are sent, and what is shown of their answers.
#[derive(Clone, Copy)]
pub(crate) struct Manner {
    /// Whether a script ends at the first refusal.
    pub(crate) strict: bool,
    /// Whether answers are left out.
    pub(crate) quiet: bool,
    /// For how many seconds a server that is not there yet is waited for.
    pub(crate) wait: u64,
}

/// The manner that the arguments ask for.
pub(crate) fn manner_of(matches: &ArgMatches<'_>) -> Manner {
    Manner {
        strict: matches.get_flag("strict"),
        quiet: matches.get_flag("quiet"),
        wait: matches.get_one::<u64>("wait").unwrap_or(0),
    }
}

/// The socket.
fn socket_argument<'a>(alloc: Global) -> Arg<'a> {
    Arg::new(alloc, "SOCKET")
        .help("The socket of the server")
        .action(ArgAction::Set)
}

/// The words.
fn words_argument<'a>(alloc: Global) -> Arg<'a> {
    Arg::new(alloc, "WORD")
        .help("The words of a line, or what may stand in its place")
        .num_args(1..)
        .trailing_var_arg(true)
        .allow_hyphen_values(true)
        .action(ArgAction::Append)
}

/// Whether a script ends at the first refusal.
fn strict_option<'a>(alloc: Global) -> Arg<'a> {
    Arg::new(alloc, "strict")
        .short('e')
        .help("End a script at the first line that is refused")
        .action(ArgAction::SetTrue)
}

/// Whether answers are left out.
fn quiet_option<'a>(alloc: Global) -> Arg<'a> {
    Arg::new(alloc, "quiet")
        .short('q')
        .help("Leave out the answers to lines")
        .action(ArgAction::SetTrue)
}

/// For how many seconds a server that is not there yet is waited for.
fn wait_option<'a>(alloc: Global) -> Arg<'a> {
    Arg::new(alloc, "wait")
        .long("wait")
        .value_name("SECONDS")
        .help("Wait so long for a server that is not there yet")
        .value_parser(value_parser!(u16).range(0..=65535))
        .default_value("0")
}

/// What the program takes: a socket, and the words of a request. `usage` stands behind its help.
pub(crate) fn parser<'a>(alloc: Global, usage: &'a str) -> Result<Command<'a>, Error> {
    let command = Command::new(alloc, NAME)
        .version(VERSION)
        .override_usage("mountctl [OPTIONS] [SOCKET] <WORD>...")
        .after_help(usage)
        .arg(strict_option(alloc))?
        .arg(quiet_option(alloc))?
        .arg(wait_option(alloc))?
        .arg(socket_argument(alloc))?
        .arg(words_argument(alloc))?;
    Ok(command)
}

/// What is missing of the arguments.
#[derive(Clone, Copy)]
pub(crate) enum Lack {
    /// There is no word to be sent.
    Word,
    /// Neither an argument nor the environment names a socket.
    Socket,
    /// What the environment names is no text.
    Text,
    /// There is no memory for what the environment names.
    NoMemory,
}

impl Lack {
    /// What is said on standard error.
    pub(crate) fn message(self) -> &'static str {
        match self {
            Lack::Word => "no WORD: --help says what can be sent",
            Lack::Socket => "no SOCKET, and MOUNTD_SOCKET is not set",
            Lack::Text => "the socket of MOUNTD_SOCKET is not UTF-8",
            Lack::NoMemory => OUT_OF_MEMORY,
        }
    }
}

/// The socket that the environment names. One that is empty names none.
fn named_socket(rt: &HostRuntime) -> Result<String, Lack> {
    match env::var(rt, SOCKET_VARIABLE) {
        Ok(socket) if socket.is_empty() => Err(Lack::Socket),
        Ok(socket) => Ok(socket),
        Err(VarError::NotPresent) => Err(Lack::Socket),
        Err(VarError::NotUnicode) => Err(Lack::Text),
        Err(VarError::OutOfMemory) => Err(Lack::NoMemory),
    }
}

/// Whether a word looks as the first word of a line does: it has letters alone.
fn is_lettered(word: &str) -> bool {
    word.as_bytes()
        .iter()
        .all(|byte| byte.is_ascii_alphabetic())
}

/// Whether there is a file of a name.
fn is_there(rt: &HostRuntime, path: &str) -> bool {
    match fs::metadata(rt, path) {
        Ok(_) => true,
        Err(error) => error.kind() != ErrorKind::NotFound,
    }
}

/// Whether the first argument is a socket: it begins no line, nor what may stand in the place of one. Where the environment
/// names a socket, letters alone are one only if there is a file of this name, since they may be a line with a slip.
fn is_socket(rt: &HostRuntime, word: &str) -> bool {
    if begins_words(word) {
        return false;
    }
    !is_lettered(word) || named_socket(rt).is_err() || is_there(rt, word)
}

/// The socket of the server: the first argument, if it is one, or that of the environment.
pub(crate) fn socket_of(
    rt: &HostRuntime,
    first: Option<&str>,
) -> Result<Result<String, Lack>, AllocError> {
    match first {
        Some(socket) if is_socket(rt, socket) => Ok(Ok(String::from_str(rt.alloc(), socket)?)),
        _ => Ok(named_socket(rt)),
    }
}

/// The words of a line, or what stands in its place: the arguments behind the socket. Fails for want of memory alone.
pub(crate) fn words_of<'a>(
    rt: &HostRuntime,
    first: Option<&'a str>,
    behind: &[&'a str],
) -> Result<Vec<&'a str>, AllocError> {
    let mut words = Vec::new(rt.alloc());
    if let Some(word) = first {
        if !is_socket(rt, word) {
            words.push(word)?;
        }
    }
    words.extend_from_slice(behind)?;
    Ok(words)
}
