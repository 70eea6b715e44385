//! `help`: a page of each word, with how it is written, an example and what it may be refused as.

use crate::PROGRAM;
use crate::client_words::{IN_PLACE_OF_LINES, IN_PLACE_OF_SOCKETS, has_usage, word_of};
use crate::fault::Fault;
use crate::messages::NAME;
use crate::screen::print_out;
use crate::task::WordFault;
use mt_help::lines::verb_page;
use mt_help::nearest::nearest_word;
use mt_help::page::{Usage, page_text};
use mt_help::refusals::said_by;
use mt_protocol::verb::{VERBS, Verb};
use mt_skel::fault::Fault as Refusal;
use mt_terminal::message::Shown;
use std::alloc::{AllocError, Global};
use std::io::Eprint;
use std::process::ExitCode;

/// What a session answers beside the lines of a server.
const IN_SESSIONS: &[&[u8]] = &[b"help", b"tree"];

/// What is said behind the list of words.
const BEHIND_LIST: &[u8] = b"
mountctl help WORD has the page of a word, mountctl --help all of them in short, and mountctl explain REFUSAL what is known of a refusal.
";

/// An example of a word of the client.
fn example_of(word: &str) -> &'static str {
    match word {
        "-" => "mountctl mounts.sock - < session",
        "monitor" => "mountctl mounts.sock monitor all --json --time",
        "mirror" => "mountctl mounts.sock mirror 1 1",
        "tree" => "mountctl mounts.sock tree 1 /media --ascii",
        "dot" => "mountctl mounts.sock dot > mounts.dot",
        "spaces" => "mountctl mounts.sock spaces --name 1=host",
        "what-if" => "mountctl what-if host container -- mount -t vfat /dev/sdc1 /media/usb",
        "reach" => "mountctl reach host container -- host /media/usb",
        "origin" => "mountctl origin host container -- container /media",
        "holders" => "mountctl holders host container -- host /media",
        "save" => "mountctl mounts.sock save > saved",
        "page" => "mountctl page < session > page.html",
        "trace" => "mountctl trace host container -- run",
        "import" => "mountctl import host container > script",
        "session" => "mountctl session < session",
        "play" => "mountctl play transcript",
        "explain" => "mountctl explain Busy",
        "help" => "mountctl help mount",
        _ => "",
    }
}

/// What a server may refuse where a word of the client is used. What is refused of the lines that stand behind it, or in an input,
/// is told by their own pages.
fn refusals_of(word: &str) -> &'static [Refusal] {
    match word {
        "monitor" | "mirror" => &[
            Refusal::NoNamespace,
            Refusal::TooManyWatchers,
            Refusal::Lagged,
            Refusal::Stopped,
        ],
        "tree" | "dot" | "reach" | "origin" | "holders" => &[
            Refusal::NoNamespace,
            Refusal::NoEntry,
            Refusal::TooManyWatchers,
            Refusal::Stopped,
        ],
        "spaces" | "page" => &[Refusal::TooManyWatchers, Refusal::Stopped],
        _ => &[],
    }
}

/// Whether there is a page of a word.
pub(crate) fn has_page(word: &str) -> bool {
    Verb::of(word.as_bytes()).is_some()
        || has_usage(&IN_PLACE_OF_LINES, word)
        || has_usage(&IN_PLACE_OF_SOCKETS, word)
}

/// The word of which words behind a socket ask for the page.
pub(crate) fn word_of_help<'a>(words: &[&'a str]) -> Option<&'a str> {
    match words {
        [word, "-h" | "--help"] if has_page(word) => Some(*word),
        _ => None,
    }
}

/// Appends those of some usages that begin with a word.
fn push_usages(usages: &mut Vec<Usage>, some: &[Usage], word: &str) -> Result<(), AllocError> {
    for usage in some {
        if word_of(*usage) == word {
            usages.push(*usage)?;
        }
    }
    Ok(())
}

/// How a word is written, as a line of a session and in the place of one.
fn usages_of(alloc: Global, word: &str) -> Result<Vec<Usage>, AllocError> {
    let mut usages = Vec::new(alloc);
    if let Some(verb) = Verb::of(word.as_bytes()) {
        let row = verb.row();
        usages.push(Usage {
            words: row.usage,
            says: row.help,
        })?;
    }
    push_usages(&mut usages, &IN_PLACE_OF_LINES, word)?;
    push_usages(&mut usages, &IN_PLACE_OF_SOCKETS, word)?;
    Ok(usages)
}

/// The page of a word that has one.
fn page_of(alloc: Global, word: &str) -> Result<Vec<u8>, AllocError> {
    let usages = usages_of(alloc, word)?;
    if let Some(verb) = Verb::of(word.as_bytes()) {
        return verb_page(alloc, verb, usages.as_slice());
    }
    let said = said_by(alloc, refusals_of(word))?;
    page_text(
        alloc,
        usages.as_slice(),
        "",
        example_of(word),
        said.as_slice(),
        "",
    )
}

/// The words of the lines that change tables, or of the others.
fn words_of_lines(alloc: Global, change: bool) -> Result<Vec<&'static [u8]>, AllocError> {
    let mut words = Vec::new(alloc);
    for verb in &VERBS {
        if verb.is_command() == change {
            words.push(verb.word())?;
        }
    }
    Ok(words)
}

/// Whether a word is no line's, and is not among these.
fn is_missing(words: &[&'static [u8]], word: &'static [u8]) -> bool {
    Verb::of(word).is_none() && !words.contains(&word)
}

/// Appends the words that usages begin with, but for those of lines, and those that are there.
fn push_words(words: &mut Vec<&'static [u8]>, usages: &[Usage]) -> Result<(), AllocError> {
    for usage in usages {
        let word = word_of(*usage).as_bytes();
        if is_missing(words.as_slice(), word) {
            words.push(word)?;
        }
    }
    Ok(())
}

/// The words that usages begin with, each once, but for those of lines.
fn words_of(alloc: Global, usages: &[Usage]) -> Result<Vec<&'static [u8]>, AllocError> {
    let mut words = Vec::new(alloc);
    for usage in usages {
        let word = word_of(*usage).as_bytes();
        if is_missing(words.as_slice(), word) {
            words.push(word)?;
        }
    }
    Ok(words)
}

/// Appends a title, and words below it.
fn push_list(text: &mut Vec<u8>, title: &[u8], words: &[&'static [u8]]) -> Result<(), AllocError> {
    text.extend_from_slice(title)?;
    text.extend_from_slice(b"\n ")?;
    for word in words {
        text.push(b' ')?;
        text.extend_from_slice(word)?;
    }
    text.push(b'\n')?;
    Ok(())
}

/// All words that have a page, under their kinds.
fn list_of_words(alloc: Global) -> Result<Vec<u8>, AllocError> {
    let changing = words_of_lines(alloc, true)?;
    let asking = words_of_lines(alloc, false)?;
    let lines = words_of(alloc, &IN_PLACE_OF_LINES)?;
    let sockets = words_of(alloc, &IN_PLACE_OF_SOCKETS)?;
    let mut text = Vec::new(alloc);
    push_list(&mut text, b"Lines that change tables:", changing.as_slice())?;
    push_list(&mut text, b"Other lines:", asking.as_slice())?;
    push_list(&mut text, b"In the place of a line:", lines.as_slice())?;
    push_list(
        &mut text,
        b"In the place of a socket and a line:",
        sockets.as_slice(),
    )?;
    text.extend_from_slice(BEHIND_LIST)?;
    Ok(text)
}

/// All words that have a page.
fn all_words(alloc: Global) -> Result<Vec<&'static [u8]>, AllocError> {
    let mut words = Vec::new(alloc);
    for verb in &VERBS {
        words.push(verb.word())?;
    }
    push_words(&mut words, &IN_PLACE_OF_LINES)?;
    push_words(&mut words, &IN_PLACE_OF_SOCKETS)?;
    Ok(words)
}

/// Says that there is no page of a word, and which one is nearest, if one is near. Fails for want of memory alone.
fn tell_no_word<E: Eprint>(rt: &E, alloc: Global, word: &str) -> Result<(), AllocError> {
    let shown = Shown(word.as_bytes());
    let words = all_words(alloc)?;
    match nearest_word(alloc, words.as_slice(), word.as_bytes())? {
        Some(nearest) => {
            let nearest = Shown(nearest);
            let _ = eprintln!(rt; "{NAME}: {shown}: no word of the help; the nearest is {nearest}");
        }
        None => {
            let _ = eprintln!(rt; "{NAME}: {shown}: no word of the help");
        }
    }
    Ok(())
}

/// Says that there is no page of a word, and which one is nearest, if one is near.
fn refuse_word(rt: &HostRuntime, word: &str) -> ExitCode {
    match tell_no_word(rt, rt.alloc(), word) {
        Ok(()) => ExitCode::from(2),
        Err(_) => PROGRAM.fail(rt, Fault::NoMemory.message()),
    }
}

/// The words of a session, under their kinds.
fn list_in_session(alloc: Global) -> Result<Vec<u8>, AllocError> {
    let changing = words_of_lines(alloc, true)?;
    let asking = words_of_lines(alloc, false)?;
    let mut text = Vec::new(alloc);
    push_list(&mut text, b"Lines that change tables:", changing.as_slice())?;
    push_list(&mut text, b"Other lines:", asking.as_slice())?;
    push_list(&mut text, b"In their place:", IN_SESSIONS)?;
    text.extend_from_slice(b"\nhelp WORD has the page of a word.\n")?;
    Ok(text)
}

/// What a session is told behind `help`: the page of a word, or without a word the words of a session. None where there is no such
/// page. Fails for want of memory alone.
pub(crate) fn session_page(alloc: Global, words: &[&str]) -> Result<Option<Vec<u8>>, AllocError> {
    match words {
        [] => Ok(Some(list_in_session(alloc)?)),
        [word] if has_page(word) => Ok(Some(page_of(alloc, word)?)),
        _ => Ok(None),
    }
}

/// Says why a session is told nothing behind `help`. Fails for want of memory alone.
pub(crate) fn tell_no_page<E: Eprint>(
    rt: &E,
    alloc: Global,
    words: &[&str],
) -> Result<(), AllocError> {
    let [word] = words else {
        let said = WordFault::Help.message();
        let _ = eprintln!(rt; "{NAME}: {said}");
        return Ok(());
    };
    tell_no_word(rt, alloc, word)
}

/// Prints a text, unless there was no memory for it.
fn print_text(rt: &HostRuntime, text: Result<Vec<u8>, AllocError>) -> ExitCode {
    match text {
        Ok(text) => print_out(rt, text.as_slice(), 0),
        Err(_) => PROGRAM.fail(rt, Fault::NoMemory.message()),
    }
}

/// Prints the page of a word, or without a word the list of those that have one. Says which word is nearest to one that has none.
pub(crate) fn run_help(rt: &HostRuntime, words: &[&str]) -> ExitCode {
    match words {
        [] => print_text(rt, list_of_words(rt.alloc())),
        [word] if has_page(word) => print_text(rt, page_of(rt.alloc(), word)),
        [word] => refuse_word(rt, word),
        _ => PROGRAM.refuse(rt, WordFault::Help.message()),
    }
}
