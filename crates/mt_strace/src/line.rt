//! What a line of strace's output says.
ghost use Rattle.std.specs.Prelude.{◌≡◌, ◌||◌, ◌==◌};
ghost use Rattle.std.specs.List.{list_all, list_any};
ghost use Rattle.std.specs.Option.{option_map};
ghost use Rattle.mt_strace.specs.Cuts.{cut_at, number_cut};
ghost use Rattle.mt_strace.specs.Outside.{cut_outside};
ghost use Rattle.mt_strace.specs.Lines.{with_process, process_of, is_digit, is_time_point, is_time, without_time, is_letter, is_name_byte, is_call_name, no_call, call_at, call_of, unfinished_of, resumed_at, superseded_with, exit_of, call_line, body_of, is_message, line_behind, strace_line_of};

use crate::arguments::Arguments;
use crate::call::TracedCall;
use crate::cut::{cut_at, number_cut, stripped, stripped_end, until_byte, without_spaces};
use crate::excerpt::Excerpt;
use crate::result::result_of;
use crate::scan::cut_outside;
use crate::unread::Unread;

/// The most bytes of a line, by this project's rule.
pub const MOST_BYTES: usize = 65_536;

/// What a line of strace's output says.
#[derive(Drop)]
pub enum StraceLine<'a> {
    /// A call from its beginning to its end.
    Call(TracedCall<'a>),
    /// The beginning of a call, which a line of another process interrupts.
    Unfinished {
        /// The number of the process, if the line names one.
        process: Option<u64>,
        /// The name of the call.
        name: Excerpt<'a>,
        /// The call as far as it has come: with its end behind it, it is one for [`read_call`].
        beginning: Excerpt<'a>,
    },
    /// The end of a call that was interrupted.
    Resumed {
        /// The number of the process, if the line names one.
        process: Option<u64>,
        /// The name of the call.
        name: Excerpt<'a>,
        /// What comes behind its beginning.
        end: Excerpt<'a>,
    },
    /// The process has ended, or was killed.
    Exited {
        /// Its number, if the line names one.
        process: Option<u64>,
    },
    /// One of the threads of the process has called execve: it goes on under the number of the process (execve(2)).
    Superseded {
        /// The number of the process, if the line names one.
        process: Option<u64>,
        /// The number that the thread had.
        by: u64,
    },
    /// A signal, a message of strace itself, or nothing.
    Silent,
    /// No line of strace, and why.
    Bad(Unread),
}

/// A process and what stands behind it, or the whole text if none is named.
fn with_process<'a>(text: &'a [u8], found: Option<(u64, &'a [u8])>) -> (Option<u64>, &'a [u8])
    ensures { (result.0, result.1.now) ≡ with_process text.now (option_map (λ (n, behind). (n, behind.now)) found.entry) }
{
    match found {
        Some((process, behind)) => (Some(process), without_spaces(behind)),
        None => (None, text),
    }
}

/// The process that a line names in front, if it names one, and what is left.
fn process_of<'a>(text: &'a [u8]) -> (Option<u64>, &'a [u8])
    ensures { (result.0, result.1.now) ≡ process_of text.now }
{
    match stripped(b"[pid ", text) {
        Some(behind) => with_process(text, number_cut(b']', without_spaces(behind))),
        None => with_process(text, number_cut(b' ', text)),
    }
}

/// Whether a byte is a digit.
fn is_digit(byte: u8) -> bool
    ensures { result ≡ is_digit byte }
{
    b'0' <= byte && byte <= b'9'
}

/// Whether a byte stands between the numbers of a time.
fn is_time_point(byte: u8) -> bool
    ensures { result ≡ is_time_point byte }
{
    byte == b':' || byte == b'.'
}

/// Whether these bytes are digits, colons and dots.
fn are_of_time(word: &[u8]) -> bool
    ensures { result ≡ list_all (λ d. is_digit d || is_time_point d) word.now }
{
    word.iter()
        .all(|byte| is_digit(*byte) || is_time_point(*byte))
}

/// Whether one of these bytes is a colon or a dot.
fn have_point(word: &[u8]) -> bool
    ensures { result ≡ list_any is_time_point word.now }
{
    word.iter().any(|byte| is_time_point(*byte))
}

/// Whether a word is a time.
fn is_time(word: &[u8]) -> bool
    ensures { result ≡ is_time word.now }
{
    let Some((first, rest)) = word.split_first() else {
        return false;
    };
    is_digit(*first) && are_of_time(rest) && have_point(rest)
}

/// A text without the time in front, if one stands there.
fn without_time<'a>(text: &'a [u8]) -> &'a [u8]
    ensures { result.now ≡ without_time text.now }
{
    let Some((word, behind)) = cut_at(b' ', text) else {
        return text;
    };
    if is_time(word) {
        without_spaces(behind)
    } else {
        text
    }
}

/// Whether a byte may begin the name of a call.
fn is_letter(byte: u8) -> bool
    ensures { result ≡ is_letter byte }
{
    (b'a' <= byte && byte <= b'z') || byte == b'_'
}

/// Whether a byte may stand in the name of a call.
fn is_name_byte(byte: u8) -> bool
    ensures { result ≡ is_name_byte byte }
{
    is_letter(byte) || is_digit(byte)
}

/// Whether each of these bytes may stand in the name of a call.
fn are_name_bytes(name: &[u8]) -> bool
    ensures { result ≡ list_all is_name_byte name.now }
{
    name.iter().all(|byte| is_name_byte(*byte))
}

/// Whether a text is the name of a call.
fn is_call_name(name: &[u8]) -> bool
    ensures { result ≡ is_call_name name.now }
{
    let Some((first, rest)) = name.split_first() else {
        return false;
    };
    is_letter(*first) && are_name_bytes(rest)
}

/// Why a text is no call.
fn no_call<'a>(text: &'a [u8]) -> StraceLine<'a>
    ensures { result ≡ no_call text.entry.now }
{
    if text.starts_with(b"(") {
        StraceLine::Bad(Unread::PerfTrace)
    } else {
        StraceLine::Bad(Unread::NotStrace)
    }
}

/// A call of this name, from behind the bracket that opens its arguments on.
fn call_at<'a>(process: Option<u64>, name: &'a [u8], behind: &'a [u8]) -> StraceLine<'a>
    ensures { result ≡ call_at process name.entry.now (cut_outside 41 behind.entry.now) }
{
    let Some((inside, rest)) = cut_outside(b')', behind) else {
        return StraceLine::Bad(Unread::Cut);
    };
    match result_of(rest) {
        Ok(result) => StraceLine::Call(TracedCall {
            process,
            name: Excerpt::new(name),
            arguments: Arguments::new(inside),
            result,
        }),
        Err(why) => StraceLine::Bad(why),
    }
}

/// The call that a text is, of a process: its beginning and its end, one after the other, where two lines have them. Any other
/// text is [`StraceLine::Bad`].
pub fn read_call<'a>(process: Option<u64>, text: &'a [u8]) -> StraceLine<'a>
    ensures { result ≡ call_of process text.entry.now }
{
    let Some((name, behind)) = cut_at(b'(', text) else {
        return no_call(text);
    };
    if is_call_name(name) {
        call_at(process, name, behind)
    } else {
        no_call(text)
    }
}

/// The beginning of a call, which a line of another process interrupts.
fn unfinished_of<'a>(process: Option<u64>, beginning: &'a [u8]) -> StraceLine<'a>
    ensures { result ≡ unfinished_of process beginning.entry.now }
{
    let Some((name, _behind)) = cut_at(b'(', beginning) else {
        return StraceLine::Bad(Unread::NotStrace);
    };
    if !is_call_name(name) {
        return StraceLine::Bad(Unread::NotStrace);
    }
    StraceLine::Unfinished {
        process,
        name: Excerpt::new(name),
        beginning: Excerpt::new(beginning),
    }
}

/// The end of a call that was interrupted, from its name on.
fn resumed_at<'a>(process: Option<u64>, text: &'a [u8]) -> StraceLine<'a>
    ensures { result ≡ resumed_at process (cut_at 32 text.entry.now) }
{
    let Some((name, behind)) = cut_at(b' ', text) else {
        return StraceLine::Bad(Unread::Cut);
    };
    let Some(end) = stripped(b"resumed>", behind) else {
        return StraceLine::Bad(Unread::NotStrace);
    };
    if !is_call_name(name) {
        return StraceLine::Bad(Unread::NotStrace);
    }
    StraceLine::Resumed {
        process,
        name: Excerpt::new(name),
        end: Excerpt::new(end),
    }
}

/// That another thread goes on under the number of a process, from the number of the thread on.
fn superseded_with<'a>(process: Option<u64>, text: &'a [u8]) -> StraceLine<'a>
    ensures { result ≡ superseded_with process (number_cut 32 text.entry.now) }
{
    match number_cut(b' ', text) {
        Some((by, _behind)) => StraceLine::Superseded { process, by },
        None => StraceLine::Bad(Unread::NotStrace),
    }
}

/// The end of a process, from behind the plus signs on.
fn exit_of<'a>(process: Option<u64>, text: &'a [u8]) -> StraceLine<'a>
    ensures { result ≡ exit_of process text.entry.now }
{
    if let Some(behind) = stripped(b"superseded by execve in pid ", text) {
        return superseded_with(process, behind);
    }
    if text.starts_with(b"exited with ") || text.starts_with(b"killed by ") {
        StraceLine::Exited { process }
    } else {
        StraceLine::Bad(Unread::NotStrace)
    }
}

/// A call, or the beginning of one.
fn call_line<'a>(process: Option<u64>, text: &'a [u8]) -> StraceLine<'a>
    ensures { result ≡ call_line process text.entry.now }
{
    if let Some(beginning) = stripped_end(b" <unfinished ...>", text) {
        return unfinished_of(process, beginning);
    }
    if let Some(beginning) = stripped_end(b" <detached ...>", text) {
        return unfinished_of(process, beginning);
    }
    read_call(process, text)
}

/// What a line says behind the process and the time.
fn body_of<'a>(process: Option<u64>, text: &'a [u8]) -> StraceLine<'a>
    ensures { result ≡ body_of process text.entry.now }
{
    if let Some(behind) = stripped(b"+++ ", text) {
        return exit_of(process, behind);
    }
    if let Some(behind) = stripped(b"<... ", text) {
        return resumed_at(process, behind);
    }
    if text.starts_with(b"--- ") {
        return StraceLine::Silent;
    }
    call_line(process, text)
}

/// Whether a line without the spaces in front is a message of strace itself, or nothing.
fn is_message(text: &[u8]) -> bool
    ensures { result ≡ is_message text.now }
{
    let word = until_byte(b' ', text);
    text.is_empty()
        || word == b"strace:".as_slice()
        || (text.starts_with(b"/") && word.ends_with(b"/strace:"))
}

/// Whether one of these bytes is 0.
fn have_zero(text: &[u8]) -> bool
    ensures { result ≡ list_any (λ b. b == 0) text.now }
{
    text.iter().any(|byte| *byte == 0)
}

/// What a line says without the spaces in front.
fn line_behind<'a>(text: &'a [u8]) -> StraceLine<'a>
    ensures { result ≡ line_behind text.entry.now }
{
    if is_message(text) {
        return StraceLine::Silent;
    }
    if text.starts_with(b"type=") {
        return StraceLine::Bad(Unread::Audit);
    }
    let (process, rest) = process_of(text);
    body_of(process, without_time(rest))
}

/// What a line of strace's output says, without its line end: with or without the number of the process and a time in front.
///
/// Takes no memory. What is no line of strace is [`StraceLine::Bad`], with the first reason of these that holds: it has more
/// than 65,536 bytes, a byte 0, or the form of a line of another tool, or of none.
pub fn read_strace_line<'a>(line: &'a [u8]) -> StraceLine<'a>
    ensures { result ≡ strace_line_of line.entry.now }
{
    if line.len() > MOST_BYTES {
        return StraceLine::Bad(Unread::TooLong);
    }
    if have_zero(line) {
        return StraceLine::Bad(Unread::Binary);
    }
    line_behind(without_spaces(line))
}
