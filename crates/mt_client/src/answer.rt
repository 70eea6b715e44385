//! What the first line of an answer tells.
ghost use Rattle.std.specs.Prelude.{◌≡◌};
ghost use Rattle.mt_client.specs.Limits.{at_most};
ghost use Rattle.mt_client.specs.Requests.{verdict, is_refusal, lone_number, placed_number, table_count, lines_said, lines_behind, waiting_count};

use crate::opening::{MOST_LINES, MOST_LISTED, MOST_ROWS, MOST_WAITING_LINES};
use mt_lines::words::{Words, number, words};
use mt_protocol::form::{Form, first_word};
use mt_protocol::refusal::refusal_named;

/// What a line of an answer tells: whether its first word is `ok`, where it is `ok` or `no`.
pub(crate) fn verdict(line: &[u8]) -> Option<bool>
    ensures { result ≡ verdict line.now }
{
    let word = first_word(line);
    if word == b"ok".as_slice() {
        Some(true)
    } else if word == b"no".as_slice() {
        Some(false)
    } else {
        None
    }
}

/// Whether a line refuses: `no` and the name of a refusal.
pub(crate) fn is_refusal(line: &[u8]) -> bool
    ensures { result ≡ is_refusal line.now }
{
    let mut words = words(line);
    let (Some(first), Some(name), None) = (words.next(), words.next(), words.next()) else {
        return false;
    };
    first == b"no".as_slice() && refusal_named(name).is_some()
}

/// The number that is all the words that are left.
fn lone_number(words: &mut Words<'_>) -> Option<u64>
    ensures { result ≡ lone_number words.old }
{
    let (Some(word), None) = (words.next(), words.next()) else {
        return None;
    };
    number(word)
}

/// The number of a mount that is, with a path, all the words that are left.
fn placed_number(words: &mut Words<'_>) -> Option<u64>
    ensures { result ≡ placed_number words.old }
{
    let (Some(mount), Some(path), None) = (words.next(), words.next(), words.next()) else {
        return None;
    };
    if !path.starts_with(b"/") {
        return None;
    }
    number(mount)
}

/// A number that is no greater than this.
pub(crate) fn at_most(most: u64, number: Option<u64>) -> Option<u64>
    ensures { result ≡ at_most most number }
{
    match number {
        Some(number) if number <= most => Some(number),
        _ => None,
    }
}

/// The count of rows that is, with a number, all the words that are left.
fn table_count(words: &mut Words<'_>) -> Option<u64>
    ensures { result ≡ table_count words.old }
{
    let (Some(count), Some(last), None) = (words.next(), words.next(), words.next()) else {
        return None;
    };
    let _number = number(last)?;
    at_most(MOST_ROWS, number(count))
}

/// How many lines stand behind a first line with these words behind `ok`: None where an answer of this form has none
/// such.
fn lines_said(form: Form, words: &mut Words<'_>) -> Option<u64>
    ensures { result ≡ lines_said form words.old }
{
    match form {
        Form::Done => match words.next() {
            Some(_) => None,
            None => Some(0),
        },
        Form::Number => {
            let _number = lone_number(words)?;
            Some(0)
        }
        Form::Place => {
            let _mount = placed_number(words)?;
            Some(0)
        }
        Form::Table => table_count(words),
        Form::Locks => at_most(MOST_ROWS, lone_number(words)),
        Form::Opening => at_most(MOST_LINES, lone_number(words)),
        Form::Posts => at_most(MOST_WAITING_LINES, lone_number(words)),
        Form::Commands => at_most(MOST_LISTED, lone_number(words)),
        Form::Followed | Form::Never => None,
    }
}

/// How many lines come behind the first line of an answer that tells this: None where it is no first line of an answer
/// of this form, or no refusal.
pub(crate) fn lines_behind(form: Form, told: bool, line: &[u8]) -> Option<u64>
    ensures { result ≡ lines_behind form told line.now }
{
    if told {
        let mut words = words(line);
        let _first = words.next();
        lines_said(form, &mut words)
    } else if is_refusal(line) {
        Some(0)
    } else {
        None
    }
}

/// How many lines the posts are that wait: None where a line is not `ok` and their count.
pub(crate) fn waiting_count(line: &[u8]) -> Option<u64>
    ensures { result ≡ waiting_count line.now }
{
    if first_word(line) == b"ok".as_slice() {
        lines_behind(Form::Posts, true, line)
    } else {
        None
    }
}
