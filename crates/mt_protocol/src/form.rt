//! The forms of answers.
ghost use Rattle.std.specs.Prelude.{◌≡◌};
ghost use Rattle.mt_lines.specs.Words.{words};
ghost use Rattle.mt_protocol.specs.Verbs.{first_of, form_of, has_command_verb};

use crate::verb::Verb;
use mt_lines::words::words;

/// Which lines answer a line that is not refused.
#[derive(Clone, Copy, Debug, PartialEq, Eq)]
pub enum Form {
    /// `ok`.
    Done,
    /// `ok` and a number.
    Number,
    /// `ok`, the number of a mount, and a path.
    Place,
    /// `ok`, a count and a number, and as many rows as the count says.
    Table,
    /// `ok` and a count, and as many lines as it says, of mounts with what is locked of them.
    Locks,
    /// `ok` and a count, and as many lines as it says, of namespaces with their rows.
    Opening,
    /// `ok` and a count, and as many lines as it says, of posts.
    Posts,
    /// `ok` and a count, and as many lines as it says, of commands.
    Commands,
    /// Posts, and behind them `ok` and how many they are, or a refusal.
    Followed,
    /// None: what has no verb is refused.
    Never,
}

/// The first word of a line, or an empty one.
pub fn first_word(line: &[u8]) -> &[u8]
    ensures { result.now ≡ first_of (words line.now) }
{
    match words(line).next() {
        Some(word) => word,
        None => &[],
    }
}

/// Which lines answer a line that is not refused, by its first word.
pub fn form_of(line: &[u8]) -> Form
    ensures { result ≡ form_of line.now }
{
    match Verb::of(first_word(line)) {
        Some(verb) => verb.form(),
        None => Form::Never,
    }
}

/// Whether the first word of a line is that of a command.
pub fn has_command_verb(line: &[u8]) -> bool
    ensures { result ≡ has_command_verb line.now }
{
    match Verb::of(first_word(line)) {
        Some(verb) => verb.is_command(),
        None => false,
    }
}
