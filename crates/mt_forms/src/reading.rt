//! The words after a program, read by its table of options, as getopt_long(3) reads them.
ghost use Rattle.std.specs.Prelude.{◌≡◌, fold};
ghost use Rattle.std.specs.Option.{option_copied};
ghost use Rattle.mt_forms.specs.Reading.{is_no_option, option_name, option_value, takes_value, value_behind, by_takes, with_letters, with_named_option, with_dashed, with_free_word, with_word, begins_command, given_of};

use crate::command::Tool;
use crate::given::{Given, nothing_given};
use crate::slip::Slip;
use crate::table::{Means, Takes, option_of_letter, option_of_name};
use crate::word::Word;
use mt_lines::words::{Pieces, Words};

/// Whether a word is no option where options may stand. A dash alone is none.
fn is_no_option(word: &[u8]) -> bool
    ensures { result ≡ is_no_option word.now }
{
    !word.starts_with(b"-") || word == b"-".as_slice()
}

/// The name of an option, before its value.
fn option_name(option: &[u8]) -> &[u8]
    ensures { result.now ≡ option_name option.now }
{
    match Pieces::new(b'=', option).next() {
        Some(name) => name,
        None => &[],
    }
}

/// The value after the name of an option, if there is one.
fn option_value(option: &[u8]) -> Option<&[u8]>
    ensures { option_copied result ≡ option_value option.now }
{
    let name = option_name(option);
    if name.len() < option.len() {
        let (_name, value) = option.split_at(name.len() + 1);
        Some(value)
    } else {
        None
    }
}

/// Whether a value has to come after an option.
fn takes_value(takes: Takes) -> bool
    ensures { result ≡ takes_value takes }
{
    match takes {
        Takes::Value => true,
        Takes::Nothing | Takes::Maybe => false,
    }
}

impl<'a> Given<'a> {
    /// The same, with an option of one letter that takes a value: what comes after it in its word, or the next word.
    fn with_value_behind(mut self, tool: Tool, means: Means, behind: &'a [u8]) -> Given<'a>
        ensures { result ≡ value_behind tool means behind.entry.now self.entry }
    {
        if behind.is_empty() {
            self.waiting = Some(means);
            return self;
        }
        self.with_value(tool, means, behind)
    }

    /// The same, with options of one letter each in one word. The last one may take a value.
    fn with_letters(self, tool: Tool, word: &'a [u8], letters: &'a [u8]) -> Given<'a>
        ensures { result ≡ with_letters tool word.entry.now letters.entry.now self.entry }
    {
        let mut given = self;
        let mut letters = letters;
        'letters: while let Some((letter, rest)) = letters.split_first() {
            let Some(effect) = option_of_letter(tool, &[*letter]) else {
                return given.slipped(Slip::NoOption {
                    tool,
                    word: Word::new(word),
                });
            };
            if takes_value(effect.takes) {
                return given.with_value_behind(tool, effect.means, rest);
            }
            given = given.with_option(tool, effect.means);
            letters = rest;
        }
        given
    }

    /// The same, with an option, and a value after `=` if there is one.
    fn with_taken(
        mut self,
        tool: Tool,
        word: &'a [u8],
        takes: Takes,
        means: Means,
        value: Option<&'a [u8]>,
    ) -> Given<'a>
        ensures { result ≡ by_takes takes means (option_copied value.entry) tool word.entry.now self.entry }
    {
        match (takes, value) {
            (Takes::Nothing, Some(_value)) => self.slipped(Slip::NoneTaken {
                tool,
                word: Word::new(word),
            }),
            (Takes::Nothing, None) => self.with_option(tool, means),
            (Takes::Value, Some(value)) => self.with_value(tool, means, value),
            (Takes::Value, None) => {
                self.waiting = Some(means);
                self
            }
            (Takes::Maybe, Some(value)) => self.with_value(tool, means, value),
            (Takes::Maybe, None) => self.with_option(tool, means),
        }
    }

    /// The same, with an option that has a name.
    fn with_named_option(self, tool: Tool, word: &'a [u8], option: &'a [u8]) -> Given<'a>
        ensures { result ≡ with_named_option tool word.entry.now option.entry.now self.entry }
    {
        let Some(effect) = option_of_name(tool, option_name(option)) else {
            return self.slipped(Slip::NoOption {
                tool,
                word: Word::new(word),
            });
        };
        self.with_taken(tool, word, effect.takes, effect.means, option_value(option))
    }

    /// The same, with an option, or with several of one letter each.
    fn with_dashed(self, tool: Tool, word: &'a [u8]) -> Given<'a>
        ensures { result ≡ with_dashed tool word.entry.now self.entry }
    {
        if let Some(option) = word.strip_prefix(b"--") {
            return self.with_named_option(tool, word, option);
        }
        match word.split_first() {
            Some((_dash, letters)) => self.with_letters(tool, word, letters),
            None => self,
        }
    }

    /// The same, with a word that is not the value of the option before it.
    fn with_free_word(mut self, tool: Tool, word: &'a [u8]) -> Given<'a>
        ensures { result ≡ with_free_word tool self.entry word.entry.now }
    {
        if self.has_ended || self.has_command || is_no_option(word) {
            return self.with_plain(tool, word);
        }
        if word == b"--".as_slice() {
            self.has_ended = true;
            return self;
        }
        self.with_dashed(tool, word)
    }

    /// The same, with one word more.
    pub(crate) fn with_word(mut self, tool: Tool, word: &'a [u8]) -> Given<'a>
        ensures { result ≡ with_word tool self.entry word.entry.now }
    {
        let Some(means) = self.waiting else {
            return self.with_free_word(tool, word);
        };
        self.waiting = None;
        self.with_value(tool, means, word)
    }

    /// The same, with these words.
    pub(crate) fn with_words(self, tool: Tool, words: Words<'a>) -> Given<'a>
        ensures { result ≡ fold (with_word tool) self.entry words.entry }
    {
        let mut given = self;
        let mut words = words;
        'words: while let Some(word) = words.next() {
            given = given.with_word(tool, word);
        }
        given
    }

    /// Whether a word is none of the options before a command, nor a value of one.
    pub(crate) fn begins_command(&self, word: &[u8]) -> bool
        ensures { result ≡ begins_command self.now word.now }
    {
        self.waiting.is_none() && (self.has_ended || is_no_option(word))
    }
}

/// What the words after a program give.
#[tactic(auto, unfolding(crate::specs::Reading::given_of))]
pub(crate) fn given_of<'a>(tool: Tool, words: Words<'a>) -> Given<'a>
    ensures { result ≡ given_of tool words.entry }
{
    nothing_given().with_words(tool, words)
}
