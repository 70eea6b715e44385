//! The flags of a call, as strace has them.
ghost use Rattle.std.specs.Prelude.{◌≡◌};
ghost use Rattle.std.specs.List.{list_all, list_any};
ghost use Rattle.std.specs.Str.{bytes_eq};
ghost use Rattle.mt_trace.specs.Flags.{flags_of, no_flags, has_flag};

use mt_lines::words::Pieces;
use std::marker::Model;

/// The flags of a call: words between strokes. `0` is none.
#[derive(Drop)]
pub struct Flags<'a> {
    text: &'a [u8],
}

impl<'a> Model for Flags<'a> {
    ghost use Rattle.std.specs.Prelude.{ℕ, List};
    ghost use Rattle.mt_trace.specs.Flags.{flags_of};

    ghost Value = { List (List ℕ) };

    ghost view = { λ f. flags_of f.text.now };
}

impl<'a> Flags<'a> {
    /// The flags of an argument.
    pub fn new(text: &'a [u8]) -> Flags<'a>
        ensures { result ≡ flags_of text.entry.now }
    {
        Flags { text }
    }

    /// The words of the flags.
    pub fn words(&self) -> Pieces<'a>
        ensures { result ≡ self.entry.now }
    {
        Pieces::new(b'|', self.text)
    }

    /// Whether a flag is given.
    pub fn has(&self, flag: &[u8]) -> bool
        ensures { result ≡ has_flag flag.now self.now }
    {
        self.words().any(|word| word == flag)
    }

    /// Whether each word is one of these.
    pub fn are_flags_of(&self, known: &[&[u8]]) -> bool
        ensures { result ≡ list_all (λ word. list_any (λ flag. bytes_eq flag.now word) known.now) self.now }
    {
        self.words().all(|word| is_flag_of(known, word))
    }
}

/// Whether a word is one of these.
pub(crate) fn is_flag_of(known: &[&[u8]], word: &[u8]) -> bool
    ensures { result ≡ list_any (λ flag. bytes_eq flag.now word.now) known.now }
{
    known.iter().any(|flag| *flag == word)
}

/// Flags of a call that has none.
pub(crate) fn no_flags<'a>() -> Flags<'a>
    ensures { result ≡ no_flags }
{
    Flags::new(b"0")
}
