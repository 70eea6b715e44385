//! The arguments of a call, and the fields of a structure.
ghost use Rattle.std.specs.Prelude.{◌≡◌};
ghost use Rattle.std.specs.Option.{option_copied};
ghost use Rattle.mt_strace.specs.Arguments.{arguments_of, between_brackets, fields_of, value_named};

use crate::cut::{stripped, without_spaces};
use crate::scan::{cut_outside, first_outside};
use std::marker::Model;

/// The arguments of a call that are left, or the fields of a structure.
///
/// They stand between commas, those in strings, paths of descriptors, comments and brackets aside. One has no spaces in front.
#[derive(Drop)]
pub struct Arguments<'a> {
    rest: Option<&'a [u8]>,
}

impl<'a> Model for Arguments<'a> {
    ghost use Rattle.std.specs.Prelude.{ℕ, List};
    ghost use Rattle.std.specs.Option.{option_map};
    ghost use Rattle.mt_strace.specs.Arguments.{arguments_left};

    ghost Value = { List (List ℕ) };

    ghost view = { λ a. arguments_left (option_map (λ text. text.now) a.rest) };
}

impl<'a> Arguments<'a> {
    /// The arguments in what stands between brackets.
    pub fn new(text: &'a [u8]) -> Arguments<'a>
        ensures { result ≡ arguments_of text.entry.now }
    {
        if without_spaces(text).is_empty() {
            Arguments { rest: None }
        } else {
            Arguments { rest: Some(text) }
        }
    }

    /// The same arguments again.
    pub fn again(&self) -> Arguments<'a>
        ensures { result ≡ self.entry.now }
    {
        Arguments { rest: self.rest }
    }

    /// The value of the first field that begins with this name and its `=`, which is among the bytes of the name: as `flags=`.
    pub fn value(self, name: &[u8]) -> Option<&'a [u8]>
        ensures { option_copied result ≡ value_named name.now self.entry }
    {
        let mut fields = self;
        'fields: while let Some(field) = fields.next() {
            if let Some(value) = stripped(name, field) {
                return Some(value);
            }
        }
        None
    }
}

impl<'a> Iterator for Arguments<'a> {
    ghost use Rattle.std.specs.Iterator.{YieldsFirstRef, item_count};

    type Item = &'a [u8];

    ghost next_gives = { YieldsFirstRef (λ arguments. arguments) };

    ghost remaining = { item_count (λ arguments. arguments) };

    fn next(&mut self) -> Option<&'a [u8]> {
        let text = self.rest?;
        match first_outside(b',', text) {
            Some(end) => {
                self.rest = Some(&text[end + 1..]);
                Some(without_spaces(&text[..end]))
            }
            None => {
                self.rest = None;
                Some(without_spaces(text))
            }
        }
    }
}

/// What stands between a bracket that a text begins with and the one that closes it.
fn between_brackets(opening: u8, closing: u8, text: &[u8]) -> Option<&[u8]>
    ensures { option_copied result ≡ between_brackets opening closing text.now }
{
    let (first, behind) = text.split_first()?;
    if *first != opening {
        return None;
    }
    let (inside, _behind) = cut_outside(closing, behind)?;
    Some(inside)
}

/// The fields of a structure `{..}`, whatever stands behind it, each with its name, `=` and its value. `None` if the argument
/// is no structure.
pub fn fields_of<'a>(argument: &'a [u8]) -> Option<Arguments<'a>>
    ensures { result ≡ fields_of argument.entry.now }
{
    let inside = between_brackets(b'{', b'}', argument)?;
    Some(Arguments::new(inside))
}
