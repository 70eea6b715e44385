//! The words of a line, the pieces of its paths, and numbers.
ghost use Rattle.std.specs.Prelude.{◌≡◌, ◌≢◌, ℕ, ◌+◌, ◌<◌, ◌^◌, false, true, List, [], ◌∷◌, length, take, drop, Some, MatchOption, decimal};
ghost use Rattle.mt_lines.specs.Words.{begins, pieces, words, number_in_text, number_from, with_digit};

use memchr::memchr;
use std::marker::Model;

/// The pieces of a text that are left, between single separators.
///
/// There is one piece more than separators: the empty text is one piece, and so is what stands
/// before a separator at the front, between two separators, or after one at the end.
#[derive(Drop)]
pub struct Pieces<'a> {
    separator: u8,
    rest: Option<&'a [u8]>,
}

/// The words of a line that are left.
pub type Words<'a> = Pieces<'a>;

impl<'a> Model for Pieces<'a> {
    ghost use Rattle.std.specs.Prelude.{ℕ, List};
    ghost use Rattle.std.specs.Option.{option_map};
    ghost use Rattle.mt_lines.specs.Words.{pieces_left};

    ghost Value = { List (List ℕ) };

    ghost view = { λ p. pieces_left p.separator (option_map (λ text. text.now) p.rest) };
}

/// The words of a line, between single spaces.
pub fn words(line: &[u8]) -> Words<'_>
    ensures { result ≡ words line.entry.now }
{
    Pieces::new(b' ', line)
}

/// The place of the first separator.
fn first_separator(separator: u8, text: &[u8]) -> Option<usize>
    ensures { MatchOption result
        (pieces separator text.now ≡ text.now ∷ [])
        (λ k. (k < length text.now)
        × (pieces separator text.now
        ≡ take k text.now ∷ pieces separator (drop (k + 1) text.now))) }
{
    memchr(separator, text)
}

impl<'a> Pieces<'a> {
    /// The pieces of a text between these separators.
    pub fn new(separator: u8, text: &'a [u8]) -> Pieces<'a>
        ensures { result ≡ pieces separator text.entry.now }
    {
        Pieces {
            separator,
            rest: Some(text),
        }
    }

    /// The same pieces again.
    pub fn again(&self) -> Pieces<'a>
        ensures { result ≡ self.entry.now }
    {
        Pieces {
            separator: self.separator,
            rest: self.rest,
        }
    }

    /// The first piece that is left, if any is.
    pub fn peek(&self) -> Option<&'a [u8]>
        ensures { MatchOption result (self.entry.now ≡ []) (λ piece. (rest : List (List ℕ)) × (self.entry.now ≡ piece.now ∷ rest)) }
    {
        let mut copy = self.again();
        copy.next()
    }

    /// Takes the first piece that is left if it begins with these bytes.
    pub fn next_starting(&mut self, start: &[u8]) -> Option<&'a [u8]>
        ensures { MatchOption result
            ((begins start.now self.old ≡ false) × (self.new ≡ self.old))
            (λ piece. (begins start.now self.old ≡ true) × (self.old ≡ piece.now ∷ self.new)) }
    {
        let piece = self.peek()?;
        if !piece.starts_with(start) {
            return None;
        }
        self.next()
    }
}

impl<'a> Iterator for Pieces<'a> {
    ghost use Rattle.std.specs.Iterator.{YieldsFirstRef, item_count};

    type Item = &'a [u8];

    ghost next_gives = { YieldsFirstRef (λ pieces. pieces) };

    ghost remaining = { item_count (λ pieces. pieces) };

    fn next(&mut self) -> Option<&'a [u8]> {
        let text = self.rest?;
        match first_separator(self.separator, text) {
            Some(end) => {
                self.rest = Some(&text[end + 1..]);
                Some(&text[..end])
            }
            None => {
                self.rest = None;
                Some(text)
            }
        }
    }
}

/// The number with one more digit.
fn next_digit(n: u64, digit: u8) -> Option<u64>
    ensures { result ≡ with_digit n digit }
{
    if digit < b'0' || digit > b'9' {
        return None;
    }
    n.checked_mul(10)?.checked_add(u64::from(digit - b'0'))
}

/// The number that the digits say.
#[tactic(auto, using(crate::proofs::WordLaws::number_from_none))]
fn digits(word: &[u8]) -> Option<u64>
    ensures { result ≡ number_from (Some 0) word.now }
{
    let mut n = 0u64;
    for digit in word {
        n = next_digit(n, *digit)?;
    }
    Some(n)
}

/// The number that a word is: `0`, or digits without a leading zero.
///
/// `None` if the word is anything else, or above the greatest `u64`.
pub fn number(word: &[u8]) -> Option<u64>
    ensures number { result ≡ number_in_text word.now }
    ensures exact { MatchOption result ((n : ℕ) → n < 2 ^ 64 → word.now ≢ decimal n) (λ n. word.now ≡ decimal n) }
{
    read_number(word)
}

/// The same number, digit by digit.
#[tactic(auto, unfolding(crate::specs::Words::number_in_text))]
fn read_number(word: &[u8]) -> Option<u64>
    ensures { result ≡ number_in_text word.now }
{
    match word {
        [] => None,
        [b'0', _, ..] => None,
        _ => digits(word),
    }
}
