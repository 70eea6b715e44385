//! Texts that are cut at a byte, and what stands in front of them.
ghost use Rattle.std.specs.Prelude.{◌≡◌, ◌≤◌, length};
ghost use Rattle.std.specs.Option.{option_copied, option_map};
ghost use Rattle.mt_strace.specs.Cuts.{until_byte, cut_at, number_cut, without_spaces, stripped};
ghost use Rattle.mt_strace.specs.Strings.{stripped_end};

use mt_lines::words::{Pieces, number};

/// What stands before the first of a byte, or the whole text.
pub(crate) fn until_byte(separator: u8, text: &[u8]) -> &[u8]
    ensures piece { result.now ≡ until_byte separator text.now }
    ensures bound { length result.now ≤ length text.now }
{
    match Pieces::new(separator, text).next() {
        Some(piece) => piece,
        None => &[],
    }
}

/// A text cut at the first of a byte: what stands before it and behind it. `None` if the text has no such byte.
pub(crate) fn cut_at(separator: u8, text: &[u8]) -> Option<(&[u8], &[u8])>
    ensures { option_map (λ (front, behind). (front.now, behind.now)) result ≡ cut_at separator text.now }
{
    let front = until_byte(separator, text);
    if front.len() < text.len() {
        Some((front, &text[front.len() + 1..]))
    } else {
        None
    }
}

/// A number before the first of a byte, and what stands behind that.
pub(crate) fn number_cut(separator: u8, text: &[u8]) -> Option<(u64, &[u8])>
    ensures { option_map (λ (n, behind). (n, behind.now)) result ≡ number_cut separator text.now }
{
    let (word, behind) = cut_at(separator, text)?;
    let n = number(word)?;
    Some((n, behind))
}

/// A text without the spaces in front.
pub(crate) fn without_spaces(text: &[u8]) -> &[u8]
    ensures { result.now ≡ without_spaces text.now }
{
    for (i, byte) in text.iter().enumerate() {
        if *byte != b' ' {
            return &text[i..];
        }
    }
    &[]
}

/// What stands behind these bytes in front of a text, if they are there.
pub(crate) fn stripped<'a>(front: &[u8], text: &'a [u8]) -> Option<&'a [u8]>
    ensures { option_copied result ≡ stripped front.now text.now }
{
    text.strip_prefix(front)
}

/// A text without these bytes at its end, if they are there.
pub(crate) fn stripped_end<'a>(end: &[u8], text: &'a [u8]) -> Option<&'a [u8]>
    ensures { option_copied result ≡ stripped_end end.now text.now }
{
    text.strip_suffix(end)
}
