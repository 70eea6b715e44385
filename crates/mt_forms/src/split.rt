//! Words of a text, as a shell makes them of a command, without any expansion.
ghost use Rattle.std.specs.Prelude.{◌≡◌, ◌∷◌, ◌++◌, map, OnOk, IfOk};
ghost use Rattle.std.specs.List.{flat_map};
ghost use Rattle.std.specs.Option.{option_map};
ghost use Rattle.mt_forms.specs.Splitting.{start, is_blank, is_kept, inside_word, next_byte, is_closed, unless_left_out, emitted_bare, emitted_escaped, emitted, split_text, joined_text};

use std::alloc::{AllocError, Global};

/// In which quotes a byte stands.
#[derive(Clone, Copy)]
enum Quotes {
    None,
    Single,
    Double,
}

/// What the bytes before one say of it.
#[derive(Clone, Copy)]
struct Before {
    quotes: Quotes,
    /// Whether a backslash stands in front.
    is_escaped: bool,
    /// Whether a word has begun that has not ended.
    is_inside: bool,
    /// Whether a word has begun at all.
    has_word: bool,
}

/// What stands before a text: nothing.
fn start() -> Before
    ensures { result ≡ start }
{
    Before {
        quotes: Quotes::None,
        is_escaped: false,
        is_inside: false,
        has_word: false,
    }
}

/// Whether a byte stands between words.
fn is_blank(byte: u8) -> bool
    ensures { result ≡ is_blank byte }
{
    byte == b' ' || byte == b'\t' || byte == b'\n'
}

/// Whether a backslash in double quotes stands for nothing before a byte.
fn is_kept(byte: u8) -> bool
    ensures { result ≡ is_kept byte }
{
    byte == b'"' || byte == b'\\' || byte == b'$' || byte == b'`'
}

impl Before {
    /// The same, where a word has begun.
    fn inside_word(self) -> Before
        ensures { result ≡ inside_word self }
    {
        Before {
            is_inside: true,
            has_word: true,
            ..self
        }
    }

    /// What the bytes up to this one say of the next.
    fn next_byte(self, byte: u8) -> Before
        ensures { result ≡ next_byte self byte }
    {
        if self.is_escaped {
            return Before {
                is_escaped: false,
                ..self
            };
        }
        match self.quotes {
            Quotes::None => {
                if is_blank(byte) {
                    return Before {
                        is_inside: false,
                        ..self
                    };
                }
                if byte == b'\'' {
                    return Before {
                        quotes: Quotes::Single,
                        ..self.inside_word()
                    };
                }
                if byte == b'"' {
                    return Before {
                        quotes: Quotes::Double,
                        ..self.inside_word()
                    };
                }
                Before {
                    is_escaped: byte == b'\\',
                    ..self.inside_word()
                }
            }
            Quotes::Single => {
                if byte == b'\'' {
                    return Before {
                        quotes: Quotes::None,
                        ..self
                    };
                }
                self
            }
            Quotes::Double => {
                if byte == b'"' {
                    return Before {
                        quotes: Quotes::None,
                        ..self
                    };
                }
                Before {
                    is_escaped: byte == b'\\',
                    ..self
                }
            }
        }
    }

    /// Whether no quote is open, and no backslash is the last byte.
    fn is_closed(self) -> bool
        ensures { result ≡ is_closed self }
    {
        matches!(self.quotes, Quotes::None) && !self.is_escaped
    }
}

/// Appends a byte, unless it is left out.
fn push_unless(text: &mut Vec<u8>, byte: u8, is_left_out: bool) -> Result<(), AllocError>
    ensures { OnOk result (text.new.items ≡ text.old.items ++ unless_left_out byte is_left_out) }
{
    if is_left_out {
        return Ok(());
    }
    text.push(byte)?;
    Ok(())
}

/// Appends what a byte outside of quotes gives: itself, and a zero byte in front where it begins another word.
fn push_bare(text: &mut Vec<u8>, before: Before, byte: u8) -> Result<(), AllocError>
    ensures { OnOk result (text.new.items ≡ text.old.items ++ emitted_bare before byte) }
{
    if is_blank(byte) {
        return Ok(());
    }
    push_unless(text, 0, before.is_inside || !before.has_word)?;
    push_unless(text, byte, byte == b'\'' || byte == b'"' || byte == b'\\')?;
    Ok(())
}

/// Appends what a byte after a backslash gives: itself, and the backslash in front where quotes keep it.
fn push_escaped_byte(text: &mut Vec<u8>, before: Before, byte: u8) -> Result<(), AllocError>
    ensures { OnOk result (text.new.items ≡ text.old.items ++ emitted_escaped before byte) }
{
    push_unless(
        text,
        b'\\',
        !matches!(before.quotes, Quotes::Double) || is_kept(byte),
    )?;
    text.push(byte)?;
    Ok(())
}

/// Appends what a byte gives.
fn push_byte(text: &mut Vec<u8>, before: Before, byte: u8) -> Result<(), AllocError>
    ensures { OnOk result (text.new.items ≡ text.old.items ++ emitted before byte) }
{
    if before.is_escaped {
        return push_escaped_byte(text, before, byte);
    }
    match before.quotes {
        Quotes::None => push_bare(text, before, byte),
        Quotes::Single => push_unless(text, byte, byte == b'\''),
        Quotes::Double => push_unless(text, byte, byte == b'"' || byte == b'\\'),
    }
}

/// The words of a text, with a zero byte between two, as `/proc/pid/cmdline` has them between its ends. None where a quote is
/// not closed, or a backslash is the last byte. Fails for want of memory alone.
///
/// Words stand between spaces, tabs and line ends. What stands between single quotes is as it is; between double quotes a
/// backslash stands for nothing before `"`, `\`, `$` and a backquote; elsewhere it stands for nothing (sh(1), quoting).
/// Nothing is expanded.
pub fn split_line(alloc: Global, line: &[u8]) -> Result<Option<Vec<u8>>, AllocError>
    ensures { IfOk result (λ text. option_map (λ words. words.items) text ≡ split_text line.now) }
{
    let mut text = Vec::new(alloc);
    let mut before = start();
    for byte in line {
        push_byte(&mut text, before, *byte)?;
        before = before.next_byte(*byte);
    }
    if before.is_closed() {
        Ok(Some(text))
    } else {
        Ok(None)
    }
}

/// Appends a word.
fn push_word(text: &mut Vec<u8>, word: &str) -> Result<(), AllocError>
    ensures { OnOk result (text.new.items ≡ text.old.items ++ word.now) }
{
    text.extend_from_slice(word.as_bytes())
}

/// Appends words, each after a zero byte.
fn push_words(text: &mut Vec<u8>, words: &[&str]) -> Result<(), AllocError>
    ensures { OnOk result (text.new.items ≡ text.old.items ++ flat_map (λ word. 0 ∷ word.now) words.now) }
{
    'words: for word in words {
        text.push(0)?;
        push_word(text, word)?;
    }
    Ok(())
}

/// Words with a zero byte between two, for [`mt_lines::words::Pieces`] at zero bytes. Fails for want of memory alone.
pub fn joined_words(alloc: Global, words: &[&str]) -> Result<Vec<u8>, AllocError>
    ensures { IfOk result (λ text. text.items ≡ joined_text (map (λ word. word.now) words.now)) }
{
    let mut text = Vec::new(alloc);
    let Some((first, others)) = words.split_first() else {
        return Ok(text);
    };
    push_word(&mut text, first)?;
    push_words(&mut text, others)?;
    Ok(text)
}
