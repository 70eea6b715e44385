//! Text for a terminal: strangers' bytes as it is given them, and how many cells they take.
ghost use Rattle.std.specs.Prelude.{◌≡◌, ◌<◌, ◌≤◌, ◌++◌, OnOk, IfOk};
ghost use Rattle.std.specs.List.{flat_map};
ghost use Rattle.mt_terminal.specs.Terminal.{hex_digit, hex_byte, is_control, is_hidden, is_obeyed, piece_text, terminal_text, character_cells, cells_of_text};

use bstr::decode_utf8;
use std::alloc::{AllocError, Global};
use unicode_width::UnicodeWidthChar;

/// A hexadecimal digit.
pub(crate) fn hex_digit(n: u8) -> u8
    requires { n < 16 }
    ensures { result ≡ hex_digit n }
{
    if n < 10 { b'0' + n } else { b'a' + (n - 10) }
}

/// Appends a byte in hexadecimal digits.
fn push_hex(text: &mut Vec<u8>, byte: u8) -> Result<(), AllocError>
    ensures { OnOk result (text.new.items ≡ text.old.items ++ hex_byte byte) }
{
    text.extend_from_slice(b"\\x")?;
    text.push(hex_digit(byte / 16))?;
    text.push(hex_digit(byte % 16))?;
    Ok(())
}

/// Appends bytes in hexadecimal digits.
fn push_hexes(text: &mut Vec<u8>, bytes: &[u8]) -> Result<(), AllocError>
    ensures { OnOk result (text.new.items ≡ text.old.items ++ flat_map hex_byte bytes.now) }
{
    'bytes: for byte in bytes {
        push_hex(text, *byte)?;
    }
    Ok(())
}

/// Whether a character is a control of ASCII, or one of those behind them.
fn is_control(code: u32) -> bool
    ensures { result ≡ is_control code }
{
    code < 32 || (127 <= code && code <= 159)
}

/// Whether a character turns the direction of text, separates lines or paragraphs, or is a byte order mark.
fn is_hidden(code: u32) -> bool
    ensures { result ≡ is_hidden code }
{
    code == 0x061c
        || (0x200e <= code && code <= 0x200f)
        || (0x2028 <= code && code <= 0x202e)
        || (0x2066 <= code && code <= 0x2069)
        || code == 0xfeff
}

/// Whether a terminal obeys a character, so that a text with it looks as another one: a control, a character that turns
/// the direction of text, a separator of lines or paragraphs, or a byte order mark.
pub(crate) fn is_obeyed(character: char) -> bool
    ensures { result ≡ is_obeyed character }
{
    let code = u32::from(character);
    is_control(code) || is_hidden(code)
}

/// Appends the bytes of a character, or of what is none.
fn push_piece(text: &mut Vec<u8>, character: Option<char>, bytes: &[u8]) -> Result<(), AllocError>
    ensures { OnOk result (text.new.items ≡ text.old.items ++ piece_text character bytes.now) }
{
    match character {
        Some(character) if !is_obeyed(character) => text.extend_from_slice(bytes),
        _ => push_hexes(text, bytes),
    }
}

/// Bytes as a terminal is given them: characters of UTF-8 stand as they are, but for those that a terminal obeys, which are
/// written as `\x` and two hexadecimal digits for each byte, and so is each byte that is of no character. Fails for want of
/// memory alone.
#[tactic(auto, using(crate::proofs::SizeLaws::size_within), unfolding(crate::specs::Terminal::terminal_text))]
pub fn terminal_text(alloc: Global, bytes: &[u8]) -> Result<Vec<u8>, AllocError>
    ensures { IfOk result (λ text. text.items ≡ terminal_text bytes.now) }
{
    let mut text = Vec::new(alloc);
    let mut rest = bytes;
    'bytes: for _byte in bytes {
        let (character, size) = decode_utf8(rest);
        let (piece, behind) = rest.split_at(size);
        push_piece(&mut text, character, piece)?;
        rest = behind;
    }
    Ok(text)
}

/// How many cells of a line a character takes.
fn character_cells(character: Option<char>) -> usize
    ensures { (result ≡ character_cells character) × (result ≤ 2) }
{
    match character {
        Some(character) => character.width().unwrap_or(0).min(2),
        None => 0,
    }
}

/// How many cells of a line a text takes: two for a wide character, none for one that combines with the one before it or
/// that a terminal obeys, nor for bytes that are no character, and one for any other.
#[tactic(auto, using(crate::proofs::SizeLaws::size_within), unfolding(crate::specs::Terminal::cells_of_text))]
pub fn cells_of_text(text: &[u8]) -> usize
    ensures { result ≡ cells_of_text text.now }
{
    let mut rest = text;
    let mut count = 0usize;
    'bytes: for _byte in text {
        let (character, size) = decode_utf8(rest);
        let (_piece, behind) = rest.split_at(size);
        count += character_cells(character);
        rest = behind;
    }
    count
}
