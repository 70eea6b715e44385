//! The strings of strace, which has them as C has them.
ghost use Rattle.std.specs.Prelude.{◌≡◌, ◌++◌, IfOk, OnOk};
ghost use Rattle.std.specs.Option.{option_map};
ghost use Rattle.mt_strace.specs.Strings.{byte_of_letter, hex_value, is_octal, with_octal, silent_step, giving_step, plain_step, begun_step, onto_step, one_step, two_step, with_hex, hex_step, last_hex_step, escape_step, escape_end, given_bytes, unescaped_bytes, between_quotes, string_of};

use crate::cut::{stripped, stripped_end};
use std::alloc::{AllocError, Global};
use std::marker::Model;

/// What the bytes before one say of it.
#[derive(Clone, Copy, PartialEq, Eq, Debug)]
enum Escape {
    /// No escape has begun.
    Plain,
    /// There is a backslash.
    Begun,
    /// There is a backslash and an octal digit, of this value.
    OneDigit(u8),
    /// There are two octal digits.
    TwoDigits(u8),
    /// There is a backslash and `x`.
    Hex,
    /// There is a hexadecimal digit behind these.
    HexDigit(u8),
}

/// What a byte gives, and what it says of the next one.
#[derive(Clone, Copy, PartialEq, Eq, Debug)]
struct EscapeStep {
    first: Option<u8>,
    second: Option<u8>,
    next: Escape,
}

/// A string, without its quotes and escapes.
#[derive(Drop)]
pub struct Quoted {
    /// Its bytes.
    pub bytes: Vec<u8>,
    /// Whether they are all of them: of a long string strace has as many bytes as `-s` says, but of a path of its own all.
    pub is_whole: bool,
}

impl Model for Quoted {
    ghost use Rattle.mt_strace.specs.Strings.{ToldString};

    ghost Value = { ToldString };

    ghost view = { λ q. record { bytes = q.bytes.items; is_whole = q.is_whole } };
}

/// The byte that a letter after a backslash stands for.
fn byte_of_letter(byte: u8) -> Option<u8>
    ensures { result ≡ byte_of_letter byte }
{
    match byte {
        b'n' => Some(b'\n'),
        b't' => Some(b'\t'),
        b'r' => Some(b'\r'),
        b'v' => Some(11),
        b'f' => Some(12),
        b'"' => Some(b'"'),
        b'\\' => Some(b'\\'),
        _ => None,
    }
}

/// The number of a hexadecimal digit.
pub(crate) fn hex_value(byte: u8) -> Option<u8>
    ensures { result ≡ hex_value byte }
{
    if b'0' <= byte && byte <= b'9' {
        Some(byte - b'0')
    } else if b'a' <= byte && byte <= b'f' {
        Some(byte - 87)
    } else {
        None
    }
}

/// Whether a byte is an octal digit.
fn is_octal(byte: u8) -> bool
    ensures { result ≡ is_octal byte }
{
    b'0' <= byte && byte <= b'7'
}

/// A byte with one more octal digit, as far as it is one.
fn with_octal(n: u8, byte: u8) -> Option<u8>
    ensures { result ≡ with_octal n byte }
{
    n.checked_mul(8)?.checked_add(byte.saturating_sub(b'0'))
}

/// A byte with one more hexadecimal digit, as far as it is one.
fn with_hex(n: u8, digit: u8) -> Option<u8>
    ensures { result ≡ with_hex n digit }
{
    n.checked_mul(16)?.checked_add(digit)
}

/// A step that gives no byte.
fn silent_step(next: Escape) -> Option<EscapeStep>
    ensures { result ≡ silent_step next }
{
    Some(EscapeStep {
        first: None,
        second: None,
        next,
    })
}

/// A step that gives a byte, and ends an escape if one has begun.
fn giving_step(byte: u8) -> Option<EscapeStep>
    ensures { result ≡ giving_step byte }
{
    Some(EscapeStep {
        first: Some(byte),
        second: None,
        next: Escape::Plain,
    })
}

/// The step of a byte that no backslash stands before.
fn plain_step(byte: u8) -> Option<EscapeStep>
    ensures { result ≡ plain_step byte }
{
    match byte {
        b'"' => None,
        b'\\' => silent_step(Escape::Begun),
        _ => giving_step(byte),
    }
}

/// The step of a byte after a backslash.
fn begun_step(byte: u8) -> Option<EscapeStep>
    ensures { result ≡ begun_step byte }
{
    if is_octal(byte) {
        return silent_step(Escape::OneDigit(byte - b'0'));
    }
    if byte == b'x' {
        return silent_step(Escape::Hex);
    }
    giving_step(byte_of_letter(byte)?)
}

/// The step of a byte that ends an escape, which gives a byte too.
fn onto_step(byte: u8, step: Option<EscapeStep>) -> Option<EscapeStep>
    ensures { result ≡ onto_step byte step }
{
    let step = step?;
    Some(EscapeStep {
        first: Some(byte),
        second: step.first,
        next: step.next,
    })
}

/// The step of a byte after one octal digit.
fn one_step(n: u8, byte: u8) -> Option<EscapeStep>
    ensures { result ≡ one_step n byte }
{
    if is_octal(byte) {
        silent_step(Escape::TwoDigits(with_octal(n, byte)?))
    } else {
        onto_step(n, plain_step(byte))
    }
}

/// The step of a byte after two octal digits.
fn two_step(n: u8, byte: u8) -> Option<EscapeStep>
    ensures { result ≡ two_step n byte }
{
    if is_octal(byte) {
        giving_step(with_octal(n, byte)?)
    } else {
        onto_step(n, plain_step(byte))
    }
}

/// The step of a byte after `\x`.
fn hex_step(byte: u8) -> Option<EscapeStep>
    ensures { result ≡ hex_step byte }
{
    silent_step(Escape::HexDigit(hex_value(byte)?))
}

/// The step of a byte after `\x` and one digit.
fn last_hex_step(n: u8, byte: u8) -> Option<EscapeStep>
    ensures { result ≡ last_hex_step n byte }
{
    giving_step(with_hex(n, hex_value(byte)?)?)
}

/// The step of a byte.
fn escape_step(escape: Escape, byte: u8) -> Option<EscapeStep>
    ensures { result ≡ escape_step escape byte }
{
    match escape {
        Escape::Plain => plain_step(byte),
        Escape::Begun => begun_step(byte),
        Escape::OneDigit(n) => one_step(n, byte),
        Escape::TwoDigits(n) => two_step(n, byte),
        Escape::Hex => hex_step(byte),
        Escape::HexDigit(n) => last_hex_step(n, byte),
    }
}

/// Appends what a step gives.
fn push_step(bytes: &mut Vec<u8>, step: EscapeStep) -> Result<(), AllocError>
    ensures { OnOk result (bytes.new.items ≡ bytes.old.items ++ given_bytes step.first step.second) }
{
    let Some(first) = step.first else {
        return Ok(());
    };
    bytes.push(first)?;
    let Some(second) = step.second else {
        return Ok(());
    };
    bytes.push(second)?;
    Ok(())
}

/// What the end of a text gives, if nothing of an escape is missing.
fn escape_end(alloc: Global, escape: Escape) -> Result<Option<Vec<u8>>, AllocError>
    ensures { IfOk result (λ last. option_map (λ bytes. bytes.items) last ≡ escape_end escape) }
{
    match escape {
        Escape::Plain => Ok(Some(Vec::new(alloc))),
        Escape::Begun => Ok(None),
        Escape::OneDigit(n) => Ok(Some(Vec::from_slice(alloc, &[n])?)),
        Escape::TwoDigits(n) => Ok(Some(Vec::from_slice(alloc, &[n])?)),
        Escape::Hex => Ok(None),
        Escape::HexDigit(_n) => Ok(None),
    }
}

/// The bytes that a text with escapes stands for: `\"`, `\\`, `\n`, `\t`, `\r`, `\v`, `\f`, one to three octal digits, and `\x`
/// with two hexadecimal ones. `None` where a backslash begins none of these, or a quote stands without one. Fails for want of
/// memory alone.
pub fn unescaped_bytes(alloc: Global, text: &[u8]) -> Result<Option<Vec<u8>>, AllocError>
    ensures { IfOk result (λ found. option_map (λ bytes. bytes.items) found ≡ unescaped_bytes text.now) }
{
    let mut bytes = Vec::new(alloc);
    let mut escape = Escape::Plain;
    for byte in text {
        let Some(step) = escape_step(escape, *byte) else {
            return Ok(None);
        };
        push_step(&mut bytes, step)?;
        escape = step.next;
    }
    let Some(last) = escape_end(alloc, escape)? else {
        return Ok(None);
    };
    bytes.extend_from_slice(last.as_slice())?;
    Ok(Some(bytes))
}

/// What stands between the quotes of a string, and whether it is whole.
fn between_quotes(argument: &[u8]) -> Option<(&[u8], bool)>
    ensures { option_map (λ (text, is_whole). (text.now, is_whole)) result ≡ between_quotes argument.now }
{
    let behind = stripped(b"\"", argument)?;
    if let Some(text) = stripped_end(b"\"...", behind) {
        return Some((text, false));
    }
    let text = stripped_end(b"\"", behind)?;
    Some((text, true))
}

/// The string that an argument is. `None` if it is none, as `NULL` or an address. Fails for want of memory alone.
pub fn read_string(alloc: Global, argument: &[u8]) -> Result<Option<Quoted>, AllocError>
    ensures { IfOk result (λ found. found ≡ string_of argument.now) }
{
    let Some((text, is_whole)) = between_quotes(argument) else {
        return Ok(None);
    };
    let Some(bytes) = unescaped_bytes(alloc, text)? else {
        return Ok(None);
    };
    Ok(Some(Quoted { bytes, is_whole }))
}
