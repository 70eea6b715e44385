//! The four escapes of names in lines, as in `/proc/pid/mountinfo`: space, tab, newline and backslash
//! are written `\040`, `\011`, `\012` and `\134`, and every other byte stands for itself.
ghost use Rattle.std.specs.Prelude.{◌≡◌, ℕ, ◌+◌, ◌<◌, ◌⊎◌, List, ◌++◌, length, IfOk, IfErr, OnOk, IsOkUnless, MatchOption, Some, None};
ghost use Rattle.std.specs.List.{list_any};
ghost use Rattle.std.specs.Option.{option_map};
ghost use Rattle.mt_skel.specs.Front.{IsFront};
ghost use Rattle.mt_skel.specs.Escapes.{has_escape, is_backslash, escaped, escaped_byte, byte_of_digits, unescaped, cons_to};

use crate::fault::Fault;
use std::alloc::{AllocError, Global};

/// The text of these bytes in a line.
pub fn escape(alloc: Global, bytes: &[u8]) -> Result<Vec<u8>, Fault>
    ensures text { IfOk result (λ text. text.items ≡ escaped bytes.now) }
    ensures memory { IsOkUnless result Fault.NoMemory }
{
    let mut text = Vec::new(alloc);
    push_escaped(&mut text, bytes)?;
    Ok(text)
}

/// Whether a byte is written as an escape.
fn has_escape(byte: u8) -> bool
    ensures { result ≡ has_escape byte }
{
    byte == b' ' || byte == b'\t' || byte == b'\n' || byte == b'\\'
}

/// Whether one of these bytes is written as an escape.
fn have_escapes(bytes: &[u8]) -> bool
    ensures { result ≡ list_any has_escape bytes.now }
{
    bytes.iter().any(|byte| has_escape(*byte))
}

/// Whether a text has a backslash, without which it stands for itself.
fn has_backslash(text: &[u8]) -> bool
    ensures { result ≡ list_any is_backslash text.now }
{
    text.iter().any(|byte| *byte == b'\\')
}

/// Appends the text of these bytes to a line.
#[tactic(auto, using(crate::proofs::EscapeLaws::bare_escaped))]
pub fn push_escaped(text: &mut Vec<u8>, bytes: &[u8]) -> Result<(), AllocError>
    ensures text { OnOk result (text.new.items ≡ text.old.items ++ escaped bytes.now) }
    ensures kept { IsFront text.old.items text.new.items }
{
    if !have_escapes(bytes) {
        text.extend_from_slice(bytes)?;
        return Ok(());
    }
    for byte in bytes {
        push_byte(text, *byte)?;
    }
    Ok(())
}

/// Appends the text of a byte.
fn push_byte(text: &mut Vec<u8>, byte: u8) -> Result<(), AllocError>
    ensures text { OnOk result (text.new.items ≡ text.old.items ++ escaped_byte byte) }
    ensures kept { IsFront text.old.items text.new.items }
{
    match byte {
        b' ' => text.extend_from_slice(b"\\040"),
        b'\t' => text.extend_from_slice(b"\\011"),
        b'\n' => text.extend_from_slice(b"\\012"),
        b'\\' => text.extend_from_slice(b"\\134"),
        _ => Ok(text.push(byte)?),
    }
}

/// The bytes that a text of a line stands for.
///
/// Refused as `BadLine` exactly where a backslash begins none of the four escapes, which is found
/// out without memory, and otherwise only as `NoMemory`.
#[tactic(auto, using(crate::proofs::EscapeLaws::bare_unescaped))]
pub fn unescape(alloc: Global, text: &[u8]) -> Result<Vec<u8>, Fault>
    ensures bytes { IfOk result (λ bytes. unescaped text.now ≡ Some bytes.items) }
    ensures bad { unescaped text.now ≡ None → result ≡ Err Fault.BadLine }
    ensures faults { IfErr result (λ fault. ((fault ≡ Fault.BadLine) × (unescaped text.now ≡ None)) ⊎ (fault ≡ Fault.NoMemory)) }
    ensures inverse { (bytes : List ℕ) → text.now ≡ escaped bytes → unescaped text.now ≡ Some bytes }
{
    if !has_backslash(text) {
        return Ok(text.to_vec(alloc)?);
    }
    let Some(length) = unescaped_len(text) else {
        return Err(Fault::BadLine);
    };
    let mut bytes = Vec::with_capacity(alloc, length)?;
    let mut rest = text;
    while let Some((byte, later)) = first_byte(rest) {
        bytes.push(byte)?;
        rest = later;
    }
    Ok(bytes)
}

/// How many bytes a text stands for, or `None` where a backslash begins no escape. Takes no memory.
#[tactic(auto, using(crate::proofs::EscapeLaws::bare_unescaped))]
pub fn unescaped_len(text: &[u8]) -> Option<usize>
    ensures { result ≡ option_map (λ bytes. length bytes) (unescaped text.now) }
{
    if !has_backslash(text) {
        return Some(text.len());
    }
    let mut length = 0usize;
    let mut rest = text;
    while !rest.is_empty() {
        let (_, later) = first_byte(rest)?;
        length += 1;
        rest = later;
    }
    Some(length)
}

/// The byte that three digits after a backslash stand for.
fn byte_of_digits(a: u8, b: u8, c: u8) -> Option<u8>
    ensures { result ≡ byte_of_digits a b c }
{
    match (a, b, c) {
        (b'0', b'4', b'0') => Some(b' '),
        (b'0', b'1', b'1') => Some(b'\t'),
        (b'0', b'1', b'2') => Some(b'\n'),
        (b'1', b'3', b'4') => Some(b'\\'),
        _ => None,
    }
}

/// The first byte that a text stands for, and the text after it; None at the end, and where a
/// backslash begins no escape.
#[tactic(auto, using(crate::proofs::EscapeLaws::first_plain, crate::proofs::EscapeLaws::first_short))]
fn first_byte(text: &[u8]) -> Option<(u8, &[u8])>
    ensures first { MatchOption result (0 < length text.now → unescaped text.now ≡ None) (λ p. unescaped text.now ≡ cons_to (Some p.0) (unescaped p.1.now)) }
    ensures shorter { MatchOption result (Unit {0}) (λ p. length p.1.now < length text.now) }
{
    if text.is_empty() {
        return None;
    }
    let first = text[0];
    let rest = &text[1..];
    if first != b'\\' {
        return Some((first, rest));
    }
    if rest.len() < 3 {
        return None;
    }
    match byte_of_digits(rest[0], rest[1], rest[2]) {
        Some(byte) => Some((byte, &rest[3..])),
        None => None,
    }
}
