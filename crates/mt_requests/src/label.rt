//! Labels, as words give them.
ghost use Rattle.std.specs.Prelude.{◌≡◌, ◌==◌, None, IfOk, IsOkUnless};
ghost use Rattle.std.specs.List.{list_any};
ghost use Rattle.mt_requests.specs.Requests.{text_length, label_fault, label_bytes};

use mt_skel::escape::{unescape, unescaped_len};
use mt_skel::fault::Fault;
use mt_skel::name::Label;
use std::alloc::Global;

/// Whether a byte is among these.
pub(crate) fn has_byte(bytes: &[u8], byte: u8) -> bool
    ensures { result ≡ list_any (λ b. b == byte) bytes.now }
{
    bytes.iter().any(|here| *here == byte)
}

/// How many bytes a word stands for. Takes no memory.
///
/// `None` if it is empty, has a zero byte, or has a backslash that begins no escape.
pub(crate) fn text_length(word: &[u8]) -> Option<usize>
    ensures { result ≡ text_length word.now }
{
    if word.is_empty() || has_byte(word, 0) {
        return None;
    }
    unescaped_len(word)
}

/// Why a word is not a label, if it is not. Takes no memory.
pub(crate) fn label_fault(word: &[u8]) -> Option<Fault>
    ensures { result ≡ label_fault word.now }
{
    match text_length(word) {
        None => Some(Fault::BadLine),
        Some(length) if length > 255 => Some(Fault::TooLong),
        Some(_) => None,
    }
}

/// The label that a word without a fault gives: the word itself, if it has no escape.
pub(crate) fn label_of(alloc: Global, word: &[u8]) -> Result<Label, Fault>
    requires { label_fault word.now ≡ None }
    ensures label { IfOk result (λ label. label ≡ label_bytes word.now) }
    ensures memory { IsOkUnless result Fault.NoMemory }
{
    if !has_byte(word, b'\\') {
        return Label::of(alloc, word);
    }
    let bytes = unescape(alloc, word)?;
    match Label::new(bytes) {
        Ok(label) => Ok(label),
        Err(_) => unreachable!(),
    }
}
