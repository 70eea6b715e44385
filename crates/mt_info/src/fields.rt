//! The fields of a line, read back from their words.
ghost use Rattle.std.specs.Prelude.{◌≡◌, ◌≢◌, ℕ, ◌<◌, ◌^◌, ◌++◌, List, map, IfOk, IfErr, IsTrue, codes, decimal};
ghost use Rattle.std.specs.List.{list_all};
ghost use Rattle.mt_skel.specs.Names.{is_label, is_name};
ghost use Rattle.mt_skel.specs.Escapes.{escaped};
ghost use Rattle.mt_lines.specs.Words.{pieces};
ghost use Rattle.mt_info.specs.RowLine.{path_text};
ghost use Rattle.mt_info.specs.Reading.{is_bare};

use mt_lines::words::{Pieces, number};
use mt_skel::escape::unescape;
use mt_skel::fault::Fault;
use mt_skel::name::{Label, Name};
use mt_skel::names::Names;
use mt_skel::skel::FsId;
use std::alloc::Global;

/// The number that a word is in decimal digits.
///
/// Refused as `BadLine` exactly where no number below 2^64 is written like this: an empty word, one with a byte that is
/// not a digit, one with a zero before other digits, or one of too great a number.
pub fn read_number(word: &[u8]) -> Result<u64, Fault>
    ensures number { IfOk result (λ n. word.now ≡ decimal n) }
    ensures small { IfOk result (λ n. n < 2 ^ 64) }
    ensures refused { IfErr result (λ fault. (fault ≡ Fault.BadLine) × ((n : ℕ) → n < 2 ^ 64 → word.now ≢ decimal n)) }
{
    match number(word) {
        Some(number) => Ok(number),
        None => Err(Fault::BadLine),
    }
}

/// The minor number of a device whose major number is zero.
pub(crate) fn read_minor(word: &[u8]) -> Result<FsId, Fault>
    ensures minor { IfOk result (λ n. word.now ≡ codes "0:" ++ decimal n) }
    ensures small { IfOk result (λ n. n < 2 ^ 64) }
    ensures refused { IfErr result (λ fault. (fault ≡ Fault.BadLine) × ((n : ℕ) → n < 2 ^ 64 → word.now ≢ codes "0:" ++ decimal n)) }
{
    match word {
        [b'0', b':', digits @ ..] => read_number(digits),
        _ => Err(Fault::BadLine),
    }
}

/// Whether there is no byte that a line writes as an escape: space, tab or newline.
fn is_bare(word: &[u8]) -> bool
    ensures { result ≡ list_all is_bare word.now }
{
    word.iter()
        .all(|byte| *byte != b' ' && *byte != b'\t' && *byte != b'\n')
}

/// The bytes that a word says. Each byte has one spelling. Refused as `BadLine` and as `NoMemory`.
fn read_text(alloc: Global, word: &[u8]) -> Result<Vec<u8>, Fault>
    ensures text { IfOk result (λ bytes. word.now ≡ escaped bytes.items) }
    ensures refused { IfErr result (λ fault. fault ≢ Fault.NoMemory → (fault ≡ Fault.BadLine) × ((bytes : List ℕ) → word.now ≢ escaped bytes)) }
{
    if !is_bare(word) {
        return Err(Fault::BadLine);
    }
    let bytes = unescape(alloc, word)?;
    Ok(bytes)
}

/// The label that a word says.
pub(crate) fn read_label(alloc: Global, word: &[u8]) -> Result<Label, Fault>
    ensures label { IfOk result (λ label. word.now ≡ escaped label) }
    ensures valid { IfOk result (λ label. IsTrue (is_label label)) }
    ensures refused { IfErr result (λ fault. fault ≢ Fault.NoMemory → (fault ≡ Fault.BadLine) × ((label : List ℕ) → IsTrue (is_label label) → word.now ≢ escaped label)) }
{
    let bytes = read_text(alloc, word)?;
    match Label::new(bytes) {
        Ok(label) => Ok(label),
        Err(_) => Err(Fault::BadLine),
    }
}

/// The name that a piece of a path says.
fn read_name(alloc: Global, piece: &[u8]) -> Result<Name, Fault>
    ensures name { IfOk result (λ name. piece.now ≡ escaped name) }
    ensures valid { IfOk result (λ name. IsTrue (is_name name)) }
    ensures refused { IfErr result (λ fault. fault ≢ Fault.NoMemory → (fault ≡ Fault.BadLine) × ((name : List ℕ) → IsTrue (is_name name) → piece.now ≢ escaped name)) }
{
    let bytes = read_text(alloc, piece)?;
    match Name::new(bytes) {
        Ok(name) => Ok(name),
        Err(_) => Err(Fault::BadLine),
    }
}

/// The names that stand between slashes.
fn read_names(alloc: Global, text: &[u8]) -> Result<Names, Fault>
    ensures names { IfOk result (λ names. pieces 47 text.now ≡ map escaped names) }
    ensures valid { IfOk result (λ names. IsTrue (list_all is_name names)) }
    ensures refused { IfErr result (λ fault. fault ≢ Fault.NoMemory → (fault ≡ Fault.BadLine) × ((names : List (List ℕ)) → IsTrue (list_all is_name names) → pieces 47 text.now ≢ map escaped names)) }
{
    let mut names = Names::root(alloc);
    let mut pieces = Pieces::new(b'/', text);
    'pieces: while let Some(piece) = pieces.next() {
        let name = read_name(alloc, piece)?;
        names = names.with(&name)?;
    }
    Ok(names)
}

/// The names of the path that a word says.
pub(crate) fn read_path(alloc: Global, word: &[u8]) -> Result<Names, Fault>
    ensures path { IfOk result (λ names. word.now ≡ path_text names) }
    ensures valid { IfOk result (λ names. IsTrue (list_all is_name names)) }
    ensures refused { IfErr result (λ fault. fault ≢ Fault.NoMemory → (fault ≡ Fault.BadLine) × ((names : List (List ℕ)) → IsTrue (list_all is_name names) → word.now ≢ path_text names)) }
{
    let Some((first, text)) = word.split_first() else {
        return Err(Fault::BadLine);
    };
    if *first != b'/' {
        return Err(Fault::BadLine);
    }
    if text.is_empty() {
        return Ok(Names::root(alloc));
    }
    let names = read_names(alloc, text)?;
    Ok(names)
}
