//! Paths, as words give them.
ghost use Rattle.std.specs.Prelude.{◌≡◌, ◌&&◌, not, nat_eq, nat_lt, false, true, codes, length, map, None, IsSome, IfOk, IsOkUnless};
ghost use Rattle.std.specs.List.{list_any, list_all};
ghost use Rattle.std.specs.Option.{option_map_or};
ghost use Rattle.std.specs.Str.{bytes_eq};
ghost use Rattle.mt_skel.specs.Escapes.{unescaped};
ghost use Rattle.mt_skel.specs.Names.{is_name};
ghost use Rattle.mt_lines.specs.Words.{pieces};
ghost use Rattle.mt_requests.specs.Requests.{text_length, label_bytes, path_fault, path_names, has_long_piece, is_path};

use crate::label::{has_byte, text_length};
use mt_lines::words::Pieces;
use mt_skel::escape::{unescape, unescaped_len};
use mt_skel::fault::Fault;
use mt_skel::name::Name;
use mt_skel::names::Names;
use std::alloc::Global;

/// Whether a piece stands for more than 255 bytes.
fn is_long(piece: &[u8]) -> bool
    ensures { result ≡ option_map_or (λ bytes. nat_lt 255 (length bytes)) (unescaped piece.now) false }
{
    match unescaped_len(piece) {
        Some(length) => length > 255,
        None => false,
    }
}

/// Whether a piece between the slashes of a word stands for more than 255 bytes.
fn has_long_piece(word: &[u8]) -> bool
    ensures { result ≡ list_any
        (λ piece. option_map_or (λ bytes. nat_lt 255 (length bytes)) (unescaped piece) false)
        (pieces 47 word.now) }
{
    Pieces::new(b'/', word).any(|piece| is_long(piece))
}

/// Whether a piece is neither empty nor `.` nor `..`.
fn is_component(piece: &[u8]) -> bool
    ensures { result ≡ (not (nat_eq (length piece.now) 0)
        && not (bytes_eq piece.now (codes ".")) && not (bytes_eq piece.now (codes ".."))) }
{
    !piece.is_empty() && piece != b".".as_slice() && piece != b"..".as_slice()
}

/// Whether each piece between slashes is neither empty nor `.` nor `..`.
fn has_only_components(text: &[u8]) -> bool
    ensures { result ≡ list_all
        (λ piece. not (nat_eq (length piece) 0)
        && not (bytes_eq piece (codes ".")) && not (bytes_eq piece (codes "..")))
        (pieces 47 text.now) }
{
    Pieces::new(b'/', text).all(|piece| is_component(piece))
}

/// Why a word is not a path, if it is not. Takes no memory.
#[tactic(auto, using(crate::proofs::PathLaws::long_pieces))]
pub(crate) fn path_fault(word: &[u8]) -> Option<Fault>
    ensures { result ≡ path_fault word.now }
{
    let Some(length) = text_length(word) else {
        return Some(Fault::BadLine);
    };
    if length > 4095 || has_long_piece(word) {
        return Some(Fault::TooLong);
    }
    if is_path(word) {
        None
    } else {
        Some(Fault::BadPath)
    }
}

/// Whether a word without long pieces is a path.
fn is_path(word: &[u8]) -> bool
    requires text { IsSome (text_length word.now) }
    requires short { has_long_piece (label_bytes word.now) ≡ false }
    ensures { result ≡ is_path (label_bytes word.now) }
{
    if word[0] != b'/' {
        return false;
    }
    if word.len() == 1 {
        return true;
    }
    has_only_components(&word[1..])
}

/// The name that a piece of a word gives.
fn name_of(alloc: Global, piece: &[u8]) -> Result<Name, Fault>
    requires { option_map_or is_name (unescaped piece.now) false ≡ true }
    ensures name { IfOk result (λ name. name ≡ label_bytes piece.now) }
    ensures memory { IsOkUnless result Fault.NoMemory }
{
    let bytes = unescape(alloc, piece)?;
    match Name::new(bytes) {
        Ok(name) => Ok(name),
        Err(_) => unreachable!(),
    }
}

/// The names between slashes: as they are, if the text has no escape.
fn names_between(alloc: Global, text: &[u8]) -> Result<Names, Fault>
    requires { list_all (λ piece. option_map_or is_name (unescaped piece) false) (pieces 47 text.now) ≡ true }
    ensures names { IfOk result (λ names. names ≡ map label_bytes (pieces 47 text.now)) }
    ensures memory { IsOkUnless result Fault.NoMemory }
{
    if !has_byte(text, b'\\') {
        return Names::between(alloc, text);
    }
    let mut names = Names::root(alloc);
    let mut pieces = Pieces::new(b'/', text);
    while let Some(piece) = pieces.next() {
        let name = name_of(alloc, piece)?;
        names = names.with(&name)?;
    }
    Ok(names)
}

/// The names of the path that a word without a fault gives.
pub(crate) fn path_of(alloc: Global, word: &[u8]) -> Result<Names, Fault>
    requires { path_fault word.now ≡ None }
    ensures names { IfOk result (λ names. names ≡ path_names word.now) }
    ensures memory { IsOkUnless result Fault.NoMemory }
{
    if word.len() == 1 {
        return Ok(Names::root(alloc));
    }
    let names = names_between(alloc, &word[1..])?;
    Ok(names)
}
