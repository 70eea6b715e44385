//! Which namespace a word names.
ghost use Rattle.std.specs.Prelude.{◌≡◌};
ghost use Rattle.std.specs.List.{list_all};
ghost use Rattle.mt_questions.specs.Naming.{last_name, space_of_word, space_of_name, agrees, space_alone, space_of_number, space_called};

use crate::table::NamedTable;
use mt_lines::words::{Pieces, number};
use mt_mounts::mount::SpaceId;
use std::marker::Model;

/// A word that names a namespace.
#[derive(Drop)]
pub struct SpaceAlias {
    /// The path of the file of its table, or the number of a process in it.
    pub word: Vec<u8>,
    /// The number of its table, from 1.
    pub space: SpaceId,
}

impl Model for SpaceAlias {
    ghost use Rattle.mt_questions.specs.Naming.{SpaceAliasView};

    ghost Value = { SpaceAliasView };

    ghost view = { λ a. record { word = a.word.items; space = a.space } };
}

/// The last name of a path: what stands behind its last slash, or all of it where it has none. Takes no memory.
pub fn last_name(path: &[u8]) -> &[u8]
    ensures { result.now ≡ last_name path.now }
{
    let mut last: &[u8] = &[];
    let mut pieces = Pieces::new(b'/', path);
    'pieces: while let Some(piece) = pieces.next() {
        last = piece;
    }
    last
}

/// The namespace of the first alias with this word.
fn space_of_word(aliases: &[SpaceAlias], word: &[u8]) -> Option<SpaceId>
    ensures { result ≡ space_of_word aliases.now word.now }
{
    'aliases: for alias in aliases {
        if alias.word.as_slice() == word {
            return Some(alias.space);
        }
    }
    None
}

/// The namespace of the first alias with this last name.
fn space_of_name(aliases: &[SpaceAlias], word: &[u8]) -> Option<SpaceId>
    ensures { result ≡ space_of_name aliases.now word.now }
{
    'aliases: for alias in aliases {
        if last_name(alias.word.as_slice()) == word {
            return Some(alias.space);
        }
    }
    None
}

/// Whether an alias is of a namespace, if this is its last name.
fn agrees(alias: &SpaceAlias, word: &[u8], space: SpaceId) -> bool
    ensures { result ≡ agrees word.now space alias.now }
{
    last_name(alias.word.as_slice()) != word || alias.space == space
}

/// Whether all aliases with this last name are of a namespace.
fn all_agree(aliases: &[SpaceAlias], word: &[u8], space: SpaceId) -> bool
    ensures { result ≡ list_all (agrees word.now space) aliases.now }
{
    'aliases: for alias in aliases {
        if !agrees(alias, word, space) {
            return false;
        }
    }
    true
}

/// A namespace, if all aliases with this last name are of it.
fn space_alone(aliases: &[SpaceAlias], word: &[u8], space: SpaceId) -> Option<SpaceId>
    ensures { result ≡ space_alone aliases.now word.now space }
{
    if all_agree(aliases, word, space) {
        Some(space)
    } else {
        None
    }
}

/// The number of one of these tables that a word is, counted from 1.
fn space_of_number(tables: &[NamedTable], word: &[u8]) -> Option<SpaceId>
    ensures { result ≡ space_of_number tables.now word.now }
{
    match number(word) {
        Some(space) if 0 < space && space <= tables.len() as u64 => Some(space),
        _ => None,
    }
}

/// The number of the namespace that a word names, given the words that name those of tables: the word is one of these, or the last
/// name in one, or the number of a table, from 1. None where it is none of these, or the last name in words of several namespaces.
/// Takes no memory.
pub fn space_called(tables: &[NamedTable], aliases: &[SpaceAlias], word: &[u8]) -> Option<SpaceId>
    ensures { result ≡ space_called tables.now aliases.now word.now }
{
    if let Some(space) = space_of_word(aliases, word) {
        return Some(space);
    }
    match space_of_name(aliases, word) {
        Some(space) => space_alone(aliases, word, space),
        None => space_of_number(tables, word),
    }
}
