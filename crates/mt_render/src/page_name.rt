//! The names that comments of a session give to namespaces.
ghost use Rattle.std.specs.Prelude.{◌≡◌, ◌++◌, OnOk, IfOk};
ghost use Rattle.mt_render.specs.PageSession.{NameTexts, spaced, numbered_name, table_name, name_as, given_name};

use mt_lines::words::{Words, number, words};
use std::alloc::{AllocError, Global};
use std::marker::Model;

/// A name that a namespace goes by.
#[derive(Drop)]
pub struct GivenName {
    /// The number of the namespace.
    pub space: u64,
    /// The name.
    pub name: Vec<u8>,
}

impl Model for GivenName {
    ghost use Rattle.mt_render.specs.PageSession.{NameTexts};

    ghost Value = { NameTexts };

    ghost view = { λ n. record { space = n.space; name = n.name.items } };
}

/// Appends the words that are left, each behind a space.
fn push_spaced(text: &mut Vec<u8>, words: &mut Words<'_>) -> Result<(), AllocError>
    ensures { OnOk result (text.new.items ≡ text.old.items ++ spaced words.old) }
{
    'words: while let Some(word) = words.next() {
        text.push(b' ')?;
        text.extend_from_slice(word)?;
    }
    Ok(())
}

/// The name of the namespace of a number: a word, and those that are left.
fn numbered_name(
    alloc: Global,
    space: &[u8],
    first: &[u8],
    words: &mut Words<'_>,
) -> Result<Option<GivenName>, AllocError>
    ensures { IfOk result (λ found. found ≡ numbered_name space.now first.now words.old) }
{
    let Some(space) = number(space) else {
        return Ok(None);
    };
    let mut name = Vec::from_slice(alloc, first)?;
    push_spaced(&mut name, words)?;
    Ok(Some(GivenName { space, name }))
}

/// The name of the namespace that a table is, if these words say so.
fn table_name(
    alloc: Global,
    table: &[u8],
    kind: &[u8],
    words: &mut Words<'_>,
) -> Result<Option<GivenName>, AllocError>
    ensures { IfOk result (λ found. found ≡ table_name table.now kind.now words.old) }
{
    let (Some(word), None) = (words.next(), words.next()) else {
        return Ok(None);
    };
    if kind != b"namespace".as_slice() {
        return Ok(None);
    }
    let Some(space) = number(word) else {
        return Ok(None);
    };
    let mut name = Vec::from_slice(alloc, b"table ")?;
    name.extend_from_slice(table)?;
    Ok(Some(GivenName { space, name }))
}

/// The name that words tell of which the first says what is named.
fn name_as(
    alloc: Global,
    kind: &[u8],
    named: &[u8],
    first: &[u8],
    words: &mut Words<'_>,
) -> Result<Option<GivenName>, AllocError>
    ensures { IfOk result (λ found. found ≡ name_as kind.now named.now first.now words.old) }
{
    if kind == b"namespace".as_slice() {
        numbered_name(alloc, named, first, words)
    } else if kind == b"table".as_slice() {
        table_name(alloc, named, first, words)
    } else {
        Ok(None)
    }
}

/// The name that a comment gives to a namespace, if it does: `# namespace N is NAME`, of which the name goes on to the end of
/// the line, or `# table TABLE is namespace N`, as in the scripts of an import, where the name is `table TABLE`. Fails for
/// want of memory alone.
pub fn given_name(alloc: Global, comment: &[u8]) -> Result<Option<GivenName>, AllocError>
    ensures { IfOk result (λ found. found ≡ given_name comment.now) }
{
    let mut words = words(comment);
    let (Some(mark), Some(kind), Some(named), Some(is), Some(first)) = (
        words.next(),
        words.next(),
        words.next(),
        words.next(),
        words.next(),
    ) else {
        return Ok(None);
    };
    if mark != b"#".as_slice() || is != b"is".as_slice() {
        return Ok(None);
    }
    name_as(alloc, kind, named, first, &mut words)
}
