//! Names of namespaces, as `--name` gives them among the words of a task.

use mt_lines::words::number;
use mt_render::named::SpaceName;
use std::alloc::{AllocError, Global};

/// The option that gives a namespace a name.
const OPTION: &str = "--name";

/// The words of a task without the names of namespaces, and these.
#[derive(Drop)]
pub(crate) struct Named<'a> {
    pub(crate) words: Vec<&'a str>,
    pub(crate) names: Vec<SpaceName<'a>>,
}

/// The name of a namespace that a word gives: the number of the namespace, and behind `=` a name that is not empty.
fn name_of(word: &str) -> Option<SpaceName<'_>> {
    let bytes = word.as_bytes();
    let at = bytes.iter().position(|byte| *byte == b'=')?;
    let (space, behind) = bytes.split_at(at);
    let (_equals, name) = behind.split_first()?;
    if name.is_empty() {
        return None;
    }
    Some(SpaceName {
        space: number(space)?,
        name,
    })
}

/// Appends the name that a word gives: false where it gives none, or one of a namespace that has one.
fn push_name<'a>(names: &mut Vec<SpaceName<'a>>, word: &'a str) -> Result<bool, AllocError> {
    match name_of(word) {
        Some(name) if names.iter().all(|other| other.space != name.space) => {
            names.push(name)?;
            Ok(true)
        }
        _ => Ok(false),
    }
}

/// Appends the names that words give, and the other words: false where behind an option stands no name.
fn push_named<'a>(
    names: &mut Vec<SpaceName<'a>>,
    others: &mut Vec<&'a str>,
    words: &[&'a str],
) -> Result<bool, AllocError> {
    let mut is_name = false;
    for word in words {
        if is_name {
            if !push_name(names, word)? {
                return Ok(false);
            }
            is_name = false;
        } else if *word == OPTION {
            is_name = true;
        } else {
            others.push(*word)?;
        }
    }
    Ok(!is_name)
}

/// Whether a task takes names of namespaces.
fn takes_names(words: &[&str]) -> bool {
    matches!(words, ["spaces" | "tree" | "dot" | "monitor", ..])
}

/// The words of a task without the names of namespaces, where it takes some, and these. None where behind `--name` stands no
/// name of a namespace, or a second one of the same. Fails for want of memory alone.
pub(crate) fn named_words<'a>(
    alloc: Global,
    words: &[&'a str],
) -> Result<Option<Named<'a>>, AllocError> {
    let mut names = Vec::new(alloc);
    let mut others = Vec::new(alloc);
    if !takes_names(words) {
        others.extend_from_slice(words)?;
        return Ok(Some(Named {
            words: others,
            names,
        }));
    }
    if push_named(&mut names, &mut others, words)? {
        Ok(Some(Named {
            words: others,
            names,
        }))
    } else {
        Ok(None)
    }
}
