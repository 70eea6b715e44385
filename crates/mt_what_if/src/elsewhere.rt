//! The last line of an answer: what changes in namespaces that no line names.
ghost use Rattle.std.specs.Prelude.{◌≡◌, ◌++◌, count_by, decimal, OnOk};
ghost use Rattle.mt_what_if.specs.KnownSpaces.{is_unnamed};
ghost use Rattle.mt_what_if.specs.Elsewhere.{counted_others, further_names, unchanged_line, change_word, portion_words, counts_words, other_changes_line, nothing_line, elsewhere_line, elsewhere_told};

use crate::known_space::KnownSpace;
use mt_info::print::push_number;
use mt_render::wording::push_shown;
use std::alloc::AllocError;

/// How many namespaces were there before that no line names.
pub(crate) fn count_others(spaces: &[KnownSpace]) -> usize
    ensures { result ≡ count_by is_unnamed spaces.now }
{
    spaces.iter().filter(|space| space.is_unnamed()).count()
}

/// Appends a number of other namespaces.
fn push_others(text: &mut Vec<u8>, count: usize) -> Result<(), AllocError>
    ensures { OnOk result (text.new.items ≡ text.old.items ++ counted_others count) }
{
    push_number(text, count as u64)?;
    if count == 1 {
        text.extend_from_slice(b" other namespace")?;
    } else {
        text.extend_from_slice(b" other namespaces")?;
    }
    Ok(())
}

/// Appends each of these names after a comma.
fn push_further(text: &mut Vec<u8>, spaces: &[KnownSpace]) -> Result<(), AllocError>
    ensures { OnOk result (text.new.items ≡ text.old.items ++ further_names spaces.now) }
{
    'spaces: for space in spaces {
        text.extend_from_slice(b", ")?;
        text.extend_from_slice(&space.name)?;
    }
    Ok(())
}

/// Appends words, and a number of other namespaces.
fn push_behind(line: &mut Vec<u8>, words: &[u8], others: usize) -> Result<(), AllocError>
    ensures { OnOk result (line.new.items ≡ line.old.items ++ (words.now ++ counted_others others)) }
{
    line.extend_from_slice(words)?;
    push_others(line, others)
}

/// Appends that nothing changes in so many other namespaces.
#[tactic(auto, unfolding(crate::specs::Elsewhere::unchanged_line))]
fn push_unchanged(line: &mut Vec<u8>, others: usize) -> Result<(), AllocError>
    ensures { OnOk result (line.new.items ≡ line.old.items ++ unchanged_line others) }
{
    push_behind(line, b"elsewhere: nothing changes in ", others)
}

/// Appends that nothing changes in so many other namespaces, or that there is none.
fn push_nothing(line: &mut Vec<u8>, others: usize) -> Result<(), AllocError>
    ensures { OnOk result (line.new.items ≡ line.old.items ++ nothing_line others) }
{
    if others == 0 {
        return line.extend_from_slice(b"elsewhere: no other namespace was read");
    }
    push_unchanged(line, others)
}

/// What so many namespaces do that change.
fn change_word(count: usize) -> &'static [u8]
    ensures { result.now ≡ change_word count }
{
    if count == 1 {
        b" changes: "
    } else {
        b" change: "
    }
}

/// Appends words, a number, and a number of other namespaces, with words between the two.
fn push_both(
    line: &mut Vec<u8>,
    front: &[u8],
    count: usize,
    between: &[u8],
    others: usize,
) -> Result<(), AllocError>
    ensures { OnOk result (line.new.items ≡ line.old.items ++ (front.now ++ (decimal count ++ (between.now ++ counted_others others)))) }
{
    line.extend_from_slice(front)?;
    push_number(line, count as u64)?;
    push_behind(line, between, others)
}

/// Appends how many of so many other namespaces.
#[tactic(auto, unfolding(crate::specs::Elsewhere::portion_words))]
fn push_portion(line: &mut Vec<u8>, others: usize, count: usize) -> Result<(), AllocError>
    ensures { OnOk result (line.new.items ≡ line.old.items ++ portion_words others count) }
{
    push_both(line, b"elsewhere: ", count, b" of ", others)
}

/// Appends how many of so many other namespaces change.
fn push_counts(line: &mut Vec<u8>, others: usize, count: usize) -> Result<(), AllocError>
    ensures { OnOk result (line.new.items ≡ line.old.items ++ counts_words others count) }
{
    push_portion(line, others, count)?;
    line.extend_from_slice(change_word(count))
}

/// Appends which of so many other namespaces change.
fn push_changed(
    line: &mut Vec<u8>,
    others: usize,
    count: usize,
    first: &KnownSpace,
    more: &[KnownSpace],
) -> Result<(), AllocError>
    ensures { OnOk result (line.new.items ≡ line.old.items ++ other_changes_line others count first.now more.now) }
{
    push_counts(line, others, count)?;
    line.extend_from_slice(&first.name)?;
    push_further(line, more)
}

/// Appends which of so many other namespaces change, if any does.
fn push_line(line: &mut Vec<u8>, others: usize, changed: &[KnownSpace]) -> Result<(), AllocError>
    ensures { OnOk result (line.new.items ≡ line.old.items ++ elsewhere_line others changed.now) }
{
    match changed {
        [] => push_nothing(line, others),
        [first, more @ ..] => push_changed(line, others, changed.len(), first, more),
    }
}

/// Appends the line that says which of so many namespaces change that no line names.
#[tactic(auto, unfolding(crate::specs::Elsewhere::elsewhere_told))]
pub(crate) fn push_elsewhere(
    text: &mut Vec<u8>,
    others: usize,
    changed: &[KnownSpace],
) -> Result<(), AllocError>
    ensures { OnOk result (text.new.items ≡ text.old.items ++ elsewhere_told others changed.now) }
{
    let mut line = Vec::new(*text.allocator());
    push_line(&mut line, others, changed)?;
    push_shown(text, &line)
}
