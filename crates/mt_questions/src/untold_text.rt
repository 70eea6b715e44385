//! The mounts of which it is not told whether a copy of a new mount comes to them, as lines.
ghost use Rattle.std.specs.Prelude.{◌≡◌, ◌++◌, length, OnOk, codes, decimal};
ghost use Rattle.std.specs.List.{flat_map};
ghost use Rattle.mt_questions.specs.ReachText.{missing_words, gets_words, untold_count, untold_line, untold_lines};

use crate::copy_text::push_spot;
use crate::reach::Untold;
use crate::table::SeenTables;
use crate::wording::push_between;
use mt_info::print::push_number;
use mt_peers::state::GroupId;
use std::alloc::AllocError;

/// Appends further groups without a member.
fn push_more_missing(text: &mut Vec<u8>, groups: &[GroupId]) -> Result<(), AllocError>
    ensures { OnOk result (text.new.items ≡ text.old.items ++ flat_map (λ h. codes ", group " ++ decimal h) groups.now) }
{
    'groups: for group in groups {
        text.extend_from_slice(b", group ")?;
        push_number(text, *group)?;
    }
    Ok(())
}

/// Appends the groups without a member.
pub(crate) fn push_missing(text: &mut Vec<u8>, groups: &[GroupId]) -> Result<(), AllocError>
    ensures { OnOk result (text.new.items ≡ text.old.items ++ missing_words groups.now) }
{
    let Some((first, rest)) = groups.split_first() else {
        return Ok(());
    };
    text.extend_from_slice(b"group ")?;
    push_number(text, *first)?;
    push_more_missing(text, rest)
}

/// Appends words, the groups without a member, and words.
fn push_around_missing(
    text: &mut Vec<u8>,
    front: &[u8],
    groups: &[GroupId],
    behind: &[u8],
) -> Result<(), AllocError>
    ensures { OnOk result (text.new.items ≡ text.old.items ++ (front.now ++ missing_words groups.now ++ behind.now)) }
{
    text.extend_from_slice(front)?;
    push_missing(text, groups)?;
    text.extend_from_slice(behind)
}

/// Appends from which groups without a member a mount gets.
#[tactic(auto, unfolding(crate::specs::ReachText::gets_words))]
fn push_gets(text: &mut Vec<u8>, groups: &[GroupId]) -> Result<(), AllocError>
    ensures { OnOk result (text.new.items ≡ text.old.items ++ gets_words groups.now) }
{
    push_around_missing(
        text,
        b"it gets from ",
        groups,
        b", which has no mount in these tables: read the namespace that has one\n",
    )
}

/// Appends the line of a mount of which it is not told whether a copy comes to it.
#[tactic(auto, unfolding(crate::specs::ReachText::untold_line))]
fn push_untold_line(
    text: &mut Vec<u8>,
    tables: &SeenTables,
    untold: &Untold,
) -> Result<(), AllocError>
    ensures { OnOk result (text.new.items ≡ text.old.items ++ untold_line tables.now untold.now) }
{
    text.extend_from_slice(b"  ? ")?;
    push_spot(text, tables, &untold.spot)?;
    push_gets(text, untold.missing.as_slice())
}

/// Appends such lines.
fn push_untold_lines(
    text: &mut Vec<u8>,
    tables: &SeenTables,
    untold: &[Untold],
) -> Result<(), AllocError>
    ensures { OnOk result (text.new.items ≡ text.old.items ++ flat_map (untold_line tables.now) untold.now) }
{
    'untold: for one in untold {
        push_untold_line(text, tables, one)?;
    }
    Ok(())
}

/// Appends how many such mounts there are.
#[tactic(auto, unfolding(crate::specs::ReachText::untold_count))]
fn push_untold_count(text: &mut Vec<u8>, count: usize) -> Result<(), AllocError>
    ensures { OnOk result (text.new.items ≡ text.old.items ++ untold_count count) }
{
    push_between(text, b"It cannot be told of ", count as u64, b":\n")
}

/// Appends how many such mounts there are, and each.
fn push_some_untold(
    text: &mut Vec<u8>,
    tables: &SeenTables,
    untold: &[Untold],
) -> Result<(), AllocError>
    ensures { OnOk result (text.new.items ≡ text.old.items ++ (untold_count (length untold.now) ++ flat_map (untold_line tables.now) untold.now)) }
{
    push_untold_count(text, untold.len())?;
    push_untold_lines(text, tables, untold)
}

/// Appends the mounts of which it is not told whether a copy comes to them.
pub(crate) fn push_untold(
    text: &mut Vec<u8>,
    tables: &SeenTables,
    untold: &[Untold],
) -> Result<(), AllocError>
    ensures { OnOk result (text.new.items ≡ text.old.items ++ untold_lines tables.now untold.now) }
{
    match untold {
        [] => Ok(()),
        untold => push_some_untold(text, tables, untold),
    }
}
