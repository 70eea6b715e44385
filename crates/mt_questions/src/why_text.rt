//! Why what is mounted on a mount does not come to another one, in words.
ghost use Rattle.std.specs.Prelude.{◌≡◌, ◌++◌, codes, decimal, OnOk};
ghost use Rattle.std.specs.Option.{option_map_or};
ghost use Rattle.mt_questions.specs.Wording.{row_words, group_words};
ghost use Rattle.mt_questions.specs.ReachText.{below_words, in_group_words, in_none_words, slave_words, upward_words, other_words, why_words};

use crate::table::SeenTables;
use crate::wording::{push_after, push_between, push_row, push_tag};
use mt_info::print::push_number;
use mt_peers::state::GroupId;
use mt_reach::reason::WhyNot;
use mt_reach::row::SeenRow;
use std::alloc::AllocError;

/// Appends words, a group, and words.
fn push_around_group(
    text: &mut Vec<u8>,
    front: &[u8],
    group: Option<GroupId>,
    behind: &[u8],
) -> Result<(), AllocError>
    ensures { OnOk result (text.new.items ≡ text.old.items ++ (front.now ++ group_words (codes " group ") group ++ behind.now)) }
{
    text.extend_from_slice(front)?;
    push_tag(text, b" group ", group)?;
    text.extend_from_slice(behind)
}

/// Appends below which group another one is.
#[tactic(auto, unfolding(crate::specs::ReachText::below_words))]
fn push_below(text: &mut Vec<u8>, row: &SeenRow) -> Result<(), AllocError>
    ensures { OnOk result (text.new.items ≡ text.old.items ++ below_words row.now) }
{
    push_around_group(
        text,
        b", below",
        row.group,
        b"; what happens there does not go up",
    )
}

/// Appends words, a group, and below which other one it is.
fn push_group_below(
    text: &mut Vec<u8>,
    front: &[u8],
    group: GroupId,
    row: &SeenRow,
) -> Result<(), AllocError>
    ensures { OnOk result (text.new.items ≡ text.old.items ++ (front.now ++ decimal group ++ below_words row.now)) }
{
    push_after(text, front, group)?;
    push_below(text, row)?;
    Ok(())
}

/// Appends where a mount that is in a group gets from.
#[tactic(auto, unfolding(crate::specs::ReachText::in_group_words))]
fn push_in_group(text: &mut Vec<u8>, group: GroupId, row: &SeenRow) -> Result<(), AllocError>
    ensures { OnOk result (text.new.items ≡ text.old.items ++ in_group_words row.now group) }
{
    push_group_below(text, b" is in group ", group, row)
}

/// Appends where a mount that is in no group gets from.
#[tactic(auto, unfolding(crate::specs::ReachText::in_none_words))]
fn push_in_none(text: &mut Vec<u8>, place: &SeenRow) -> Result<(), AllocError>
    ensures { OnOk result (text.new.items ≡ text.old.items ++ in_none_words place.now) }
{
    push_around_group(
        text,
        b" gets from",
        place.master,
        b", and gives nothing back",
    )
}

/// Appends words, and a mount.
fn push_headed_row(
    text: &mut Vec<u8>,
    tables: &SeenTables,
    front: &[u8],
    row: &SeenRow,
) -> Result<(), AllocError>
    ensures { OnOk result (text.new.items ≡ text.old.items ++ (front.now ++ row_words tables.now row.now)) }
{
    text.extend_from_slice(front)?;
    push_row(text, tables, row)
}

/// Appends the slave in which a change starts.
#[tactic(auto, unfolding(crate::specs::ReachText::slave_words))]
fn push_slave(text: &mut Vec<u8>, tables: &SeenTables, place: &SeenRow) -> Result<(), AllocError>
    ensures { OnOk result (text.new.items ≡ text.old.items ++ slave_words tables.now place.now) }
{
    push_headed_row(text, tables, b"the change starts in a slave: ", place)
}

/// Appends why what starts in a slave comes nowhere above.
fn push_upward(
    text: &mut Vec<u8>,
    tables: &SeenTables,
    place: &SeenRow,
    row: &SeenRow,
) -> Result<(), AllocError>
    ensures { OnOk result (text.new.items ≡ text.old.items ++ upward_words tables.now place.now row.now) }
{
    push_slave(text, tables, place)?;
    match place.group {
        Some(group) => push_in_group(text, group, row),
        None => push_in_none(text, place),
    }
}

/// Appends the group of a mount, or that it is in none.
fn push_group(text: &mut Vec<u8>, row: &SeenRow) -> Result<(), AllocError>
    ensures { OnOk result (text.new.items ≡ text.old.items ++ option_map_or (λ g. codes " group " ++ decimal g) row.now.group (codes " no group")) }
{
    let Some(group) = row.group else {
        text.extend_from_slice(b" no group")?;
        return Ok(());
    };
    text.extend_from_slice(b" group ")?;
    push_number(text, group)?;
    Ok(())
}

/// Appends groups that have nothing to do with each other.
fn push_other(text: &mut Vec<u8>, place: &SeenRow, row: &SeenRow) -> Result<(), AllocError>
    ensures { OnOk result (text.new.items ≡ text.old.items ++ other_words place.now row.now) }
{
    text.extend_from_slice(b"it is in")?;
    push_group(text, row)?;
    push_tag(text, b" with master ", row.master)?;
    text.extend_from_slice(b", and no chain leads there from")?;
    push_tag(text, b" group ", place.group)?;
    Ok(())
}

/// Appends a mount, and words behind it.
fn push_row_and(
    text: &mut Vec<u8>,
    tables: &SeenTables,
    row: &SeenRow,
    words: &[u8],
) -> Result<(), AllocError>
    ensures { OnOk result (text.new.items ≡ text.old.items ++ (row_words tables.now row.now ++ words.now)) }
{
    push_row(text, tables, row)?;
    text.extend_from_slice(words)?;
    Ok(())
}

/// Appends that two mounts get from one group.
fn push_siblings(text: &mut Vec<u8>, group: GroupId) -> Result<(), AllocError>
    ensures { OnOk result (text.new.items ≡ text.old.items ++ (codes "both get from group " ++ decimal group ++ codes ", and neither from the other")) }
{
    push_between(
        text,
        b"both get from group ",
        group,
        b", and neither from the other",
    )?;
    Ok(())
}

/// Appends words.
fn push_words(text: &mut Vec<u8>, words: &[u8]) -> Result<(), AllocError>
    ensures { OnOk result (text.new.items ≡ text.old.items ++ words.now) }
{
    text.extend_from_slice(words)?;
    Ok(())
}

/// Appends why what is mounted on the first mount does not come to the second.
#[tactic(auto, unfolding(crate::specs::ReachText::why_words))]
pub(crate) fn push_why(
    text: &mut Vec<u8>,
    tables: &SeenTables,
    place: &SeenRow,
    row: &SeenRow,
    why: WhyNot,
) -> Result<(), AllocError>
    ensures { OnOk result (text.new.items ≡ text.old.items ++ why_words tables.now place.now row.now why) }
{
    match why {
        WhyNot::SourcePrivate => push_row_and(
            text,
            tables,
            place,
            b" is private: nothing propagates from it",
        ),
        WhyNot::SourceUnbindable => push_row_and(
            text,
            tables,
            place,
            b" is unbindable: nothing propagates from it",
        ),
        WhyNot::StartsInSlave => push_upward(text, tables, place, row),
        WhyNot::Siblings(group) => push_siblings(text, group),
        WhyNot::OnlySlave => push_row_and(
            text,
            tables,
            place,
            b" is a slave and in no group: what starts there stays there",
        ),
        WhyNot::Private => push_words(text, b"it is private: it receives nothing"),
        WhyNot::Unbindable => push_words(text, b"it is unbindable: it receives nothing"),
        WhyNot::OtherGroup => push_other(text, place, row),
    }
}
