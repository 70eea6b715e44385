//! The first line of a hindrance: what is in the way.
ghost use Rattle.std.specs.Prelude.{◌≡◌, ◌++◌, OnOk, IsOkUnless};
ghost use Rattle.mt_refused.specs.Sentences.{no_namespace_words, off_root_words, root_place_words, unbindable_words, shared_parent_words, shared_place_words, onto_itself_words, below_itself_words, into_words, outside_words, inside_words_of, inside_words, standing_on_words, with_below_words, busy_words_of, busy_words, two_times_words, clash_words, sentence};

use crate::asked::Which;
use crate::hindrance::Hindrance;
use crate::locked::{push_locked, push_locked_attr, push_locked_inside};
use crate::page::Page;
use crate::part::{Part, push_parts};
use mt_mounts::mount::{MountId, SpaceId};
use mt_reach::refusals::{standing_on, tree_below, unbindable_inside};
use mt_skel::fault::Fault;
use std::alloc::AllocError;

/// Says that a namespace is not there.
fn push_no_namespace(text: &mut Vec<u8>, page: &Page<'_>, space: SpaceId) -> Result<(), AllocError>
    ensures { OnOk result (text.new.items ≡ text.old.items ++ no_namespace_words space) }
{
    push_parts(
        text,
        page,
        &[
            Part::Text(b"namespace "),
            Part::Number(space),
            Part::Text(b" is not there"),
        ],
    )
}

/// Says that a path ends in a directory of a mount.
fn push_off_root(text: &mut Vec<u8>, page: &Page<'_>, on: MountId) -> Result<(), AllocError>
    ensures { OnOk result (text.new.items ≡ text.old.items ++ off_root_words page.now on) }
{
    push_parts(
        text,
        page,
        &[
            Part::Asked(Which::First),
            Part::Text(b" is a directory of "),
            Part::Mount(on),
            Part::Text(b", and no mount"),
        ],
    )
}

/// Says that a path ends at the root of a root mount.
fn push_root_place(
    text: &mut Vec<u8>,
    page: &Page<'_>,
    which: Which,
    root: MountId,
) -> Result<(), AllocError>
    ensures { OnOk result (text.new.items ≡ text.old.items ++ root_place_words page.now which root) }
{
    push_parts(
        text,
        page,
        &[
            Part::Asked(which),
            Part::Text(b" is the root of the root mount, "),
            Part::Mount(root),
        ],
    )
}

/// Says that a path ends on an unbindable mount.
fn push_unbindable(text: &mut Vec<u8>, page: &Page<'_>, on: MountId) -> Result<(), AllocError>
    ensures { OnOk result (text.new.items ≡ text.old.items ++ unbindable_words page.now on) }
{
    push_parts(
        text,
        page,
        &[
            Part::Asked(Which::First),
            Part::Text(b" is on "),
            Part::Mount(on),
            Part::Text(b", which is unbindable"),
        ],
    )
}

/// Says that a path leads to a mount that stands on a shared one.
fn push_shared_parent(text: &mut Vec<u8>, page: &Page<'_>, on: MountId) -> Result<(), AllocError>
    ensures { OnOk result (text.new.items ≡ text.old.items ++ shared_parent_words page.now on) }
{
    push_parts(
        text,
        page,
        &[
            Part::Asked(Which::First),
            Part::Text(b" stands on "),
            Part::Mount(on),
            Part::Text(b", which is shared, in group "),
            Part::GroupOf(on),
        ],
    )
}

/// Says that a path ends on a shared mount.
fn push_shared_place(text: &mut Vec<u8>, page: &Page<'_>, on: MountId) -> Result<(), AllocError>
    ensures { OnOk result (text.new.items ≡ text.old.items ++ shared_place_words page.now on) }
{
    push_parts(
        text,
        page,
        &[
            Part::Asked(Which::Second),
            Part::Text(b" is on "),
            Part::Mount(on),
            Part::Text(b", which is shared, in group "),
            Part::GroupOf(on),
        ],
    )
}

/// Says that a mount would stand on itself.
fn push_onto_itself(text: &mut Vec<u8>, page: &Page<'_>, tree: MountId) -> Result<(), AllocError>
    ensures { OnOk result (text.new.items ≡ text.old.items ++ onto_itself_words page.now tree) }
{
    push_parts(
        text,
        page,
        &[
            Part::Asked(Which::Second),
            Part::Text(b" is on "),
            Part::Mount(tree),
            Part::Text(b", which would be moved"),
        ],
    )
}

/// Says that a mount would stand on one that stands on it.
fn push_below_itself(
    text: &mut Vec<u8>,
    page: &Page<'_>,
    tree: MountId,
    onto: MountId,
) -> Result<(), AllocError>
    ensures { OnOk result (text.new.items ≡ text.old.items ++ below_itself_words page.now tree onto) }
{
    push_parts(
        text,
        page,
        &[
            Part::Asked(Which::Second),
            Part::Text(b" is on "),
            Part::Mount(onto),
            Part::Text(b", which stands on "),
            Part::Mount(tree),
            Part::Text(b", which would be moved"),
        ],
    )
}

/// Says where a mount would stand in its own tree.
fn push_into_itself(
    text: &mut Vec<u8>,
    page: &Page<'_>,
    tree: MountId,
    onto: MountId,
) -> Result<(), AllocError>
    ensures { OnOk result (text.new.items ≡ text.old.items ++ into_words page.now tree onto) }
{
    if tree == onto {
        push_onto_itself(text, page, tree)
    } else {
        push_below_itself(text, page, tree, onto)
    }
}

/// Says that the old root would not stand on the new one.
fn push_left_outside(
    text: &mut Vec<u8>,
    page: &Page<'_>,
    new: MountId,
    onto: MountId,
) -> Result<(), AllocError>
    ensures { OnOk result (text.new.items ≡ text.old.items ++ outside_words page.now new onto) }
{
    push_parts(
        text,
        page,
        &[
            Part::Asked(Which::Second),
            Part::Text(b" is on "),
            Part::Mount(onto),
            Part::Text(b", which does not stand on the new root, "),
            Part::Mount(new),
        ],
    )
}

/// Says that so many unbindable mounts would come to stand on a shared one.
fn push_counted(
    text: &mut Vec<u8>,
    page: &Page<'_>,
    tree: MountId,
    onto: MountId,
    count: u64,
) -> Result<(), AllocError>
    ensures { OnOk result (text.new.items ≡ text.old.items ++ inside_words_of page.now tree onto count) }
{
    push_parts(
        text,
        page,
        &[
            Part::Asked(Which::Second),
            Part::Text(b" is on "),
            Part::Mount(onto),
            Part::Text(b", which is shared, in group "),
            Part::GroupOf(onto),
            Part::Text(b", and "),
            Part::Count(count, b" mount is unbindable", b" mounts are unbindable"),
            Part::Text(b" in the tree of "),
            Part::Mount(tree),
        ],
    )
}

/// Says how many mounts stand on one.
fn push_standing(
    text: &mut Vec<u8>,
    page: &Page<'_>,
    on: MountId,
    standing: u64,
) -> Result<(), AllocError>
    ensures { OnOk result (text.new.items ≡ text.old.items ++ standing_on_words page.now on standing) }
{
    push_parts(
        text,
        page,
        &[
            Part::Count(standing, b" mount stands on ", b" mounts stand on "),
            Part::Mount(on),
        ],
    )
}

/// Says how many those are with the mounts on them, if these are more.
fn push_with_below(
    text: &mut Vec<u8>,
    page: &Page<'_>,
    standing: u64,
    below: u64,
) -> Result<(), AllocError>
    ensures { OnOk result (text.new.items ≡ text.old.items ++ with_below_words standing below) }
{
    if standing == below {
        return Ok(());
    }
    push_parts(
        text,
        page,
        &[
            Part::Text(b", "),
            Part::Number(below),
            Part::Text(b" with those below"),
        ],
    )
}

/// Says how many mounts stand on one, and how many those are with the mounts on them.
fn push_both(
    text: &mut Vec<u8>,
    page: &Page<'_>,
    on: MountId,
    standing: u64,
    below: u64,
) -> Result<(), AllocError>
    ensures { OnOk result (text.new.items ≡ text.old.items ++ busy_words_of page.now on standing below) }
{
    push_standing(text, page, on, standing)?;
    push_with_below(text, page, standing, below)
}

/// Says how many mounts stand on one. Refused as `NoMemory` alone.
fn push_busy(text: &mut Vec<u8>, page: &Page<'_>, on: MountId) -> Result<(), Fault>
    ensures text { OnOk result (text.new.items ≡ text.old.items ++ busy_words page.now on) }
    ensures memory { IsOkUnless result Fault.NoMemory }
{
    let standing = standing_on(page.rows, on)?;
    let below = tree_below(page.rows, on)?;
    push_both(text, page, on, standing.len() as u64, below.len() as u64)?;
    Ok(())
}

/// Says that unbindable mounts would come to stand on a shared one. Refused as `NoMemory` alone.
fn push_unbindable_inside(
    text: &mut Vec<u8>,
    page: &Page<'_>,
    tree: MountId,
    onto: MountId,
) -> Result<(), Fault>
    ensures text { OnOk result (text.new.items ≡ text.old.items ++ inside_words page.now tree onto) }
    ensures memory { IsOkUnless result Fault.NoMemory }
{
    let ids = unbindable_inside(page.rows, tree, onto)?;
    push_counted(text, page, tree, onto, ids.len() as u64)?;
    Ok(())
}

/// Says that a new mount would have two access times.
fn push_two_times(text: &mut Vec<u8>) -> Result<(), AllocError>
    ensures { OnOk result (text.new.items ≡ text.old.items ++ two_times_words) }
{
    text.extend_from_slice(b"set= has two access times")
}

/// Says that the access times of a change contradict one another.
fn push_clash(text: &mut Vec<u8>) -> Result<(), AllocError>
    ensures { OnOk result (text.new.items ≡ text.old.items ++ clash_words) }
{
    text.extend_from_slice(b"set= has two access times, or one without clr=atime")
}

/// Appends what is in the way, without a line end. Refused as `NoMemory` alone.
pub(crate) fn push_sentence(
    text: &mut Vec<u8>,
    page: &Page<'_>,
    hindrance: Hindrance,
) -> Result<(), Fault>
    ensures text { OnOk result (text.new.items ≡ text.old.items ++ sentence page.now hindrance) }
    ensures memory { IsOkUnless result Fault.NoMemory }
{
    match hindrance {
        Hindrance::NoNamespace(space) => Ok(push_no_namespace(text, page, space)?),
        Hindrance::OffRoot(on) => Ok(push_off_root(text, page, on)?),
        Hindrance::RootPlace { which, root } => Ok(push_root_place(text, page, which, root)?),
        Hindrance::Unbindable(on) => Ok(push_unbindable(text, page, on)?),
        Hindrance::SharedParent(on) => Ok(push_shared_parent(text, page, on)?),
        Hindrance::SharedPlace(on) => Ok(push_shared_place(text, page, on)?),
        Hindrance::IntoItself { tree, onto } => Ok(push_into_itself(text, page, tree, onto)?),
        Hindrance::LeftOutside { new, onto } => Ok(push_left_outside(text, page, new, onto)?),
        Hindrance::UnbindableInside { tree, onto } => push_unbindable_inside(
            text, page, tree, onto,
        ),
        Hindrance::Busy(on) => push_busy(text, page, on),
        Hindrance::TwoTimes => Ok(push_two_times(text)?),
        Hindrance::Clash => Ok(push_clash(text)?),
        Hindrance::Locked(mount) => Ok(push_locked(text, page, mount)?),
        Hindrance::LockedInside(on) => Ok(push_locked_inside(text, page, on)?),
        Hindrance::LockedAttr(mount) => Ok(push_locked_attr(text, page, mount)?),
    }
}
