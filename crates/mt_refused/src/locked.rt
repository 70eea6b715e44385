//! What is told of a refusal for a lock.
//!
//! What came with a copy into another user namespace is locked there (mount_namespaces(7), restrictions on mount namespaces).
ghost use Rattle.std.specs.Prelude.{◌≡◌, ◌++◌, OnOk};
ghost use Rattle.mt_refused.specs.Sentences.{locked_words, locked_inside_words, led_words, locked_attr_words};
ghost use Rattle.mt_refused.specs.Remedies.{leave_help, whole_remedy, whole_help, keep_help};

use crate::asked::{Which, is_of_tree};
use crate::page::Page;
use crate::part::{Part, push_parts};
use mt_book::command::Command;
use mt_mounts::mount::MountId;
use std::alloc::AllocError;

/// Says that a mount is locked on its place.
pub(crate) fn push_locked(
    text: &mut Vec<u8>,
    page: &Page<'_>,
    mount: MountId,
) -> Result<(), AllocError>
    ensures { OnOk result (text.new.items ≡ text.old.items ++ locked_words page.now mount) }
{
    push_parts(
        text,
        page,
        &[
            Part::Asked(Which::First),
            Part::Text(b" is "),
            Part::Mount(mount),
            Part::Text(b", which is locked on its place"),
        ],
    )
}

/// Says that a mount which is locked on its place would be left out.
pub(crate) fn push_locked_inside(
    text: &mut Vec<u8>,
    page: &Page<'_>,
    on: MountId,
) -> Result<(), AllocError>
    ensures { OnOk result (text.new.items ≡ text.old.items ++ locked_inside_words page.now on) }
{
    push_parts(
        text,
        page,
        &[
            Part::Asked(Which::First),
            Part::Text(b" is on "),
            Part::Mount(on),
            Part::Text(b", and a mount below that is locked on its place would be left out"),
        ],
    )
}

/// Says to which mount the path leads, and what is said of that one.
fn push_led(
    text: &mut Vec<u8>,
    page: &Page<'_>,
    mount: MountId,
    said: &'static [u8],
) -> Result<(), AllocError>
    ensures { OnOk result (text.new.items ≡ text.old.items ++ led_words page.now mount said.now) }
{
    push_parts(
        text,
        page,
        &[
            Part::Asked(Which::First),
            Part::Text(b" is "),
            Part::Mount(mount),
            Part::Text(said),
        ],
    )
}

/// Says that an attribute is locked that would change.
pub(crate) fn push_locked_attr(
    text: &mut Vec<u8>,
    page: &Page<'_>,
    mount: MountId,
) -> Result<(), AllocError>
    ensures { OnOk result (text.new.items ≡ text.old.items ++ locked_attr_words page.now mount) }
{
    let said: &'static [u8] = b", of which an attribute is locked that would change";
    let said_of_tree: &'static [u8] =
        b", in the tree of which an attribute is locked that would change";
    if is_of_tree(page.command) {
        return push_led(text, page, mount, said_of_tree);
    }
    push_led(text, page, mount, said)
}

/// Says what may be done where a mount is locked on its place.
pub(crate) fn push_leave(text: &mut Vec<u8>) -> Result<(), AllocError>
    ensures { OnOk result (text.new.items ≡ text.old.items ++ leave_help) }
{
    text.extend_from_slice(
        b"  to change that: leave it, or mount over it; what is mounted in this namespace itself can go\n",
    )
}

/// Says which line copies a mount with all that is below it.
fn push_whole_remedy(text: &mut Vec<u8>, page: &Page<'_>) -> Result<(), AllocError>
    ensures { OnOk result (text.new.items ≡ text.old.items ++ whole_remedy page.now page.now.command) }
{
    match page.command {
        Command::Bind { space, .. } => push_parts(
            text,
            page,
            &[
                Part::Text(b"  to change that: rbind "),
                Part::Number(*space),
                Part::Text(b" "),
                Part::Path(Which::First),
                Part::Text(b" "),
                Part::Path(Which::Second),
                Part::Text(b" has all below it too\n"),
            ],
        ),
        Command::OpenTree { space, .. } => push_parts(
            text,
            page,
            &[
                Part::Text(b"  to change that: opentree "),
                Part::Number(*space),
                Part::Text(b" "),
                Part::Path(Which::First),
                Part::Text(b" rec has all below it too\n"),
            ],
        ),
        _ => Ok(()),
    }
}

/// Says what copies a mount with all that is below it, or what lets it be copied so.
pub(crate) fn push_whole(text: &mut Vec<u8>, page: &Page<'_>) -> Result<(), AllocError>
    ensures { OnOk result (text.new.items ≡ text.old.items ++ whole_help page.now) }
{
    if !is_of_tree(page.command) {
        return push_whole_remedy(text, page);
    }
    text.extend_from_slice(
        b"  to change that: setattr prop=private of each unbindable one below it\n",
    )
}

/// Says which attributes stay.
pub(crate) fn push_keep(text: &mut Vec<u8>) -> Result<(), AllocError>
    ensures { OnOk result (text.new.items ≡ text.old.items ++ keep_help) }
{
    text.extend_from_slice(
        b"  to change that: keep ro, nosuid, nodev and noexec where they are set, and the access times\n",
    )
}
