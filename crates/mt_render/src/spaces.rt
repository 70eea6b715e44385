//! The lines of a list of namespaces.
ghost use Rattle.std.specs.Prelude.{◌≡◌, ◌==◌, cond, codes, IfOk};
ghost use Rattle.serde_json.specs.View.{members_view};
ghost use Rattle.mt_render.specs.Listing.{counted_words, space_members, space_line};

use crate::members::{Members, put_name, put_number};
use crate::named::push_shown_name;
use crate::objects::value_line;
use crate::telling::Telling;
use mt_info::print::push_number;
use mt_mounts::mount::SpaceId;
use serde_json::{Map, Value};
use std::alloc::{AllocError, Global};

/// The word for so many mounts, with a line end.
fn mounts_word(mounts: u64) -> &'static [u8]
    ensures { result.now ≡ cond (mounts == 1) (codes " mount\n") (codes " mounts\n") }
{
    if mounts == 1 {
        b" mount\n"
    } else {
        b" mounts\n"
    }
}

/// The line of a namespace in words.
fn counted_words(
    alloc: Global,
    space: SpaceId,
    name: &[u8],
    mounts: u64,
) -> Result<Vec<u8>, AllocError>
    ensures { IfOk result (λ line. line.items ≡ counted_words space name.now mounts) }
{
    let mut line = Vec::from_slice(alloc, b"namespace ")?;
    push_number(&mut line, space)?;
    push_shown_name(&mut line, name)?;
    line.extend_from_slice(b": ")?;
    push_number(&mut line, mounts)?;
    line.extend_from_slice(mounts_word(mounts))?;
    Ok(line)
}

/// The members of the object of a namespace.
fn space_members(
    alloc: Global,
    space: SpaceId,
    name: &[u8],
    mounts: u64,
) -> Result<Members, AllocError>
    ensures { IfOk result (λ members. members_view members.entries ≡ space_members space name.now mounts) }
{
    let mut members = Map::new(alloc);
    put_number(&mut members, alloc, "namespace", space)?;
    put_name(&mut members, alloc, name)?;
    put_number(&mut members, alloc, "mounts", mounts)?;
    Ok(members)
}

/// The line of a namespace with so many mounts, and with its name, but for one that is empty. Fails for want of memory alone.
#[tactic(auto, using(crate::proofs::FloatLaws::counted_free), unfolding(crate::specs::Listing::space_line))]
pub fn space_line(
    alloc: Global,
    telling: Telling,
    space: SpaceId,
    name: &[u8],
    mounts: u64,
) -> Result<Vec<u8>, AllocError>
    ensures { IfOk result (λ line. line.items ≡ space_line telling space name.now mounts) }
{
    match telling {
        Telling::Words => counted_words(alloc, space, name, mounts),
        Telling::Json => value_line(
            alloc,
            &Value::from(space_members(alloc, space, name, mounts)?),
        ),
    }
}
