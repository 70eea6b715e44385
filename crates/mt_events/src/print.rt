//! The text of a post. If there is not enough memory, what stood in the text stays in it.
ghost use Rattle.std.specs.Prelude.{◌≡◌, ◌+◌, ◌++◌, IfOk, OnOk, IsOkUnless};
ghost use Rattle.std.specs.List.{flat_map, join_with_byte};
ghost use Rattle.mt_skel.specs.Front.{IsFront};
ghost use Rattle.mt_events.specs.Posts.{event_words, gone_line, row_line, post_text, ended};

use crate::post::Post;
use mt_info::print::{push_number, push_row};
use mt_info::row::Row;
use mt_mounts::mount::{MountId, SpaceId};
use mt_skel::fault::Fault;
use std::alloc::{AllocError, Global};

/// The text of a post: its lines, each with its line end.
pub fn print_post(alloc: Global, post: &Post) -> Result<Vec<u8>, Fault>
    ensures text { IfOk result (λ text. text.items ≡ post_text post.now) }
    ensures memory { IsOkUnless result Fault.NoMemory }
{
    let mut text = Vec::new(alloc);
    push_post(&mut text, post)?;
    Ok(text)
}

/// Appends the text of a post: its lines, each with its line end.
#[tactic(auto, using(crate::proofs::PostLaws::post_pieces))]
pub fn push_post(text: &mut Vec<u8>, post: &Post) -> Result<(), AllocError>
    ensures text { OnOk result (text.new.items ≡ text.old.items ++ post_text post.now) }
    ensures kept { IsFront text.old.items text.new.items }
{
    let gone = post.gone.as_slice();
    let rows = post.rows.rows();
    push_event(text, post.space, post.number, gone.len() + rows.len())?;
    push_gone(text, gone)?;
    push_rows(text, rows)?;
    Ok(())
}

/// Appends the first line of a post.
fn push_event(
    text: &mut Vec<u8>,
    space: SpaceId,
    number: u64,
    count: usize,
) -> Result<(), AllocError>
    ensures text { OnOk result (text.new.items ≡ text.old.items ++ ended (join_with_byte 32 (event_words space number count))) }
    ensures kept { IsFront text.old.items text.new.items }
{
    text.extend_from_slice(b"event ")?;
    push_number(text, space)?;
    text.extend_from_slice(b" ")?;
    push_number(text, number)?;
    text.extend_from_slice(b" ")?;
    push_number(text, count as u64)?;
    text.extend_from_slice(b"\n")?;
    Ok(())
}

/// Appends the line of a mount that left.
fn push_gone_line(text: &mut Vec<u8>, id: MountId) -> Result<(), AllocError>
    ensures text { OnOk result (text.new.items ≡ text.old.items ++ ended (gone_line id)) }
    ensures kept { IsFront text.old.items text.new.items }
{
    text.extend_from_slice(b"- ")?;
    push_number(text, id)?;
    text.extend_from_slice(b"\n")?;
    Ok(())
}

/// Appends the line of a row that is new or not as it was.
fn push_row_line(text: &mut Vec<u8>, row: &Row) -> Result<(), AllocError>
    ensures text { OnOk result (text.new.items ≡ text.old.items ++ ended (row_line row.now)) }
    ensures kept { IsFront text.old.items text.new.items }
{
    text.extend_from_slice(b"= ")?;
    push_row(text, row)?;
    text.extend_from_slice(b"\n")?;
    Ok(())
}

/// Appends the lines of the mounts that left.
fn push_gone(text: &mut Vec<u8>, gone: &[MountId]) -> Result<(), AllocError>
    ensures text { OnOk result (text.new.items ≡ text.old.items ++ flat_map (λ i. ended (gone_line i)) gone.now) }
    ensures kept { IsFront text.old.items text.new.items }
{
    'gone: for id in gone {
        push_gone_line(text, *id)?;
    }
    Ok(())
}

/// Appends the lines of the rows.
fn push_rows(text: &mut Vec<u8>, rows: &[Row]) -> Result<(), AllocError>
    ensures text { OnOk result (text.new.items ≡ text.old.items ++ flat_map (λ r. ended (row_line r)) rows.now) }
    ensures kept { IsFront text.old.items text.new.items }
{
    'rows: for row in rows {
        push_row_line(text, row)?;
    }
    Ok(())
}
