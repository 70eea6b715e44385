//! A post as it is told: in words, or as JSON.
ghost use Rattle.std.specs.Prelude.{◌≡◌, IfOk};
ghost use Rattle.mt_render.specs.Events.{told_as};

use crate::events::push_events;
use crate::wording::push_named;
use mt_events::mirror::Mirror;
use mt_events::post::Post;
use std::alloc::{AllocError, Global};

/// How a post is told.
#[derive(Clone, Copy, PartialEq, Eq, Debug)]
pub enum Telling {
    /// In words, a line for each mount.
    Words,
    /// As JSON, an object a line for each mount.
    Json,
}

/// What a post says of its namespace: first a line for each mount that left, by rising ID, and then one for each row, by
/// rising ID. The mirror has the table before the post: from it is what of a mount was. A name that is not empty stands
/// beside the number of the namespace. Fails for want of memory alone.
#[tactic(auto, unfolding(crate::specs::Events::told_as))]
pub fn told_as(
    alloc: Global,
    telling: Telling,
    mirror: &Mirror,
    post: &Post,
    name: &[u8],
) -> Result<Vec<u8>, AllocError>
    ensures told { IfOk result (λ text. text.items ≡ told_as telling name.now mirror.now post.now) }
{
    let mut text = Vec::new(alloc);
    match telling {
        Telling::Words => push_named(&mut text, mirror, post, name)?,
        Telling::Json => push_events(&mut text, mirror, post, name)?,
    }
    Ok(text)
}
