//! Posts that are due to watchers.
ghost use Rattle.std.specs.Prelude.{◌≡◌, ◌++◌, ◌==◌, not, slice_get, IfOk, OnOk, IsOkUnless};
ghost use Rattle.std.specs.List.{filter, flat_map};
ghost use Rattle.std.specs.Option.{option_map};
ghost use Rattle.std.specs.Arc.{arc_value};
ghost use Rattle.mt_floor.specs.Rows.{due_if};

use crate::row::FloorRow;
use crate::watch::WatchKey;
use mt_events::post::Post;
use mt_skel::fault::Fault;
use std::alloc::Global;
use std::collections::VecDeque;
use std::marker::Model;
use std::sync::Arc;

/// A post that is due to the watcher of a key.
#[derive(Drop)]
pub(crate) struct DuePost {
    key: WatchKey,
    post: Arc<Post>,
}

impl Model for DuePost {
    ghost use Rattle.std.specs.Arc.{arc_value};
    ghost use Rattle.mt_floor.specs.Watcher.{Due};

    ghost Value = { Due };

    ghost view = { λ d. record { post = arc_value d.post; key = d.key } };
}

impl DuePost {
    /// The key of the watcher.
    pub(crate) fn key(&self) -> WatchKey
        ensures { result ≡ self.now.key }
    {
        self.key
    }

    /// The post.
    pub(crate) fn into_post(self) -> Arc<Post>
        ensures { arc_value result ≡ self.post }
    {
        self.post
    }
}

/// Appends what is due of a post to a watcher, if it follows the post.
fn push_due(due: &mut Vec<DuePost>, post: &Arc<Post>, row: &FloorRow) -> Result<(), Fault>
    ensures due { OnOk result (due.new.items ≡ due.old.items ++ due_if (arc_value post.now) row.now) }
    ensures memory { IsOkUnless result Fault.NoMemory }
{
    if row.follows(post) {
        let post = post.clone()?;
        due.push(DuePost {
            key: row.key(),
            post,
        })?;
    }
    Ok(())
}

/// Appends what is due of a post, by keys.
fn push_post(due: &mut Vec<DuePost>, post: &Arc<Post>, rows: &[FloorRow]) -> Result<(), Fault>
    ensures due { OnOk result (due.new.items ≡ due.old.items ++ flat_map (due_if (arc_value post.now)) rows.now) }
    ensures memory { IsOkUnless result Fault.NoMemory }
{
    'rows: for row in rows {
        push_due(due, post, row)?;
    }
    Ok(())
}

/// What is due of posts, by posts and then by keys.
pub(crate) fn due_of(
    alloc: Global,
    posts: &[Arc<Post>],
    rows: &[FloorRow],
) -> Result<VecDeque<DuePost>, Fault>
    ensures due { IfOk result (λ due. due.items ≡ flat_map (λ p. flat_map (due_if (arc_value p)) rows.now) posts.now) }
    ensures memory { IsOkUnless result Fault.NoMemory }
{
    let mut due = Vec::new(alloc);
    'posts: for post in posts {
        push_post(&mut due, post, rows)?;
    }
    Ok(VecDeque::from_vec(due))
}

/// The key of the watcher that is posted to first, if something is due.
pub(crate) fn first_key(due: &VecDeque<DuePost>) -> Option<WatchKey>
    ensures { result ≡ option_map (λ d. d.key) (slice_get due.now.items 0) }
{
    let first = due.front()?;
    Some(first.key)
}

/// Whether something is due to the watcher of a key.
fn is_for(due: &DuePost, key: WatchKey) -> bool
    ensures { result ≡ (due.now.key == key) }
{
    due.key == key
}

/// Takes away what is due to the watcher of a key. Takes no memory.
pub(crate) fn drop_due(due: &mut VecDeque<DuePost>, key: WatchKey)
    ensures { due.new.items ≡ filter (λ d. not (d.key == key)) due.old.items }
{
    due.retain(|due| !is_for(due, key));
}
