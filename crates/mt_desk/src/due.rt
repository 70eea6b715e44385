//! Posts that are due to the rows of a desk.
ghost use Rattle.std.specs.Prelude.{◌≡◌, ◌++◌, ◌<◌, length, IfOk, OnOk, IsOkUnless};
ghost use Rattle.std.specs.List.{flat_map, AllByRecursion};
ghost use Rattle.std.specs.Arc.{arc_value};
ghost use Rattle.mt_desk.specs.Sending.{due_at};

use crate::places::Slot;
use mt_events::post::Post;
use mt_queue::Item;
use mt_skel::fault::Fault;
use std::alloc::Global;
use std::marker::Model;
use std::sync::Arc;

/// A post that is due to the row at a place.
#[derive(Drop)]
pub(crate) struct DuePost {
    place: usize,
    post: Item,
}

impl Model for DuePost {
    ghost use Rattle.std.specs.Arc.{arc_value};
    ghost use Rattle.mt_desk.specs.Sending.{PlaceDue};

    ghost Value = { PlaceDue };

    ghost view = { λ d. record { place = d.place; post = arc_value d.post } };
}

impl DuePost {
    /// The place and the post.
    pub(crate) fn into_parts(self) -> (usize, Item)
        ensures place { result.0 ≡ self.place }
        ensures post { arc_value result.1 ≡ self.post }
    {
        (self.place, self.post)
    }
}

/// Appends what is due of a post to the row at a place, if it follows the post. Refused as `NoMemory` alone.
fn push_due(
    due: &mut Vec<DuePost>,
    post: &Arc<Post>,
    slots: &[Slot],
    place: usize,
) -> Result<(), Fault>
    requires { place < length slots.now }
    ensures due { OnOk result (due.new.items ≡ due.old.items ++ due_at (arc_value post.now) slots.now place) }
    ensures memory { IsOkUnless result Fault.NoMemory }
{
    if slots[place].follows(post) {
        let post = post.clone()?;
        due.push(DuePost { place, post })?;
    }
    Ok(())
}

/// Appends what is due of a post, in the order of these places. Refused as `NoMemory` alone.
fn push_post(
    due: &mut Vec<DuePost>,
    post: &Arc<Post>,
    slots: &[Slot],
    order: &[usize],
) -> Result<(), Fault>
    requires { AllByRecursion (λ place. place < length slots.now) order.now }
    ensures due { OnOk result (due.new.items ≡ due.old.items ++ flat_map (due_at (arc_value post.now) slots.now) order.now) }
    ensures memory { IsOkUnless result Fault.NoMemory }
{
    'places: for place in order {
        push_due(due, post, slots, *place)?;
    }
    Ok(())
}

/// What is due of posts to the rows at these places, by posts and then in the order of the places. Refused as
/// `NoMemory` alone.
pub(crate) fn due_of(
    alloc: Global,
    posts: &[Arc<Post>],
    slots: &[Slot],
    order: &[usize],
) -> Result<Vec<DuePost>, Fault>
    requires { AllByRecursion (λ place. place < length slots.now) order.now }
    ensures due { IfOk result (λ due. due.items ≡ flat_map (λ p. flat_map (due_at (arc_value p) slots.now) order.now) posts.now) }
    ensures memory { IsOkUnless result Fault.NoMemory }
{
    let mut due = Vec::new(alloc);
    'posts: for post in posts {
        push_post(&mut due, post, slots, order)?;
    }
    Ok(due)
}
