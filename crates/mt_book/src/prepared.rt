//! A command that was done, but not yet shown.
ghost use Rattle.std.specs.Prelude.{◌≡◌, map};
ghost use Rattle.std.specs.Arc.{arc_value};
ghost use Rattle.mt_book.specs.Kept.{prepared_posts};

use crate::command::{Command, Reply};
use mt_events::post::Post;
use mt_events::shared::SharedPosts;
use mt_mounts::mount::SpaceId;
use mt_propagate::world::World;
use std::sync::Arc;

/// A command that was done beside the world that is shown, with all the memory that showing it needs. `Book::prepare`
/// makes it, `Book::commit` shows it; dropped, it was never done.
#[derive(Drop)]
pub struct Prepared {
    pub(crate) world: Box<World>,
    pub(crate) command: Command,
    pub(crate) reply: Reply,
    pub(crate) numbers: Vec<(SpaceId, u64)>,
    pub(crate) posts: SharedPosts,
    /// Whether somebody asks for the posts.
    pub(crate) heard: bool,
}

impl Prepared {
    /// The posts that the command will give, by rising namespace; none if nobody asks for them (`Book::prepare`).
    pub fn posts(&self) -> &[Arc<Post>]
        ensures { map (λ p. arc_value p) result.now ≡ prepared_posts self.now }
    {
        self.posts.as_slice()
    }
}
