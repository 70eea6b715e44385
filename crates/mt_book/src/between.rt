//! The worlds before and after a command.
ghost use Rattle.std.specs.Prelude.{◌≡◌, ◌≤◌, IfOk, IsOkUnless, IsTrue, None, cond};
ghost use Rattle.mt_skel.specs.Keyed.{rises};
ghost use Rattle.mt_propagate.specs.World.{world_view};
ghost use Rattle.mt_propagate.specs.WellFormed.{IsWellFormed};
ghost use Rattle.mt_book.specs.Book.{next_number, next_post, command_limit};
ghost use Rattle.mt_book.specs.Between.{BetweenView, HoldsAll};

use mt_events::comparison::is_changed;
use mt_events::post::Post;
use mt_events::touched::change_of;
use mt_mounts::mount::{MountId, SpaceId};
use mt_propagate::world::World;
use mt_skel::fault::Fault;
use std::marker::Model;

/// The worlds before and after a command, and whether somebody asks for its posts.
#[derive(Drop)]
pub(crate) struct Between<'a> {
    pub(crate) old: &'a World,
    pub(crate) new: &'a World,
    heard: bool,
}

impl<'a> Model for Between<'a> {
    ghost use Rattle.mt_propagate.specs.World.{world_view};
    ghost use Rattle.mt_book.specs.Between.{BetweenView, AreWorlds};

    ghost Value = { BetweenView };

    ghost view = { λ b. record { old = world_view b.old.now; new = world_view b.new.now; heard = b.heard } };

    ghost invariant = { λ b. AreWorlds (record { old = world_view b.old.now; new = world_view b.new.now; heard = b.heard }) };
}

/// What a command changes in one namespace.
#[derive(Drop)]
pub(crate) struct Change {
    /// The number that the namespace has after it.
    pub(crate) number: u64,
    /// Its post, if its table changed and somebody asks for it.
    pub(crate) post: Option<Post>,
}

impl<'a> Between<'a> {
    /// Two worlds, and whether somebody asks for posts.
    pub(crate) fn new(old: &'a World, new: &'a World, heard: bool) -> Self
        requires old { IsWellFormed (world_view old.now) }
        requires new { IsWellFormed (world_view new.now) }
        ensures old { result.old ≡ world_view old.now }
        ensures new { result.new ≡ world_view new.now }
        ensures heard { result.heard ≡ heard }
    {
        Between { old, new, heard }
    }

    /// The number of a namespace that had this one: one more if its table is not the same in both worlds. Only these
    /// mounts are looked at, among which are all whose rows differ.
    fn number(&self, ids: &[MountId], space: SpaceId, number: u64) -> Result<u64, Fault>
        requires rising { IsTrue (rises (λ k. k) ids.now) }
        requires held { HoldsAll self.now ids.now space }
        requires few { number ≤ command_limit }
        ensures number { IfOk result (λ k. k ≡ next_number self.now.old self.now.new space number) }
        ensures memory { IsOkUnless result Fault.NoMemory }
    {
        let changed = is_changed(self.old, self.new, space, ids)?;
        Ok(if changed { number + 1 } else { number })
    }

    /// The number, as [`number`](Between::number) has it, and the post, if there is one.
    fn post(&self, ids: &[MountId], space: SpaceId, number: u64) -> Result<Change, Fault>
        requires rising { IsTrue (rises (λ k. k) ids.now) }
        requires held { HoldsAll self.now ids.now space }
        requires few { number ≤ command_limit }
        ensures number { IfOk result (λ change. change.number ≡ next_number self.now.old self.now.new space number) }
        ensures post { IfOk result (λ change. change.post ≡ next_post self.now.old self.now.new space number) }
        ensures memory { IsOkUnless result Fault.NoMemory }
    {
        let Some(delta) = change_of(self.old, self.new, space, ids)? else {
            return Ok(Change { number, post: None });
        };
        let number = number + 1;
        Ok(Change {
            number,
            post: Some(Post::telling(space, number, delta)),
        })
    }

    /// What changes in a namespace that had this number; its post only if somebody asks for it. Only these mounts are
    /// looked at, among which are all whose rows differ there.
    pub(crate) fn change(
        &self,
        ids: &[MountId],
        space: SpaceId,
        number: u64,
    ) -> Result<Change, Fault>
        requires rising { IsTrue (rises (λ k. k) ids.now) }
        requires held { HoldsAll self.now ids.now space }
        requires few { number ≤ command_limit }
        ensures number { IfOk result (λ change. change.number ≡ next_number self.now.old self.now.new space number) }
        ensures post { IfOk result (λ change. change.post ≡ cond self.now.heard (next_post self.now.old self.now.new space number) None) }
        ensures memory { IsOkUnless result Fault.NoMemory }
    {
        if self.heard {
            return self.post(ids, space, number);
        }
        let number = self.number(ids, space, number)?;
        Ok(Change { number, post: None })
    }
}
