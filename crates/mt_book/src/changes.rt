//! What a command changes in the tables of namespaces.
ghost use Rattle.std.specs.Prelude.{◌≡◌, ℕ, ◌≤◌, ◌∷◌, ◌++◌, map, IfOk, OnOk, IsOkUnless, IsTrue, []};
ghost use Rattle.std.specs.List.{list_all};
ghost use Rattle.std.specs.Option.{option_to_list};
ghost use Rattle.std.specs.Arc.{arc_value};
ghost use Rattle.std.specs.Result.{is_ok};
ghost use Rattle.mt_skel.specs.Keyed.{rises};
ghost use Rattle.mt_skel.specs.Skeleton.{IsSkeleton};
ghost use Rattle.mt_propagate.specs.World.{is_space};
ghost use Rattle.mt_propagate.specs.Touched.{IsTouched};
ghost use Rattle.mt_book.specs.Step.{step, next_world, makes_space};
ghost use Rattle.mt_book.specs.Between.{HoldsAll, numbers_after, heard_posts};
ghost use Rattle.mt_book.specs.Parts.{stays_in};
ghost use Rattle.mt_book.specs.Book.{AreNumbers, with_newborn, still_there, space_in, command_limit};

use crate::between::Between;
use crate::command::Command;
use crate::lone::{lone_space, resting_space};
use crate::numbers::{numbers_before, numbers_in, put_number, put_numbers, still_there};
use crate::parts::{parts_of, place_among, spaces_touched};
use mt_events::post::Post;
use mt_events::shared::SharedPosts;
use mt_info::touched::rows_touched;
use mt_mounts::mount::{MountId, SpaceId};
use mt_skel::fault::Fault;
use std::alloc::Global;
use std::sync::Arc;

/// The numbers of the namespaces after a command, and its posts.
#[derive(Drop)]
pub(crate) struct Changes {
    pub(crate) numbers: Vec<(SpaceId, u64)>,
    pub(crate) posts: SharedPosts,
}

/// Appends a post, if there is one.
fn push_post(alloc: Global, posts: &mut Vec<Arc<Post>>, post: Option<Post>) -> Result<(), Fault>
    ensures posts { OnOk result (map (λ p. arc_value p) posts.new.items ≡ map (λ p. arc_value p) posts.old.items ++ option_to_list post) }
    ensures memory { IsOkUnless result Fault.NoMemory }
{
    let Some(post) = post else {
        return Ok(());
    };
    let shared = Arc::new(alloc, post)?;
    posts.push(shared)?;
    Ok(())
}

/// What changes in one namespace that had this number.
fn changes_in_one(
    alloc: Global,
    between: &Between<'_>,
    ids: &[MountId],
    row: (SpaceId, u64),
) -> Result<Changes, Fault>
    requires rising { IsTrue (rises (λ k. k) ids.now) }
    requires held { HoldsAll between.now ids.now row.0 }
    requires few { row.1 ≤ command_limit }
    ensures numbers { IfOk result (λ changes. changes.numbers.items ≡ numbers_after between.now (row ∷ [])) }
    ensures posts { IfOk result (λ changes. changes.posts ≡ heard_posts between.now (row ∷ [])) }
    ensures memory { IsOkUnless result Fault.NoMemory }
{
    let change = between.change(ids, row.0, row.1)?;
    let mut numbers = Vec::with_capacity(alloc, 1)?;
    numbers.push((row.0, change.number))?;
    let mut posts = Vec::new(alloc);
    push_post(alloc, &mut posts, change.post)?;
    Ok(Changes {
        numbers,
        posts: SharedPosts::new(posts),
    })
}

/// What changes in namespaces that had these numbers: in each, the mounts that were or are in it are compared.
fn changes_in_each(
    alloc: Global,
    between: &Between<'_>,
    ids: &[MountId],
    numbers: &[(SpaceId, u64)],
) -> Result<Changes, Fault>
    requires rising { IsTrue (rises (λ k. k) ids.now) }
    requires held { (n : ℕ) → HoldsAll between.now ids.now n }
    requires numbers { AreNumbers numbers.now }
    ensures numbers { IfOk result (λ changes. changes.numbers.items ≡ numbers_after between.now numbers.now) }
    ensures posts { IfOk result (λ changes. changes.posts ≡ heard_posts between.now numbers.now) }
    ensures memory { IsOkUnless result Fault.NoMemory }
{
    let parts = parts_of(alloc, between.old, between.new, ids, numbers)?;
    let mut after = Vec::with_capacity(alloc, numbers.len())?;
    let mut posts = Vec::new(alloc);
    'spaces: for i in 0..numbers.len() {
        let part = parts[i].as_slice();
        let row = numbers[i];
        let change = between.change(part, row.0, row.1)?;
        push_post(alloc, &mut posts, change.post)?;
        after.push((row.0, change.number))?;
    }
    Ok(Changes {
        numbers: after,
        posts: SharedPosts::new(posts),
    })
}

/// What changes in namespaces that had these numbers. If there is only one, as for most commands, the mounts are not
/// told apart.
fn changes_in(
    alloc: Global,
    between: &Between<'_>,
    ids: &[MountId],
    numbers: &[(SpaceId, u64)],
) -> Result<Changes, Fault>
    requires rising { IsTrue (rises (λ k. k) ids.now) }
    requires held { (n : ℕ) → HoldsAll between.now ids.now n }
    requires numbers { AreNumbers numbers.now }
    ensures numbers { IfOk result (λ changes. changes.numbers.items ≡ numbers_after between.now numbers.now) }
    ensures posts { IfOk result (λ changes. changes.posts ≡ heard_posts between.now numbers.now) }
    ensures memory { IsOkUnless result Fault.NoMemory }
{
    if let [row] = numbers {
        return changes_in_one(alloc, between, ids, *row);
    }
    changes_in_each(alloc, between, ids, numbers)
}

/// Renews the numbers if all these mounts are in no other namespace than this one, before or after, and answers the
/// posts: no other number changes.
fn renew_lone(
    alloc: Global,
    between: &Between<'_>,
    ids: &[MountId],
    space: SpaceId,
    numbers: &mut Vec<(SpaceId, u64)>,
) -> Result<SharedPosts, Fault>
    requires rising { IsTrue (rises (λ k. k) ids.now) }
    requires held { (n : ℕ) → HoldsAll between.now ids.now n }
    requires lone { IsTrue (list_all (stays_in between.now.old between.now.new space) ids.now) }
    requires numbers { AreNumbers numbers.old.items }
    ensures numbers { OnOk result (numbers.new.items ≡ numbers_after between.now numbers.old.items) }
    ensures posts { IfOk result (λ posts. posts ≡ heard_posts between.now numbers.old.items) }
    ensures memory { IsOkUnless result Fault.NoMemory }
{
    // What is always true of both worlds.
    let _old = between.old;
    let mut posts = Vec::new(alloc);
    let Some(at) = place_among(numbers, space) else {
        return Ok(SharedPosts::new(posts));
    };
    let row = numbers[at];
    let change = between.change(ids, space, row.1)?;
    push_post(alloc, &mut posts, change.post)?;
    put_number(numbers, (space, change.number));
    Ok(SharedPosts::new(posts))
}

/// Renews the numbers of the namespaces in which one of these mounts was, or is, and answers the posts: no other
/// namespace is looked at.
fn renew_touched(
    alloc: Global,
    between: &Between<'_>,
    ids: &[MountId],
    numbers: &mut Vec<(SpaceId, u64)>,
) -> Result<SharedPosts, Fault>
    requires rising { IsTrue (rises (λ k. k) ids.now) }
    requires held { (n : ℕ) → HoldsAll between.now ids.now n }
    requires numbers { AreNumbers numbers.old.items }
    ensures numbers { OnOk result (numbers.new.items ≡ numbers_after between.now numbers.old.items) }
    ensures posts { IfOk result (λ posts. posts ≡ heard_posts between.now numbers.old.items) }
    ensures memory { IsOkUnless result Fault.NoMemory }
{
    let spaces = spaces_touched(alloc, between.old, between.new, ids)?;
    let before = numbers_in(alloc, numbers, &spaces)?;
    let changes = changes_in(alloc, between, ids, &before)?;
    put_numbers(numbers, &changes.numbers);
    Ok(changes.posts)
}

/// Renews the numbers after a command, given in `touched` each mount that changed, and answers its posts. One that makes
/// directories changes no table, and so none is looked at. Most others touch one namespace and move no mount: then no
/// other row can differ, and none is listed.
fn renew(
    alloc: Global,
    between: &Between<'_>,
    touched: &[MountId],
    numbers: &mut Vec<(SpaceId, u64)>,
    command: &Command,
) -> Result<SharedPosts, Fault>
    requires skeleton { IsSkeleton between.now.old.skel }
    requires next { between.now.new ≡ next_world between.now.old command.now }
    requires touched { IsTouched between.now.old between.now.new touched.now }
    requires rising { IsTrue (rises (λ k. k) touched.now) }
    requires numbers { AreNumbers numbers.old.items }
    ensures numbers { OnOk result (numbers.new.items ≡ numbers_after between.now numbers.old.items) }
    ensures posts { IfOk result (λ posts. posts ≡ heard_posts between.now numbers.old.items) }
    ensures memory { IsOkUnless result Fault.NoMemory }
{
    // What is always true of both worlds.
    let _old = between.old;
    if command.makes_directories() {
        return Ok(SharedPosts::new(Vec::new(alloc)));
    }
    if let Some(space) = resting_space(between.old, between.new, touched) {
        return renew_lone(alloc, between, touched, space, numbers);
    }
    let ids = rows_touched(between.old, between.new, touched)?;
    match lone_space(between.old, between.new, &ids) {
        Some(space) => renew_lone(alloc, between, &ids, space, numbers),
        None => renew_touched(alloc, between, &ids, numbers),
    }
}

/// What a command that is accepted changes for namespaces that had these numbers: those that are there. One that it
/// makes had number 0, and one that it drops no longer has one; only then is it checked which are there. `touched` has
/// each mount that it changed, by rising ID.
pub(crate) fn changes_after(
    alloc: Global,
    between: &Between<'_>,
    touched: &[MountId],
    numbers: &[(SpaceId, u64)],
    command: &Command,
) -> Result<Changes, Fault>
    requires skeleton { IsSkeleton between.now.old.skel }
    requires accepted { IsTrue (is_ok (step between.now.old command.now)) }
    requires next { between.now.new ≡ next_world between.now.old command.now }
    requires touched { IsTouched between.now.old between.now.new touched.now }
    requires rising { IsTrue (rises (λ k. k) touched.now) }
    requires there { IsTrue (list_all (λ r. is_space between.now.old (space_in r)) numbers.now) }
    requires numbers { AreNumbers (with_newborn numbers.now between.now.old.next_space (makes_space command.now)) }
    ensures numbers { IfOk result (λ changes. changes.numbers.items ≡ still_there between.now.new (numbers_after between.now (with_newborn numbers.now between.now.old.next_space (makes_space command.now)))) }
    ensures posts { IfOk result (λ changes. changes.posts ≡ heard_posts between.now (with_newborn numbers.now between.now.old.next_space (makes_space command.now))) }
    ensures memory { IsOkUnless result Fault.NoMemory }
{
    let mut all = numbers_before(
        alloc,
        numbers,
        between.old.next_space,
        command.makes_space(),
    )?;
    let posts = renew(alloc, between, touched, &mut all, command)?;
    if !command.drops_space() {
        return Ok(Changes {
            numbers: all,
            posts,
        });
    }
    let numbers = still_there(alloc, between.new, &all)?;
    Ok(Changes { numbers, posts })
}
