//! The commands that were accepted, and the world that they lead to.
ghost use Rattle.std.specs.Prelude.{◌≡◌, ◌≢◌, IfOk, IfErr, OnErr, OnOk, IsOkUnless, Ok, Err, true, false, ◌<◌, ◌==◌, [], ◌∷◌, ◌++◌, map, length, IsTrue, ◌≤◌};
ghost use Rattle.std.specs.List.{find, flat_map, AllByRecursion};
ghost use Rattle.std.specs.Option.{option_map};
ghost use Rattle.mt_skel.specs.Front.{IsFront};
ghost use Rattle.mt_propagate.specs.World.{world_view, empty_world, is_space};
ghost use Rattle.mt_propagate.specs.WellFormed.{IsWellFormed};
ghost use Rattle.mt_info.specs.RowLine.{whole_line};
ghost use Rattle.mt_info.specs.Table.{table_of};
ghost use Rattle.mt_events.specs.Posts.{IsPost};
ghost use Rattle.mt_book.specs.Step.{after};
ghost use Rattle.mt_book.specs.Commands.{IsCommand};
ghost use Rattle.mt_book.specs.History.{space_number, posts_of};
ghost use Rattle.mt_book.specs.Inside.{StaysInCopy, AllStayInCopies};
ghost use Rattle.mt_book.specs.Covered.{StaysCovered};
ghost use Rattle.mt_book.specs.Book.{answer, accepts, command_limit, found_at, locks_in, space_in, number_in, spaces_of, AreAnswered};
ghost use Rattle.mt_book.specs.Kept.{IsPrepared, prepared_command, prepared_reply, prepared_posts, is_heard};

use crate::between::Between;
use crate::changes::changes_after;
use crate::command::{Command, Reply};
use crate::prepared::Prepared;
use crate::shown_world::Shown;
use crate::spare::{Spare, Tried, keep_level, level, show, try_on};
use mt_events::shared::SharedPosts;
use mt_info::lines::push_table;
use mt_info::table::{Table, table_of};
use mt_locks::mount_locks::MountLocks;
use mt_mounts::mount::{MountId, SpaceId};
use mt_propagate::touched::touched;
use mt_propagate::world::{World, space_of};
use mt_skel::fault::Fault;
use mt_skel::name::Name;
use std::alloc::Global;
use std::marker::Model;
use std::mem;

/// The most commands that are accepted.
const MOST_COMMANDS: usize = 1_048_576;

/// The commands that were accepted, the world that they lead to, and how many posts each namespace that is there has
/// had.
///
/// A second world is kept beside the one that is shown, never more than one command behind. The next command is tried
/// on it, and shown by exchanging the two, so that no command copies a world, not even a refused one. A copy is made
/// only for the first two commands, after a `Prepared` was dropped, or where there was no memory for what a command
/// changed. Both lie in boxes, which are passed on, except for the empty world that is shown before any command.
pub struct Book {
    shown: Shown,
    spare: Spare,
    numbers: Vec<(SpaceId, u64)>,
    journal: Vec<Command>,
    alloc: Global,
}

impl Model for Book {
    ghost use Rattle.std.specs.Prelude.{◌-◌, vec_capacity, vec_len};
    ghost use Rattle.mt_propagate.specs.World.{world_view};
    ghost use Rattle.mt_propagate.specs.Touched.{since_view};
    ghost use Rattle.mt_book.specs.Book.{BookView};
    ghost use Rattle.mt_book.specs.Kept.{IsBook, shown_world};

    ghost Value = { BookView };

    ghost view = { λ b. record { journal = b.journal.items; room = vec_capacity b.journal - vec_len b.journal } };

    ghost invariant = { λ b. IsBook (world_view (shown_world b.shown)) (since_view (shown_world b.shown)) b.spare b.numbers.items b.journal.items };
}

impl Drop for Book {
    fn drop(self) {
        let Book {
            shown: _shown,
            spare: _spare,
            numbers: _numbers,
            journal: _journal,
            alloc: _alloc,
        } = self;
    }
}

impl Book {
    /// A book that has accepted no command: its world has no filesystem and no namespace. Its memory comes from
    /// `alloc`, and none is taken yet.
    pub fn new(alloc: Global) -> Book
        ensures { result.journal ≡ [] }
    {
        Book {
            shown: Shown::First(World::new(alloc)),
            spare: Spare::Gone,
            numbers: Vec::new(alloc),
            journal: Vec::new(alloc),
            alloc,
        }
    }

    /// The commands that were accepted, in their order: 1,048,576 at most, and each was accepted where it stands. Their
    /// texts are labels and names.
    pub fn journal(&self) -> &[Command]
        ensures journal { result.now ≡ self.now.journal }
        ensures accepted { IsTrue (accepts empty_world self.now.journal) }
        ensures few { length self.now.journal ≤ command_limit }
        ensures texts { AllByRecursion IsCommand self.now.journal }
    {
        self.journal.as_slice()
    }

    /// The world that is shown.
    fn world(&self) -> &World
        ensures world { world_view result.now ≡ after self.now.journal }
        ensures well_formed { IsWellFormed (world_view result.now) }
    {
        self.shown.world()
    }

    /// Does a command beside the world that is shown, and takes all the memory that showing it needs: `commit` shows
    /// it, and a `Prepared` that is dropped was never done. The book answers as before, whether the command is refused
    /// or not, and what was prepared before can still be shown: the room for it stays (`room_stays`). The fields of
    /// each of its posts have what its type says (`valid`).
    ///
    /// `heard` says whether somebody asks for the posts. If nobody does, none is made: a namespace is looked at up to the
    /// first mount whose row changed.
    ///
    /// Refused as `JournalFull` after 1,048,576 accepted commands, otherwise with the first of the command's own
    /// refusals that holds, and as `NoMemory`.
    #[tactic(auto, unfolding(crate::specs::Book::answer))]
    pub fn prepare(&mut self, command: &Command, heard: bool) -> Result<Prepared, Fault>
        ensures prepared { IfOk result (λ prepared. IsPrepared self.old.journal prepared) }
        ensures command { IfOk result (λ prepared. prepared_command prepared ≡ command.now) }
        ensures heard { IfOk result (λ prepared. is_heard prepared ≡ heard) }
        ensures valid { IfOk result (λ prepared. AllByRecursion IsPost (prepared_posts prepared)) }
        ensures room { OnOk result (0 < self.new.room) }
        ensures room_stays { self.old.room ≤ self.new.room }
        ensures refused { IfErr result (λ fault. fault ≢ Fault.NoMemory → answer self.old.journal command.now ≡ Err fault) }
        ensures unchanged { self.new.journal ≡ self.old.journal }
    {
        if self.journal.len() >= MOST_COMMANDS {
            return Err(Fault::JournalFull);
        }
        self.journal.reserve(1)?;
        let spare = mem::replace(&mut self.spare, Spare::Gone);
        let world = level(self.alloc, spare, self.shown.world(), &self.journal)?;
        match try_on(world, command) {
            Tried::Refused(world, fault) => {
                keep_level(&mut self.spare, world);
                Err(fault)
            }
            Tried::Changed(world, reply) => {
                let copy = command.copy()?;
                command.read_texts();
                let shown: &World = self.shown.world();
                let changed: &World = &world;
                let ids = touched(shown, changed)?;
                let between = Between::new(shown, changed, heard);
                let changes = changes_after(self.alloc, &between, &ids, &self.numbers, command)?;
                Ok(Prepared {
                    world,
                    command: copy,
                    reply,
                    numbers: changes.numbers,
                    posts: changes.posts,
                    heard,
                })
            }
        }
    }

    /// Shows what was prepared, and answers the command's reply and its posts, by rising namespace. It cannot be
    /// refused, and takes no memory: what is shown was prepared for the commands that the book has now, and there is
    /// room for one more. What was issued in the family of a less privileged copy stays in it, and what is covered stays
    /// covered, as `apply` has both (`inside`, `covered`).
    pub fn commit(&mut self, prepared: Prepared) -> (Reply, SharedPosts)
        requires prepared { IsPrepared self.old.journal prepared }
        requires room { 0 < self.old.room }
        ensures journal { self.new.journal ≡ self.old.journal ++ prepared_command prepared ∷ [] }
        ensures reply { result.0 ≡ prepared_reply prepared }
        ensures posts { result.1 ≡ prepared_posts prepared }
        ensures inside { StaysInCopy self.old.journal (prepared_command prepared) self.new.journal }
        ensures covered { StaysCovered self.old.journal (prepared_command prepared) self.new.journal }
    {
        let Prepared {
            world,
            command,
            reply,
            numbers,
            posts,
            heard: _heard,
        } = prepared;
        self.spare = show(&mut self.shown, world);
        self.numbers = numbers;
        self.journal.push(command).unwrap();
        (reply, posts)
    }

    /// Does a command, and answers its reply and its posts, by rising namespace: one for each namespace whose table it
    /// changed, each with fields that have what its type says (`valid`).
    ///
    /// Refused as `JournalFull` after 1,048,576 accepted commands, otherwise with the first of the command's own
    /// refusals that holds, and as `NoMemory`; then nothing has changed.
    ///
    /// If it is issued in the family of a namespace that was made by `copyns` with `less`, and no later command has
    /// attached a tree with a group or a master over the family's border, it leaves the table and the number of every
    /// namespace outside as they were (`inside`). The family is that namespace, what is copied from one of the family,
    /// and the trees that are opened in one.
    ///
    /// A mount that is locked on its place stays there and stays locked, or goes with the mount on which it stands, or
    /// slides to where that stood; unless an unmount elsewhere reaches it, or a copy comes between it and its place
    /// (`covered`).
    pub fn apply(&mut self, command: &Command) -> Result<(Reply, SharedPosts), Fault>
        ensures done { IfOk result (λ done. answer self.old.journal command.now ≡ Ok done.0) }
        ensures posts { IfOk result (λ done. done.1 ≡ posts_of self.old.journal command.now) }
        ensures valid { IfOk result (λ done. AllByRecursion IsPost done.1) }
        ensures journal { OnOk result (self.new.journal ≡ self.old.journal ++ command.now ∷ []) }
        ensures refused { IfErr result (λ fault. fault ≢ Fault.NoMemory → answer self.old.journal command.now ≡ Err fault) }
        ensures unchanged { OnErr result (self.new.journal ≡ self.old.journal) }
        ensures inside { StaysInCopy self.old.journal command.now self.new.journal }
        ensures covered { StaysCovered self.old.journal command.now self.new.journal }
    {
        let prepared = self.prepare(command, true)?;
        Ok(self.commit(prepared))
    }

    /// The table of a namespace. Refused as `NoNamespace` if there is no such namespace, and as `NoMemory`.
    pub fn table(&self, space: SpaceId) -> Result<Table, Fault>
        ensures done { IfOk result (λ table. (is_space (after self.now.journal) space ≡ true) × (table ≡ table_of (after self.now.journal) space)) }
        ensures refused { IfErr result (λ fault. fault ≢ Fault.NoMemory → (fault ≡ Fault.NoNamespace) × (is_space (after self.now.journal) space ≡ false)) }
    {
        table_of(self.world(), space)
    }

    /// How many rows the table of a namespace has; 0 if there is no such namespace. Takes no memory.
    pub fn row_count(&self, space: SpaceId) -> usize
        ensures { result ≡ length (table_of (after self.now.journal) space) }
    {
        self.world().forest.count_in(space)
    }

    /// Appends the lines of the table of a namespace, each with its line end. Refused as `NoNamespace` exactly where
    /// there is no such namespace, and otherwise only as `NoMemory`; what stood in the text stays in it even then.
    pub fn push_table(&self, text: &mut Vec<u8>, space: SpaceId) -> Result<(), Fault>
        ensures done { OnOk result ((is_space (after self.now.journal) space ≡ true) × (text.new.items ≡ text.old.items ++ flat_map whole_line (table_of (after self.now.journal) space))) }
        ensures absent { is_space (after self.now.journal) space ≡ false → result ≡ Err Fault.NoNamespace }
        ensures refused { IfErr result (λ fault. fault ≢ Fault.NoMemory → (fault ≡ Fault.NoNamespace) × (is_space (after self.now.journal) space ≡ false)) }
        ensures kept { IsFront text.old.items text.new.items }
    {
        let world = self.world();
        if world.forest.root(space).is_none() {
            return Err(Fault::NoNamespace);
        }
        push_table(text, world, space)
    }

    /// How many posts a namespace has had: the number of the last one, or 0. Refused as `NoNamespace` exactly where
    /// there is no such namespace.
    pub fn number(&self, space: SpaceId) -> Result<u64, Fault>
        ensures done { IfOk result (λ number. (is_space (after self.now.journal) space ≡ true) × (number ≡ space_number space self.now.journal)) }
        ensures refused { IfErr result (λ fault. (fault ≡ Fault.NoNamespace) × (is_space (after self.now.journal) space ≡ false)) }
    {
        number_of(&self.numbers, space).ok_or(Fault::NoNamespace)
    }

    /// The namespaces, by rising number.
    pub fn spaces(&self) -> Result<Vec<SpaceId>, Fault>
        ensures spaces { IfOk result (λ spaces. spaces.items ≡ spaces_of (after self.now.journal)) }
        ensures memory { IsOkUnless result Fault.NoMemory }
    {
        let spaces = spaces_in(self.alloc, &self.numbers)?;
        Ok(spaces)
    }

    /// What is locked of the mounts of a namespace, of each of which something is. Refused as `NoNamespace` exactly where there
    /// is no such namespace, and otherwise only as `NoMemory`.
    pub fn locks(&self, space: SpaceId) -> Result<Vec<MountLocks>, Fault>
        ensures done { IfOk result (λ locks. (is_space (after self.now.journal) space ≡ true) × (locks.items ≡ locks_in (after self.now.journal) space)) }
        ensures refused { IfErr result (λ fault. fault ≢ Fault.NoMemory → (fault ≡ Fault.NoNamespace) × (is_space (after self.now.journal) space ≡ false)) }
    {
        let world = self.world();
        if world.forest.root(space).is_none() {
            return Err(Fault::NoNamespace);
        }
        locks_in(world, space)
    }

    /// Where the walk along a path ends in a namespace: the mount, and the names from its
    /// filesystem's root down to the directory. Refused as `NoNamespace`, as `NoEntry` if a
    /// component is not there, and as `NoMemory`.
    pub fn find(&self, space: SpaceId, path: &[Name]) -> Result<(MountId, Vec<Name>), Fault>
        ensures done { IfOk result (λ found. found_at (after self.now.journal) space path.now ≡ Ok (found.0, found.1.items)) }
        ensures refused { IfErr result (λ fault. fault ≢ Fault.NoMemory → found_at (after self.now.journal) space path.now ≡ Err fault) }
    {
        found_in(self.world(), space, path)
    }

    /// Does commands one after another, and answers each as `apply` does, including those that it refuses. The call
    /// itself is refused only where there is no room for the answers.
    ///
    /// Each command of the journal that was issued in the family of a namespace made by `copyns` with `less`, over whose
    /// border no command had attached a tree with a group or a master since, has left the table and the number of every
    /// namespace outside as they were (`inside`).
    pub fn run(
        &mut self,
        commands: &[Command],
    ) -> Result<Vec<Result<(Reply, SharedPosts), Fault>>, Fault>
        ensures done { IfOk result (λ answers. AreAnswered self.old.journal commands.now answers.items self.new.journal) }
        ensures memory { IsOkUnless result Fault.NoMemory }
        ensures unchanged { OnErr result (self.new.journal ≡ self.old.journal) }
        ensures inside { AllStayInCopies self.new.journal }
    {
        let mut answers = Vec::with_capacity(self.alloc, commands.len())?;
        'commands: for i in 0..commands.len() {
            let answer = self.apply(&commands[i]);
            answers.push(answer).unwrap();
        }
        Ok(answers)
    }
}

/// The number of a namespace, if it is among these.
fn number_of(numbers: &[(SpaceId, u64)], space: SpaceId) -> Option<u64>
    ensures { result ≡ option_map number_in (find (λ r. space_in r == space) numbers.now) }
{
    'spaces: for row in numbers {
        if row.0 == space {
            return Some(row.1);
        }
    }
    None
}

/// The namespaces of which these are the numbers.
fn spaces_in(alloc: Global, numbers: &[(SpaceId, u64)]) -> Result<Vec<SpaceId>, Fault>
    ensures spaces { IfOk result (λ spaces. spaces.items ≡ map space_in numbers.now) }
    ensures memory { IsOkUnless result Fault.NoMemory }
{
    let mut spaces = Vec::with_capacity(alloc, numbers.len())?;
    'spaces: for row in numbers {
        spaces.push(row.0)?;
    }
    Ok(spaces)
}

/// What is locked of the mounts of a namespace in a world, as `Book::locks` says.
fn locks_in(world: &World, space: SpaceId) -> Result<Vec<MountLocks>, Fault>
    ensures locks { IfOk result (λ locks. locks.items ≡ locks_in (world_view world.now) space) }
    ensures memory { IsOkUnless result Fault.NoMemory }
{
    let rows = world.locks.mounts();
    let mut locks = Vec::new(world.forest.allocator());
    'locking: for row in rows {
        if space_of(world, row.mount) == space {
            locks.push(*row)?;
        }
    }
    Ok(locks)
}

/// Where the walk along a path ends in a world, as `Book::find` says.
fn found_in(world: &World, space: SpaceId, path: &[Name]) -> Result<(MountId, Vec<Name>), Fault>
    requires well_formed { IsWellFormed (world_view world.now) }
    ensures done { IfOk result (λ found. found_at (world_view world.now) space path.now ≡ Ok (found.0, found.1.items)) }
    ensures refused { IfErr result (λ fault. fault ≢ Fault.NoMemory → found_at (world_view world.now) space path.now ≡ Err fault) }
{
    let place = world.forest.walk(&world.skel, space, path)?;
    let names = world.skel.path_of(place.dir)?;
    Ok((place.mount, names))
}
