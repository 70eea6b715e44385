//! The world that calls are played on.
ghost use Rattle.std.specs.Prelude.{◌≡◌, ◌≢◌, false, Ok, Err, IfOk, OnOk, IfErr, OnErr, IfSome, IsOkUnless};
ghost use Rattle.mt_propagate.specs.World.{world_view};
ghost use Rattle.mt_propagate.specs.WellFormed.{IsWellFormed};
ghost use Rattle.mt_propagate.specs.Touched.{since_of, since_view};
ghost use Rattle.mt_book.specs.Step.{makes_directories};
ghost use Rattle.mt_book.specs.declared.command.Reply.{Reply as ReplyOf};
ghost use Rattle.mt_book.specs.Attempts.{tried};
ghost use Rattle.mt_trace.specs.Stages.{IsAttempt, IsSpareWorld, IsStage, world_after_trial, all_tried, why_refused};
ghost use Rattle.mt_trace.specs.declared.stage.Spare.TheVariants as spare_with;

use crate::stage_changes::{SpaceChange, changes_between};
use mt_book::attempt::try_step;
use mt_book::command::{Command, Reply};
use mt_propagate::world::World;
use mt_skel::fault::Fault;
use std::alloc::Global;
use std::marker::Model;
use std::mem;

/// A second world beside the one that is shown.
#[derive(Drop)]
pub(crate) enum Spare {
    /// There is none.
    Gone,
    /// It is equal to the one that is shown.
    Level(Box<World>),
    /// It lacks the last command.
    Behind(Box<World>),
}

/// How a command went on a world.
#[derive(Drop)]
pub(crate) enum Attempt {
    /// The world after it, and its answer.
    Changed(Box<World>, Reply),
    /// The world as it was, and why it was refused.
    Refused(Box<World>, Fault),
}

/// The world that calls are played on, and beside it the one before the last command.
pub struct Stage {
    alloc: Global,
    shown: Box<World>,
    spare: Spare,
}

impl Model for Stage {
    ghost use Rattle.mt_propagate.specs.World.{WorldView, world_view};
    ghost use Rattle.mt_propagate.specs.Touched.{since_view};
    ghost use Rattle.mt_trace.specs.Stages.{IsStage};

    ghost Value = { WorldView };

    ghost view = { λ s. world_view s.shown.value };

    ghost invariant = { λ s. IsStage (world_view s.shown.value) (since_view s.shown.value) s.spare };
}

impl Drop for Stage {
    fn drop(self) {
        let Stage {
            alloc: _alloc,
            shown: _shown,
            spare: _spare,
        } = self;
    }
}

/// Does a command on a world, in which changes are noted from here on.
fn try_on(world: Box<World>, command: &Command) -> Attempt
    requires { IsWellFormed (world_view world.value) }
    ensures { IsAttempt (world_view world.value) command.now result }
{
    let mut next = world;
    next.begin();
    match try_step(&mut next, command) {
        Ok(reply) => Attempt::Changed(next, reply),
        Err(fault) => Attempt::Refused(next, fault),
    }
}

/// A world after a command; none where there is no memory for it.
fn grown(world: Box<World>, command: &Command) -> Option<Box<World>>
    requires { IsWellFormed (world_view world.value) }
    ensures { IfSome result (λ next. (reply : ReplyOf) × (tried (world_view world.value) command.now ≡ Ok (world_view next.value, reply))) }
{
    let mut next = world;
    match try_step(&mut next, command) {
        Ok(_reply) => Some(next),
        Err(_fault) => None,
    }
}

/// A copy of a world, in a box of its own.
fn boxed_copy(alloc: Global, world: &World) -> Result<Box<World>, Fault>
    ensures world { IfOk result (λ copy. world_view copy.value ≡ world_view world.now) }
    ensures memory { IsOkUnless result Fault.NoMemory }
{
    let same = world.copy()?;
    let boxed = Box::new(alloc, same)?;
    Ok(boxed)
}

/// Brings a world that lacks the last command to the one that is shown.
fn followed(world: Box<World>, shown: &World) -> Result<Box<World>, Fault>
    requires since { since_view shown.now ≡ since_of (world_view world.value) }
    requires skel { (world_view shown.now).skel ≡ (world_view world.value).skel }
    ensures world { IfOk result (λ next. world_view next.value ≡ world_view shown.now) }
    ensures memory { IsOkUnless result Fault.NoMemory }
{
    let mut equal = world;
    equal.follow(shown)?;
    Ok(equal)
}

/// A world that is equal to the one that is shown.
fn level(alloc: Global, spare: Spare, shown: &World) -> Result<Box<World>, Fault>
    requires { IsSpareWorld (world_view shown.now) (since_view shown.now) spare }
    ensures world { IfOk result (λ world. world_view world.value ≡ world_view shown.now) }
    ensures memory { IsOkUnless result Fault.NoMemory }
{
    match spare {
        Spare::Gone => boxed_copy(alloc, shown),
        Spare::Level(world) => Ok(world),
        Spare::Behind(world) => followed(world, shown),
    }
}

/// Keeps a world that is equal to the one that is shown.
fn keep_level(shown: &World, spare: &mut Spare, world: Box<World>)
    requires shown { IsWellFormed (world_view shown.now) }
    requires level { world_view world.value ≡ world_view shown.now }
    ensures { IsStage (world_view shown.now) (since_view shown.now) spare.new }
{
    *spare = Spare::Level(world);
}

/// Shows a world, and keeps the one that was shown before the last command.
fn show(shown: &mut Box<World>, spare: &mut Spare, world: Box<World>)
    requires before { IsWellFormed (world_view shown.old.value) }
    requires after { IsWellFormed (world_view world.value) }
    requires since { since_view world.value ≡ since_of (world_view shown.old.value) }
    requires skel { (world_view world.value).skel ≡ (world_view shown.old.value).skel }
    ensures stage { IsStage (world_view shown.new.value) (since_view shown.new.value) spare.new }
    ensures shown { world_view shown.new.value ≡ world_view world.value }
{
    let before = mem::replace(shown, world);
    *spare = Spare::Behind(before);
}

/// Does a command where it can be done. Refused as `NoMemory` alone.
fn grow_one(world: &mut World, command: &Command) -> Result<(), Fault>
    requires { IsWellFormed (world_view world.old) }
    ensures grown { OnOk result (world_view world.new ≡ world_after_trial (world_view world.old) (tried (world_view world.old) command.now)) }
    ensures kept { IsWellFormed (world_view world.new) }
    ensures memory { IsOkUnless result Fault.NoMemory }
{
    match try_step(world, command) {
        Ok(_reply) => Ok(()),
        Err(fault) => {
            if fault == Fault::NoMemory {
                Err(Fault::NoMemory)
            } else {
                Ok(())
            }
        }
    }
}

/// Does commands where they can be done. Refused as `NoMemory` alone.
fn grow_all(world: &mut World, commands: &[Command]) -> Result<(), Fault>
    requires { IsWellFormed (world_view world.old) }
    ensures grown { OnOk result (world_view world.new ≡ all_tried (world_view world.old) commands.now) }
    ensures kept { IsWellFormed (world_view world.new) }
    ensures memory { IsOkUnless result Fault.NoMemory }
{
    'each: for command in commands {
        grow_one(world, command)?;
    }
    Ok(())
}

/// Does commands where they can be done, and then one more, and answers why that is refused, if it is. Refused as `NoMemory` alone.
fn asked_on(
    world: &mut World,
    before: &[Command],
    command: &Command,
) -> Result<Option<Fault>, Fault>
    requires { IsWellFormed (world_view world.old) }
    ensures answer { IfOk result (λ why. why ≡ why_refused (tried (all_tried (world_view world.old) before.now) command.now)) }
    ensures memory { IsOkUnless result Fault.NoMemory }
{
    grow_all(world, before)?;
    match try_step(world, command) {
        Ok(_reply) => Ok(None),
        Err(fault) => {
            if fault == Fault::NoMemory {
                Err(Fault::NoMemory)
            } else {
                Ok(Some(fault))
            }
        }
    }
}

/// Whether a command makes a filesystem or a directory, or gives room for them, which no table shows before a mount does.
fn makes_directories(command: &Command) -> bool
    ensures { result ≡ makes_directories command.now }
{
    match command {
        Command::Room { .. } | Command::MakeFs { .. } | Command::MakeDir { .. } => true,
        Command::NewSpace { .. }
        | Command::CopySpace { .. }
        | Command::DropSpace { .. }
        | Command::Mount { .. }
        | Command::MountWith { .. }
        | Command::Bind { .. }
        | Command::Move { .. }
        | Command::Pivot { .. }
        | Command::Unmount { .. }
        | Command::Detach { .. }
        | Command::SetAttr { .. }
        | Command::OpenTree { .. }
        | Command::NewTree { .. }
        | Command::MoveTree { .. } => false,
    }
}

/// Does a command on the world that is shown, beside which there is no other one from here on. Refused as the command is.
fn grow_shown(shown: &mut World, spare: &mut Spare, command: &Command) -> Result<Reply, Fault>
    requires { IsWellFormed (world_view shown.old) }
    ensures done { IfOk result (λ reply. tried (world_view shown.old) command.now ≡ Ok (world_view shown.new, reply)) }
    ensures refused { IfErr result (λ fault. fault ≢ Fault.NoMemory → tried (world_view shown.old) command.now ≡ Err fault) }
    ensures unchanged { OnErr result (world_view shown.new ≡ world_view shown.old) }
    ensures kept { IsWellFormed (world_view shown.new) }
    ensures spare { spare.new ≡ spare_with.Gone }
{
    *spare = Spare::Gone;
    try_step(shown, command)
}

impl Stage {
    /// The stage of a world. Refused as `NoMemory` alone.
    pub fn new(alloc: Global, world: &World) -> Result<Stage, Fault>
        requires { IsWellFormed (world_view world.now) }
        ensures stage { IfOk result (λ stage. stage ≡ world_view world.now) }
        ensures memory { IsOkUnless result Fault.NoMemory }
    {
        let copy = world.copy()?;
        Ok(Stage {
            alloc,
            shown: Box::new(alloc, copy)?,
            spare: Spare::Gone,
        })
    }

    /// The world after all commands.
    pub fn world(&self) -> &World
        ensures world { world_view result.now ≡ self.now }
        ensures well_formed { IsWellFormed (world_view result.now) }
    {
        &self.shown
    }

    /// Takes a world out that is equal to the one that is shown. Refused as `NoMemory` alone.
    fn take_level(&mut self) -> Result<Box<World>, Fault>
        ensures level { IfOk result (λ level. world_view level.value ≡ self.old) }
        ensures well_formed { IfOk result (λ level. IsWellFormed (world_view level.value)) }
        ensures same { self.new ≡ self.old }
        ensures memory { IsOkUnless result Fault.NoMemory }
    {
        let spare = mem::replace(&mut self.spare, Spare::Gone);
        level(self.alloc, spare, &self.shown)
    }

    /// Does a command that makes a filesystem or a directory. Refused as the command is; then nothing has changed.
    #[tactic(auto, using(crate::proofs::StageLaws::one_after))]
    fn grow(&mut self, command: &Command) -> Result<Reply, Fault>
        ensures done { IfOk result (λ reply. tried self.old command.now ≡ Ok (self.new, reply)) }
        ensures refused { IfErr result (λ fault. fault ≢ Fault.NoMemory → tried self.old command.now ≡ Err fault) }
        ensures unchanged { OnErr result (self.new ≡ self.old) }
    {
        let next = self.take_level()?;
        let reply = grow_shown(&mut self.shown, &mut self.spare, command)?;
        if let Some(next) = grown(next, command) {
            keep_level(&self.shown, &mut self.spare, next);
        }
        Ok(reply)
    }

    /// Does another command. Refused as the command is; then nothing has changed.
    fn change(&mut self, command: &Command) -> Result<Reply, Fault>
        requires { makes_directories command.now ≡ false }
        ensures done { IfOk result (λ reply. tried self.old command.now ≡ Ok (self.new, reply)) }
        ensures refused { IfErr result (λ fault. fault ≢ Fault.NoMemory → tried self.old command.now ≡ Err fault) }
        ensures unchanged { OnErr result (self.new ≡ self.old) }
    {
        let next = self.take_level()?;
        match try_on(next, command) {
            Attempt::Changed(next, reply) => {
                show(&mut self.shown, &mut self.spare, next);
                Ok(reply)
            }
            Attempt::Refused(next, fault) => {
                keep_level(&self.shown, &mut self.spare, next);
                Err(fault)
            }
        }
    }

    /// Does a command. Refused as the command is, and as `TooMany` where numbers run out; then nothing has changed.
    pub fn run(&mut self, command: &Command) -> Result<Reply, Fault>
        ensures done { IfOk result (λ reply. tried self.old command.now ≡ Ok (self.new, reply)) }
        ensures refused { IfErr result (λ fault. fault ≢ Fault.NoMemory → tried self.old command.now ≡ Err fault) }
        ensures unchanged { OnErr result (self.new ≡ self.old) }
    {
        if makes_directories(command) {
            self.grow(command)
        } else {
            self.change(command)
        }
    }

    /// Whether a command would be done on a world that is equal to the one that is shown: why it is refused, if it is.
    fn ask_level(&mut self, world: Box<World>, command: &Command) -> Result<Option<Fault>, Fault>
        requires level { world_view world.value ≡ self.old }
        requires well_formed { IsWellFormed (world_view world.value) }
        ensures answer { IfOk result (λ why. why ≡ why_refused (tried self.old command.now)) }
        ensures unchanged { self.new ≡ self.old }
        ensures memory { IsOkUnless result Fault.NoMemory }
    {
        match try_on(world, command) {
            Attempt::Changed(_world, _reply) => Ok(None),
            Attempt::Refused(world, fault) => {
                keep_level(&self.shown, &mut self.spare, world);
                if fault == Fault::NoMemory {
                    Err(Fault::NoMemory)
                } else {
                    Ok(Some(fault))
                }
            }
        }
    }

    /// Whether a command would be done once others are, which are done where they can be: why it is refused, if it is. Nothing changes.
    /// Refused as `NoMemory` alone.
    pub fn ask(&mut self, before: &[Command], command: &Command) -> Result<Option<Fault>, Fault>
        ensures answer { IfOk result (λ why. why ≡ why_refused (tried (all_tried self.old before.now) command.now)) }
        ensures unchanged { self.new ≡ self.old }
        ensures memory { IsOkUnless result Fault.NoMemory }
    {
        let mut scratch = self.take_level()?;
        if before.is_empty() {
            return self.ask_level(scratch, command);
        }
        asked_on(&mut scratch, before, command)
    }

    /// What the last command has changed in each namespace that is there after it. Refused as `NoMemory` alone.
    pub fn changes(&self) -> Result<Vec<SpaceChange>, Fault>
        ensures memory { IsOkUnless result Fault.NoMemory }
    {
        match &self.spare {
            Spare::Behind(before) => changes_between(self.alloc, before, &self.shown),
            Spare::Gone | Spare::Level(_) => Ok(Vec::new(self.alloc)),
        }
    }
}
