//! Commands, tried one after another on a world.
ghost use Rattle.std.specs.Prelude.{◌≡◌, ◌≢◌, List, [], ◌∷◌, ◌++◌, IfOk, OnOk, IfErr, IsOkUnless};
ghost use Rattle.mt_propagate.specs.World.{world_view};
ghost use Rattle.mt_propagate.specs.WellFormed.{IsWellFormed};
ghost use Rattle.mt_book.specs.declared.command.Command.{Command as CommandOf};
ghost use Rattle.mt_what_if.specs.Trials.{last_space, world_after, names_made, for_next, attempt, give, give_all, all_done, stopped};

use mt_book::attempt::try_step;
use mt_book::command::Command;
use mt_mounts::mount::SpaceId;
use mt_propagate::world::World;
use mt_skel::fault::Fault;
use mt_skel::name::Label;
use std::alloc::Global;
use std::marker::Model;

/// A world, and what commands that were tried on it made of it.
pub struct Trial {
    start: World,
    world: World,
    commands: Vec<Command>,
    names: Vec<Label>,
    given: Vec<Command>,
    refused: Vec<Command>,
}

impl Model for Trial {
    ghost use Rattle.mt_propagate.specs.World.{world_view};
    ghost use Rattle.mt_what_if.specs.Trials.{TrialView, IsTrial};

    ghost Value = { TrialView };

    ghost view = { λ t. record { start = world_view t.start; commands = t.commands.items; names = t.names.items; given = t.given.items; refused = t.refused.items } };

    ghost invariant = { λ t. IsTrial (world_view t.start) (world_view t.world) t.commands.items };
}

impl Drop for Trial {
    fn drop(self) {
        let Trial {
            start: _start,
            world: _world,
            commands: _commands,
            names: _names,
            given: _given,
            refused: _refused,
        } = self;
    }
}

/// The number of the namespace that was made last.
pub(crate) fn last_space(world: &World) -> SpaceId
    ensures { result ≡ last_space (world_view world.now) }
{
    world.next_space.saturating_sub(1)
}

/// Adds the name of the filesystem that a command makes, if it makes one.
fn push_made_name(names: &mut Vec<Label>, command: &Command) -> Result<(), Fault>
    ensures names { OnOk result (names.new.items ≡ names.old.items ++ names_made command.now) }
    ensures memory { IsOkUnless result Fault.NoMemory }
{
    match command {
        Command::MakeFs { name, .. } => {
            names.push(name.copy()?)?;
            Ok(())
        }
        _ => Ok(()),
    }
}

/// Takes the last of these commands away again.
fn take_back(commands: &mut Vec<Command>)
    ensures { (cs : List CommandOf) (c : CommandOf) → commands.old.items ≡ cs ++ c ∷ [] → commands.new.items ≡ cs }
{
    let _last = commands.pop();
}

impl Trial {
    /// A world that is equal to this one, on which no command was tried yet, and names that its filesystems go by. Refused as
    /// `NoMemory` alone.
    pub fn new(alloc: Global, world: &World, names: Vec<Label>) -> Result<Trial, Fault>
        requires { IsWellFormed (world_view world.now) }
        ensures trial { IfOk result (λ trial. trial ≡ record { start = world_view world.now; commands = []; names = names.items; given = []; refused = [] }) }
        ensures memory { IsOkUnless result Fault.NoMemory }
    {
        let start = world.copy()?;
        let now = world.copy()?;
        Ok(Trial {
            start,
            world: now,
            commands: Vec::new(alloc),
            names,
            given: Vec::new(alloc),
            refused: Vec::new(alloc),
        })
    }

    /// The world before all commands.
    pub fn start(&self) -> &World
        ensures world { world_view result.now ≡ self.now.start }
        ensures well_formed { IsWellFormed (world_view result.now) }
    {
        &self.start
    }

    /// The world after all of them.
    pub fn world(&self) -> &World
        ensures world { world_view result.now ≡ world_after self.now }
        ensures well_formed { IsWellFormed (world_view result.now) }
    {
        &self.world
    }

    /// The commands that were accepted.
    pub fn commands(&self) -> &[Command]
        ensures { result.now ≡ self.now.commands }
    {
        self.commands.as_slice()
    }

    /// The names that its filesystems are known by: those of the beginning, and those that commands made.
    pub fn names(&self) -> &[Label]
        ensures { result.now ≡ self.now.names }
    {
        self.names.as_slice()
    }

    /// The commands that the line was given which is tried.
    pub fn given(&self) -> &[Command]
        ensures { result.now ≡ self.now.given }
    {
        self.given.as_slice()
    }

    /// The command for which that line is refused, if there is one.
    pub fn refused(&self) -> &[Command]
        ensures { result.now ≡ self.now.refused }
    {
        self.refused.as_slice()
    }

    /// Another line begins: it was given nothing yet, and is not refused.
    pub fn begin_line(&mut self)
        ensures { self.new ≡ for_next self.old }
    {
        self.given.clear();
        self.refused.clear();
    }

    /// Tries one more command: it is done, or refused as the command's own refusals say, as `TooMany` where numbers run out, and as
    /// `NoMemory`.
    pub fn run(&mut self, command: &Command) -> Result<(), Fault>
        ensures start { self.new.start ≡ self.old.start }
        ensures done { OnOk result (attempt self.old command.now ≡ all_done self.new) }
        ensures refused { IfErr result (λ fault. fault ≢ Fault.NoMemory → attempt self.old command.now ≡ stopped self.new fault) }
    {
        let copy = command.copy()?;
        self.commands.push(copy)?;
        match try_step(&mut self.world, command) {
            Ok(_reply) => push_made_name(&mut self.names, command),
            Err(fault) => {
                take_back(&mut self.commands);
                self.refused.push(command.copy()?)?;
                Err(fault)
            }
        }
    }

    /// Tries a command as one that the line is given. Refused as [`run`](Trial::run) is.
    pub fn give(&mut self, command: &Command) -> Result<(), Fault>
        ensures start { self.new.start ≡ self.old.start }
        ensures done { OnOk result (give self.old command.now ≡ all_done self.new) }
        ensures refused { IfErr result (λ fault. fault ≢ Fault.NoMemory → give self.old command.now ≡ stopped self.new fault) }
    {
        self.run(command)?;
        self.given.push(command.copy()?)?;
        Ok(())
    }
}

/// Tries these commands in turn, as such that the line is given. Refused as the first one that is refused.
pub(crate) fn give_all(trial: &mut Trial, commands: &[Command]) -> Result<(), Fault>
    ensures start { trial.new.start ≡ trial.old.start }
    ensures done { OnOk result (give_all trial.old commands.now ≡ all_done trial.new) }
    ensures refused { IfErr result (λ fault. fault ≢ Fault.NoMemory → give_all trial.old commands.now ≡ stopped trial.new fault) }
{
    'commands: for command in commands {
        trial.give(command)?;
    }
    Ok(())
}
