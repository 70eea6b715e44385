//! Commands, done on a world where its numbers last.
ghost use Rattle.std.specs.Prelude.{◌≡◌, ◌≢◌, IfOk, IfErr, OnErr, Ok, Err};
ghost use Rattle.mt_propagate.specs.World.{world_view};
ghost use Rattle.mt_propagate.specs.WellFormed.{IsWellFormed};
ghost use Rattle.mt_propagate.specs.Touched.{since_view};
ghost use Rattle.mt_book.specs.Attempts.{has_numbers, tried};

use crate::command::{Command, Reply};
use crate::step::step;
use mt_propagate::world::World;
use mt_skel::fault::Fault;

/// The first number that is none of a mount, a peer group or a namespace.
const NO_NUMBER: u64 = 9_223_372_036_854_775_808;

/// Whether a world has numbers left for all that a command may make.
fn has_numbers(world: &World) -> bool
    ensures { result ≡ has_numbers (world_view world.now) }
{
    world.next_mount < NO_NUMBER
        && world.peers.next_group() < NO_NUMBER
        && world.next_space < NO_NUMBER
}

/// Does a command, or refuses it: as `TooMany` where numbers run out, and else as it is refused.
pub fn try_step(world: &mut World, command: &Command) -> Result<Reply, Fault>
    requires { IsWellFormed (world_view world.old) }
    ensures done { IfOk result (λ reply. tried (world_view world.old) command.now ≡ Ok (world_view world.new, reply)) }
    ensures refused { IfErr result (λ fault. fault ≢ Fault.NoMemory → tried (world_view world.old) command.now ≡ Err fault) }
    ensures unchanged { OnErr result (world_view world.new ≡ world_view world.old) }
    ensures kept { IsWellFormed (world_view world.new) }
    ensures since { since_view world.new ≡ since_view world.old }
{
    if !has_numbers(world) {
        return Err(Fault::TooMany);
    }
    step(world, command)
}
