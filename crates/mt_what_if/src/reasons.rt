//! Why a line is refused.
ghost use Rattle.std.specs.Prelude.{◌≡◌, None, Some, map, IfOk, IsOkUnless, IsTrue, MatchOption};
ghost use Rattle.mt_skel.specs.Keyed.{rises};
ghost use Rattle.mt_propagate.specs.World.{world_view};
ghost use Rattle.mt_propagate.specs.WellFormed.{IsWellFormed};
ghost use Rattle.mt_reach.specs.Rows.{seen_id};
ghost use Rattle.mt_reach.specs.Seen.{seen_rows};
ghost use Rattle.mt_what_if.specs.Reasons.{titles_told, reason_by, reason_known, reason_told};

use crate::known_space::KnownSpace;
use crate::naming::numbers_of;
use crate::trial::Trial;
use crate::trying::Outcome;
use mt_book::command::Command;
use mt_info::findings::Findings;
use mt_info::table::row_seen;
use mt_propagate::world::World;
use mt_reach::row::SeenRow;
use mt_reach::rows::SeenRows;
use mt_reach::text::SeenText;
use mt_refused::text::refused_text;
use mt_refused::titles::Titles;
use mt_skel::fault::Fault;
use std::alloc::Global;

/// The rows of all namespaces of a world, by rising ID.
fn rows_of(alloc: Global, world: &World) -> Result<Vec<SeenRow>, Fault>
    requires { IsWellFormed (world_view world.now) }
    ensures rows { IfOk result (λ rows. rows.items ≡ seen_rows (world_view world.now)) }
    ensures rising { IfOk result (λ rows. IsTrue (rises seen_id rows.items)) }
    ensures memory { IsOkUnless result Fault.NoMemory }
{
    let mounts = world.forest.mounts()?;
    let mut rows = Vec::new(alloc);
    let mut seen = Findings::new(world);
    'listed: for mount in &mounts {
        let row = row_seen(&mut seen, mount.id)?;
        rows.push(SeenRow::of(mount.space, &row, alloc)?)?;
    }
    Ok(rows)
}

/// What the namespaces of tables are called.
fn names_told(alloc: Global, names: &[KnownSpace]) -> Result<Vec<SeenText>, Fault>
    ensures names { IfOk result (λ told. told.items ≡ map (λ s. s.name) names.now) }
    ensures memory { IsOkUnless result Fault.NoMemory }
{
    let mut told = Vec::new(alloc);
    'names: for name in names {
        told.push(SeenText::of(alloc, &name.name)?)?;
    }
    Ok(told)
}

/// What the namespaces of tables are called, and which mounts and peer groups a world had from its beginning.
fn titles_told(alloc: Global, names: &[KnownSpace], start: &World) -> Result<Titles, Fault>
    ensures titles { IfOk result (λ titles. titles ≡ titles_told names.now (world_view start.now)) }
    ensures memory { IsOkUnless result Fault.NoMemory }
{
    let numbers = numbers_of(start);
    let told = names_told(alloc, names)?;
    Ok(Titles::new(told, numbers.mounts, numbers.groups))
}

/// Why a command is refused so in the world that a trial has come to, by the rows of all namespaces; `None` where they say no such
/// thing.
fn reason_by(
    alloc: Global,
    names: &[KnownSpace],
    trial: &Trial,
    fault: Fault,
    command: &Command,
) -> Result<Option<Vec<u8>>, Fault>
    ensures reason { IfOk result (λ reason. MatchOption reason (reason_by names.now trial.now fault command.now ≡ None) (λ text. reason_by names.now trial.now fault command.now ≡ Some text.items)) }
    ensures memory { IsOkUnless result Fault.NoMemory }
{
    let rows = rows_of(alloc, trial.world())?;
    let Some(rows) = SeenRows::new(alloc, rows)? else {
        return Ok(None);
    };
    let titles = titles_told(alloc, names, trial.start())?;
    refused_text(alloc, &rows, &titles, command, fault)
}

/// Why the command is refused for which a line is; `None` where it is refused for no command, or the rows do not say why.
fn reason_known(
    alloc: Global,
    names: &[KnownSpace],
    trial: &Trial,
    fault: Fault,
) -> Result<Option<Vec<u8>>, Fault>
    ensures reason { IfOk result (λ reason. MatchOption reason (reason_known names.now trial.now fault ≡ None) (λ text. reason_known names.now trial.now fault ≡ Some text.items)) }
    ensures memory { IsOkUnless result Fault.NoMemory }
{
    match trial.refused() {
        [] => Ok(None),
        [command, ..] => reason_by(alloc, names, trial, fault, command),
    }
}

/// The lines that say why a line is refused: a line with the name of the refusal and what is in the way, the rows of the mounts that
/// this names, and what would change it (mt_refused). Nothing, where the line is done, or the rows say no such thing. Refused as
/// `NoMemory` alone.
#[tactic(auto, unfolding(crate::specs::Reasons::reason_told))]
pub(crate) fn reason_told(
    alloc: Global,
    names: &[KnownSpace],
    trial: &Trial,
    outcome: Outcome,
) -> Result<Vec<u8>, Fault>
    ensures reason { IfOk result (λ reason. reason.items ≡ reason_told names.now trial.now outcome) }
    ensures memory { IsOkUnless result Fault.NoMemory }
{
    let Outcome::Refused(fault) = outcome else {
        return Ok(Vec::new(alloc));
    };
    match reason_known(alloc, names, trial, fault)? {
        Some(reason) => Ok(reason),
        None => Ok(Vec::new(alloc)),
    }
}
