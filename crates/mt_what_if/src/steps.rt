//! Lines that are tried, as the steps of a page.
ghost use Rattle.std.specs.Prelude.{◌≡◌, ◌∷◌, ◌++◌, [], map, OnOk, IfOk, IsOkUnless};
ghost use Rattle.mt_propagate.specs.World.{world_view};
ghost use Rattle.mt_propagate.specs.WellFormed.{IsWellFormed};
ghost use Rattle.mt_render.specs.PageData.{StepTexts};
ghost use Rattle.mt_what_if.specs.Foretelling.{leaks};
ghost use Rattle.mt_what_if.specs.LinesTold.{asked_words};
ghost use Rattle.mt_what_if.specs.Naming.{spaces_told};
ghost use Rattle.mt_what_if.specs.Steps.{table_opened, answer_text, note_line, note_of_taken, step_changes, step_told, IsPageStep, AreSteps};
ghost use Rattle.mt_what_if.specs.Trials.{world_after};

use crate::asked::AskedLine;
use crate::difference::{changed_elsewhere, rows_if_there};
use crate::foretelling::Question;
use crate::known_space::KnownSpace;
use crate::line_told::push_words;
use crate::naming::spaces_told;
use crate::scene::Scene;
use crate::taken::taken_told;
use crate::told::push_events_text;
use crate::trial::Trial;
use crate::trying::{Outcome, try_line};
use mt_events::mirror::Mirror;
use mt_lines::words::Pieces;
use mt_propagate::world::World;
use mt_render::page_data::Step;
use mt_skel::fault::Fault;
use std::alloc::{AllocError, Global};

/// What comes of a question, as a page tells it.
#[derive(Drop)]
pub struct Paged {
    /// The tables of its namespaces before all lines.
    pub opening: Vec<Mirror>,
    /// Each line that was tried. None says what a refusal is.
    pub steps: Vec<Step>,
    /// Its namespaces, and those that the lines made.
    pub spaces: Vec<KnownSpace>,
    /// What comes of the last line that was tried.
    pub outcome: Outcome,
    /// Whether something changes in a namespace that no line names.
    pub leaks: bool,
}

/// The table of a namespace in a world.
fn table_opened(world: &World, space: &KnownSpace) -> Result<Mirror, Fault>
    requires { IsWellFormed (world_view world.now) }
    ensures opened { IfOk result (λ mirror. mirror ≡ table_opened (world_view world.now) space.now) }
    ensures memory { IsOkUnless result Fault.NoMemory }
{
    let table = rows_if_there(world, space.number)?;
    Ok(Mirror::new(space.number, 0, table))
}

/// The tables of these namespaces in a world.
fn all_opened(alloc: Global, world: &World, spaces: &[KnownSpace]) -> Result<Vec<Mirror>, Fault>
    requires { IsWellFormed (world_view world.now) }
    ensures opened { IfOk result (λ mirrors. mirrors.items ≡ map (table_opened (world_view world.now)) spaces.now) }
    ensures memory { IsOkUnless result Fault.NoMemory }
{
    let mut mirrors = Vec::new(alloc);
    'spaces: for space in spaces {
        mirrors.push(table_opened(world, space)?)?;
    }
    Ok(mirrors)
}

/// What a line is answered.
fn answer_text(alloc: Global, outcome: Outcome) -> Result<Vec<u8>, AllocError>
    ensures { IfOk result (λ text. text.items ≡ answer_text outcome) }
{
    match outcome {
        Outcome::Done => Vec::from_slice(alloc, b"ok"),
        Outcome::Refused(fault) => {
            let mut text = Vec::from_slice(alloc, b"no ")?;
            text.extend_from_slice(fault.name())?;
            Ok(text)
        }
    }
}

/// Appends a thing that is taken to be there, if it is one.
fn push_note_line(note: &mut Vec<u8>, taken: &[u8]) -> Result<(), AllocError>
    ensures { OnOk result (note.new.items ≡ note.old.items ++ note_line taken.now) }
{
    match taken {
        [] => Ok(()),
        [_first, ..] => {
            note.extend_from_slice(b"taken to be there: ")?;
            note.extend_from_slice(taken)?;
            note.extend_from_slice(b"\n")
        }
    }
}

/// What is taken to be there, each thing a line of a note.
fn note_of_taken(alloc: Global, taken: &[u8]) -> Result<Vec<u8>, AllocError>
    ensures { IfOk result (λ note. note.items ≡ note_of_taken taken.now) }
{
    let mut note = Vec::new(alloc);
    let mut lines = Pieces::new(b'\n', taken);
    'lines: while let Some(line) = lines.next() {
        push_note_line(&mut note, line)?;
    }
    Ok(note)
}

/// The words of a line, with spaces between them.
fn asked_line(alloc: Global, words: &[u8]) -> Result<Vec<u8>, AllocError>
    ensures { IfOk result (λ line. line.items ≡ asked_words words.now) }
{
    let mut line = Vec::new(alloc);
    push_words(&mut line, words)?;
    Ok(line)
}

/// The objects of what a line changes from one world to another one; `start` is the world before all lines.
#[tactic(auto, unfolding(crate::specs::Steps::step_changes))]
fn step_changes(
    alloc: Global,
    question: &Question<'_, '_>,
    start: &World,
    before: &World,
    after: &World,
) -> Result<Vec<u8>, Fault>
    requires before { IsWellFormed (world_view before.now) }
    requires after { IsWellFormed (world_view after.now) }
    ensures changes { IfOk result (λ text. text.items ≡ step_changes question.now (world_view start.now) (world_view before.now) (world_view after.now)) }
    ensures memory { IsOkUnless result Fault.NoMemory }
{
    let spaces = spaces_told(alloc, question.names, question.lines, start, after)?;
    let mut text = Vec::new(alloc);
    push_events_text(&mut text, before, after, &spaces)?;
    Ok(text)
}

/// The step of a line, of which the trial stands behind it, and this is the world before.
#[tactic(auto, unfolding(crate::specs::Steps::step_told))]
fn step_told(
    alloc: Global,
    question: &Question<'_, '_>,
    words: &[u8],
    outcome: Outcome,
    before: &World,
    trial: &Trial,
) -> Result<Step, Fault>
    requires { IsWellFormed (world_view before.now) }
    ensures step { IfOk result (λ step. step ≡ step_told question.now words.now outcome trial.now.given trial.now.start (world_view before.now) (world_after trial.now)) }
    ensures memory { IsOkUnless result Fault.NoMemory }
{
    let taken = taken_told(alloc, trial.given())?;
    let changes = step_changes(alloc, question, trial.start(), before, trial.world())?;
    Ok(Step {
        line: asked_line(alloc, words)?,
        answer: answer_text(alloc, outcome)?,
        reason: Vec::new(alloc),
        note: note_of_taken(alloc, &taken)?,
        changes,
    })
}

/// Tries a line, and adds its step.
fn push_step(
    alloc: Global,
    trial: &mut Trial,
    question: &Question<'_, '_>,
    line: &AskedLine<'_>,
    steps: &mut Vec<Step>,
) -> Result<Outcome, Fault>
    ensures start { trial.new.start ≡ trial.old.start }
    ensures told { IfOk result (λ outcome. (step : StepTexts) × (steps.new.items ≡ steps.old.items ++ step ∷ []) × IsPageStep question.now line.now trial.old trial.new outcome step) }
    ensures memory { IsOkUnless result Fault.NoMemory }
{
    let before = trial.world().copy()?;
    trial.begin_line();
    let outcome = try_line(trial, alloc, question.tables, line)?;
    let step = step_told(alloc, question, line.words, outcome, &before, trial)?;
    steps.push(step)?;
    Ok(outcome)
}

/// Tries lines in turn, up to one that is refused, and adds the step of each.
fn push_steps(
    alloc: Global,
    trial: &mut Trial,
    question: &Question<'_, '_>,
    steps: &mut Vec<Step>,
) -> Result<Outcome, Fault>
    requires { steps.old.items ≡ [] }
    ensures start { trial.new.start ≡ trial.old.start }
    ensures told { IfOk result (λ outcome. AreSteps question.now question.now.lines.now trial.old trial.new outcome steps.new.items) }
    ensures memory { IsOkUnless result Fault.NoMemory }
{
    'lines: for line in question.lines {
        let outcome = push_step(alloc, trial, question, line, steps)?;
        match outcome {
            Outcome::Done => {}
            Outcome::Refused(fault) => return Ok(Outcome::Refused(fault)),
        }
    }
    Ok(Outcome::Done)
}

/// Whether something changes in a namespace of a question that no line names.
#[tactic(auto, unfolding(crate::specs::Foretelling::leaks))]
fn does_leak(
    alloc: Global,
    question: &Question<'_, '_>,
    before: &World,
    after: &World,
) -> Result<bool, Fault>
    requires before { IsWellFormed (world_view before.now) }
    requires after { IsWellFormed (world_view after.now) }
    ensures leaks { IfOk result (λ does. does ≡ leaks question.now (world_view before.now) (world_view after.now)) }
    ensures memory { IsOkUnless result Fault.NoMemory }
{
    let spaces = spaces_told(alloc, question.names, question.lines, before, after)?;
    let changed = changed_elsewhere(before, after, &spaces)?;
    Ok(!changed.is_empty())
}

/// Tries the lines of a question in turn on the world of its tables, up to one that is refused, as the steps of a page that opens
/// with these tables. Each step has its line, its answer, what is taken to be there for it, and the objects of what it changes, as
/// posts of a server are told. Refused as `NoMemory` alone.
pub fn foretell_steps(
    alloc: Global,
    scene: &mut Scene,
    question: &Question<'_, '_>,
) -> Result<Paged, Fault>
    ensures start { scene.new.trial.start ≡ scene.old.trial.start }
    ensures opening { IfOk result (λ page. page.opening.items ≡ map (table_opened scene.old.trial.start) question.now.names.now) }
    ensures steps { IfOk result (λ page. AreSteps question.now question.now.lines.now scene.old.trial scene.new.trial page.outcome page.steps.items) }
    ensures spaces { IfOk result (λ page. page.spaces.items ≡ spaces_told question.now.names.now question.now.lines.now scene.old.trial.start (world_after scene.new.trial)) }
    ensures elsewhere { IfOk result (λ page. page.leaks ≡ leaks question.now scene.old.trial.start (world_after scene.new.trial)) }
    ensures memory { IsOkUnless result Fault.NoMemory }
{
    let mut steps = Vec::new(alloc);
    let outcome = push_steps(alloc, &mut scene.trial, question, &mut steps)?;
    let (before, after) = (scene.trial.start(), scene.trial.world());
    let spaces = spaces_told(alloc, question.names, question.lines, before, after)?;
    let leaks = does_leak(alloc, question, before, after)?;
    let opening = all_opened(alloc, before, question.names)?;
    Ok(Paged {
        opening,
        steps,
        spaces,
        outcome,
        leaks,
    })
}
