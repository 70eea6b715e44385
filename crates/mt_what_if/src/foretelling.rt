//! The answer to a question.
ghost use Rattle.std.specs.Prelude.{◌≡◌, ◌++◌, [], ℕ, List, if◌then◌else◌, OnOk, IfOk, IsOkUnless};
ghost use Rattle.mt_propagate.specs.World.{world_view};
ghost use Rattle.mt_propagate.specs.WellFormed.{IsWellFormed};
ghost use Rattle.mt_what_if.specs.Trials.{world_after};
ghost use Rattle.mt_what_if.specs.Foretelling.{changes_in_spaces, question_changes, changes_if_each, IsForetold, AreForetold, total_heading, total_text, last_told, leak_text, leaks, ending_text};

use crate::asked::AskedLine;
use crate::difference::{changed_elsewhere, push_difference};
use crate::elsewhere::{count_others, push_elsewhere};
use crate::json::push_elsewhere_object;
use crate::known_space::KnownSpace;
use crate::line_told::{Tried, push_tried};
use crate::naming::{numbers_of, spaces_told};
use crate::numbers::Numbers;
use crate::reasons::reason_told;
use crate::scene::Scene;
use crate::taken::taken_told;
use crate::told::push_events_text;
use crate::trial::Trial;
use crate::trying::{Outcome, try_line};
use mt_propagate::world::World;
use mt_questions::table::NamedTable;
use mt_render::telling::Telling;
use mt_skel::fault::Fault;
use std::alloc::{AllocError, Global};

/// How a question is answered.
#[derive(Clone, Copy, PartialEq, Eq, Debug)]
pub struct Manner {
    /// In words, or as JSON.
    pub telling: Telling,
    /// Whether it is told what each line changes, or what all of them change together.
    pub each: bool,
}

/// What comes of a question.
#[derive(Drop)]
pub struct Foretold {
    /// What is told.
    pub text: Vec<u8>,
    /// What comes of the last line that was tried.
    pub outcome: Outcome,
    /// Whether something changes in a namespace that no line names.
    pub leaks: bool,
}

/// What is asked: the lines, of which namespaces, and how they are answered.
#[derive(Clone, Copy)]
pub struct Question<'q, 'a> {
    /// The tables.
    pub tables: &'q [NamedTable],
    /// The namespaces of the tables.
    pub names: &'q [KnownSpace],
    /// The lines.
    pub lines: &'q [AskedLine<'a>],
    /// How they are answered.
    pub manner: Manner,
}

/// Appends what changes from one world to another one in these namespaces.
fn push_changes_in(
    text: &mut Vec<u8>,
    telling: Telling,
    spaces: &[KnownSpace],
    numbers: Numbers,
    before: &World,
    after: &World,
) -> Result<(), Fault>
    requires before { IsWellFormed (world_view before.now) }
    requires after { IsWellFormed (world_view after.now) }
    ensures text { OnOk result (text.new.items ≡ text.old.items ++ changes_in_spaces telling spaces.now numbers (world_view before.now) (world_view after.now)) }
    ensures memory { IsOkUnless result Fault.NoMemory }
{
    match telling {
        Telling::Words => push_difference(text, numbers, before, after, spaces),
        Telling::Json => push_events_text(text, before, after, spaces),
    }
}

/// Appends what changes from one world to another one in the namespaces of a question, of which lines may have made some since
/// the start.
#[tactic(auto, unfolding(crate::specs::Foretelling::question_changes))]
fn push_changes(
    text: &mut Vec<u8>,
    question: &Question<'_, '_>,
    start: &World,
    before: &World,
    after: &World,
) -> Result<(), Fault>
    requires before { IsWellFormed (world_view before.now) }
    requires after { IsWellFormed (world_view after.now) }
    ensures text { OnOk result (text.new.items ≡ text.old.items ++ question_changes question.now (world_view start.now) (world_view before.now) (world_view after.now)) }
    ensures memory { IsOkUnless result Fault.NoMemory }
{
    let alloc = *text.allocator();
    let spaces = spaces_told(alloc, question.names, question.lines, start, after)?;
    push_changes_in(
        text,
        question.manner.telling,
        &spaces,
        numbers_of(start),
        before,
        after,
    )
}

/// Tries a line, and appends what is told of it.
fn foretell_line(
    alloc: Global,
    trial: &mut Trial,
    question: &Question<'_, '_>,
    number: u64,
    line: &AskedLine<'_>,
    text: &mut Vec<u8>,
) -> Result<Outcome, Fault>
    ensures start { trial.new.start ≡ trial.old.start }
    ensures told { IfOk result (λ outcome. (told : List ℕ) × (text.new.items ≡ text.old.items ++ told) × IsForetold question.now number line.now trial.old trial.new outcome told) }
    ensures memory { IsOkUnless result Fault.NoMemory }
{
    let before = trial.world().copy()?;
    trial.begin_line();
    let outcome = try_line(trial, alloc, question.tables, line)?;
    let mut changes = Vec::new(alloc);
    push_if_each(
        &mut changes,
        question,
        trial.start(),
        &before,
        trial.world(),
    )?;
    let taken = taken_told(alloc, trial.given())?;
    let reason = reason_told(alloc, question.names, trial, outcome)?;
    let tried = Tried {
        telling: question.manner.telling,
        number,
        words: line.words,
        taken: &taken,
        outcome,
        changes: &changes,
        reason: &reason,
    };
    push_tried(text, tried)?;
    Ok(outcome)
}

/// Appends what a line changes, where that is told of each line.
fn push_if_each(
    text: &mut Vec<u8>,
    question: &Question<'_, '_>,
    start: &World,
    before: &World,
    after: &World,
) -> Result<(), Fault>
    requires before { IsWellFormed (world_view before.now) }
    requires after { IsWellFormed (world_view after.now) }
    ensures text { OnOk result (text.new.items ≡ text.old.items ++ changes_if_each question.now (world_view start.now) (world_view before.now) (world_view after.now)) }
    ensures memory { IsOkUnless result Fault.NoMemory }
{
    if question.manner.each {
        push_changes(text, question, start, before, after)?;
    }
    Ok(())
}

/// Tries lines in turn, up to one that is refused, and appends what is told of each.
fn foretell_lines(
    alloc: Global,
    trial: &mut Trial,
    question: &Question<'_, '_>,
    text: &mut Vec<u8>,
) -> Result<Outcome, Fault>
    ensures start { trial.new.start ≡ trial.old.start }
    ensures told { IfOk result (λ outcome. (told : List ℕ) × (text.new.items ≡ text.old.items ++ told) × AreForetold question.now 1 question.now.lines.now trial.old trial.new outcome told) }
    ensures memory { IsOkUnless result Fault.NoMemory }
{
    'lines: for (before, line) in question.lines.iter().enumerate() {
        let number = before as u64 + 1;
        let outcome = foretell_line(alloc, trial, question, number, line, text)?;
        match outcome {
            Outcome::Done => {}
            Outcome::Refused(fault) => return Ok(Outcome::Refused(fault)),
        }
    }
    Ok(Outcome::Done)
}

/// The heading of what all lines change together.
fn total_heading(telling: Telling) -> &'static [u8]
    ensures { result.now ≡ total_heading telling }
{
    match telling {
        Telling::Words => b"all lines together:\n",
        Telling::Json => b"",
    }
}

/// Appends what all lines change together, unless it is told of each.
fn push_total(
    text: &mut Vec<u8>,
    question: &Question<'_, '_>,
    before: &World,
    after: &World,
) -> Result<(), Fault>
    requires before { IsWellFormed (world_view before.now) }
    requires after { IsWellFormed (world_view after.now) }
    ensures text { OnOk result (text.new.items ≡ text.old.items ++ (if question.now.manner.each then [] else total_text question.now (world_view before.now) (world_view after.now))) }
    ensures memory { IsOkUnless result Fault.NoMemory }
{
    if question.manner.each {
        return Ok(());
    }
    text.extend_from_slice(total_heading(question.manner.telling))?;
    push_changes(text, question, before, before, after)?;
    Ok(())
}

/// Appends which of these namespaces change that no line names.
fn push_last_in(
    text: &mut Vec<u8>,
    telling: Telling,
    others: usize,
    changed: &[KnownSpace],
) -> Result<(), AllocError>
    ensures { OnOk result (text.new.items ≡ text.old.items ++ last_told telling others changed.now) }
{
    match telling {
        Telling::Words => push_elsewhere(text, others, changed),
        Telling::Json => push_elsewhere_object(text, others as u64, changed),
    }
}

/// Appends which namespaces change that no line names, and answers whether there is one.
#[tactic(auto, unfolding(crate::specs::Foretelling::leak_text, crate::specs::Foretelling::leaks))]
fn push_last(
    text: &mut Vec<u8>,
    question: &Question<'_, '_>,
    before: &World,
    after: &World,
) -> Result<bool, Fault>
    requires before { IsWellFormed (world_view before.now) }
    requires after { IsWellFormed (world_view after.now) }
    ensures text { OnOk result (text.new.items ≡ text.old.items ++ leak_text question.now (world_view before.now) (world_view after.now)) }
    ensures elsewhere { IfOk result (λ does. does ≡ leaks question.now (world_view before.now) (world_view after.now)) }
    ensures memory { IsOkUnless result Fault.NoMemory }
{
    let alloc = *text.allocator();
    let spaces = spaces_told(alloc, question.names, question.lines, before, after)?;
    let changed = changed_elsewhere(before, after, &spaces)?;
    push_last_in(
        text,
        question.manner.telling,
        count_others(&spaces),
        &changed,
    )?;
    Ok(!changed.is_empty())
}

/// Tries the lines of a question in turn on the world of its tables, up to one that is refused, and tells what they change: of each
/// line, or of all of them together; and last which namespaces change that no line names. Refused as `NoMemory` alone.
pub fn foretell(
    alloc: Global,
    scene: &mut Scene,
    question: &Question<'_, '_>,
) -> Result<Foretold, Fault>
    ensures start { scene.new.trial.start ≡ scene.old.trial.start }
    ensures told { IfOk result (λ a. (told : List ℕ) × (a.text.items ≡ told ++ ending_text question.now scene.old.trial.start (world_after scene.new.trial)) × AreForetold question.now 1 question.now.lines.now scene.old.trial scene.new.trial a.outcome told) }
    ensures elsewhere { IfOk result (λ a. a.leaks ≡ leaks question.now scene.old.trial.start (world_after scene.new.trial)) }
    ensures memory { IsOkUnless result Fault.NoMemory }
{
    let mut text = Vec::new(alloc);
    let outcome = foretell_lines(alloc, &mut scene.trial, question, &mut text)?;
    let (before, after) = (scene.trial.start(), scene.trial.world());
    push_total(&mut text, question, before, after)?;
    let leaks = push_last(&mut text, question, before, after)?;
    Ok(Foretold {
        text,
        outcome,
        leaks,
    })
}
