//! The data of a page: the tables that were there before, and what each line of a session did.
//!
//! The page reads one object of JSON, which stands in it in two parts: [`opening_data`], and behind that [`steps_data`]. No
//! `<` stands in either, so that nothing in them ends the element of the page in which they stand.
ghost use Rattle.std.specs.Prelude.{◌≡◌, ◌++◌, OnOk, IfOk, IsTrue};
ghost use Rattle.std.specs.List.{flat_map};
ghost use Rattle.mt_render.specs.PageData.{posts_member, between, step_line, name_line, names_member, title_text, behind_text, inert, tables_text, is_harmless, opening_data, steps_data};

use crate::drawing::{Drawing, drawing_text};
use crate::page_name::GivenName;
use crate::page_text::{push_elements, push_inert, push_member, push_told};
use mt_events::mirror::Mirror;
use mt_info::print::push_number;
use std::alloc::{AllocError, Global};
use std::marker::Model;

/// What a line of a session did. A text that is not there is empty.
#[derive(Drop)]
pub struct Step {
    /// The line, as it was written.
    pub line: Vec<u8>,
    /// The first line of its answer.
    pub answer: Vec<u8>,
    /// What its refusal says.
    pub reason: Vec<u8>,
    /// What is told of it.
    pub note: Vec<u8>,
    /// The objects of the mounts that it changed, a line each, as posts are told as JSON.
    pub changes: Vec<u8>,
}

impl Model for Step {
    ghost use Rattle.mt_render.specs.PageData.{StepTexts};

    ghost Value = { StepTexts };

    ghost view = { λ s. record { line = s.line.items; answer = s.answer.items; reason = s.reason.items; note = s.note.items; changes = s.changes.items } };
}

/// Appends the objects of what a line changed.
fn push_changes(text: &mut Vec<u8>, changes: &[u8]) -> Result<(), AllocError>
    ensures { OnOk result (text.new.items ≡ text.old.items ++ posts_member changes.now) }
{
    text.extend_from_slice(b",\"posts\":[")?;
    push_elements(text, b",", changes)?;
    text.extend_from_slice(b"]}\n")
}

/// Appends the object of a step, a line.
#[tactic(auto, unfolding(crate::specs::PageData::step_line))]
fn push_step(text: &mut Vec<u8>, step: &Step) -> Result<(), AllocError>
    ensures { OnOk result (text.new.items ≡ text.old.items ++ step_line step.now) }
{
    push_member(text, b"{\"line\":", step.line.as_slice())?;
    push_member(text, b",\"answer\":", step.answer.as_slice())?;
    push_told(text, b",\"reason\":", step.reason.as_slice())?;
    push_told(text, b",\"note\":", step.note.as_slice())?;
    push_changes(text, step.changes.as_slice())
}

/// The objects of steps, a line each.
fn step_lines(alloc: Global, steps: &[Step]) -> Result<Vec<u8>, AllocError>
    ensures { IfOk result (λ lines. lines.items ≡ flat_map step_line steps.now) }
{
    let mut lines = Vec::new(alloc);
    'steps: for step in steps {
        push_step(&mut lines, step)?;
    }
    Ok(lines)
}

/// Appends the name of a namespace behind its number, a line.
fn push_name(text: &mut Vec<u8>, name: &GivenName) -> Result<(), AllocError>
    ensures { OnOk result (text.new.items ≡ text.old.items ++ name_line name.now) }
{
    text.extend_from_slice(b"\"")?;
    push_number(text, name.space)?;
    push_member(text, b"\":", name.name.as_slice())?;
    text.extend_from_slice(b"\n")
}

/// The names of namespaces behind their numbers, a line each.
fn name_lines(alloc: Global, names: &[GivenName]) -> Result<Vec<u8>, AllocError>
    ensures { IfOk result (λ lines. lines.items ≡ flat_map name_line names.now) }
{
    let mut lines = Vec::new(alloc);
    'names: for name in names {
        push_name(&mut lines, name)?;
    }
    Ok(lines)
}

/// Appends lines as elements between two texts.
fn push_between(text: &mut Vec<u8>, lead: &[u8], lines: &[u8], end: &[u8]) -> Result<(), AllocError>
    ensures { OnOk result (text.new.items ≡ text.old.items ++ between lead.now lines.now end.now) }
{
    text.extend_from_slice(lead)?;
    push_elements(text, b",\n", lines)?;
    text.extend_from_slice(end)
}

/// Appends the object of names, of which each is a line.
fn push_names(text: &mut Vec<u8>, lines: &[u8]) -> Result<(), AllocError>
    ensures { OnOk result (text.new.items ≡ text.old.items ++ names_member lines.now) }
{
    push_between(text, b"],\n\"names\":{", lines, b"}")
}

/// Appends a title, if there is one, and the end of the object.
fn push_title(text: &mut Vec<u8>, title: &[u8]) -> Result<(), AllocError>
    ensures { OnOk result (text.new.items ≡ text.old.items ++ title_text title.now) }
{
    push_told(text, b",\n\"title\":", title)?;
    text.extend_from_slice(b"}")
}

/// Appends what stands behind the steps.
fn push_behind(text: &mut Vec<u8>, names: &[GivenName], title: &[u8]) -> Result<(), AllocError>
    ensures { OnOk result (text.new.items ≡ text.old.items ++ behind_text names.now title.now) }
{
    let lines = name_lines(*text.allocator(), names)?;
    push_names(text, lines.as_slice())?;
    push_title(text, title)
}

/// A text of JSON with no `<`.
#[tactic(auto, using(crate::proofs::InertLaws::text_harmless))]
fn inert_text(alloc: Global, bytes: &[u8]) -> Result<Vec<u8>, AllocError>
    ensures data { IfOk result (λ text. text.items ≡ inert bytes.now) }
    ensures harmless { IfOk result (λ text. IsTrue (is_harmless text.items)) }
{
    let mut text = Vec::new(alloc);
    push_inert(&mut text, bytes)?;
    Ok(text)
}

/// Appends the beginning of the object, with tables of which each is a line.
fn push_tables(text: &mut Vec<u8>, lines: &[u8]) -> Result<(), AllocError>
    ensures { OnOk result (text.new.items ≡ text.old.items ++ tables_text lines.now) }
{
    push_between(text, b"{\"opening\":[", lines, b"],\n\"steps\":[")
}

/// The object that a page reads up to its steps, with the tables of the namespaces that were there before, as they are shown
/// as JSON. Fails for want of memory alone.
#[tactic(auto, unfolding(crate::specs::PageData::opening_data))]
pub fn opening_data(alloc: Global, parts: &[Mirror]) -> Result<Vec<u8>, AllocError>
    ensures data { IfOk result (λ text. text.items ≡ opening_data parts.now) }
    ensures harmless { IfOk result (λ text. IsTrue (is_harmless text.items)) }
{
    let lines = drawing_text(alloc, Drawing::FlatJson, &[], parts)?;
    let mut text = Vec::new(alloc);
    push_tables(&mut text, lines.as_slice())?;
    inert_text(alloc, text.as_slice())
}

/// What stands in that object behind its beginning: the steps of a session in their order, names of namespaces, of which the
/// last one of a namespace counts, and the title of the page, which has one of its own where this is empty. Fails for want of
/// memory alone.
#[tactic(auto, unfolding(crate::specs::PageData::steps_data))]
pub fn steps_data(
    alloc: Global,
    steps: &[Step],
    names: &[GivenName],
    title: &[u8],
) -> Result<Vec<u8>, AllocError>
    ensures data { IfOk result (λ text. text.items ≡ steps_data steps.now names.now title.now) }
    ensures harmless { IfOk result (λ text. IsTrue (is_harmless text.items)) }
{
    let lines = step_lines(alloc, steps)?;
    let mut text = Vec::new(alloc);
    push_elements(&mut text, b",\n", lines.as_slice())?;
    push_behind(&mut text, names, title)?;
    inert_text(alloc, text.as_slice())
}
