//! The text of a page.
ghost use Rattle.std.specs.Prelude.{◌≡◌, ◌++◌, IfOk, OnOk};
ghost use Rattle.std.specs.List.{flat_map};
ghost use Rattle.mt_help.specs.Pages.{indented, indented_lines, usage_text, section_title, section_text, refusal_said_text, refusals_text, note_text, page_text};

use mt_lines::words::Pieces;
use mt_skel::fault::Fault;
use std::alloc::{AllocError, Global};

/// A way to write what a page is about.
#[derive(Clone, Copy)]
pub struct Usage {
    /// How it is written.
    pub words: &'static str,
    /// What it does then, in lines that have a newline between them.
    pub says: &'static str,
}

/// A refusal, and what it says.
#[derive(Clone, Copy)]
pub struct RefusalSaid {
    /// The refusal.
    pub refusal: Fault,
    /// What it says: a sentence.
    pub sentence: &'static str,
}

/// Appends a line behind an indent.
fn push_indented(text: &mut Vec<u8>, line: &[u8]) -> Result<(), AllocError>
    ensures { OnOk result (text.new.items ≡ text.old.items ++ indented line.now) }
{
    text.extend_from_slice(b"    ")?;
    text.extend_from_slice(line)?;
    text.push(b'\n')?;
    Ok(())
}

/// Appends lines that have a newline between them, each behind an indent.
fn push_lines(text: &mut Vec<u8>, lines: &[u8]) -> Result<(), AllocError>
    ensures { OnOk result (text.new.items ≡ text.old.items ++ indented_lines lines.now) }
{
    let mut pieces = Pieces::new(b'\n', lines);
    'lines: while let Some(line) = pieces.next() {
        push_indented(text, line)?;
    }
    Ok(())
}

/// Appends a way to write something, and what it does.
fn push_usage(text: &mut Vec<u8>, usage: Usage) -> Result<(), AllocError>
    ensures { OnOk result (text.new.items ≡ text.old.items ++ usage_text usage) }
{
    text.extend_from_slice(usage.words.as_bytes())?;
    text.push(b'\n')?;
    push_lines(text, usage.says.as_bytes())
}

/// Appends ways to write something.
fn push_usages(text: &mut Vec<u8>, usages: &[Usage]) -> Result<(), AllocError>
    ensures { OnOk result (text.new.items ≡ text.old.items ++ flat_map usage_text usages.now) }
{
    'usages: for usage in usages {
        push_usage(text, *usage)?;
    }
    Ok(())
}

/// Appends the title of a section behind an empty line.
fn push_title(text: &mut Vec<u8>, title: &str) -> Result<(), AllocError>
    ensures { OnOk result (text.new.items ≡ text.old.items ++ section_title title.now) }
{
    text.push(b'\n')?;
    text.extend_from_slice(title.as_bytes())?;
    text.push(b'\n')?;
    Ok(())
}

/// Appends a section of these lines; nothing where there are none.
fn push_section(text: &mut Vec<u8>, title: &str, lines: &str) -> Result<(), AllocError>
    ensures { OnOk result (text.new.items ≡ text.old.items ++ section_text title.now lines.now) }
{
    if lines.is_empty() {
        return Ok(());
    }
    push_title(text, title)?;
    push_lines(text, lines.as_bytes())
}

/// Appends a refusal with what it says.
fn push_said(text: &mut Vec<u8>, said: RefusalSaid) -> Result<(), AllocError>
    ensures { OnOk result (text.new.items ≡ text.old.items ++ refusal_said_text said) }
{
    text.extend_from_slice(b"    ")?;
    text.extend_from_slice(said.refusal.name())?;
    text.extend_from_slice(b": ")?;
    text.extend_from_slice(said.sentence.as_bytes())?;
    text.push(b'\n')?;
    Ok(())
}

/// Appends refusals with what they say.
fn push_all_said(text: &mut Vec<u8>, said: &[RefusalSaid]) -> Result<(), AllocError>
    ensures { OnOk result (text.new.items ≡ text.old.items ++ flat_map refusal_said_text said.now) }
{
    'said: for one in said {
        push_said(text, *one)?;
    }
    Ok(())
}

/// Appends the section of refusals; nothing where there are none.
fn push_refusals(text: &mut Vec<u8>, said: &[RefusalSaid]) -> Result<(), AllocError>
    ensures { OnOk result (text.new.items ≡ text.old.items ++ refusals_text said.now) }
{
    if said.is_empty() {
        return Ok(());
    }
    push_title(text, "Refusals:")?;
    push_all_said(text, said)
}

/// Appends a note behind an empty line; nothing where it is empty.
fn push_note(text: &mut Vec<u8>, note: &str) -> Result<(), AllocError>
    ensures { OnOk result (text.new.items ≡ text.old.items ++ note_text note.now) }
{
    if note.is_empty() {
        return Ok(());
    }
    push_title(text, note)
}

/// The text of a page: ways to write something, the answer, an example, refusals, and a note. What is empty is left out with its
/// title. Fails for want of memory alone.
#[tactic(auto, unfolding(crate::specs::Pages::page_text))]
pub fn page_text(
    alloc: Global,
    usages: &[Usage],
    answer: &str,
    example: &str,
    said: &[RefusalSaid],
    note: &str,
) -> Result<Vec<u8>, AllocError>
    ensures text { IfOk result (λ text. text.items ≡ page_text usages.now answer.now example.now said.now note.now) }
{
    let mut text = Vec::new(alloc);
    push_usages(&mut text, usages)?;
    push_section(&mut text, "Answer:", answer)?;
    push_section(&mut text, "Example:", example)?;
    push_refusals(&mut text, said)?;
    push_note(&mut text, note)?;
    Ok(text)
}
