//! All that is told of a refusal.
ghost use Rattle.std.specs.Prelude.{◌≡◌, ◌++◌, None, Some, OnOk, IfOk, IsOkUnless, MatchOption};
ghost use Rattle.mt_refused.specs.Texts.{hindrance_line, witness_lines, hindrance_text, refused_text};

use crate::hindrance::{Hindrance, hindrance_of};
use crate::listing::push_listing;
use crate::page::Page;
use crate::remedy::push_remedies;
use crate::sentence::push_sentence;
use crate::titles::Titles;
use crate::witness::witnesses;
use mt_book::command::Command;
use mt_reach::rows::SeenRows;
use mt_skel::fault::Fault;
use std::alloc::Global;

/// Appends the first line of a hindrance, with its line end. Refused as `NoMemory` alone.
fn push_first(
    text: &mut Vec<u8>,
    page: &Page<'_>,
    refusal: Fault,
    hindrance: Hindrance,
) -> Result<(), Fault>
    ensures text { OnOk result (text.new.items ≡ text.old.items ++ hindrance_line page.now refusal hindrance) }
    ensures memory { IsOkUnless result Fault.NoMemory }
{
    text.extend_from_slice(refusal.name())?;
    text.extend_from_slice(b": ")?;
    push_sentence(text, page, hindrance)?;
    text.extend_from_slice(b"\n")?;
    Ok(())
}

/// Appends the rows of the mounts that a hindrance names. Refused as `NoMemory` alone.
fn push_witnesses(
    alloc: Global,
    text: &mut Vec<u8>,
    page: &Page<'_>,
    hindrance: Hindrance,
) -> Result<(), Fault>
    ensures text { OnOk result (text.new.items ≡ text.old.items ++ witness_lines page.now hindrance) }
    ensures memory { IsOkUnless result Fault.NoMemory }
{
    let ids = witnesses(alloc, page.rows, page.command, hindrance)?;
    push_listing(text, page, ids.as_slice())
}

/// What is told of a hindrance. Refused as `NoMemory` alone.
fn hindrance_text(
    alloc: Global,
    page: &Page<'_>,
    refusal: Fault,
    hindrance: Hindrance,
) -> Result<Vec<u8>, Fault>
    ensures text { IfOk result (λ text. text.items ≡ hindrance_text page.now refusal hindrance) }
    ensures memory { IsOkUnless result Fault.NoMemory }
{
    let mut text = Vec::new(alloc);
    push_first(&mut text, page, refusal, hindrance)?;
    push_witnesses(alloc, &mut text, page, hindrance)?;
    push_remedies(&mut text, page, hindrance)?;
    Ok(text)
}

/// What is told of a command that is refused, by the rows of all tables before it: a line with the name of the refusal and what
/// is in the way, the rows of the mounts that this names, eight at most, and the lines that say what would change it. Each ends
/// with a line end, and has strangers' bytes as tables have them. `None` where the rows say no such thing of the command: then
/// somebody else has changed the tables, or the refusal is not of mounts ([`hindrance_of`]). Refused as `NoMemory` alone.
pub fn refused_text(
    alloc: Global,
    rows: &SeenRows,
    titles: &Titles,
    command: &Command,
    refusal: Fault,
) -> Result<Option<Vec<u8>>, Fault>
    ensures told { IfOk result (λ text. MatchOption text (refused_text rows.now titles.now command.now refusal ≡ None) (λ told. refused_text rows.now titles.now command.now refusal ≡ Some told.items)) }
    ensures memory { IsOkUnless result Fault.NoMemory }
{
    let Some(hindrance) = hindrance_of(alloc, rows, command, refusal)? else {
        return Ok(None);
    };
    let page = Page::new(rows, titles, command);
    let text = hindrance_text(alloc, &page, refusal, hindrance)?;
    Ok(Some(text))
}
