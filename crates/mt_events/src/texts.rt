//! The lines of tables, of what a watcher found, and of posts, as they are answered.
ghost use Rattle.std.specs.Prelude.{◌≡◌, ◌+◌, ◌++◌, ◌∷◌, [], length, flat_map, codes, decimal, OnOk, OnErr, IfOk, IsOkUnless};
ghost use Rattle.mt_skel.specs.Front.{IsFront};
ghost use Rattle.mt_info.specs.RowLine.{whole_line};
ghost use Rattle.mt_events.specs.Posts.{post_lines, post_text};
ghost use Rattle.mt_events.specs.Texts.{count_text, table_text, part_text, opening_text};

use crate::opening::{Opening, Part};
use crate::post::Post;
use crate::print::push_post;
use mt_info::print::{push_number, push_row};
use mt_info::row::Row;
use mt_info::table::Table;
use mt_skel::fault::Fault;
use std::alloc::{AllocError, Global};

/// The lines of a table: `ok`, the count of its rows and how often it has changed, and then the line of each row.
pub fn table_lines(alloc: Global, number: u64, table: &Table) -> Result<Vec<u8>, AllocError>
    ensures { IfOk result (λ lines. lines.items ≡ table_text number table.now) }
{
    let mut lines = Vec::new(alloc);
    push_heading(&mut lines, table.rows().len() as u64, number)?;
    push_rows(&mut lines, table.rows())?;
    Ok(lines)
}

/// Lines after `ok` and how many they are.
pub fn counted_lines(alloc: Global, count: u64, lines: &[u8]) -> Result<Vec<u8>, AllocError>
    ensures { IfOk result (λ all. all.items ≡ count_text count ++ lines.now) }
{
    let mut all = Vec::new(alloc);
    all.extend_from_slice(b"ok ")?;
    push_number(&mut all, count)?;
    all.extend_from_slice(b"\n")?;
    all.extend_from_slice(lines)?;
    Ok(all)
}

/// The lines that tell what a watcher finds: `ok`, how many lines follow, and for each namespace a line `space` with
/// its number, that of its last post and the count of its rows, and the line of each row.
pub fn lines_of_opening(alloc: Global, opening: &Opening) -> Result<Vec<u8>, Fault>
    ensures text { IfOk result (λ lines. lines.items ≡ opening_text opening.now) }
    ensures memory { IsOkUnless result Fault.NoMemory }
{
    let mut lines = Vec::new(alloc);
    let mut count = 0u64;
    'parts: for part in opening.parts.as_slice() {
        count = lines_with(count, part.table.rows().len() as u64)?;
        push_part(&mut lines, part)?;
    }
    Ok(counted_lines(alloc, count, &lines)?)
}

/// A count of lines with one more and this many below it. It is refused as `NoMemory` where it does not fit: no memory
/// holds 2^64 lines.
fn lines_with(lines: u64, below: u64) -> Result<u64, Fault>
    ensures lines { IfOk result (λ sum. sum ≡ lines + (1 + below)) }
    ensures memory { IsOkUnless result Fault.NoMemory }
{
    lines
        .checked_add(1)
        .and_then(|more| more.checked_add(below))
        .ok_or(Fault::NoMemory)
}

/// A count of lines with those of a post, refused likewise.
fn lines_with_post(lines: u64, post: &Post) -> Result<u64, Fault>
    ensures lines { IfOk result (λ sum. sum ≡ lines + length (post_lines post.now)) }
    ensures memory { IsOkUnless result Fault.NoMemory }
{
    let gone = post.gone.as_slice().len() as u64;
    let rows = post.rows.rows().len() as u64;
    let below = gone.checked_add(rows).ok_or(Fault::NoMemory)?;
    lines_with(lines, below)
}

/// Posts as they are sent to a client.
#[derive(Drop)]
pub struct PrintedPosts {
    /// Their lines, each with its line end.
    pub text: Vec<u8>,
    /// How many lines these are.
    pub lines: u64,
    /// How many posts these are.
    pub posts: u64,
}

impl PrintedPosts {
    /// No posts. Takes no memory; that for their text will come from `alloc`.
    pub fn new(alloc: Global) -> PrintedPosts
        ensures text { result.text.items ≡ [] }
        ensures lines { result.lines ≡ 0 }
        ensures posts { result.posts ≡ 0 }
    {
        PrintedPosts {
            text: Vec::new(alloc),
            lines: 0,
            posts: 0,
        }
    }

    /// Appends a post.
    pub fn push(&mut self, post: &Post) -> Result<(), Fault>
        ensures text { OnOk result (self.new.text.items ≡ self.old.text.items ++ post_text post.now) }
        ensures lines { OnOk result (self.new.lines ≡ self.old.lines + length (post_lines post.now)) }
        ensures posts { OnOk result (self.new.posts ≡ self.old.posts + 1) }
        ensures memory { IsOkUnless result Fault.NoMemory }
        ensures unchanged { OnErr result ((self.new.text.items ≡ self.old.text.items) × (self.new.lines ≡ self.old.lines) × (self.new.posts ≡ self.old.posts)) }
    {
        let lines = lines_with_post(self.lines, post)?;
        let posts = self.posts.checked_add(1).ok_or(Fault::NoMemory)?;
        push_whole(&mut self.text, post)?;
        self.lines = lines;
        self.posts = posts;
        Ok(())
    }
}

/// Appends the text of a post, or nothing if there is not enough memory.
fn push_whole(text: &mut Vec<u8>, post: &Post) -> Result<(), AllocError>
    ensures text { OnOk result (text.new.items ≡ text.old.items ++ post_text post.now) }
    ensures unchanged { OnErr result (text.new.items ≡ text.old.items) }
{
    let start = text.len();
    if let Err(fault) = push_post(text, post) {
        text.truncate(start);
        return Err(fault);
    }
    Ok(())
}

/// Appends the lines of a namespace that a watcher found.
fn push_part(lines: &mut Vec<u8>, part: &Part) -> Result<(), AllocError>
    ensures { OnOk result (lines.new.items ≡ lines.old.items ++ part_text part.now) }
{
    let rows = part.table.rows();
    lines.extend_from_slice(b"space ")?;
    push_number(lines, part.space)?;
    lines.extend_from_slice(b" ")?;
    push_number(lines, part.number)?;
    lines.extend_from_slice(b" ")?;
    push_number(lines, rows.len() as u64)?;
    lines.extend_from_slice(b"\n")?;
    push_rows(lines, rows)?;
    Ok(())
}

/// Appends the line before a table: `ok`, the count of its rows and how often it has changed.
pub fn push_heading(lines: &mut Vec<u8>, count: u64, number: u64) -> Result<(), AllocError>
    ensures text { OnOk result (lines.new.items ≡ lines.old.items ++ (codes "ok " ++ decimal count ++ codes " " ++ decimal number ++ 10 ∷ [])) }
    ensures kept { IsFront lines.old.items lines.new.items }
{
    lines.extend_from_slice(b"ok ")?;
    push_number(lines, count)?;
    lines.extend_from_slice(b" ")?;
    push_number(lines, number)?;
    lines.extend_from_slice(b"\n")?;
    Ok(())
}

/// Appends the lines of rows.
fn push_rows(lines: &mut Vec<u8>, rows: &[Row]) -> Result<(), AllocError>
    ensures { OnOk result (lines.new.items ≡ lines.old.items ++ flat_map whole_line rows.now) }
{
    for row in rows {
        push_row(lines, row)?;
        lines.extend_from_slice(b"\n")?;
    }
    Ok(())
}
