//! Posts read back from their text.
ghost use Rattle.std.specs.Prelude.{◌≡◌, ◌≢◌, ℕ, ◌+◌, ◌<◌, ◌≤◌, ◌^◌, ◌&&◌, ◌==◌, ◌↔◌, false, true, List, [], ◌∷◌, ◌++◌, map, length, IfOk, IfErr, IfSome, IsTrue, MatchOption};
ghost use Rattle.std.specs.List.{join_with_byte, AllByRecursion};
ghost use Rattle.mt_skel.specs.Keyed.{rises};
ghost use Rattle.mt_lines.specs.Words.{begins};
ghost use Rattle.mt_info.specs.declared.row.Row.{Row};
ghost use Rattle.mt_info.specs.Laws.{IsRow};
ghost use Rattle.mt_info.specs.Table.{row_id};
ghost use Rattle.mt_events.specs.Posts.{PostView, IsPost, itself, is_change, event_words, gone_line, row_line, post_text, minus, equals};

use crate::post::{Ids, Post};
use mt_info::fields::read_number;
use mt_info::read::read_row;
use mt_info::row::Row;
use mt_info::table::Table;
use mt_lines::words::{Pieces, Words, words};
use mt_mounts::mount::{MountId, SpaceId};
use mt_skel::fault::Fault;
use std::alloc::Global;

/// What the first line of a post says.
#[derive(Clone, Copy, Debug)]
struct Event {
    space: SpaceId,
    number: u64,
    count: u64,
}

/// The words of the first line of a post.
fn read_event_words(words: &mut Words<'_>) -> Result<Event, Fault>
    ensures small { IfOk result (λ event. (event.space < 2 ^ 64) × (event.number < 2 ^ 64) × (event.count < 2 ^ 64)) }
    ensures event { IfOk result (λ event. words.old ≡ event_words event.space event.number event.count) }
    ensures refused { IfErr result (λ fault. (fault ≡ Fault.BadLine) × ((space number count : ℕ) → space < 2 ^ 64 → number < 2 ^ 64 → count < 2 ^ 64 → words.old ≢ event_words space number count)) }
{
    let (Some(event), Some(space), Some(number), Some(count), None) = (
        words.next(),
        words.next(),
        words.next(),
        words.next(),
        words.next(),
    ) else {
        return Err(Fault::BadLine);
    };
    if event != b"event".as_slice() {
        return Err(Fault::BadLine);
    }
    Ok(Event {
        space: read_number(space)?,
        number: read_number(number)?,
        count: read_number(count)?,
    })
}

/// The first line of a post.
fn read_event(lines: &mut Pieces<'_>) -> Result<Event, Fault>
    ensures small { IfOk result (λ event. (event.space < 2 ^ 64) × (event.number < 2 ^ 64) × (event.count < 2 ^ 64)) }
    ensures event { IfOk result (λ event. lines.old ≡ join_with_byte 32 (event_words event.space event.number event.count) ∷ lines.new) }
    ensures refused { IfErr result (λ fault. (fault ≡ Fault.BadLine) × ((space number count : ℕ) (rest : List (List ℕ)) → space < 2 ^ 64 → number < 2 ^ 64 → count < 2 ^ 64 → lines.old ≢ join_with_byte 32 (event_words space number count) ∷ rest)) }
{
    let Some(line) = lines.next() else {
        return Err(Fault::BadLine);
    };
    let mut words = words(line);
    let event = read_event_words(&mut words)?;
    Ok(event)
}

/// The mount of a line that says that it left.
fn read_gone_line(line: &[u8]) -> Result<MountId, Fault>
    ensures id { IfOk result (λ id. line.now ≡ gone_line id) }
    ensures small { IfOk result (λ id. id < 2 ^ 64) }
    ensures refused { IfErr result (λ fault. (fault ≡ Fault.BadLine) × ((id : ℕ) → id < 2 ^ 64 → line.now ≢ gone_line id)) }
{
    match line {
        [b'-', b' ', digits @ ..] => read_number(digits),
        _ => Err(Fault::BadLine),
    }
}

/// The row of a line that says that it is new or not as it was.
fn read_row_line(alloc: Global, line: &[u8]) -> Result<Row, Fault>
    ensures row { IfOk result (λ row. line.now ≡ row_line row) }
    ensures valid { IfOk result (λ row. IsRow row) }
    ensures refused { IfErr result (λ fault. fault ≢ Fault.NoMemory → (fault ≡ Fault.BadLine) × ((row : Row) → IsRow row → line.now ≢ row_line row)) }
{
    match line {
        [b'=', b' ', text @ ..] => read_row(alloc, text),
        _ => Err(Fault::BadLine),
    }
}

/// The mounts that left, as far as lines say so.
fn read_gone(alloc: Global, lines: &mut Pieces<'_>) -> Result<Vec<MountId>, Fault>
    ensures gone { IfOk result (λ gone. lines.old ≡ map gone_line gone.items ++ lines.new) }
    ensures small { IfOk result (λ gone. AllByRecursion (λ i. i < 2 ^ 64) gone.items) }
    ensures rest { IfOk result (λ gone. begins minus lines.new ≡ false) }
    ensures refused { IfErr result (λ fault. fault ≢ Fault.NoMemory → (fault ≡ Fault.BadLine) × ((gone : List ℕ) (rest : List (List ℕ)) → AllByRecursion (λ i. i < 2 ^ 64) gone → begins minus rest ≡ false → lines.old ≢ map gone_line gone ++ rest)) }
{
    let mut gone = Vec::new(alloc);
    'lines: while let Some(line) = lines.next_starting(b"- ") {
        gone.push(read_gone_line(line)?)?;
    }
    Ok(gone)
}

/// The rows, as far as lines say them.
fn read_rows(alloc: Global, lines: &mut Pieces<'_>) -> Result<Vec<Row>, Fault>
    ensures rows { IfOk result (λ rows. lines.old ≡ map row_line rows.items ++ lines.new) }
    ensures valid { IfOk result (λ rows. AllByRecursion IsRow rows.items) }
    ensures rest { IfOk result (λ rows. begins equals lines.new ≡ false) }
    ensures refused { IfErr result (λ fault. fault ≢ Fault.NoMemory → (fault ≡ Fault.BadLine) × ((rows : List Row) (rest : List (List ℕ)) → AllByRecursion IsRow rows → begins equals rest ≡ false → lines.old ≢ map row_line rows ++ rest)) }
{
    let mut rows = Vec::new(alloc);
    'lines: while let Some(line) = lines.next_starting(b"= ") {
        rows.push(read_row_line(alloc, line)?)?;
    }
    Ok(rows)
}

/// Whether the last line had its line end, and no other line is left.
fn is_end(lines: &mut Pieces<'_>) -> bool
    ensures { (result ≡ true) ↔ (lines.old ≡ [] ∷ []) }
{
    let Some(last) = lines.next() else {
        return false;
    };
    last.is_empty() && lines.next().is_none()
}

/// The post of these, if they can be one.
fn post_of(event: Event, gone: Vec<MountId>, rows: Vec<Row>) -> Option<Post>
    ensures post { MatchOption result
        (1 ≤ event.number → IsTrue (rises itself gone.items && rises row_id rows.items && is_change gone.items rows.items && (event.count == length gone.items + length rows.items)) → ⊥)
        (λ post. (post ≡ record { space = event.space; number = event.number; gone = gone.items; rows = rows.items }) × (event.count ≡ length gone.items + length rows.items)) }
    ensures told { IfSome result (λ post. (IsTrue (rises itself post.gone) × IsTrue (rises row_id post.rows)) × ((1 ≤ post.number) × IsTrue (is_change post.gone post.rows))) }
{
    let count = gone.len() + rows.len();
    let gone = Ids::from_vec(gone)?;
    let rows = Table::from_rows(rows)?;
    if event.count != count as u64 {
        return None;
    }
    Post::new(event.space, event.number, gone, rows)
}

/// The post of which this is the text: its lines, each with its line end. No two posts have one text.
///
/// Refused as `BadLine` exactly where it is the text of no post, and otherwise only as `NoMemory`.
pub fn read_post(alloc: Global, text: &[u8]) -> Result<Post, Fault>
    ensures post { IfOk result (λ post. text.now ≡ post_text post) }
    ensures valid { IfOk result (λ post. IsPost post) }
    ensures refused { IfErr result (λ fault. fault ≢ Fault.NoMemory → (fault ≡ Fault.BadLine) × ((post : PostView) → IsPost post → text.now ≢ post_text post)) }
{
    let mut lines = Pieces::new(b'\n', text);
    let event = read_event(&mut lines)?;
    let gone = read_gone(alloc, &mut lines)?;
    let rows = read_rows(alloc, &mut lines)?;
    if !is_end(&mut lines) {
        return Err(Fault::BadLine);
    }
    let Some(post) = post_of(event, gone, rows) else {
        return Err(Fault::BadLine);
    };
    Ok(post)
}
