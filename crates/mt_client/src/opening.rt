//! The lines of what a watcher found.
ghost use Rattle.std.specs.Prelude.{◌≡◌, ◌≢◌, ℕ, ◌<◌, ◌≤◌, ◌^◌, [], ◌∷◌, map, length, true, None, Err, IfOk, IfErr, IfSome, IsTrue, MatchBool, MatchOption};
ghost use Rattle.std.specs.List.{join_with_byte, AllByRecursion};
ghost use Rattle.mt_skel.specs.Keyed.{rises};
ghost use Rattle.mt_skel.specs.Rising.{is_above};
ghost use Rattle.mt_lines.specs.Reading.{fault_of};
ghost use Rattle.mt_info.specs.Laws.{IsRow};
ghost use Rattle.mt_info.specs.RowLine.{line};
ghost use Rattle.mt_info.specs.Table.{row_id};
ghost use Rattle.mt_client.specs.Reading.{known_lines};
ghost use Rattle.mt_client.specs.Calls.{AreRead, IsReadFault};
ghost use Rattle.mt_client.specs.Mirroring.{counted_line, heading_words};
ghost use Rattle.mt_client.specs.Awaited.{IsRowAbove, AreRowLines};

use crate::fault::ClientFault;
use crate::relay::next_text;
use mt_info::read::read_row;
use mt_info::row::Row;
use mt_lines::line::LineReader;
use mt_lines::stream::Input;
use mt_lines::words::{Words, number, words};
use mt_mounts::mount::{MountId, SpaceId};
use mt_skel::fault::Fault;
use mt_skel::list::is_above;
use std::alloc::Global;

/// How many rows all namespaces have at most: those of a server of the greatest room.
pub(crate) const MOST_ROWS: u64 = 1_048_576;

/// How many namespaces there are at most.
pub(crate) const MOST_SPACES: u64 = 16_384;

/// How many lines a post has at most behind its first one: as many mounts that left, and as many rows, as there may be.
pub(crate) const MOST_POST_LINES: u64 = 2_097_152;

/// How many lines the posts have at most that wait: 16,384 posts, which is all that a queue holds, each with its first line.
pub(crate) const MOST_WAITING_LINES: u64 = 34_359_754_752;

/// How many commands are listed at once at most.
pub(crate) const MOST_LISTED: u64 = 1_024;

/// How many lines an opening has at most behind its first one: these rows, and one line for each of 16,384 namespaces.
pub(crate) const MOST_LINES: u64 = 1_064_960;

/// Whether a line says more of something than a server has.
pub(crate) fn is_beyond(count: u64, most: u64) -> bool
    ensures { MatchBool result (most < count) (count ≤ most) }
{
    count > most
}

/// What the first line of a namespace says.
#[derive(Clone, Copy)]
pub(crate) struct Heading {
    pub(crate) space: SpaceId,
    pub(crate) number: u64,
    pub(crate) count: u64,
}

/// The number of a line that is `ok` and a number.
pub(crate) fn read_count(line: &[u8]) -> Option<u64>
    ensures count { MatchOption result ((n : ℕ) → n < 2 ^ 64 → line.now ≢ counted_line n) (λ n. line.now ≡ counted_line n) }
    ensures small { IfSome result (λ n. n < 2 ^ 64) }
{
    match line {
        [b'o', b'k', b' ', digits @ ..] => number(digits),
        _ => None,
    }
}

/// The words of the first line of a namespace.
fn read_heading_words(words: &mut Words<'_>) -> Option<Heading>
    ensures heading { MatchOption result ((space number count : ℕ) → space < 2 ^ 64 → number < 2 ^ 64 → count < 2 ^ 64 → words.old ≢ heading_words space number count)
        (λ heading. words.old ≡ heading_words heading.space heading.number heading.count) }
    ensures small { IfSome result (λ heading. (heading.space < 2 ^ 64) × (heading.number < 2 ^ 64) × (heading.count < 2 ^ 64)) }
{
    let (Some(first), Some(space), Some(last), Some(count), None) = (
        words.next(),
        words.next(),
        words.next(),
        words.next(),
        words.next(),
    ) else {
        return None;
    };
    if first != b"space".as_slice() {
        return None;
    }
    Some(Heading {
        space: number(space)?,
        number: number(last)?,
        count: number(count)?,
    })
}

/// The first line of a namespace.
pub(crate) fn read_heading(line: &[u8]) -> Option<Heading>
    ensures heading { MatchOption result ((space number count : ℕ) → space < 2 ^ 64 → number < 2 ^ 64 → count < 2 ^ 64 → line.now ≢ join_with_byte 32 (heading_words space number count))
        (λ heading. line.now ≡ join_with_byte 32 (heading_words heading.space heading.number heading.count)) }
    ensures small { IfSome result (λ heading. (heading.space < 2 ^ 64) × (heading.number < 2 ^ 64) × (heading.count < 2 ^ 64)) }
{
    let mut words = words(line);
    read_heading_words(&mut words)
}

/// The row of which a text is the line: refused as `Connection` where it is none, and else as `NoMemory`.
fn row_said(alloc: Global, text: &[u8]) -> Result<Row, ClientFault>
    ensures row { IfOk result (λ row. text.now ≡ line row) }
    ensures valid { IfOk result (λ row. IsRow row) }
    ensures refused { result ≡ Err ClientFault.Connection → (row : Row) → IsRow row → text.now ≢ line row }
    ensures kind { result ≢ Err ClientFault.Output }
{
    match read_row(alloc, text) {
        Ok(row) => Ok(row),
        Err(Fault::NoMemory) => Err(ClientFault::NoMemory),
        Err(_) => Err(ClientFault::Connection),
    }
}

/// The row of which a text is the line, where its ID is above the last one: refused as `Connection` where it is none such,
/// and else as `NoMemory`.
pub(crate) fn row_above(
    alloc: Global,
    text: &[u8],
    last: Option<MountId>,
) -> Result<Row, ClientFault>
    ensures row { IfOk result (λ row. text.now ≡ line row) }
    ensures valid { IfOk result (λ row. IsRow row) }
    ensures above { IfOk result (λ row. is_above last row.id ≡ true) }
    ensures refused { result ≡ Err ClientFault.Connection → (row : Row) → IsRow row → is_above last row.id ≡ true → text.now ≢ line row }
    ensures kind { result ≢ Err ClientFault.Output }
{
    let row = row_said(alloc, text)?;
    if is_above(last, row.id) {
        Ok(row)
    } else {
        Err(ClientFault::Connection)
    }
}

/// The row that the next line says, with an ID above the last one.
fn read_row_line<R: Input + Drop>(
    alloc: Global,
    lines: &mut LineReader<R>,
    last: Option<MountId>,
) -> Result<Row, ClientFault>
    requires fresh { fault_of lines.old ≡ None }
    ensures row { IfOk result (λ row. AreRead (line row ∷ []) lines.old lines.new) }
    ensures valid { IfOk result (λ row. IsRow row) }
    ensures above { IfOk result (λ row. is_above last row.id ≡ true) }
    ensures fault { IfErr result (λ fault. IsReadFault fault (IsRowAbove last) (known_lines lines.old) lines.old lines.new) }
{
    next_text(lines)?;
    row_above(alloc, lines.line(), last)
}

/// The rows that so many lines say, by rising ID.
pub(crate) fn read_rows<R: Input + Drop>(
    alloc: Global,
    lines: &mut LineReader<R>,
    count: u64,
) -> Result<Vec<Row>, ClientFault>
    requires fresh { fault_of lines.old ≡ None }
    ensures rows { IfOk result (λ rows. AreRead (map line rows.items) lines.old lines.new) }
    ensures many { IfOk result (λ rows. length rows.items ≡ count) }
    ensures valid { IfOk result (λ rows. AllByRecursion IsRow rows.items) }
    ensures rising { IfOk result (λ rows. IsTrue (rises row_id rows.items)) }
    ensures fault { IfErr result (λ fault. IsReadFault fault (AreRowLines count) (known_lines lines.old) lines.old lines.new) }
{
    let mut rows = Vec::new(alloc);
    let mut last = None;
    'rows: for _row in 0..count {
        let row = read_row_line(alloc, lines, last)?;
        last = Some(row.id);
        rows.push(row)?;
    }
    Ok(rows)
}
