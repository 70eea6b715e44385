//! The table of a namespace, as its posts tell it to a client.
ghost use Rattle.std.specs.Prelude.{◌≡◌, ◌≢◌, ◌⊎◌, ℕ, List, [], ◌∷◌, ◌++◌, true, false, None, Ok, Err, IfOk, IfErr, IfSome, OnOk, OnErr, IsTrue, MatchBool, MatchOption, codes};
ghost use Rattle.std.specs.Io.KnownBytes.{Appends, Keeps};
ghost use Rattle.mt_lines.specs.Reading.{last_faults, fault_of, last_line, limit_of};
ghost use Rattle.mt_events.specs.Texts.{table_text};
ghost use Rattle.mt_events.specs.Mirrors.{MirrorView, mirrored};
ghost use Rattle.mt_events.specs.Posts.{ended};
ghost use Rattle.mt_client.specs.Reading.{known_lines, ComeFirst, HasBroken, IsSentPart, NoneFirst, IsCut};
ghost use Rattle.mt_client.specs.Calls.{ReadsOn, WritesOn, IsOut, IsOutOrBroken, AreOutOrBroken, IsReadFault, IsTalkFault, IsTurnedAway, IsAskFault};
ghost use Rattle.mt_client.specs.Requests.{numbered_text};
ghost use Rattle.mt_client.specs.Mirroring.{counted_line, may_come, HasOpened, HasFollowed, HasFollowedAll, HasRefused, IsRefusedMidway, HasMirrored, requests_text, IsRefused};
ghost use Rattle.mt_client.specs.Awaited.{IsOneRefusal, IsRefusedOr, IsOpening, IsSuchPost, IsOnlyApplied, IsFollowing, IsEnd, IsMirroring};

use crate::answer::is_refusal;
use crate::fault::ClientFault;
use crate::opening::read_count;
use crate::posts::{apply_next, read_posted};
use crate::relay::{next_text, print, print_line};
use crate::request::numbered_line;
use crate::sending::send_request;
use crate::watch::watch;
use mt_events::mirror::Mirror;
use mt_events::opening::Scope;
use mt_events::texts::table_lines;
use mt_lines::line::LineReader;
use mt_lines::stream::{Input, Output};
use std::alloc::Global;

/// The last of these namespaces, if there is one.
fn last_of(mut parts: Vec<Mirror>) -> Option<Mirror>
    ensures { MatchOption result (parts.items ≡ []) (λ mirror. (others : List MirrorView) × (parts.items ≡ others ++ mirror ∷ [])) }
{
    parts.pop()
}

/// Watches one namespace: what the watcher found, or None where a refusal was printed.
fn watch_one<R: Input + Drop, W: Output, O: Output>(
    alloc: Global,
    lines: &mut LineReader<R>,
    writer: &mut W,
    space: u64,
    out: &mut O,
) -> Result<Option<Mirror>, ClientFault>
    requires fresh { fault_of lines.old ≡ None }
    ensures opened { IfOk result (λ found. IfSome found (λ mirror. HasOpened space (known_lines lines.old) (known_lines lines.new) mirror)) }
    ensures unrefused { IfOk result (λ found. IfSome found (λ mirror. NoneFirst IsOneRefusal (known_lines lines.old))) }
    ensures sent { IfOk result (λ found. IfSome found (λ mirror. IsOut W.Output (ended (numbered_text (codes "watch") space)) writer.old writer.new)) }
    ensures unprinted { IfOk result (λ found. IfSome found (λ mirror. out.new ≡ out.old)) }
    ensures refused { result ≡ Ok None → IsTurnedAway W.Output O.Output (ended (numbered_text (codes "watch") space)) lines.old lines.new writer.old writer.new out.old out.new }
    ensures part { IsSentPart (ended (numbered_text (codes "watch") space)) (W.contents writer.old) (W.contents writer.new) }
    ensures on { OnOk result (ReadsOn lines.old lines.new) }
    ensures prints { OnOk result (WritesOn O.Output out.old out.new) }
    ensures fault { IfErr result (λ fault. IsAskFault W.Output O.Output fault (IsRefusedOr (IsOpening space)) lines.old lines.new writer.old writer.new out.old out.new) }
{
    let Some(parts) = watch(alloc, lines, writer, Scope::One(space), out)? else {
        return Ok(None);
    };
    match last_of(parts) {
        Some(mirror) => Ok(Some(mirror)),
        None => Err(ClientFault::Connection),
    }
}

/// Applies the next post: false where a refusal stands in its place, which the reader lends.
fn follow_post<R: Input + Drop>(
    alloc: Global,
    lines: &mut LineReader<R>,
    mirror: &mut Mirror,
) -> Result<bool, ClientFault>
    requires fresh { fault_of lines.old ≡ None }
    ensures followed { IfOk result (λ going. MatchBool going
        (HasFollowed (known_lines lines.old) (known_lines lines.new) mirror.old mirror.new)
        (HasRefused (last_line lines.new) (known_lines lines.old) (known_lines lines.new))) }
    ensures unchanged { result ≡ Ok false → mirror.new ≡ mirror.old }
    ensures applied { result ≡ Ok true → IsOnlyApplied mirrored mirror.old mirror.new (known_lines lines.old) (known_lines lines.new) }
    ensures unrefused { result ≡ Ok true → NoneFirst IsOneRefusal (known_lines lines.old) }
    ensures on { OnOk result (ReadsOn lines.old lines.new) }
    ensures fault { IfErr result (λ fault. IsReadFault fault (IsRefusedOr (IsSuchPost (may_come mirror.old))) (known_lines lines.old) lines.old lines.new) }
{
    next_text(lines)?;
    if is_refusal(lines.line()) {
        return Ok(false);
    }
    let post = read_posted(alloc, lines)?;
    apply_next(mirror, &post)?;
    Ok(true)
}

/// Whether a line is the end of so many posts.
pub(crate) fn is_end(line: &[u8], count: u64) -> bool
    ensures { MatchBool result (line.now ≡ counted_line count) (line.now ≢ counted_line count) }
{
    match read_count(line) {
        Some(number) => number == count,
        None => false,
    }
}

/// Reads the line behind so many posts: false where it is a refusal, which the reader lends.
pub(crate) fn read_end<R: Input + Drop>(
    lines: &mut LineReader<R>,
    count: u64,
) -> Result<bool, ClientFault>
    requires fresh { fault_of lines.old ≡ None }
    ensures ended { IfOk result (λ going. MatchBool going
        (ComeFirst (known_lines lines.old) (counted_line count ∷ []) (known_lines lines.new))
        (HasRefused (last_line lines.new) (known_lines lines.old) (known_lines lines.new))) }
    ensures unrefused { result ≡ Ok true → NoneFirst IsOneRefusal (known_lines lines.old) }
    ensures on { OnOk result (ReadsOn lines.old lines.new) }
    ensures fault { IfErr result (λ fault. IsReadFault fault (IsRefusedOr (IsEnd count)) (known_lines lines.old) lines.old lines.new) }
{
    next_text(lines)?;
    if is_refusal(lines.line()) {
        return Ok(false);
    }
    if is_end(lines.line(), count) {
        Ok(true)
    } else {
        Err(ClientFault::Connection)
    }
}

/// Applies so many posts and reads the line behind them: false where a refusal stands in the place of a line, which
/// the reader lends.
fn follow_posts<R: Input + Drop>(
    alloc: Global,
    lines: &mut LineReader<R>,
    mirror: &mut Mirror,
    count: u64,
) -> Result<bool, ClientFault>
    requires fresh { fault_of lines.old ≡ None }
    ensures followed { IfOk result (λ going. MatchBool going
        (HasFollowedAll count (known_lines lines.old) (known_lines lines.new) mirror.old mirror.new)
        (IsRefusedMidway count (last_line lines.new) (known_lines lines.old) (known_lines lines.new) mirror.old mirror.new)) }
    ensures on { OnOk result (ReadsOn lines.old lines.new) }
    ensures fault { IfErr result (λ fault. IsReadFault fault (IsFollowing (counted_line count) count mirror.old) (known_lines lines.old) lines.old lines.new) }
{
    'posts: for _post in 0..count {
        if !follow_post(alloc, lines, mirror)? {
            return Ok(false);
        }
    }
    read_end(lines, count)
}

/// Prints the table of a mirror, as the server shows it.
fn print_mirror<O: Output>(alloc: Global, out: &mut O, mirror: &Mirror) -> Result<(), ClientFault>
    ensures kept { OnErr result (result ≢ Err ClientFault.Output → Keeps (O.contents out.old) (O.contents out.new)) }
    ensures kind { result ≢ Err ClientFault.Connection }
    ensures cause { result ≡ Err ClientFault.Output → IsTrue O.counts
        → HasBroken (O.failed out.old) (O.failed out.new) (O.faults out.old) (O.faults out.new) }
    ensures out { OnOk result (IsOut O.Output (table_text mirror.now.number mirror.now.rows) out.old out.new) }
{
    let lines = table_lines(alloc, mirror.number(), mirror.table())?;
    print(out, lines.as_slice())
}

/// Asks for so many posts, applies them and prints the table that they lead to: false where a refusal was printed.
fn print_followed<R: Input + Drop, W: Output, O: Output>(
    alloc: Global,
    lines: &mut LineReader<R>,
    writer: &mut W,
    mirror: &mut Mirror,
    count: u64,
    out: &mut O,
) -> Result<bool, ClientFault>
    requires fresh { fault_of lines.old ≡ None }
    ensures followed { result ≡ Ok true → HasFollowedAll count (known_lines lines.old) (known_lines lines.new) mirror.old mirror.new }
    ensures printed { result ≡ Ok true → IsOut O.Output (table_text mirror.new.number mirror.new.rows) out.old out.new }
    ensures left { result ≡ Ok false → (made : MirrorView)
        × IsRefusedMidway count (last_line lines.new) (known_lines lines.old) (known_lines lines.new) mirror.old made }
    ensures refused { result ≡ Ok false → IsOut O.Output (ended (last_line lines.new)) out.old out.new }
    ensures sent { result ≡ Ok true → IsOut W.Output (ended (numbered_text (codes "follow") count)) writer.old writer.new }
    ensures asked { OnOk result (IsOutOrBroken W.Output (ended (numbered_text (codes "follow") count)) writer.old writer.new) }
    ensures unsent { result ≡ Ok false → IsTrue W.counts → (W.faults writer.old ≡ [] → W.faults writer.new ≡ [])
        ⊎ HasBroken (W.failed writer.old) (W.failed writer.new) (W.faults writer.old) (W.faults writer.new) }
    ensures part { IsSentPart (ended (numbered_text (codes "follow") count)) (W.contents writer.old) (W.contents writer.new) }
    ensures on { OnOk result (ReadsOn lines.old lines.new) }
    ensures prints { OnOk result (WritesOn O.Output out.old out.new) }
    ensures fault { IfErr result (λ fault. IsTalkFault W.Output O.Output fault (IsFollowing (counted_line count) count mirror.old) lines.old lines.new writer.old writer.new out.old out.new) }
    ensures kept { IfErr result (λ fault. fault ≢ ClientFault.Output → Keeps (O.contents out.old) (O.contents out.new)) }
{
    let follow = numbered_line(alloc, b"follow", count)?;
    if !send_request(lines, writer, follow.as_slice(), out)? {
        return Ok(false);
    }
    if !follow_posts(alloc, lines, mirror, count)? {
        print_line(out, lines.line())?;
        return Ok(false);
    }
    print_mirror(alloc, out, mirror)?;
    Ok(true)
}

/// Watches a namespace, follows so many posts of it, and prints `ok`, the count and the number of the table that they
/// lead to, and its rows, as the server shows it.
///
/// The reader has met no fault, and serves what comes over the connection. Answers true where the table was printed,
/// and false where a refusal was, that of the first request, or one that comes in the place of a post. Where a request
/// does not go out, since the server has ended the connection, a refusal that it sent before is read.
///
/// Refused as `Connection` where the connection fails or ends early, or where what comes is neither: the opening of
/// another namespace, or of several, rows that are not well-formed or do not rise by ID, what is no post, a post that
/// is not the next one, an end that counts other posts, or more than 1,048,576 rows. Refused as
/// `Output` where what was to be printed does not go out, and else as `NoMemory`. But for `Output` nothing was
/// printed then.
pub fn mirror<R: Input + Drop, W: Output, O: Output>(
    alloc: Global,
    lines: &mut LineReader<R>,
    writer: &mut W,
    space: u64,
    count: u64,
    out: &mut O,
) -> Result<bool, ClientFault>
    requires fresh { fault_of lines.old ≡ None }

    // Where a table is printed, the lines that were read are the text of an opening of the namespace that a server can
    // show, and of so many posts that are well-formed and follow it; it is the table, and the number, that applying
    // these posts to the opening gives.
    ensures mirrored { result ≡ Ok true → (made : MirrorView)
        × HasMirrored space count (known_lines lines.old) (known_lines lines.new) made
        × Appends (O.contents out.old) (O.contents out.new) (table_text made.number made.rows) }

    // Else a refusal was printed, that of the opening, or one behind some of the posts.
    ensures refused { result ≡ Ok false → (refusal : List ℕ)
        × IsRefused space count refusal (known_lines lines.old) (known_lines lines.new)
        × Appends (O.contents out.old) (O.contents out.new) (ended refusal) }

    // Both requests went out where a table is printed, and up to a fault a part of them. Where a refusal is, that of the
    // watcher did, and maybe the other, or calls of the writer failed.
    ensures sent { result ≡ Ok true → Appends (W.contents writer.old) (W.contents writer.new) (requests_text space count) }
    ensures part { IsSentPart (requests_text space count) (W.contents writer.old) (W.contents writer.new) }
    ensures asked { result ≡ Ok false → AreOutOrBroken W.Output (numbered_text (codes "watch") space ∷ numbered_text (codes "follow") count ∷ []) writer.old writer.new }

    // `Connection` only where calls of the reader failed, or the lines do not begin with an opening of the namespace, so
    // many posts that follow it, and their end, nor with a refusal in the place of one of these, or where calls of the
    // writer failed and no refusal comes first.
    // Where no fault of the stream stood, the last call failed then, or was the last of as many interrupted ones in
    // succession as end a read or a send. So it is with `Output`.
    ensures connection { result ≡ Err ClientFault.Connection → IsTrue R.counts → IsTrue W.counts
        → (HasBroken (W.failed writer.old) (W.failed writer.new) (W.faults writer.old) (W.faults writer.new) × IsCut IsOneRefusal lines.old lines.new) ⊎ IsCut (IsRefusedOr (IsMirroring space count)) lines.old lines.new }

    // Nothing was printed where the output did not fail, and `Output` comes only where calls of it failed.
    ensures kept { IfErr result (λ fault. fault ≢ ClientFault.Output → Keeps (O.contents out.old) (O.contents out.new)) }
    ensures output { result ≡ Err ClientFault.Output → IsTrue O.counts
        → HasBroken (O.failed out.old) (O.failed out.new) (O.faults out.old) (O.faults out.new) }
    // What the next call finds: a reader that has met no fault, and where none of a stream stood, none, but where calls
    // of the writer failed.
    ensures fresh { OnOk result (fault_of lines.new ≡ None) }
    ensures reads { OnOk result (IsTrue R.counts → last_faults lines.old ≡ [] → last_faults lines.new ≡ []) }
    ensures writes { IfOk result (λ told. IsTrue W.counts → W.faults writer.old ≡ []
        → (W.faults writer.new ≡ []) ⊎ ((told ≡ false) × HasBroken (W.failed writer.old) (W.failed writer.new) (W.faults writer.old) (W.faults writer.new))) }
    ensures prints { OnOk result (IsTrue O.counts → O.faults out.old ≡ [] → O.faults out.new ≡ []) }
    ensures limit { limit_of lines.new ≡ limit_of lines.old }
{
    let Some(mut mirror) = watch_one(alloc, lines, writer, space, out)? else {
        return Ok(false);
    };
    print_followed(alloc, lines, writer, &mut mirror, count, out)
}
