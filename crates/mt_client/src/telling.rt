//! The posts of a watcher, told as they come.
ghost use Rattle.std.specs.Prelude.{◌≡◌, ◌≢◌, ℕ, ◌+◌, ◌⊎◌, length, List, [], ◌++◌, true, false, None, Ok, Err, IfOk, IfErr, OnOk, OnErr, IsTrue, MatchBool, codes};
ghost use Rattle.std.specs.Io.KnownBytes.{Appends, Keeps};
ghost use Rattle.mt_skel.specs.Keyed.{rises};
ghost use Rattle.mt_lines.specs.Reading.{last_faults, fault_of, last_line, limit_of};
ghost use Rattle.mt_events.specs.Mirrors.{MirrorView};
ghost use Rattle.mt_events.specs.Posts.{PostView, ended};
ghost use Rattle.mt_client.specs.Requests.{numbered_text};
ghost use Rattle.mt_client.specs.Reading.{known_lines, HasBroken, IsSentPart, NoneFirst, IsCut};
ghost use Rattle.mt_client.specs.Calls.{ReadsOn, WritesOn, IsOut, IsOutOrBroken, IsOutInPart, IsTellFault, IsTalkFault};
ghost use Rattle.mt_client.specs.Mirroring.{HasRefused};
ghost use Rattle.mt_client.specs.Awaited.{IsOneRefusal, IsRefusedOr, IsSuchPost, IsOnlyApplied};
ghost use Rattle.mt_client.specs.Finding.{mirror_space, watch_text};
ghost use Rattle.mt_client.specs.Telling.{told_in, mirrors_with, is_due, posts_told, follows_text, telling_text, all_posts, HasTold, IsStopped, IsBrokenOff, HasToldPost, HasToldPortion, HasToldAll, HasToldAllOut, IsToldUpTo};
ghost use Rattle.mt_client.specs.Due.{AreDuePosts, AreDuePortions, IsTelling, AreOnlyApplied};

use crate::answer::is_refusal;
use crate::fault::ClientFault;
use crate::mirror::read_end;
use crate::mirrors::apply_told;
use crate::named::NamedTelling;
use crate::posts::read_posted;
use crate::relay::{next_text, print, print_line};
use crate::request::numbered_line;
use crate::sending::send_request;
use crate::watch::watch;
use mt_events::mirror::Mirror;
use mt_events::opening::Scope;
use mt_events::post::Post;
use mt_lines::line::LineReader;
use mt_lines::stream::{Input, Output};
use mt_render::named::name_in;
use std::alloc::Global;

/// How many posts a request asks for, the most that one may.
const PORTION: u64 = 1_048_576;

/// The most requests for posts, this project's rule.
const MOST_PORTIONS: u64 = u64::MAX;

/// Tells a post and applies it, where it is of a namespace of the scope and the next one.
pub(crate) fn tell_due<O: Output>(
    alloc: Global,
    scope: Scope,
    named: &NamedTelling<'_>,
    mirrors: &mut Vec<Mirror>,
    post: &Post,
    out: &mut O,
) -> Result<(), ClientFault>
    requires rising { IsTrue (rises mirror_space mirrors.old.items) }
    ensures applied { OnOk result (mirrors.new.items ≡ mirrors_with mirrors.old.items post.now) }
    ensures due { OnOk result (is_due scope mirrors.old.items post.now ≡ true) }
    ensures rising { OnOk result (IsTrue (rises mirror_space mirrors.new.items)) }
    ensures refused { result ≡ Err ClientFault.Connection → is_due scope mirrors.old.items post.now ≡ false }
    ensures kept { OnErr result (result ≢ Err ClientFault.Output → Keeps (O.contents out.old) (O.contents out.new)) }
    ensures out { OnOk result (IsOut O.Output (told_in named.now mirrors.old.items post.now) out.old out.new) }
    ensures part { result ≡ Err ClientFault.Output → (is_due scope mirrors.old.items post.now ≡ true)
        × IsOutInPart O.Output (told_in named.now mirrors.old.items post.now) out.old out.new }
{
    if !scope.names(post.space) {
        return Err(ClientFault::Connection);
    }
    let mut text = Vec::new(alloc);
    let name = name_in(named.names, post.space);
    apply_told(alloc, &mut text, named.telling, mirrors, post, name)?;
    print(out, text.as_slice())
}

/// Tells the next post: false where a refusal stands in its place, which the reader lends.
fn tell_post<R: Input + Drop, O: Output>(
    alloc: Global,
    lines: &mut LineReader<R>,
    scope: Scope,
    named: &NamedTelling<'_>,
    mirrors: &mut Vec<Mirror>,
    out: &mut O,
) -> Result<bool, ClientFault>
    requires fresh { fault_of lines.old ≡ None }
    requires rising { IsTrue (rises mirror_space mirrors.old.items) }
    ensures told { IfOk result (λ going. MatchBool going
        (HasToldPost named.now scope mirrors.old.items mirrors.new.items (known_lines lines.old) (known_lines lines.new) (O.contents out.old) (O.contents out.new))
        (Keeps (O.contents out.old) (O.contents out.new) × HasRefused (last_line lines.new) (known_lines lines.old) (known_lines lines.new))) }
    ensures rising { OnOk result (IsTrue (rises mirror_space mirrors.new.items)) }
    ensures broken { IfErr result
        (λ fault. IsStopped named.now fault scope mirrors.old.items (known_lines lines.old) (O.contents out.old) (O.contents out.new)) }
    ensures applied { result ≡ Ok true → IsOnlyApplied mirrors_with mirrors.old.items mirrors.new.items (known_lines lines.old) (known_lines lines.new) }
    ensures unrefused { result ≡ Ok true → NoneFirst IsOneRefusal (known_lines lines.old) }
    ensures on { OnOk result (ReadsOn lines.old lines.new) }
    ensures prints { OnOk result (WritesOn O.Output out.old out.new) }
    ensures fault { IfErr result (λ fault. IsTellFault O.Output fault (IsRefusedOr (IsSuchPost (is_due scope mirrors.old.items))) lines.old lines.new out.old out.new) }
{
    next_text(lines)?;
    if is_refusal(lines.line()) {
        return Ok(false);
    }
    let post = read_posted(alloc, lines)?;
    tell_due(alloc, scope, named, mirrors, &post, out)?;
    Ok(true)
}

/// Tells so many posts and reads the line behind them: false where a refusal stands in the place of a line, which the
/// reader lends.
fn tell_posts<R: Input + Drop, O: Output>(
    alloc: Global,
    lines: &mut LineReader<R>,
    scope: Scope,
    named: &NamedTelling<'_>,
    count: u64,
    mirrors: &mut Vec<Mirror>,
    out: &mut O,
) -> Result<bool, ClientFault>
    requires fresh { fault_of lines.old ≡ None }
    requires rising { IsTrue (rises mirror_space mirrors.old.items) }
    ensures told { IfOk result (λ going. MatchBool going
        (HasToldPortion named.now count scope mirrors.old.items mirrors.new.items (known_lines lines.old) (known_lines lines.new) (O.contents out.old) (O.contents out.new))
        ((all : HasToldAll named.now count scope (last_line lines.new) mirrors.old.items (known_lines lines.old) (known_lines lines.new) (O.contents out.old) (O.contents out.new)) × (all.so.portions ≡ []))) }
    ensures rising { OnOk result (IsTrue (rises mirror_space mirrors.new.items)) }
    ensures broken { IfErr result
        (λ fault. IsToldUpTo named.now fault count scope mirrors.old.items (known_lines lines.old) (O.contents out.old) (O.contents out.new)) }
    ensures applied { result ≡ Ok true → AreOnlyApplied count scope mirrors.old.items mirrors.new.items (known_lines lines.old) (known_lines lines.new) }
    ensures on { OnOk result (ReadsOn lines.old lines.new) }
    ensures prints { OnOk result (WritesOn O.Output out.old out.new) }
    ensures fault { IfErr result (λ fault. IsTellFault O.Output fault (AreDuePosts count scope mirrors.old.items) lines.old lines.new out.old out.new) }
{
    'posts: for _post in 0..count {
        if !tell_post(alloc, lines, scope, named, mirrors, out)? {
            return Ok(false);
        }
    }
    read_end(lines, count)
}

/// Asks for so many posts and tells them: false where a refusal stands in the place of a line, which is printed.
fn tell_portion<R: Input + Drop, W: Output, O: Output>(
    alloc: Global,
    lines: &mut LineReader<R>,
    writer: &mut W,
    scope: Scope,
    named: &NamedTelling<'_>,
    count: u64,
    mirrors: &mut Vec<Mirror>,
    out: &mut O,
) -> Result<bool, ClientFault>
    requires fresh { fault_of lines.old ≡ None }
    requires rising { IsTrue (rises mirror_space mirrors.old.items) }
    ensures told { IfOk result (λ going. MatchBool going
        (HasToldPortion named.now count scope mirrors.old.items mirrors.new.items (known_lines lines.old) (known_lines lines.new) (O.contents out.old) (O.contents out.new))
        ((all : HasToldAllOut named.now count scope mirrors.old.items (known_lines lines.old) (known_lines lines.new) (O.contents out.old) (O.contents out.new)) × (all.2.so.portions ≡ []))) }
    ensures rising { OnOk result (IsTrue (rises mirror_space mirrors.new.items)) }
    ensures broken { IfErr result
        (λ fault. IsToldUpTo named.now fault count scope mirrors.old.items (known_lines lines.old) (O.contents out.old) (O.contents out.new)) }
    ensures part { IsSentPart (ended (numbered_text (codes "follow") count)) (W.contents writer.old) (W.contents writer.new) }
    ensures applied { result ≡ Ok true → AreOnlyApplied count scope mirrors.old.items mirrors.new.items (known_lines lines.old) (known_lines lines.new) }
    ensures sent { result ≡ Ok true → IsOut W.Output (ended (numbered_text (codes "follow") count)) writer.old writer.new }
    ensures asked { OnOk result (IsOutOrBroken W.Output (ended (numbered_text (codes "follow") count)) writer.old writer.new) }
    ensures on { OnOk result (ReadsOn lines.old lines.new) }
    ensures prints { OnOk result (WritesOn O.Output out.old out.new) }
    ensures fault { IfErr result (λ fault. IsTalkFault W.Output O.Output fault (AreDuePosts count scope mirrors.old.items) lines.old lines.new writer.old writer.new out.old out.new) }
{
    let follow = numbered_line(alloc, b"follow", count)?;
    if !send_request(lines, writer, follow.as_slice(), out)? {
        return Ok(false);
    }
    if tell_posts(alloc, lines, scope, named, count, mirrors, out)? {
        return Ok(true);
    }
    print_line(out, lines.line())?;
    Ok(false)
}

/// Asks for so many posts, again and again, and tells them, until a refusal stands in the place of a line.
fn tell_portions<R: Input + Drop, W: Output, O: Output>(
    alloc: Global,
    lines: &mut LineReader<R>,
    writer: &mut W,
    scope: Scope,
    named: &NamedTelling<'_>,
    count: u64,
    mirrors: &mut Vec<Mirror>,
    out: &mut O,
) -> Result<(), ClientFault>
    requires fresh { fault_of lines.old ≡ None }
    requires rising { IsTrue (rises mirror_space mirrors.old.items) }
    ensures told { OnOk result ((all : HasToldAllOut named.now count scope mirrors.old.items (known_lines lines.old) (known_lines lines.new) (O.contents out.old) (O.contents out.new))
        × IsOutOrBroken W.Output (follows_text count (length all.2.so.portions + 1)) writer.old writer.new) }
    ensures broken { IfErr result
        (λ fault. IsToldUpTo named.now fault count scope mirrors.old.items (known_lines lines.old) (O.contents out.old) (O.contents out.new)) }
    ensures part { (times : ℕ) × IsSentPart (follows_text count times) (W.contents writer.old) (W.contents writer.new) }
    ensures on { OnOk result (ReadsOn lines.old lines.new) }
    ensures prints { OnOk result (WritesOn O.Output out.old out.new) }
    ensures fault { IfErr result (λ fault. IsTalkFault W.Output O.Output fault (AreDuePortions count scope mirrors.old.items) lines.old lines.new writer.old writer.new out.old out.new) }
{
    'portions: for _portion in 0..MOST_PORTIONS {
        if !tell_portion(alloc, lines, writer, scope, named, count, mirrors, out)? {
            return Ok(());
        }
    }
    Err(ClientFault::Connection)
}

/// Watches a scope and tells each post that comes, in this manner, until a refusal comes in the place of a line, which is
/// printed.
///
/// The reader has met no fault, and serves what comes over the connection. What the watcher found is read and not
/// printed; a namespace that comes later begins with the empty table. Posts are asked for 1,048,576 at a time, and again
/// when so many have come. A post is printed once it is read whole and applied.
///
/// Answers where a refusal was printed: that of the first request, or the one that ends the posts, as `no Stopped` behind
/// a stop; also one that was sent before the server ended a connection over which a request did not go out.
///
/// Refused as `Connection` where the connection fails or ends early, or where what comes is no opening of the scope,
/// no post, a post of another namespace or not the next one of its namespace, an end that counts other posts, or more than
/// 1,048,576 rows of a namespace or 16,384 namespaces; one of which the table is empty then was dropped, and counts no more.
/// Refused as `Output` where what was to be printed does not go out, and else as `NoMemory`. But for `Output` posts that
/// had come were printed then, each whole, and nothing else.
pub fn tell<R: Input + Drop, W: Output, O: Output>(
    alloc: Global,
    lines: &mut LineReader<R>,
    writer: &mut W,
    scope: Scope,
    named: &NamedTelling<'_>,
    out: &mut O,
) -> Result<(), ClientFault>
    requires fresh { fault_of lines.old ≡ None }

    // A refusal was printed that stood in the place of the opening, or the lines that were read are the text of an
    // opening that a server can show to a watcher of the scope, and of posts that are due to it, each the next one of its
    // namespace, and a refusal; each of the posts was told, against the tables that those before it had led
    // to, and then the refusal was printed. The request of the watcher went out, and behind an opening one for each portion
    // of posts that came whole and one more, or calls of the writer failed.
    ensures told { OnOk result (((refusal : List ℕ) × HasRefused refusal (known_lines lines.old) (known_lines lines.new) × Appends (O.contents out.old) (O.contents out.new) (ended refusal)
        × IsOutOrBroken W.Output (ended (watch_text scope)) writer.old writer.new)
        ⊎ ((found : List MirrorView) × (portions : List (List PostView)) × (rest : List PostView) × (refusal : List ℕ)
        × HasTold scope portions rest refusal (known_lines lines.old) (known_lines lines.new) found
        × Appends (O.contents out.old) (O.contents out.new) (posts_told named.now found (all_posts portions rest) ++ ended refusal)
        × IsOutOrBroken W.Output (telling_text scope (length portions + 1)) writer.old writer.new)) }

    // Up to a fault nothing was printed, or what is told of posts that had come, from the first one on, each whole. Where
    // the output failed, a part of one more text was printed, that of a post that is due, or of lines that had come.
    ensures broken { IfErr result
        (λ fault. IsBrokenOff named.now fault scope (known_lines lines.old) (O.contents out.old) (O.contents out.new)) }

    // A part of the requests went out, that of the watcher and some for posts, and nothing else.
    ensures part { (times : ℕ) × IsSentPart (telling_text scope times) (W.contents writer.old) (W.contents writer.new) }

    // `Connection` only where calls of the reader failed, or the lines do not begin with an opening of the scope, posts
    // that are due to it, each portion with its end, and a refusal, nor with a refusal in the place of the opening, or
    // where calls of the writer failed and no refusal comes first. Where no fault of the stream stood, the last call
    // failed then, or was the last of as many interrupted ones in succession as end a read or a send.
    ensures connection { result ≡ Err ClientFault.Connection → IsTrue R.counts → IsTrue W.counts
        → (HasBroken (W.failed writer.old) (W.failed writer.new) (W.faults writer.old) (W.faults writer.new) × IsCut IsOneRefusal lines.old lines.new) ⊎ IsCut (IsRefusedOr (IsTelling scope)) lines.old lines.new }

    // `Output` comes only where calls of the output failed. Where no fault of it stood, the last call failed then, or
    // was the last of as many interrupted ones in succession as end a send.
    ensures output { result ≡ Err ClientFault.Output → IsTrue O.counts
        → HasBroken (O.failed out.old) (O.failed out.new) (O.faults out.old) (O.faults out.new) }
    // What the next call finds: a reader that has met no fault, and where none of a stream stood, none.
    ensures fresh { OnOk result (fault_of lines.new ≡ None) }
    ensures reads { OnOk result (IsTrue R.counts → last_faults lines.old ≡ [] → last_faults lines.new ≡ []) }
    ensures prints { OnOk result (IsTrue O.counts → O.faults out.old ≡ [] → O.faults out.new ≡ []) }
    ensures limit { limit_of lines.new ≡ limit_of lines.old }
{
    let Some(mut mirrors) = watch(alloc, lines, writer, scope, out)? else {
        return Ok(());
    };
    tell_portions(
        alloc,
        lines,
        writer,
        scope,
        named,
        PORTION,
        &mut mirrors,
        out,
    )
}
