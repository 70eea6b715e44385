//! What the book shows to a watcher that begins.
ghost use Rattle.std.specs.Prelude.{◌≡◌, ◌≢◌, ◌+◌, ◌++◌, IfOk, IfErr, OnOk, length};
ghost use Rattle.std.specs.List.{flat_map};
ghost use Rattle.mt_floor.specs.Watcher.{opening_of, is_missing};
ghost use Rattle.mt_floor.specs.Finding.{part_if};
ghost use Rattle.mt_floor.specs.Schedule.{FloorView, opening_refusal};

use crate::watch::WatchKey;
use mt_book::book::Book;
use mt_events::opening::{Opening, Part, Parts, Scope};
use mt_mounts::mount::SpaceId;
use mt_skel::fault::Fault;
use std::alloc::Global;

/// The most watchers at once.
pub const MOST_WATCHERS: usize = 64;

/// Whether the one namespace of a scope is not there. If the scope names all namespaces, none is missing.
fn is_missing(book: &Book, scope: Scope) -> bool
    ensures { result ≡ is_missing book.now.journal scope }
{
    match scope {
        Scope::One(space) => book.number(space).is_err(),
        Scope::All => false,
    }
}

/// Why no watcher of this scope begins at a floor, or at a desk, with this book and this many watchers, of which the
/// last one to begin got this key, and which may have stopped: `NoNamespace`, otherwise `TooManyWatchers`, otherwise
/// `Stopped`.
pub fn opening_refusal(
    book: &Book,
    scope: Scope,
    watchers: usize,
    last_key: WatchKey,
    stopped: bool,
) -> Option<Fault>
    ensures { (s : FloorView) → s.journal ≡ book.now.journal → length s.watchers ≡ watchers → s.next_key ≡ last_key + 1 → s.stopped ≡ stopped → result ≡ opening_refusal s scope }
{
    if is_missing(book, scope) {
        return Some(Fault::NoNamespace);
    }
    if watchers >= MOST_WATCHERS || last_key == u64::MAX {
        return Some(Fault::TooManyWatchers);
    }
    if stopped {
        return Some(Fault::Stopped);
    }
    None
}

/// Appends the number and the table of a namespace, if it is there and followed.
fn push_part(parts: &mut Vec<Part>, book: &Book, scope: Scope, space: SpaceId) -> Result<(), Fault>
    ensures part { OnOk result (parts.new.items ≡ parts.old.items ++ part_if book.now.journal scope space) }
    ensures memory { IfErr result (λ fault. fault ≢ Fault.NoMemory → ⊥) }
{
    if !scope.names(space) {
        return Ok(());
    }
    let Ok(number) = book.number(space) else {
        return Ok(());
    };
    let table = book.table(space)?;
    parts.push(Part {
        space,
        number,
        table,
    })?;
    Ok(())
}

/// The numbers and the tables of those of these namespaces that are there and followed.
fn parts_of(
    alloc: Global,
    book: &Book,
    scope: Scope,
    spaces: &[SpaceId],
) -> Result<Vec<Part>, Fault>
    ensures parts { IfOk result (λ parts. parts.items ≡ flat_map (part_if book.now.journal scope) spaces.now) }
    ensures memory { IfErr result (λ fault. fault ≢ Fault.NoMemory → ⊥) }
{
    let mut parts = Vec::new(alloc);
    'spaces: for space in spaces {
        push_part(&mut parts, book, scope, *space)?;
    }
    Ok(parts)
}

/// What a watcher of this scope finds in a book now: the number and the table of each namespace that is there and that
/// the scope names, by rising namespace.
pub fn found(alloc: Global, book: &Book, scope: Scope) -> Result<Opening, Fault>
    ensures opening { IfOk result (λ opening. opening ≡ opening_of book.now.journal scope) }
    ensures memory { IfErr result (λ fault. fault ≢ Fault.NoMemory → ⊥) }
{
    let spaces = book.spaces()?;
    let parts = parts_of(alloc, book, scope, &spaces)?;
    Ok(Opening {
        scope,
        parts: Parts::new(parts),
    })
}
