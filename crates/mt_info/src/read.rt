//! Rows read back from their lines.
ghost use Rattle.std.specs.Prelude.{◌≡◌, ◌≢◌, ℕ, ◌<◌, ◌^◌, false, true, cond, List, ◌∷◌, ◌++◌, Option, None, Bool, MatchOption, IfOk, IfErr, IsTrue, codes, decimal};
ghost use Rattle.std.specs.List.{join_with_byte};
ghost use Rattle.std.specs.Option.{ForSome};
ghost use Rattle.mt_skel.specs.Names.{is_label};
ghost use Rattle.mt_mounts.specs.declared.mount.Attrs.{Attrs};
ghost use Rattle.mt_mounts.specs.declared.mount.Atime.{Atime};
ghost use Rattle.mt_lines.specs.Words.{begins};
ghost use Rattle.mt_info.specs.declared.row.Row.{Row};
ghost use Rattle.mt_info.specs.declared.read.Tail.{Tail};
ghost use Rattle.mt_info.specs.declared.read.Head.{Head};
ghost use Rattle.mt_info.specs.Beside.{fits_master};
ghost use Rattle.mt_info.specs.RowLine.{line, tag, word_if, option_words, is_noatime, is_relatime};
ghost use Rattle.mt_info.specs.Laws.{IsRow};
ghost use Rattle.mt_info.specs.Reading.{is_first_word, IsTail, tail_words, end_words, IsHead, head_words};

use crate::fields::{read_label, read_minor, read_number, read_path};
use crate::row::Row;
use mt_lines::words::{Pieces, Words, words};
use mt_mounts::mount::{Atime, Attrs, MountId};
use mt_peers::state::GroupId;
use mt_skel::fault::Fault;
use mt_skel::name::Label;
use mt_skel::names::Names;
use mt_skel::skel::FsId;
use std::alloc::Global;

/// Takes the next word.
fn skip(words: &mut Words<'_>)
    ensures { (word : List ℕ) (rest : List (List ℕ)) → words.old ≡ word ∷ rest → words.new ≡ rest }
{
    let _skipped = words.next();
}

/// Takes the next word if it is this one, and answers whether it was.
pub(crate) fn take_word(words: &mut Words<'_>, word: &[u8]) -> bool
    ensures here { result ≡ is_first_word word.now words.old }
    ensures taken { words.old ≡ word_if result word.now ++ words.new }
{
    let Some(first) = words.peek() else {
        return false;
    };
    if first != word {
        return false;
    }
    skip(words);
    true
}

/// The access time that the words of two options say; they never occur together.
fn atime_of(noatime: bool, relatime: bool) -> Option<Atime>
    ensures { MatchOption result ((t : Atime) → is_noatime t ≡ noatime → is_relatime t ≡ relatime → ⊥) (λ t. (is_noatime t ≡ noatime) × (is_relatime t ≡ relatime)) }
{
    match (noatime, relatime) {
        (true, true) => None,
        (true, false) => Some(Atime::Noatime),
        (false, true) => Some(Atime::Relatime),
        (false, false) => Some(Atime::Strictatime),
    }
}

/// Whether the first option of a mount says that it cannot be written.
fn read_access(word: &[u8]) -> Option<bool>
    ensures { MatchOption result ((ro : Bool) → word.now ≢ cond ro (codes "ro") (codes "rw")) (λ ro. word.now ≡ cond ro (codes "ro") (codes "rw")) }
{
    if word == b"ro".as_slice() {
        return Some(true);
    }
    if word == b"rw".as_slice() {
        return Some(false);
    }
    None
}

/// The attributes that the options of a line say.
fn read_options(word: &[u8]) -> Result<Attrs, Fault>
    ensures attrs { IfOk result (λ attrs. word.now ≡ join_with_byte 44 (option_words attrs)) }
    ensures refused { IfErr result (λ fault. (fault ≡ Fault.BadLine) × ((attrs : Attrs) → word.now ≢ join_with_byte 44 (option_words attrs))) }
{
    let mut words = Pieces::new(b',', word);
    let Some(first) = words.next() else {
        return Err(Fault::BadLine);
    };
    let Some(ro) = read_access(first) else {
        return Err(Fault::BadLine);
    };
    let nosuid = take_word(&mut words, b"nosuid");
    let nodev = take_word(&mut words, b"nodev");
    let noexec = take_word(&mut words, b"noexec");
    let noatime = take_word(&mut words, b"noatime");
    let nodiratime = take_word(&mut words, b"nodiratime");
    let relatime = take_word(&mut words, b"relatime");
    let nosymfollow = take_word(&mut words, b"nosymfollow");
    if let Some(_extra) = words.next() {
        return Err(Fault::BadLine);
    }
    let Some(atime) = atime_of(noatime, relatime) else {
        return Err(Fault::BadLine);
    };
    Ok(Attrs {
        ro,
        nosuid,
        nodev,
        noexec,
        nosymfollow,
        nodiratime,
        atime,
    })
}

/// Takes the next word if it begins with a name, and answers the group after it.
fn take_tag(words: &mut Words<'_>, name: &[u8]) -> Result<Option<GroupId>, Fault>
    ensures tag { IfOk result (λ group. words.old ≡ tag name.now group ++ words.new) }
    ensures small { IfOk result (λ group. ForSome group (λ g. g < 2 ^ 64)) }
    ensures none { IfOk result (λ group. group ≡ None → begins name.now words.old ≡ false) }
    ensures refused { IfErr result (λ fault. (fault ≡ Fault.BadLine) × (begins name.now words.old ≡ true) × ((n : ℕ) (rest : List (List ℕ)) → n < 2 ^ 64 → words.old ≢ (name.now ++ decimal n) ∷ rest)) }
{
    let Some(word) = words.peek() else {
        return Ok(None);
    };
    if !word.starts_with(name) {
        return Ok(None);
    }
    let group = read_number(&word[name.len()..])?;
    skip(words);
    Ok(Some(group))
}

/// What stands after the mount's own fields: the optional fields, and the filesystem.
#[derive(Drop)]
struct Tail {
    shared: Option<GroupId>,
    master: Option<GroupId>,
    via: Option<GroupId>,
    unbindable: bool,
    kind: Label,
    source: Label,
}

/// The type and the source of the filesystem, which stand at the end of a line.
fn read_end(alloc: Global, words: &mut Words<'_>) -> Result<(Label, Label), Fault>
    ensures labels { IfOk result (λ p. words.old ≡ end_words p.0 p.1) }
    ensures valid { IfOk result (λ p. IsTrue (is_label p.0) × IsTrue (is_label p.1)) }
    ensures refused { IfErr result (λ fault. fault ≢ Fault.NoMemory → (fault ≡ Fault.BadLine) × ((kind source : List ℕ) → IsTrue (is_label kind) → IsTrue (is_label source) → words.old ≢ end_words kind source)) }
{
    let (Some(dash), Some(kind), Some(source), Some(access), None) = (
        words.next(),
        words.next(),
        words.next(),
        words.next(),
        words.next(),
    ) else {
        return Err(Fault::BadLine);
    };
    if dash != b"-".as_slice() || access != b"rw".as_slice() {
        return Err(Fault::BadLine);
    }
    let kind = read_label(alloc, kind)?;
    let source = read_label(alloc, source)?;
    Ok((kind, source))
}

/// Whether a group may be told as the one from which a mount receives by way of this master: only
/// beside a master, and only if it is another group.
fn fits_master(via: Option<GroupId>, master: Option<GroupId>) -> bool
    ensures { result ≡ fits_master via master }
{
    match (via, master) {
        (None, _) => true,
        (Some(_), None) => false,
        (Some(group), Some(master)) => group != master,
    }
}

/// The optional fields and the filesystem of a line.
fn read_tail(alloc: Global, words: &mut Words<'_>) -> Result<Tail, Fault>
    ensures tail { IfOk result (λ tail. words.old ≡ tail_words tail) }
    ensures valid { IfOk result (λ tail. IsTail tail) }
    ensures refused { IfErr result (λ fault. fault ≢ Fault.NoMemory → (fault ≡ Fault.BadLine) × ((tail : Tail) → IsTail tail → words.old ≢ tail_words tail)) }
{
    let shared = take_tag(words, b"shared:")?;
    let master = take_tag(words, b"master:")?;
    let via = take_tag(words, b"propagate_from:")?;
    if !fits_master(via, master) {
        return Err(Fault::BadLine);
    }
    let unbindable = take_word(words, b"unbindable");
    let (kind, source) = read_end(alloc, words)?;
    Ok(Tail {
        shared,
        master,
        via,
        unbindable,
        kind,
        source,
    })
}

/// The fields that each line has of the mount itself.
#[derive(Drop)]
struct Head {
    id: MountId,
    parent: MountId,
    minor: FsId,
    root: Names,
    point: Names,
    attrs: Attrs,
}

/// The fields of a line before the optional ones.
fn read_head(alloc: Global, words: &mut Words<'_>) -> Result<Head, Fault>
    ensures head { IfOk result (λ head. words.old ≡ head_words head words.new) }
    ensures valid { IfOk result (λ head. IsHead head) }
    ensures refused { IfErr result (λ fault. fault ≢ Fault.NoMemory → (fault ≡ Fault.BadLine) × ((head : Head) (rest : List (List ℕ)) → IsHead head → words.old ≢ head_words head rest)) }
{
    let (Some(id), Some(parent), Some(minor), Some(root), Some(point), Some(options)) = (
        words.next(),
        words.next(),
        words.next(),
        words.next(),
        words.next(),
        words.next(),
    ) else {
        return Err(Fault::BadLine);
    };
    Ok(Head {
        id: read_number(id)?,
        parent: read_number(parent)?,
        minor: read_minor(minor)?,
        root: read_path(alloc, root)?,
        point: read_path(alloc, point)?,
        attrs: read_options(options)?,
    })
}

/// The row of which a text is the line, without its line end. No two rows have one line.
///
/// Refused as `BadLine` exactly where it is the line of no row, and otherwise only as `NoMemory`.
pub fn read_row(alloc: Global, text: &[u8]) -> Result<Row, Fault>
    ensures row { IfOk result (λ row. text.now ≡ line row) }
    ensures valid { IfOk result (λ row. IsRow row) }
    ensures refused { IfErr result (λ fault. fault ≢ Fault.NoMemory → (fault ≡ Fault.BadLine) × ((row : Row) → IsRow row → text.now ≢ line row)) }
{
    let mut words = words(text);
    let head = read_head(alloc, &mut words)?;
    let tail = read_tail(alloc, &mut words)?;
    Ok(Row {
        id: head.id,
        parent: head.parent,
        minor: head.minor,
        root: head.root,
        point: head.point,
        attrs: head.attrs,
        shared: tail.shared,
        master: tail.master,
        via: tail.via,
        unbindable: tail.unbindable,
        kind: tail.kind,
        source: tail.source,
    })
}
