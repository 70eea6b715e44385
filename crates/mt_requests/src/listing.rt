//! The options of a command, as its line has them.
ghost use Rattle.std.specs.Prelude.{◌≡◌, ◌++◌, map, IfOk, OnOk};
ghost use Rattle.mt_info.specs.Building.{behind};
ghost use Rattle.mt_requests.specs.Printed.{set_rows, clr_rows, said_set, said_clr, kind_word, said_prop, behind_comma, words_there};

use mt_peers::state::Kind;
use mt_setattr::change::{Change, ClrWords, SetWords};
use std::alloc::{AllocError, Global};

/// Appends those of some words that are there, each behind a comma.
#[tactic(auto, unfolding(crate::specs::Printed::words_there))]
fn push_listed(list: &mut Vec<u8>, rows: &[(bool, &[u8])]) -> Result<(), AllocError>
    ensures { OnOk result (list.new.items ≡ list.old.items ++ behind 44 (words_there (map (λ r. (r.0, r.1.now)) rows.now))) }
{
    'rows: for row in rows {
        if row.0 {
            list.push(b',')?;
            list.extend_from_slice(row.1)?;
        }
    }
    Ok(())
}

/// The words that are set, each behind a comma.
fn set_list(alloc: Global, set: SetWords) -> Result<Vec<u8>, AllocError>
    ensures { IfOk result (λ list. list.items ≡ behind 44 (words_there (set_rows set))) }
{
    let mut list = Vec::new(alloc);
    push_listed(
        &mut list,
        &[
            (set.ro, b"ro".as_slice()),
            (set.nosuid, b"nosuid".as_slice()),
            (set.nodev, b"nodev".as_slice()),
            (set.noexec, b"noexec".as_slice()),
            (set.nosymfollow, b"nosymfollow".as_slice()),
            (set.nodiratime, b"nodiratime".as_slice()),
            (set.relatime, b"relatime".as_slice()),
            (set.noatime, b"noatime".as_slice()),
            (set.strictatime, b"strictatime".as_slice()),
        ],
    )?;
    Ok(list)
}

/// The words that are cleared, each behind a comma.
fn clr_list(alloc: Global, clr: ClrWords) -> Result<Vec<u8>, AllocError>
    ensures { IfOk result (λ list. list.items ≡ behind 44 (words_there (clr_rows clr))) }
{
    let mut list = Vec::new(alloc);
    push_listed(
        &mut list,
        &[
            (clr.ro, b"ro".as_slice()),
            (clr.nosuid, b"nosuid".as_slice()),
            (clr.nodev, b"nodev".as_slice()),
            (clr.noexec, b"noexec".as_slice()),
            (clr.nosymfollow, b"nosymfollow".as_slice()),
            (clr.nodiratime, b"nodiratime".as_slice()),
            (clr.atime, b"atime".as_slice()),
        ],
    )?;
    Ok(list)
}

/// Appends a key behind a space, and a list without its first comma, unless that is empty.
fn push_option(line: &mut Vec<u8>, key: &[u8], list: &[u8]) -> Result<(), AllocError>
    ensures { OnOk result (line.new.items ≡ line.old.items ++ behind_comma key.now list.now) }
{
    let [_comma, words @ ..] = list else {
        return Ok(());
    };
    line.push(b' ')?;
    line.extend_from_slice(key)?;
    line.extend_from_slice(words)?;
    Ok(())
}

/// Appends the attributes that are set behind a space, if there are some.
#[tactic(auto, using(crate::proofs::ListingLaws::option_lists))]
pub(crate) fn push_set(line: &mut Vec<u8>, set: SetWords) -> Result<(), AllocError>
    ensures { OnOk result (line.new.items ≡ line.old.items ++ behind 32 (said_set set)) }
{
    let list = set_list(*line.allocator(), set)?;
    push_option(line, b"set=", &list)?;
    Ok(())
}

/// Appends the attributes that are cleared behind a space, if there are some.
#[tactic(auto, using(crate::proofs::ListingLaws::option_lists))]
fn push_clr(line: &mut Vec<u8>, clr: ClrWords) -> Result<(), AllocError>
    ensures { OnOk result (line.new.items ≡ line.old.items ++ behind 32 (said_clr clr)) }
{
    let list = clr_list(*line.allocator(), clr)?;
    push_option(line, b"clr=", &list)?;
    Ok(())
}

/// The word of a kind of propagation.
fn kind_word(kind: Kind) -> &'static [u8]
    ensures { result.now ≡ kind_word kind }
{
    match kind {
        Kind::Shared => b"shared",
        Kind::Private => b"private",
        Kind::Slave => b"slave",
        Kind::Unbindable => b"unbindable",
    }
}

/// Appends what mounts are made behind a space, if they are made something.
fn push_prop(line: &mut Vec<u8>, prop: Option<Kind>) -> Result<(), AllocError>
    ensures { OnOk result (line.new.items ≡ line.old.items ++ behind 32 (said_prop prop)) }
{
    let Some(kind) = prop else {
        return Ok(());
    };
    line.extend_from_slice(b" prop=")?;
    line.extend_from_slice(kind_word(kind))?;
    Ok(())
}

/// Appends what a change sets, clears and makes mounts.
pub(crate) fn push_changes(line: &mut Vec<u8>, change: Change) -> Result<(), AllocError>
    ensures { OnOk result (line.new.items ≡ line.old.items ++ behind 32 (said_set change.set ++ (said_clr change.clr ++ said_prop change.prop))) }
{
    push_set(line, change.set)?;
    push_clr(line, change.clr)?;
    push_prop(line, change.prop)?;
    Ok(())
}
