//! The line that tells what is locked of a mount, printed and read back.
ghost use Rattle.std.specs.Prelude.{◌≡◌, ◌≢◌, ◌++◌, IfOk, IfErr, OnOk, IsTrue};
ghost use Rattle.std.specs.List.{flat_map, join_with_byte};
ghost use Rattle.mt_skel.specs.Front.{IsFront};
ghost use Rattle.mt_locks.specs.declared.mount_locks.MountLocks.{MountLocks as AnyLocks};
ghost use Rattle.mt_locks.specs.MountLocks.{locks_some};
ghost use Rattle.mt_info.specs.LockLine.{lock_words, lock_line, whole_lock_line, IsLockRow};

use crate::fields::read_number;
use crate::print::{push_behind_first, push_number, push_option};
use crate::read::take_word;
use mt_lines::words::{Pieces, words};
use mt_locks::mount_locks::MountLocks;
use mt_skel::fault::Fault;
use std::alloc::AllocError;

/// Appends the words of what is locked, joined by commas.
fn push_lock_words(text: &mut Vec<u8>, locks: &MountLocks) -> Result<(), AllocError>
    ensures text { OnOk result (text.new.items ≡ text.old.items ++ join_with_byte 44 (lock_words locks.now)) }
    ensures kept { IsFront text.old.items text.new.items }
{
    let mut fields = Vec::new(*text.allocator());
    push_option(&mut fields, locks.place, b"place")?;
    push_option(&mut fields, locks.ro, b"ro")?;
    push_option(&mut fields, locks.nosuid, b"nosuid")?;
    push_option(&mut fields, locks.nodev, b"nodev")?;
    push_option(&mut fields, locks.noexec, b"noexec")?;
    push_option(&mut fields, locks.atime, b"atime")?;
    push_behind_first(text, &fields)?;
    Ok(())
}

/// Appends the line that tells what is locked of a mount, with its line end.
fn push_lock_line(text: &mut Vec<u8>, locks: &MountLocks) -> Result<(), AllocError>
    ensures text { OnOk result (text.new.items ≡ text.old.items ++ whole_lock_line locks.now) }
    ensures kept { IsFront text.old.items text.new.items }
{
    push_number(text, locks.mount)?;
    text.push(b' ')?;
    push_lock_words(text, locks)?;
    text.push(b'\n')?;
    Ok(())
}

/// Appends the lines that tell what is locked of mounts, each with its line end.
pub fn push_lock_lines(text: &mut Vec<u8>, rows: &[MountLocks]) -> Result<(), AllocError>
    ensures text { OnOk result (text.new.items ≡ text.old.items ++ flat_map whole_lock_line rows.now) }
{
    for row in rows {
        push_lock_line(text, row)?;
    }
    Ok(())
}

/// What the words of a line say to be locked of a mount.
fn read_lock_words(mount: u64, word: &[u8]) -> Result<MountLocks, Fault>
    ensures locks { IfOk result (λ locks. (locks.mount ≡ mount) × (word.now ≡ join_with_byte 44 (lock_words locks)) × IsTrue (locks_some locks)) }
    ensures refused { IfErr result (λ fault. (fault ≡ Fault.BadLine) × ((locks : AnyLocks) → IsTrue (locks_some locks) → word.now ≢ join_with_byte 44 (lock_words locks))) }
{
    let mut words = Pieces::new(b',', word);
    let place = take_word(&mut words, b"place");
    let ro = take_word(&mut words, b"ro");
    let nosuid = take_word(&mut words, b"nosuid");
    let nodev = take_word(&mut words, b"nodev");
    let noexec = take_word(&mut words, b"noexec");
    let atime = take_word(&mut words, b"atime");
    if let Some(_extra) = words.next() {
        return Err(Fault::BadLine);
    }
    let locks = MountLocks {
        mount,
        place,
        ro,
        nosuid,
        nodev,
        noexec,
        atime,
    };
    if !locks.locks_some() {
        return Err(Fault::BadLine);
    }
    Ok(locks)
}

/// What a line tells to be locked of a mount. Refused as `BadLine` exactly where no such line is written like this.
pub fn read_lock_line(line: &[u8]) -> Result<MountLocks, Fault>
    ensures locks { IfOk result (λ locks. line.now ≡ lock_line locks) }
    ensures valid { IfOk result IsLockRow }
    ensures refused { IfErr result (λ fault. (fault ≡ Fault.BadLine) × ((locks : AnyLocks) → IsLockRow locks → line.now ≢ lock_line locks)) }
{
    let mut words = words(line);
    let (Some(first), Some(second), None) = (words.next(), words.next(), words.next()) else {
        return Err(Fault::BadLine);
    };
    let mount = read_number(first)?;
    read_lock_words(mount, second)
}
